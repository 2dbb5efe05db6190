//! Tiles of the Incremental forms.
use crate::makers::{NULL, layer_of, tile_values};
use incremental_ops::{Shape, shape_tile};
use layer_tiles::{Change, Extent, KernelRefusal, Layer, Value};
use map_outside::Counts;
use std::alloc::Global;
use std::process::Abort;
use std::test::Fail;

/// The values of the first tile of a form, or the cell whose value is out of range. There is no tile where memory is out.
fn tile_of(alloc: Global, shape: Shape, layer: &Layer) -> Option<Result<Vec<Option<Value>>, u32>> {
    if layer.extent().tiles() == 0 {
        return None;
    }
    let change = Change::same(layer);
    match shape_tile(alloc, shape, &change, 0, &mut Counts::new()) {
        Ok(made) => Some(Ok(tile_values(alloc, &made).ok()?)),
        Err(KernelRefusal::Overflow(at)) => Some(Err(at)),
        Err(KernelRefusal::NoMemory) => None,
    }
}

/// The value of a form at a place.
fn value_at(alloc: Global, shape: Shape, layer: &Layer, at: usize) -> Option<Value> {
    match tile_of(alloc, shape, layer) {
        Some(Ok(values)) => values.get(at).copied().flatten(),
        _ => None,
    }
}

#[test]
fn one_cell(rt: HostRuntime) -> Result<(), Fail> {
    let extent = Extent::new(1, 1).ok_or("limits")?;
    let layer = layer_of(rt.alloc(), extent, &[7])?;
    for (shape, want) in [
        (Shape::Linkage, 0),
        (Shape::Length, 0),
        (Shape::Partition, 15),
        (Shape::Frontage, 40),
        (Shape::Gradient, 0),
        (Shape::Aspect, 0),
    ] {
        assert_eq!(&rt; value_at(rt.alloc(), shape, &layer, 0), Some(want));
    }
    let null = layer_of(rt.alloc(), extent, &[NULL])?;
    assert_eq!(&rt; value_at(rt.alloc(), Shape::Frontage, &null, 0), None);
    Ok(())
}

/// The middle one of nine cells has these forms.
fn has_forms(
    rt: &(impl AllocGlobal + Abort),
    cells: &[Value],
    wants: &[(Shape, Value)],
) -> Result<(), Fail> {
    let layer = layer_of(rt.alloc(), Extent::new(3, 3).ok_or("limits")?, cells)?;
    for (shape, want) in wants {
        assert_eq!(rt; value_at(rt.alloc(), *shape, &layer, 4), Some(*want));
    }
    Ok(())
}

#[test]
fn the_middle_cell(rt: HostRuntime) -> Result<(), Fail> {
    let slopes = [(Shape::Gradient, 25), (Shape::Aspect, 1)];
    has_forms(&rt, &[1, 2, 3, 4, 5, 6, 7, 8, 9], &slopes)?;
    let sides = [
        (Shape::Linkage, 137),
        (Shape::Length, 19),
        (Shape::Partition, 14),
        (Shape::Frontage, 30),
    ];
    has_forms(&rt, &[1, 1, 2, 2, 1, 2, 2, 2, 1], &sides)
}

/// A map of four rows and five columns, with one null.
#[test]
fn slopes(rt: HostRuntime) -> Result<(), Fail> {
    let extent = Extent::new(4, 5).ok_or("limits")?;
    let cells = [
        3, -1, 4, 1, -5, 9, NULL, 2, -6, 5, 3, 5, 8, 9, 7, -9, 3, 2, 3, 8,
    ];
    let layer = layer_of(rt.alloc(), extent, &cells)?;
    let gradients = [
        14, 13, 15, 17, 21, 15, NULL, 24, 32, 38, 36, 26, 7, 22, 19, 53, 28, 22, 23, 9,
    ];
    let aspects = [
        2, 1, 4, 4, 2, 2, NULL, 2, 1, 8, 5, 6, 2, 1, 8, 6, 7, 5, 6, 7,
    ];
    for (shape, want) in [(Shape::Gradient, gradients), (Shape::Aspect, aspects)] {
        let Some(Ok(values)) = tile_of(rt.alloc(), shape, &layer) else {
            return Err(Fail::from("no tile"));
        };
        for at in 0..20 {
            let value = values.get(at).copied().flatten().unwrap_or(NULL);
            assert_eq!(&rt; value, want[at]);
        }
    }
    Ok(())
}

#[test]
fn gradients_out_of_range(rt: HostRuntime) -> Result<(), Fail> {
    let extent = Extent::new(1, 4).ok_or("limits")?;
    let low = layer_of(rt.alloc(), extent, &[0, 0, 500_000_000_000_000, 0])?;
    assert_eq!(&rt;
        value_at(rt.alloc(), Shape::Gradient, &low, 1),
        Some(1_000_000_000_000_000)
    );
    let high = layer_of(rt.alloc(), extent, &[0, 0, 500_000_000_000_001, 0])?;
    assert!(&rt; matches!(tile_of(rt.alloc(), Shape::Gradient, &high), Some(Err(1))));
    Ok(())
}
