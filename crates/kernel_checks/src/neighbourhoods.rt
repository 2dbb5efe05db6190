//! The cells round a tile, gathered across tiles; null off the map.
use crate::makers::{layer_of, numbers};
use layer_tiles::{Change, Extent, Layer};
use map_outside::Counts;
use near_cells::NearCells;
use std::process::Abort;
use std::test::Fail;

/// The cells round the last one of 33 rows and columns, by four looks.
fn gathers(rt: &(impl AllocGlobal + Abort), layer: &Layer) -> Result<(), Fail> {
    assert!(rt; 3 < layer.extent().tiles());
    let mut tally = Counts::new();
    let near = NearCells::of_change(rt.alloc(), &Change::same(layer), 3, 1, &mut tally)?;
    assert_eq!(rt; [near.height(), near.width()], [3, 3]);
    let wanted = [
        Some(1054),
        Some(1055),
        None,
        Some(1087),
        Some(1088),
        None,
        None,
        None,
        None,
    ];
    for (seen, want) in near.cells().iter().zip(wanted.iter()) {
        assert_eq!(rt; seen.get(), *want);
    }
    assert_eq!(rt; (tally.looks(), tally.picks()), (4, 0));
    Ok(())
}

#[test]
fn corner_of_four_tiles(rt: HostRuntime) -> Result<(), Fail> {
    let extent = Extent::new(33, 33).ok_or("limits")?;
    let layer = layer_of(rt.alloc(), extent, &numbers())?;
    gathers(&rt, &layer)
}
