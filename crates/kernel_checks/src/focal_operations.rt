//! Tiles of Focal operations.
ghost use Rattle.std.specs.Prelude.{◌≤◌, IfSome};

use crate::makers::{NULL, layer_of, tile_values};
use focal_ops::focal_tile;
use layer_tiles::{Change, Extent, KernelRefusal, Layer, Value};
use map_nums::Stat;
use map_outside::Counts;
use std::alloc::Global;
use std::process::Abort;
use std::test::Fail;

/// The values of a tile of a statistic, or the cell whose value is out of range. There is no tile where memory is out, or no
/// such tile.
fn tile_of(
    alloc: Global,
    stat: Stat,
    layer: &Layer,
    radius: Option<u32>,
    tile: u32,
) -> Option<Result<Vec<Option<Value>>, u32>>
    requires { IfSome radius (λ r. r ≤ 32) }
{
    if tile >= layer.extent().tiles() {
        return None;
    }
    let change = Change::same(layer);
    match focal_tile(alloc, stat, &change, radius, tile, &mut Counts::new()) {
        Ok(made) => Some(Ok(tile_values(alloc, &made).ok()?)),
        Err(KernelRefusal::Overflow(at)) => Some(Err(at)),
        Err(KernelRefusal::NoMemory) => None,
    }
}

/// A tile of a statistic has these values.
fn makes(
    rt: &(impl AllocGlobal + Abort),
    stat: Stat,
    layer: &Layer,
    radius: Option<u32>,
    tile: u32,
    want: &[Option<Value>],
)
    requires { IfSome radius (λ r. r ≤ 32) }
{
    match tile_of(rt.alloc(), stat, layer, radius, tile) {
        Some(Ok(values)) => assert_eq!(rt; values.as_slice(), want),
        _ => panic!(rt; "no tile"),
    }
}

#[test]
fn one_cell(rt: HostRuntime) -> Result<(), Fail> {
    let extent = Extent::new(1, 1).ok_or("limits")?;
    let seven = layer_of(rt.alloc(), extent, &[7])?;
    makes(&rt, Stat::Sum, &seven, None, 0, &[Some(7)]);
    makes(&rt, Stat::Median, &seven, Some(32), 0, &[Some(7)]);
    let null = layer_of(rt.alloc(), extent, &[NULL])?;
    makes(&rt, Stat::Sum, &null, None, 0, &[None]);
    makes(&rt, Stat::Maximum, &null, Some(1), 0, &[None]);
    makes(&rt, Stat::Variety, &null, Some(1), 0, &[None]);
    Ok(())
}

#[test]
fn across_tiles(rt: HostRuntime) -> Result<(), Fail> {
    let extent = Extent::new(33, 33).ok_or("limits")?;
    let mut values = [1; 1089];
    let before = layer_of(rt.alloc(), extent, &values)?;
    makes(&rt, Stat::Sum, &before, None, 3, &[Some(4)]);
    values[1054] = 2;
    let after = layer_of(rt.alloc(), extent, &values)?;
    makes(&rt, Stat::Sum, &after, None, 3, &[Some(5)]);
    makes(&rt, Stat::Maximum, &after, Some(2), 3, &[Some(2)]);
    makes(&rt, Stat::Maximum, &after, Some(1), 3, &[Some(1)]);
    match tile_of(rt.alloc(), Stat::Sum, &after, None, 0) {
        Some(Ok(values)) => assert_eq!(&rt; values.first(), Some(&Some(4))),
        _ => panic!(&rt; "no tile"),
    }
    Ok(())
}

#[test]
fn ties(rt: HostRuntime) -> Result<(), Fail> {
    let extent = Extent::new(1, 3).ok_or("limits")?;
    let layer = layer_of(rt.alloc(), extent, &[-3, -4, 5])?;
    let least = [Some(-4), Some(-4), Some(-4)];
    makes(&rt, Stat::Majority, &layer, None, 0, &least);
    makes(&rt, Stat::Minority, &layer, None, 0, &least);
    let means = [Some(-4), Some(-1), Some(0)];
    makes(&rt, Stat::Mean, &layer, None, 0, &means);
    Ok(())
}

/// The first row of a map of four rows and five columns, with one null below it, in a disc of radius 2.
#[test]
fn discs(rt: HostRuntime) -> Result<(), Fail> {
    let extent = Extent::new(4, 5).ok_or("limits")?;
    let cells = [
        3, -1, 4, 1, -5, 9, NULL, 2, -6, 5, 3, 5, 8, 9, 7, -9, 3, 2, 3, 8,
    ];
    let layer = layer_of(rt.alloc(), extent, &cells)?;
    for (stat, want) in [
        (Stat::Sum, [18, 23, 6, 9, 6]),
        (Stat::Mean, [3, 3, 0, 1, 1]),
        (Stat::Maximum, [9, 9, 8, 9, 7]),
        (Stat::Minimum, [-1, -1, -6, -6, -6]),
        (Stat::Median, [3, 3, 1, 1, 1]),
        (Stat::Majority, [3, -1, -6, -6, -6]),
        (Stat::Minority, [-1, -1, -6, -6, -6]),
        (Stat::Variety, [4, 7, 8, 8, 6]),
    ] {
        let Some(Ok(values)) = tile_of(rt.alloc(), stat, &layer, Some(2), 0) else {
            return Err(Fail::from("no tile"));
        };
        for c in 0..5 {
            assert_eq!(&rt; values.get(c).copied().flatten(), Some(want[c]));
        }
    }
    Ok(())
}

#[test]
fn sums_out_of_range(rt: HostRuntime) -> Result<(), Fail> {
    let extent = Extent::new(1, 5).ok_or("limits")?;
    let layer = layer_of(rt.alloc(), extent, &[1, 0, 0, 1_000_000_000_000_000, 1])?;
    assert!(&rt;
        matches!(
            tile_of(rt.alloc(), Stat::Sum, &layer, None, 0),
            Some(Err(3))
        )
    );
    let means = [
        Some(0),
        Some(0),
        Some(333_333_333_333_333),
        Some(333_333_333_333_333),
        Some(500_000_000_000_000),
    ];
    makes(&rt, Stat::Mean, &layer, None, 0, &means);
    Ok(())
}
