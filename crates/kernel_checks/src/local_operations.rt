//! Whole rows of cells, as a second program gives them.
ghost use Rattle.std.specs.Prelude.{◌≡◌, ◌<◌, ◌≤◌, length};
ghost use Rattle.std.specs.List.{All};
ghost use Rattle.layer_tiles.specs.Tiles.{tiles_in};
ghost use Rattle.layer_tiles.specs.Operands.{size_of};
ghost use Rattle.local_ops.specs.Operations.{op_of, Takes};

use crate::makers::{NULL, cell, first_row, layer_of};
use crate::statistics::STATS;
use layer_tiles::{Cell, Change, Extent, KernelRefusal, Layer, Operands, Value};
use local_ops::{LocalOp, Rates, local_tile};
use map_nums::{Rate, Stat, VMAX, in_range};
use map_outside::Counts;
use std::alloc::Global;
use std::process::Abort;
use std::test::Fail;

/// The first row of a tile that an operation makes, or the cell whose value is out of range; none where memory is out.
fn row_by(
    alloc: Global,
    op: &LocalOp,
    operands: &Operands<'_>,
    tile: u32,
) -> Option<Result<Vec<Option<Value>>, u32>>
    requires takes { Takes (op_of op.now) (length operands.now) }
    requires one_size { All (λ c. c.size ≡ size_of operands.now) operands.now }
    requires within { tile < tiles_in (size_of operands.now) }
{
    match local_tile(alloc, op, operands, tile, &mut Counts::new()) {
        Ok(made) => Some(Ok(first_row(alloc, &made).ok()?)),
        Err(KernelRefusal::Overflow(at)) => Some(Err(at)),
        Err(KernelRefusal::NoMemory) => None,
    }
}

/// The same of a layer and a cell everywhere; none where the layer has no such tile.
fn row_with(
    alloc: Global,
    op: &LocalOp,
    layer: &Layer,
    other: Value,
    tile: u32,
) -> Option<Result<Vec<Option<Value>>, u32>>
    requires { Takes (op_of op.now) 2 }
{
    if tile >= layer.extent().tiles() {
        return None;
    }
    let mut operands = Operands::new();
    operands.push(Change::same(layer));
    operands.push(Change::constant(layer.extent(), cell(other)));
    row_by(alloc, op, &operands, tile)
}

/// An operation of a layer of one tile and a number makes this row.
fn makes(
    rt: &(impl AllocGlobal + Abort),
    op: &LocalOp,
    layer: &Layer,
    other: Value,
    want: [Option<Value>; 3],
)
    requires { Takes (op_of op.now) 2 }
{
    match row_with(rt.alloc(), op, layer, other, 0) {
        Some(Ok(row)) => assert_eq!(rt; row.as_slice(), want.as_slice()),
        _ => panic!(rt; "no row"),
    }
}

#[test]
fn ties_and_floors(rt: HostRuntime) -> Result<(), Fail> {
    let layer = layer_of(rt.alloc(), Extent::new(1, 3).ok_or("limits")?, &[-3, -4, 5])?;
    let mean = LocalOp::Stat(Stat::Mean);
    makes(&rt, &mean, &layer, -4, [Some(-4), Some(-4), Some(0)]);
    let median = LocalOp::Stat(Stat::Median);
    makes(&rt, &median, &layer, 0, [Some(-3), Some(-4), Some(0)]);
    makes(
        &rt,
        &LocalOp::Ratio,
        &layer,
        2,
        [Some(-2), Some(-2), Some(2)],
    );
    makes(&rt, &LocalOp::Ratio, &layer, 0, [None, None, None]);
    makes(
        &rt,
        &LocalOp::Difference,
        &layer,
        5,
        [Some(-8), Some(-9), Some(0)],
    );
    Ok(())
}

#[test]
fn overflow_in_either_tile(rt: HostRuntime) -> Result<(), Fail> {
    let extent = Extent::new(1, 33).ok_or("limits")?;
    for (last, tile, want) in [
        (2_050_000, 0, Err(31)),
        (2_050_000, 1, Err(32)),
        (2_000_000, 0, Ok(Some(25_000_000_000_000))),
        (2_000_000, 1, Ok(Some(1_000_000_000_000_000))),
    ] {
        let mut values = [50_000; 33];
        values[31] = last;
        values[32] = last;
        let layer = layer_of(rt.alloc(), extent, &values)?;
        let product = LocalOp::Stat(Stat::Product);
        let first = match row_with(rt.alloc(), &product, &layer, 500_000_000, tile).ok_or(
            "no row",
        )? {
            Ok(row) => Ok(row.first().copied().flatten()),
            Err(at) => Err(at),
        };
        assert_eq!(rt; first, want);
    }
    Ok(())
}

/// The first row of the tile that an operation makes of one layer.
fn row_of(
    alloc: Global,
    op: &LocalOp,
    layer: &Layer,
    tally: &mut Counts,
) -> Option<Vec<Option<Value>>>
    requires { Takes (op_of op.now) 1 }
{
    if layer.extent().tiles() == 0 {
        return None;
    }
    let mut operands = Operands::new();
    operands.push(Change::same(layer));
    let made = local_tile(alloc, op, &operands, 0, tally).ok()?;
    first_row(alloc, &made).ok()
}

/// An operation of one layer makes this row, by one look.
fn rates_to(rt: &(impl AllocGlobal + Abort), op: &LocalOp, layer: &Layer, want: &[Option<Value>])
    requires { Takes (op_of op.now) 1 }
{
    let mut tally = Counts::new();
    match row_of(rt.alloc(), op, layer, &mut tally) {
        Some(row) => assert_eq!(rt; row.as_slice(), want),
        None => panic!(rt; "no row"),
    }
    assert_eq!(rt; (tally.looks(), tally.picks()), (1, 0));
}

#[test]
fn ratings(rt: HostRuntime) -> Result<(), Fail> {
    let rates = [
        Rate {
            low: 1,
            high: 3,
            give: Some(9),
        },
        Rate {
            low: 3,
            high: 5,
            give: None,
        },
    ];
    let op = LocalOp::Rating(Rates::of(rt.alloc(), &rates)?);
    let extent = Extent::new(1, 4).ok_or("limits")?;
    let layer = layer_of(rt.alloc(), extent, &[3, 5, 6, -1])?;
    rates_to(&rt, &op, &layer, &[Some(9), None, Some(6), Some(-1)]);
    Ok(())
}

/// The first row of a statistic of a layer, a cell everywhere and the layer again.
fn row_of_three(
    alloc: Global,
    stat: Stat,
    layer: &Layer,
    middle: Cell,
) -> Option<Vec<Option<Value>>> {
    if layer.extent().tiles() == 0 {
        return None;
    }
    let mut operands = Operands::new();
    operands.push(Change::same(layer));
    operands.push(Change::constant(layer.extent(), middle));
    operands.push(Change::same(layer));
    let op = LocalOp::Stat(stat);
    let made = local_tile(alloc, &op, &operands, 0, &mut Counts::new()).ok()?;
    first_row(alloc, &made).ok()
}

/// A statistic of a layer of one cell, a cell and the layer again is this.
fn is_of_three(
    rt: &(impl AllocGlobal + Abort),
    stat: Stat,
    layer: &Layer,
    middle: Cell,
    want: Option<Value>,
) {
    match row_of_three(rt.alloc(), stat, layer, middle) {
        Some(row) => assert_eq!(rt; row.as_slice(), [want].as_slice(), "{stat:?}"),
        None => panic!(rt; "no row"),
    }
}

#[test]
fn statistics_of_three(rt: HostRuntime) -> Result<(), Fail> {
    let one = layer_of(rt.alloc(), Extent::new(1, 1).ok_or("limits")?, &[5])?;
    for (stat, want) in [
        (Stat::Sum, 12),
        (Stat::Product, 50),
        (Stat::Maximum, 5),
        (Stat::Minimum, 2),
        (Stat::Mean, 4),
        (Stat::Median, 5),
        (Stat::Majority, 5),
        (Stat::Minority, 2),
        (Stat::Variety, 2),
    ] {
        is_of_three(&rt, stat, &one, cell(2), Some(want));
        is_of_three(&rt, stat, &one, Cell::null(), None);
    }
    Ok(())
}

/// The first cell that a statistic makes of cells everywhere where nulls are passed over.
fn cell_of(alloc: Global, stat: Stat, values: &[Value]) -> Option<Result<Option<Value>, u32>>
    requires least { 2 ≤ length values.now }
    requires most { length values.now ≤ 8 }
{
    let extent = Extent::new(1, 1)?;
    let mut operands = Operands::new();
    for value in values {
        operands.push(Change::constant(extent, cell(*value)));
    }
    if operands.get(0)?.extent().tiles() == 0 {
        return None;
    }
    match row_by(alloc, &LocalOp::Ignoring(stat), &operands, 0)? {
        Ok(row) => Some(Ok(row.first().copied().flatten())),
        Err(at) => Some(Err(at)),
    }
}

/// Cells have these statistics where nulls are passed over, in the order of `STATS`; null ones where none are given.
fn passes_over(rt: &(impl AllocGlobal + Abort), values: &[Value], wants: Option<[i128; 9]>) {
    if values.len() < 2 || values.len() > 8 {
        panic!(rt; "operands");
    }
    for (k, stat) in STATS.iter().enumerate() {
        let wanted = match wants {
            Some(numbers) => in_range(numbers[k]).map(Some).ok_or(0),
            None => Ok(None),
        };
        assert_eq!(rt;
            cell_of(rt.alloc(), *stat, values),
            Some(wanted),
            "{stat:?}"
        );
    }
}

#[test]
fn nulls_passed_over(rt: HostRuntime) {
    let top = VMAX as i128;
    let rows: [(&[Value], Option<[i128; 9]>); 14] = [
        (&[5, NULL], Some([5, 5, 5, 5, 5, 5, 5, 5, 1])),
        (&[NULL, -7], Some([-7, -7, -7, -7, -7, -7, -7, -7, 1])),
        (&[NULL, NULL], None),
        (&[-3, -4], Some([-7, 12, -3, -4, -4, -4, -4, -4, 2])),
        (
            &[VMAX, NULL],
            Some([top, top, top, top, top, top, top, top, 1]),
        ),
        (
            &[VMAX, 1],
            Some([top + 1, top, top, 1, top / 2, 1, 1, 1, 2]),
        ),
        (&[NULL, NULL, NULL], None),
        (&[-7, NULL, 2], Some([-5, -14, 2, -7, -3, -7, -7, -7, 2])),
        (
            &[3, -1, 4, 1, -5, 9, 2, -6],
            Some([7, -6480, 9, -6, 0, 1, -6, -6, 8]),
        ),
        (
            &[NULL, 2, 1, NULL, 2, 1, 3, NULL],
            Some([9, 12, 3, 1, 1, 2, 1, 3, 3]),
        ),
        (
            &[4, 4, NULL, -6, -6, NULL, NULL, 9],
            Some([5, 5184, 9, -6, 1, 4, -6, 9, 3]),
        ),
        (
            &[NULL, NULL, NULL, NULL, NULL, NULL, NULL, 4],
            Some([4, 4, 4, 4, 4, 4, 4, 4, 1]),
        ),
        (
            &[-8, NULL, NULL, NULL, NULL, NULL, NULL, NULL],
            Some([-8, -8, -8, -8, -8, -8, -8, -8, 1]),
        ),
        (&[NULL, NULL, NULL, NULL, NULL, NULL, NULL, NULL], None),
    ];
    for (values, wants) in rows {
        passes_over(&rt, values, wants);
    }
}
