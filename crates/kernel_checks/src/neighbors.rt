//! Numbers of nearest sources, first and repaired.
ghost use Rattle.std.specs.Prelude.{◌≡◌, ◌<◌, ◌≤ℤ◌, pos, nat_abs, length, IfOk};
ghost use Rattle.map_nums.specs.Grids.{cells_in};
ghost use Rattle.map_nums.specs.Numbers.{greatest_value};
ghost use Rattle.map_defs.specs.Nearest.{AreNearest};
ghost use Rattle.map_defs.specs.Spread.{IsSpread};
ghost use Rattle.layer_tiles.specs.Changes.{cells_before};
ghost use Rattle.friction_spread.specs.Bands.{ground_of};
ghost use Rattle.friction_spread.specs.Repairs.{IsRightBefore};
ghost use Rattle.friction_neighbor.specs.Bands.{IsNearestList};

use crate::makers::{NULL, cell, hold, layer_of, patch_with, tile_values, values_of};
use friction_neighbor::{
    Nearest, NearestList, NearestRepair, nearest_of_band, nearest_of_bands, neighbor_repair,
};
use layer_tiles::{Cell, Change, Extent, Layer, NoMemory, Value};
use map_outside::Counts;
use std::alloc::Global;
use std::test::Fail;

/// The greatest cost that counts where nothing is said.
const MOST: Value = 1_000_000_000_000_000;

/// Which operand is repainted.
#[derive(Clone, Copy)]
enum Operand {
    Sources,
    Friction,
}

/// Costs and numbers that were not there, and their work.
fn first(
    alloc: Global,
    sources: &Layer,
    friction: &Layer,
    limit: Value,
) -> Result<(Layer, Layer, u64), Fail>
    requires size { friction.now.size ≡ sources.now.size }
    requires limit { (pos 0 ≤ℤ limit) × (limit ≤ℤ pos greatest_value) }
    ensures sizes { IfOk result (λ r. (r.0.size ≡ sources.now.size) × (r.1.size ≡ sources.now.size)) }
    ensures costs { IfOk result (λ r. IsSpread sources.now.size sources.now.cells friction.now.cells (nat_abs limit) r.0.cells) }
    ensures numbers { IfOk result (λ r. AreNearest sources.now.size sources.now.cells friction.now.cells (nat_abs limit) r.1.cells) }
{
    let still = Change::same(sources);
    let ground = Change::same(friction);
    let repair = neighbor_repair(alloc, None, &still, &ground, limit, &mut Counts::new())?;
    let worked = repair.worked;
    let costs = Layer::fresh(repair.cost, 1);
    Ok((costs, Layer::fresh(repair.value, 1), worked))
}

/// Costs and numbers put right.
fn put_right(
    alloc: Global,
    cost: &Layer,
    value: &Layer,
    sources: &Change<'_>,
    friction: &Change<'_>,
    limit: Value,
) -> Result<NearestRepair, NoMemory>
    requires size { friction.now.size ≡ sources.now.size }
    requires limit { (pos 0 ≤ℤ limit) × (limit ≤ℤ pos greatest_value) }
    requires costs { IsRightBefore sources.now friction.now (nat_abs limit) cost.now }
    requires numbers { (value.now.size ≡ sources.now.size) × AreNearest sources.now.size (cells_before sources.now) (cells_before friction.now) (nat_abs limit) value.now.cells }
    ensures sizes { IfOk result (λ r. (r.cost.size ≡ sources.now.size) × (r.value.size ≡ sources.now.size)) }
{
    let old = Nearest { cost, value };
    neighbor_repair(
        alloc,
        Some(old),
        sources,
        friction,
        limit,
        &mut Counts::new(),
    )
}

/// The costs and the numbers after an operand's tile 0 became that of other values, and their work.
fn repaired(
    alloc: Global,
    sources: &Layer,
    friction: &Layer,
    limit: Value,
    operand: Operand,
    other: &[Value],
) -> Result<(Layer, Layer, u64), Fail>
    requires size { friction.now.size ≡ sources.now.size }
    requires limit { (pos 0 ≤ℤ limit) × (limit ≤ℤ pos greatest_value) }
{
    let (mut costs, mut numbers, _) = first(alloc, sources, friction, limit)?;
    let patch = patch_with(alloc, sources.extent(), other)?;
    let repair = match operand {
        Operand::Sources => {
            let (starts, ground) = (Change::patched(sources, &patch), Change::same(friction));
            put_right(alloc, &costs, &numbers, &starts, &ground, limit)?
        }
        Operand::Friction => {
            let (starts, ground) = (Change::same(sources), Change::patched(friction, &patch));
            put_right(alloc, &costs, &numbers, &starts, &ground, limit)?
        }
    };
    costs.commit(repair.cost, 2);
    numbers.commit(repair.value, 2);
    Ok((costs, numbers, repair.worked))
}

/// The values of both operands, row by row.
#[derive(Clone, Copy)]
struct Ground<'v> {
    extent: Extent,
    sources: &'v [Value],
    friction: &'v [Value],
}

/// Whether numbers that were not there are these, with this work.
fn begins(alloc: Global, ground: &Ground<'_>, wanted: &[Value], work: u64) -> Result<bool, Fail> {
    let sources = layer_of(alloc, ground.extent, ground.sources)?;
    let friction = layer_of(alloc, ground.extent, ground.friction)?;
    let (_, numbers, worked) = first(alloc, &sources, &friction, MOST)?;
    Ok(worked == work && hold(&values_of(alloc, &numbers)?, wanted))
}

/// Whether numbers are these, with this work, after an operand became these values.
fn becomes(
    alloc: Global,
    ground: &Ground<'_>,
    operand: Operand,
    other: &[Value],
    wanted: &[Value],
    work: u64,
) -> Result<bool, Fail> {
    let sources = layer_of(alloc, ground.extent, ground.sources)?;
    let friction = layer_of(alloc, ground.extent, ground.friction)?;
    let (_, numbers, worked) = repaired(alloc, &sources, &friction, MOST, operand, other)?;
    Ok(worked == work && hold(&values_of(alloc, &numbers)?, wanted))
}

/// A number at each end of a row.
const ENDS: [Value; 5] = [3, NULL, NULL, NULL, 2];

/// Both operands of a row.
fn row<'v>(extent: Extent, sources: &'v [Value], friction: &'v [Value]) -> Ground<'v> {
    Ground {
        extent,
        sources,
        friction,
    }
}

#[test]
fn ties_costs_and_a_lost_source(rt: HostRuntime) -> Result<(), Fail> {
    let extent = Extent::new(1, 5).ok_or("limits")?;
    let even = [3, 3, 2, 2, 2];
    let (ones, one, two) = ([1; 5], [1, 5, 1, 1, 1], [1, 5, 1, 5, 1]);
    let alone = [3, NULL, NULL, NULL, NULL];
    let (plain, risen) = (row(extent, &ENDS, &ones), row(extent, &ENDS, &one));
    let twice = row(extent, &ENDS, &two);
    assert!(rt; begins(rt.alloc(), &plain, &even, 10)?);
    assert!(rt; becomes(rt.alloc(), &plain, Operand::Friction, &one, &even, 2)?);
    assert!(rt; becomes(rt.alloc(), &risen, Operand::Friction, &two, &even, 3)?);
    assert!(rt; becomes(rt.alloc(), &twice, Operand::Sources, &alone, &[3; 5], 4)?);
    Ok(())
}

/// A map of four rows and six columns.
type Small = [Value; 24];

/// The next number of a row of scattered ones.
fn scattered(seed: u32) -> u32 {
    let mixed = seed.wrapping_mul(2_654_435_761).wrapping_add(40_503);
    (mixed ^ (mixed >> 15)).wrapping_mul(2_246_822_519)
}

/// The cells of both layers, one after another.
fn values_of_both(
    alloc: Global,
    costs: &Layer,
    numbers: &Layer,
) -> Result<Vec<Option<Value>>, NoMemory> {
    let mut values = values_of(alloc, costs)?;
    values.extend_from_slice(&values_of(alloc, numbers)?)?;
    Ok(values)
}

/// The costs and numbers of a map that are made anew, and their work.
fn made(
    alloc: Global,
    sources: &Small,
    friction: &Small,
    limit: Value,
) -> Result<(Vec<Option<Value>>, u64), Fail>
    requires { (pos 0 ≤ℤ limit) × (limit ≤ℤ pos greatest_value) }
{
    let extent = Extent::new(4, 6).ok_or("limits")?;
    let begun = layer_of(alloc, extent, sources)?;
    let ground = layer_of(alloc, extent, friction)?;
    let (costs, numbers, worked) = first(alloc, &begun, &ground, limit)?;
    Ok((values_of_both(alloc, &costs, &numbers)?, worked))
}

/// The costs and numbers of a map after one operand became other values.
fn mended(
    alloc: Global,
    sources: &Small,
    friction: &Small,
    limit: Value,
    operand: Operand,
    other: &Small,
) -> Result<Vec<Option<Value>>, Fail>
    requires { (pos 0 ≤ℤ limit) × (limit ≤ℤ pos greatest_value) }
{
    let extent = Extent::new(4, 6).ok_or("limits")?;
    let begun = layer_of(alloc, extent, sources)?;
    let ground = layer_of(alloc, extent, friction)?;
    let (costs, numbers, _) = repaired(alloc, &begun, &ground, limit, operand, other)?;
    Ok(values_of_both(alloc, &costs, &numbers)?)
}

/// Whether a repair after one operand became other values makes what is made anew.
fn agrees(
    alloc: Global,
    sources: &Small,
    friction: &Small,
    limit: Value,
    operand: Operand,
    other: &Small,
) -> Result<bool, Fail>
    requires { (pos 0 ≤ℤ limit) × (limit ≤ℤ pos greatest_value) }
{
    let (starts, steps) = match operand {
        Operand::Sources => (other, friction),
        Operand::Friction => (sources, other),
    };
    let (anew, _) = made(alloc, starts, steps, limit)?;
    Ok(mended(alloc, sources, friction, limit, operand, other)? == anew)
}

/// Sources of two numbers in few places.
fn source(number: u32) -> Value {
    match number % 6 {
        0 => 1,
        1 => 2,
        _ => NULL,
    }
}

/// Frictions of two numbers, and a barrier here and there.
fn friction(number: u32) -> Value {
    match number % 8 {
        0 => 0,
        1 | 2 | 3 => 2,
        _ => 1,
    }
}

/// The limit of a round.
fn limit_of(round: u32) -> Value
    ensures { (pos 0 ≤ℤ result) × (result ≤ℤ pos greatest_value) }
{
    match round % 5 {
        0 => 0,
        1 => 1,
        2 => 25,
        _ => MOST,
    }
}

#[test]
fn five_hundred_repairs_are_as_made_anew(rt: HostRuntime) -> Result<(), Fail> {
    let mut sources = [NULL; 24];
    let mut frictions = [1; 24];
    let mut seed = 1;
    for round in 0..500 {
        seed = scattered(seed);
        let at = (seed >> 16) as usize % 24;
        let (was, ground) = (sources, frictions);
        let limit = limit_of(seed >> 8);
        let same = if round % 2 == 0 {
            sources[at] = source(seed >> 20);
            agrees(rt.alloc(), &was, &ground, limit, Operand::Sources, &sources)?
        } else {
            frictions[at] = friction(seed >> 20);
            agrees(
                rt.alloc(),
                &was,
                &ground,
                limit,
                Operand::Friction,
                &frictions,
            )?
        };
        assert!(rt; same);
    }
    Ok(())
}

/// The cells of a map.
fn cells_of(values: &Small) -> [Cell; 24] {
    let mut cells = [Cell::null(); 24];
    for at in 0..24 {
        cells[at] = cell(values[at]);
    }
    cells
}

/// The numbers of a map, of two bands that meet at row `cut`.
fn joined(
    alloc: Global,
    extent: Extent,
    sources: &[Cell],
    friction: &[Cell],
    limit: Value,
    cut: u32,
) -> Result<NearestList, NoMemory>
    requires sources { length sources.now ≡ cells_in extent }
    requires friction { length friction.now ≡ cells_in extent }
    requires limit { (pos 0 ≤ℤ limit) × (limit ≤ℤ pos greatest_value) }
    requires cut { (0 < cut) × (cut < extent.rows) }
    ensures { IfOk result (IsNearestList (ground_of extent sources.now friction.now (nat_abs limit))) }
{
    let rows = extent.rows();
    let above = nearest_of_band(alloc, extent, sources, friction, limit, 0, cut)?;
    let below = nearest_of_band(alloc, extent, sources, friction, limit, cut, rows)?;
    let mut bands = Vec::new(alloc);
    bands.push(above)?;
    bands.push(below)?;
    nearest_of_bands(alloc, extent, sources, friction, limit, bands)
}

/// Whether the costs, numbers and work of two bands that meet at row `cut` are those of the map.
fn meet(
    alloc: Global,
    sources: &Small,
    friction: &Small,
    limit: Value,
    cut: u32,
) -> Result<bool, Fail>
    requires limit { (pos 0 ≤ℤ limit) × (limit ≤ℤ pos greatest_value) }
    requires cut { (0 < cut) × (cut < 4) }
{
    let extent = Extent::new(4, 6).ok_or("limits")?;
    if extent.rows() != 4 || extent.cells() != 24 || extent.tiles() == 0 {
        return Err(Fail::from("limits"));
    }
    let (begun, ground) = (cells_of(sources), cells_of(friction));
    let list = joined(alloc, extent, &begun, &ground, limit, cut)?;
    let (anew, worked) = made(alloc, sources, friction, limit)?;
    let mut values = values_of(alloc, &Layer::fresh(list.costs(alloc, extent)?, 1))?;
    let numbers = list.tile(alloc, extent, 0)?;
    values.extend_from_slice(&tile_values(alloc, &numbers)?)?;
    Ok(values == anew && list.worked() == worked)
}

#[test]
fn bands_are_joined(rt: HostRuntime) -> Result<(), Fail> {
    let mut seed = 7;
    for round in 0..90 {
        let mut sources = [NULL; 24];
        let mut frictions = [1; 24];
        for at in 0..24 {
            seed = scattered(seed);
            sources[at] = source(seed >> 20);
            frictions[at] = friction(seed >> 10);
        }
        assert!(rt;
            meet(
                rt.alloc(),
                &sources,
                &frictions,
                limit_of(seed >> 8),
                1 + round % 3
            )?
        );
    }
    Ok(())
}
