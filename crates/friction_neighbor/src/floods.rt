//! Numbers that are passed on along the steps that least costs use.
ghost use Rattle.std.specs.Prelude.{◌≡◌, ◌<◌, ◌≤◌, ◌∷◌, ℕ, [], length, replicate, is_some, None, IfOk, OnOk};
ghost use Rattle.map_nums.specs.Grids.{cells_in, cell_at, gap};
ghost use Rattle.map_defs.specs.Nearest.{IsNoGreater};
ghost use Rattle.friction_neighbor.specs.Fields.{AreLeastValues};
ghost use Rattle.friction_spread.specs.Spots.{IsSpot, AreNear};
ghost use Rattle.friction_neighbor.specs.Spots.{IsFront};
ghost use Rattle.friction_neighbor.specs.Seeds.{IsSeed, AreSeeds};
ghost use Rattle.friction_neighbor.specs.Floods.{IsFlooding, MayGrow, IsTold, RowTold, left_to_do};

use crate::fields::{CostField, Front};
use crate::seeds::{Seed, seeds_of};
use friction_spread::{Spot, weigh};
use layer_tiles::{Cell, NoMemory};
use std::alloc::Global;

/// Whether a place has a value.
fn has_value(values: &[Cell], at: u32) -> bool
    requires { at < length values.now }
    ensures { result ≡ is_some (cell_at values.now at) }
{
    values[at as usize].get().is_some()
}

/// Passes a number on to a place near, where that has no value and costs what it costs through this one.
fn pass(
    field: &CostField<'_>,
    seed: &Seed,
    values: &mut [Cell],
    found: &mut Vec<u32>,
    from: &Front,
    to: Spot,
) -> Result<(), NoMemory>
    requires seed { IsSeed field.now seed.now }
    requires front { IsFront field.now from.now }
    requires spot { IsSpot field.now.ground.size to }
    requires near { AreNear to from.now.spot }
    requires flooding { IsFlooding field.now seed.now.number values.old (from.now.spot.at ∷ found.old.items) }
    ensures flooding { OnOk result (IsFlooding field.now seed.now.number values.new (from.now.spot.at ∷ found.new.items)) }
    ensures grows { OnOk result (MayGrow values.old values.new) }
    ensures less { OnOk result (left_to_do values.new found.new.items ≤ left_to_do values.old found.old.items) }
    ensures told { OnOk result (IsTold field.now seed.now.number values.new from.now.spot.at to.at) }
{
    let _extent = field.extent();
    let has = has_value(values, to.at);
    if has {
        return Ok(());
    }
    let there = field.cost(to.at);
    let limit = field.limit();
    if there > limit {
        return Ok(());
    }
    let friction = field.friction(to.at);
    let cost = from.cost + weigh(from.spot, to, from.friction, friction);
    if cost != there {
        return Ok(());
    }
    found.push(to.at)?;
    values[to.at as usize] = seed.value;
    Ok(())
}

/// The same for a row next to the place.
fn pass_row(
    field: &CostField<'_>,
    seed: &Seed,
    values: &mut [Cell],
    found: &mut Vec<u32>,
    from: &Front,
    row: u32,
) -> Result<(), NoMemory>
    requires seed { IsSeed field.now seed.now }
    requires front { IsFront field.now from.now }
    requires row { row < field.now.ground.size.rows }
    requires close { gap row from.now.spot.row ≤ 1 }
    requires flooding { IsFlooding field.now seed.now.number values.old (from.now.spot.at ∷ found.old.items) }
    ensures flooding { OnOk result (IsFlooding field.now seed.now.number values.new (from.now.spot.at ∷ found.new.items)) }
    ensures grows { OnOk result (MayGrow values.old values.new) }
    ensures less { OnOk result (left_to_do values.new found.new.items ≤ left_to_do values.old found.old.items) }
    ensures told { OnOk result (RowTold field.now seed.now.number values.new from.now.spot.at row) }
{
    let columns = field.extent().columns();
    let low = from.spot.column.saturating_sub(1);
    let high = (from.spot.column + 2).min(columns);
    for c in low..high {
        let to = field.spot_at(row, c);
        pass(field, seed, values, found, from, to)?;
    }
    Ok(())
}

/// The same for all places near.
fn pass_round(
    field: &CostField<'_>,
    seed: &Seed,
    values: &mut [Cell],
    found: &mut Vec<u32>,
    from: &Front,
) -> Result<(), NoMemory>
    requires seed { IsSeed field.now seed.now }
    requires front { IsFront field.now from.now }
    requires flooding { IsFlooding field.now seed.now.number values.old (from.now.spot.at ∷ found.old.items) }
    ensures flooding { OnOk result (IsFlooding field.now seed.now.number values.new (from.now.spot.at ∷ found.new.items)) }
    ensures grows { OnOk result (MayGrow values.old values.new) }
    ensures less { OnOk result (left_to_do values.new found.new.items ≤ left_to_do values.old found.old.items) }
    ensures told { OnOk result ((i : ℕ) → IsTold field.now seed.now.number values.new from.now.spot.at i) }
{
    let rows = field.extent().rows();
    let low = from.spot.row.saturating_sub(1);
    let high = (from.spot.row + 2).min(rows);
    for r in low..high {
        pass_row(field, seed, values, found, from, r)?;
    }
    Ok(())
}

/// Passes the number of a place on that was taken out of those that were found.
fn pass_from(
    field: &CostField<'_>,
    seed: &Seed,
    values: &mut [Cell],
    found: &mut Vec<u32>,
    at: u32,
) -> Result<(), NoMemory>
    requires seed { IsSeed field.now seed.now }
    requires within { at < cells_in field.now.ground.size }
    requires flooding { IsFlooding field.now seed.now.number values.old (at ∷ found.old.items) }
    ensures flooding { OnOk result (IsFlooding field.now seed.now.number values.new found.new.items) }
    ensures grows { OnOk result (MayGrow values.old values.new) }
    ensures less { OnOk result (left_to_do values.new found.new.items ≤ left_to_do values.old found.old.items) }
{
    let from = Front {
        spot: field.spot(at),
        cost: field.cost(at),
        friction: field.friction(at),
    };
    pass_round(field, seed, values, found, &from)?;
    Ok(())
}

/// Passes the numbers of all places on that were found, and of those that they are passed on to.
fn pass_all(
    field: &CostField<'_>,
    seed: &Seed,
    values: &mut [Cell],
    found: &mut Vec<u32>,
) -> Result<(), NoMemory>
    requires seed { IsSeed field.now seed.now }
    requires flooding { IsFlooding field.now seed.now.number values.old found.old.items }
    ensures found { OnOk result (found.new.items ≡ []) }
    ensures flooding { OnOk result (IsFlooding field.now seed.now.number values.new []) }
    ensures grows { OnOk result (MayGrow values.old values.new) }
{
    let _extent = field.extent();
    while let Some(at) = found.pop() {
        pass_from(field, seed, values, found, at)?;
    }
    Ok(())
}

/// Passes the number of a source on, where no lesser one was passed on to it.
fn flood(
    field: &CostField<'_>,
    seed: &Seed,
    values: &mut [Cell],
    found: &mut Vec<u32>,
) -> Result<(), NoMemory>
    requires seed { IsSeed field.now seed.now }
    requires none { found.old.items ≡ [] }
    requires flooding { IsFlooding field.now seed.now.number values.old [] }
    ensures none { OnOk result (found.new.items ≡ []) }
    ensures flooding { OnOk result (IsFlooding field.now seed.now.number values.new []) }
    ensures grows { OnOk result (MayGrow values.old values.new) }
    ensures has { OnOk result (IsNoGreater (cell_at values.new seed.now.at) seed.now.number) }
{
    let _extent = field.extent();
    let has = has_value(values, seed.at);
    if has {
        return Ok(());
    }
    found.push(seed.at)?;
    values[seed.at as usize] = seed.value;
    pass_all(field, seed, values, found)?;
    Ok(())
}

/// Passes the numbers of all sources on, in ascending order.
fn flood_all(
    field: &CostField<'_>,
    seeds: &[Seed],
    values: &mut [Cell],
    found: &mut Vec<u32>,
) -> Result<(), NoMemory>
    requires seeds { AreSeeds field.now seeds.now }
    requires none { found.old.items ≡ [] }
    requires count { length values.old ≡ cells_in field.now.ground.size }
    requires begun { (i : ℕ) → cell_at values.old i ≡ None }
    ensures { OnOk result (AreLeastValues field.now values.new) }
{
    let _extent = field.extent();
    for seed in seeds {
        flood(field, seed, values, found)?;
    }
    Ok(())
}

/// No place has a value.
fn no_values(alloc: Global, count: usize) -> Result<Vec<Cell>, NoMemory>
    ensures { IfOk result (λ values. values.items ≡ replicate count None) }
{
    let values = vec![in alloc; Cell::null(); count]?;
    Ok(values)
}

/// The value of each place, null where it has no cost.
pub fn values_of(alloc: Global, field: &CostField<'_>) -> Result<Vec<Cell>, NoMemory>
    ensures { IfOk result (λ values. AreLeastValues field.now values.items) }
{
    let seeds = seeds_of(alloc, field)?;
    let mut values = no_values(alloc, field.extent().cells() as usize)?;
    let mut found = Vec::new(alloc);
    flood_all(field, &seeds, &mut values, &mut found)?;
    Ok(values)
}
