//! All costs where there were none: they fall to what their neighbours offer, until the queue is empty. They stand in a list, by place.
ghost use Rattle.std.specs.Prelude.{◌≡◌, ◌<◌, ◌≤◌, ◌^◌, ◌∷◌, ℕ, length, OnOk};
ghost use Rattle.map_nums.specs.Grids.{cells_in, gap};
ghost use Rattle.map_defs.specs.Nets.{IsLeastIn};
ghost use Rattle.map_defs.specs.Spread.{friction_at};
ghost use Rattle.least_costs.specs.Filling.{IsRelaxed, IsFilling, IsOffering, left_to_do};
ghost use Rattle.friction_spread.specs.Costs.{base_of, net_of};
ghost use Rattle.friction_spread.specs.Flat.{costs_of};
ghost use Rattle.friction_spread.specs.Rows.{RowRelaxed};
ghost use Rattle.friction_spread.specs.Spots.{IsSpot, AreNear};

use crate::equations::{least_step, weigh};
use crate::flat::FlatGround;
use crate::ground::Spot;
use layer_tiles::NoMemory;
use least_costs::Queue;

/// The cost of a place near falls to the cost through this one, and the place comes into the queue, where that is below it.
fn offer(
    ground: &FlatGround<'_>,
    costs: &mut [u64],
    queue: &mut Queue,
    from: Spot,
    value: u64,
    own: u64,
    to: Spot,
) -> Result<(), NoMemory>
    requires spots { IsSpot ground.now.size from × IsSpot ground.now.size to }
    requires near { AreNear to from }
    requires count { length costs.old ≡ cells_in ground.now.size }
    requires value { value ≡ costs_of ground.now costs.old from.at }
    requires low { value ≤ 2 ^ 50 }
    requires own { (own ≡ friction_at ground.now.friction from.at) × (0 < own) × (own < 2 ^ 50) }
    ensures offered { OnOk result (IsOffering (net_of ground.now) value from.at (costs_of ground.now costs.old) queue.old (costs_of ground.now costs.new) queue.new) }
    ensures relaxed { OnOk result (IsRelaxed (net_of ground.now) (costs_of ground.now costs.new) from.at to.at) }
{
    if from.at == to.at {
        return Ok(());
    }
    let there = costs[to.at as usize];
    if there <= value + least_step(own) {
        return Ok(());
    }
    let beyond = ground.friction(to.at);
    if beyond == 0 {
        return Ok(());
    }
    let cost = value + weigh(from, to, own, beyond);
    if cost >= there {
        return Ok(());
    }
    let _extent = ground.extent();
    queue.push(cost, to.at)?;
    costs[to.at as usize] = cost;
    Ok(())
}

/// The same for a row next to the place.
fn offer_row(
    ground: &FlatGround<'_>,
    costs: &mut [u64],
    queue: &mut Queue,
    from: Spot,
    value: u64,
    own: u64,
    row: u32,
) -> Result<(), NoMemory>
    requires spot { IsSpot ground.now.size from }
    requires row { row < ground.now.size.rows }
    requires close { gap row from.row ≤ 1 }
    requires count { length costs.old ≡ cells_in ground.now.size }
    requires value { value ≡ costs_of ground.now costs.old from.at }
    requires low { value ≤ 2 ^ 50 }
    requires own { (own ≡ friction_at ground.now.friction from.at) × (0 < own) × (own < 2 ^ 50) }
    ensures offered { OnOk result (IsOffering (net_of ground.now) value from.at (costs_of ground.now costs.old) queue.old (costs_of ground.now costs.new) queue.new) }
    ensures relaxed { OnOk result (RowRelaxed (net_of ground.now) ground.now.size (costs_of ground.now costs.new) from.at row) }
{
    let columns = ground.extent().columns();
    let low = from.column.saturating_sub(1);
    let high = (from.column + 2).min(columns);
    for c in low..high {
        let to = ground.spot_at(row, c);
        offer(ground, costs, queue, from, value, own, to)?;
    }
    Ok(())
}

/// The same for all places near.
fn offer_round(
    ground: &FlatGround<'_>,
    costs: &mut [u64],
    queue: &mut Queue,
    from: Spot,
    value: u64,
) -> Result<(), NoMemory>
    requires spot { IsSpot ground.now.size from }
    requires count { length costs.old ≡ cells_in ground.now.size }
    requires value { value ≡ costs_of ground.now costs.old from.at }
    requires low { value ≤ 2 ^ 50 }
    ensures offered { OnOk result (IsOffering (net_of ground.now) value from.at (costs_of ground.now costs.old) queue.old (costs_of ground.now costs.new) queue.new) }
    ensures relaxed { OnOk result ((i : ℕ) → IsRelaxed (net_of ground.now) (costs_of ground.now costs.new) from.at i) }
{
    let own = ground.friction(from.at);
    if own == 0 {
        return Ok(());
    }
    let rows = ground.extent().rows();
    let low = from.row.saturating_sub(1);
    let high = (from.row + 2).min(rows);
    for r in low..high {
        offer_row(ground, costs, queue, from, value, own, r)?;
    }
    Ok(())
}

/// Deals with an entry that was taken out of the queue: where it is the cost of its place, that is offered to the places near.
fn reach(
    ground: &FlatGround<'_>,
    costs: &mut [u64],
    queue: &mut Queue,
    key: u64,
    at: u32,
) -> Result<(), NoMemory>
    requires count { length costs.old ≡ cells_in ground.now.size }
    requires filling { IsFilling (net_of ground.now) (costs_of ground.now costs.old) ((key, at) ∷ queue.old) }
    ensures filling { OnOk result (IsFilling (net_of ground.now) (costs_of ground.now costs.new) queue.new) }
    ensures falls { OnOk result ((k : ℕ) → costs_of ground.now costs.new k ≤ costs_of ground.now costs.old k) }
    ensures less { OnOk result (left_to_do (net_of ground.now) (costs_of ground.now costs.new) queue.new ≤ left_to_do (net_of ground.now) (costs_of ground.now costs.old) queue.old) }
{
    let cells = ground.extent().cells();
    if at >= cells {
        return Ok(());
    }
    let cost = costs[at as usize];
    if cost != key {
        return Ok(());
    }
    offer_round(ground, costs, queue, ground.spot(at), key)?;
    Ok(())
}

/// Gives each place its least cost, where the sources have theirs and stand in the queue.
pub fn fill(ground: &FlatGround<'_>, costs: &mut [u64], queue: &mut Queue) -> Result<(), NoMemory>
    requires count { length costs.old ≡ cells_in ground.now.size }
    requires filling { IsFilling (net_of ground.now) (costs_of ground.now costs.old) queue.old }
    requires begun { (i : ℕ) → costs_of ground.now costs.old i ≤ base_of ground.now i }
    ensures { OnOk result ((i : ℕ) → IsLeastIn (net_of ground.now) i (costs_of ground.now costs.new i)) }
{
    let _extent = ground.extent();
    while let Some((key, at)) = queue.pop() {
        reach(ground, costs, queue, key, at)?;
    }
    Ok(())
}
