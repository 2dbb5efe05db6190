//! What an edit changes at once: each place near a changed cell takes its new weight and its new way down.
ghost use Rattle.std.specs.Prelude.{◌≡◌, ◌<◌, ◌≤◌, ◌*◌, ℕ, ℤ, true, OnOk, IfSome, IsSome, Some};
ghost use Rattle.map_nums.specs.Grids.{cells_in, moved};
ghost use Rattle.layer_tiles.specs.Tallies.{RisesBy};
ghost use Rattle.layer_tiles.specs.Changes.{cells_before};
ghost use Rattle.drainage_flow.specs.FlowNets.{IsSmall, weight_at};
ghost use Rattle.drainage_flow.specs.Mending.{IsSent};
ghost use Rattle.drainage_flow.specs.Queues.{IsAmount};
ghost use Rattle.drainage_flow.specs.Steepest.{offset_at};
ghost use Rattle.drainage_flow.specs.Sides.{cells_on, HasSide};
ghost use Rattle.drainage_flow.specs.Settling.{number_at};
ghost use Rattle.drainage_flow.specs.Seeding.{net_before, net_after, AreAdded, rerouted, renewed, IsSeededOf, is_marked, MarkedAround, StaysMarked};

use crate::courses::{Side, cell_on, downstream, number};
use crate::neighbours::neighbour;
use crate::queue::{Entry, Queue};
use layer_tiles::{Change, Tally};
use map_nums::NoMemory;
use tile_work::PlaceSet;

/// The places that are renewed, and the amounts that this sends on their way.
#[derive(Drop)]
pub(crate) struct Seeds {
    pub marks: PlaceSet,
    pub queue: Queue,
}

/// What a cell brings, on one side of an edit. Two picks.
#[tactic(auto, unfolding(crate::specs::FlowNets::weight_at))]
pub(crate) fn weight_on<M: Tally>(
    surface: &Change<'_>,
    weights: &Change<'_>,
    side: Side,
    at: u32,
    tally: &mut M,
) -> i128
    requires surface { HasSide surface.now side }
    requires weights { HasSide weights.now side }
    requires size { weights.now.size ≡ surface.now.size }
    requires within { at < cells_in surface.now.size }
    ensures weight { result ≡ weight_at (cells_on surface.now side) (cells_on weights.now side) at }
    ensures small { IsSmall result }
    ensures picks { RisesBy 0 2 (M.counts tally.old) (M.counts tally.new) }
{
    let ground = cell_on(surface, side, at, tally);
    let weight = cell_on(weights, side, at, tally);
    match ground.get() {
        Some(_) => number(weight) as i128,
        None => 0,
    }
}

/// Sends an amount to a place, where there is one and the amount is not 0. At most one pick.
pub(crate) fn send_to<M: Tally>(
    surface: &Change<'_>,
    to: Option<u32>,
    amount: i128,
    queue: &mut Queue,
    tally: &mut M,
) -> Result<(), NoMemory>
    requires within { IfSome to (λ j. j < cells_in surface.now.size) }
    requires amount { IsAmount amount }
    ensures sent { OnOk result (IsSent (number_at surface.now.cells) to amount queue.old queue.new) }
    ensures picks { RisesBy 0 1 (M.counts tally.old) (M.counts tally.new) }
{
    let Some(place) = to else {
        return Ok(());
    };
    if amount == 0 {
        return Ok(());
    }
    let height = number(surface.cell(place, tally));
    queue.push(Entry {
        height,
        place,
        amount,
    })?;
    Ok(())
}

/// Sends a flow another way. At most two picks.
fn reroute<M: Tally>(
    surface: &Change<'_>,
    from: Option<u32>,
    to: Option<u32>,
    flow: i128,
    queue: &mut Queue,
    tally: &mut M,
) -> Result<(), NoMemory>
    requires from { IfSome from (λ j. j < cells_in surface.now.size) }
    requires to { IfSome to (λ j. j < cells_in surface.now.size) }
    requires small { IsSmall flow }
    ensures rerouted { OnOk result (AreAdded (cells_in surface.now.size) (number_at surface.now.cells) (rerouted from to flow) queue.old queue.new) }
    ensures picks { RisesBy 0 2 (M.counts tally.old) (M.counts tally.new) }
{
    if from == to {
        return Ok(());
    }
    send_to(surface, from, -flow, queue, tally)?;
    send_to(surface, to, flow, queue, tally)?;
    Ok(())
}

/// Gives a place its new weight and its new way down. At most 26 picks.
fn renew<M: Tally>(
    old: &Change<'_>,
    surface: &Change<'_>,
    weights: &Change<'_>,
    at: u32,
    queue: &mut Queue,
    tally: &mut M,
) -> Result<(), NoMemory>
    requires surface { IsSome surface.now.before }
    requires weights { IsSome weights.now.before }
    requires old_size { old.now.size ≡ surface.now.size }
    requires weights_size { weights.now.size ≡ surface.now.size }
    requires within { at < cells_in surface.now.size }
    ensures renewed { OnOk result (AreAdded (cells_in surface.now.size) (number_at surface.now.cells) (renewed (net_before surface.now weights.now) (net_after surface.now weights.now) (number_at old.now.cells) at) queue.old queue.new) }
    ensures picks { RisesBy 0 26 (M.counts tally.old) (M.counts tally.new) }
{
    let before = weight_on(surface, weights, Side::Before, at, tally);
    let after = weight_on(surface, weights, Side::After, at, tally);
    send_to(surface, Some(at), after - before, queue, tally)?;
    let flow = number(old.cell(at, tally)) as i128;
    let from = downstream(surface, Side::Before, at, tally);
    let to = downstream(surface, Side::After, at, tally);
    reroute(surface, from, to, flow, queue, tally)?;
    Ok(())
}

/// Renews a place that is not marked, and marks it. At most 26 picks.
fn renew_once<M: Tally>(
    old: &Change<'_>,
    surface: &Change<'_>,
    weights: &Change<'_>,
    at: u32,
    seeds: &mut Seeds,
    tally: &mut M,
) -> Result<(), NoMemory>
    requires surface { IsSome surface.now.before }
    requires weights { IsSome weights.now.before }
    requires old_size { old.now.size ≡ surface.now.size }
    requires weights_size { weights.now.size ≡ surface.now.size }
    requires within { at < cells_in surface.now.size }
    requires marks { seeds.old.marks.size ≡ surface.now.size }
    requires seeded { IsSeededOf surface.now weights.now old.now.cells seeds.old.queue seeds.old.marks.marks }
    ensures size { OnOk result (seeds.new.marks.size ≡ seeds.old.marks.size) }
    ensures seeded { OnOk result (IsSeededOf surface.now weights.now old.now.cells seeds.new.queue seeds.new.marks.marks) }
    ensures marked { OnOk result (is_marked seeds.new.marks.marks at ≡ true) }
    ensures stays { OnOk result (StaysMarked seeds.old.marks.marks seeds.new.marks.marks) }
    ensures picks { RisesBy 0 26 (M.counts tally.old) (M.counts tally.new) }
{
    let _marks = seeds.marks.extent();
    if seeds.marks.has(at) {
        return Ok(());
    }
    renew(old, surface, weights, at, &mut seeds.queue, tally)?;
    seeds.marks.add(at)?;
    Ok(())
}

/// Renews one of the eight neighbours of a place, where it is on the map. At most 26 picks.
fn renew_neighbour<M: Tally>(
    old: &Change<'_>,
    surface: &Change<'_>,
    weights: &Change<'_>,
    at: u32,
    k: u8,
    seeds: &mut Seeds,
    tally: &mut M,
) -> Result<(), NoMemory>
    requires surface { IsSome surface.now.before }
    requires weights { IsSome weights.now.before }
    requires old_size { old.now.size ≡ surface.now.size }
    requires weights_size { weights.now.size ≡ surface.now.size }
    requires within { at < cells_in surface.now.size }
    requires few { k < 8 }
    requires marks { seeds.old.marks.size ≡ surface.now.size }
    requires seeded { IsSeededOf surface.now weights.now old.now.cells seeds.old.queue seeds.old.marks.marks }
    ensures size { OnOk result (seeds.new.marks.size ≡ seeds.old.marks.size) }
    ensures seeded { OnOk result (IsSeededOf surface.now weights.now old.now.cells seeds.new.queue seeds.new.marks.marks) }
    ensures marked { OnOk result ((j : ℕ) → moved surface.now.size at (offset_at k) ≡ Some j → is_marked seeds.new.marks.marks j ≡ true) }
    ensures stays { OnOk result (StaysMarked seeds.old.marks.marks seeds.new.marks.marks) }
    ensures picks { RisesBy 0 26 (M.counts tally.old) (M.counts tally.new) }
{
    let Some(next) = neighbour(surface.extent(), at, k) else {
        return Ok(());
    };
    renew_once(old, surface, weights, next, seeds, tally)?;
    Ok(())
}

/// Renews a place and its neighbours. At most 234 picks.
pub(crate) fn renew_around<M: Tally>(
    old: &Change<'_>,
    surface: &Change<'_>,
    weights: &Change<'_>,
    at: u32,
    seeds: &mut Seeds,
    tally: &mut M,
) -> Result<(), NoMemory>
    requires surface { IsSome surface.now.before }
    requires weights { IsSome weights.now.before }
    requires old_size { old.now.size ≡ surface.now.size }
    requires weights_size { weights.now.size ≡ surface.now.size }
    requires within { at < cells_in surface.now.size }
    requires marks { seeds.old.marks.size ≡ surface.now.size }
    requires seeded { IsSeededOf surface.now weights.now old.now.cells seeds.old.queue seeds.old.marks.marks }
    ensures size { OnOk result (seeds.new.marks.size ≡ seeds.old.marks.size) }
    ensures seeded { OnOk result (IsSeededOf surface.now weights.now old.now.cells seeds.new.queue seeds.new.marks.marks) }
    ensures marked { OnOk result (MarkedAround surface.now.size seeds.new.marks.marks at) }
    ensures stays { OnOk result (StaysMarked seeds.old.marks.marks seeds.new.marks.marks) }
    ensures picks { RisesBy 0 234 (M.counts tally.old) (M.counts tally.new) }
{
    renew_once(old, surface, weights, at, seeds, tally)?;
    for k in 0..8u8 {
        renew_neighbour(old, surface, weights, at, k, seeds, tally)?;
    }
    Ok(())
}
