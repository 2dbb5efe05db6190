//! The flow after an edit, from the flow before it and the places where an operand changed.
ghost use Rattle.std.specs.Prelude.{◌≡◌, ◌<◌, ◌+◌, ◌*◌, ℕ, length, OnOk, IfOk, IsSome};
ghost use Rattle.std.specs.List.{All, Contains};
ghost use Rattle.map_nums.specs.Grids.{cells_in};
ghost use Rattle.map_defs.specs.Flow.{flow_grid};
ghost use Rattle.layer_tiles.specs.Tallies.{RisesBy};
ghost use Rattle.layer_tiles.specs.Changes.{cells_before};
ghost use Rattle.drainage_flow.specs.Settling.{AreCells, AreNewFlows, flow_changes};
ghost use Rattle.drainage_flow.specs.Seeding.{IsSeededOf, MarkedAround};
ghost use Rattle.drainage_flow.specs.Listing.{AreListed};

use crate::queue::Queue;
use crate::seed::{Seeds, renew_around};
use crate::settle::settle;
use layer_tiles::{Change, Layer, Tally};
use map_nums::NoMemory;
use std::alloc::Global;
use tile_work::PlaceSet;

/// Renews the places round each changed one. At most 234 picks for each.
fn renew_all<M: Tally>(
    old: &Change<'_>,
    surface: &Change<'_>,
    weights: &Change<'_>,
    changed: &[u32],
    seeds: &mut Seeds,
    tally: &mut M,
) -> Result<(), NoMemory>
    requires surface { IsSome surface.now.before }
    requires weights { IsSome weights.now.before }
    requires old_size { old.now.size ≡ surface.now.size }
    requires weights_size { weights.now.size ≡ surface.now.size }
    requires within { All (λ c. c < cells_in surface.now.size) changed.now }
    requires marks { seeds.old.marks.size ≡ surface.now.size }
    requires seeded { IsSeededOf surface.now weights.now old.now.cells seeds.old.queue seeds.old.marks.marks }
    ensures seeded { OnOk result (IsSeededOf surface.now weights.now old.now.cells seeds.new.queue seeds.new.marks.marks) }
    ensures marked { OnOk result ((c : ℕ) → Contains changed.now c → MarkedAround surface.now.size seeds.new.marks.marks c) }
    ensures picks { RisesBy 0 (234 * length changed.now) (M.counts tally.old) (M.counts tally.new) }
{
    for at in changed {
        renew_around(old, surface, weights, *at, seeds, tally)?;
    }
    Ok(())
}

/// The places whose flow an edit changes, each with its new flow, from the flow before and the places where an operand changed.
pub fn mend<M: Tally>(
    alloc: Global,
    old: &Layer,
    surface: &Change<'_>,
    weights: &Change<'_>,
    changed: &[u32],
    tally: &mut M,
) -> Result<Vec<(u32, i128)>, NoMemory>
    requires surface { IsSome surface.now.before }
    requires weights { IsSome weights.now.before }
    requires old_size { old.now.size ≡ surface.now.size }
    requires weights_size { weights.now.size ≡ surface.now.size }
    requires cells { AreCells weights.now.cells }
    requires right { old.now.cells ≡ (flow_grid surface.now.size (cells_before surface.now) (cells_before weights.now)).cells }
    requires within { All (λ c. c < cells_in surface.now.size) changed.now }
    requires listed { AreListed surface.now weights.now changed.now }
    ensures flows { IfOk result (λ puts. AreNewFlows surface.now.size surface.now.cells weights.now.cells old.now.cells puts.items) }
    ensures picks { RisesBy 0 (234 * length changed.now + 11 * flow_changes surface.now.size surface.now.cells weights.now.cells old.now.cells) (M.counts tally.old) (M.counts tally.new) }
{
    let before = Change::same(old);
    let marks = PlaceSet::new(alloc, surface.extent())?;
    let queue = Queue::new(alloc);
    let mut seeds = Seeds { marks, queue };
    renew_all(&before, surface, weights, changed, &mut seeds, tally)?;
    let Seeds { queue, .. } = seeds;
    settle(alloc, &before, surface, weights, queue, tally)
}
