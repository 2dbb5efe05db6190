//! Least costs put right after a change.
ghost use Rattle.std.specs.Prelude.{◌≡◌, ◌<◌, ◌≤◌, ◌≤ℤ◌, List, ◌+◌, ◌*◌, ◌∷◌, ℕ, pos, nat_abs, [], length, OnOk, IfOk, Some, slice_index_or, filter};
ghost use Rattle.std.specs.List.{All};
ghost use Rattle.std.specs.Option.{option_copied};
ghost use Rattle.map_nums.specs.Grids.{Cells, cells_in, places};
ghost use Rattle.map_nums.specs.Tiles.{tiles};
ghost use Rattle.map_nums.specs.Numbers.{greatest_value};
ghost use Rattle.map_defs.specs.Damage.{differs, tile_has};
ghost use Rattle.map_defs.specs.Ops.{Term, spread_op};
ghost use Rattle.map_defs.specs.Spread.{IsSpread};
ghost use Rattle.map_defs.specs.Work.{op_work};
ghost use Rattle.layer_tiles.specs.Tallies.{RisesBy};
ghost use Rattle.layer_tiles.specs.Changes.{cells_before};
ghost use Rattle.layer_tiles.specs.Patches.{patched};
ghost use Rattle.tile_work.specs.Working.{before_of, base_of};
ghost use Rattle.friction_spread.specs.Costs.{GroundState, values, AreCosts, net_of};
ghost use Rattle.friction_spread.specs.Rows.{RoundQueued};
ghost use Rattle.friction_spread.specs.Near.{AgreeFar, AreSeen};
ghost use Rattle.friction_spread.specs.Repairs.{HoldsExactly, IsRightBefore, IsBaseFor, IsPatchFor, ReadsWithin};

use crate::first::{Repair, first_costs};
use crate::ground::{Ground, limit_of};
use crate::looks::look_round;
use crate::settle::settle;
use changed_cells::changed_places_of_both;
use layer_tiles::{Change, Extent, Layer, NoMemory, Tally, Value};
use least_costs::Queue;
use std::alloc::Global;
use tile_work::{PlaceSet, Working};

/// No place of a set of those that were looked at. One changed place alone wants no set, since none of the places round it comes twice.
fn none_seen(alloc: Global, extent: Extent, changed: usize) -> Result<Option<PlaceSet>, NoMemory>
    ensures { IfOk result (λ seen. (g : GroundState) (d : ℕ → ℕ) (entries : List (ℕ × ℕ)) → g.size ≡ extent → AreSeen g d entries seen) }
{
    if changed < 2 {
        return Ok(None);
    }
    Ok(Some(PlaceSet::new(alloc, extent)?))
}

/// The places round each of some places come into the queue where they disagree.
fn look_at_all<M: Tally>(
    alloc: Global,
    ground: &Ground<'_>,
    labels: &Working<'_>,
    changed: &[u32],
    queue: &mut Queue,
    tally: &mut M,
) -> Result<(), NoMemory>
    requires size { labels.now.size ≡ ground.now.size }
    requires within { All (λ at. at < cells_in ground.now.size) changed.now }
    ensures queued { OnOk result ((k : ℕ) → k < length changed.now → RoundQueued (net_of ground.now) ground.now.size (values ground.now.limit labels.now.cells) queue.new (slice_index_or changed.now k 0)) }
    ensures len { OnOk result (length queue.new ≤ length queue.old + 9 * length changed.now) }
    ensures picks { RisesBy 0 (189 * length changed.now) (M.counts tally.old) (M.counts tally.new) }
{
    let mut seen = none_seen(alloc, ground.extent(), changed.len())?;
    for at in changed {
        look_round(ground, labels, queue, &mut seen, ground.spot(*at), tally)?;
    }
    Ok(())
}

/// Costs that agree but near some places, put right.
fn repaired_costs<M: Tally>(
    alloc: Global,
    base: &Layer,
    ground: &Ground<'_>,
    changed: &[u32],
    tally: &mut M,
) -> Result<Repair, NoMemory>
    requires size { base.now.size ≡ ground.now.size }
    requires costs { AreCosts ground.now.limit base.now.cells }
    requires far { AgreeFar ground.now base.now.cells changed.now }
    requires within { All (λ at. at < cells_in ground.now.size) changed.now }
    requires few { length changed.now ≤ cells_in ground.now.size }
    ensures size { IfOk result (λ r. r.patch.size ≡ ground.now.size) }
    ensures spread { IfOk result (λ r. IsSpread ground.now.size ground.now.sources ground.now.friction ground.now.limit (patched ground.now.size base.now.cells r.patch.tiles)) }
    ensures exact { IfOk result (λ r. HoldsExactly ground.now.size base.now.cells r.patch.tiles) }
    ensures worked { IfOk result (λ r. r.worked ≡ length changed.now + length (filter (differs base.now.cells (patched ground.now.size base.now.cells r.patch.tiles)) (places ground.now.size))) }
    ensures reads { (cells : Cells) → IsSpread ground.now.size ground.now.sources ground.now.friction ground.now.limit cells → RisesBy (3 * length (filter (tile_has ground.now.size (differs base.now.cells cells)) (tiles ground.now.size))) (378 * length changed.now + 628 * length (filter (differs base.now.cells cells) (places ground.now.size))) (M.counts tally.old) (M.counts tally.new) }
{
    let extent = ground.extent();
    let _base = base.extent();
    let mut labels = Working::new(alloc, extent, Some(base))?;
    let mut queue = Queue::new(alloc);
    look_at_all(alloc, ground, &labels, changed, &mut queue, tally)?;
    let moved = settle(ground, &mut labels, &mut queue, tally)?;
    let worked = changed.len() as u64 + moved;
    let patch = labels.into_patch(tally)?;
    Ok(Repair { patch, worked })
}

/// Least costs that were right, put right.
fn repair_layer<M: Tally>(
    alloc: Global,
    base: &Layer,
    sources: &Change<'_>,
    friction: &Change<'_>,
    limit: u64,
    tally: &mut M,
) -> Result<Repair, NoMemory>
    requires size { friction.now.size ≡ sources.now.size }
    requires limit { limit ≤ greatest_value }
    requires right { IsRightBefore sources.now friction.now limit base.now }
    ensures size { IfOk result (λ r. r.patch.size ≡ sources.now.size) }
    ensures spread { IfOk result (λ r. IsSpread sources.now.size sources.now.cells friction.now.cells limit (patched sources.now.size base.now.cells r.patch.tiles)) }
    ensures exact { IfOk result (λ r. HoldsExactly sources.now.size base.now.cells r.patch.tiles) }
    ensures worked { IfOk result (λ r. (t u : Term) → r.worked ≡ op_work (spread_op limit t u) sources.now.size (cells_before sources.now ∷ cells_before friction.now ∷ []) (sources.now.cells ∷ friction.now.cells ∷ []) (Some base.now.cells) (patched sources.now.size base.now.cells r.patch.tiles)) }
    ensures reads { ReadsWithin 7 628 sources.now friction.now limit (Some base.now.cells) (M.counts tally.old) (M.counts tally.new) }
{
    let _extent = sources.extent();
    let _friction = friction.extent();
    let _base = base.extent();
    let changed = changed_places_of_both(alloc, sources, friction, tally)?;
    let ground = Ground::new(sources, friction, limit);
    let repair = repaired_costs(alloc, base, &ground, &changed, tally)?;
    Ok(repair)
}

/// The least costs of spreading: all of them where there were none, else those that were right before put right. The limit is the
/// greatest cost that counts, and no more than a cell holds. Where the operands' patches hold no unchanged tile, at most 7 looks for
/// each damaged tile and 628 picks for each unit of work.
///
/// # Errors
///
/// `NoMemory` alone.
pub fn spread_repair<M: Tally>(
    alloc: Global,
    base: Option<&Layer>,
    sources: &Change<'_>,
    friction: &Change<'_>,
    limit: Value,
    tally: &mut M,
) -> Result<Repair, NoMemory>
    requires size { friction.now.size ≡ sources.now.size }
    requires limit { (pos 0 ≤ℤ limit) × (limit ≤ℤ pos greatest_value) }
    requires base { IsBaseFor sources.now friction.now (nat_abs limit) (option_copied base) }
    ensures size { IfOk result (λ r. r.patch.size ≡ sources.now.size) }
    ensures spread { IfOk result (λ r. IsSpread sources.now.size sources.now.cells friction.now.cells (nat_abs limit) (patched sources.now.size (base_of (before_of (option_copied base.entry))) r.patch.tiles)) }
    ensures exact { IfOk result (λ r. IsPatchFor sources.now.size (option_copied base.entry) r.patch.tiles) }
    ensures worked { IfOk result (λ r. (t u : Term) → r.worked ≡ op_work (spread_op (nat_abs limit) t u) sources.now.size (cells_before sources.now ∷ cells_before friction.now ∷ []) (sources.now.cells ∷ friction.now.cells ∷ []) (before_of (option_copied base.entry)) (patched sources.now.size (base_of (before_of (option_copied base.entry))) r.patch.tiles)) }
    // At most 32 looks for each tile of the damage and 1000 picks for each unit of work, also where memory is wanted.
    ensures reads { ReadsWithin 32 1000 sources.now friction.now (nat_abs limit) (before_of (option_copied base.entry)) (M.counts tally.old) (M.counts tally.new) }
    // Of these at most 7 looks and 628 picks are spent: the others are left to a caller that reads more.
    ensures inner { ReadsWithin 7 628 sources.now friction.now (nat_abs limit) (before_of (option_copied base.entry)) (M.counts tally.old) (M.counts tally.new) }
{
    let limit = limit_of(limit);
    match base {
        Some(layer) => {
            let repair = repair_layer(alloc, layer, sources, friction, limit, tally)?;
            Ok(repair)
        }
        None => {
            let repair = first_costs(alloc, sources, friction, limit, tally)?;
            Ok(repair)
        }
    }
}
