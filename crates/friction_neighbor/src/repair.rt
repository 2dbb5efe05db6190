//! Costs and values of nearest sources.
ghost use Rattle.std.specs.Prelude.{◌≡◌, ◌≤ℤ◌, pos, nat_abs, Some, IfOk};
ghost use Rattle.map_nums.specs.Numbers.{greatest_value};
ghost use Rattle.map_defs.specs.Nearest.{AreNearest};
ghost use Rattle.map_defs.specs.Ops.{Term, nearest_op};
ghost use Rattle.map_defs.specs.Spread.{IsSpread};
ghost use Rattle.map_defs.specs.Work.{op_work};
ghost use Rattle.layer_tiles.specs.Patches.{patched};
ghost use Rattle.tile_work.specs.Working.{before_of, base_of};
ghost use Rattle.friction_spread.specs.Repairs.{HoldsExactly, IsPatchFor};
ghost use Rattle.friction_neighbor.specs.Results.{costs_of, values_of, AreRightBefore, AreOldFor, befores, afters, NearestReadsWithin};

use crate::first::first_nearest;
use crate::values::repair_values;
use friction_spread::{limit_of, spread_repair};
use layer_tiles::{Change, Layer, NoMemory, Patch, Tally, Value};
use std::alloc::Global;

/// The least costs of a map, and the numbers of the nearest sources.
#[derive(Drop)]
pub struct Nearest<'a> {
    pub cost: &'a Layer,
    pub value: &'a Layer,
}

/// The tiles of both, and the work that they took.
#[derive(Drop)]
pub struct NearestRepair {
    pub cost: Patch,
    pub value: Patch,
    pub worked: u64,
}

/// Least costs and values that were right before, put right.
fn repair_nearest<M: Tally>(
    alloc: Global,
    old: &Nearest<'_>,
    sources: &Change<'_>,
    friction: &Change<'_>,
    limit: Value,
    tally: &mut M,
) -> Result<NearestRepair, NoMemory>
    requires size { friction.now.size ≡ sources.now.size }
    requires limit { (pos 0 ≤ℤ limit) × (limit ≤ℤ pos greatest_value) }
    requires right { AreRightBefore sources.now friction.now (nat_abs limit) old.now }
    ensures sizes { IfOk result (λ r. (r.cost.size ≡ sources.now.size) × (r.value.size ≡ sources.now.size)) }
    ensures cost { IfOk result (λ r. IsSpread sources.now.size sources.now.cells friction.now.cells (nat_abs limit) (patched sources.now.size old.now.cost.now.cells r.cost.tiles)) }
    ensures value { IfOk result (λ r. AreNearest sources.now.size sources.now.cells friction.now.cells (nat_abs limit) (patched sources.now.size old.now.value.now.cells r.value.tiles)) }
    ensures exact { IfOk result (λ r. HoldsExactly sources.now.size old.now.cost.now.cells r.cost.tiles × HoldsExactly sources.now.size old.now.value.now.cells r.value.tiles) }
    ensures worked { IfOk result (λ r. (t u : Term) → r.worked ≡ op_work (nearest_op (nat_abs limit) t u) sources.now.size (befores sources.now friction.now) (afters sources.now friction.now) (Some old.now.value.now.cells) (patched sources.now.size old.now.value.now.cells r.value.tiles)) }
    ensures reads { NearestReadsWithin 16 958 sources.now friction.now (nat_abs limit) (Some old.now.value.now.cells) (M.counts tally.old) (M.counts tally.new) }
{
    let _extent = sources.extent();
    let costs = spread_repair(alloc, Some(old.cost), sources, friction, limit, tally)?;
    let values = repair_values(
        alloc,
        old,
        sources,
        friction,
        &costs.patch,
        limit_of(limit),
        tally,
    )?;
    Ok(NearestRepair {
        cost: costs.patch,
        value: values.patch,
        worked: costs.worked + values.moved,
    })
}

/// The least costs of a map and the numbers of the nearest sources: all of them where there were none, else those that were right
/// before put right. The limit is the greatest cost that counts, and no more than a cell holds.
///
/// # Errors
///
/// `NoMemory` alone.
pub fn neighbor_repair<M: Tally>(
    alloc: Global,
    old: Option<Nearest<'_>>,
    sources: &Change<'_>,
    friction: &Change<'_>,
    limit: Value,
    tally: &mut M,
) -> Result<NearestRepair, NoMemory>
    requires size { friction.now.size ≡ sources.now.size }
    requires limit { (pos 0 ≤ℤ limit) × (limit ≤ℤ pos greatest_value) }
    requires old { AreOldFor sources.now friction.now (nat_abs limit) old }
    ensures sizes { IfOk result (λ r. (r.cost.size ≡ sources.now.size) × (r.value.size ≡ sources.now.size)) }
    ensures cost { IfOk result (λ r. IsSpread sources.now.size sources.now.cells friction.now.cells (nat_abs limit) (patched sources.now.size (base_of (before_of (costs_of old.entry))) r.cost.tiles)) }
    ensures value { IfOk result (λ r. AreNearest sources.now.size sources.now.cells friction.now.cells (nat_abs limit) (patched sources.now.size (base_of (before_of (values_of old.entry))) r.value.tiles)) }
    ensures exact { IfOk result (λ r. IsPatchFor sources.now.size (costs_of old.entry) r.cost.tiles × IsPatchFor sources.now.size (values_of old.entry) r.value.tiles) }
    ensures worked { IfOk result (λ r. (t u : Term) → r.worked ≡ op_work (nearest_op (nat_abs limit) t u) sources.now.size (befores sources.now friction.now) (afters sources.now friction.now) (before_of (values_of old.entry)) (patched sources.now.size (base_of (before_of (values_of old.entry))) r.value.tiles)) }
    // At most 32 looks for each tile of the damage and 1000 picks for each unit of work, also where memory is wanted.
    ensures reads { NearestReadsWithin 32 1000 sources.now friction.now (nat_abs limit) (before_of (values_of old.entry)) (M.counts tally.old) (M.counts tally.new) }
{
    match old {
        Some(layers) => repair_nearest(alloc, &layers, sources, friction, limit, tally),
        None => first_nearest(alloc, sources, friction, limit, tally),
    }
}
