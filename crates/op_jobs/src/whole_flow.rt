//! The flow of a statement, repaired whole.
ghost use Rattle.std.specs.Prelude.{◌*◌, ◌∷◌, [], length};
ghost use Rattle.std.specs.Option.{option_copied};
ghost use Rattle.map_defs.specs.Ops.{Term, flow_op};
ghost use Rattle.layer_tiles.specs.Tallies.{RisesBy};
ghost use Rattle.tile_work.specs.Working.{before_of};
ghost use Rattle.drainage_flow.specs.Repairs.{IsFlowBefore};
ghost use Rattle.map_waves.specs.Operands.{IsOperand};
ghost use Rattle.map_waves.specs.Statements.{damage_by, work_by};
ghost use Rattle.op_jobs.specs.Whole.{IsWholeAnswer};

use drainage_flow::flow_repair;
use layer_tiles::{Change, KernelRefusal, Layer, Patch, Tally};
use std::alloc::Global;

/// The tiles of the flow that an edit changes, and the units of work.
///
/// # Errors
///
/// `Overflow` at the least cell whose flow is out of range, exactly where there is one; `NoMemory`.
pub(crate) fn repair_flow<M: Tally>(
    alloc: Global,
    old: Option<&Layer>,
    surface: &Change<'_>,
    weights: &Change<'_>,
    tally: &mut M,
) -> Result<(Patch, u64), KernelRefusal>
    requires surface { IsOperand surface.now.size surface.now }
    requires weights { IsOperand surface.now.size weights.now }
    requires before { IsFlowBefore surface.now weights.now (option_copied old) }
    ensures answer { (t u : Term) → IsWholeAnswer surface.now.size (flow_op t u) (before_of (option_copied old.entry)) (surface.now ∷ weights.now ∷ []) result }
    ensures tally { (t u : Term) → RisesBy (32 * length (damage_by surface.now.size (flow_op t u) (before_of (option_copied old.entry)) (surface.now ∷ weights.now ∷ []))) (1000 * work_by surface.now.size (flow_op t u) (before_of (option_copied old.entry)) (surface.now ∷ weights.now ∷ [])) (M.counts tally.old) (M.counts tally.new) }
{
    let _surface = surface.extent();
    let repair = flow_repair(alloc, old, surface, weights, tally)?;
    let _patch = repair.patch.extent();
    Ok((repair.patch, repair.worked))
}
