//! The region labels of a statement, repaired whole.
ghost use Rattle.std.specs.Prelude.{◌*◌, ◌∷◌, [], length};
ghost use Rattle.std.specs.Option.{option_copied};
ghost use Rattle.map_defs.specs.Ops.{Term, region_op};
ghost use Rattle.layer_tiles.specs.Tallies.{RisesBy};
ghost use Rattle.tile_work.specs.Working.{before_of};
ghost use Rattle.region_labels.specs.Repairs.{IsBaseFor};
ghost use Rattle.map_waves.specs.Operands.{IsOperand};
ghost use Rattle.map_waves.specs.Statements.{damage_by, work_by};
ghost use Rattle.op_jobs.specs.Whole.{IsWholeAnswer};

use layer_tiles::{Change, KernelRefusal, Layer, Patch, Tally};
use map_nums::NoMemory;
use region_labels::label_repair;
use std::alloc::Global;

/// The tiles of the labels that an edit changes, and the units of work. No label is out of range.
///
/// # Errors
///
/// `NoMemory`.
pub(crate) fn repair_regions<M: Tally>(
    alloc: Global,
    old: Option<&Layer>,
    of: &Change<'_>,
    tally: &mut M,
) -> Result<(Patch, u64), KernelRefusal>
    requires operand { IsOperand of.now.size of.now }
    requires before { IsBaseFor of.now (option_copied old) }
    ensures answer { (t : Term) → IsWholeAnswer of.now.size (region_op t) (before_of (option_copied old.entry)) (of.now ∷ []) result }
    ensures tally { (t : Term) → RisesBy (32 * length (damage_by of.now.size (region_op t) (before_of (option_copied old.entry)) (of.now ∷ []))) (1000 * work_by of.now.size (region_op t) (before_of (option_copied old.entry)) (of.now ∷ [])) (M.counts tally.old) (M.counts tally.new) }
{
    let _of = of.extent();
    match label_repair(alloc, old, of, tally) {
        Ok(repair) => {
            let _patch = repair.patch.extent();
            Ok((repair.patch, repair.worked))
        }
        Err(NoMemory) => Err(KernelRefusal::NoMemory),
    }
}
