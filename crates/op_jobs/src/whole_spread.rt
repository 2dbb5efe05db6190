//! The least costs of a statement, repaired whole.
ghost use Rattle.std.specs.Prelude.{◌≤◌, ◌*◌, ◌∷◌, [], length};
ghost use Rattle.std.specs.Option.{option_copied};
ghost use Rattle.map_nums.specs.Numbers.{greatest_value};
ghost use Rattle.map_defs.specs.Ops.{Term, spread_op};
ghost use Rattle.layer_tiles.specs.Tallies.{RisesBy};
ghost use Rattle.tile_work.specs.Working.{before_of};
ghost use Rattle.friction_spread.specs.Repairs.{IsBaseFor};
ghost use Rattle.map_waves.specs.Operands.{IsOperand};
ghost use Rattle.map_waves.specs.Statements.{damage_by, work_by};
ghost use Rattle.op_jobs.specs.Whole.{IsWholeAnswer};

use friction_spread::spread_repair;
use layer_tiles::{Change, KernelRefusal, Layer, Patch, Tally, Value};
use map_nums::NoMemory;
use std::alloc::Global;

/// The tiles of the least costs that an edit changes, and the units of work. No cost is out of range.
///
/// # Errors
///
/// `NoMemory`.
pub(crate) fn repair_spread<M: Tally>(
    alloc: Global,
    old: Option<&Layer>,
    sources: &Change<'_>,
    friction: &Change<'_>,
    limit: u64,
    tally: &mut M,
) -> Result<(Patch, u64), KernelRefusal>
    requires sources { IsOperand sources.now.size sources.now }
    requires friction { IsOperand sources.now.size friction.now }
    requires limit { limit ≤ greatest_value }
    requires before { IsBaseFor sources.now friction.now limit (option_copied old) }
    ensures answer { (t u : Term) → IsWholeAnswer sources.now.size (spread_op limit t u) (before_of (option_copied old.entry)) (sources.now ∷ friction.now ∷ []) result }
    ensures tally { (t u : Term) → RisesBy (32 * length (damage_by sources.now.size (spread_op limit t u) (before_of (option_copied old.entry)) (sources.now ∷ friction.now ∷ []))) (1000 * work_by sources.now.size (spread_op limit t u) (before_of (option_copied old.entry)) (sources.now ∷ friction.now ∷ [])) (M.counts tally.old) (M.counts tally.new) }
{
    let _sources = sources.extent();
    match spread_repair(alloc, old, sources, friction, limit as Value, tally) {
        Ok(repair) => {
            let _patch = repair.patch.extent();
            Ok((repair.patch, repair.worked))
        }
        Err(NoMemory) => Err(KernelRefusal::NoMemory),
    }
}
