//! Statements that one job repairs whole, with nothing beside their layers: flow, spreading, regions.
ghost use Rattle.std.specs.Prelude.{◌*◌, length};
ghost use Rattle.std.specs.Option.{option_copied};
ghost use Rattle.map_defs.specs.Ops.{Op};
ghost use Rattle.layer_tiles.specs.Operands.{size_of};
ghost use Rattle.layer_tiles.specs.Tallies.{RisesBy};
ghost use Rattle.tile_work.specs.Working.{before_of};
ghost use Rattle.map_waves.specs.Statements.{damage_by, work_by};
ghost use Rattle.op_jobs.specs.Operands.{AreOperandsOf};
ghost use Rattle.op_jobs.specs.Ranges.{HasRanges};
ghost use Rattle.op_jobs.specs.Repairs.{IsRepairOf};
ghost use Rattle.op_jobs.specs.Whole.{IsRightBefore, IsWholeAnswer};
ghost use Rattle.op_jobs.specs.declared.own.Repair.TheVariants.{Alone};

use crate::operands::{both_of, only_of};
use crate::own::Lone;
use crate::whole_flow::repair_flow;
use crate::whole_regions::repair_regions;
use crate::whole_spread::repair_spread;
use layer_tiles::{KernelRefusal, Layer, Operands, Patch, Tally};
use std::alloc::Global;

/// The tiles of a statement's layer that an edit changes, all of them where there was no layer, and the units of work. At
/// most 32 looks for each tile of the damage and 1000 picks for each unit of work.
///
/// # Errors
///
/// `Overflow` at the layer's least cell whose value is out of range, exactly where there is one; `NoMemory`.
pub(crate) fn repair_whole<M: Tally>(
    alloc: Global,
    lone: Lone,
    operands: &Operands<'_>,
    old: Option<&Layer>,
    tally: &mut M,
) -> Result<(Patch, u64), KernelRefusal>
    requires right { (op : Op) × IsRepairOf op (Alone lone) × AreOperandsOf (size_of operands.now) op operands.now × IsRightBefore (size_of operands.now) op operands.now (option_copied old) }
    ensures answer { (op : Op) → IsRepairOf op (Alone lone) → HasRanges op → IsWholeAnswer (size_of operands.now) op (before_of (option_copied old.entry)) operands.now result }
    ensures tally { (op : Op) → IsRepairOf op (Alone lone) → HasRanges op → RisesBy (32 * length (damage_by (size_of operands.now) op (before_of (option_copied old.entry)) operands.now)) (1000 * work_by (size_of operands.now) op (before_of (option_copied old.entry)) operands.now) (M.counts tally.old) (M.counts tally.new) }
{
    match lone {
        Lone::Flow => {
            let (surface, weights) = both_of(operands);
            repair_flow(alloc, old, surface, weights, tally)
        }
        Lone::Spread(limit) => {
            let (sources, friction) = both_of(operands);
            repair_spread(alloc, old, sources, friction, limit, tally)
        }
        Lone::Regions => repair_regions(alloc, old, only_of(operands), tally),
    }
}
