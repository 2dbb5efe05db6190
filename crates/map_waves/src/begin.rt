//! The jobs of the statements that are at work.
ghost use Rattle.std.specs.Prelude.{◌≡◌, ◌+◌, ◌*◌, ◌<◌, ◌≤◌, false, length, IfOk, IfErr, sum_by};
ghost use Rattle.std.specs.List.{All};
ghost use Rattle.layer_tiles.specs.Operands.{cells_after};
ghost use Rattle.layer_tiles.specs.Tallies.{RisesBy, IsUndivided};
ghost use Rattle.map_waves.specs.Statements.{damage_by, work_by};
ghost use Rattle.map_waves.specs.Operands.{IsOperand};
ghost use Rattle.map_waves.specs.Keeping.{kept_now, was_of, IsRightKept};
ghost use Rattle.map_waves.specs.Jobs.{AreOver};
ghost use Rattle.map_waves.specs.Answers.{AreJobs, LacksJobs};
ghost use Rattle.map_waves.specs.Plans.{damage_at, work_at};
ghost use Rattle.map_waves.specs.declared.halts.NoJobs.TheVariants.{Viewers, NoMemory as no_memory};
ghost use Rattle.map_waves.specs.Bases.{plan_of};
ghost use Rattle.map_waves.specs.Tasks.{IsTask, places_of, reckoned_kept};
ghost use Rattle.map_waves.specs.Begun.{AreBegun, IsHalted, halted_looks, halted_picks};

use crate::halts::NoJobs;
use crate::jobs::{Jobs, Maker};
use crate::keeping::Kept;
use crate::operands::kept_of;
use crate::parts::found_of;
use crate::plans::{Base, Step};
use crate::tasks::Task;
use layer_tiles::{Operands, Tally};
use map_nums::NoMemory;
use std::thread::Threads;
use tile_workers::{Crew, Gate};

/// What a statement is repaired from; none where the edit wrote it.
fn repaired_from<'a, O, B>(base: &Base<'a, B>, step: &Step<O>) -> Option<&'a Kept<B>>
    ensures { kept_now result ≡ reckoned_kept base.now step.now }
{
    if step.written {
        return None;
    }
    kept_of(base, step.kept)
}

/// The jobs of a statement that doesn't stay as it was.
fn begin_step<'o, 'a, K: Maker + Sync, M: Tally + Send, G: Gate + Sync, R: Threads + Sync>(
    crew: &Crew<'_, R, G>,
    base: &Base<'a, K::Beside>,
    step: &'o Step<K::Op>,
    operands: &'o Operands<'a>,
    tally: &mut M,
) -> Result<Jobs<'o, 'a, K::Op, K::Beside, K::Own>, NoJobs>
    requires formed { K.formed step.now.op }
    requires operands { All (IsOperand base.now.extent) operands.now }
    requires terms { length operands.now ≡ length ((K.means step.now.op).terms) }
    requires right { IsRightKept K.suits base.now.extent (K.means step.now.op) operands.now (reckoned_kept base.now step.now) }
    requires whole { 1 < crew.now.workers → IsUndivided (M.counts tally.old) }
    ensures over { IfOk result (λ j. AreOver j base.now.extent step.now.op operands.now (reckoned_kept base.now step.now)) }
    ensures jobs { IfOk result (λ j. AreJobs K.means K.sound K.first K.looks K.picks K.pieces j) }
    ensures halt { IfErr result (LacksJobs base.now.extent (K.means step.now.op) (cells_after operands.now)) }
    ensures tally { RisesBy (60 * length (damage_by base.now.extent (K.means step.now.op) (was_of (reckoned_kept base.now step.now)) operands.now)) (1000 * work_by base.now.extent (K.means step.now.op) (was_of (reckoned_kept base.now step.now)) operands.now) (M.counts tally.old) (M.counts tally.new) }
    ensures found { IfOk result (λ j. RisesBy (K.first j) 0 (M.counts tally.old) (M.counts tally.new)) }
{
    let kept = repaired_from(base, step);
    let extent = base.extent;
    let Ok(found) = found_of::<K, M, G, R>(crew, &step.op, operands, kept, extent, tally) else {
        return Err(NoJobs::NoMemory);
    };
    K::jobs_of(crew.alloc, &step.op, operands, kept, extent, found, tally)
}

/// How many viewers a statement has that has no jobs for their number.
fn viewers_of(halt: NoJobs) -> Result<u64, NoMemory>
    ensures viewers { IfOk result (λ count. halt ≡ Viewers count) }
    ensures short { IfErr result (λ _. halt ≡ no_memory) }
{
    match halt {
        NoJobs::Viewers(count) => Ok(count),
        NoJobs::NoMemory => Err(NoMemory),
    }
}

/// The jobs of all statements at work, up to one with too many viewers: its place, and how many there are.
pub(crate) fn begin_all<
    'o,
    'a,
    K: Maker + Sync,
    M: Tally + Send,
    G: Gate + Sync,
    R: Threads + Sync,
>(
    crew: &Crew<'_, R, G>,
    base: &Base<'a, K::Beside>,
    steps: &'o [Step<K::Op>],
    tasks: &'o [Task<'a>],
    tally: &mut M,
) -> Result<
    (
        Vec<Jobs<'o, 'a, K::Op, K::Beside, K::Own>>,
        Option<(usize, u64)>,
    ),
    NoMemory,
>
    requires tasks { All (IsTask K.means K.formed K.suits base.now steps.now) tasks.now }
    requires whole { 1 < crew.now.workers → IsUndivided (M.counts tally.old) }
    ensures begun { IfOk result (λ q. AreBegun K.means K.sound K.first K.looks K.picks K.pieces base.now steps.now tasks.now q.0.items) }
    ensures halted { IfOk result (λ q. IsHalted (plan_of K.means base.now steps.now) tasks.now (length q.0.items) q.1) }
    ensures rises { let plan = plan_of K.means base.now steps.now in
        IfOk result (λ q. RisesBy (sum_by K.first q.0.items + halted_looks plan q.1) (halted_picks plan q.1) (M.counts tally.old) (M.counts tally.new)) }
    ensures short { let plan = plan_of K.means base.now steps.now in
        IfErr result (λ _. RisesBy (60 * sum_by (λ k. length (damage_at plan k)) (places_of tasks.now)) (1000 * sum_by (work_at plan) (places_of tasks.now)) (M.counts tally.old) (M.counts tally.new)) }
{
    let mut jobs = Vec::new(crew.alloc);
    for task in tasks {
        match begin_step::<K, M, G, R>(crew, base, &steps[task.place], &task.operands, tally) {
            Ok(own) => jobs.push(own)?,
            Err(halt) => {
                let count = viewers_of(halt)?;
                return Ok((jobs, Some((task.place, count))));
            }
        }
    }
    Ok((jobs, None))
}
