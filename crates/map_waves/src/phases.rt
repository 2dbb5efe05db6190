//! All statements, depth by depth.
ghost use Rattle.std.specs.Prelude.{◌≡◌, ℕ, ◌-◌, ◌*◌, ◌<◌, ◌≤◌, false, length};
ghost use Rattle.layer_tiles.specs.Tallies.{RisesBy, IsUndivided};
ghost use Rattle.map_waves.specs.Plans.{evaluated_to, worked_to};
ghost use Rattle.map_waves.specs.Bases.{IsBase, ArePlanned, AreRight, plan_of};
ghost use Rattle.map_waves.specs.Prepared.{ArePrepared};
ghost use Rattle.map_waves.specs.Phases.{AreAlike, IsPhase, IsReached};
ghost use Rattle.map_waves.specs.Tasks.{AreTasks};

use crate::begin::begin_all;
use crate::gather::finish_all;
use crate::halts::Stop;
use crate::jobs::Maker;
use crate::keeping::Made;
use crate::plans::{Base, Step};
use crate::stops::stop_of;
use crate::tasks::{Depth, tasks_of};
use crate::tickets::do_jobs;
use layer_tiles::Tally;
use std::thread::Threads;
use tile_workers::{Crew, Gate};

/// The place past the statements that have the depth of this one and follow it.
fn phase_end<O>(steps: &[Step<O>], first: usize) -> usize
    requires { first < length steps.now }
    ensures some { first < result }
    ensures most { result ≤ length steps.now }
    ensures alike { AreAlike steps.now first result }
{
    let depth = steps[first].depth;
    let mut end = first + 1;
    while end < steps.len() && steps[end].depth == depth {
        end += 1;
    }
    end
}

/// Repairs the statements of one depth that are at work, as one run of tickets.
fn repair_tasks<'o, 'a, K: Maker + Sync, M: Tally + Send, G: Gate + Sync, R: Threads + Sync>(
    crew: &Crew<'_, R, G>,
    base: &Base<'a, K::Beside>,
    steps: &'o [Step<K::Op>],
    depth: &Depth<'o, 'a>,
    tally: &mut M,
) -> Result<Vec<Option<Made<K::Beside>>>, Stop>
    requires base { IsBase base.now }
    requires some { depth.now.first < depth.now.end }
    requires tasks { AreTasks K.means K.formed K.suits base.now steps.now depth.now.first depth.now.end depth.now.tasks.now }
    requires whole { 1 < crew.now.workers → IsUndivided (M.counts tally.old) }
    ensures phase { IsPhase K.means K.suits base.now steps.now depth.now.first depth.now.end result }
    ensures tally { let plan = plan_of K.means base.now steps.now in let first = depth.now.first in let end = depth.now.end in
        RisesBy (62 * (evaluated_to plan end - evaluated_to plan first)) (1000 * (worked_to plan end - worked_to plan first)) (M.counts tally.old) (M.counts tally.new) }
{
    let Ok(begun) = begin_all::<K, M, G, R>(crew, base, steps, depth.tasks, tally) else {
        return Err(Stop::NoMemory);
    };
    let (jobs, halted) = begun;
    let Ok(answers) = do_jobs::<K, M, G, R>(crew, &jobs, tally) else {
        return Err(Stop::NoMemory);
    };
    if let Some(stop) = stop_of(depth.tasks, &jobs, &answers, halted) {
        return Err(stop);
    }
    match finish_all::<K, M>(crew.alloc, base, steps, depth, jobs, answers, tally) {
        Ok(more) => Ok(more),
        Err(_) => Err(Stop::NoMemory),
    }
}

/// Repairs the statements of one depth. Those before them are prepared.
fn repair_phase<'a, K: Maker + Sync, M: Tally + Send, G: Gate + Sync, R: Threads + Sync>(
    crew: &Crew<'_, R, G>,
    base: &Base<'a, K::Beside>,
    steps: &[Step<K::Op>],
    prepared: &'a [Option<Made<K::Beside>>],
    end: usize,
    tally: &mut M,
) -> Result<Vec<Option<Made<K::Beside>>>, Stop>
    requires base { IsBase base.now }
    requires planned { ArePlanned K.means K.formed base.now steps.now }
    requires right { AreRight K.means K.suits base.now steps.now }
    requires prepared { ArePrepared K.means K.suits base.now steps.now 0 prepared.now }
    requires some { length prepared.now < end }
    requires most { end ≤ length steps.now }
    requires alike { AreAlike steps.now (length prepared.now) end }
    requires whole { 1 < crew.now.workers → IsUndivided (M.counts tally.old) }
    ensures phase { IsPhase K.means K.suits base.now steps.now (length prepared.now) end result }
    ensures tally { let plan = plan_of K.means base.now steps.now in let first = length prepared.now in
        RisesBy (62 * (evaluated_to plan end - evaluated_to plan first)) (1000 * (worked_to plan end - worked_to plan first)) (M.counts tally.old) (M.counts tally.new) }
{
    let Ok(tasks) = tasks_of::<K>(crew.alloc, base, steps, prepared, end) else {
        return Err(Stop::NoMemory);
    };
    let depth = Depth {
        first: prepared.len(),
        end,
        tasks: &tasks,
    };
    repair_tasks::<K, M, G, R>(crew, &*base, steps, &depth, tally)
}

/// Repairs all statements, depth by depth, each depth by the workers at hand; it stops at the first depth with a fault.
///
/// Of each statement it gives what was made, or nothing where the statement stays as it was. That such a one is passed over, with no
/// look and no memory of its own, is its code, and no clause. Those that were looked at take together at most 62 looks for each tile
/// of their damage, and 1000 picks for each unit of their work.
///
/// # Errors
///
/// The first statement with a fault, by depth, then place, and which fault. `NoMemory` where there is none.
pub fn repair_all<K: Maker + Sync, M: Tally + Send, G: Gate + Sync, R: Threads + Sync>(
    crew: &Crew<'_, R, G>,
    base: &Base<'_, K::Beside>,
    steps: &[Step<K::Op>],
    tally: &mut M,
) -> Result<Vec<Option<Made<K::Beside>>>, Stop>
    requires base { IsBase base.now }
    requires planned { ArePlanned K.means K.formed base.now steps.now }
    requires right { AreRight K.means K.suits base.now steps.now }
    requires whole { 1 < crew.now.workers → IsUndivided (M.counts tally.old) }
    ensures all { IsPhase K.means K.suits base.now steps.now 0 (length steps.now) result }
    ensures tally { (end : ℕ) × IsReached (plan_of K.means base.now steps.now) steps.now result end
        × RisesBy (62 * evaluated_to (plan_of K.means base.now steps.now) end) (1000 * worked_to (plan_of K.means base.now steps.now) end) (M.counts tally.old) (M.counts tally.new) }
{
    let mut prepared: Vec<Option<Made<K::Beside>>> = Vec::new(crew.alloc);
    'depths: while prepared.len() < steps.len() {
        let end = phase_end(steps, prepared.len());
        let mut more = match repair_phase::<K, M, G, R>(
            crew, &*base, steps, &prepared, end, tally,
        ) {
            Ok(more) => more,
            Err(stop) => return Err(stop),
        };
        let Ok(()) = prepared.append(&mut more) else {
            return Err(Stop::NoMemory);
        };
    }
    Ok(prepared)
}
