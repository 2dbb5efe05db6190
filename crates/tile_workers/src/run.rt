//! A phase, by so many workers.
ghost use Rattle.std.specs.Prelude.{◌≡◌, ℕ, ◌+◌, ◌^◌, ◌<◌, ◌≤◌, false, [], IfOk, sum_by, vec_len, slice_index_or};
ghost use Rattle.std.specs.List.{range_with_len};
ghost use Rattle.layer_tiles.specs.Tallies.{TallyState, RisesBy, IsUndivided};
ghost use Rattle.tile_workers.specs.Seats.{drawn, share, IsSeatOf};
ghost use Rattle.tile_workers.specs.Shifts.{IsAllDone};

use crate::crew::Crew;
use crate::gate::Gate;
use crate::gather::gather;
use crate::hiring::{do_shifts, hire};
use crate::lay::lay;
use crate::phase::Phase;
use crate::seat::{Board, Seat};
use crate::shift::Gathered;
use crate::work::Work;
use crate::worker::do_jobs;
use layer_tiles::Tally;
use map_nums::NoMemory;
use std::alloc::Global;
use std::thread::Threads;

// One worker, on the caller's thread and with the caller's tally.
fn do_alone<W: Work, G: Gate, M: Tally + Send>(
    alloc: Global,
    phase: &Phase<'_, W, G>,
    mut seat: Seat,
    tally: &mut M,
) -> Gathered<W::Done>
where
    W::Done: Drop,
    requires ready { W.ready phase.now.work.now }
    requires own { IsSeatOf phase.now.board.now seat }
    requires jobs { phase.now.jobs ≡ W.jobs phase.now.work.now }
    requires count { phase.now.jobs < 2 ^ 32 }
    requires fresh { (drawn seat ≡ []) × (share seat ≡ 64) }
    ensures { IsAllDone phase.now.board.now.table.shared.table_id phase.now.jobs (W.looks phase.now.work.now) (W.picks phase.now.work.now) (W.answers phase.now.work.now) (M.counts tally.old) (M.counts tally.new) result }
{
    let mut laid = Vec::new(alloc);
    let outcome = do_jobs(phase, &mut seat, tally, &mut laid);
    Gathered {
        seat,
        laid,
        is_short: outcome.is_err(),
    }
}

// Workers side by side, each with a part of the tally.
fn do_beside<W: Work + Sync, G: Gate + Sync, M: Tally + Send, R: Threads + Sync>(
    crew: &Crew<'_, R, G>,
    phase: &Phase<'_, W, G>,
    seat: Seat,
    tally: &mut M,
) -> Gathered<W::Done>
where
    W::Done: Drop + Send,
    requires ready { W.ready phase.now.work.now }
    requires own { IsSeatOf phase.now.board.now seat }
    requires jobs { phase.now.jobs ≡ W.jobs phase.now.work.now }
    requires count { phase.now.jobs < 2 ^ 32 }
    requires fresh { (drawn seat ≡ []) × (share seat ≡ 64) }
    requires whole { (M.counts tally.old).is_part ≡ false }
    requires room { (M.counts tally.old).parts_out ≡ 0 }
    ensures { IsAllDone phase.now.board.now.table.shared.table_id phase.now.jobs (W.looks phase.now.work.now) (W.picks phase.now.work.now) (W.answers phase.now.work.now) (M.counts tally.old) (M.counts tally.new) result }
{
    let workers = crew.workers();
    let Ok(mut shifts) = Vec::with_capacity(crew.alloc, workers as usize) else {
        return Gathered {
            seat,
            laid: Vec::new(crew.alloc),
            is_short: true,
        };
    };
    hire(crew.alloc, phase.board, workers, seat, tally, &mut shifts);
    do_shifts(crew.rt, phase, shifts.as_mut_slice());
    gather(phase, tally, shifts)
}

// One worker alone, or workers side by side.
fn do_all<W: Work + Sync, G: Gate + Sync, M: Tally + Send, R: Threads + Sync>(
    crew: &Crew<'_, R, G>,
    phase: &Phase<'_, W, G>,
    seat: Seat,
    tally: &mut M,
) -> Gathered<W::Done>
where
    W::Done: Drop + Send,
    requires ready { W.ready phase.now.work.now }
    requires own { IsSeatOf phase.now.board.now seat }
    requires jobs { phase.now.jobs ≡ W.jobs phase.now.work.now }
    requires count { phase.now.jobs < 2 ^ 32 }
    requires fresh { (drawn seat ≡ []) × (share seat ≡ 64) }
    requires whole { 1 < crew.now.workers → IsUndivided (M.counts tally.old) }
    ensures { IsAllDone phase.now.board.now.table.shared.table_id phase.now.jobs (W.looks phase.now.work.now) (W.picks phase.now.work.now) (W.answers phase.now.work.now) (M.counts tally.old) (M.counts tally.new) result }
{
    if crew.workers() == 1 {
        return do_alone(crew.alloc, phase, seat, tally);
    }
    do_beside(crew, phase, seat, tally)
}

/// Does the jobs of a work, and gives their answers in the order of the jobs.
///
/// One worker alone works on the caller's thread and counts with the caller's tally. Several work on threads of their own, the
/// second of two on the caller's, each with a part of the tally, and all parts are taken in again in the end; where a thread can't be
/// started, the caller does that work itself. Beside the jobs, a phase by one worker takes less than a microsecond; by several, also the
/// start of their threads.
///
/// # Errors
///
/// `NoMemory` where there is none for the board or for a list of answers. Some jobs may then not be done.
pub fn run_by<W: Work + Sync, G: Gate + Sync, M: Tally + Send, R: Threads + Sync>(
    crew: &Crew<'_, R, G>,
    jobs: u64,
    tally: &mut M,
    work: &W,
) -> Result<Vec<W::Done>, NoMemory>
where
    W::Done: Drop + Send,
    requires ready { W.ready work.now }
    requires jobs { jobs ≡ W.jobs work.now }
    requires count { jobs < 2 ^ 32 }
    requires whole { 1 < crew.now.workers → IsUndivided (M.counts tally.old) }
    ensures len { IfOk result (λ v. vec_len v ≡ jobs) }
    ensures each { IfOk result (λ v. (k : ℕ) (d : _) → k < jobs → W.answers work.now k (slice_index_or v.items k d)) }
    ensures tally { RisesBy (sum_by (W.looks work.now) (range_with_len 0 jobs)) (sum_by (W.picks work.now) (range_with_len 0 jobs)) (M.counts tally.old) (M.counts tally.new) }
{
    let (board, seat) = Board::new(crew.alloc)?;
    let phase = Phase {
        board: &board,
        jobs,
        gate: crew.gate,
        work,
    };
    let all = do_all(crew, &phase, seat, tally);
    drop(phase);
    let Gathered {
        seat,
        laid,
        is_short,
    } = all;
    let _drawn = board.close(seat);
    if is_short {
        return Err(NoMemory);
    }
    lay(crew.alloc, jobs, work, laid)
}

/// Does the jobs of a work by so many workers, 1 to 64, as [`run_by`] does.
///
/// # Errors
///
/// `NoMemory` where there is none for the board or for a list of answers. Some jobs may then not be done.
pub fn run_phase<W: Work + Sync, G: Gate + Sync, M: Tally + Send, R: Threads + Sync>(
    rt: &R,
    alloc: Global,
    jobs: u64,
    workers: u32,
    gate: &G,
    tally: &mut M,
    work: &W,
) -> Result<Vec<W::Done>, NoMemory>
where
    W::Done: Drop + Send,
    requires ready { W.ready work.now }
    requires jobs { jobs ≡ W.jobs work.now }
    requires count { jobs < 2 ^ 32 }
    requires workers { (0 < workers) × (workers ≤ 64) }
    requires whole { 1 < workers → IsUndivided (M.counts tally.old) }
    ensures len { IfOk result (λ v. vec_len v ≡ jobs) }
    ensures each { IfOk result (λ v. (k : ℕ) (d : _) → k < jobs → W.answers work.now k (slice_index_or v.items k d)) }
    ensures tally { RisesBy (sum_by (W.looks work.now) (range_with_len 0 jobs)) (sum_by (W.picks work.now) (range_with_len 0 jobs)) (M.counts tally.old) (M.counts tally.new) }
{
    let crew = Crew::new(rt, alloc, gate, workers);
    run_by(&crew, jobs, tally, work)
}
