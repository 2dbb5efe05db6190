//! Workers side by side: their shifts are made on the caller's thread, and then done on several.
ghost use Rattle.std.specs.Prelude.{◌≡◌, ℕ, ◌+◌, ◌^◌, ◌<◌, ◌≤◌, false, [], ◌∷◌, ◌++◌, All, sum_by, vec_len, vec_capacity, length};
ghost use Rattle.layer_tiles.specs.Tallies.{TallyState};
ghost use Rattle.tile_workers.specs.Seats.{drawn, share, IsSeatOf};
ghost use Rattle.tile_workers.specs.Shifts.{IsHired, IsDone, shift_share};

use crate::forks::fork_each;
use crate::gate::Gate;
use crate::phase::Phase;
use crate::seat::{Board, Seat};
use crate::shift::Shift;
use crate::work::Work;
use crate::worker::do_jobs;
use layer_tiles::Tally;
use std::alloc::Global;
use std::thread::Threads;

// One worker's shift.
fn do_shift<W: Work, G: Gate, M: Tally + Send>(
    phase: &Phase<'_, W, G>,
    shift: &mut Shift<M, W::Done>,
)
where
    W::Done: Drop,
    requires ready { W.ready phase.now.work.now }
    requires jobs { phase.now.jobs ≡ W.jobs phase.now.work.now }
    requires count { phase.now.jobs < 2 ^ 32 }
    requires hired { IsHired M.counts phase.now.board.now.table.shared.table_id shift.old }
    ensures done { IsDone M.counts phase.now.board.now.table.shared.table_id phase.now.jobs (W.looks phase.now.work.now) (W.picks phase.now.work.now) (W.answers phase.now.work.now) shift.new }
    ensures share { shift_share shift.new ≡ shift_share shift.old }
{
    let outcome = do_jobs(phase, &mut shift.seat, &mut shift.part, &mut shift.laid);
    shift.is_short = outcome.is_err();
}

/// Does each shift on a thread of its own, the second of two on the caller's, or one after another where no thread can be started.
pub(crate) fn do_shifts<W: Work + Sync, G: Gate + Sync, M: Tally + Send, R: Threads + Sync>(
    rt: &R,
    phase: &Phase<'_, W, G>,
    shifts: &mut [Shift<M, W::Done>],
)
where
    W::Done: Drop + Send,
    requires ready { W.ready phase.now.work.now }
    requires jobs { phase.now.jobs ≡ W.jobs phase.now.work.now }
    requires count { phase.now.jobs < 2 ^ 32 }
    requires hired { All (IsHired M.counts phase.now.board.now.table.shared.table_id) shifts.old }
    requires some { 0 < length shifts.old }
    ensures done { All (IsDone M.counts phase.now.board.now.table.shared.table_id phase.now.jobs (W.looks phase.now.work.now) (W.picks phase.now.work.now) (W.answers phase.now.work.now)) shifts.new }
    ensures shares { sum_by shift_share shifts.new ≡ sum_by shift_share shifts.old }
{
    fork_each(
        rt,
        shifts,
        &|_, shift: &mut Shift<M, W::Done>|
            requires { W.ready phase.now.work.now × (phase.now.jobs ≡ W.jobs phase.now.work.now) × (phase.now.jobs < 2 ^ 32) × IsHired M.counts phase.now.board.now.table.shared.table_id shift.now }
            ensures { IsDone M.counts phase.entry.now.board.now.table.shared.table_id phase.entry.now.jobs (W.looks phase.entry.now.work.now) (W.picks phase.entry.now.work.now) (W.answers phase.entry.now.work.now) shift.exit.now × (shift_share shift.exit.now ≡ shift_share shift.entry.now) }
        { do_shift(phase, shift) },
    );
}

fn shift_of<M, D>(alloc: Global, seat: Seat, part: M) -> Shift<M, D>
    ensures { (result.seat ≡ seat) × (result.part ≡ part) × (result.laid.items ≡ []) × (result.is_short ≡ false) }
{
    Shift {
        seat,
        part,
        laid: Vec::new(alloc),
        is_short: false,
    }
}

// One more shift, for which there is room.
fn take_on<M, D>(shifts: &mut Vec<Shift<M, D>>, shift: Shift<M, D>)
    requires { vec_len shifts.old < vec_capacity shifts.old }
    ensures items { shifts.new.items ≡ shifts.old.items ++ shift ∷ [] }
    ensures room { vec_capacity shifts.old ≤ vec_capacity shifts.new }
{
    match shifts.push(shift) {
        Ok(()) => {}
        Err(_) => unreachable!(),
    }
}

/// Makes the shifts of so many workers, each with a part of the tally. The last has this seat, and the others one split off.
pub(crate) fn hire<M: Tally, D>(
    alloc: Global,
    board: &Board,
    workers: u32,
    mut seat: Seat,
    tally: &mut M,
    shifts: &mut Vec<Shift<M, D>>,
)
    requires own { IsSeatOf board.now seat }
    requires fresh { (drawn seat ≡ []) × (shifts.old.items ≡ []) }
    requires workers { 0 < workers }
    requires shares { workers ≤ share seat }
    requires whole { (M.counts tally.old).is_part ≡ false }
    requires room { (M.counts tally.old).parts_out + workers ≤ 64 }
    requires capacity { workers ≤ vec_capacity shifts.old }
    ensures hired { All (IsHired M.counts board.now.table.shared.table_id) shifts.new.items }
    ensures count { vec_len shifts.new ≡ workers }
    ensures shares { sum_by shift_share shifts.new.items ≡ share seat }
    ensures looks { (M.counts tally.new).looks ≡ (M.counts tally.old).looks }
    ensures picks { (M.counts tally.new).picks ≡ (M.counts tally.old).picks }
    ensures parts { (M.counts tally.new).parts_out ≡ (M.counts tally.old).parts_out + workers }
    ensures kind { (M.counts tally.new).is_part ≡ false }
{
    for _hired in 1..workers {
        let other = board.split(&mut seat);
        let part = tally.fork();
        let shift = shift_of(alloc, other, part);
        take_on(shifts, shift);
    }
    let part = tally.fork();
    let shift = shift_of(alloc, seat, part);
    take_on(shifts, shift);
}
