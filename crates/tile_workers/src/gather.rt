//! What the workers leave, put together on the caller's thread.
ghost use Rattle.std.specs.Prelude.{◌≡◌, ℕ, ◌-◌, ◌<◌, ◌≤◌, ◌⊎◌, true, false, [], ◌++◌, All, sum_by, vec_len};
ghost use Rattle.layer_tiles.specs.Tallies.{TallyState, absorbed};
ghost use Rattle.tile_workers.specs.Tickets.{both_views};
ghost use Rattle.tile_workers.specs.Seats.{seat_view, IsSeatOf};
ghost use Rattle.tile_workers.specs.Shifts.{IsDone, IsGathering, shift_share};

use crate::laid::Laid;
use crate::phase::Phase;
use crate::seat::{Board, Seat};
use crate::shift::{Gathered, Shift};
use crate::work::Work;
use layer_tiles::Tally;

// Begins with one shift.
fn begin<M: Tally, D>(tally: &mut M, shift: Shift<M, D>) -> Gathered<D>
    requires whole { (M.counts tally.old).is_part ≡ false }
    requires some { 0 < (M.counts tally.old).parts_out }
    requires part { (M.counts shift.part).is_part ≡ true }
    ensures parts { (result.seat ≡ shift.seat) × (result.laid ≡ shift.laid) × (result.is_short ≡ shift.is_short) }
    ensures tally { M.counts tally.new ≡ absorbed (M.counts tally.old) (M.counts shift.part) }
{
    let Shift {
        seat,
        part,
        laid,
        is_short,
    } = shift;
    tally.absorb(part);
    Gathered {
        seat,
        laid,
        is_short,
    }
}

// Takes in one shift more.
fn take_back<M: Tally, D: Drop>(
    board: &Board,
    all: &mut Gathered<D>,
    tally: &mut M,
    shift: Shift<M, D>,
)
    requires own { (IsSeatOf board.now all.old.seat) × (IsSeatOf board.now shift.seat) }
    requires whole { (M.counts tally.old).is_part ≡ false }
    requires some { 0 < (M.counts tally.old).parts_out }
    requires part { (M.counts shift.part).is_part ≡ true }
    ensures own { all.new.seat.inner.table_id ≡ all.old.seat.inner.table_id }
    ensures seat { seat_view all.new.seat ≡ both_views (seat_view all.old.seat) (seat_view shift.seat) }
    ensures laid { all.new.is_short ≡ false → (all.old.is_short ≡ false) × (shift.is_short ≡ false) × (all.new.laid.items ≡ all.old.laid.items ++ shift.laid.items) }
    ensures kept { (all.new.laid.items ≡ all.old.laid.items) ⊎ (all.new.laid.items ≡ all.old.laid.items ++ shift.laid.items) }
    ensures tally { M.counts tally.new ≡ absorbed (M.counts tally.old) (M.counts shift.part) }
{
    let Shift {
        seat,
        part,
        mut laid,
        is_short,
    } = shift;
    board.join(&mut all.seat, seat);
    tally.absorb(part);
    all.is_short = all.is_short || is_short || all.laid.append(&mut laid).is_err();
}

/// Takes in all shifts: their seats are joined into one, their parts of the tally are absorbed.
pub(crate) fn gather<W: Work, G, M: Tally>(
    phase: &Phase<'_, W, G>,
    tally: &mut M,
    mut shifts: Vec<Shift<M, W::Done>>,
) -> Gathered<W::Done>
where
    W::Done: Drop,
    requires some { 0 < vec_len shifts }
    requires shares { sum_by shift_share shifts.items ≡ 64 }
    requires few { vec_len shifts ≤ 64 }
    requires whole { (M.counts tally.old).is_part ≡ false }
    requires parts { vec_len shifts ≤ (M.counts tally.old).parts_out }
    requires done { All (IsDone M.counts phase.now.board.now.table.shared.table_id phase.now.jobs (W.looks phase.now.work.now) (W.picks phase.now.work.now) (W.answers phase.now.work.now)) shifts.items }
    ensures { IsGathering M.counts phase.now.board.now.table.shared.table_id phase.now.jobs (W.looks phase.now.work.now) (W.picks phase.now.work.now) (W.answers phase.now.work.now) 64 (vec_len shifts) ((M.counts tally.old).parts_out - vec_len shifts) (M.counts tally.old) (M.counts tally.new) result [] }
{
    let Some(last) = shifts.pop() else {
        unreachable!()
    };
    let mut all = begin(tally, last);
    while let Some(shift) = shifts.pop() {
        take_back(phase.board, &mut all, tally, shift);
    }
    shifts.destroy_empty();
    all
}
