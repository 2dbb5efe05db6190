//! One worker of a phase.
ghost use Rattle.std.specs.Prelude.{◌≡◌, ℕ, ◌+◌, ◌^◌, ◌<◌, ◌≤◌, [], length, OnOk};
ghost use Rattle.layer_tiles.specs.Tallies.{TallyState, RisesBy};
ghost use Rattle.tile_workers.specs.Seats.{drawn, share, IsSameSeat, IsSeatOf};
ghost use Rattle.tile_workers.specs.Phases.{added, IsEnded, AreAnswered, AllStand, job_answers};

use crate::gate::Gate;
use crate::laid::Laid;
use crate::phase::Phase;
use crate::seat::{Board, Seat};
use crate::work::Work;
use layer_tiles::Tally;
use map_nums::NoMemory;

/// Draws jobs and does them until none is left, or until memory runs out. It draws at most one number more than there are jobs.
pub(crate) fn do_jobs<W: Work, G: Gate, M: Tally + Send>(
    phase: &Phase<'_, W, G>,
    seat: &mut Seat,
    tally: &mut M,
    laid: &mut Vec<Laid<W::Done>>,
) -> Result<(), NoMemory>
where
    W::Done: Drop,
    requires ready { W.ready phase.now.work.now }
    requires own { IsSeatOf phase.now.board.now seat.old }
    requires jobs { phase.now.jobs ≡ W.jobs phase.now.work.now }
    requires count { phase.now.jobs < 2 ^ 32 }
    requires fresh { (drawn seat.old ≡ []) × (laid.old.items ≡ []) }
    ensures same { IsSameSeat seat.old seat.new }
    ensures share { share seat.new ≡ share seat.old }
    ensures few { length (drawn seat.new) ≤ phase.now.jobs + 1 }
    ensures ended { OnOk result (IsEnded phase.now.jobs (drawn seat.new)) }
    ensures answered { OnOk result (AreAnswered phase.now.jobs (drawn seat.new) laid.new.items) }
    ensures stand { AllStand (job_answers phase.now.jobs (W.answers phase.now.work.now)) laid.new.items }
    ensures tally { RisesBy (added phase.now.jobs (W.looks phase.now.work.now) (drawn seat.new)) (added phase.now.jobs (W.picks phase.now.work.now) (drawn seat.new)) (M.counts tally.old) (M.counts tally.new) }
{
    for _turn in 0..phase.jobs + 1 {
        let ticket = phase.board.draw(seat);
        if ticket >= phase.jobs {
            return Ok(());
        }
        phase.gate.enter(ticket);
        let done = phase.work.job(seat, ticket, tally);
        laid.push(Laid { ticket, done })?;
    }
    Ok(())
}
