//! What workers do.
ghost use Rattle.std.specs.Prelude.{◌≡◌, ℕ, ◌<◌};
ghost use Rattle.layer_tiles.specs.Tallies.{TallyState, RisesBy};
ghost use Rattle.tile_workers.specs.Seats.{drawn};
ghost use Rattle.tile_workers.specs.Phases.{EndsWith};

use crate::seat::{Board, Seat};
use layer_tiles::Tally;

/// Jobs, told by their numbers from 0. Several workers may do jobs at once, so a job changes nothing but its tally.
pub trait Work {
    /// What a job answers. Where a job may fail, this is a `Result`: the others are done all the same.
    type Done;

    /// What a job needs to be true of its parts: that a runtime in them may be shared, for one.
    ghost ready: { Self → Type 0 };

    /// How many jobs there are.
    ghost jobs: { Self → ℕ };

    /// How many looks a job takes at most.
    ghost looks: { Self → ℕ → ℕ };

    /// How many picks a job takes at most.
    ghost picks: { Self → ℕ → ℕ };

    /// What a job may answer.
    ghost answers: { Self → ℕ → Self.Done → Type 0 };

    /// Does the job that the seat drew last.
    fn job<M: Tally + Send>(&self, seat: &Seat, ticket: u64, tally: &mut M) -> Self::Done
        requires ready { ready self.now }
        requires last { EndsWith (drawn seat.now) ticket }
        requires below { ticket < jobs self.now }
        ensures answer { answers self.now ticket result }
        ensures tally { RisesBy (looks self.now ticket) (picks self.now ticket) (M.counts tally.old) (M.counts tally.new) };
}
