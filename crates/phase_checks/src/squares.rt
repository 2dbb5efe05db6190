//! A work of numbers, in which every second job has no answer.
ghost use Rattle.std.specs.Prelude.{◌≡◌, ℕ, ◌*◌, ◌%◌, ◌^◌, ◌<◌, ◌≤◌, false, IfOk, MatchResult, ⊤, vec_len, slice_index_or};
ghost use Rattle.layer_tiles.specs.Tallies.{IsUndivided};

use layer_tiles::Tally;
use map_nums::NoMemory;
use std::alloc::Global;
use std::thread::Threads;
use tile_workers::{Gate, Seat, Work, run_phase};

/// An odd number has no answer.
#[derive(Drop, Debug, PartialEq, Eq)]
pub struct OddTicket;

/// The squares of the even numbers below a bound. A job takes two looks and a pick.
#[derive(Drop)]
pub struct Squares {
    pub count: u64,
    pub ghost small: { count < 2 ^ 32 },
}

impl Work for Squares {
    type Done = Result<u64, OddTicket>;

    ghost ready = { λ _. ⊤ };

    ghost jobs = { λ s. s.count };

    ghost looks = { λ s k. 2 };

    ghost picks = { λ s k. 1 };

    ghost answers = { λ s k d. MatchResult d (λ n. (k % 2 ≡ 0) × (n ≡ k * k)) (λ _. k % 2 ≡ 1) };

    fn job<M: Tally + Send>(
        &self,
        _seat: &Seat,
        ticket: u64,
        tally: &mut M,
    ) -> Result<u64, OddTicket> {
        tally.look();
        tally.pick();
        tally.look();
        if ticket % 2 == 1 {
            return Err(OddTicket);
        }
        Ok(ticket * ticket)
    }
}

/// The squares, by so many workers.
pub fn squares_of_even<G: Gate + Sync, M: Tally + Send, R: Threads + Sync>(
    rt: &R,
    alloc: Global,
    count: u64,
    workers: u32,
    gate: &G,
    tally: &mut M,
) -> Result<Vec<Result<u64, OddTicket>>, NoMemory>
    requires count { count < 2 ^ 32 }
    requires workers { (0 < workers) × (workers ≤ 64) }
    requires whole { 1 < workers → IsUndivided (M.counts tally.old) }
    ensures len { IfOk result (λ v. vec_len v ≡ count) }
    ensures even { IfOk result (λ v. (k : ℕ) (d : _) → k < count → k % 2 ≡ 0 → IfOk (slice_index_or v.items k d) (λ n. n ≡ k * k)) }
    ensures kept { ((M.counts tally.new).parts_out ≡ (M.counts tally.old).parts_out) × ((M.counts tally.new).is_part ≡ (M.counts tally.old).is_part) }
{
    let work = Squares { count };
    run_phase(rt, alloc, count, workers, gate, tally, &work)
}
