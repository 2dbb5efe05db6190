//! The jobs of several statements as one run of tickets.
ghost use Rattle.std.specs.Prelude.{◌≡◌, ◌^◌, ◌<◌, ◌≤◌, false, None, IfOk, IfSome, IsOk};
ghost use Rattle.std.specs.List.{All};
ghost use Rattle.layer_tiles.specs.Tallies.{RisesBy, IsUndivided};
ghost use Rattle.map_waves.specs.Answers.{AreJobs};
ghost use Rattle.map_waves.specs.Seating.{all_jobs, all_rises, AreStarts, AreAnswered};

use crate::jobs::{Jobs, Maker};
use layer_tiles::{KernelRefusal, Tally};
use map_nums::NoMemory;
use std::alloc::Global;
use std::thread::Threads;
use tile_workers::{Crew, Gate, Seat, Work, run_by};

/// The jobs of several statements, one after another, and the first ticket of each statement.
#[derive(Drop)]
pub(crate) struct Phase<'p, 'o, 'a, K: Maker> {
    pub(crate) alloc: Global,
    pub(crate) jobs: &'p [Jobs<'o, 'a, K::Op, K::Beside, K::Own>],
    pub(crate) starts: &'p [u64],
    pub(crate) ghost are_jobs: { All (AreJobs K.means K.sound K.first K.looks K.picks K.pieces) jobs.now },
    pub(crate) ghost are_starts: { AreStarts jobs.now starts.now },
}

impl<'p, 'o, 'a, K: Maker> Work for Phase<'p, 'o, 'a, K> {
    ghost use Rattle.std.specs.Prelude.{IfSome, ⊤};
    ghost use Rattle.map_waves.specs.Seating.{all_jobs, seat_of, rise_of};

    type Done = Result<K::Piece, KernelRefusal>;

    ghost ready = { λ _. ⊤ };

    ghost jobs = { λ w. all_jobs w.jobs.now };

    ghost looks = { λ w t. rise_of K.looks (seat_of w.jobs.now t) };

    ghost picks = { λ w t. rise_of K.picks (seat_of w.jobs.now t) };

    ghost answers = { λ w t d. IfSome (seat_of w.jobs.now t) (λ q. K.pieces q.0 q.1 d) };

    fn job<M: Tally + Send>(
        &self,
        _seat: &Seat,
        ticket: u64,
        tally: &mut M,
    ) -> Result<K::Piece, KernelRefusal> {
        let past = self.starts.partition_point(|start| *start <= ticket);
        let place = past - 1;
        K::do_job(
            self.alloc,
            &self.jobs[place],
            ticket - self.starts[place],
            tally,
        )
    }
}

/// How many jobs a statement has.
pub(crate) fn count_of<O, B, W>(jobs: &Jobs<'_, '_, O, B, W>) -> u64
    ensures { result ≡ jobs.now.count }
{
    jobs.count
}

/// How many tickets there are; none where they are 2^32 or more, which want more memory than there is.
fn tickets_of<O, B, W>(jobs: &[Jobs<'_, '_, O, B, W>]) -> Option<u64>
    ensures some { IfSome result (λ n. n ≡ all_jobs jobs.now) }
    ensures few { IfSome result (λ n. n < 2 ^ 32) }
    ensures none { result ≡ None → 2 ^ 32 ≤ all_jobs jobs.now }
{
    let mut count = 0u64;
    for own in jobs {
        let more = count_of(own);
        if more >= 4_294_967_296 - count {
            return None;
        }
        count += more;
    }
    Some(count)
}

/// The first ticket of each statement.
fn starts_of<O, B, W>(alloc: Global, jobs: &[Jobs<'_, '_, O, B, W>]) -> Result<Vec<u64>, NoMemory>
    requires { all_jobs jobs.now < 2 ^ 32 }
    ensures { IfOk result (λ starts. AreStarts jobs.now starts.items) }
{
    let mut starts = Vec::new(alloc);
    let mut start = 0u64;
    for own in jobs {
        starts.push(start)?;
        start += count_of(own);
    }
    Ok(starts)
}

/// About as many microseconds of work are worth the start of one more worker.
pub const WORTH_A_WORKER: u64 = 500;

/// The workers that do some jobs: no more than there are, than jobs, and than the work is worth.
fn hands_for<'c, K: Maker, G, R>(
    crew: &Crew<'c, R, G>,
    count: u64,
    jobs: &[Jobs<'_, '_, K::Op, K::Beside, K::Own>],
) -> Crew<'c, R, G>
    ensures { result.workers ≤ crew.now.workers }
{
    let mut weight = 0u64;
    for own in jobs {
        weight = weight.saturating_add(K::weight(own));
    }
    crew.at_most(count.min(weight / WORTH_A_WORKER + 1))
}

/// Does the jobs of all statements by the workers at hand, or by fewer where they are worth no more.
pub(crate) fn do_jobs<K: Maker + Sync, M: Tally + Send, G: Gate + Sync, R: Threads + Sync>(
    crew: &Crew<'_, R, G>,
    jobs: &[Jobs<'_, '_, K::Op, K::Beside, K::Own>],
    tally: &mut M,
) -> Result<Vec<Result<K::Piece, KernelRefusal>>, NoMemory>
    requires whole { 1 < crew.now.workers → IsUndivided (M.counts tally.old) }
    requires jobs { All (AreJobs K.means K.sound K.first K.looks K.picks K.pieces) jobs.now }
    ensures answers { IfOk result (λ answers. AreAnswered K.pieces jobs.now answers.items) }
    ensures none { all_jobs jobs.now ≡ 0 → IsOk result }
    ensures tally { RisesBy (all_rises K.looks jobs.now) (all_rises K.picks jobs.now) (M.counts tally.old) (M.counts tally.new) }
{
    let Some(count) = tickets_of(jobs) else {
        return Err(NoMemory);
    };
    if count == 0 {
        return Ok(Vec::new(crew.alloc));
    }
    let starts = starts_of(crew.alloc, jobs)?;
    let hands = hands_for::<K, G, R>(crew, count, jobs);
    let work: Phase<'_, '_, '_, K> = Phase {
        alloc: crew.alloc,
        jobs,
        starts: &starts,
    };
    run_by(&hands, count, tally, &work)
}
