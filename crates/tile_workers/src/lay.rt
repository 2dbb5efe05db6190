//! Answers in the order of their jobs.
ghost use Rattle.std.specs.Prelude.{◌≡◌, ℕ, ◌^◌, ◌<◌, IfOk, replicate, None, vec_len, slice_index_or, slice_set, Some, IsSomeAnd};
ghost use Rattle.tile_workers.specs.Lists.{times};
ghost use Rattle.tile_workers.specs.Phases.{tickets, AllStand, job_answers};

use crate::laid::Laid;
use crate::work::Work;
use map_nums::NoMemory;
use std::alloc::Global;

// A place for each job.
fn no_answers<D: Drop>(alloc: Global, jobs: u64) -> Result<Vec<Option<D>>, NoMemory>
    ensures { IfOk result (λ v. v.items ≡ replicate jobs None) }
{
    let mut slots = Vec::new(alloc);
    for _slot in 0..jobs {
        slots.push(None)?;
    }
    Ok(slots)
}

// An answer at its place.
fn put<D: Drop>(slots: &mut Vec<Option<D>>, place: usize, done: D)
    requires { place < vec_len slots.old }
    ensures items { slots.new.items ≡ slice_set slots.old.items place (Some done) }
    ensures len { vec_len slots.new ≡ vec_len slots.old }
{
    slots[place] = Some(done);
}

// Puts each answer at the place of its job.
fn put_answers<W: Work>(
    slots: &mut Vec<Option<W::Done>>,
    _jobs: u64,
    _work: &W,
    mut laid: Vec<Laid<W::Done>>,
)
where
    W::Done: Drop,
    requires len { vec_len slots.old ≡ _jobs }
    requires stand { AllStand (job_answers _jobs (W.answers _work.now)) laid.items }
    ensures len { vec_len slots.new ≡ _jobs }
    ensures put { (k : ℕ) (d : _) → k < _jobs → 0 < times k (tickets laid.items) → IsSomeAnd (slice_index_or slots.new.items k d) (W.answers _work.now k) }
{
    while let Some(answer) = laid.pop() {
        let Laid { ticket, done } = answer;
        put(slots, ticket as usize, done);
    }
}

// The answers, all of which are there.
fn take_answers<W: Work>(
    alloc: Global,
    jobs: u64,
    _work: &W,
    mut slots: Vec<Option<W::Done>>,
) -> Result<Vec<W::Done>, NoMemory>
where
    W::Done: Drop,
    requires len { vec_len slots ≡ jobs }
    requires full { (k : ℕ) (d : _) → k < jobs → IsSomeAnd (slice_index_or slots.items k d) (W.answers _work.now k) }
    ensures len { IfOk result (λ v. vec_len v ≡ jobs) }
    ensures each { IfOk result (λ v. (k : ℕ) (d : _) → k < jobs → W.answers _work.now k (slice_index_or v.items k d)) }
{
    let mut answers = Vec::new(alloc);
    for job in 0..jobs {
        let Some(done) = slots[job as usize].take() else {
            unreachable!()
        };
        answers.push(done)?;
    }
    Ok(answers)
}

/// The answers in the order of the jobs.
pub(crate) fn lay<W: Work>(
    alloc: Global,
    jobs: u64,
    work: &W,
    laid: Vec<Laid<W::Done>>,
) -> Result<Vec<W::Done>, NoMemory>
where
    W::Done: Drop,
    requires stand { AllStand (job_answers jobs (W.answers work.now)) laid.items }
    requires full { (k : ℕ) → k < jobs → 0 < times k (tickets laid.items) }
    ensures len { IfOk result (λ v. vec_len v ≡ jobs) }
    ensures each { IfOk result (λ v. (k : ℕ) (d : _) → k < jobs → W.answers work.now k (slice_index_or v.items k d)) }
{
    let mut slots = no_answers(alloc, jobs)?;
    put_answers(&mut slots, jobs, work, laid);
    take_answers(alloc, jobs, work, slots)
}
