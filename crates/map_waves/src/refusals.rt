//! Refusals among the answers of jobs.
ghost use Rattle.std.specs.Prelude.{◌≡◌, length};
ghost use Rattle.map_waves.specs.Seating.{all_jobs};
ghost use Rattle.map_waves.specs.Refusals.{IsRefusalOf, IsFirstRefusal, lesser_of};

use crate::jobs::Jobs;
use crate::tickets::count_of;
use layer_tiles::KernelRefusal;

/// The lesser of a place and the least one so far.
fn lesser(least: Option<u32>, at: u32) -> u32
    ensures { result ≡ lesser_of least at }
{
    match least {
        None => at,
        Some(other) => other.min(at),
    }
}

/// The refusal of a row of answers: want of memory, or else the least overflow.
fn refusal_of<P>(row: &[Result<P, KernelRefusal>]) -> Option<KernelRefusal>
    ensures { IsRefusalOf row.now result }
{
    let mut least = None;
    for one in row {
        let Err(refusal) = one else {
            continue;
        };
        let KernelRefusal::Overflow(at) = *refusal else {
            return Some(KernelRefusal::NoMemory);
        };
        least = Some(lesser(least, at));
    }
    match least {
        None => None,
        Some(at) => Some(KernelRefusal::Overflow(at)),
    }
}

/// The first statement with a refusal among its answers.
pub(crate) fn first_refusal<O, B, W, P>(
    jobs: &[Jobs<'_, '_, O, B, W>],
    answers: &[Result<P, KernelRefusal>],
) -> Option<(usize, KernelRefusal)>
    requires { all_jobs jobs.now ≡ length answers.now }
    ensures { IsFirstRefusal jobs.now answers.now result }
{
    let mut start = 0;
    for place in 0..jobs.len() {
        let count = count_of(&jobs[place]) as usize;
        let end = start + count;
        if let Some(refusal) = refusal_of(&answers[start..end]) {
            return Some((place, refusal));
        }
        start = end;
    }
    None
}
