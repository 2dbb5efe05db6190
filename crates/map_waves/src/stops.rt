//! The first fault of a depth.
ghost use Rattle.std.specs.Prelude.{◌≡◌, ◌≤◌, length};
ghost use Rattle.map_waves.specs.Seating.{all_jobs};
ghost use Rattle.map_waves.specs.Stops.{refused_at, IsStopOf};

use crate::halts::Stop;
use crate::jobs::Jobs;
use crate::refusals::first_refusal;
use crate::tasks::Task;
use layer_tiles::KernelRefusal;

/// Why the statements at work stop all: the first refusal among their answers, else the statement with too many viewers.
pub(crate) fn stop_of<O, B, W, P>(
    tasks: &[Task<'_>],
    jobs: &[Jobs<'_, '_, O, B, W>],
    answers: &[Result<P, KernelRefusal>],
    halted: Option<(usize, u64)>,
) -> Option<Stop>
    requires answers { all_jobs jobs.now ≡ length answers.now }
    requires few { length jobs.now ≤ length tasks.now }
    ensures { IsStopOf tasks.now jobs.now answers.now halted result }
{
    match first_refusal(jobs, answers) {
        Some((place, refusal)) => Some(refused(tasks[place].place, refusal)),
        None => match halted {
            None => None,
            Some(last) => Some(Stop::Viewers(last.0, last.1)),
        },
    }
}

/// A job of the statement at a place stops all.
fn refused(place: usize, refusal: KernelRefusal) -> Stop
    ensures { result ≡ refused_at place refusal }
{
    match refusal {
        KernelRefusal::Overflow(at) => Stop::Overflow(place, at),
        KernelRefusal::NoMemory => Stop::NoMemory,
    }
}
