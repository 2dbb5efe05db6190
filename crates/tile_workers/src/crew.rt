//! The workers at hand, and what they need.
ghost use Rattle.std.specs.Prelude.{◌≡◌, ◌<◌, ◌≤◌};

use std::alloc::Global;

/// So many workers, 1 to 64: the runtime that starts their threads, memory, and the gate that is told of each job.
pub struct Crew<'a, R, G> {
    pub rt: &'a R,
    pub alloc: Global,
    pub gate: &'a G,
    workers: u32,
    ghost some: { 0 < workers },
    ghost most: { workers ≤ 64 },
}

impl<'a, R, G> Crew<'a, R, G> {
    pub fn new(rt: &'a R, alloc: Global, gate: &'a G, workers: u32) -> Self
        requires { (0 < workers) × (workers ≤ 64) }
        ensures { result.workers ≡ workers }
    {
        Crew {
            rt,
            alloc,
            gate,
            workers,
        }
    }

    pub fn workers(&self) -> u32
        ensures same { result ≡ self.now.workers }
        ensures some { 0 < result }
        ensures most { result ≤ 64 }
    {
        self.workers
    }

    /// No more of the workers than `count`, and at least one.
    pub fn at_most(&self, count: u64) -> Crew<'a, R, G>
        ensures most { result.workers ≤ self.now.workers }
        ensures few { 0 < count → count ≤ self.now.workers → result.workers ≡ count }
        ensures all { self.now.workers ≤ count → result.workers ≡ self.now.workers }
        ensures one { count ≡ 0 → result.workers ≡ 1 }
    {
        let workers = u64::from(self.workers()).min(count).max(1) as u32;
        Crew::new(self.rt, self.alloc, self.gate, workers)
    }
}

impl<R, G> Drop for Crew<'_, R, G> {
    fn drop(self) {
        let Crew {
            rt: _,
            alloc: _,
            gate: _,
            workers: _,
        } = self;
    }
}
