//! What all parts of a run are handed, and none changes.

use std::alloc::Global;
use tile_workers::Crew;

/// The limits of a run.
#[derive(Clone, Copy)]
pub struct Limits {
    /// The most bytes of a file.
    pub file: u64,
    /// So many bytes of a session are too many.
    pub session: u64,
}

/// What the workers of a run need: the runtime that starts their threads, memory, and the gate that is told of each job.
pub struct Means<'a, G, R> {
    pub rt: &'a R,
    pub alloc: Global,
    pub gate: &'a G,
}

/// What all parts of a run are handed, and none changes.
pub struct Setup<'a, G, R> {
    pub crew: Crew<'a, R, G>,
    pub limits: Limits,
}

impl<G, R> Drop for Setup<'_, G, R> {
    fn drop(self) {
        let Setup { crew, limits: _ } = self;
        drop(crew);
    }
}
