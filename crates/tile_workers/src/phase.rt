//! What the workers of a phase share.
use crate::seat::Board;

/// The board to draw from, and the jobs, as many as `jobs`.
pub(crate) struct Phase<'a, W, G> {
    pub(crate) board: &'a Board,
    pub(crate) jobs: u64,
    pub(crate) gate: &'a G,
    pub(crate) work: &'a W,
}

impl<W, G> Drop for Phase<'_, W, G> {
    fn drop(self) {
        let Phase {
            board: _,
            jobs: _,
            gate: _,
            work: _,
        } = self;
    }
}
