//! What became of an entry of the queue.

/// What became of an entry that was taken out of the queue: it was passed over, or its place's value fell, or rose.
#[derive(Clone, Copy)]
pub enum Outcome {
    Passed,
    Fell,
    Rose,
}
