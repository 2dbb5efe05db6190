//! What is told of each job.

/// A worker tells the gate of each job that it drew, before the job. What the gate does changes no answer.
pub trait Gate {
    fn enter(&self, ticket: u64);
}

/// Lets every job begin at once.
pub struct NoGate;

impl Gate for NoGate {
    fn enter(&self, _ticket: u64) {}
}
