//! Why a statement has no jobs, and why not all statements are repaired.

/// Why a statement has no jobs.
#[derive(Clone, Copy, Debug)]
pub enum NoJobs {
    /// So many viewers, more than there may be.
    Viewers(u64),
    NoMemory,
}

/// Why not all statements are repaired: the place of the first one with a fault.
#[derive(Clone, Copy, Debug)]
pub enum Stop {
    /// So many viewers, more than there may be.
    Viewers(usize, u64),
    /// The least cell whose value is out of range.
    Overflow(usize, u32),
    NoMemory,
}
