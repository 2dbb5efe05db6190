//! Why an operand gives no viewers.

/// Why an operand gives no viewers.
#[derive(Clone, Copy, Debug, PartialEq, Eq)]
pub enum SightRefusal {
    /// How many cells are not null, where that is above 64.
    Viewers(u32),
    NoMemory,
}
