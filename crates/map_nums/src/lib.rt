//! Whole-number arithmetic, the statistics of a list of values, and the numbers and small types that every crate shares.
//!
//! `statistic` gives any of the nine statistics of a list, and `statistic_in` the same without memory; `in_range` is the one
//! test of what a cell may hold.
#![tactic(auto)]

ghost use Rattle.std.specs.Prelude.{◌≡◌};

mod numbers;
mod ranks;
mod rounding;
mod runs;
mod statistics;
mod sums;

pub use numbers::{cmp_cross, exact, in_range};
pub use rounding::{floor_div, floor_root};
pub use statistics::{statistic, statistic_in};
use std::alloc::{AllocError, AllocFailed};

/// A number that a cell holds.
pub type Value = i64;

/// The greatest number that a cell holds; the least is its negative.
pub const VMAX: i64 = 1_000_000_000_000_000;

/// Memory was wanted and not there.
#[derive(Clone, Copy, Debug, PartialEq, Eq)]
pub struct NoMemory;

impl From<AllocError> for NoMemory {
    fn from(_: AllocError) -> Self {
        NoMemory
    }
}

impl<T: Drop> From<AllocFailed<T>> for NoMemory {
    fn from(_: AllocFailed<T>) -> Self {
        NoMemory
    }
}

/// A statistic of a list of values.
#[derive(Clone, Copy, Debug, PartialEq, Eq)]
pub enum Stat {
    Sum,
    Product,
    Maximum,
    Minimum,
    Mean,
    Median,
    Majority,
    Minority,
    Variety,
}

/// A clause of a rating: what the values from `low` to `high` become, `None` being null.
#[derive(Clone, Copy, Debug, PartialEq, Eq)]
pub struct Rate {
    pub low: Value,
    pub high: Value,
    pub give: Option<Value>,
}

/// A number is outside the range of a cell's value.
#[derive(Clone, Copy, Debug, PartialEq, Eq)]
pub struct Wide;

/// Why a statistic has no answer.
#[derive(Clone, Copy, Debug, PartialEq, Eq)]
pub enum StatRefusal {
    /// The statistic is outside the range of a cell's value.
    Wide,
    NoMemory,
}

impl From<AllocError> for StatRefusal {
    ghost use Rattle.map_nums.specs.declared.StatRefusal.TheVariants.{NoMemory};

    ghost from_gives = { λ _ refusal. refusal ≡ NoMemory };

    fn from(_: AllocError) -> Self {
        StatRefusal::NoMemory
    }
}
