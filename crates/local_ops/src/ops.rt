//! The Local operations.
ghost use Rattle.std.specs.Prelude.{◌≡◌, IfOk};

use map_nums::{NoMemory, Rate, Stat};
use std::alloc::Global;
use std::marker::Model;

/// A Local operation.
#[derive(Drop)]
pub enum LocalOp {
    /// The statistic of two to eight operands; null where one operand is null.
    Stat(Stat),
    /// The statistic of the values among two to eight operands: nulls are passed over.
    Ignoring(Stat),
    /// The first operand minus the second.
    Difference,
    /// The first operand over the second, rounded down; null where the second is 0.
    Ratio,
    /// What the first clause gives whose range holds the one operand's value; the value itself where none does.
    Rating(Rates),
}

/// The clauses of a rating, in order.
#[derive(Drop)]
pub struct Rates {
    kept: Vec<Rate>,
}

impl Model for Rates {
    ghost use Rattle.std.specs.Prelude.{List};
    ghost use Rattle.map_nums.specs.declared.Rate.{Rate};

    ghost Value = { List Rate };

    ghost view = { λ r. r.kept.items };
}

impl Rates {
    pub fn of(alloc: Global, rates: &[Rate]) -> Result<Rates, NoMemory>
        ensures { IfOk result (λ kept. kept ≡ rates.now) }
    {
        let kept = Vec::from_slice(alloc, rates)?;
        Ok(Rates { kept })
    }

    pub fn as_slice(&self) -> &[Rate]
        ensures { result.now ≡ self.now }
    {
        &self.kept
    }
}
