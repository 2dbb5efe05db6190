//! Any statistic of a list, by its name.
ghost use Rattle.std.specs.Prelude.{Some, IsPermutation};
ghost use Rattle.map_nums.specs.Answers.{IsAnswer};
ghost use Rattle.map_nums.specs.Exact.{IsExact};
ghost use Rattle.map_nums.specs.Stats.{statistic_of};

use crate::numbers::exact;
use crate::ranks::{maximum, median, minimum};
use crate::runs::{majority, minority, variety};
use crate::sums::{mean, product, total};
use crate::{Stat, StatRefusal, Value, Wide};
use std::alloc::Global;

/// A statistic of the values, none of an empty list. It is taken of a copy; `statistic_in` wants no memory.
///
/// # Errors
///
/// `Wide` exactly where no cell may hold the statistic, `NoMemory` where the copy finds none.
pub fn statistic(alloc: Global, stat: Stat, values: &[Value]) -> Result<Option<Value>, StatRefusal>
    ensures { IsAnswer (statistic_of stat values.now) result }
{
    let mut copy = Vec::from_slice(alloc, values)?;
    match statistic_in(stat, &mut copy) {
        Ok(value) => Ok(value),
        Err(Wide) => Err(StatRefusal::Wide),
    }
}

/// A statistic of the values, none of an empty list.
///
/// The median, the majority, the minority and the variety may sort the values where they are; the others go over them once.
/// None takes memory.
///
/// # Errors
///
/// `Wide` exactly where no cell may hold the statistic.
pub fn statistic_in(stat: Stat, values: &mut [Value]) -> Result<Option<Value>, Wide>
    ensures statistic { IsExact (statistic_of stat values.old) result }
    ensures order { IsPermutation values.old values.new }
{
    if values.is_empty() {
        return Ok(None);
    }
    match stat {
        Stat::Sum => exact(total(values)),
        Stat::Product => exact(product(values)),
        Stat::Maximum => found(maximum(values)),
        Stat::Minimum => found(minimum(values)),
        Stat::Mean => exact(mean(values)),
        Stat::Median => found(median(values)),
        Stat::Majority => found(majority(values)),
        Stat::Minority => found(minority(values)),
        Stat::Variety => exact(variety(values) as i128),
    }
}

/// One of the values, or that it is wide.
fn found(value: Option<Value>) -> Result<Option<Value>, Wide>
    ensures { IsExact value result }
{
    match value {
        Some(number) => exact(number as i128),
        None => Ok(None),
    }
}
