//! What an operation makes of values.
ghost use Rattle.std.specs.Prelude.{◌≡◌, length, Some, ◌-ℤ◌};
ghost use Rattle.map_nums.specs.Exact.{IsExact};
ghost use Rattle.map_defs.specs.Local.{of_numbers, ratio_of, rated};
ghost use Rattle.local_ops.specs.Operations.{op_of, Takes};

use crate::ops::LocalOp;
use map_nums::{Rate, VMAX, Value, Wide, exact, floor_div, statistic_in};

/// The operation's value of its operands' values. It may bring the values into another order.
pub(crate) fn value_of(op: &LocalOp, values: &mut [Value]) -> Result<Option<Value>, Wide>
    requires { Takes (op_of op.now) (length values.old) }
    ensures { IsExact (of_numbers (op_of op.now) values.old) result }
{
    match op {
        LocalOp::Stat(stat) | LocalOp::Ignoring(stat) => statistic_in(*stat, values),
        LocalOp::Difference => difference(values[0], values[1]),
        LocalOp::Ratio => ratio(values[0], values[1]),
        LocalOp::Rating(rates) => found(rated(rates.as_slice(), values[0])),
    }
}

/// `left - right`.
fn difference(left: Value, right: Value) -> Result<Option<Value>, Wide>
    ensures { IsExact (Some (left -ℤ right)) result }
{
    exact(left as i128 - right as i128)
}

/// The floor of `left / right`, null where `right` is 0.
pub(crate) fn ratio(left: Value, right: Value) -> Result<Option<Value>, Wide>
    ensures { IsExact (ratio_of left right) result }
{
    match floor_div(left as i128, right as i128) {
        Some(quotient) => exact(quotient),
        None => Ok(None),
    }
}

/// What the first clause gives whose range holds the value, and the value itself where none does.
fn rated(rates: &[Rate], value: Value) -> Option<Value>
    ensures { result ≡ rated rates.now value }
{
    for rate in rates {
        if rate.low <= value && value <= rate.high {
            return rate.give;
        }
    }
    Some(value)
}

/// The value, or that no cell may hold it.
fn found(value: Option<Value>) -> Result<Option<Value>, Wide>
    ensures { IsExact value result }
{
    match value {
        Some(number) => kept(number),
        None => Ok(None),
    }
}

/// A number of 64 bits as a cell's value: a loop over a row takes less time so than by `exact`.
pub(crate) fn kept(number: i64) -> Result<Option<Value>, Wide>
    ensures { IsExact (Some number) result }
{
    if number < -VMAX || number > VMAX {
        return Err(Wide);
    }
    Ok(Some(number))
}
