//! What a cell may hold, and products compared without a bound.
ghost use Rattle.std.specs.Prelude.{◌≡◌, ◌*ℤ◌, Some};
ghost use Rattle.std.specs.Ordering.{int_cmp};
ghost use Rattle.map_nums.specs.Exact.{IsExact};
ghost use Rattle.map_nums.specs.Numbers.{in_value_range};

use crate::{VMAX, Value, Wide};
use std::cmp::Ordering;

/// The number where a cell may hold it.
pub fn in_range(n: i128) -> Option<Value>
    ensures { result ≡ in_value_range n }
{
    if n < -(VMAX as i128) || n > VMAX as i128 {
        None
    } else {
        Some(n as Value)
    }
}

/// The number as a cell's value.
///
/// # Errors
///
/// `Wide` exactly where no cell may hold it.
pub fn exact(number: i128) -> Result<Option<Value>, Wide>
    ensures { IsExact (Some number) result }
{
    match in_range(number) {
        Some(value) => Ok(Some(value)),
        None => Err(Wide),
    }
}

/// Compares `a * n` with `b * k`.
pub fn cmp_cross(a: i64, n: i64, b: i64, k: i64) -> Ordering
    ensures { result ≡ int_cmp (a *ℤ n) (b *ℤ k) }
{
    let left = a as i128 * n as i128;
    let right = b as i128 * k as i128;
    left.cmp(&right)
}
