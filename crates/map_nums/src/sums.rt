//! The sum, the product and the mean of a list, in one pass and without memory.
ghost use Rattle.std.specs.Prelude.{◌≡◌, ◌<◌, pos, length};
ghost use Rattle.std.specs.Int.{int_div_euclid};
ghost use Rattle.map_nums.specs.Numbers.{in_value_range};
ghost use Rattle.map_nums.specs.Stats.{total_of, product_of};

use crate::{VMAX, Value};

/// The least number above what a cell may hold.
const BEYOND: i128 = VMAX as i128 + 1;

/// The sum.
pub(crate) fn total(values: &[Value]) -> i128
    ensures { result ≡ total_of values.now }
{
    let mut sum: i128 = 0;
    for value in values {
        sum += *value as i128;
    }
    sum
}

/// The product where a cell may hold it, and a number that no cell may hold elsewhere.
pub(crate) fn product(values: &[Value]) -> i128
    ensures { in_value_range result ≡ in_value_range (product_of values.now) }
{
    let mut product: i128 = 1;
    for value in values {
        // past the range it need not grow: only a factor of zero brings it back
        product = (product * *value as i128).clamp(-BEYOND, BEYOND);
    }
    product
}

/// The mean, rounded down.
pub(crate) fn mean(values: &[Value]) -> i128
    requires { 0 < length values.now }
    ensures { result ≡ int_div_euclid (total_of values.now) (pos (length values.now)) }
{
    total(values).div_euclid(values.len() as i128)
}
