//! Roots of sums of two squares, rounded down.
ghost use Rattle.std.specs.Prelude.{◌+◌, ◌*◌, ◌≤◌};
ghost use Rattle.map_nums.specs.Numbers.{IsFloorRoot};

use map_nums::floor_root;
use std::num::{nearest_i64_to_f64, saturating_f64_to_i64};

/// The greatest number whose square has its root guessed.
const SHORT: u64 = 1_073_741_824;

/// The root of the sum of two squares, rounded down.
pub(crate) fn root_of_squares(a: u64, b: u64) -> u64
    requires a { a ≤ 8000000000000000 }
    requires b { b ≤ 8000000000000000 }
    ensures { IsFloorRoot (a * a + b * b) result }
{
    if a <= SHORT && b <= SHORT {
        return short_root(a * a + b * b);
    }
    let (a, b) = (a as u128, b as u128);
    floor_root(a * a + b * b)
}

/// The root of a number, rounded down: a guess in floating point, put right by whole numbers.
fn short_root(n: u64) -> u64
    requires { n ≤ 2305843009213693952 }
    ensures { IsFloorRoot n result }
{
    let guess = saturating_f64_to_i64(nearest_i64_to_f64(n as i64).sqrt())
        .unsigned_abs()
        .min(2 * SHORT);
    let root = if guess * guess > n { guess - 1 } else { guess };
    if root * root <= n && n < (root + 1) * (root + 1) {
        return root;
    }
    floor_root(n as u128)
}
