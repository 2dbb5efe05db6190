//! Quotients and roots, rounded down.
ghost use Rattle.std.specs.Prelude.{◌≡◌, ◌≢◌, ◌↔◌, pos, negsuc, int_div, int_rem, IsNone, IfSome};
ghost use Rattle.map_nums.specs.Numbers.{IsFloor, IsFloorRoot};

/// The greatest magnitude of a number that is divided in 64 bits.
const SHORT: i128 = i64::MAX as i128;

/// A quotient rounded towards zero, and what is left of the dividend.
struct Division {
    quotient: i128,
    rest: i128,
}

/// The greatest whole number that is not above `a / b`, none at a divisor of zero.
pub fn floor_div(a: i128, b: i128) -> Option<i128>
    requires { a ≢ negsuc 170141183460469231731687303715884105727 }
    ensures none { IsNone result ↔ (b ≡ pos 0) }
    ensures floor { IfSome result (IsFloor a b) }
{
    if b == 0 {
        return None;
    }
    let Division { quotient, rest } = divided(a, b);
    if b > 0 {
        if rest < 0 {
            return Some(quotient - 1);
        }
        return Some(quotient);
    }
    if rest > 0 {
        return Some(quotient - 1);
    }
    Some(quotient)
}

/// The dividend divided by what isn't zero.
fn divided(a: i128, b: i128) -> Division
    requires dividend { a ≢ negsuc 170141183460469231731687303715884105727 }
    requires divisor { b ≢ pos 0 }
    ensures quotient { result.quotient ≡ int_div a b }
    ensures rest { result.rest ≡ int_rem a b }
{
    // most numbers are short, and are divided faster in 64 bits
    if -SHORT <= a && a <= SHORT && -SHORT <= b && b <= SHORT {
        let (left, right) = (a as i64, b as i64);
        return Division {
            quotient: (left / right) as i128,
            rest: (left % right) as i128,
        };
    }
    Division {
        quotient: a / b,
        rest: a % b,
    }
}

/// The greatest number whose square is not above `n`.
pub fn floor_root(n: u128) -> u64
    ensures { IsFloorRoot n result }
{
    // most numbers are short, and roots of 64 bits are taken faster
    if n <= u64::MAX as u128 {
        return (n as u64).isqrt();
    }
    n.isqrt() as u64
}
