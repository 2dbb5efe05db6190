//! The decimals of a header.
ghost use Rattle.std.specs.Prelude.{◌≡◌, ◌<◌, ◌==◌, ◌||◌, length, position, count_by, IfSome};
ghost use Rattle.std.specs.List.{list_all, list_any};
ghost use Rattle.std.specs.Char.{is_ascii_digit};
ghost use Rattle.grid_text.specs.Decimals.{is_exponent_mark, is_mantissa, is_scaled, is_decimal};

use crate::numbers::{are_digits, unsigned};

/// The most bytes of a decimal.
const LONGEST_DECIMAL: usize = 40;

fn are_of_mantissa(text: &[u8]) -> bool
    ensures { result ≡ list_all (λ b. is_ascii_digit b || (b == 46)) text.now }
{
    text.iter()
        .all(|byte| byte.is_ascii_digit() || *byte == b'.')
}

fn point_count(text: &[u8]) -> usize
    ensures { result ≡ count_by (λ b. b == 46) text.now }
{
    text.iter().filter(|byte| **byte == b'.').count()
}

fn has_digit(text: &[u8]) -> bool
    ensures { result ≡ list_any is_ascii_digit text.now }
{
    text.iter().any(|byte| byte.is_ascii_digit())
}

// Whether these are digits with at most one point, and at least one digit.
fn is_mantissa(text: &[u8]) -> bool
    ensures { result ≡ is_mantissa text.now }
{
    are_of_mantissa(text) && point_count(text) <= 1 && has_digit(text)
}

// Where the exponent's mark stands first.
fn mark_place(text: &[u8]) -> Option<usize>
    ensures place { result ≡ position is_exponent_mark text.now }
    ensures within { IfSome result (λ at. at < length text.now) }
{
    text.iter().position(|byte| *byte == b'e' || *byte == b'E')
}

// Whether this is a mantissa, with an exponent or without.
fn is_scaled(text: &[u8]) -> bool
    ensures { result ≡ is_scaled (position is_exponent_mark text.now) text.now }
{
    match mark_place(text) {
        None => is_mantissa(text),
        Some(at) => is_mantissa(&text[..at]) && are_digits(unsigned(&text[at + 1..])),
    }
}

/// Whether a token is a decimal of at most 40 bytes.
pub(crate) fn is_decimal(text: &[u8]) -> bool
    ensures { result ≡ is_decimal text.now }
{
    text.len() <= LONGEST_DECIMAL && is_scaled(unsigned(text))
}
