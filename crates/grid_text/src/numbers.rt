//! The whole numbers of a text.
ghost use Rattle.std.specs.Prelude.{◌≡◌, ◌<◌, ◌≤◌, ◌^◌, ◌==◌, ◌↔◌, ◌&&◌, true, nat_le, length, IsSome, IfSome, IsTrue};
ghost use Rattle.std.specs.List.{list_all, prefix_len};
ghost use Rattle.std.specs.Char.{is_ascii_digit};
ghost use Rattle.grid_text.specs.Numbers.{are_digits, digits_number, unsigned, is_negative, is_zero_fraction, number_in, count_in};
ghost use Rattle.grid_text.specs.Wholes.{IsNatural, IsWhole, significant};

/// The most digits of a whole number, after leading zeros.
const MOST_DIGITS: usize = 18;

/// What a token is as a whole number without a sign.
#[derive(Clone, Copy)]
enum Natural {
    Not,
    Long,
    Short(u64),
}

/// What a token is as a whole number: none, one of too many digits, or this one.
#[derive(Clone, Copy)]
pub(crate) enum Whole {
    Not,
    Long,
    Short(i64),
}

fn are_all_digits(text: &[u8]) -> bool
    ensures { result ≡ list_all is_ascii_digit text.now }
{
    text.iter().all(|byte| byte.is_ascii_digit())
}

/// Whether these are one or more digits.
pub(crate) fn are_digits(text: &[u8]) -> bool
    ensures { result ≡ are_digits text.now }
{
    !text.is_empty() && are_all_digits(text)
}

// How many digits stand first.
fn digits_len(text: &[u8]) -> usize
    ensures count { result ≡ prefix_len is_ascii_digit text.now }
    ensures within { result ≤ length text.now }
{
    text.iter().take_while(|byte| byte.is_ascii_digit()).count()
}

// The number that few digits stand for.
fn digits_number(text: &[u8]) -> u64
    requires digits { list_all is_ascii_digit text.now ≡ true }
    requires few { length text.now ≤ 18 }
    ensures value { result ≡ digits_number text.now }
    ensures bound { result < 10 ^ 18 }
{
    let mut number = 0;
    for byte in text {
        number = 10 * number + (*byte - b'0') as u64;
    }
    number
}

// The number that a text of few digits stands for, none where it is any other.
fn few_digits(text: &[u8]) -> Option<u64>
    ensures some { IsSome result ↔ IsTrue (are_digits text.now && nat_le (length text.now) 18) }
    ensures value { IfSome result (λ n. n ≡ digits_number text.now) }
    ensures bound { IfSome result (λ n. n < 10 ^ 18) }
{
    if text.is_empty() || text.len() > MOST_DIGITS {
        return None;
    }
    let mut number = 0;
    for byte in text {
        if !byte.is_ascii_digit() {
            return None;
        }
        number = 10 * number + (*byte - b'0') as u64;
    }
    Some(number)
}

fn are_zeros(text: &[u8]) -> bool
    ensures { result ≡ list_all (λ z. z == 48) text.now }
{
    text.iter().all(|byte| *byte == b'0')
}

fn is_zero_fraction(text: &[u8]) -> bool
    ensures { result ≡ is_zero_fraction text.now }
{
    match text {
        [] => true,
        [first, zeros @ ..] => *first == b'.' && are_zeros(zeros),
    }
}

// How many zeros stand first.
fn zeros_len(text: &[u8]) -> usize
    ensures count { result ≡ prefix_len (λ b. b == 48) text.now }
    ensures within { result ≤ length text.now }
{
    text.iter().take_while(|byte| **byte == b'0').count()
}

// The digits after leading zeros.
fn significant(text: &[u8]) -> &[u8]
    ensures { result.now ≡ significant text.now }
{
    &text[zeros_len(text)..]
}

fn read_natural(text: &[u8]) -> Natural
    ensures { IsNatural text.now result }
{
    if let Some(number) = few_digits(text) {
        return Natural::Short(number);
    }
    let count = digits_len(text);
    let (digits, fraction) = text.split_at(count);
    if count == 0 || !is_zero_fraction(fraction) {
        return Natural::Not;
    }
    let digits = significant(digits);
    if digits.len() > MOST_DIGITS {
        return Natural::Long;
    }
    Natural::Short(digits_number(digits))
}

/// What follows a sign, if there is one.
pub(crate) fn unsigned(text: &[u8]) -> &[u8]
    ensures { result.now ≡ unsigned text.now }
{
    match text {
        [b'+' | b'-', rest @ ..] => rest,
        _ => text,
    }
}

fn is_negative(text: &[u8]) -> bool
    ensures { result ≡ is_negative text.now }
{
    matches!(text, [b'-', ..])
}

/// The whole number that a token is.
pub(crate) fn read_whole(text: &[u8]) -> Whole
    ensures { IsWhole text.now result }
{
    match read_natural(unsigned(text)) {
        Natural::Not => Whole::Not,
        Natural::Long => Whole::Long,
        Natural::Short(number) => {
            if is_negative(text) {
                Whole::Short(-(number as i64))
            } else {
                Whole::Short(number as i64)
            }
        }
    }
}

/// The whole number of a header that a token is.
pub(crate) fn number(text: &[u8]) -> Option<i64>
    ensures { result ≡ number_in text.now }
{
    match read_whole(text) {
        Whole::Short(number) => Some(number),
        _ => None,
    }
}

/// The number of rows or columns that a token is.
pub(crate) fn count(text: &[u8]) -> Option<u64>
    ensures { result ≡ count_in text.now }
{
    let number = number(text)?;
    if number < 0 {
        return None;
    }
    Some(number as u64)
}
