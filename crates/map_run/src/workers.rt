//! Numbers among the words of a run: how many workers it has, and how large a sample is.
ghost use Rattle.std.specs.Prelude.{◌≡◌, ◌≤◌, true, false, decimal, bytes_eq, option_map, MatchOption};
ghost use Rattle.map_machine.specs.Words.{is_workers, sample_size};

use itoa::Buffer;

/// The most workers.
const MOST: u32 = 64;

/// The most rows and columns of a sample.
const LARGEST: u32 = 1224;

/// From 1 to 64 workers.
#[derive(Clone, Copy)]
pub struct Workers {
    pub count: u32,
    ghost some: { 1 ≤ count },
    ghost most: { count ≤ 64 },
}

/// From 1 to 1224 rows, and as many columns.
#[derive(Clone, Copy)]
pub struct Side {
    pub count: u32,
    ghost some: { 1 ≤ count },
    ghost most: { count ≤ 1224 },
}

// Whether a word is this number in digits.
fn says(word: &str, count: u32) -> bool
    ensures { result ≡ bytes_eq word.now (decimal count) }
{
    word == Buffer::new().format(count)
}

/// The number of workers that a word says in digits, without a sign or a leading nought.
pub fn workers_in(word: &str) -> Option<Workers>
    ensures { MatchOption result (is_workers word.now ≡ false)
        (λ w. (is_workers word.now ≡ true) × (word.now ≡ decimal w.count)) }
{
    for count in 1..MOST + 1 {
        if says(word, count) {
            return Some(Workers { count });
        }
    }
    None
}

/// The rows and columns of a sample that a word says in such digits.
pub fn side_in(word: &str) -> Option<Side>
    ensures { option_map (λ s. s.count) result ≡ sample_size word.now }
{
    for count in 1..LARGEST + 1 {
        if says(word, count) {
            return Some(Side { count });
        }
    }
    None
}
