//! What the subjects share: their words, and names.

use map_words::Name;
use std::alloc::Global;

/// The word at a place, an empty one where there are fewer.
pub fn word_at<'a>(words: &[&'a str], place: usize) -> &'a str {
    match words.get(place) {
        Some(word) => *word,
        None => "",
    }
}

/// The number that the word at a place says, and 1 where it says none.
pub fn number_at(words: &[&str], place: usize) -> u32 {
    word_at(words, place).parse().unwrap_or(1)
}

/// The name with a number below 100.
pub fn name_of(alloc: Global, number: u32) -> Option<Name> {
    let tens = b'0' + (number / 10 % 10) as u8;
    let units = b'0' + (number % 10) as u8;
    let mut text = Vec::from_slice(alloc, b"Layer").ok()?;
    text.push(tens).ok()?;
    text.push(units).ok()?;
    Name::plain(alloc, &text).ok()
}
