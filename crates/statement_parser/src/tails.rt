//! The words of a line whose end is read byte by byte.

ghost use Rattle.std.specs.Prelude.{◌≡◌, ◌+◌, ◌<◌, ◌≤◌, ◌^◌, ◌++◌, length, IfOk};
ghost use Rattle.map_words.specs.Bytes.{is_blank as is_blank_byte};
ghost use Rattle.map_words.specs.Cut.{placed_all};
ghost use Rattle.map_words.specs.Words.{AreSlices};
ghost use Rattle.statement_parser.specs.Tails.{byte_words, trimmed as trimmed_text, text_words, sign_words, tail_at as tail_at_place, tail_of as tail_of_words, tail_words, recut, start_of};

use map_words::Word;
use std::alloc::AllocError;

/// Where the text of a label or the sign of a symbol may begin, from 0.
#[derive(Clone, Copy, Debug)]
pub enum Tail {
    Label(usize),
    Symbol(usize),
}

fn is_blank(byte: u8) -> bool
    ensures { result ≡ is_blank_byte byte }
{
    byte == b' ' || byte == b'\t'
}

/// The tail of what begins with this word.
fn tail_at(first: &[u8], start: usize) -> Option<Tail>
    ensures { result ≡ tail_at_place first.now start }
{
    if first == b"label".as_slice() {
        return Some(Tail::Label(start));
    }
    if first == b"symbol".as_slice() {
        return Some(Tail::Symbol(start));
    }
    None
}

/// The tail after the third word.
fn tail_of(words: &[Word<'_>]) -> Option<Tail>
    ensures { result ≡ tail_of_words (placed_all words.now) }
{
    match words {
        [] | [_] | [_, _] => None,
        [first, _, value, ..] => {
            let start = (value.at as usize).saturating_sub(1) + value.text.len();
            tail_at(first.text, start)
        }
    }
}

/// The bytes up to the last that isn't a blank.
fn trimmed(bytes: &[u8]) -> &[u8]
    ensures text { result.now ≡ trimmed_text bytes.now }
    ensures within { length result.now ≤ length bytes.now }
{
    match bytes {
        [] => bytes,
        [front @ .., last] => if is_blank(*last) {
            trimmed(front)
        } else {
            bytes
        },
    }
}

/// Appends each byte as a word, from a column on.
fn push_bytes<'a>(found: &mut Vec<Word<'a>>, at: u32, bytes: &'a [u8]) -> Result<(), AllocError>
    requires { at + length bytes.now < 2 ^ 32 }
    ensures { IfOk result (λ _. placed_all found.new.items ≡ placed_all found.old.items ++ byte_words at bytes.now) }
{
    match bytes {
        [] => Ok(()),
        [_, rest @ ..] => {
            found.push(Word {
                text: &bytes[..1],
                at,
            })?;
            push_bytes(found, at + 1, rest)
        }
    }
}

/// Appends each byte from the first that isn't a blank on.
fn push_text<'a>(found: &mut Vec<Word<'a>>, at: u32, bytes: &'a [u8]) -> Result<(), AllocError>
    requires { at + length bytes.now < 2 ^ 32 }
    ensures { IfOk result (λ _. placed_all found.new.items ≡ placed_all found.old.items ++ text_words at bytes.now) }
{
    match bytes {
        [] => push_bytes(found, at, bytes),
        [first, rest @ ..] => if is_blank(*first) {
            push_text(found, at + 1, rest)
        } else {
            push_bytes(found, at, bytes)
        },
    }
}

/// Appends each byte that isn't a blank.
fn push_signs<'a>(found: &mut Vec<Word<'a>>, at: u32, bytes: &'a [u8]) -> Result<(), AllocError>
    requires { at + length bytes.now < 2 ^ 32 }
    ensures { IfOk result (λ _. placed_all found.new.items ≡ placed_all found.old.items ++ sign_words at bytes.now) }
{
    match bytes {
        [] => push_bytes(found, at, bytes),
        [first, rest @ ..] => {
            if is_blank(*first) {
                return push_signs(found, at + 1, rest);
            }
            found.push(Word {
                text: &bytes[..1],
                at,
            })?;
            push_signs(found, at + 1, rest)
        }
    }
}

fn push_tail<'a>(found: &mut Vec<Word<'a>>, line: &'a [u8], tail: Tail) -> Result<(), AllocError>
    requires within { start_of tail ≤ length line.now }
    requires short { length line.now ≤ 4096 }
    ensures { IfOk result (λ _. placed_all found.new.items ≡ placed_all found.old.items ++ tail_words line.now tail) }
{
    match tail {
        Tail::Label(start) => push_text(found, start as u32 + 1, trimmed(&line[start..])),
        Tail::Symbol(start) => push_signs(found, start as u32 + 1, &line[start..]),
    }
}

/// The words of a line, where its words as those of any line are these.
pub fn with_tail<'a>(line: &'a [u8], words: Vec<Word<'a>>) -> Result<Vec<Word<'a>>, AllocError>
    requires slices { AreSlices line.now 1 (placed_all words.items) }
    requires short { length line.now ≤ 4096 }
    ensures { IfOk result (λ ws. placed_all ws.items ≡ recut line.now (placed_all words.entry.items)) }
{
    match tail_of(words.as_slice()) {
        None => Ok(words),
        Some(tail) => {
            let mut found = words;
            found.truncate(3);
            push_tail(&mut found, line, tail)?;
            Ok(found)
        }
    }
}
