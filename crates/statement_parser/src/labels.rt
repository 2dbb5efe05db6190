//! Reading labels and symbols.

ghost use Rattle.std.specs.Prelude.{◌≡◌};
ghost use Rattle.statement_parser.specs.Gives.{Gives};
ghost use Rattle.statement_parser.specs.ReadLabels.{bytes_at, label_at, symbol_at};
ghost use Rattle.statement_parser.specs.Views.{texts_of, line_view};

use crate::fault::ReadError;
use crate::line::{Line, LineEdit};
use crate::places::{end, name, value};
use crate::signs::{byte, is_byte_next, sign};
use layer_tiles::Text;
use map_words::Word;
use std::alloc::Global;

/// Further bytes of a text, at most so many.
#[tactic(auto, unfolding(crate::specs::ReadLabels::bytes_at))]
fn further_bytes<'t, 'a>(
    most: u32,
    front: Vec<u8>,
    words: &'t [Word<'a>],
) -> Result<(Vec<u8>, &'t [Word<'a>]), ReadError>
    ensures { Gives (λ x. (x.0.items, texts_of x.1.now)) result (bytes_at most front.items (texts_of words.now)) }
{
    if most == 0 {
        return Ok((front, words));
    }
    if !is_byte_next(words) {
        return Ok((front, words));
    }
    let (one, rest) = byte(words)?;
    let mut text = front;
    text.push(one)?;
    further_bytes(most - 1, text, rest)
}

/// What follows `label`.
#[tactic(auto, unfolding(crate::specs::ReadLabels::label_at))]
pub fn label(alloc: Global, words: &[Word<'_>]) -> Result<Line, ReadError>
    ensures { Gives line_view result (label_at (texts_of words.now)) }
{
    let (name, rest) = name(alloc, words)?;
    let (value, rest) = value(rest)?;
    let (first, rest) = sign(rest)?;
    let mut bytes = Vec::new(alloc);
    bytes.push(first)?;
    let (bytes, rest) = further_bytes(63, bytes, rest)?;
    end(rest)?;
    let text = Text::of(alloc, bytes.as_slice())?;
    Ok(Line::Edit(LineEdit::Label { name, value, text }))
}

/// What follows `symbol`.
#[tactic(auto, unfolding(crate::specs::ReadLabels::symbol_at))]
pub fn symbol(alloc: Global, words: &[Word<'_>]) -> Result<Line, ReadError>
    ensures { Gives line_view result (symbol_at (texts_of words.now)) }
{
    let (name, rest) = name(alloc, words)?;
    let (value, rest) = value(rest)?;
    let (sign, rest) = sign(rest)?;
    end(rest)?;
    Ok(Line::Edit(LineEdit::Symbol { name, value, sign }))
}
