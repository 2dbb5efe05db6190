//! Readers of what lines and the items of branches have in common.

ghost use Rattle.statement_parser.specs.Gives.{Gives};
ghost use Rattle.statement_parser.specs.ReadEdits.{defined_at, corners_at, painted_at, laid_at, dropped_at, looked_at};
ghost use Rattle.statement_parser.specs.Views.{texts_of, edit_view, manner_of};

use crate::bodies::body;
use crate::fault::ReadError;
use crate::line::LineEdit;
use crate::places::{any, cell, name, side, the};
use crate::rows::Rows;
use crate::scope::Scope;
use map_words::{Name, Word};
use std::alloc::Global;

/// What follows the name of a statement.
#[tactic(auto, unfolding(crate::specs::ReadEdits::defined_at))]
pub fn defined<'t, 'a>(
    alloc: Global,
    rows: &Rows<'_>,
    name: Name,
    words: &'t [Word<'a>],
) -> Result<(LineEdit, &'t [Word<'a>]), ReadError>
    ensures { Gives (λ x. (edit_view x.0, texts_of x.1.now)) result (defined_at (manner_of rows.now) name (texts_of words.now)) }
{
    let rest = the(b"=", words)?;
    let (written, rest) = body(alloc, &Scope::Anywhere, rows, rest)?;
    Ok((LineEdit::Define { name, written }, rest))
}

/// The rows and columns of a rectangle.
#[derive(Clone, Copy)]
struct Rectangle {
    r1: u32,
    c1: u32,
    r2: u32,
    c2: u32,
}

#[tactic(auto, unfolding(crate::specs::ReadEdits::corners_at))]
fn corners<'t, 'a>(words: &'t [Word<'a>]) -> Result<(Rectangle, &'t [Word<'a>]), ReadError>
    ensures { Gives (λ x. ((x.0.r1, x.0.c1, x.0.r2, x.0.c2), texts_of x.1.now)) result (corners_at (texts_of words.now)) }
{
    let (r1, rest) = side(words)?;
    let (c1, rest) = side(rest)?;
    let (r2, rest) = side(rest)?;
    let (c2, rest) = side(rest)?;
    Ok((Rectangle { r1, c1, r2, c2 }, rest))
}

/// What follows `paint`.
#[tactic(auto, unfolding(crate::specs::ReadEdits::painted_at))]
pub fn painted<'t, 'a>(
    alloc: Global,
    words: &'t [Word<'a>],
) -> Result<(LineEdit, &'t [Word<'a>]), ReadError>
    ensures { Gives (λ x. (edit_view x.0, texts_of x.1.now)) result (painted_at (texts_of words.now)) }
{
    let (name, rest) = name(alloc, words)?;
    let (Rectangle { r1, c1, r2, c2 }, rest) = corners(rest)?;
    match cell(rest) {
        Err(error) => Err(error),
        Ok((cell, rest)) => Ok((
            LineEdit::Paint {
                name,
                r1,
                c1,
                r2,
                c2,
                cell,
            },
            rest,
        )),
    }
}

/// What follows `new`.
#[tactic(auto, unfolding(crate::specs::ReadEdits::laid_at))]
pub fn laid<'t, 'a>(
    alloc: Global,
    words: &'t [Word<'a>],
) -> Result<(LineEdit, &'t [Word<'a>]), ReadError>
    ensures { Gives (λ x. (edit_view x.0, texts_of x.1.now)) result (laid_at (texts_of words.now)) }
{
    let (name, rest) = name(alloc, words)?;
    match cell(rest) {
        Err(error) => Err(error),
        Ok((cell, rest)) => Ok((LineEdit::New { name, cell }, rest)),
    }
}

/// What follows `drop`.
#[tactic(auto, unfolding(crate::specs::ReadEdits::dropped_at))]
pub fn dropped<'t, 'a>(
    alloc: Global,
    words: &'t [Word<'a>],
) -> Result<(LineEdit, &'t [Word<'a>]), ReadError>
    ensures { Gives (λ x. (edit_view x.0, texts_of x.1.now)) result (dropped_at (texts_of words.now)) }
{
    let (name, rest) = name(alloc, words)?;
    Ok((LineEdit::Drop { name }, rest))
}

/// A name, a row and a column.
#[tactic(auto, unfolding(crate::specs::ReadEdits::looked_at))]
pub fn looked<'t, 'a>(
    alloc: Global,
    words: &'t [Word<'a>],
) -> Result<((Name, u32, u32), &'t [Word<'a>]), ReadError>
    ensures { Gives (λ x. ((x.0.0, x.0.1, x.0.2), texts_of x.1.now)) result (looked_at (texts_of words.now)) }
{
    let (name, rest) = any(alloc, words)?;
    let (r, rest) = side(rest)?;
    let (c, rest) = side(rest)?;
    Ok(((name, r, c), rest))
}
