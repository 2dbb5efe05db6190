//! Reading branches.

ghost use Rattle.std.specs.Prelude.{◌≡◌, ◌∷◌, [], ◌++◌, length, nat_lt, false, codes};
ghost use Rattle.grammar_core.specs.Readers.{one_at, starts};
ghost use Rattle.statement_parser.specs.BranchRules.{opening_of, most_items};
ghost use Rattle.statement_parser.specs.Gives.{Gives};
ghost use Rattle.statement_parser.specs.Places.{the, maybe, reading};
ghost use Rattle.statement_parser.specs.ReadBranches.{opened_at, item_at, item_behind_at, ended_at, items_at, branches_at};
ghost use Rattle.statement_parser.specs.Views.{texts_of, item_view, items_view, branches_view, line_view, manner_of};

use crate::edits::{defined, dropped, laid, looked, painted};
use crate::fault::ReadError;
use crate::line::{Item, Line, Request};
use crate::opening::Opening;
use crate::places::{end, is_next, misfit, the};
use crate::rows::Rows;
use map_words::{Name, NameRefusal, Word};
use std::alloc::Global;

/// Items after the first; a line of at most 4,096 bytes never has so many.
const MOST_ITEMS: u32 = 4096;

/// The first word of an item.
fn opening<'t, 'a>(
    alloc: Global,
    words: &'t [Word<'a>],
) -> Result<(Opening, &'t [Word<'a>]), ReadError>
    ensures { Gives (λ x. (x.0, texts_of x.1.now)) result (one_at reading opening_of false (texts_of words.now)) }
{
    match words {
        [] => Err(ReadError::Fault(misfit(false, words))),
        [first, rest @ ..] if first.text == b"paint".as_slice() => Ok((Opening::Paint, rest)),
        [first, rest @ ..] if first.text == b"new".as_slice() => Ok((Opening::New, rest)),
        [first, rest @ ..] if first.text == b"drop".as_slice() => Ok((Opening::Drop, rest)),
        [first, rest @ ..] if first.text == b"value".as_slice() => Ok((Opening::Value, rest)),
        [first, rest @ ..] => match Name::plain(alloc, first.text) {
            Ok(name) => Ok((Opening::Named(name), rest)),
            Err(NameRefusal::Form) => Err(ReadError::Fault(misfit(false, words))),
            Err(NameRefusal::NoMemory) => Err(ReadError::NoMemory),
        },
    }
}

/// What follows the first word of an item.
fn opened<'t, 'a>(
    alloc: Global,
    rows: &Rows<'_>,
    opening: Opening,
    words: &'t [Word<'a>],
) -> Result<(Item, &'t [Word<'a>]), ReadError>
    ensures { Gives (λ x. (item_view x.0, texts_of x.1.now)) result (opened_at (manner_of rows.now) opening (texts_of words.now)) }
{
    match opening {
        Opening::Paint => {
            let (edit, rest) = painted(alloc, words)?;
            Ok((Item::Edit(edit), rest))
        }
        Opening::New => {
            let (edit, rest) = laid(alloc, words)?;
            Ok((Item::Edit(edit), rest))
        }
        Opening::Drop => {
            let (edit, rest) = dropped(alloc, words)?;
            Ok((Item::Edit(edit), rest))
        }
        Opening::Value => {
            let ((name, r, c), rest) = looked(alloc, words)?;
            Ok((Item::Value { name, r, c }, rest))
        }
        Opening::Named(name) => {
            let (edit, rest) = defined(alloc, rows, name, words)?;
            Ok((Item::Edit(edit), rest))
        }
    }
}

#[tactic(auto, unfolding(crate::specs::ReadBranches::item_at))]
fn item<'t, 'a>(
    alloc: Global,
    rows: &Rows<'_>,
    words: &'t [Word<'a>],
) -> Result<(Item, &'t [Word<'a>]), ReadError>
    ensures { Gives (λ x. (item_view x.0, texts_of x.1.now)) result (item_at (manner_of rows.now) (texts_of words.now)) }
{
    let (opening, rest) = opening(alloc, words)?;
    opened(alloc, rows, opening, rest)
}

/// An item behind this word.
#[tactic(auto, unfolding(crate::specs::ReadBranches::item_behind_at))]
fn item_behind<'t, 'a>(
    alloc: Global,
    rows: &Rows<'_>,
    word: &[u8],
    words: &'t [Word<'a>],
) -> Result<(Item, &'t [Word<'a>]), ReadError>
    ensures { Gives (λ x. (item_view x.0, texts_of x.1.now)) result (item_behind_at (manner_of rows.now) word.now (texts_of words.now)) }
{
    let rest = the(word, words)?;
    item(alloc, rows, rest)
}

/// Whether one more branch begins; at most 16 do.
fn is_branch_next(branches: &[Vec<Item>], words: &[Word<'_>]) -> bool
    ensures { result ≡ starts (maybe (nat_lt (length (branches_view branches.now)) 15) (the (codes "branch"))) (texts_of words.now) }
{
    branches.len() < 15 && is_next(b"branch", words)
}

/// The end of the line, after these branches and the items of one more.
#[tactic(auto, unfolding(crate::specs::ReadBranches::ended_at))]
fn ended(front: Vec<Vec<Item>>, items: Vec<Item>, words: &[Word<'_>]) -> Result<Line, ReadError>
    ensures { Gives line_view result (ended_at (branches_view front.items ++ items_view items.items ∷ []) (texts_of words.now)) }
{
    let rest = the(b"end", words)?;
    end(rest)?;
    let mut branches = front;
    branches.push(items)?;
    Ok(Line::Ask(Request::Branch(branches)))
}

/// Further items, at most so many, after these branches and the items of one more.
#[tactic(auto, unfolding(crate::specs::ReadBranches::items_at))]
fn further_items(
    alloc: Global,
    rows: &Rows<'_>,
    most: u32,
    front: Vec<Vec<Item>>,
    items: Vec<Item>,
    words: &[Word<'_>],
) -> Result<Line, ReadError>
    ensures { Gives line_view result (items_at (manner_of rows.now) most (branches_view front.items) (items_view items.items) (texts_of words.now)) }
{
    if most == 0 {
        return ended(front, items, words);
    }
    if is_next(b";", words) {
        let (one, rest) = item_behind(alloc, rows, b";", words)?;
        let mut longer = items;
        longer.push(one)?;
        return further_items(alloc, rows, most - 1, front, longer, rest);
    }
    if is_branch_next(front.as_slice(), words) {
        let (one, rest) = item_behind(alloc, rows, b"branch", words)?;
        let mut branches = front;
        branches.push(items)?;
        let mut fresh = Vec::new(alloc);
        fresh.push(one)?;
        return further_items(alloc, rows, most - 1, branches, fresh, rest);
    }
    ended(front, items, words)
}

/// What follows `branch`.
#[tactic(auto, unfolding(crate::specs::ReadBranches::branches_at, crate::specs::BranchRules::most_items))]
pub fn branch(alloc: Global, rows: &Rows<'_>, words: &[Word<'_>]) -> Result<Line, ReadError>
    ensures { Gives line_view result (branches_at (manner_of rows.now) (texts_of words.now)) }
{
    let (first, rest) = item(alloc, rows, words)?;
    let mut items = Vec::new(alloc);
    items.push(first)?;
    further_items(alloc, rows, MOST_ITEMS, Vec::new(alloc), items, rest)
}
