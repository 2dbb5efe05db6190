//! Readers of one word.

ghost use Rattle.std.specs.Prelude.{◌≡◌, IsTrue, length, nat_abs, true, false, Some, option_map};
ghost use Rattle.map_nums.specs.Numbers.{is_value};
ghost use Rattle.grammar_core.specs.Readers.{one_at, end_at, starts, fault_kind};
ghost use Rattle.grammar_core.specs.Refusals.{is_unknown};
ghost use Rattle.statement_parser.specs.Views.{texts_of, term_view, manner_of};
ghost use Rattle.statement_parser.specs.Gives.{Gives};
ghost use Rattle.statement_parser.specs.Places as place;
ghost use Rattle.std.specs.Prelude.{◌||◌, IfSome, IfOk};
ghost use Rattle.map_defs.specs.Ops.{number_term};
ghost use Rattle.statement_parser.specs.ScopeViews.{scope_of};
ghost use Rattle.map_words.specs.Names.{is_plain, is_dotted};
ghost use Rattle.map_words.specs.Named.{IsNamed};

use crate::fault::ReadError;
use crate::language::Language;
use crate::op::Term;
use crate::operation::operation_named;
use crate::rows::Rows;
use crate::scope::Scope;
use grammar_core::{Fault, Kind};
use layer_tiles::Cell;
use map_nums::{NoMemory, VMAX, Value};
use map_words::{Name, NameRefusal, Word, has_name_form, is_number, number_in};
use std::alloc::Global;

/// The fault of a word that its place doesn't take; where a number is due, a number is told from another word.
pub fn misfit(due: bool, words: &[Word<'_>]) -> Fault
    ensures { result ≡ record { kind = fault_kind place.reading due (texts_of words.now); left = length words.now } }
{
    let kind = match words {
        [first, ..] if due && is_number(first.text) => Kind::Number,
        _ => Kind::Syntax,
    };
    Fault {
        kind,
        left: words.len(),
    }
}

/// This very word.
pub fn the<'t, 'a>(word: &[u8], words: &'t [Word<'a>]) -> Result<&'t [Word<'a>], ReadError>
    ensures { Gives (λ rest. (tt, texts_of rest.now)) result (one_at place.reading (place.the word.now) false (texts_of words.now)) }
{
    match words {
        [first, rest @ ..] if first.text == word => Ok(rest),
        _ => Err(ReadError::Fault(misfit(false, words))),
    }
}

/// Whether the next word is this one.
pub fn is_next(word: &[u8], words: &[Word<'_>]) -> bool
    ensures { result ≡ starts (place.the word.now) (texts_of words.now) }
{
    match words {
        [first, ..] => first.text == word,
        [] => false,
    }
}

/// A plain name.
pub fn name<'t, 'a>(
    alloc: Global,
    words: &'t [Word<'a>],
) -> Result<(Name, &'t [Word<'a>]), ReadError>
    ensures { Gives (λ x. (x.0, texts_of x.1.now)) result (one_at place.reading place.name_of false (texts_of words.now)) }
{
    match words {
        [] => Err(ReadError::Fault(misfit(false, words))),
        [first, rest @ ..] => match Name::plain(alloc, first.text) {
            Ok(name) => Ok((name, rest)),
            Err(NameRefusal::Form) => Err(ReadError::Fault(misfit(false, words))),
            Err(NameRefusal::NoMemory) => Err(ReadError::NoMemory),
        },
    }
}

/// The name that a word is, plain or dotted.
fn any_name(alloc: Global, text: &[u8]) -> Result<Name, NameRefusal>
    ensures { IsNamed (is_plain text.now || is_dotted text.now) text.now result }
{
    match Name::plain(alloc, text) {
        Ok(name) => Ok(name),
        Err(NameRefusal::Form) => Name::dotted(alloc, text),
        Err(NameRefusal::NoMemory) => Err(NameRefusal::NoMemory),
    }
}

/// A plain or a dotted name.
pub fn any<'t, 'a>(
    alloc: Global,
    words: &'t [Word<'a>],
) -> Result<(Name, &'t [Word<'a>]), ReadError>
    ensures { Gives (λ x. (x.0, texts_of x.1.now)) result (one_at place.reading place.any_of false (texts_of words.now)) }
{
    match words {
        [] => Err(ReadError::Fault(misfit(false, words))),
        [first, rest @ ..] => match any_name(alloc, first.text) {
            Ok(name) => Ok((name, rest)),
            Err(NameRefusal::Form) => Err(ReadError::Fault(misfit(false, words))),
            Err(NameRefusal::NoMemory) => Err(ReadError::NoMemory),
        },
    }
}

fn value_word(text: &[u8]) -> Option<Value>
    ensures value { result ≡ place.value_of text.now }
    ensures within { IfSome result (λ z. IsTrue (is_value z)) }
{
    match number_in(-VMAX, VMAX, text) {
        None => None,
        Some(value) => Some(value as Value),
    }
}

fn side_word(text: &[u8]) -> Option<u32>
    ensures { result ≡ place.side_of text.now }
{
    match number_in(1, 4096, text) {
        None => None,
        Some(side) => Some(side as u32),
    }
}

fn radius_word(text: &[u8]) -> Option<u32>
    ensures { option_map Some result ≡ place.disc_of text.now }
{
    match number_in(1, 32, text) {
        None => None,
        Some(radius) => Some(radius as u32),
    }
}

fn reach_word(text: &[u8]) -> Option<u32>
    ensures { result ≡ place.reach_of text.now }
{
    match number_in(1, 64, text) {
        None => None,
        Some(reach) => Some(reach as u32),
    }
}

fn limit_word(text: &[u8]) -> Option<Value>
    ensures { option_map nat_abs result ≡ place.limit_of text.now }
{
    match number_in(0, VMAX, text) {
        None => None,
        Some(limit) => Some(limit as Value),
    }
}

fn cell_word(text: &[u8]) -> Option<Cell>
    ensures { result ≡ place.cell_of text.now }
{
    if text == b"null".as_slice() {
        return Some(Cell::null());
    }
    match value_word(text) {
        None => None,
        Some(value) => Cell::of(value),
    }
}

/// A number that a cell may hold.
pub fn value<'t, 'a>(words: &'t [Word<'a>]) -> Result<(Value, &'t [Word<'a>]), ReadError>
    ensures { Gives (λ x. (x.0, texts_of x.1.now)) result (one_at place.reading place.value_of true (texts_of words.now)) }
{
    match words {
        [] => Err(ReadError::Fault(misfit(true, words))),
        [first, rest @ ..] => match value_word(first.text) {
            Some(value) => Ok((value, rest)),
            None => Err(ReadError::Fault(misfit(true, words))),
        },
    }
}

fn version_word(text: &[u8]) -> Option<Language>
    ensures { result ≡ place.version_of text.now }
{
    match number_in(1, 2, text) {
        None => None,
        Some(1) => Some(Language::One),
        Some(_) => Some(Language::Two),
    }
}

/// The version of a language.
pub fn version<'t, 'a>(words: &'t [Word<'a>]) -> Result<(Language, &'t [Word<'a>]), ReadError>
    ensures { Gives (λ x. (x.0, texts_of x.1.now)) result (one_at place.reading place.version_of true (texts_of words.now)) }
{
    match words {
        [] => Err(ReadError::Fault(misfit(true, words))),
        [first, rest @ ..] => match version_word(first.text) {
            Some(language) => Ok((language, rest)),
            None => Err(ReadError::Fault(misfit(true, words))),
        },
    }
}

/// A row or a column.
pub fn side<'t, 'a>(words: &'t [Word<'a>]) -> Result<(u32, &'t [Word<'a>]), ReadError>
    ensures { Gives (λ x. (x.0, texts_of x.1.now)) result (one_at place.reading place.side_of true (texts_of words.now)) }
{
    match words {
        [] => Err(ReadError::Fault(misfit(true, words))),
        [first, rest @ ..] => match side_word(first.text) {
            Some(side) => Ok((side, rest)),
            None => Err(ReadError::Fault(misfit(true, words))),
        },
    }
}

/// The radius of a disc, in cells.
pub fn radius<'t, 'a>(words: &'t [Word<'a>]) -> Result<(u32, &'t [Word<'a>]), ReadError>
    ensures { Gives (λ x. (Some x.0, texts_of x.1.now)) result (one_at place.reading place.disc_of true (texts_of words.now)) }
{
    match words {
        [] => Err(ReadError::Fault(misfit(true, words))),
        [first, rest @ ..] => match radius_word(first.text) {
            Some(radius) => Ok((radius, rest)),
            None => Err(ReadError::Fault(misfit(true, words))),
        },
    }
}

/// How many cells sight reaches.
pub fn reach<'t, 'a>(words: &'t [Word<'a>]) -> Result<(u32, &'t [Word<'a>]), ReadError>
    ensures { Gives (λ x. (x.0, texts_of x.1.now)) result (one_at place.reading place.reach_of true (texts_of words.now)) }
{
    match words {
        [] => Err(ReadError::Fault(misfit(true, words))),
        [first, rest @ ..] => match reach_word(first.text) {
            Some(reach) => Ok((reach, rest)),
            None => Err(ReadError::Fault(misfit(true, words))),
        },
    }
}

/// The greatest cost of a spread.
pub fn limit<'t, 'a>(words: &'t [Word<'a>]) -> Result<(Value, &'t [Word<'a>]), ReadError>
    ensures { Gives (λ x. (nat_abs x.0, texts_of x.1.now)) result (one_at place.reading place.limit_of true (texts_of words.now)) }
{
    match words {
        [] => Err(ReadError::Fault(misfit(true, words))),
        [first, rest @ ..] => match limit_word(first.text) {
            Some(limit) => Ok((limit, rest)),
            None => Err(ReadError::Fault(misfit(true, words))),
        },
    }
}

/// A number that a cell may hold, or null.
pub fn cell<'t, 'a>(words: &'t [Word<'a>]) -> Result<(Cell, &'t [Word<'a>]), ReadError>
    ensures { Gives (λ x. (x.0, texts_of x.1.now)) result (one_at place.reading place.cell_of true (texts_of words.now)) }
{
    match words {
        [] => Err(ReadError::Fault(misfit(true, words))),
        [first, rest @ ..] => match cell_word(first.text) {
            Some(cell) => Ok((cell, rest)),
            None => Err(ReadError::Fault(misfit(true, words))),
        },
    }
}

fn number_word(text: &[u8]) -> Option<Term>
    ensures { option_map term_view result ≡ option_map number_term (place.value_of text.now) }
{
    match value_word(text) {
        None => None,
        Some(value) => Some(Term::Number(value)),
    }
}

/// The term that a word is.
fn term_word(alloc: Global, scope: &Scope<'_>, text: &[u8]) -> Result<Option<Term>, NoMemory>
    ensures { IfOk result (λ t. option_map term_view t ≡ place.term_of (scope_of scope.now) text.now) }
{
    match Name::plain(alloc, text) {
        Ok(name) => {
            if scope.holds(text) {
                return Ok(Some(Term::Layer(name)));
            }
            Ok(number_word(text))
        }
        Err(NameRefusal::Form) => Ok(number_word(text)),
        Err(NameRefusal::NoMemory) => Err(NoMemory),
    }
}

/// A layer's name, one that the scope holds, or a number.
pub fn term<'t, 'a>(
    alloc: Global,
    scope: &Scope<'_>,
    words: &'t [Word<'a>],
) -> Result<(Term, &'t [Word<'a>]), ReadError>
    ensures { Gives (λ x. (term_view x.0, texts_of x.1.now)) result (one_at place.reading (place.term_of (scope_of scope.now)) true (texts_of words.now)) }
{
    match words {
        [] => Err(ReadError::Fault(misfit(true, words))),
        [first, rest @ ..] => match term_word(alloc, scope, first.text) {
            Ok(Some(term)) => Ok((term, rest)),
            Ok(None) => Err(ReadError::Fault(misfit(true, words))),
            Err(_) => Err(ReadError::NoMemory),
        },
    }
}

/// The weights of a flow.
pub fn weights<'t, 'a>(
    alloc: Global,
    scope: &Scope<'_>,
    words: &'t [Word<'a>],
) -> Result<(Option<Term>, &'t [Word<'a>]), ReadError>
    ensures { Gives (λ x. (option_map term_view x.0, texts_of x.1.now)) result (one_at place.reading (place.weights_of (scope_of scope.now)) true (texts_of words.now)) }
{
    match words {
        [] => Err(ReadError::Fault(misfit(true, words))),
        [first, rest @ ..] => match term_word(alloc, scope, first.text) {
            Ok(Some(term)) => Ok((Some(term), rest)),
            Ok(None) => Err(ReadError::Fault(misfit(true, words))),
            Err(_) => Err(ReadError::NoMemory),
        },
    }
}

/// The line ends.
pub fn end(words: &[Word<'_>]) -> Result<(), ReadError>
    ensures { Gives (λ x. tt) result (end_at (texts_of words.now)) }
{
    match words {
        [] => Ok(()),
        [_, ..] => Err(ReadError::Fault(misfit(false, words))),
    }
}

fn is_stranger(rows: &Rows<'_>, text: &[u8]) -> bool
    ensures { result ≡ (place.tests (manner_of rows.now)).is_stranger text.now }
{
    if !has_name_form(text) {
        return false;
    }
    operation_named(rows, text).is_none()
}

/// Whether a word follows that has a name's form, is no operation and isn't called.
pub fn is_unknown_operation(rows: &Rows<'_>, words: &[Word<'_>]) -> bool
    ensures { result ≡ is_unknown (place.tests (manner_of rows.now)) (texts_of words.now) }
{
    match words {
        [] => false,
        [first] => is_stranger(rows, first.text),
        [first, second, ..] => {
            if !is_stranger(rows, first.text) {
                return false;
            }
            second.text != b"(".as_slice()
        }
    }
}
