//! Reading procedures.

ghost use Rattle.std.specs.Prelude.{◌≡◌, false};
ghost use Rattle.grammar_core.specs.Readers.{one_at};
ghost use Rattle.statement_parser.specs.Gives.{Gives};
ghost use Rattle.statement_parser.specs.Places.{reading};
ghost use Rattle.statement_parser.specs.ProcedureRules.{fresh_of};
ghost use Rattle.statement_parser.specs.ReadProcedures.{names_at, parameters_at, inner_at, result_at, named_inner_at, statements_at, procedure_at};
ghost use Rattle.statement_parser.specs.Scopes.{names_before};
ghost use Rattle.statement_parser.specs.Views.{texts_of, written_view, inner_view, body_view, line_view, manner_of};

use crate::bodies::body;
use crate::fault::ReadError;
use crate::line::{Line, LineEdit, Written};
use crate::places::{end, is_next, misfit, name, the};
use crate::procedure::Procedure;
use crate::rows::Rows;
use crate::scope::{Scope, stands_before};
use map_words::{Name, NameRefusal, Word};
use std::alloc::Global;

/// A plain name that is no parameter and no statement's before.
fn fresh<'t, 'a>(
    alloc: Global,
    takes: &[Name],
    before: &[(Name, Written)],
    words: &'t [Word<'a>],
) -> Result<(Name, &'t [Word<'a>]), ReadError>
    ensures { Gives (λ x. (x.0, texts_of x.1.now)) result (one_at reading (fresh_of (names_before takes.now (body_view before.now))) false (texts_of words.now)) }
{
    match words {
        [] => Err(ReadError::Fault(misfit(false, words))),
        [first, rest @ ..] => {
            if stands_before(takes, before, first.text) {
                return Err(ReadError::Fault(misfit(false, words)));
            }
            match Name::plain(alloc, first.text) {
                Ok(name) => Ok((name, rest)),
                Err(NameRefusal::Form) => Err(ReadError::Fault(misfit(false, words))),
                Err(NameRefusal::NoMemory) => Err(ReadError::NoMemory),
            }
        }
    }
}

/// Further parameters, at most so many.
#[tactic(auto, unfolding(crate::specs::ReadProcedures::names_at))]
fn further_names<'t, 'a>(
    alloc: Global,
    most: u32,
    front: Vec<Name>,
    words: &'t [Word<'a>],
) -> Result<(Vec<Name>, &'t [Word<'a>]), ReadError>
    ensures { Gives (λ x. (x.0.items, texts_of x.1.now)) result (names_at most front.items (texts_of words.now)) }
{
    if most == 0 {
        return Ok((front, words));
    }
    if !is_next(b",", words) {
        return Ok((front, words));
    }
    let rest = the(b",", words)?;
    let (one, rest) = fresh(alloc, front.as_slice(), &[], rest)?;
    let mut names = front;
    names.push(one)?;
    further_names(alloc, most - 1, names, rest)
}

/// The parameters, with what stands around them.
#[tactic(auto, unfolding(crate::specs::ReadProcedures::parameters_at))]
fn parameters<'t, 'a>(
    alloc: Global,
    words: &'t [Word<'a>],
) -> Result<(Vec<Name>, &'t [Word<'a>]), ReadError>
    ensures { Gives (λ x. (x.0.items, texts_of x.1.now)) result (parameters_at (texts_of words.now)) }
{
    let rest = the(b"(", words)?;
    let (first, rest) = name(alloc, rest)?;
    let mut names = Vec::new(alloc);
    names.push(first)?;
    let (names, rest) = further_names(alloc, 7, names, rest)?;
    let rest = the(b")", rest)?;
    let rest = the(b":", rest)?;
    Ok((names, rest))
}

/// What follows the name of a statement in a procedure.
#[tactic(auto, unfolding(crate::specs::ReadProcedures::inner_at))]
fn inner<'t, 'a>(
    alloc: Global,
    rows: &Rows<'_>,
    takes: &[Name],
    before: &[(Name, Written)],
    words: &'t [Word<'a>],
) -> Result<(Written, &'t [Word<'a>]), ReadError>
    ensures { Gives (λ x. (written_view x.0, texts_of x.1.now)) result (inner_at (manner_of rows.now) (names_before takes.now (body_view before.now)) (texts_of words.now)) }
{
    let rest = the(b"=", words)?;
    body(alloc, &Scope::Procedure { takes, before }, rows, rest)
}

/// The last statement, to the end of the line.
#[tactic(auto, unfolding(crate::specs::ReadProcedures::result_at))]
fn result_statement(
    alloc: Global,
    rows: &Rows<'_>,
    takes: &[Name],
    front: Vec<(Name, Written)>,
    words: &[Word<'_>],
) -> Result<Vec<(Name, Written)>, ReadError>
    ensures { Gives (λ x. body_view x.items) result (result_at (manner_of rows.now) takes.now (body_view front.items) (texts_of words.now)) }
{
    let rest = the(b"result", words)?;
    let (written, rest) = inner(alloc, rows, takes, front.as_slice(), rest)?;
    end(rest)?;
    let name = Name::result(alloc)?;
    let mut statements = front;
    statements.push((name, written))?;
    Ok(statements)
}

/// A statement before the last, with the `;` after it.
#[tactic(auto, unfolding(crate::specs::ReadProcedures::named_inner_at))]
fn named_inner<'t, 'a>(
    alloc: Global,
    rows: &Rows<'_>,
    takes: &[Name],
    before: &[(Name, Written)],
    words: &'t [Word<'a>],
) -> Result<((Name, Written), &'t [Word<'a>]), ReadError>
    ensures { Gives (λ x. (inner_view x.0, texts_of x.1.now)) result (named_inner_at (manner_of rows.now) (names_before takes.now (body_view before.now)) (texts_of words.now)) }
{
    let (name, rest) = fresh(alloc, takes, before, words)?;
    let (written, rest) = inner(alloc, rows, takes, before, rest)?;
    let rest = the(b";", rest)?;
    Ok(((name, written), rest))
}

/// The statements after those in front, with at most so many before the last.
#[tactic(auto, unfolding(crate::specs::ReadProcedures::statements_at))]
fn statements(
    alloc: Global,
    rows: &Rows<'_>,
    takes: &[Name],
    most: u32,
    front: Vec<(Name, Written)>,
    words: &[Word<'_>],
) -> Result<Vec<(Name, Written)>, ReadError>
    ensures { Gives (λ x. body_view x.items) result (statements_at (manner_of rows.now) takes.now most (body_view front.items) (texts_of words.now)) }
{
    if most == 0 {
        return result_statement(alloc, rows, takes, front, words);
    }
    if is_next(b"result", words) {
        return result_statement(alloc, rows, takes, front, words);
    }
    let (one, rest) = named_inner(alloc, rows, takes, front.as_slice(), words)?;
    let mut body = front;
    body.push(one)?;
    statements(alloc, rows, takes, most - 1, body, rest)
}

/// What follows `procedure`.
#[tactic(auto, unfolding(crate::specs::ReadProcedures::procedure_at))]
pub fn procedure(alloc: Global, rows: &Rows<'_>, words: &[Word<'_>]) -> Result<Line, ReadError>
    ensures { Gives line_view result (procedure_at (manner_of rows.now) (texts_of words.now)) }
{
    let (name, rest) = name(alloc, words)?;
    let (takes, rest) = parameters(alloc, rest)?;
    let body = statements(alloc, rows, takes.as_slice(), 15, Vec::new(alloc), rest)?;
    Ok(Line::Edit(LineEdit::Procedure(Procedure { name, takes, body })))
}
