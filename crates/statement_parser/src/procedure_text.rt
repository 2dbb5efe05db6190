//! The canonical text of a procedure.

ghost use Rattle.std.specs.Prelude.{◌≡◌, IfOk};
ghost use Rattle.statement_parser.specs.Canonical.{written_text};
ghost use Rattle.statement_parser.specs.Printing.{Grows};
ghost use Rattle.statement_parser.specs.ProcedureTexts.{names_after, names_text, statements_after, statements_text, procedure_text};
ghost use Rattle.statement_parser.specs.ReadingBack.{ReadsBack};
ghost use Rattle.statement_parser.specs.Views.{written_view, body_view, procedure_view};

use crate::line::Written;
use crate::printing::{body, glued};
use crate::procedure::Procedure;
use map_nums::NoMemory;
use map_words::Name;
use std::alloc::{AllocError, Global};

/// Names, with a comma before each.
fn comma_names(text: &mut Vec<u8>, names: &[Name]) -> Result<(), AllocError>
    ensures { IfOk result (λ _. Grows text.old.items text.new.items (names_after names.now)) }
{
    match names {
        [] => glued(text, b""),
        [first, rest @ ..] => {
            glued(text, b", ")?;
            glued(text, first.bytes())?;
            comma_names(text, rest)
        }
    }
}

/// Names, with a comma between.
fn names(text: &mut Vec<u8>, names: &[Name]) -> Result<(), AllocError>
    ensures { IfOk result (λ _. Grows text.old.items text.new.items (names_text names.now)) }
{
    match names {
        [] => glued(text, b""),
        [first, rest @ ..] => {
            glued(text, first.bytes())?;
            comma_names(text, rest)
        }
    }
}

fn statement(text: &mut Vec<u8>, name: &Name, written: &Written) -> Result<(), AllocError>
    ensures { IfOk result (λ _. Grows text.old.items text.new.items (written_text name.now (written_view written.now))) }
{
    glued(text, name.bytes())?;
    glued(text, b" =")?;
    body(text, written)
}

/// Statements, with a semicolon before each.
fn further_statements(text: &mut Vec<u8>, body: &[(Name, Written)]) -> Result<(), AllocError>
    ensures { IfOk result (λ _. Grows text.old.items text.new.items (statements_after (body_view body.now))) }
{
    match body {
        [] => glued(text, b""),
        [first, rest @ ..] => {
            glued(text, b"; ")?;
            statement(text, &first.0, &first.1)?;
            further_statements(text, rest)
        }
    }
}

/// Statements, with a semicolon between.
fn statements(text: &mut Vec<u8>, body: &[(Name, Written)]) -> Result<(), AllocError>
    ensures { IfOk result (λ _. Grows text.old.items text.new.items (statements_text (body_view body.now))) }
{
    match body {
        [] => glued(text, b""),
        [first, rest @ ..] => {
            statement(text, &first.0, &first.1)?;
            further_statements(text, rest)
        }
    }
}

fn canonical(alloc: Global, procedure: &Procedure) -> Result<Vec<u8>, AllocError>
    ensures { IfOk result (λ text. text.items ≡ procedure_text (procedure_view procedure.now)) }
{
    let mut text = Vec::from_slice(alloc, b"procedure ")?;
    glued(&mut text, procedure.name.bytes())?;
    glued(&mut text, b"(")?;
    names(&mut text, procedure.takes.as_slice())?;
    glued(&mut text, b"): ")?;
    statements(&mut text, procedure.body.as_slice())?;
    Ok(text)
}

/// The canonical text of a procedure, which reads back as the same procedure where its rows are there and it is no longer
/// than a line.
pub fn print_procedure(alloc: Global, procedure: &Procedure) -> Result<Vec<u8>, NoMemory>
    ensures canonical { IfOk result (λ text. text.items ≡ procedure_text (procedure_view procedure.now)) }
    ensures reads { IfOk result (λ text. ReadsBack (procedure_view procedure.now) text.items) }
{
    let text = canonical(alloc, procedure)?;
    Ok(text)
}
