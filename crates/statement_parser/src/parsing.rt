//! Reading lines.

ghost use Rattle.std.specs.Prelude.{◌≡◌};
ghost use Rattle.statement_parser.specs.Views.{texts_of, line_view, manner_of};
ghost use Rattle.statement_parser.specs.Gives.{Gives};
ghost use Rattle.statement_parser.specs.Lines.{ask, ask_grid, ask_show, ask_legend, ask_stamps};
ghost use Rattle.statement_parser.specs.Parsed.{IsWordsRead};
ghost use Rattle.statement_parser.specs.ReadLine.{define_at, command_at, line_at, quit_at};
ghost use Rattle.statement_parser.specs.ReadCommands.{paint_at, new_at, drop_at, value_at, any_line_at, table_at, undo_at, model_at, list_at};

use crate::branches::branch;
use crate::command::{Command, command_named};
use crate::edits::{defined, dropped, laid, looked, painted};
use crate::fault::ReadError;
use crate::labels::{label, symbol};
use crate::line::{Line, Request};
use crate::places::{any, end, misfit, version};
use crate::procedures::procedure;
use crate::rows::Rows;
use map_words::{Name, NameRefusal, Word};
use std::alloc::Global;

#[tactic(auto, unfolding(crate::specs::ReadLine::define_at))]
fn define(alloc: Global, rows: &Rows<'_>, name: Name, words: &[Word<'_>]) -> Result<Line, ReadError>
    ensures { Gives line_view result (define_at (manner_of rows.now) name (texts_of words.now)) }
{
    let (edit, rest) = defined(alloc, rows, name, words)?;
    end(rest)?;
    Ok(Line::Edit(edit))
}

#[tactic(auto, unfolding(crate::specs::ReadCommands::paint_at))]
fn paint(alloc: Global, words: &[Word<'_>]) -> Result<Line, ReadError>
    ensures { Gives line_view result (paint_at (texts_of words.now)) }
{
    let (edit, rest) = painted(alloc, words)?;
    end(rest)?;
    Ok(Line::Edit(edit))
}

#[tactic(auto, unfolding(crate::specs::ReadCommands::new_at))]
fn new_layer(alloc: Global, words: &[Word<'_>]) -> Result<Line, ReadError>
    ensures { Gives line_view result (new_at (texts_of words.now)) }
{
    let (edit, rest) = laid(alloc, words)?;
    end(rest)?;
    Ok(Line::Edit(edit))
}

#[tactic(auto, unfolding(crate::specs::ReadCommands::drop_at))]
fn drop_line(alloc: Global, words: &[Word<'_>]) -> Result<Line, ReadError>
    ensures { Gives line_view result (drop_at (texts_of words.now)) }
{
    let (edit, rest) = dropped(alloc, words)?;
    end(rest)?;
    Ok(Line::Edit(edit))
}

#[tactic(auto, unfolding(crate::specs::ReadCommands::undo_at))]
fn undo(words: &[Word<'_>]) -> Result<Line, ReadError>
    ensures { Gives line_view result (undo_at (texts_of words.now)) }
{
    end(words)?;
    Ok(Line::Undo)
}

#[tactic(auto, unfolding(crate::specs::ReadCommands::value_at))]
fn value(alloc: Global, words: &[Word<'_>]) -> Result<Line, ReadError>
    ensures { Gives line_view result (value_at (texts_of words.now)) }
{
    let ((name, r, c), rest) = looked(alloc, words)?;
    end(rest)?;
    Ok(Line::Ask(Request::Value { name, r, c }))
}

#[tactic(auto, unfolding(crate::specs::ReadCommands::any_line_at))]
fn grid(alloc: Global, words: &[Word<'_>]) -> Result<Line, ReadError>
    ensures { Gives line_view result (any_line_at (λ n. ask (ask_grid n)) (texts_of words.now)) }
{
    let (name, rest) = any(alloc, words)?;
    end(rest)?;
    Ok(Line::Ask(Request::Grid(name)))
}

#[tactic(auto, unfolding(crate::specs::ReadCommands::any_line_at))]
fn show(alloc: Global, words: &[Word<'_>]) -> Result<Line, ReadError>
    ensures { Gives line_view result (any_line_at (λ n. ask (ask_show n)) (texts_of words.now)) }
{
    let (name, rest) = any(alloc, words)?;
    end(rest)?;
    Ok(Line::Ask(Request::Show(name)))
}

#[tactic(auto, unfolding(crate::specs::ReadCommands::any_line_at))]
fn legend(alloc: Global, words: &[Word<'_>]) -> Result<Line, ReadError>
    ensures { Gives line_view result (any_line_at (λ n. ask (ask_legend n)) (texts_of words.now)) }
{
    let (name, rest) = any(alloc, words)?;
    end(rest)?;
    Ok(Line::Ask(Request::Legend(name)))
}

#[tactic(auto, unfolding(crate::specs::ReadCommands::any_line_at))]
fn stamps(alloc: Global, words: &[Word<'_>]) -> Result<Line, ReadError>
    ensures { Gives line_view result (any_line_at (λ n. ask (ask_stamps n)) (texts_of words.now)) }
{
    let (name, rest) = any(alloc, words)?;
    end(rest)?;
    Ok(Line::Ask(Request::Stamps(name)))
}

#[tactic(auto, unfolding(crate::specs::ReadCommands::table_at))]
fn table(alloc: Global, words: &[Word<'_>]) -> Result<Line, ReadError>
    ensures { Gives line_view result (table_at (texts_of words.now)) }
{
    let (zones, rest) = any(alloc, words)?;
    let (values, rest) = any(alloc, rest)?;
    end(rest)?;
    Ok(Line::Ask(Request::Table { zones, values }))
}

#[tactic(auto, unfolding(crate::specs::ReadCommands::model_at))]
fn model(words: &[Word<'_>]) -> Result<Line, ReadError>
    ensures { Gives line_view result (model_at (texts_of words.now)) }
{
    let (language, rest) = version(words)?;
    end(rest)?;
    Ok(Line::Model(language))
}

#[tactic(auto, unfolding(crate::specs::ReadCommands::list_at))]
fn list(words: &[Word<'_>]) -> Result<Line, ReadError>
    ensures { Gives line_view result (list_at (texts_of words.now)) }
{
    end(words)?;
    Ok(Line::Ask(Request::List))
}

#[tactic(auto, unfolding(crate::specs::ReadLine::quit_at))]
fn quit(words: &[Word<'_>]) -> Result<Line, ReadError>
    ensures { Gives line_view result (quit_at (texts_of words.now)) }
{
    end(words)?;
    Ok(Line::Quit)
}

/// What follows a command's word.
fn commanded(
    alloc: Global,
    rows: &Rows<'_>,
    command: Command,
    words: &[Word<'_>],
) -> Result<Line, ReadError>
    ensures { Gives line_view result (command_at (manner_of rows.now) command (texts_of words.now)) }
{
    match command {
        Command::Model => model(words),
        Command::Procedure => procedure(alloc, rows, words),
        Command::Paint => paint(alloc, words),
        Command::New => new_layer(alloc, words),
        Command::Drop => drop_line(alloc, words),
        Command::Label => label(alloc, words),
        Command::Symbol => symbol(alloc, words),
        Command::Undo => undo(words),
        Command::Branch => branch(alloc, rows, words),
        Command::Value => value(alloc, words),
        Command::Grid => grid(alloc, words),
        Command::Show => show(alloc, words),
        Command::Legend => legend(alloc, words),
        Command::Table => table(alloc, words),
        Command::Stamps => stamps(alloc, words),
        Command::List => list(words),
        Command::Quit => quit(words),
    }
}

/// A line by its words.
#[tactic(auto, unfolding(crate::specs::ReadLine::line_at))]
fn line(alloc: Global, rows: &Rows<'_>, words: &[Word<'_>]) -> Result<Line, ReadError>
    ensures { Gives line_view result (line_at (manner_of rows.now) (texts_of words.now)) }
{
    match words {
        [] => Ok(Line::Blank),
        [first, rest @ ..] => match command_named(rows, first.text) {
            Some(command) => commanded(alloc, rows, command, rest),
            None => match Name::plain(alloc, first.text) {
                Ok(name) => define(alloc, rows, name, rest),
                Err(NameRefusal::Form) => Err(ReadError::Fault(misfit(false, words))),
                Err(NameRefusal::NoMemory) => Err(ReadError::NoMemory),
            },
        },
    }
}

/// The line that words are, or their first fault.
pub fn parse_words(alloc: Global, rows: &Rows<'_>, words: &[Word<'_>]) -> Result<Line, ReadError>
    ensures { IsWordsRead (manner_of rows.now) line_view (texts_of words.now) result }
{
    line(alloc, rows, words)
}
