//! Which lines of the map language are there: the rows of its operations and commands, and the reading of lines by them.
//!
//! [`parse_line`] gives the [`Line`] that a line of bytes is at a place of a session, or the first fault. All rows are there that
//! `statement_parser` knows, `model` while it may set the language, and `ignoring nulls` in language 2; a further one is a row
//! there.
#![tactic(auto)]

ghost use Rattle.std.specs.Prelude.{◌≡◌, IfOk};
ghost use Rattle.statement_parser.specs.LineOf.{line_of, IsLineRead};
ghost use Rattle.statement_parser.specs.Parsed.{IsParsed};
ghost use Rattle.statement_parser.specs.Formed.{IsFormed};
ghost use Rattle.statement_parser.specs.Views.{line_view, manner_of};
ghost use Rattle.map_lines.specs.Present.{commands_at, may_ignore, rows_at};

mod laws;

pub use laws::printed_lines_read_again;
use statement_parser::{Command, Language, Line, LineRefusal, Place, Rows, all_operations};
use std::alloc::Global;

/// The commands; all but the first are there at each place.
const COMMANDS: [Command; 17] = [
    Command::Model,
    Command::Procedure,
    Command::Paint,
    Command::New,
    Command::Drop,
    Command::Label,
    Command::Symbol,
    Command::Undo,
    Command::Branch,
    Command::Value,
    Command::Grid,
    Command::Show,
    Command::Legend,
    Command::Table,
    Command::Stamps,
    Command::List,
    Command::Quit,
];

/// The commands of a place.
fn commands_at(place: Place) -> &'static [Command]
    ensures { result.now ≡ commands_at place }
{
    if place.early {
        return &COMMANDS;
    }
    &COMMANDS[1..]
}

/// Whether Local statistics may ignore nulls.
fn may_ignore(language: Language) -> bool
    ensures { result ≡ may_ignore language }
{
    match language {
        Language::One => false,
        Language::Two => true,
    }
}

/// The line that bytes are at a place of a session, without their line end, or their first fault.
#[tactic(auto, unfolding(crate::specs::Present::rows_at))]
pub fn parse_line(alloc: Global, line: &[u8], place: Place) -> Result<Line, LineRefusal>
    ensures parsed { IsParsed (rows_at place) line_view line.now result }
    ensures read { IsLineRead (line_of (rows_at place) line.now) line_view result }
    ensures formed { IfOk result (λ x. IsFormed (line_view x)) }
{
    let rows = Rows {
        operations: all_operations(),
        commands: commands_at(place),
        sight: true,
        calls: true,
        ignoring: may_ignore(place.language),
    };
    statement_parser::parse_line(alloc, &rows, line)
}
