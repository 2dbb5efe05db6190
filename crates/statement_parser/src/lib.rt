//! Lines of the map language: what they are, how they are read, and their one canonical text.
//!
//! [`parse_line`] gives the [`Line`] that a line of bytes is, or the first fault. The grammar is that of the whole language;
//! [`Rows`] tells which of its operations and commands are there, and a line of any other is refused.
#![tactic(auto)]

mod bodies;
mod branches;
mod command;
mod copying;
mod edits;
mod fault;
mod labels;
mod language;
mod laws;
mod line;
mod line_text;
mod op;
mod opening;
mod operation;
mod parsing;
mod places;
mod printing;
mod procedure;
mod procedure_text;
mod procedures;
mod refusal;
mod rows;
mod scope;
mod signs;
mod substitution;
mod tails;

pub use command::Command;
pub use language::{Language, Place};
pub use laws::{lines_are_read, lines_are_settled, worked_lines};
pub use line::{Item, Line, LineEdit, Request, Written};
pub use line_text::parse_line;
pub use op::{Form, Op, Reach, Term};
pub use operation::{Operation, all_operations};
pub use printing::print_written;
pub use procedure::Procedure;
pub use procedure_text::print_procedure;
pub use refusal::LineRefusal;
pub use rows::Rows;
pub use substitution::{Substitution, terms_with};
