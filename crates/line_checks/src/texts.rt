//! What is seen of lines that are read.
use map_nums::{Stat, Value};
use statement_parser::{
    Command, Form, Item, Language, Line, LineEdit, LineRefusal, Operation, Place, Request, Rows,
    parse_line, print_procedure, print_written,
};
use std::alloc::Global;

/// The rows by which a line is read.
#[derive(Clone, Copy)]
pub(crate) enum Table {
    /// The program's own.
    Program,
    /// The program's own, in language 2, at a place where the language may be set.
    Early,
    /// All commands, sight, calls, nulls that are ignored, and these operations.
    All,
}

/// The operations beside `LocalSum` that the lines of the tests name.
const OPERATIONS: [Operation; 11] = [
    Operation::Local(Stat::Product),
    Operation::Local(Stat::Mean),
    Operation::Focal(Stat::Sum),
    Operation::Focal(Stat::Mean),
    // Not in the table: no row makes a Focal product.
    Operation::Focal(Stat::Product),
    Operation::Proximity,
    Operation::Insularity,
    Operation::Zonal(Stat::Variety),
    Operation::Incremental(Form::Gradient),
    Operation::Incremental(Form::Aspect),
    Operation::Drainage,
];

const COMMANDS: [Command; 17] = [
    Command::Model,
    Command::Procedure,
    Command::Paint,
    Command::New,
    Command::Drop,
    Command::Label,
    Command::Symbol,
    Command::Undo,
    Command::Branch,
    Command::Value,
    Command::Grid,
    Command::Show,
    Command::Legend,
    Command::Table,
    Command::Stamps,
    Command::List,
    Command::Quit,
];

/// In language 1, which no line sets any more.
const LATER: Place = Place {
    language: Language::One,
    early: false,
};

const EARLY: Place = Place {
    language: Language::Two,
    early: true,
};

fn read(alloc: Global, table: Table, line: &[u8]) -> Result<Line, LineRefusal> {
    let rows = Rows {
        operations: &OPERATIONS,
        commands: &COMMANDS,
        sight: true,
        calls: true,
        ignoring: true,
    };
    match table {
        Table::Program => map_lines::parse_line(alloc, line, LATER),
        Table::Early => map_lines::parse_line(alloc, line, EARLY),
        Table::All => parse_line(alloc, &rows, line),
    }
}

/// What is seen of a line.
#[derive(Drop)]
pub(crate) struct Seen {
    /// Its form, with its numbers where they are those of a test.
    pub form: &'static str,
    /// What each cell of a new layer holds, or which value gets a text or a sign.
    pub value: Option<Option<Value>>,
    /// The canonical text of a statement or a procedure, or the text or sign that a value gets.
    pub text: Option<Vec<u8>>,
    /// The same of a copy of the line.
    pub copy: Option<Vec<u8>>,
}

fn form_of(line: &Line) -> &'static str {
    match line {
        Line::Blank => "blank",
        Line::Model(Language::One) => "language 1",
        Line::Model(Language::Two) => "language 2",
        Line::Undo => "undo",
        Line::Quit => "quit",
        Line::Ask(request) => form_of_request(request),
        Line::Edit(edit) => form_of_edit(edit),
    }
}

fn form_of_request(request: &Request) -> &'static str {
    match request {
        Request::List => "list",
        Request::Value { r, c, .. } if *r == 1 && *c == 2 => "value at 1 2",
        Request::Branch(branches) => form_of_branches(branches.as_slice()),
        _ => "another",
    }
}

fn form_of_branches(branches: &[Vec<Item>]) -> &'static str {
    match branches {
        [only] if only.len() == 583 => "a branch of 583 items",
        _ => "branches",
    }
}

fn form_of_edit(edit: &LineEdit) -> &'static str {
    match edit {
        LineEdit::Drop { .. } => "drop",
        LineEdit::Paint { r1, c1, r2, c2, .. } if is_one_to_four(*r1, *c1, *r2, *c2) => {
            "paint from 1 2 to 3 4"
        }
        LineEdit::Label { name, .. } if name.bytes() == b"A".as_slice() => "label of A",
        LineEdit::Symbol { name, .. } if name.bytes() == b"A".as_slice() => "symbol of A",
        _ => "another",
    }
}

fn is_one_to_four(r1: u32, c1: u32, r2: u32, c2: u32) -> bool {
    r1 == 1 && c1 == 2 && r2 == 3 && c2 == 4
}

fn value_of(line: &Line) -> Option<Option<Value>> {
    match line {
        Line::Edit(LineEdit::New { cell, .. }) => Some(cell.get()),
        Line::Edit(LineEdit::Label { value, .. }) | Line::Edit(LineEdit::Symbol { value, .. }) => {
            Some(Some(*value))
        }
        _ => None,
    }
}

fn text_of(alloc: Global, edit: &LineEdit) -> Option<Vec<u8>> {
    match edit {
        LineEdit::Define { name, written } => print_written(alloc, name, written).ok(),
        LineEdit::Procedure(procedure) => print_procedure(alloc, procedure).ok(),
        LineEdit::Label { text, .. } => Vec::from_slice(alloc, text.bytes()).ok(),
        LineEdit::Symbol { sign, .. } => Vec::from_slice(alloc, &[*sign]).ok(),
        _ => None,
    }
}

fn text_of_copy(alloc: Global, edit: &LineEdit) -> Option<Vec<u8>> {
    let copy = edit.copy(alloc).ok()?;
    text_of(alloc, &copy)
}

fn seen_of(alloc: Global, line: &Line) -> Seen {
    let (text, copy) = match line {
        Line::Edit(edit) => (text_of(alloc, edit), text_of_copy(alloc, edit)),
        _ => (None, None),
    };
    Seen {
        form: form_of(line),
        value: value_of(line),
        text,
        copy,
    }
}

/// What is seen of a line, or why it is refused.
pub(crate) fn look_at(alloc: Global, table: Table, line: &[u8]) -> Result<Seen, LineRefusal> {
    match read(alloc, table, line) {
        Ok(line) => Ok(seen_of(alloc, &line)),
        Err(refusal) => Err(refusal),
    }
}

/// Why a line is refused.
pub(crate) fn refusal(alloc: Global, table: Table, line: &[u8]) -> Option<LineRefusal> {
    look_at(alloc, table, line).err()
}
