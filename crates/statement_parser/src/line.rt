//! Lines, as reading gives them.

use crate::language::Language;
use crate::op::{Op, Term};
use crate::procedure::Procedure;
use layer_tiles::{Cell, Text};
use map_nums::Value;
use map_words::Name;

/// A statement's body.
#[derive(Debug, Drop)]
pub enum Written {
    Plain(Op),
    /// The terms that are given to a procedure, in order.
    Call { procedure: Name, given: Vec<Term> },
}

/// A line that changes the map. Rows and columns count from 1.
#[derive(Drop)]
pub enum LineEdit {
    Define {
        name: Name,
        written: Written,
    },
    Procedure(Procedure),
    Paint {
        name: Name,
        r1: u32,
        c1: u32,
        r2: u32,
        c2: u32,
        cell: Cell,
    },
    /// A layer that has this cell everywhere.
    New {
        name: Name,
        cell: Cell,
    },
    Drop {
        name: Name,
    },
    /// The text that stands for a value of a layer, of 1 to 64 bytes.
    Label {
        name: Name,
        value: Value,
        text: Text,
    },
    /// The printed byte that stands for a value of a layer.
    Symbol {
        name: Name,
        value: Value,
        sign: u8,
    },
}

/// A part of a branch: an edit, or a look at a cell. Rows and columns count from 1.
#[derive(Drop)]
pub enum Item {
    Edit(LineEdit),
    Value { name: Name, r: u32, c: u32 },
}

/// A line that asks for something. Rows and columns count from 1.
#[derive(Drop)]
pub enum Request {
    Value { name: Name, r: u32, c: u32 },
    Grid(Name),
    /// The layer's cells as signs.
    Show(Name),
    /// The layer's values with their labels.
    Legend(Name),
    /// The values of a layer by the zones of another.
    Table { zones: Name, values: Name },
    Stamps(Name),
    List,
    /// Branches of edits that are tried on the state that stands.
    Branch(Vec<Vec<Item>>),
}

#[derive(Drop)]
pub enum Line {
    /// An empty line, a line of blanks, or a comment.
    Blank,
    Edit(LineEdit),
    /// The newest edit that isn't taken back yet is taken back.
    Undo,
    Ask(Request),
    /// The language of the lines after it.
    Model(Language),
    Quit,
}
