//! The texts of what refuses a line, an edit or a load.
ghost use Rattle.std.specs.Prelude.{◌≡◌, Some, IfOk};
ghost use Rattle.map_machine.specs.Causes.{counted, counted_twice, which_text};
ghost use Rattle.live_engine.specs.Accepts.{which_of};
ghost use Rattle.map_session.specs.Causes.{line_told, edit_told, grid_told};

use grid_text::GridRefusal;
use live_engine::{Refusal, Which};
use map_display::{named, put_number};
use map_nums::NoMemory;
use map_words::Name;
use statement_parser::LineRefusal;
use std::alloc::Global;

/// A word and a number.
pub(crate) fn counted(alloc: Global, word: &[u8], number: u64) -> Result<Vec<u8>, NoMemory>
    ensures { IfOk result (λ text. text.items ≡ counted word.now number) }
{
    let mut text = Vec::from_slice(alloc, word)?;
    text.push(b' ')?;
    put_number(&mut text, number)?;
    Ok(text)
}

/// A word and two numbers.
fn counted_twice(alloc: Global, word: &[u8], first: u64, second: u64) -> Result<Vec<u8>, NoMemory>
    ensures { IfOk result (λ text. text.items ≡ counted_twice word.now first second) }
{
    let mut text = counted(alloc, word, first)?;
    text.push(b' ')?;
    put_number(&mut text, second)?;
    Ok(text)
}

fn which_text(which: Which) -> &'static [u8]
    ensures { result.now ≡ which_text (which_of which) }
{
    match which {
        Which::Sources => b"sources",
        Which::Statements => b"statements",
        Which::Zonals => b"zonals",
        Which::Neighbors => b"neighbors",
        Which::Labels => b"labels",
        Which::Symbols => b"symbols",
        Which::Procedures => b"procedures",
    }
}

fn limit_cause(alloc: Global, which: Which) -> Result<Vec<u8>, NoMemory>
    ensures { IfOk result (λ text. edit_told (Refusal.Limit which) ≡ Some text.items) }
{
    let mut text = Vec::from_slice(alloc, b"limit ")?;
    text.extend_from_slice(which_text(which))?;
    Ok(text)
}

fn viewers_cause(alloc: Global, name: &Name, count: u64) -> Result<Vec<u8>, NoMemory>
    ensures { IfOk result (λ text. edit_told (Refusal.Viewers name.now count) ≡ Some text.items) }
{
    let who = named(alloc, b"viewers ", name)?;
    counted(alloc, &who, count)
}

fn overflow_cause(alloc: Global, name: &Name, r: u64, c: u64) -> Result<Vec<u8>, NoMemory>
    ensures { IfOk result (λ text. edit_told (Refusal.Overflow name.now r c) ≡ Some text.items) }
{
    let place = named(alloc, b"overflow ", name)?;
    counted_twice(alloc, &place, r, c)
}

/// Why an edit is refused.
pub(crate) fn edit_cause(alloc: Global, refusal: &Refusal) -> Result<Vec<u8>, NoMemory>
    ensures { IfOk result (λ text. edit_told refusal.now ≡ Some text.items) }
{
    match refusal {
        Refusal::Unknown(name) => named(alloc, b"unknown ", name),
        Refusal::Derived(name) => named(alloc, b"derived ", name),
        Refusal::Exists(name) => named(alloc, b"exists ", name),
        Refusal::Size(rows, columns) => counted_twice(alloc, b"size", *rows, *columns),
        Refusal::Limit(which) => limit_cause(alloc, *which),
        Refusal::Cycle(name) => named(alloc, b"cycle ", name),
        Refusal::Viewers(name, count) => viewers_cause(alloc, name, *count),
        Refusal::Overflow(name, r, c) => overflow_cause(alloc, name, *r, *c),
        Refusal::NoProcedure(name) => named(alloc, b"procedure ", name),
        Refusal::Terms(given, wanted) => counted_twice(alloc, b"count", *given, *wanted),
        Refusal::NoMemory => Err(NoMemory),
    }
}

/// Why bytes are no line.
pub(crate) fn line_cause(alloc: Global, refusal: LineRefusal) -> Result<Vec<u8>, NoMemory>
    ensures { IfOk result (λ text. line_told refusal ≡ Some text.items) }
{
    match refusal {
        LineRefusal::Long(length) => counted(alloc, b"long", length),
        LineRefusal::Syntax(at) => counted(alloc, b"syntax", at as u64),
        LineRefusal::Operation(at) => counted(alloc, b"operation", at as u64),
        LineRefusal::Number(at) => counted(alloc, b"number", at as u64),
        LineRefusal::NoMemory => Err(NoMemory),
    }
}

/// Why bytes are no grid.
pub(crate) fn grid_cause(alloc: Global, refusal: GridRefusal) -> Result<Vec<u8>, NoMemory>
    ensures { IfOk result (λ text. grid_told refusal ≡ Some text.items) }
{
    match refusal {
        GridRefusal::Key(at) => counted(alloc, b"key", at),
        GridRefusal::Number(at) => counted(alloc, b"number", at),
        GridRefusal::Size(rows, columns) => counted_twice(alloc, b"limits", rows, columns),
        GridRefusal::Few(have, need) => counted_twice(alloc, b"few", have, need),
        GridRefusal::More(at) => counted(alloc, b"more", at),
        GridRefusal::Cell(index) => counted(alloc, b"cell", index),
        GridRefusal::Range(index) => counted(alloc, b"range", index),
        GridRefusal::NoMemory => Err(NoMemory),
    }
}
