//! The answer to a request for the list.
ghost use Rattle.std.specs.Prelude.{◌≡◌, ◌++◌, length, flat_map, IfOk, OnOk};
ghost use Rattle.statement_parser.specs.Lines.{ask_list};
ghost use Rattle.statement_parser.specs.Views.{procedure_view};
ghost use Rattle.live_engine.specs.Listed.{listed_of};
ghost use Rattle.map_machine.specs.Answers.{answer_to};
ghost use Rattle.map_machine.specs.Listing.{entry_line};
ghost use Rattle.map_session.specs.Said.{Says};
ghost use Rattle.map_session.specs.Asked.{state_asked};
ghost use Rattle.map_session.specs.Lines.{listed_line, procedure_line};

use crate::answers::Asked;
use crate::causes::counted;
use crate::replies::Reply;
use live_engine::{Engine, Entry};
use map_machine::Kind;
use map_nums::NoMemory;
use statement_parser::{Procedure, print_procedure, print_written};
use std::alloc::Global;

impl Asked<'_> {
    /// To `list`.
    pub(crate) fn list(&self, alloc: Global) -> Result<Reply, NoMemory>
        ensures { IfOk result (Says (answer_to (state_asked self.now) ask_list) Kind.Shown) }
    {
        let procedures = procedure_lines(alloc, self.engine)?;
        let entries = entry_lines(alloc, self.engine)?;
        let count = procedures.count as u64 + entries.count as u64;
        let mut text = counted(alloc, b"list", count)?;
        text.push(b'\n')?;
        text.extend_from_slice(&procedures.text)?;
        text.extend_from_slice(&entries.text)?;
        Ok(Reply::shown(text))
    }
}

/// Lines, and how many they are.
#[derive(Drop)]
struct Lines {
    count: u32,
    text: Vec<u8>,
}

/// The lines of the procedures, in order of definition.
fn procedure_lines(alloc: Global, engine: &Engine) -> Result<Lines, NoMemory>
    ensures count { IfOk result (λ lines. lines.count ≡ length engine.now.procedures) }
    ensures text { IfOk result (λ lines. lines.text.items ≡ flat_map procedure_line engine.now.procedures) }
{
    let mut text = Vec::new(alloc);
    for place in 0..u32::MAX {
        let Some(procedure) = engine.procedure(place) else {
            return Ok(Lines { count: place, text });
        };
        put_procedure(alloc, &mut text, procedure)?;
    }
    // No memory holds 2^32 procedures.
    Err(NoMemory)
}

/// The line of a procedure.
fn put_procedure(alloc: Global, text: &mut Vec<u8>, procedure: &Procedure) -> Result<(), NoMemory>
    ensures { OnOk result (text.new.items ≡ text.old.items ++ procedure_line (procedure_view procedure.now)) }
{
    text.extend_from_slice(&print_procedure(alloc, procedure)?)?;
    text.push(b'\n')?;
    Ok(())
}

/// The lines of the names, in order of place.
fn entry_lines(alloc: Global, engine: &Engine) -> Result<Lines, NoMemory>
    ensures count { IfOk result (λ lines. lines.count ≡ length engine.now.names.entries) }
    ensures text { IfOk result (λ lines. lines.text.items ≡ flat_map entry_line engine.now.names.entries) }
{
    let mut text = Vec::new(alloc);
    for place in 0..u32::MAX {
        let Some(entry) = engine.entry(place) else {
            return Ok(Lines { count: place, text });
        };
        put_entry(alloc, &mut text, entry)?;
    }
    // No memory holds 2^32 names.
    Err(NoMemory)
}

/// The line of a name.
fn put_entry(alloc: Global, text: &mut Vec<u8>, entry: Entry<'_>) -> Result<(), NoMemory>
    ensures { OnOk result (text.new.items ≡ text.old.items ++ listed_line (listed_of entry.entry)) }
{
    match entry {
        Entry::Source(name) => {
            text.extend_from_slice(b"source ")?;
            text.extend_from_slice(name.bytes())?;
        }
        Entry::Statement(name, written) => {
            text.extend_from_slice(&print_written(alloc, name, written)?)?;
        }
    }
    text.push(b'\n')?;
    Ok(())
}
