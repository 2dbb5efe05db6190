//! The answer to a request for a cell.
ghost use Rattle.std.specs.Prelude.{◌≡◌, IfOk};
ghost use Rattle.statement_parser.specs.Canonical.{cell_text};
ghost use Rattle.statement_parser.specs.Lines.{ask_value};
ghost use Rattle.map_machine.specs.Answers.{answer_to};
ghost use Rattle.map_machine.specs.LayerAnswers.{look_reply};
ghost use Rattle.map_session.specs.Said.{Says};
ghost use Rattle.map_session.specs.Asked.{state_asked, ReadsFor};
ghost use Rattle.what_if.specs.Tried.{look_view};

use crate::answers::Asked;
use crate::replies::Reply;
use itoa::Buffer;
use layer_tiles::{Cell, Tally};
use map_machine::Kind;
use map_nums::NoMemory;
use map_words::Name;
use std::alloc::Global;
use what_if::{Seen, look};

impl Asked<'_> {
    /// To `value`. One pick of a cell of the map.
    pub(crate) fn value<M: Tally>(
        &self,
        alloc: Global,
        name: &Name,
        r: u32,
        c: u32,
        tally: &mut M,
    ) -> Result<Reply, NoMemory>
        ensures says { IfOk result (Says (answer_to (state_asked self.now) (ask_value name.now r c)) Kind.Shown) }
        ensures reads { ReadsFor (state_asked self.now) (ask_value name.now r c) (M.counts tally.old) (M.counts tally.new) }
    {
        let seen = look(self.engine, alloc, name, r, c, tally)?;
        seen_reply(alloc, name, r, c, &seen)
    }
}

/// To a look at the cell in row `r` and column `c`.
pub(crate) fn seen_reply(
    alloc: Global,
    name: &Name,
    r: u32,
    c: u32,
    seen: &Seen,
) -> Result<Reply, NoMemory>
    ensures { IfOk result (Says (look_reply name.now r c (look_view seen.now)) Kind.Shown) }
{
    match seen {
        Seen::Cell(cell) => {
            let text = cell_text(alloc, *cell)?;
            Reply::value(alloc, name, r, c, &text)
        }
        Seen::Outside => Reply::value(alloc, name, r, c, b"outside"),
        Seen::Undefined(missing) => Reply::undefined(alloc, name, missing),
    }
}

fn cell_text(alloc: Global, cell: Cell) -> Result<Vec<u8>, NoMemory>
    ensures { IfOk result (λ text. text.items ≡ cell_text cell) }
{
    match cell.get() {
        None => Ok(Vec::from_slice(alloc, b"null")?),
        Some(value) => Ok(Vec::from_slice(alloc, Buffer::new().format(value).as_bytes())?),
    }
}
