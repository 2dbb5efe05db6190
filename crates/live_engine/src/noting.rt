//! What an edit notes beside the names of a map, which leaves every layer as it is.

ghost use Rattle.std.specs.Prelude.{◌≡◌};
ghost use Rattle.map_nums.specs.Counts.{raised};
ghost use Rattle.edit_plans.specs.SourceCounts.{no_counts};
ghost use Rattle.kept_map.specs.Repairs.{counts_view};
ghost use Rattle.map_edits.specs.Pasts.{parts_of};
ghost use Rattle.kept_map.specs.Maps.{seen};
ghost use Rattle.kept_map.specs.Keeps.{IsKept};
ghost use Rattle.live_engine.specs.Inverses.{AcceptsBack, IsReverted, Fits};
ghost use Rattle.live_engine.specs.Notes.{edit_of_note, MayNote, IsNoted, SuitsNote, IsUnnoted};
ghost use Rattle.live_engine.specs.declared.inverses.Inverse.TheVariants as inverses;

use crate::edits::{Accepted, Refusal};
use crate::inverses::Inverse;
use kept_map::KeptMap;
use layer_tiles::Text;
use map_marks::{Mark, Taken};
use map_nums::{NoMemory, Value};
use map_waves::Counts;
use map_words::Name;
use statement_parser::Procedure as Given;
use std::alloc::Global;

/// A procedure, a label or a symbol.
#[derive(Drop)]
pub(crate) enum Note {
    Procedure(Given),
    Label(Name, Value, Text),
    Symbol(Name, Value, u8),
}

/// What a note took the place of.
#[derive(Drop)]
pub enum NoteBack {
    /// There was one procedure less.
    Procedure,
    /// The labels that one took the place of, with their places.
    Label(Vec<Taken>),
    /// The symbols, the same.
    Symbol(Vec<Taken>),
}

/// Puts a note into a map, and answers what it takes the place of. Where memory is wanted the map is as before.
fn put(map: &mut KeptMap, alloc: Global, note: Note) -> Result<NoteBack, NoMemory>
    requires { MayNote (seen map.old) note }
    ensures { IsNoted map.old map.new note result }
{
    match note {
        Note::Procedure(procedure) => {
            map.procedures.add(procedure)?;
            Ok(NoteBack::Procedure)
        }
        Note::Label(name, value, text) => {
            let before = map.labels.exchange(Mark { name, value, text })?;
            Ok(NoteBack::Label(before))
        }
        Note::Symbol(name, value, sign) => {
            let text = Text::of(alloc, &[sign])?;
            let before = map.symbols.exchange(Mark { name, value, text })?;
            Ok(NoteBack::Symbol(before))
        }
    }
}

/// Takes a note out of a map and gives back what it took the place of. Where memory is wanted the map is as before.
fn put_out(map: &mut KeptMap, back: NoteBack) -> Result<(), NoteBack>
    requires suits { SuitsNote (parts_of (seen map.old)) back }
    ensures { IsUnnoted map.old map.new back result }
{
    match back {
        NoteBack::Procedure => map.procedures.drop_last(),
        NoteBack::Label(before) => {
            if let Err(before) = map.labels.give_back(before) {
                return Err(NoteBack::Label(before));
            }
        }
        NoteBack::Symbol(before) => {
            if let Err(before) = map.symbols.give_back(before) {
                return Err(NoteBack::Symbol(before));
            }
        }
    }
    Ok(())
}

/// One more edit is counted, which looks at no statement.
fn count(map: &mut KeptMap) -> Accepted
    ensures map { map.new ≡ record map.old { number = raised map.old.number 1 } }
    ensures number { result.number ≡ map.new.number }
    ensures counts { counts_view result.counts ≡ no_counts }
{
    map.number = map.number.saturating_add(1);
    let counts = Counts {
        changed: 0,
        evaluated: 0,
        worked: 0,
    };
    Accepted {
        number: map.number,
        counts,
    }
}

/// Makes an edit that only notes something. It looks at no statement.
pub(crate) fn take_note(
    map: &mut KeptMap,
    alloc: Global,
    note: Note,
) -> Result<(Accepted, Inverse), Refusal>
    requires kept { IsKept map.old }
    requires may { MayNote (seen map.old) note }
    ensures accepts { AcceptsBack (seen map.old) (seen map.new) (edit_of_note note) result }
    ensures kept { IsKept map.new }
{
    let before = put(map, alloc, note)?;
    Ok((count(map), Inverse::Note(before)))
}

/// Takes back an edit that only noted something.
pub(crate) fn take_back(map: &mut KeptMap, back: NoteBack) -> Result<Accepted, Inverse>
    requires kept { IsKept map.old }
    requires fits { Fits map.old.extent (parts_of (seen map.old)) (inverses.Note back) }
    ensures reverted { IsReverted (seen map.old) (seen map.new) (inverses.Note back) result }
    ensures kept { IsKept map.new }
{
    match put_out(map, back) {
        Ok(()) => Ok(count(map)),
        Err(back) => Err(Inverse::Note(back)),
    }
}
