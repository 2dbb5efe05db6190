//! The engine.

ghost use Rattle.std.specs.Prelude.{◌≡◌, ◌<◌, ◌≤◌, false, None, IfOk, option_copied, option_map, slice_get};
ghost use Rattle.layer_tiles.specs.Tallies.{RisesBy, IsUndivided};
ghost use Rattle.statement_parser.specs.Formed.{IsEdit};
ghost use Rattle.statement_parser.specs.Views.{edit_view};
ghost use Rattle.statement_parser.specs.Procedures.{procedure_view};
ghost use Rattle.map_edits.specs.Faults.{fault_of};
ghost use Rattle.map_edits.specs.GroupLaws.{IsLawful};
ghost use Rattle.map_edits.specs.LineEdits.{line_edit};
ghost use Rattle.map_edits.specs.Pasts.{parts_of};
ghost use Rattle.map_edits.specs.WholeEdits.{put_back};
ghost use Rattle.map_edits.specs.WholeStates.{no_names};
ghost use Rattle.kept_map.specs.Maps.{seen};
ghost use Rattle.kept_map.specs.Keeps.{IsKept};
ghost use Rattle.kept_map.specs.Asked.{TellsLayer};
ghost use Rattle.live_engine.specs.Accepts.{Accepts, IsFormedEdit, ReadsWithin, edit_of};
ghost use Rattle.live_engine.specs.Inverses.{AcceptsBack, Fits, IsReverted, past_of};
ghost use Rattle.live_engine.specs.Listed.{listed, listed_of};

use crate::adding::{load, new_layer};
use crate::defining::define;
use crate::dropping::drop_name;
use crate::edits::{Accepted, Edit, Refusal};
use crate::inverses::Inverse;
use crate::marks::{label, symbol};
use crate::painting::Rectangle;
use crate::procedures::define_procedure;
use crate::repainting::paint;
use crate::reverting::revert;
use kept_map::{Item, KeptMap, Missing};
use layer_tiles::{Extent, Layer, Tally};
use map_marks::Marks;
use map_nums::NoMemory;
use map_words::Name;
use statement_parser::{LineEdit, Procedure, Written};
use std::alloc::Global;
use std::marker::Model;
use std::thread::Threads;
use tile_workers::{Crew, Gate};

/// A map, seen as the whole state of the map machine.
#[derive(Drop)]
pub struct Engine {
    map: KeptMap,
}

impl Model for Engine {
    ghost use Rattle.map_edits.specs.WholeStates.{WholeState};
    ghost use Rattle.kept_map.specs.Maps.{seen};
    ghost use Rattle.kept_map.specs.Keeps.{IsKept};

    ghost Value = { WholeState };

    ghost view = { λ e. seen e.map };

    ghost invariant = { λ e. IsKept e.map };
}

/// A name in order of place.
#[derive(Clone, Copy)]
pub enum Entry<'a> {
    Source(&'a Name),
    Statement(&'a Name, &'a Written),
}

/// Makes the edit of a line.
fn apply_line<M: Tally + Send, G: Gate + Sync, R: Threads + Sync>(
    map: &mut KeptMap,
    crew: &Crew<'_, R, G>,
    line: LineEdit,
    tally: &mut M,
) -> Result<(Accepted, Inverse), Refusal>
    requires kept { IsKept map.old }
    requires formed { IsEdit (edit_view line) }
    requires whole { 1 < crew.now.workers → IsUndivided (M.counts tally.old) }
    ensures accepts { AcceptsBack (seen map.old) (seen map.new) (line_edit (edit_view line)) result }
    ensures kept { IsKept map.new }
    ensures reads { ReadsWithin (seen map.old) (line_edit (edit_view line)) (M.counts tally.old) (M.counts tally.new) }
{
    match line {
        LineEdit::Define { name, written } => { define(map, crew, name, written, tally) }
        LineEdit::Procedure(procedure) => { define_procedure(map, crew.alloc, procedure) }
        LineEdit::Paint {
            name,
            r1,
            c1,
            r2,
            c2,
            cell,
        } => {
            let rectangle = Rectangle {
                top: r1,
                left: c1,
                bottom: r2,
                right: c2,
            };
            paint(map, crew, name, rectangle, cell, tally)
        }
        LineEdit::New { name, cell } => { new_layer(map, crew, name, cell, tally) }
        LineEdit::Drop { name } => drop_name(map, crew, name, tally),
        LineEdit::Label { name, value, text } => label(map, crew.alloc, name, value, text),
        LineEdit::Symbol { name, value, sign } => symbol(map, crew.alloc, name, value, sign),
    }
}

/// Makes an edit.
fn apply<M: Tally + Send, G: Gate + Sync, R: Threads + Sync>(
    map: &mut KeptMap,
    crew: &Crew<'_, R, G>,
    cmd: Edit,
    tally: &mut M,
) -> Result<(Accepted, Inverse), Refusal>
    requires kept { IsKept map.old }
    requires formed { IsFormedEdit cmd }
    requires whole { 1 < crew.now.workers → IsUndivided (M.counts tally.old) }
    ensures accepts { AcceptsBack (seen map.old) (seen map.new) (edit_of cmd) result }
    ensures kept { IsKept map.new }
    ensures reads { ReadsWithin (seen map.old) (edit_of cmd) (M.counts tally.old) (M.counts tally.new) }
{
    match cmd {
        Edit::Load { name, layer } => load(map, crew, name, layer, tally),
        Edit::Line(line) => apply_line(map, crew, line, tally),
    }
}

impl Engine {
    /// A map without names. It takes no memory.
    pub fn new(alloc: Global, extent: Extent) -> Engine
        ensures { result ≡ no_names extent }
    {
        Engine {
            map: KeptMap::new(alloc, extent),
        }
    }

    /// An engine of the same state, which is edited on its own. Nothing is lent, and nothing is counted as read.
    ///
    /// # Errors
    ///
    /// `NoMemory` alone.
    pub fn copy(&self, alloc: Global) -> Result<Engine, NoMemory>
        ensures { IfOk result (λ engine. engine ≡ self.now) }
    {
        let map = self.map.copy(alloc)?;
        Ok(Engine { map })
    }

    /// Makes an edit by so many workers, 1 to 64, and answers its number and its counts.
    ///
    /// # Errors
    ///
    /// The first cause against the edit, or `NoMemory`. Then all is as before.
    pub fn edit<M: Tally + Send, G: Gate + Sync, R: Threads + Sync>(
        &mut self,
        rt: &R,
        alloc: Global,
        cmd: Edit,
        workers: u32,
        gate: &G,
        tally: &mut M,
    ) -> Result<Accepted, Refusal>
        requires formed { IsFormedEdit cmd }
        requires some { 1 ≤ workers }
        requires most { workers ≤ 64 }
        requires whole { 1 < workers → IsUndivided (M.counts tally.old) }
        ensures accepts { Accepts self.old self.new (edit_of cmd) result }
        ensures reads { ReadsWithin self.old (edit_of cmd) (M.counts tally.old) (M.counts tally.new) }
    {
        let crew = Crew::new(rt, alloc, gate, workers);
        self.edit_by(&crew, cmd, tally)
    }

    /// Makes an edit by the workers at hand, as [`Engine::edit`] does, with its errors.
    pub fn edit_by<M: Tally + Send, G: Gate + Sync, R: Threads + Sync>(
        &mut self,
        crew: &Crew<'_, R, G>,
        cmd: Edit,
        tally: &mut M,
    ) -> Result<Accepted, Refusal>
        requires formed { IsFormedEdit cmd }
        requires whole { 1 < crew.now.workers → IsUndivided (M.counts tally.old) }
        ensures accepts { Accepts self.old self.new (edit_of cmd) result }
        ensures reads { ReadsWithin self.old (edit_of cmd) (M.counts tally.old) (M.counts tally.new) }
    {
        match self.edit_kept(crew, cmd, tally) {
            Ok((accepted, _)) => Ok(accepted),
            Err(refusal) => Err(refusal),
        }
    }

    /// Makes an edit as [`Engine::edit_by`] does, with its errors, and answers what takes it back as well.
    pub fn edit_kept<M: Tally + Send, G: Gate + Sync, R: Threads + Sync>(
        &mut self,
        crew: &Crew<'_, R, G>,
        cmd: Edit,
        tally: &mut M,
    ) -> Result<(Accepted, Inverse), Refusal>
        requires formed { IsFormedEdit cmd }
        requires whole { 1 < crew.now.workers → IsUndivided (M.counts tally.old) }
        ensures accepts { AcceptsBack self.old self.new (edit_of cmd) result }
        ensures reads { ReadsWithin self.old (edit_of cmd) (M.counts tally.old) (M.counts tally.new) }
    {
        apply(&mut self.map, crew, cmd, tally)
    }

    /// Takes an edit back by the workers at hand: what it took the place of is put back, stamps and the number of edits go on.
    /// Where memory is wanted all is as before, and what takes the edit back is handed back.
    pub fn revert<M: Tally + Send, G: Gate + Sync, R: Threads + Sync>(
        &mut self,
        crew: &Crew<'_, R, G>,
        inverse: Inverse,
        tally: &mut M,
    ) -> Result<Accepted, Inverse>
        requires fits { Fits self.old.names.size (parts_of self.old) inverse }
        requires whole { 1 < crew.now.workers → IsUndivided (M.counts tally.old) }
        ensures reverted { IsReverted self.old self.new inverse result }
        ensures reads { ReadsWithin self.old (put_back (past_of inverse (parts_of self.old))) (M.counts tally.old) (M.counts tally.new) }
    {
        revert(&mut self.map, crew, inverse, tally)
    }

    /// How many edits were accepted; at most 2^64-1. No state that is reached has a cycle, or a fault.
    pub fn number(&self) -> u64
        ensures number { result ≡ self.now.names.number }
        ensures lawful { IsLawful self.now }
        ensures faultless { fault_of self.now.names ≡ None }
    {
        self.map.number
    }

    /// The rows and columns of the map.
    pub fn extent(&self) -> Extent
        ensures { result ≡ self.now.names.size }
    {
        self.map.extent
    }

    /// The layer of a name, plain or dotted, or why it has none.
    pub fn layer(&self, name: &Name) -> Result<&Layer, Missing<'_>>
        ensures tells { TellsLayer self.now name.now result }
        ensures size { IfOk result (λ layer. layer.now.size ≡ self.now.names.size) }
    {
        self.map.layer(name)
    }

    /// The name at a place, none past the last.
    pub fn entry(&self, place: u32) -> Option<Entry<'_>>
        ensures { option_map listed_of result ≡ option_map listed (slice_get self.now.names.entries place) }
    {
        match self.map.names.get_index(place as usize) {
            None => None,
            Some((name, Item::Source)) => Some(Entry::Source(name)),
            Some((name, Item::Statement { written, .. })) => Some(Entry::Statement(name, written)),
        }
    }

    /// The procedure at a place, none past the last.
    pub fn procedure(&self, place: u32) -> Option<&Procedure>
        ensures { option_map procedure_view (option_copied result) ≡ slice_get self.now.procedures place }
    {
        self.map.procedures.get(place)
    }

    /// The labels of all layers.
    pub fn labels(&self) -> &Marks
        ensures { result.now ≡ self.now.labels }
    {
        &self.map.labels
    }

    /// The symbols of all layers. A `symbol` line gives a text of one byte, which no clause here says.
    pub fn symbols(&self) -> &Marks
        ensures { result.now ≡ self.now.symbols }
    {
        &self.map.symbols
    }
}
