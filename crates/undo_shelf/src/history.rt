//! What takes back the newest edits.

ghost use Rattle.std.specs.Prelude.{◌≡◌, ◌<◌, ◌≤◌, [], ◌∷◌, false, length, take, IfOk, OnOk, OnErr};
ghost use Rattle.layer_tiles.specs.Tallies.{IsUndivided};
ghost use Rattle.map_edits.specs.Pasts.{most_pasts, parts_of, with_past};
ghost use Rattle.map_edits.specs.Touches.{touch_of};
ghost use Rattle.live_engine.specs.Accepts.{Accepts, IsFormedEdit, ReadsWithin, edit_of};
ghost use Rattle.undo_shelf.specs.Histories.{AreChained, pasts_from, IsUndone, ReadsForUndo};

use circular_buffer::HeapCircularBuffer;
use layer_tiles::Tally;
use live_engine::{Accepted, Edit, Engine, Inverse, Refusal};
use map_nums::NoMemory;
use std::alloc::Global;
use std::marker::Model;
use std::thread::Threads;
use tile_workers::{Crew, Gate};

/// So many edits can be taken back.
const MOST: usize = 64;

/// What takes back the newest edits, the newest first; at most 64.
#[derive(Drop)]
pub struct History {
    inverses: HeapCircularBuffer<Inverse>,
}

impl Model for History {
    ghost use Rattle.std.specs.Prelude.{◌≡◌, ◌≤◌, List, length};
    ghost use Rattle.map_edits.specs.Pasts.{most_pasts};
    ghost use Rattle.live_engine.specs.declared.inverses.Inverse.{Inverse};

    ghost Value = { List Inverse };

    ghost view = { λ h. h.inverses.items };

    ghost invariant = { λ h. (h.inverses.capacity ≡ most_pasts) × (length h.inverses.items ≤ most_pasts) };
}

/// Why no edit is taken back.
#[derive(Clone, Copy, Debug, PartialEq, Eq)]
pub enum UndoRefusal {
    /// None is left.
    Nothing,
    NoMemory,
}

impl History {
    /// No edits, and room for 64.
    ///
    /// # Errors
    ///
    /// `NoMemory` alone.
    pub fn new(alloc: Global) -> Result<History, NoMemory>
        ensures { IfOk result (λ history. history ≡ []) }
    {
        let inverses = HeapCircularBuffer::with_capacity(alloc, MOST)?;
        Ok(History { inverses })
    }

    /// Lets all edits go: none can be taken back any more.
    pub fn clear(&mut self)
        ensures { self.new ≡ [] }
    {
        self.inverses.clear();
    }

    /// How many edits can be taken back; at most 64.
    pub fn count(&self) -> u32
        ensures count { result ≡ length self.now }
        ensures most { result ≤ 64 }
    {
        self.inverses.len() as u32
    }

    // Where 64 are kept the oldest is let go.
    fn keep(&mut self, inverse: Inverse)
        ensures { self.new ≡ take most_pasts (inverse ∷ self.old) }
    {
        self.inverses.push_front(inverse);
    }

    /// Makes an edit by the workers at hand, and keeps what takes it back. Where 64 are kept the oldest is let go.
    ///
    /// # Errors
    ///
    /// The first cause against the edit, or `NoMemory`. Then all is as before.
    pub fn apply<M: Tally + Send, G: Gate + Sync, R: Threads + Sync>(
        &mut self,
        engine: &mut Engine,
        crew: &Crew<'_, R, G>,
        cmd: Edit,
        tally: &mut M,
    ) -> Result<Accepted, Refusal>
        requires formed { IsFormedEdit cmd }
        requires chained { AreChained engine.old.names.size (parts_of engine.old) self.old }
        requires whole { 1 < crew.now.workers → IsUndivided (M.counts tally.old) }
        ensures accepts { Accepts engine.old engine.new (edit_of cmd) result }
        ensures pasts { OnOk result (pasts_from (parts_of engine.new) self.new ≡ with_past engine.old (touch_of (edit_of cmd)) (pasts_from (parts_of engine.old) self.old)) }
        ensures kept { OnErr result (self.new ≡ self.old) }
        ensures chained { AreChained engine.new.names.size (parts_of engine.new) self.new }
        ensures reads { ReadsWithin engine.old (edit_of cmd) (M.counts tally.old) (M.counts tally.new) }
    {
        let (accepted, inverse) = engine.edit_kept(crew, cmd, tally)?;
        self.keep(inverse);
        Ok(accepted)
    }

    /// Takes back the newest edit by the workers at hand. What it took the place of is put back; stamps and the number of edits go on.
    ///
    /// # Errors
    ///
    /// `Nothing` exactly where no edit is kept. `NoMemory`, and then all is as before.
    pub fn undo<M: Tally + Send, G: Gate + Sync, R: Threads + Sync>(
        &mut self,
        engine: &mut Engine,
        crew: &Crew<'_, R, G>,
        tally: &mut M,
    ) -> Result<Accepted, UndoRefusal>
        requires chained { AreChained engine.old.names.size (parts_of engine.old) self.old }
        requires whole { 1 < crew.now.workers → IsUndivided (M.counts tally.old) }
        ensures undone { IsUndone engine.old engine.new self.old self.new result }
        ensures chained { AreChained engine.new.names.size (parts_of engine.new) self.new }
        ensures reads { ReadsForUndo engine.old (pasts_from (parts_of engine.old) self.old) (M.counts tally.old) (M.counts tally.new) }
    {
        let Some(inverse) = self.inverses.pop_front() else {
            return Err(UndoRefusal::Nothing);
        };
        match engine.revert(crew, inverse, tally) {
            Ok(accepted) => Ok(accepted),
            Err(inverse) => {
                self.keep(inverse);
                Err(UndoRefusal::NoMemory)
            }
        }
    }
}
