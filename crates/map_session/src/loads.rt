//! The loads of a session.
ghost use Rattle.std.specs.Prelude.{◌≡◌, ◌≤◌, ◌<◌, false, Ok, IsTrue};
ghost use Rattle.layer_tiles.specs.Tallies.{RisesBy, IsUndivided};
ghost use Rattle.map_words.specs.Names.{is_plain};
ghost use Rattle.grid_text.specs.Reads.{held};
ghost use Rattle.map_machine.specs.Loads.{grid_load, read_load, state_for};
ghost use Rattle.map_machine.specs.LoadReads.{first_load_reads, next_load_reads, read_load_reads, grid_load_reads};
ghost use Rattle.map_session.specs.Answered.{Begins, BeginsAs, Loads, LoadsAs};

use crate::causes::{edit_cause, grid_cause};
use crate::replies::Reply;
use crate::rooms::ReplyRoom;
use crate::session::{Begun, FIRST_PLACE, Session};
use grid_text::{Grid, read_grid};
use layer_tiles::{Layer, Tally};
use live_engine::{Edit, Engine};
use map_machine::Kind;
use map_nums::NoMemory;
use map_words::Name;
use std::alloc::Global;
use std::thread::Threads;
use tile_workers::{Crew, Gate};
use undo_shelf::History;

impl Session {
    /// Loads the first grid, whose extent and header texts the session keeps. Its name is plain.
    ///
    /// # Errors
    ///
    /// `NoMemory` alone.
    pub fn begin<M: Tally + Send, G: Gate + Sync, R: Threads + Sync>(
        rt: &R,
        alloc: Global,
        name: Name,
        bytes: &[u8],
        workers: u32,
        gate: &G,
        tally: &mut M,
    ) -> Result<Begun, NoMemory>
        requires plain { IsTrue (is_plain name) }
        requires some { 1 ≤ workers }
        requires most { workers ≤ 64 }
        requires whole { 1 < workers → IsUndivided (M.counts tally.old) }
        ensures begins { Begins name bytes.now result }
        ensures reads { RisesBy (first_load_reads name bytes.now).looks (first_load_reads name bytes.now).picks (M.counts tally.old) (M.counts tally.new) }
    {
        let crew = Crew::new(rt, alloc, gate, workers);
        match read_grid(alloc, bytes, 1) {
            Ok(grid) => Session::begin_with(&crew, name, grid, tally),
            Err(refusal) => {
                let cause = grid_cause(alloc, refusal)?;
                Ok(Begun::Refused(Reply::load_refused(alloc, &name, &cause)?))
            }
        }
    }

    fn begin_with<M: Tally + Send, G: Gate + Sync, R: Threads + Sync>(
        crew: &Crew<'_, R, G>,
        name: Name,
        grid: Grid,
        tally: &mut M,
    ) -> Result<Begun, NoMemory>
        requires plain { IsTrue (is_plain name) }
        requires whole { 1 < crew.now.workers → IsUndivided (M.counts tally.old) }
        ensures begins { BeginsAs (read_load state_for name (Ok (held grid))) result }
        ensures reads { RisesBy (read_load_reads state_for name (Ok (held grid))).looks (read_load_reads state_for name (Ok (held grid))).picks (M.counts tally.old) (M.counts tally.new) }
    {
        let Grid { header, layer } = grid;
        let engine = Engine::new(crew.alloc, layer.extent());
        let history = History::new(crew.alloc)?;
        let mut session = Session {
            header,
            place: FIRST_PLACE,
            engine,
            history,
        };
        let reply = session.load_layer(crew, name, layer, tally)?;
        match reply.kind {
            Kind::Accepted => Ok(Begun::Ready(session, reply)),
            _ => Ok(Begun::Refused(reply)),
        }
    }

    /// Loads a further grid. Its name is plain.
    ///
    /// # Errors
    ///
    /// `NoMemory` alone, and then the session is as before.
    pub fn load<M: Tally + Send, G: Gate + Sync, R: Threads + Sync>(
        &mut self,
        rt: &R,
        alloc: Global,
        name: Name,
        bytes: &[u8],
        workers: u32,
        gate: &G,
        tally: &mut M,
    ) -> Result<Reply, NoMemory>
        requires plain { IsTrue (is_plain name) }
        requires some { 1 ≤ workers }
        requires most { workers ≤ 64 }
        requires whole { 1 < workers → IsUndivided (M.counts tally.old) }
        ensures loads { Loads self.old self.new name bytes.now result }
        ensures reads { RisesBy (next_load_reads self.old name bytes.now).looks (next_load_reads self.old name bytes.now).picks (M.counts tally.old) (M.counts tally.new) }
    {
        let crew = Crew::new(rt, alloc, gate, workers);
        match read_grid(alloc, bytes, 1) {
            Ok(grid) => self.load_layer(&crew, name, grid.layer, tally),
            Err(refusal) => {
                let cause = grid_cause(alloc, refusal)?;
                Reply::load_refused(alloc, &name, &cause)
            }
        }
    }

    /// Loads a layer that was made in memory. Its name is plain.
    ///
    /// # Errors
    ///
    /// `NoMemory` alone, and then the session is as before.
    pub fn load_layer<M: Tally + Send, G: Gate + Sync, R: Threads + Sync>(
        &mut self,
        crew: &Crew<'_, R, G>,
        name: Name,
        layer: Layer,
        tally: &mut M,
    ) -> Result<Reply, NoMemory>
        requires plain { IsTrue (is_plain name) }
        requires whole { 1 < crew.now.workers → IsUndivided (M.counts tally.old) }
        ensures loads { LoadsAs self.old self.new (grid_load self.old name (record { size = layer.size; cells = layer.cells })) result }
        ensures reads { RisesBy (grid_load_reads self.old name (record { size = layer.size; cells = layer.cells })).looks (grid_load_reads self.old name (record { size = layer.size; cells = layer.cells })).picks (M.counts tally.old) (M.counts tally.new) }
    {
        let room = ReplyRoom::new(crew.alloc)?;
        let edit = Edit::Load {
            name: name.copy(crew.alloc)?,
            layer,
        };
        match self.engine.edit_by(crew, edit, tally) {
            Ok(accepted) => {
                self.history.clear();
                Ok(room.filled(accepted))
            }
            Err(refusal) => {
                let cause = edit_cause(crew.alloc, &refusal)?;
                Reply::load_refused(crew.alloc, &name, &cause)
            }
        }
    }
}
