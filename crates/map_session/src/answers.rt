//! The answers to requests.
ghost use Rattle.std.specs.Prelude.{◌<◌, List, ℕ, Err, IfOk};
ghost use Rattle.layer_tiles.specs.Tallies.{IsUndivided};
ghost use Rattle.map_nums.specs.Grids.{Grid};
ghost use Rattle.statement_parser.specs.Formed.{IsRequest};
ghost use Rattle.statement_parser.specs.Views.{request_view};
ghost use Rattle.kept_map.specs.Asked.{TellsLayer};
ghost use Rattle.map_machine.specs.Answers.{answer_to};
ghost use Rattle.map_machine.specs.LayerAnswers.{of_layer};
ghost use Rattle.map_session.specs.Said.{Says};
ghost use Rattle.map_session.specs.Asked.{state_asked, ReadsFor};

use crate::replies::Reply;
use grid_text::Header;
use kept_map::Missing;
use layer_tiles::Tally;
use live_engine::Engine;
use map_machine::Kind;
use map_nums::NoMemory;
use map_words::Name;
use statement_parser::{Place, Request};
use std::alloc::Global;
use std::thread::Threads;
use tile_workers::{Crew, Gate};

/// Of what requests ask: the header texts of the first grid, the place, and the layers.
#[derive(Clone, Copy)]
pub(crate) struct Asked<'a> {
    pub header: &'a Header,
    pub place: Place,
    pub engine: &'a Engine,
}

impl Asked<'_> {
    /// Answers a request. Branches are tried by the workers at hand.
    pub(crate) fn answer<M: Tally + Send, G: Gate + Sync, R: Threads + Sync>(
        &self,
        crew: &Crew<'_, R, G>,
        request: &Request,
        tally: &mut M,
    ) -> Result<Reply, NoMemory>
        requires formed { IsRequest (request_view request.now) }
        requires whole { 1 < crew.now.workers → IsUndivided (M.counts tally.old) }
        ensures says { IfOk result (Says (answer_to (state_asked self.now) (request_view request.now)) Kind.Shown) }
        ensures reads { ReadsFor (state_asked self.now) (request_view request.now) (M.counts tally.old) (M.counts tally.new) }
    {
        let alloc = crew.alloc;
        match request {
            Request::Value { name, r, c } => self.value(alloc, name, *r, *c, tally),
            Request::Grid(name) => self.grid(alloc, name, tally),
            Request::Show(name) => self.show(alloc, name, tally),
            Request::Legend(name) => self.legend(alloc, name, tally),
            Request::Table { zones, values } => self.table(alloc, zones, values, tally),
            Request::Stamps(name) => self.stamps(alloc, name),
            Request::List => self.list(alloc),
            Request::Branch(branches) => self.branches(crew, branches, tally),
        }
    }

    /// To any request for a layer that is undefined.
    pub(crate) fn undefined(
        &self,
        alloc: Global,
        name: &Name,
        missing: Missing<'_>,
    ) -> Result<Reply, NoMemory>
        requires { TellsLayer self.now.engine.now name.now (Err missing) }
        ensures { (told : Grid → List ℕ) → IfOk result (Says (of_layer self.now.engine.now.names name.now told) Kind.Shown) }
    {
        Reply::undefined(alloc, name, missing.or(name))
    }
}
