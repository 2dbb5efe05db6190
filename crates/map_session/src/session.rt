//! A session over the layers of an engine.
ghost use Rattle.std.specs.Prelude.{◌≡◌, ◌≢◌, ◌≤◌, ◌<◌, false, None, Ok, IfOk};
ghost use Rattle.layer_tiles.specs.Tallies.{RisesBy, IsUndivided};
ghost use Rattle.statement_parser.specs.Formed.{IsEdit, IsRequest};
ghost use Rattle.statement_parser.specs.Views.{edit_view, request_view};
ghost use Rattle.map_edits.specs.Faults.{fault_of};
ghost use Rattle.map_edits.specs.GroupLaws.{IsLawful};
ghost use Rattle.map_edits.specs.Allowances.{edit_reads};
ghost use Rattle.map_edits.specs.Counted.{accept_counted};
ghost use Rattle.map_edits.specs.LineEdits.{line_edit};
ghost use Rattle.map_machine.specs.LineReads.{line_reads, undo_reads};
ghost use Rattle.map_machine.specs.Answers.{answer_to};
ghost use Rattle.map_session.specs.Asked.{ReadsFor};
ghost use Rattle.map_machine.specs.Steps.{edited, later, undone};

use crate::answers::Asked;
use crate::causes::{edit_cause, line_cause};
use crate::replies::Reply;
use crate::rooms::ReplyRoom;
use grid_text::Header;
use layer_tiles::Tally;
use live_engine::{Edit, Engine};
use map_lines::parse_line;
use map_machine::Kind;
use map_nums::NoMemory;
use statement_parser::{Language, Line, LineEdit, Place, Request};
use std::alloc::Global;
use std::marker::Model;
use std::thread::Threads;
use tile_workers::{Crew, Gate};
use undo_shelf::{History, UndoRefusal};

/// A session, seen as a state of the machine.
#[derive(Drop)]
pub struct Session {
    pub(crate) header: Header,
    pub(crate) place: Place,
    pub(crate) engine: Engine,
    pub(crate) history: History,
}

impl Model for Session {
    ghost use Rattle.map_edits.specs.Pasts.{parts_of};
    ghost use Rattle.map_machine.specs.States.{MapState};
    ghost use Rattle.undo_shelf.specs.Histories.{AreChained, pasts_from};

    ghost Value = { MapState };

    ghost view = { λ s. record { header = s.header; place = s.place; whole = s.engine; pasts = pasts_from (parts_of s.engine) s.history } };

    ghost invariant = { λ s. AreChained s.engine.names.size (parts_of s.engine) s.history };
}

/// How a session began.
#[derive(Drop)]
pub enum Begun {
    /// The grid was loaded.
    Ready(Session, Reply),
    /// The load was refused.
    Refused(Reply),
}

/// Where a session begins.
pub(crate) const FIRST_PLACE: Place = Place {
    language: Language::One,
    early: true,
};

impl Session {
    ghost use Rattle.map_session.specs.Answered.{Steps};
    ghost use Rattle.map_session.specs.Said.{Does, Says};

    /// How many edits were accepted. No state that is reached has a cycle, or a value that no cell may hold.
    pub fn number(&self) -> u64
        ensures number { result ≡ self.now.whole.names.number }
        ensures lawful { IsLawful self.now.whole }
        ensures faultless { fault_of self.now.whole.names ≡ None }
    {
        self.engine.number()
    }

    /// Answers a line without its line end, of any length.
    ///
    /// # Errors
    ///
    /// `NoMemory` alone, and then the session is as before.
    pub fn step<M: Tally + Send, G: Gate + Sync, R: Threads + Sync>(
        &mut self,
        rt: &R,
        alloc: Global,
        line: &[u8],
        workers: u32,
        gate: &G,
        tally: &mut M,
    ) -> Result<Reply, NoMemory>
        requires some { 1 ≤ workers }
        requires most { workers ≤ 64 }
        requires whole { 1 < workers → IsUndivided (M.counts tally.old) }
        ensures steps { Steps self.old self.new line.now result }
        ensures kept { IfOk result (λ reply. reply.kind ≢ Kind.Accepted → reply.kind ≢ Kind.Model → self.new ≡ self.old) }
        ensures set { IfOk result (λ reply. reply.kind ≡ Kind.Model → self.new ≡ record self.old { place = later self.new.place.language }) }
        ensures reads { RisesBy (line_reads self.old line.now).looks (line_reads self.old line.now).picks (M.counts tally.old) (M.counts tally.new) }
    {
        let crew = Crew::new(rt, alloc, gate, workers);
        match parse_line(alloc, line, self.place) {
            Ok(Line::Blank) => Ok(Reply::empty(alloc, Kind::Silent)),
            Ok(Line::Edit(edit)) => self.edit(&crew, edit, tally),
            Ok(Line::Undo) => self.undo(&crew, tally),
            Ok(Line::Ask(request)) => self.answer(&crew, &request, tally),
            Ok(Line::Model(language)) => {
                self.place = later(language);
                Ok(Reply::empty(alloc, Kind::Model))
            }
            Ok(Line::Quit) => Ok(Reply::empty(alloc, Kind::Quit)),
            Err(refusal) => {
                let cause = line_cause(alloc, refusal)?;
                Reply::refused(alloc, &cause)
            }
        }
    }

    // The reply has its room before the edit, so that an accepted edit is never without its reply.
    fn edit<M: Tally + Send, G: Gate + Sync, R: Threads + Sync>(
        &mut self,
        crew: &Crew<'_, R, G>,
        edit: LineEdit,
        tally: &mut M,
    ) -> Result<Reply, NoMemory>
        requires formed { IsEdit (edit_view edit) }
        requires whole { 1 < crew.now.workers → IsUndivided (M.counts tally.old) }
        ensures does { Does self.old self.new (edited self.old (line_edit (edit_view edit)) (accept_counted self.old.whole (line_edit (edit_view edit)))) result }
        ensures reads { RisesBy (edit_reads self.old.whole (line_edit (edit_view edit))).looks (edit_reads self.old.whole (line_edit (edit_view edit))).picks (M.counts tally.old) (M.counts tally.new) }
    {
        let room = ReplyRoom::new(crew.alloc)?;
        match self
            .history
            .apply(&mut self.engine, crew, Edit::Line(edit), tally)
        {
            Ok(accepted) => {
                self.place = later(self.place.language);
                Ok(room.filled(accepted))
            }
            Err(refusal) => {
                let cause = edit_cause(crew.alloc, &refusal)?;
                Reply::refused(crew.alloc, &cause)
            }
        }
    }

    // The reply has its room before the edit is taken back.
    fn undo<M: Tally + Send, G: Gate + Sync, R: Threads + Sync>(
        &mut self,
        crew: &Crew<'_, R, G>,
        tally: &mut M,
    ) -> Result<Reply, NoMemory>
        requires whole { 1 < crew.now.workers → IsUndivided (M.counts tally.old) }
        ensures does { Does self.old self.new (undone self.old self.old.pasts) result }
        ensures reads { RisesBy (undo_reads self.old self.old.pasts).looks (undo_reads self.old self.old.pasts).picks (M.counts tally.old) (M.counts tally.new) }
    {
        let room = ReplyRoom::new(crew.alloc)?;
        match self.history.undo(&mut self.engine, crew, tally) {
            Ok(accepted) => Ok(room.filled(accepted)),
            Err(UndoRefusal::Nothing) => Reply::refused(crew.alloc, b"nothing"),
            Err(UndoRefusal::NoMemory) => Err(NoMemory),
        }
    }

    fn answer<M: Tally + Send, G: Gate + Sync, R: Threads + Sync>(
        &self,
        crew: &Crew<'_, R, G>,
        request: &Request,
        tally: &mut M,
    ) -> Result<Reply, NoMemory>
        requires formed { IsRequest (request_view request.now) }
        requires whole { 1 < crew.now.workers → IsUndivided (M.counts tally.old) }
        ensures says { IfOk result (Says (answer_to self.now (request_view request.now)) Kind.Shown) }
        ensures reads { ReadsFor self.now (request_view request.now) (M.counts tally.old) (M.counts tally.new) }
    {
        let asked = Asked {
            header: &self.header,
            place: self.place,
            engine: &self.engine,
        };
        asked.answer(crew, request, tally)
    }
}

/// A place of this language, at which no line sets it.
fn later(language: Language) -> Place
    ensures { result ≡ later language }
{
    Place {
        language,
        early: false,
    }
}
