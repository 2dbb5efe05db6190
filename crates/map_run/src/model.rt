//! The model file: its lines are played before the session.
ghost use Rattle.std.specs.Prelude.{◌≡◌, ℕ, List, Option, Err, Vec, IfOk, IsTrue};
ghost use Rattle.std.specs.declared.alloc.Global.{Global as AllGlobal};
ghost use Rattle.map_machine.specs.Lines.{lines_of, last_line};
ghost use Rattle.map_machine.specs.ModelFiles.{long_model_reply};
ghost use Rattle.map_machine.specs.States.{MapState};
ghost use Rattle.map_outside.specs.Causes.{FetchCounts};
ghost use Rattle.map_outside.specs.Contents.{Files, Fetches};
ghost use Rattle.layer_tiles.specs.Tallies.{TallyState, KeepsParts, IsUndivided};
ghost use Rattle.map_run.specs.FaultCounts.{RunCounts};
ghost use Rattle.map_machine.specs.Loads.{turned_away};
ghost use Rattle.map_run.specs.Loads.{Loads, LoadsAs, model_lines_stage, model_file_stage};
ghost use Rattle.map_run.specs.Models.{ModelGoes};
ghost use Rattle.map_run.specs.Shown.{progress};
ghost use Rattle.map_run.specs.Stages.{Comes};
ghost use Rattle.map_run.specs.Stops.{status_of};

use crate::lines::{Fed, cut_line, put_reply};
use crate::loads::refuse;
use crate::piece::without_return;
use crate::setup::Setup;
use crate::stop::Stop;
use itoa::Buffer;
use layer_tiles::Tally;
use map_machine::Kind;
use map_nums::NoMemory;
use map_outside::{FetchFault, Shelf, Sink};
use map_session::Session;
use std::alloc::Global;
use std::thread::Threads;
use tile_workers::Gate;

#[tactic(auto, unfolding(map_machine::specs::ModelFiles::long_model_reply))]
fn long_model_text(alloc: Global, most: u64) -> Result<Vec<u8>, NoMemory>
    ensures { IfOk result (λ text. text.items ≡ long_model_reply most) }
{
    let mut text = Vec::from_slice(alloc, b"refused model long ")?;
    text.extend_from_slice(Buffer::new().format(most).as_bytes())?;
    text.push(b'\n')?;
    Ok(text)
}

// Answers a line of the file. A refused one stops the run.
fn play_line<K: Sink, M: Tally + Send, G: Gate + Sync, R: Threads + Sync>(
    setup: &Setup<'_, G, R>,
    session: &mut Session,
    line: &[u8],
    sink: &mut K,
    tally: &mut M,
) -> Result<Fed, Stop>
    requires whole { IsUndivided (M.counts tally.old) }
    ensures counts { (shelf source : ℕ) → RunCounts shelf shelf source source (K.faults sink.old) (K.faults sink.new) (status_of result) }
    ensures parts { KeepsParts (M.counts tally.old) (M.counts tally.new) }
    ensures goes { ModelGoes session.old session.new line.now
        (progress K.held K.faults sink.old (M.counts tally.old)) (progress K.held K.faults sink.new (M.counts tally.new)) result }
{
    let reply = session.step(
        setup.crew.rt,
        setup.crew.alloc,
        line,
        setup.crew.workers(),
        setup.crew.gate,
        tally,
    )?;
    match reply.kind {
        Kind::Quit => Ok(Fed::Quit),
        Kind::Refused => {
            put_reply(sink, &reply.bytes)?;
            Err(Stop::Load)
        }
        _ => {
            put_reply(sink, &reply.bytes)?;
            Ok(Fed::More)
        }
    }
}

// Answers what stands after the last line feed.
fn play_last<K: Sink, M: Tally + Send, G: Gate + Sync, R: Threads + Sync>(
    setup: &Setup<'_, G, R>,
    mut session: Session,
    bytes: &[u8],
    sink: &mut K,
    tally: &mut M,
) -> Result<Session, Stop>
    requires whole { IsUndivided (M.counts tally.old) }
    ensures counts { (shelf source : ℕ) → RunCounts shelf shelf source source (K.faults sink.old) (K.faults sink.new) (status_of result) }
    ensures parts { KeepsParts (M.counts tally.old) (M.counts tally.new) }
    ensures loads { Comes (model_lines_stage session (last_line bytes.now))
        (progress K.held K.faults sink.old (M.counts tally.old)) (progress K.held K.faults sink.new (M.counts tally.new)) result }
{
    if bytes.is_empty() {
        return Ok(session);
    }
    play_line(setup, &mut session, bytes, sink, tally)?;
    Ok(session)
}

// Plays the lines of the file, up to one that is refused or ends the file's part.
fn play_lines<K: Sink, M: Tally + Send, G: Gate + Sync, R: Threads + Sync>(
    setup: &Setup<'_, G, R>,
    mut session: Session,
    bytes: &[u8],
    sink: &mut K,
    tally: &mut M,
) -> Result<Session, Stop>
    requires whole { IsUndivided (M.counts tally.old) }
    ensures counts { (shelf source : ℕ) → RunCounts shelf shelf source source (K.faults sink.old) (K.faults sink.new) (status_of result) }
    ensures parts { KeepsParts (M.counts tally.old) (M.counts tally.new) }
    ensures loads { Comes (model_lines_stage session (lines_of bytes.now))
        (progress K.held K.faults sink.old (M.counts tally.old)) (progress K.held K.faults sink.new (M.counts tally.new)) result }
{
    let mut rest = bytes;
    while let Some((line, further)) = cut_line(rest) {
        match play_line(setup, &mut session, without_return(line), sink, tally)? {
            Fed::More => rest = further,
            Fed::Quit => return Ok(session),
        }
    }
    play_last(setup, session, rest, sink, tally)
}

// Refuses a file that is too long.
fn refuse_long<K: Sink>(alloc: Global, most: u64, sink: &mut K) -> Result<Session, Stop>
    ensures counts { (shelf source : ℕ) → RunCounts shelf shelf source source (K.faults sink.old) (K.faults sink.new) (status_of result) }
    ensures loads { LoadsAs (turned_away (long_model_reply most)) (K.held sink.old) (K.held sink.new) result }
{
    let text = long_model_text(alloc, most)?;
    refuse(sink, &text)
}

// Stops the run, since the file was not fetched; one that is too long is refused.
fn not_fetched<K: Sink>(
    alloc: Global,
    most: u64,
    fault: FetchFault,
    sink: &mut K,
) -> Result<Session, Stop>
    ensures counts { (before now source : ℕ) → FetchCounts {T = Vec ℕ AllGlobal} before now (Err fault) → RunCounts before now source source (K.faults sink.old) (K.faults sink.new) (status_of result) }
    ensures loads { (files : Option Files) (session : MapState) (file : List ℕ) (tally : TallyState) → Fetches files file most (Err fault) → Loads files (λ f. model_file_stage most (f file) session)
        (progress K.held K.faults sink.old tally) (progress K.held K.faults sink.new tally) result }
{
    match fault {
        FetchFault::Long => refuse_long(alloc, most, sink),
        FetchFault::Failed => Err(Stop::ShelfFault),
        FetchFault::NoMemory => Err(Stop::NoMemory),
    }
}

/// Fetches the model file and plays its lines, up to one that is refused or ends the file's part.
pub fn load_model<F: Shelf, K: Sink, M: Tally + Send, G: Gate + Sync, R: Threads + Sync>(
    setup: &Setup<'_, G, R>,
    session: Session,
    file: &str,
    shelf: &mut F,
    sink: &mut K,
    tally: &mut M,
) -> Result<Session, Stop>
    requires serves { IsTrue (F.serves shelf.old file.now) }
    requires whole { IsUndivided (M.counts tally.old) }
    ensures counts { (source : ℕ) → RunCounts (F.faults shelf.old) (F.faults shelf.new) source source (K.faults sink.old) (K.faults sink.new) (status_of result) }
    ensures parts { KeepsParts (M.counts tally.old) (M.counts tally.new) }
    ensures loads { Loads (F.files shelf.old) (λ f. model_file_stage setup.now.limits.file (f file.now) session)
        (progress K.held K.faults sink.old (M.counts tally.old)) (progress K.held K.faults sink.new (M.counts tally.new)) result }
{
    match shelf.fetch(setup.crew.alloc, file, setup.limits.file) {
        Ok(bytes) => play_lines(setup, session, &bytes, sink, tally),
        Err(fault) => not_fetched(setup.crew.alloc, setup.limits.file, fault, sink),
    }
}
