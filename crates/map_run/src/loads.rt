//! One load: its file is fetched and loaded, and its reply is put.
ghost use Rattle.std.specs.Prelude.{◌≡◌, ℕ, List, Option, None, Some, Err, Vec, IfOk, IsTrue};
ghost use Rattle.std.specs.declared.alloc.Global.{Global as AllGlobal};
ghost use Rattle.map_words.specs.Names.{is_plain};
ghost use Rattle.map_machine.specs.Loads.{Opened, ready, turned_away, first_load, next_load, long_file_reply};
ghost use Rattle.map_machine.specs.LoadReads.{first_load_reads, next_load_reads};
ghost use Rattle.map_machine.specs.States.{MapState};
ghost use Rattle.map_session.specs.Answered.{Opens};
ghost use Rattle.map_outside.specs.Causes.{FetchCounts};
ghost use Rattle.map_outside.specs.Contents.{Files, Fetches};
ghost use Rattle.layer_tiles.specs.Tallies.{TallyState, KeepsParts, IsUndivided};
ghost use Rattle.map_run.specs.FaultCounts.{RunCounts};
ghost use Rattle.map_run.specs.Loads.{Loads, LoadsAs, load_on, load_reads_on, opened_stage, file_stage};
ghost use Rattle.map_run.specs.Shown.{progress};
ghost use Rattle.map_run.specs.Stages.{Comes};
ghost use Rattle.map_run.specs.Stops.{status_of};

use crate::forms::Pair;
use crate::lines::put_reply;
use crate::setup::Setup;
use crate::stop::Stop;
use itoa::Buffer;
use layer_tiles::Tally;
use map_machine::Kind;
use map_nums::NoMemory;
use map_outside::{FetchFault, PutFault, Shelf, Sink};
use map_session::{Begun, Reply, Session};
use map_words::{Name, NameRefusal};
use std::alloc::Global;
use std::thread::Threads;
use tile_workers::Gate;

#[tactic(auto, using(crate::proofs::LoadLemmas::long_file_bytes))]
fn long_file_text(alloc: Global, name: &str, most: u64) -> Result<Vec<u8>, NoMemory>
    ensures { IfOk result (λ text. text.items ≡ long_file_reply most name.now) }
{
    let mut text = Vec::from_slice(alloc, b"refused load ")?;
    text.extend_from_slice(name.as_bytes())?;
    text.extend_from_slice(b" long ")?;
    text.extend_from_slice(Buffer::new().format(most).as_bytes())?;
    text.push(b'\n')?;
    Ok(text)
}

/// A name that is known to be plain.
pub fn plain_name(alloc: Global, name: &str) -> Result<Name, NoMemory>
    requires { IsTrue (is_plain name.now) }
    ensures { IfOk result (λ n. n ≡ name.now) }
{
    match Name::plain(alloc, name.as_bytes()) {
        Ok(name) => Ok(name),
        Err(NameRefusal::NoMemory) => Err(NoMemory),
        Err(NameRefusal::Form) => unreachable!(),
    }
}

/// Puts the reply to a load that was accepted.
pub fn accept<K: Sink>(session: Session, sink: &mut K, reply: &[u8]) -> Result<Session, Stop>
    ensures counts { (shelf source : ℕ) → RunCounts shelf shelf source source (K.faults sink.old) (K.faults sink.new) (status_of result) }
    ensures loads { LoadsAs (ready session reply.now) (K.held sink.old) (K.held sink.new) result }
{
    put_reply(sink, reply)?;
    Ok(session)
}

/// Puts the reply to a load that was refused, and stops.
pub fn refuse<K: Sink>(sink: &mut K, reply: &[u8]) -> Result<Session, Stop>
    ensures counts { (shelf source : ℕ) → RunCounts shelf shelf source source (K.faults sink.old) (K.faults sink.new) (status_of result) }
    ensures loads { LoadsAs (turned_away reply.now) (K.held sink.old) (K.held sink.new) result }
{
    match put_reply(sink, reply) {
        Ok(()) => Err(Stop::Load),
        Err(PutFault::Failed) => Err(Stop::SinkFault),
        Err(PutFault::NoMemory) => Err(Stop::NoMemory),
    }
}

/// Puts the reply to a load. The session goes on where the load was accepted, and the run stops where it was refused.
pub fn put_loaded<K: Sink>(session: Session, reply: &Reply, sink: &mut K) -> Result<Session, Stop>
    ensures counts { (shelf source : ℕ) → RunCounts shelf shelf source source (K.faults sink.old) (K.faults sink.new) (status_of result) }
    ensures loads { (old : MapState) (o : Opened) → Opens old session reply.now o → LoadsAs o (K.held sink.old) (K.held sink.new) result }
{
    match reply.kind {
        Kind::Accepted => accept(session, sink, &reply.bytes),
        _ => refuse(sink, &reply.bytes),
    }
}

// Refuses a file that is too long.
fn refuse_long<K: Sink>(alloc: Global, name: &str, most: u64, sink: &mut K) -> Result<Session, Stop>
    ensures counts { (shelf source : ℕ) → RunCounts shelf shelf source source (K.faults sink.old) (K.faults sink.new) (status_of result) }
    ensures loads { LoadsAs (turned_away (long_file_reply most name.now)) (K.held sink.old) (K.held sink.new) result }
{
    let text = long_file_text(alloc, name, most)?;
    refuse(sink, &text)
}

// Loads the bytes of the first file.
fn load_first<K: Sink, M: Tally + Send, G: Gate + Sync, R: Threads + Sync>(
    setup: &Setup<'_, G, R>,
    name: Name,
    bytes: &[u8],
    sink: &mut K,
    tally: &mut M,
) -> Result<Session, Stop>
    requires plain { IsTrue (is_plain name) }
    requires whole { IsUndivided (M.counts tally.old) }
    ensures counts { (shelf source : ℕ) → RunCounts shelf shelf source source (K.faults sink.old) (K.faults sink.new) (status_of result) }
    ensures parts { KeepsParts (M.counts tally.old) (M.counts tally.new) }
    ensures loads { Comes (opened_stage (first_load_reads name bytes.now) (first_load name bytes.now))
        (progress K.held K.faults sink.old (M.counts tally.old)) (progress K.held K.faults sink.new (M.counts tally.new)) result }
{
    let begun = Session::begin(
        setup.crew.rt,
        setup.crew.alloc,
        name,
        bytes,
        setup.crew.workers(),
        setup.crew.gate,
        tally,
    )?;
    match begun {
        Begun::Ready(session, reply) => accept(session, sink, &reply.bytes),
        Begun::Refused(reply) => refuse(sink, &reply.bytes),
    }
}

// Loads the bytes of a later file.
fn load_next<K: Sink, M: Tally + Send, G: Gate + Sync, R: Threads + Sync>(
    setup: &Setup<'_, G, R>,
    mut session: Session,
    name: Name,
    bytes: &[u8],
    sink: &mut K,
    tally: &mut M,
) -> Result<Session, Stop>
    requires plain { IsTrue (is_plain name) }
    requires whole { IsUndivided (M.counts tally.old) }
    ensures counts { (shelf source : ℕ) → RunCounts shelf shelf source source (K.faults sink.old) (K.faults sink.new) (status_of result) }
    ensures parts { KeepsParts (M.counts tally.old) (M.counts tally.new) }
    ensures loads { Comes (opened_stage (next_load_reads session name bytes.now) (next_load session name bytes.now))
        (progress K.held K.faults sink.old (M.counts tally.old)) (progress K.held K.faults sink.new (M.counts tally.new)) result }
{
    let reply = session.load(
        setup.crew.rt,
        setup.crew.alloc,
        name,
        bytes,
        setup.crew.workers(),
        setup.crew.gate,
        tally,
    )?;
    put_loaded(session, &reply, sink)
}

// Loads the bytes of a file, the first where there is no session yet.
fn load_bytes<K: Sink, M: Tally + Send, G: Gate + Sync, R: Threads + Sync>(
    setup: &Setup<'_, G, R>,
    session: Option<Session>,
    name: &str,
    bytes: &[u8],
    sink: &mut K,
    tally: &mut M,
) -> Result<Session, Stop>
    requires plain { IsTrue (is_plain name.now) }
    requires whole { IsUndivided (M.counts tally.old) }
    ensures counts { (shelf source : ℕ) → RunCounts shelf shelf source source (K.faults sink.old) (K.faults sink.new) (status_of result) }
    ensures parts { KeepsParts (M.counts tally.old) (M.counts tally.new) }
    ensures loads { Comes (opened_stage (load_reads_on session name.now bytes.now) (load_on session name.now bytes.now))
        (progress K.held K.faults sink.old (M.counts tally.old)) (progress K.held K.faults sink.new (M.counts tally.new)) result }
{
    let name = plain_name(setup.crew.alloc, name)?;
    match session {
        None => load_first(setup, name, bytes, sink, tally),
        Some(session) => load_next(setup, session, name, bytes, sink, tally),
    }
}

// Stops the run, since a file was not fetched; one that is too long is refused.
fn not_fetched<K: Sink>(
    alloc: Global,
    name: &str,
    most: u64,
    fault: FetchFault,
    sink: &mut K,
) -> Result<Session, Stop>
    ensures counts { (before now source : ℕ) → FetchCounts {T = Vec ℕ AllGlobal} before now (Err fault) → RunCounts before now source source (K.faults sink.old) (K.faults sink.new) (status_of result) }
    ensures loads { (files : Option Files) (session : Option MapState) (file : List ℕ) (tally : TallyState) → Fetches files file most (Err fault) → Loads files (λ f. file_stage most session name.now (f file))
        (progress K.held K.faults sink.old tally) (progress K.held K.faults sink.new tally) result }
{
    match fault {
        FetchFault::Long => refuse_long(alloc, name, most, sink),
        FetchFault::Failed => Err(Stop::ShelfFault),
        FetchFault::NoMemory => Err(Stop::NoMemory),
    }
}

/// Fetches a file, loads it and puts the reply.
pub fn load_file<F: Shelf, K: Sink, M: Tally + Send, G: Gate + Sync, R: Threads + Sync>(
    setup: &Setup<'_, G, R>,
    session: Option<Session>,
    pair: &Pair<'_>,
    shelf: &mut F,
    sink: &mut K,
    tally: &mut M,
) -> Result<Session, Stop>
    requires plain { IsTrue (is_plain pair.now.name.now) }
    requires serves { IsTrue (F.serves shelf.old pair.now.file.now) }
    requires whole { IsUndivided (M.counts tally.old) }
    ensures same { F.files shelf.new ≡ F.files shelf.old }
    ensures names { F.serves shelf.new ≡ F.serves shelf.old }
    ensures counts { (source : ℕ) → RunCounts (F.faults shelf.old) (F.faults shelf.new) source source (K.faults sink.old) (K.faults sink.new) (status_of result) }
    ensures parts { KeepsParts (M.counts tally.old) (M.counts tally.new) }
    ensures loads { Loads (F.files shelf.old) (λ f. file_stage setup.now.limits.file session pair.now.name.now (f pair.now.file.now))
        (progress K.held K.faults sink.old (M.counts tally.old)) (progress K.held K.faults sink.new (M.counts tally.new)) result }
{
    match shelf.fetch(setup.crew.alloc, pair.file, setup.limits.file) {
        Ok(bytes) => load_bytes(setup, session, pair.name, &bytes, sink, tally),
        Err(fault) => not_fetched(setup.crew.alloc, pair.name, setup.limits.file, fault, sink),
    }
}
