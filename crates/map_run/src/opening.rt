//! What a run over files begins with: its loads, and its model file.
ghost use Rattle.std.specs.Prelude.{◌≡◌, ◌<◌, ℕ, IsTrue, IfSome, length, option_map};
ghost use Rattle.std.specs.List.{All};
ghost use Rattle.map_words.specs.Names.{is_plain};
ghost use Rattle.layer_tiles.specs.Tallies.{KeepsParts, IsUndivided};
ghost use Rattle.map_run.specs.FaultCounts.{RunCounts};
ghost use Rattle.map_run.specs.Forms.{pairs_read, model_read};
ghost use Rattle.map_run.specs.Loads.{Loads, further_stage, pairs_stage, files_stage};
ghost use Rattle.map_run.specs.Shown.{progress};
ghost use Rattle.map_run.specs.Stops.{status_of};

use crate::forms::{FileWords, Pair};
use crate::loads::load_file;
use crate::model::load_model;
use crate::setup::Setup;
use crate::stop::Stop;
use layer_tiles::Tally;
use map_outside::{Shelf, Sink};
use map_session::Session;
use std::thread::Threads;
use tile_workers::Gate;

// Loads the further files into a session, in order, up to one that isn't accepted.
fn load_further<F: Shelf, K: Sink, M: Tally + Send, G: Gate + Sync, R: Threads + Sync>(
    setup: &Setup<'_, G, R>,
    session: Session,
    pairs: &[Pair<'_>],
    shelf: &mut F,
    sink: &mut K,
    tally: &mut M,
) -> Result<Session, Stop>
    requires plain { All (λ p. IsTrue (is_plain p.name.now)) pairs.now }
    requires serves { All (λ p. IsTrue (F.serves shelf.old p.file.now)) pairs.now }
    requires whole { IsUndivided (M.counts tally.old) }
    ensures same { F.files shelf.new ≡ F.files shelf.old }
    ensures names { F.serves shelf.new ≡ F.serves shelf.old }
    ensures counts { (source : ℕ) → RunCounts (F.faults shelf.old) (F.faults shelf.new) source source (K.faults sink.old) (K.faults sink.new) (status_of result) }
    ensures parts { KeepsParts (M.counts tally.old) (M.counts tally.new) }
    ensures loads { Loads (F.files shelf.old) (λ f. further_stage setup.now.limits.file f (pairs_read pairs.now) session)
        (progress K.held K.faults sink.old (M.counts tally.old)) (progress K.held K.faults sink.new (M.counts tally.new)) result }
{
    match pairs.split_first() {
        None => Ok(session),
        Some((pair, rest)) => {
            let session = load_file(setup, Some(session), pair, shelf, sink, tally)?;
            load_further(setup, session, rest, shelf, sink, tally)
        }
    }
}

// Loads files in order, up to one that isn't accepted: each is fetched and loaded, and its reply is put.
fn load_files<F: Shelf, K: Sink, M: Tally + Send, G: Gate + Sync, R: Threads + Sync>(
    setup: &Setup<'_, G, R>,
    pairs: &[Pair<'_>],
    shelf: &mut F,
    sink: &mut K,
    tally: &mut M,
) -> Result<Session, Stop>
    requires some { 0 < length pairs.now }
    requires plain { All (λ p. IsTrue (is_plain p.name.now)) pairs.now }
    requires serves { All (λ p. IsTrue (F.serves shelf.old p.file.now)) pairs.now }
    requires whole { IsUndivided (M.counts tally.old) }
    ensures same { F.files shelf.new ≡ F.files shelf.old }
    ensures names { F.serves shelf.new ≡ F.serves shelf.old }
    ensures counts { (source : ℕ) → RunCounts (F.faults shelf.old) (F.faults shelf.new) source source (K.faults sink.old) (K.faults sink.new) (status_of result) }
    ensures parts { KeepsParts (M.counts tally.old) (M.counts tally.new) }
    ensures loads { Loads (F.files shelf.old) (λ f. pairs_stage setup.now.limits.file f (pairs_read pairs.now))
        (progress K.held K.faults sink.old (M.counts tally.old)) (progress K.held K.faults sink.new (M.counts tally.new)) result }
{
    match pairs.split_first() {
        None => unreachable!(),
        Some((pair, rest)) => {
            let session = load_file(setup, None, pair, shelf, sink, tally)?;
            load_further(setup, session, rest, shelf, sink, tally)
        }
    }
}

/// Loads the files of a run in order, and then its model file where it has one, up to what isn't accepted.
pub fn open_files<F: Shelf, K: Sink, M: Tally + Send, G: Gate + Sync, R: Threads + Sync>(
    setup: &Setup<'_, G, R>,
    files: &FileWords<'_>,
    shelf: &mut F,
    sink: &mut K,
    tally: &mut M,
) -> Result<Session, Stop>
    requires serves { All (λ p. IsTrue (F.serves shelf.old p.file.now)) files.now.pairs.items }
    requires model { IfSome files.now.model (λ m. IsTrue (F.serves shelf.old m.now)) }
    requires whole { IsUndivided (M.counts tally.old) }
    ensures counts { (source : ℕ) → RunCounts (F.faults shelf.old) (F.faults shelf.new) source source (K.faults sink.old) (K.faults sink.new) (status_of result) }
    ensures parts { KeepsParts (M.counts tally.old) (M.counts tally.new) }
    ensures loads { Loads (F.files shelf.old) (files_stage setup.now.limits.file (model_read files.now.model) (pairs_read files.now.pairs.items))
        (progress K.held K.faults sink.old (M.counts tally.old)) (progress K.held K.faults sink.new (M.counts tally.new)) result }
{
    let session = load_files(setup, &files.pairs, shelf, sink, tally)?;
    match files.model {
        None => Ok(session),
        Some(file) => load_model(setup, session, file, shelf, sink, tally),
    }
}
