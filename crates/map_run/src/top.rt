//! The top call.
ghost use Rattle.std.specs.Prelude.{◌≡◌, ◌↔◌, false, true, Some, IsTrue, IsNone, IsSome, IfSome};
ghost use Rattle.std.specs.List.{All};
ghost use Rattle.layer_tiles.specs.Tallies.{KeepsParts, IsUndivided};
ghost use Rattle.map_machine.specs.Limits.{longest_file, too_many_bytes};
ghost use Rattle.map_machine.specs.Play.{run_text, run_opening};
ghost use Rattle.map_machine.specs.Openings.{goes_on};
ghost use Rattle.map_machine.specs.RunReads.{run_reads};
ghost use Rattle.map_machine.specs.Words.{form_of, files_of};
ghost use Rattle.map_outside.specs.Contents.{Grows};
ghost use Rattle.map_run.specs.Completeness.{HasSession, ComesToEnd, ComesToLimit, IsComplete, IsTooLong};
ghost use Rattle.map_run.specs.FaultCounts.{RunCounts, NoneRose};
ghost use Rattle.map_run.specs.Forms.{form_read};
ghost use Rattle.map_run.specs.Front.{WritesFront, ReadsAsWritten};
ghost use Rattle.map_run.specs.Openings.{OpensSo};
ghost use Rattle.map_run.specs.RunsTo.{RunsTo};
ghost use Rattle.map_run.specs.Seen.{WhereHeld, WhereTold};
ghost use Rattle.map_run.specs.Shown.{progress};
ghost use Rattle.map_run.specs.Stops.{status_of};
ghost use Rattle.map_run.specs.Taken.{EndsFor};
ghost use Rattle.map_run.specs.Written.{IsWhole, IsQuiet, FailsAfter, taken_text};

use crate::Status;
use crate::forms::{FileWords, Form};
use crate::opening::open_files;
use crate::sample::run_sample;
use crate::session::play_session;
use crate::setup::{Limits, Means, Setup};
use crate::stop::Stop;
use crate::words::words_in;
use layer_tiles::Tally;
use map_outside::{Shelf, Sink, Source};
use std::alloc::Global;
use std::thread::Threads;
use tile_workers::{Crew, Gate};

/// The most bytes of a file.
const FILE_LIMIT: u64 = 67_108_864;

/// So many bytes of a session are too many.
const SESSION_LIMIT: u64 = 1_073_741_824;

// A run over files.
fn run_files<F: Shelf, S: Source, K: Sink, M: Tally + Send, G: Gate + Sync, R: Threads + Sync>(
    setup: &Setup<'_, G, R>,
    files: &FileWords<'_>,
    shelf: &mut F,
    source: &mut S,
    sink: &mut K,
    tally: &mut M,
) -> Result<(), Stop>
    requires serves { All (λ f. IsTrue (F.serves shelf.old f)) (files_of (form_read (Form.Files files.now))) }
    requires whole { IsUndivided (M.counts tally.old) }
    ensures parts { KeepsParts (M.counts tally.old) (M.counts tally.new) }
    ensures runs { RunsTo setup.now.limits.file setup.now.limits.session (Some (form_read (Form.Files files.now)))
        (record {
          files = F.files shelf.old;
          left = S.left source.old;
          shelf = F.faults shelf.old;
          source = S.faults source.old;
          progress = progress K.held K.faults sink.old (M.counts tally.old);
        })
        (record {
          files = F.files shelf.new;
          left = S.left source.new;
          shelf = F.faults shelf.new;
          source = S.faults source.new;
          progress = progress K.held K.faults sink.new (M.counts tally.new);
        })
        (status_of result) }
{
    let mut session = open_files(setup, files, shelf, sink, tally)?;
    play_session(setup, &mut session, source, sink, tally)
}

// A run of a form.
fn run_form<F: Shelf, S: Source, K: Sink, M: Tally + Send, G: Gate + Sync, R: Threads + Sync>(
    setup: &Setup<'_, G, R>,
    form: &Form<'_>,
    shelf: &mut F,
    source: &mut S,
    sink: &mut K,
    tally: &mut M,
) -> Result<(), Stop>
    requires serves { All (λ f. IsTrue (F.serves shelf.old f)) (files_of (form_read form.now)) }
    requires whole { IsUndivided (M.counts tally.old) }
    ensures parts { KeepsParts (M.counts tally.old) (M.counts tally.new) }
    ensures runs { RunsTo setup.now.limits.file setup.now.limits.session (Some (form_read form.now))
        (record {
          files = F.files shelf.old;
          left = S.left source.old;
          shelf = F.faults shelf.old;
          source = S.faults source.old;
          progress = progress K.held K.faults sink.old (M.counts tally.old);
        })
        (record {
          files = F.files shelf.new;
          left = S.left source.new;
          shelf = F.faults shelf.new;
          source = S.faults source.new;
          progress = progress K.held K.faults sink.new (M.counts tally.new);
        })
        (status_of result) }
{
    match form {
        Form::Files(files) => run_files(setup, files, shelf, source, sink, tally),
        Form::Sample(side) => run_sample(setup, *side, sink, tally),
    }
}

/// A run with these limits; [`run`] is that with the program's own.
pub fn run_within<F: Shelf, S: Source, K: Sink, M: Tally + Send, G: Gate + Sync, R: Threads + Sync>(
    means: Means<'_, G, R>,
    words: &[String],
    limits: Limits,
    shelf: &mut F,
    source: &mut S,
    sink: &mut K,
    tally: &mut M,
) -> Status
    requires serves { IfSome (form_of words.now) (λ form. All (λ f. IsTrue (F.serves shelf.old f)) (files_of form)) }
    requires whole { IsUndivided (M.counts tally.old) }
    ensures parts { KeepsParts (M.counts tally.old) (M.counts tally.new) }
    ensures runs { RunsTo limits.file limits.session (form_of words.now)
        (record {
          files = F.files shelf.old;
          left = S.left source.old;
          shelf = F.faults shelf.old;
          source = S.faults source.old;
          progress = progress K.held K.faults sink.old (M.counts tally.old);
        })
        (record {
          files = F.files shelf.new;
          left = S.left source.new;
          shelf = F.faults shelf.new;
          source = S.faults source.new;
          progress = progress K.held K.faults sink.new (M.counts tally.new);
        })
        result }
{
    let Means { rt, alloc, gate } = means;
    match words_in(words) {
        Some(words) => {
            let setup = Setup {
                crew: Crew::new(rt, alloc, gate, words.workers.count),
                limits,
            };
            Status::of(run_form(&setup, &words.form, shelf, source, sink, tally))
        }
        None => Status::Usage,
    }
}

/// All that the program does. The words are `run WORKERS MODEL NAME=FILE {NAME=FILE}`, with `-` where there is no model
/// file, or `sample WORKERS N`.
///
/// A run over files fetches, loads and answers each of them, then plays the lines of the model file, of which a refused one
/// stops the run, and then answers the lines of the source. A run over the sample of N rows and N columns loads its four
/// grids, which are made in memory, and answers its own lines. Each reply that isn't empty is handed to the sink by one
/// `put`. The gate is told of each job before it begins.
pub fn run<F: Shelf, S: Source, K: Sink, M: Tally + Send, G: Gate + Sync, R: Threads + Sync>(
    rt: &R,
    alloc: Global,
    words: &[String],
    shelf: &mut F,
    source: &mut S,
    sink: &mut K,
    gate: &G,
    tally: &mut M,
) -> Status
    requires serves { IfSome (form_of words.now) (λ form. All (λ f. IsTrue (F.serves shelf.old f)) (files_of form)) }
    requires whole { IsUndivided (M.counts tally.old) }

    ensures usage { (result ≡ Status.Usage) ↔ IsNone (form_of words.now) }
    ensures counts { RunCounts (F.faults shelf.old) (F.faults shelf.new) (S.faults source.old) (S.faults source.new) (K.faults sink.old) (K.faults sink.new) result }
    ensures parts { KeepsParts (M.counts tally.old) (M.counts tally.new) }
    ensures quiet { IsQuiet (K.held sink.old) (K.held sink.new) result }

    // What is written is a front of the map machine's text, and all of it unless something failed.
    ensures front { WhereTold (form_of words.now) (F.files shelf.old) (S.left source.old) (λ files session.
        WritesFront (K.held sink.old) (K.held sink.new) (run_text longest_file too_many_bytes words.now files session)) }
    ensures whole { IsWhole result ≡ true → WhereTold (form_of words.now) (F.files shelf.old) (S.left source.old) (λ files session.
        Grows (K.held sink.old) (K.held sink.new) (run_text longest_file too_many_bytes words.now files session)) }

    // Where the source failed, all lines were answered that ended among the bytes taken.
    ensures source_fault { result ≡ Status.SourceFault → WhereTold (form_of words.now) (F.files shelf.old) (S.left source.old) (λ files session.
        FailsAfter (taken_text longest_file files (form_of words.now)) (S.left source.old) (S.left source.new) (K.held sink.old) (K.held sink.new)) }

    // How the answer goes together with the loads and the model file, and with the bytes taken.
    ensures opens { WhereHeld (form_of words.now) (F.files shelf.old) (λ files. OpensSo result (run_opening longest_file words.now files)) }
    ensures ended { EndsFor (form_of words.now) too_many_bytes (S.left source.old) (S.left source.new) result }

    // Where no fault came, no load and no line of the model file is refused and the session comes to an end, the run is done,
    // or wants memory.
    ensures complete { NoneRose (F.faults shelf.old) (F.faults shelf.new) (S.faults source.old) (S.faults source.new) (K.faults sink.old) (K.faults sink.new)
        → IsSome (form_of words.now) → WhereTold (form_of words.now) (F.files shelf.old) (S.left source.old) (λ files session.
        run_opening longest_file words.now files ≡ goes_on → ComesToEnd too_many_bytes session → IsComplete result) }

    // Where it comes to the limit instead, it is too long, or wants memory.
    ensures too_long { NoneRose (F.faults shelf.old) (F.faults shelf.new) (S.faults source.old) (S.faults source.new) (K.faults sink.old) (K.faults sink.new)
        → HasSession (form_of words.now) → WhereTold (form_of words.now) (F.files shelf.old) (S.left source.old) (λ files session.
        run_opening longest_file words.now files ≡ goes_on → ComesToLimit too_many_bytes session → IsTooLong result) }

    // No more was read than what the commands may whose replies are whole among the bytes written, and the next one.
    ensures reads { WhereTold (form_of words.now) (F.files shelf.old) (S.left source.old) (λ files session.
        ReadsAsWritten (record { held = K.held sink.old; faults = K.faults sink.old; tally = M.counts tally.old })
        (record { held = K.held sink.new; faults = K.faults sink.new; tally = M.counts tally.new })
        (run_text longest_file too_many_bytes words.now files session) (run_reads longest_file too_many_bytes words.now files session)) }
{
    let limits = Limits {
        file: FILE_LIMIT,
        session: SESSION_LIMIT,
    };
    let means = Means { rt, alloc, gate };
    run_within(means, words, limits, shelf, source, sink, tally)
}
