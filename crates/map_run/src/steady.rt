//! The top call over forms in memory that never fail.
ghost use Rattle.std.specs.Prelude.{◌≡◌, ◌↔◌, true, Some, IsNone, IsSome};
ghost use Rattle.layer_tiles.specs.Tallies.{KeepsParts, IsUndivided};
ghost use Rattle.map_machine.specs.Limits.{longest_file, too_many_bytes};
ghost use Rattle.map_machine.specs.Play.{run_text, run_opening};
ghost use Rattle.map_machine.specs.Openings.{goes_on};
ghost use Rattle.map_machine.specs.RunReads.{run_reads};
ghost use Rattle.map_machine.specs.Words.{form_of};
ghost use Rattle.map_outside.specs.Contents.{Grows};
ghost use Rattle.map_outside.specs.Steady.{steady_files, held_in_room};
ghost use Rattle.map_run.specs.Completeness.{HasSession, ComesToEnd, ComesToLimit, IsComplete, IsTooLong};
ghost use Rattle.map_run.specs.Front.{WritesFront, ReadsAsWritten};
ghost use Rattle.map_run.specs.Openings.{OpensSo};
ghost use Rattle.map_run.specs.Steady.{EndsSteady};
ghost use Rattle.map_run.specs.Taken.{EndsFor};
ghost use Rattle.map_run.specs.Written.{IsWhole, IsQuiet};

use crate::{Means, Status, run};
use layer_tiles::Tally;
use map_outside::{SteadyShelf, SteadySink, SteadySource};
use std::thread::Threads;
use tile_workers::Gate;

/// [`run`] over forms in memory that never fail. So it answers [`Status::Done`], [`Status::Usage`], [`Status::Load`],
/// [`Status::TooLong`] or [`Status::NoMemory`], and no fault of shelf, source or sink.
///
/// What is written is told as long as it goes into the sink's room.
pub fn run_steady<M: Tally + Send, G: Gate + Sync, R: Threads + Sync>(
    means: Means<'_, G, R>,
    words: &[String],
    shelf: &mut SteadyShelf,
    source: &mut SteadySource,
    sink: &mut SteadySink,
    tally: &mut M,
) -> Status
    requires whole { IsUndivided (M.counts tally.old) }

    ensures steady { EndsSteady result }
    ensures usage { (result ≡ Status.Usage) ↔ IsNone (form_of words.now) }
    ensures parts { KeepsParts (M.counts tally.old) (M.counts tally.new) }
    ensures quiet { IsQuiet (held_in_room sink.old) (held_in_room sink.new) result }

    // What is written is a front of the map machine's text, and all of it unless memory was wanted.
    ensures front { WritesFront (held_in_room sink.old) (held_in_room sink.new) (run_text longest_file too_many_bytes words.now (steady_files shelf.old) source.old.left) }
    ensures whole { IsWhole result ≡ true →
        Grows (held_in_room sink.old) (held_in_room sink.new) (run_text longest_file too_many_bytes words.now (steady_files shelf.old) source.old.left) }

    // How the answer goes together with the loads and the model file, and with the bytes taken.
    ensures opens { OpensSo result (run_opening longest_file words.now (steady_files shelf.old)) }
    ensures ended { EndsFor (form_of words.now) too_many_bytes (Some source.old.left) (Some source.new.left) result }

    // Where nothing is refused before the session, it is done where the session comes to an end, and too long where it comes to
    // the limit, or wants memory.
    ensures complete { IsSome (form_of words.now) → run_opening longest_file words.now (steady_files shelf.old) ≡ goes_on
        → ComesToEnd too_many_bytes source.old.left → IsComplete result }
    ensures too_long { HasSession (form_of words.now) → run_opening longest_file words.now (steady_files shelf.old) ≡ goes_on
        → ComesToLimit too_many_bytes source.old.left → IsTooLong result }

    // No more was read than what the commands may whose replies are whole among the bytes written, and the next one.
    ensures reads { ReadsAsWritten (record { held = held_in_room sink.old; faults = 0; tally = M.counts tally.old })
        (record { held = held_in_room sink.new; faults = 0; tally = M.counts tally.new })
        (run_text longest_file too_many_bytes words.now (steady_files shelf.old) source.old.left)
        (run_reads longest_file too_many_bytes words.now (steady_files shelf.old) source.old.left) }
{
    let Means { rt, alloc, gate } = means;
    run(rt, alloc, words, shelf, source, sink, gate, tally)
}
