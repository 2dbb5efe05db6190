//! The sample: its grids are made in memory and loaded, and then its lines are answered.
ghost use Rattle.std.specs.Prelude.{◌≡◌, ◌≤◌, ℕ, map, IfOk, IsTrue};
ghost use Rattle.map_words.specs.Names.{is_plain};
ghost use Rattle.layer_tiles.specs.Tallies.{KeepsParts, RisesBy, IsUndivided};
ghost use Rattle.map_machine.specs.Loads.{grid_load};
ghost use Rattle.map_machine.specs.LoadReads.{grid_load_reads};
ghost use Rattle.map_machine.specs.SampleGrids.{by_place, sample_grids};
ghost use Rattle.map_machine.specs.SampleLines.{sample_lines};
ghost use Rattle.map_machine.specs.Samples.{sample_state};
ghost use Rattle.map_sample.specs.Grids.{cell_in, name_of, named_grid};
ghost use Rattle.map_run.specs.Answered.{Answered};
ghost use Rattle.map_run.specs.FaultCounts.{RunCounts};
ghost use Rattle.map_run.specs.Loads.{opened_stage, grids_stage};
ghost use Rattle.map_run.specs.Sampled.{Sampled};
ghost use Rattle.map_run.specs.Shown.{progress};
ghost use Rattle.map_run.specs.Stages.{Comes};
ghost use Rattle.map_run.specs.Stops.{status_of};

use crate::lines::{Fed, answer_line};
use crate::loads::{plain_name, put_loaded};
use crate::setup::Setup;
use crate::stop::Stop;
use crate::workers::Side;
use layer_tiles::{Layer, Tally};
use map_nums::NoMemory;
use map_outside::Sink;
use map_sample::{SAMPLE_GRIDS, SAMPLE_LINES, SampleGrid, sample_layer, sample_line};
use map_session::Session;
use map_words::Name;
use std::alloc::Global;
use std::thread::Threads;
use tile_workers::Gate;

// Makes a grid, and its name.
fn made_grid<M: Tally + Send, G: Gate + Sync, R: Threads + Sync>(
    setup: &Setup<'_, G, R>,
    side: Side,
    grid: SampleGrid,
    tally: &mut M,
) -> Result<(Name, Layer), NoMemory>
    requires whole { IsUndivided (M.counts tally.old) }
    ensures name { IfOk result (λ r. r.0 ≡ name_of grid) }
    ensures plain { IfOk result (λ r. IsTrue (is_plain r.0)) }
    ensures layer { IfOk result (λ r. record { size = r.1.size; cells = r.1.cells } ≡ by_place side.count (cell_in grid)) }
    ensures tally { RisesBy 0 0 (M.counts tally.old) (M.counts tally.new) }
{
    let name = plain_name(setup.crew.alloc, grid.name())?;
    let layer = sample_layer(&setup.crew, side.count, grid, tally)?;
    Ok((name, layer))
}

// Makes a grid, loads it and puts the reply.
fn load_grid<K: Sink, M: Tally + Send, G: Gate + Sync, R: Threads + Sync>(
    setup: &Setup<'_, G, R>,
    mut session: Session,
    side: Side,
    grid: SampleGrid,
    sink: &mut K,
    tally: &mut M,
) -> Result<Session, Stop>
    requires whole { IsUndivided (M.counts tally.old) }
    ensures counts { (shelf source : ℕ) → RunCounts shelf shelf source source (K.faults sink.old) (K.faults sink.new) (status_of result) }
    ensures parts { KeepsParts (M.counts tally.old) (M.counts tally.new) }
    ensures loads { Comes (opened_stage (grid_load_reads session (name_of grid) (by_place side.count (cell_in grid))) (grid_load session (name_of grid) (by_place side.count (cell_in grid))))
        (progress K.held K.faults sink.old (M.counts tally.old)) (progress K.held K.faults sink.new (M.counts tally.new)) result }
{
    let (name, layer) = made_grid(setup, side, grid, tally)?;
    let reply = session.load_layer(&setup.crew, name, layer, tally)?;
    put_loaded(session, &reply, sink)
}

// Loads grids into a session, in order.
fn load_grids<K: Sink, M: Tally + Send, G: Gate + Sync, R: Threads + Sync>(
    setup: &Setup<'_, G, R>,
    session: Session,
    side: Side,
    grids: &[SampleGrid],
    sink: &mut K,
    tally: &mut M,
) -> Result<Session, Stop>
    requires whole { IsUndivided (M.counts tally.old) }
    ensures counts { (shelf source : ℕ) → RunCounts shelf shelf source source (K.faults sink.old) (K.faults sink.new) (status_of result) }
    ensures parts { KeepsParts (M.counts tally.old) (M.counts tally.new) }
    ensures loads { Comes (grids_stage session (map (named_grid side.count) grids.now))
        (progress K.held K.faults sink.old (M.counts tally.old)) (progress K.held K.faults sink.new (M.counts tally.new)) result }
{
    match grids.split_first() {
        None => Ok(session),
        Some((grid, rest)) => {
            let session = load_grid(setup, session, side, *grid, sink, tally)?;
            load_grids(setup, session, side, rest, sink, tally)
        }
    }
}

// Loads all grids of the sample.
fn load_sample<K: Sink, M: Tally + Send, G: Gate + Sync, R: Threads + Sync>(
    setup: &Setup<'_, G, R>,
    side: Side,
    sink: &mut K,
    tally: &mut M,
) -> Result<Session, Stop>
    requires whole { IsUndivided (M.counts tally.old) }
    ensures counts { (shelf source : ℕ) → RunCounts shelf shelf source source (K.faults sink.old) (K.faults sink.new) (status_of result) }
    ensures parts { KeepsParts (M.counts tally.old) (M.counts tally.new) }
    ensures loads { Comes (grids_stage (sample_state side.count) (sample_grids side.count))
        (progress K.held K.faults sink.old (M.counts tally.old)) (progress K.held K.faults sink.new (M.counts tally.new)) result }
{
    let session = Session::sample(setup.crew.alloc, side.count)?;
    load_grids(setup, session, side, &SAMPLE_GRIDS, sink, tally)
}

// Answers all lines of the sample.
fn play_sample<K: Sink, M: Tally + Send, G: Gate + Sync, R: Threads + Sync>(
    setup: &Setup<'_, G, R>,
    session: &mut Session,
    side: Side,
    sink: &mut K,
    tally: &mut M,
) -> Result<Fed, Stop>
    requires whole { IsUndivided (M.counts tally.old) }
    ensures parts { KeepsParts (M.counts tally.old) (M.counts tally.new) }
    ensures answered { Answered session.old session.new (sample_lines side.count)
        (progress K.held K.faults sink.old (M.counts tally.old)) (progress K.held K.faults sink.new (M.counts tally.new)) result }
{
    for k in 0..SAMPLE_LINES {
        let line = sample_line(setup.crew.alloc, side.count, k)?;
        match answer_line(setup, session, sink, tally, &line)? {
            Fed::More => {}
            Fed::Quit => return Ok(Fed::Quit),
        }
    }
    Ok(Fed::More)
}

/// A run over the sample of this size.
pub fn run_sample<K: Sink, M: Tally + Send, G: Gate + Sync, R: Threads + Sync>(
    setup: &Setup<'_, G, R>,
    side: Side,
    sink: &mut K,
    tally: &mut M,
) -> Result<(), Stop>
    requires whole { IsUndivided (M.counts tally.old) }
    ensures counts { (shelf source : ℕ) → RunCounts shelf shelf source source (K.faults sink.old) (K.faults sink.new) (status_of result) }
    ensures parts { KeepsParts (M.counts tally.old) (M.counts tally.new) }
    ensures sampled { Sampled side.count
        (progress K.held K.faults sink.old (M.counts tally.old)) (progress K.held K.faults sink.new (M.counts tally.new)) (status_of result) }
{
    let mut session = load_sample(setup, side, sink, tally)?;
    play_sample(setup, &mut session, side, sink, tally)?;
    Ok(())
}
