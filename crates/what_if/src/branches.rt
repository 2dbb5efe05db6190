//! Branches, tried side by side.

ghost use Rattle.std.specs.Prelude.{◌≡◌, ◌<◌, ◌≤◌, ◌/◌, max, length, IfOk};
ghost use Rattle.map_nums.specs.Grids.{cells_in};
ghost use Rattle.layer_tiles.specs.Tallies.{RisesBy, IsUndivided};
ghost use Rattle.statement_parser.specs.Formed.{Each, IsItem};
ghost use Rattle.statement_parser.specs.Views.{branches_view};
ghost use Rattle.map_machine.specs.RequestReads.{branches_reads};
ghost use Rattle.what_if.specs.Tried.{AreBranchesTold};

use crate::items::Told;
use crate::trials::Trials;
use layer_tiles::{Extent, Tally};
use live_engine::Engine;
use map_nums::NoMemory;
use map_waves::all_found;
use statement_parser::Item;
use std::thread::Threads;
use tile_workers::{Crew, Gate, run_by};

/// Branches that are at work at once have no more cells than this together, beside those that they share.
const CELLS_AT_WORK: u64 = 1_500_000;

/// Tries lists of edits and looks, each from the state of the engine, which stays as it is, and tells what came of their items in
/// the order of the lists.
///
/// Each list is one job of a phase: one worker makes the edits on a copy of the engine, numbered on from the engine's, and lets the
/// copy go. On a large map fewer workers than are at hand try lists at once, so that the copies have room.
///
/// # Errors
///
/// `NoMemory` where there is none in any of the branches.
pub fn run_branches<M: Tally + Send, G: Gate + Sync, R: Threads + Sync>(
    crew: &Crew<'_, R, G>,
    base: &Engine,
    branches: &[Vec<Item>],
    tally: &mut M,
) -> Result<Vec<Vec<Told>>, NoMemory>
    requires few { length branches.now ≤ 16 }
    requires formed { Each (Each IsItem) (branches_view branches.now) }
    requires whole { 1 < crew.now.workers → IsUndivided (M.counts tally.old) }
    ensures told { IfOk result (λ told. AreBranchesTold base.now (branches_view branches.now) told.items) }
    ensures reads { RisesBy (branches_reads base.now (branches_view branches.now)).looks (branches_reads base.now (branches_view branches.now)).picks (M.counts tally.old) (M.counts tally.new) }
{
    let count = branches.len() as u64;
    let hands = crew.at_most(count.min(at_once(base.extent())));
    let trials = Trials {
        rt: crew.rt,
        alloc: crew.alloc,
        base,
        branches,
    };
    let answers = run_by(&hands, count, tally, &trials)?;
    all_found(crew.alloc, answers)
}

/// How many branches may be at work at once on a map of this size; at least one.
fn at_once(extent: Extent) -> u64
    ensures { result ≡ max 1 (1500000 / cells_in extent) }
{
    (CELLS_AT_WORK / u64::from(extent.cells())).max(1)
}
