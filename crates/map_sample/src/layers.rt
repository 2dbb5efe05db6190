//! The layers of the sample's grids.
ghost use Rattle.std.specs.Prelude.{◌≡◌, ◌<◌, ◌≤◌, false, IfOk};
ghost use Rattle.layer_tiles.specs.Tallies.{RisesBy, IsUndivided};
ghost use Rattle.map_machine.specs.SampleGrids.{by_place};
ghost use Rattle.map_sample.specs.Grids.{cell_in};

use crate::grids::SampleGrid;
use crate::tile_rows::TileRows;
use layer_tiles::{Extent, Layer, Tally};
use map_nums::NoMemory;
use std::thread::Threads;
use tile_workers::{Crew, Gate, run_by};

/// The start of a thread takes as long as so many cells.
const CELLS_FOR_A_WORKER: u32 = 100_000;

/// A grid of the sample, of so many rows and columns, by the workers at hand or fewer. It counts no look
/// and no pick.
///
/// # Errors
///
/// `NoMemory` where there is none for the cells, or for what the workers share.
pub fn sample_layer<M: Tally + Send, G: Gate + Sync, R: Threads + Sync>(
    crew: &Crew<'_, R, G>,
    side: u32,
    grid: SampleGrid,
    tally: &mut M,
) -> Result<Layer, NoMemory>
    requires some { 1 ≤ side }
    requires most { side ≤ 1224 }
    requires whole { 1 < crew.now.workers → IsUndivided (M.counts tally.old) }
    ensures layer { IfOk result (λ l. record { size = l.size; cells = l.cells } ≡ by_place side (cell_in grid)) }
    ensures tally { RisesBy 0 0 (M.counts tally.old) (M.counts tally.new) }
{
    let Some(extent) = Extent::new(side, side) else {
        unreachable!()
    };
    let work = TileRows {
        alloc: crew.alloc,
        extent,
        grid,
    };
    let jobs = u64::from(extent.tiles_down());
    let hands = crew.at_most(u64::from(1 + extent.cells() / CELLS_FOR_A_WORKER));
    let rows = run_by(&hands, jobs, tally, &work)?;
    work.layer(rows)
}
