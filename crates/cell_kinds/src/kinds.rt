//! The different cells of a layer.
ghost use Rattle.std.specs.Prelude.{◌≡◌, ◌*◌, ◌<◌, ◌≤◌, ◌++◌, length, map, take, drop, IfOk, OnOk};
ghost use Rattle.map_nums.specs.Grids.{largest_area};
ghost use Rattle.map_defs.specs.Cells.{same_cell};
ghost use Rattle.layer_tiles.specs.Layers.{IsLayer};
ghost use Rattle.layer_tiles.specs.Tiles.{tiles_in, tiles_across};
ghost use Rattle.layer_tiles.specs.Tallies.{RisesBy};
ghost use Rattle.cell_kinds.specs.Counted.{kind_from, counted_kinds};
ghost use Rattle.cell_kinds.specs.Runs.{runs_of};
ghost use Rattle.cell_kinds.specs.Expanded.{expanded, AreFilled, AreRuns};

use crate::order::compare;
use crate::rows::crossed_tile;
use layer_tiles::{Cell, Layer, Tally};
use map_nums::NoMemory;
use std::alloc::Global;

/// A cell, and the number of its places.
#[derive(Clone, Copy)]
pub struct Kind {
    pub cell: Cell,
    pub count: usize,
}

/// A cell, and how often it stands side by side.
#[derive(Clone, Copy)]
struct Run {
    cell: Cell,
    count: u32,
}

/// The different cells of a layer, null first and then ascending, each with the number of its places. At most 64 looks for each
/// tile. With n cells in m runs, where a run is of equal cells side by side in a row of a tile, it takes time of n + m log m and at
/// most 64 bytes of memory for each run.
pub fn kinds_of<M: Tally>(
    alloc: Global,
    layer: &Layer,
    tally: &mut M,
) -> Result<Vec<Kind>, NoMemory>
    ensures kinds { IfOk result (λ kinds. kinds.items ≡ counted_kinds layer.now.cells) }
    ensures looks { RisesBy (64 * tiles_in layer.now.size) 0 (M.counts tally.old) (M.counts tally.new) }
{
    let mut runs = all_runs(alloc, layer, tally)?;
    runs.sort_unstable_by(|a, b| compare(&a.cell, &b.cell));
    joined(alloc, &runs)
}

/// The runs of a layer, row by row. One look at each tile that a row crosses.
fn all_runs<M: Tally>(alloc: Global, layer: &Layer, tally: &mut M) -> Result<Vec<Run>, NoMemory>
    ensures runs { IfOk result (λ runs. AreRuns runs.items layer.now.cells) }
    ensures layer { IsLayer layer.now }
    ensures looks { RisesBy (layer.now.size.rows * tiles_across layer.now.size) 0 (M.counts tally.old) (M.counts tally.new) }
{
    let mut runs = Vec::new(alloc);
    for r in 0..layer.extent().rows() {
        add_row(&mut runs, layer, r, tally)?;
    }
    Ok(runs)
}

/// Puts the runs of row `r` of a layer behind those that are there. One look at each tile that it crosses.
fn add_row<M: Tally>(
    runs: &mut Vec<Run>,
    layer: &Layer,
    r: u32,
    tally: &mut M,
) -> Result<(), NoMemory>
    requires filled { AreFilled runs.old.items }
    requires row { r < layer.now.size.rows }
    ensures runs { OnOk result
        (AreRuns runs.new.items (expanded runs.old.items ++ take layer.now.size.columns (drop (r * layer.now.size.columns) layer.now.cells))) }
    ensures looks { RisesBy (tiles_across layer.now.size) 0 (M.counts tally.old) (M.counts tally.new) }
{
    let across = layer.extent().tiles_across();
    for k in 0..across {
        let tile = crossed_tile(layer, r, k, tally);
        add_cells(runs, tile.row(r % 32))?;
    }
    Ok(())
}

/// Puts the runs of some cells behind those that are there.
fn add_cells(runs: &mut Vec<Run>, cells: &[Cell]) -> Result<(), NoMemory>
    requires filled { AreFilled runs.old.items }
    requires few { length cells.now ≤ largest_area }
    ensures { OnOk result (AreRuns runs.new.items (expanded runs.old.items ++ cells.now)) }
{
    let Some((first, rest)) = cells.split_first() else {
        return Ok(());
    };
    let mut run = Run {
        cell: *first,
        count: 1,
    };
    for cell in rest {
        if cell.same(&run.cell) {
            run.count += 1;
        } else {
            runs.push(run)?;
            run = Run {
                cell: *cell,
                count: 1,
            };
        }
    }
    runs.push(run)?;
    Ok(())
}

/// Puts the runs of one cell that follow one another together.
fn joined(alloc: Global, runs: &[Run]) -> Result<Vec<Kind>, NoMemory>
    requires filled { AreFilled runs.now }
    requires few { length (expanded runs.now) ≤ largest_area }
    ensures { IfOk result (λ kinds. kinds.items ≡ map kind_from (runs_of same_cell (expanded runs.now))) }
{
    let mut kinds = Vec::new(alloc);
    let Some((first, rest)) = runs.split_first() else {
        return Ok(kinds);
    };
    let mut kind = Kind {
        cell: first.cell,
        count: first.count as usize,
    };
    for run in rest {
        if run.cell.same(&kind.cell) {
            kind.count += run.count as usize;
        } else {
            kinds.push(kind)?;
            kind = Kind {
                cell: run.cell,
                count: run.count as usize,
            };
        }
    }
    kinds.push(kind)?;
    Ok(kinds)
}
