//! Lines of sight, in memory: one viewer with reach 64 over a relief.
//!
//! The words are the number of rounds and what a round does. `near` sums the cells of the 25 tiles of a map of 129 by 129
//! cells, whose viewer stands in the middle and reaches all of them; `far` those of the last 25 tiles of a map of 321 by 321
//! cells, out of the reach of a viewer in the first corner. A null cell counts 3. What is printed adds up all rounds. `bench/sight`
//! tells the time of a cell of a line and of a tile from such runs.

ghost use Rattle.std.specs.Prelude.{◌<◌, ◌≤◌, IfOk};
ghost use Rattle.std.specs.List.{All};
ghost use Rattle.map_nums.specs.Grids.{cells_in};

use crate::maps::{cell, layer_of, number_at, square, sum_of_tile, word_at};
use layer_tiles::{Cell, Change, KernelRefusal, Layer};
use map_outside::Counts;
use sight_lines::{Sight, SightRefusal, Viewers, sight_tile};
use std::alloc::Global;

/// What a round does.
#[derive(Clone, Copy)]
struct Task {
    /// The rows and the columns of the map.
    side: u32,
    /// The place of the viewer.
    viewer: u32,
    /// The first of the 25 tiles.
    first: u32,
}

const NEAR: Task = Task {
    side: 129,
    viewer: 64 * 129 + 64,
    first: 0,
};

const FAR: Task = Task {
    side: 321,
    viewer: 0,
    first: 96,
};

// A bowl round the cell in row and column 64, with small humps.
fn height(at: u32, columns: u32) -> u32 {
    let down = (at / columns.max(1)).wrapping_sub(64);
    let right = (at % columns.max(1)).wrapping_sub(64);
    let bowl = down
        .wrapping_mul(down)
        .wrapping_add(right.wrapping_mul(right));
    bowl.wrapping_add(at.wrapping_mul(7919) % 16)
}

// A cell of a layer of one viewer, of value 1.
fn viewer(at: u32, place: u32) -> Cell {
    if at == place { cell(1) } else { Cell::null() }
}

fn viewers_of(alloc: Global, layer: &Layer) -> Result<Viewers, SightRefusal>
    ensures { IfOk result (λ viewers. All (λ e. e.0 < cells_in layer.now.size) viewers) }
{
    Viewers::of(alloc, None, &Change::same(layer), &mut Counts::new())
}

// What the 25 tiles from one on add up to.
fn round(
    alloc: Global,
    viewers: &Viewers,
    surface: &Layer,
    first: u32,
) -> Result<i64, KernelRefusal>
    requires first { first ≤ 96 }
    requires on_map { All (λ e. e.0 < cells_in surface.now.size) viewers.now }
{
    let sight = Sight {
        from: 0,
        to: 0,
        reach: 64,
    };
    let change = Change::same(surface);
    let mut tally = Counts::new();
    let mut total: i64 = 0;
    for tile in first..first + 25 {
        if tile < surface.extent().tiles() {
            let made = sight_tile(alloc, viewers, &change, sight, tile, &mut tally)?;
            total = total.wrapping_add(sum_of_tile(&made, 3));
        }
    }
    Ok(total)
}

// So many rounds of a task.
fn rounds(alloc: Global, count: u32, task: Task) -> Option<i64> {
    let extent = square(task.side).ok()?;
    let columns = extent.columns();
    let Ok(surface) = layer_of(alloc, extent, |at| cell(height(at, columns))) else {
        return None;
    };
    let Ok(alone) = layer_of(alloc, extent, |at| viewer(at, task.viewer)) else {
        return None;
    };
    let Ok(viewers) = viewers_of(alloc, &alone) else {
        return None;
    };
    let first = task.first.min(96);
    let mut total: i64 = 0;
    for _ in 0..count {
        total = total.wrapping_add(round(alloc, &viewers, &surface, first).ok()?);
    }
    Some(total)
}

/// What so many rounds add up to.
pub fn measure(alloc: Global, words: &[&str]) -> Option<i64> {
    let task = match word_at(words, 1) {
        "far" => FAR,
        _ => NEAR,
    };
    rounds(alloc, number_at(words, 0), task)
}
