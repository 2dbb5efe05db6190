//! How tiles are put in place in a layer of 1201 by 1201 cells.
//!
//! The words are the number of rounds and what a round does: `commit` makes a patch of one tile, each round of another one, and
//! puts it in place; `patch` makes it alone, to be taken off. What is printed adds up the patches' sizes and, at the end, the
//! stamps. `bench/layers` tells the time of a round from two such runs.

ghost use Rattle.std.specs.Prelude.{◌≡◌, IfOk};

use crate::maps::{SIDE, Spot, cell, number_at, repaint_of, square};
use layer_tiles::{Cell, Layer, NoMemory, Patch};
use std::alloc::Global;

/// What the words ask for.
#[derive(Clone, Copy)]
struct Task {
    count: u32,
    commits: bool,
}

// A patch of one tile, with another number in its first cell.
fn patch(alloc: Global, layer: &Layer, round: u32) -> Result<Patch, NoMemory>
    ensures { IfOk result (λ patch. patch.size ≡ layer.now.size) }
{
    let spot = Spot {
        tile: round.wrapping_mul(617) % layer.extent().tiles().max(1),
        row: 0,
        column: 0,
    };
    repaint_of(alloc, layer, spot, cell(round))
}

// So many rounds.
fn all_rounds(alloc: Global, layer: &mut Layer, task: Task) -> Result<u64, NoMemory> {
    let mut total: u64 = 0;
    for round in 0..task.count {
        let patch = patch(alloc, layer, round)?;
        total = total.wrapping_add(patch.len() as u64);
        if task.commits {
            layer.commit(patch, 2);
        }
    }
    Ok(total)
}

// How many tiles have the later stamp.
fn stamped(layer: &Layer) -> u64 {
    let mut count: u64 = 0;
    for tile in 0..layer.extent().tiles() {
        if layer.stamp(tile) == 2 {
            count = count.wrapping_add(1);
        }
    }
    count
}

fn rounds(alloc: Global, task: Task) -> Result<u64, NoMemory> {
    let mut layer = Layer::constant(alloc, square(SIDE)?, Cell::null(), 1)?;
    let total = all_rounds(alloc, &mut layer, task)?;
    Ok(total.wrapping_add(stamped(&layer)))
}

/// What so many rounds add up to.
pub fn measure(alloc: Global, words: &[&str]) -> Option<u64> {
    let commits = match words.get(1) {
        Some(word) => *word == "commit",
        None => true,
    };
    let task = Task {
        count: number_at(words, 0),
        commits,
    };
    rounds(alloc, task).ok()
}
