//! Labels of regions on 1201 by 1201 cells, in memory.
//!
//! The words are the number of rounds and what a round does. `first` labels a map of a hundred squares. `cell` puts the labels
//! right after a cell was repainted in a region of 16 cells, on a map of such regions; `paint` makes the same patch of the
//! repaint alone, to be taken off. What is printed adds up work and labels of all rounds. `bench/regions` tells the time of a round
//! from two such runs.

ghost use Rattle.std.specs.Prelude.{◌≡◌, [], IfOk};
ghost use Rattle.map_defs.specs.Regions.{AreRegions};
ghost use Rattle.layer_tiles.specs.Patches.{patched, HoldsAll};

use crate::maps::{SIDE, Spot, amount_at, cell, layer_of, number_at, repaint_of, square, word_at};
use layer_tiles::{Cell, Change, Layer, NoMemory};
use map_outside::Counts;
use region_labels::{Repair, label_repair};
use std::alloc::Global;

/// What a round does.
#[derive(Clone, Copy, PartialEq)]
enum Work {
    First,
    Cell,
    Paint,
}

/// What the words ask for.
#[derive(Clone, Copy)]
struct Task {
    count: u32,
    work: Work,
}

// The number of a cell: a hundred squares, or squares of 4 by 4 cells in four colours.
fn number(work: Work, at: u32) -> u32 {
    let row = at / SIDE;
    let column = at % SIDE;
    if work == Work::First {
        return row / 121 * 10 + column / 121 + 1;
    }
    row / 4 % 2 * 2 + column / 4 % 2 + 1
}

// The labels of a map, and their work.
fn labelled(alloc: Global, numbers: &Layer) -> Result<Repair, NoMemory>
    ensures size { IfOk result (λ r. r.patch.size ≡ numbers.now.size) }
    ensures all { IfOk result (λ r. HoldsAll r.patch) }
    ensures regions { IfOk result (λ r. AreRegions numbers.now.size numbers.now.cells (patched numbers.now.size [] r.patch.tiles)) }
{
    let mut tally = Counts::new();
    label_repair(alloc, None, &Change::same(numbers), &mut tally)
}

// The work of a first labelling, and some of its labels.
fn first(alloc: Global, numbers: &Layer) -> Result<u64, NoMemory> {
    let repair = labelled(alloc, numbers)?;
    let change = Change::fresh(&repair.patch);
    let mut total = repair.worked;
    for place in 0..100 {
        total = total.wrapping_add(amount_at(&change, place * 14_407));
    }
    Ok(total)
}

/// The cell that is repainted.
const SPOT: Spot = Spot {
    tile: 0,
    row: 1,
    column: 1,
};

// A repaint: the work of its repair, and two labels after it.
fn repaired(alloc: Global, numbers: &Layer, labels: &Layer, other: Cell) -> Result<u64, NoMemory>
    requires size { labels.now.size ≡ numbers.now.size }
    requires right { AreRegions numbers.now.size numbers.now.cells labels.now.cells }
{
    let mut tally = Counts::new();
    let patch = repaint_of(alloc, numbers, SPOT, other)?;
    let edit = Change::patched(numbers, &patch);
    let repair = label_repair(alloc, Some(labels), &edit, &mut tally)?;
    let change = Change::patched(labels, &repair.patch);
    let total = repair.worked.wrapping_add(amount_at(&change, 0));
    Ok(total.wrapping_add(amount_at(&change, SIDE + 1)))
}

// So many first labellings.
fn firsts(alloc: Global, numbers: &Layer, count: u32) -> Result<u64, NoMemory> {
    let mut total: u64 = 0;
    for _ in 0..count {
        total = total.wrapping_add(first(alloc, numbers)?);
    }
    Ok(total)
}

// So many repaints, each of the same labels.
fn repairs(alloc: Global, numbers: &Layer, count: u32) -> Result<u64, NoMemory> {
    let labels = Layer::fresh(labelled(alloc, numbers)?.patch, 1);
    let mut total: u64 = 0;
    for round in 0..count {
        total = total.wrapping_add(repaired(alloc, numbers, &labels, cell(round % 1000 + 5))?);
    }
    Ok(total)
}

// So many patches of a repaint.
fn paints(alloc: Global, numbers: &Layer, count: u32) -> Result<u64, NoMemory> {
    let mut total: u64 = 0;
    for round in 0..count {
        let patch = repaint_of(alloc, numbers, SPOT, cell(round % 1000 + 5))?;
        total = total.wrapping_add(patch.len() as u64);
    }
    Ok(total)
}

fn rounds(alloc: Global, task: Task) -> Result<u64, NoMemory> {
    let numbers = layer_of(alloc, square(SIDE)?, |at| cell(number(task.work, at)))?;
    match task.work {
        Work::First => firsts(alloc, &numbers, task.count),
        Work::Cell => repairs(alloc, &numbers, task.count),
        Work::Paint => paints(alloc, &numbers, task.count),
    }
}

/// What so many rounds add up to.
pub fn measure(alloc: Global, words: &[&str]) -> Option<u64> {
    let work = match word_at(words, 1) {
        "cell" => Work::Cell,
        "paint" => Work::Paint,
        _ => Work::First,
    };
    let task = Task {
        count: number_at(words, 0),
        work,
    };
    rounds(alloc, task).ok()
}
