//! Directions and flow on 1201 by 1201 cells, in memory.
//!
//! The words are the number of rounds and what a round does, on a relief of valleys that fall to the south. `directions` makes
//! the directions of all cells. `first` makes the flow of a weight of 1 a cell. `cell` puts the flow right after one cell of the
//! relief, another one each round, was repainted; `paint` makes the same patch of the repaint alone, to be taken off. What is
//! printed adds up work and cells of all rounds. `bench/flow` tells the time of a round from two such runs.

ghost use Rattle.std.specs.Prelude.{◌≡◌, [], IfOk};
ghost use Rattle.map_defs.specs.Flow.{flow_grid};
ghost use Rattle.layer_tiles.specs.Patches.{patched, HoldsAll};

use crate::maps::{
    SIDE, Spot, amount, amount_at, cell, layer_of, number_at, repaint_of, square, word_at,
};
use drainage_flow::{Repair, direction_tile, flow_repair};
use layer_tiles::{Change, KernelRefusal, Layer, NoMemory, Patch, Tile};
use map_outside::Counts;
use std::alloc::Global;

/// What a round does.
#[derive(Clone, Copy, PartialEq)]
enum Work {
    Directions,
    First,
    Cell,
    Paint,
}

/// What the words ask for.
#[derive(Clone, Copy)]
struct Task {
    count: u32,
    work: Work,
}

/// A relief and the weights of its cells.
#[derive(Clone, Copy)]
struct Ground<'a> {
    relief: &'a Layer,
    weights: &'a Layer,
}

// A number that looks as if drawn.
fn scattered(at: u32) -> u32 {
    let mixed = at.wrapping_mul(2_654_435_761);
    (mixed ^ (mixed >> 15)).wrapping_mul(2_246_822_519) >> 16
}

// The height of a cell: valleys 64 columns apart that fall to the south, with steps of up to four.
fn height(at: u32) -> u32 {
    let row = at / SIDE % SIDE;
    let column = at % SIDE;
    let off = (column % 64).abs_diff(32);
    (SIDE - row) * 3 + off * 4 + scattered(at) % 5
}

// The flow of a relief.
fn flowing(alloc: Global, ground: &Ground<'_>) -> Result<Repair, KernelRefusal>
    requires size { ground.now.weights.now.size ≡ ground.now.relief.now.size }
    ensures size { IfOk result (λ r. r.patch.size ≡ ground.now.relief.now.size) }
    ensures all { IfOk result (λ r. HoldsAll r.patch) }
    ensures flow { IfOk result (λ r.
        patched ground.now.relief.now.size [] r.patch.tiles
        ≡ (flow_grid ground.now.relief.now.size ground.now.relief.now.cells ground.now.weights.now.cells).cells) }
{
    let mut tally = Counts::new();
    let relief = Change::same(ground.relief);
    let weights = Change::same(ground.weights);
    flow_repair(alloc, None, &relief, &weights, &mut tally)
}

// The first cell of a tile, 0 where it is null.
fn first_cell(tile: &Tile) -> u64 {
    let view = tile.view();
    if view.height() == 0 || view.width() == 0 {
        return 0;
    }
    amount(view.row(0)[0])
}

// The sum of the directions at the tiles' first cells.
fn directions(alloc: Global, relief: &Layer) -> Option<u64> {
    let mut tally = Counts::new();
    let change = Change::same(relief);
    let extent = change.extent();
    let mut total: u64 = 0;
    for tile in 0..extent.tiles() {
        let made = direction_tile(alloc, &change, tile, &mut tally).ok()?;
        total = total.wrapping_add(first_cell(&made));
    }
    Some(total)
}

// The work of a first flow, and some of its cells.
fn first(alloc: Global, ground: &Ground<'_>) -> Option<u64>
    requires size { ground.now.weights.now.size ≡ ground.now.relief.now.size }
{
    let repair = flowing(alloc, ground).ok()?;
    let change = Change::fresh(&repair.patch);
    let mut total = repair.worked;
    for place in 0..100 {
        total = total.wrapping_add(amount_at(&change, place * 14_407));
    }
    Some(total)
}

// A patch with another number in a cell.
fn painted(alloc: Global, layer: &Layer, at: u32, number: u32) -> Result<Patch, NoMemory>
    ensures { IfOk result (λ patch. patch.size ≡ layer.now.size) }
{
    let extent = layer.extent();
    if at >= extent.cells() {
        return Ok(Patch::new(alloc, extent));
    }
    let _place = extent.place_in(at);
    let spot = Spot {
        tile: extent.tile_of(at),
        row: at / extent.columns() % 32,
        column: at % extent.columns() % 32,
    };
    repaint_of(alloc, layer, spot, cell(number))
}

// The cell that a round paints, and its number.
fn stroke(round: u32) -> (u32, u32) {
    let at = scattered(round.wrapping_add(7)).wrapping_mul(5_501) % (SIDE * SIDE);
    (at, scattered(at) % 4_000)
}

// A repaint: the work of its repair, and the flow at the cell and at the foot of its column after it.
fn repaired(alloc: Global, ground: &Ground<'_>, flow: &Layer, round: u32) -> Option<u64>
    requires weights { ground.now.weights.now.size ≡ ground.now.relief.now.size }
    requires size { flow.now.size ≡ ground.now.relief.now.size }
    requires right { flow.now.cells ≡ (flow_grid ground.now.relief.now.size ground.now.relief.now.cells ground.now.weights.now.cells).cells }
{
    let mut tally = Counts::new();
    let (at, number) = stroke(round);
    let patch = painted(alloc, ground.relief, at, number).ok()?;
    let relief = Change::patched(ground.relief, &patch);
    let weights = Change::same(ground.weights);
    let repair = flow_repair(alloc, Some(flow), &relief, &weights, &mut tally).ok()?;
    let change = Change::patched(flow, &repair.patch);
    let total = repair.worked.wrapping_add(amount_at(&change, at));
    Some(total.wrapping_add(amount_at(&change, 1200 * SIDE + at % SIDE)))
}

// So many rounds of directions.
fn all_directions(alloc: Global, relief: &Layer, count: u32) -> Option<u64> {
    let mut total: u64 = 0;
    for _ in 0..count {
        total = total.wrapping_add(directions(alloc, relief)?);
    }
    Some(total)
}

// So many first flows.
fn firsts(alloc: Global, ground: &Ground<'_>, count: u32) -> Option<u64>
    requires { ground.now.weights.now.size ≡ ground.now.relief.now.size }
{
    let mut total: u64 = 0;
    for _ in 0..count {
        total = total.wrapping_add(first(alloc, ground)?);
    }
    Some(total)
}

// So many repaints, each over the same flow.
fn repairs(alloc: Global, ground: &Ground<'_>, count: u32) -> Option<u64>
    requires { ground.now.weights.now.size ≡ ground.now.relief.now.size }
{
    let flow = Layer::fresh(flowing(alloc, ground).ok()?.patch, 1);
    let mut total: u64 = 0;
    for round in 0..count {
        total = total.wrapping_add(repaired(alloc, ground, &flow, round)?);
    }
    Some(total)
}

// So many patches of a repaint.
fn paints(alloc: Global, relief: &Layer, count: u32) -> Option<u64> {
    let mut total: u64 = 0;
    for round in 0..count {
        let (at, number) = stroke(round);
        let patch = painted(alloc, relief, at, number).ok()?;
        total = total.wrapping_add(patch.len() as u64);
    }
    Some(total)
}

fn rounds(alloc: Global, task: Task) -> Option<u64> {
    let extent = square(SIDE).ok()?;
    let relief = layer_of(alloc, extent, |at| cell(height(at))).ok()?;
    let weights = layer_of(alloc, extent, |_at| cell(1)).ok()?;
    let ground = Ground {
        relief: &relief,
        weights: &weights,
    };
    match task.work {
        Work::Directions => all_directions(alloc, &relief, task.count),
        Work::First => firsts(alloc, &ground, task.count),
        Work::Cell => repairs(alloc, &ground, task.count),
        Work::Paint => paints(alloc, &relief, task.count),
    }
}

/// What so many rounds add up to.
pub fn measure(alloc: Global, words: &[&str]) -> Option<u64> {
    let work = match word_at(words, 1) {
        "first" => Work::First,
        "cell" => Work::Cell,
        "paint" => Work::Paint,
        _ => Work::Directions,
    };
    let task = Task {
        count: number_at(words, 0),
        work,
    };
    rounds(alloc, task)
}
