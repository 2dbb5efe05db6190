//! Least costs of 1201 by 1201 cells, in memory: frictions from 1 to 9, and a source every 100 rows and columns.
//!
//! The words are the number of rounds and what a round does. `first` finds all costs. `cell` repaints a friction here or there and
//! puts the costs right, with the commits of both; `tile` the same for a tile of 1,024 frictions. What is printed adds up the
//! costs. `bench/spread` tells the time of a round from two such runs.

ghost use Rattle.std.specs.Prelude.{◌≡◌, ◌<◌, IfOk, OnOk};
ghost use Rattle.map_nums.specs.Numbers.{greatest_value};
ghost use Rattle.map_defs.specs.Spread.{IsSpread};
ghost use Rattle.layer_tiles.specs.Tiles.{tiles_in};

use crate::maps::{
    SIDE, Spot, cell, layer_of, number_at, patch_of, repaint_of, square, tile_of, word_at,
};
use friction_spread::spread_repair;
use layer_tiles::{Cell, Change, Extent, Layer, NoMemory, Patch};
use map_nums::VMAX;
use map_outside::Counts;
use std::alloc::Global;

/// What a round does.
#[derive(Clone, Copy, PartialEq)]
enum Work {
    First,
    Cell,
    Tile,
}

// The friction of a number.
fn friction_cell(number: u32) -> Cell {
    cell(number.wrapping_mul(7919) % 1_500_007 % 9 + 1)
}

fn frictions(alloc: Global, extent: Extent, from: u32) -> Result<Layer, NoMemory>
    ensures { IfOk result (λ layer. layer.size ≡ extent) }
{
    layer_of(alloc, extent, |at| friction_cell(at.wrapping_add(from)))
}

// A number every 100 rows and columns.
fn source_cell(at: u32) -> Cell {
    if at / SIDE % 100 == 0 && at % SIDE % 100 == 0 {
        return cell(1);
    }
    Cell::null()
}

// All costs.
fn first(alloc: Global, sources: &Layer, friction: &Layer) -> Result<Layer, NoMemory>
    requires { friction.now.size ≡ sources.now.size }
    ensures size { IfOk result (λ l. l.size ≡ sources.now.size) }
    ensures right { IfOk result (λ l. IsSpread sources.now.size sources.now.cells friction.now.cells greatest_value l.cells) }
{
    let still = Change::same(sources);
    let ground = Change::same(friction);
    let mut tally = Counts::new();
    let repair = spread_repair(alloc, None, &still, &ground, VMAX, &mut tally)?;
    Ok(Layer::fresh(repair.patch, 1))
}

// The sum of the costs.
fn total(costs: &Layer) -> i64 {
    let mut tally = Counts::new();
    let mut sum: i64 = 0;
    for at in 0..costs.extent().cells() {
        if let Some(cost) = costs.cell(at, &mut tally).get() {
            sum = sum.wrapping_add(cost);
        }
    }
    sum
}

// A number without an order.
fn scattered(round: u32) -> u32 {
    round.wrapping_mul(2_654_435_761) / 4096
}

// The tile of a round: a whole one.
fn tile_at(extent: Extent, round: u32) -> u32
    requires { 0 < tiles_in extent }
    ensures { result < tiles_in extent }
{
    let number = scattered(round);
    (number / 37 % 37 * ((extent.columns() + 31) / 32) + number % 37) % extent.tiles()
}

// A patch of one tile: with one new friction, or with other ones.
fn painted(
    alloc: Global,
    friction: &Layer,
    others: &Layer,
    work: Work,
    round: u32,
) -> Result<Patch, NoMemory>
    requires { others.now.size ≡ friction.now.size }
    ensures { IfOk result (λ patch. patch.size ≡ friction.now.size) }
{
    let extent = friction.extent();
    if extent.tiles() == 0 {
        return Ok(Patch::new(alloc, extent));
    }
    let tile = tile_at(extent, round);
    if work == Work::Tile {
        return patch_of(alloc, extent, tile, tile_of(alloc, others, tile)?);
    }
    let place = extent.place(tile);
    let spot = Spot {
        tile,
        row: scattered(round) / 7 % place.height,
        column: scattered(round) % place.width,
    };
    repaint_of(alloc, friction, spot, friction_cell(round))
}

// A repaint, with the costs put right.
fn repaint(
    alloc: Global,
    costs: &mut Layer,
    sources: &Layer,
    friction: &mut Layer,
    patch: Patch,
) -> Result<(), NoMemory>
    requires size { friction.old.size ≡ sources.now.size }
    requires patch { patch.size ≡ friction.old.size }
    requires base { costs.old.size ≡ sources.now.size }
    requires right { IsSpread sources.now.size sources.now.cells friction.old.cells greatest_value costs.old.cells }
    ensures size { OnOk result (friction.new.size ≡ sources.now.size) }
    ensures base { OnOk result (costs.new.size ≡ sources.now.size) }
    ensures right { OnOk result (IsSpread sources.now.size sources.now.cells friction.new.cells greatest_value costs.new.cells) }
{
    let _friction = friction.extent();
    let _costs = costs.extent();
    let mut tally = Counts::new();
    let still = Change::same(sources);
    let ground = Change::patched(friction, &patch);
    let repair = spread_repair(alloc, Some(costs), &still, &ground, VMAX, &mut tally)?;
    costs.commit(repair.patch, 1);
    friction.commit(patch, 1);
    Ok(())
}

// So many repaints.
fn repaints(
    alloc: Global,
    sources: &Layer,
    friction: &mut Layer,
    others: &Layer,
    work: Work,
    count: u32,
) -> Result<i64, NoMemory>
    requires size { friction.old.size ≡ sources.now.size }
    requires others { others.now.size ≡ sources.now.size }
{
    let mut costs = first(alloc, sources, friction)?;
    for round in 0..count {
        let patch = painted(alloc, friction, others, work, round)?;
        repaint(alloc, &mut costs, sources, friction, patch)?;
    }
    Ok(total(&costs))
}

// So many rounds of the work.
fn rounds(alloc: Global, work: Work, count: u32) -> Result<i64, NoMemory> {
    let extent = square(SIDE)?;
    let mut friction = frictions(alloc, extent, 0)?;
    let sources = layer_of(alloc, extent, source_cell)?;
    if work != Work::First {
        let others = frictions(alloc, extent, 700_001)?;
        return repaints(alloc, &sources, &mut friction, &others, work, count);
    }
    let mut sum: i64 = 0;
    for _ in 0..count {
        sum = sum.wrapping_add(total(&first(alloc, &sources, &friction)?));
    }
    Ok(sum)
}

/// What so many rounds add up to.
pub fn measure(alloc: Global, words: &[&str]) -> Option<i64> {
    let work = match word_at(words, 1) {
        "cell" => Work::Cell,
        "tile" => Work::Tile,
        _ => Work::First,
    };
    rounds(alloc, work, number_at(words, 0)).ok()
}
