//! Zone books of 1201 by 1201 cells, in memory.
//!
//! The words are the number of rounds, what a round does, the values and the zones. `fresh` makes a book. `cell` repaints one
//! cell, with the book's patch, the sum of each listed zone before and after, and the commits of book and layer; `tile` the
//! same for a tile with one value. `paint` repaints a cell without a book, to be taken off. Values and zones are `mixed`,
//! `different`, `blocks` or `one`. What is printed adds up what was asked of all rounds. `bench/zones` tells the time of a round
//! from two such runs.

ghost use Rattle.std.specs.Prelude.{◌≡◌, ◌<◌, IfOk, OnOk};
ghost use Rattle.layer_tiles.specs.Tiles.{tiles_in, IsBlockOf};
ghost use Rattle.zonal_totals.specs.Books.{IsBookOf};

use crate::maps::{SIDE, Spot, cell, layer_of, number_at, patch_of, repaint_of, square, word_at};
use layer_tiles::{Cell, Change, Layer, NoMemory, Patch, Tile};
use map_nums::{Stat, Value};
use map_outside::Counts;
use std::alloc::Global;
use zonal_totals::{Book, BookPatch};

/// What a round does.
#[derive(Clone, Copy, PartialEq)]
enum Work {
    Fresh,
    Cell,
    Tile,
    Paint,
}

/// The cells of a layer.
#[derive(Clone, Copy)]
enum Kind {
    /// Values from 0 to 999 without an order.
    Mixed,
    /// Each cell another value.
    Different,
    /// A hundred squares of 121 by 121 cells.
    Blocks,
    /// One value.
    One,
}

// The number of a cell.
fn number(kind: Kind, at: u32) -> u32 {
    match kind {
        Kind::Mixed => at.wrapping_mul(7919) % 1_500_007 % 1000,
        Kind::Different => at,
        Kind::Blocks => at / SIDE / 121 * 10 + at % SIDE / 121 + 1,
        Kind::One => 1,
    }
}

// What a statistic adds to the total.
fn worth(book: &Book, zone: Value) -> i64 {
    match book.stat(Stat::Sum, zone) {
        Ok(Some(sum)) => sum,
        Ok(None) => -1,
        Err(_) => -2,
    }
}

// The same after a patch.
fn worth_after(book: &Book, patch: &BookPatch, zone: Value) -> i64
    requires { patch.now.after.size ≡ book.now.size }
{
    match book.stat_after(patch, Stat::Sum, zone) {
        Ok(Some(sum)) => sum,
        Ok(None) => -1,
        Err(_) => -2,
    }
}

// The sums of a hundred zones.
fn fresh(alloc: Global, values: &Layer, zones: &Layer) -> Result<i64, NoMemory>
    requires { values.now.size ≡ zones.now.size }
{
    let mut tally = Counts::new();
    let book = Book::fresh(
        alloc,
        &Change::same(values),
        &Change::same(zones),
        &mut tally,
    )?;
    let mut total: i64 = 0;
    for zone in 1..101 {
        total = total.wrapping_add(worth(&book, zone));
    }
    Ok(total)
}

// The sums of the listed zones before and after.
fn sums(book: &Book, patch: &BookPatch) -> i64
    requires { patch.now.after.size ≡ book.now.size }
{
    let mut total: i64 = 0;
    for k in 0..u32::MAX {
        let Some(zone) = patch.zone(k) else {
            return total;
        };
        let before = worth(book, zone);
        total = total.wrapping_add(before);
        total = total.wrapping_add(worth_after(book, patch, zone));
    }
    total
}

/// The cell that is repainted.
const SPOT: Spot = Spot {
    tile: 0,
    row: 0,
    column: 0,
};

// A first tile of one cell everywhere.
fn even_tile(alloc: Global, layer: &Layer, cell: Cell) -> Result<Tile, NoMemory>
    requires { 0 < tiles_in layer.now.size }
    ensures { IfOk result (λ tile. IsBlockOf layer.now.size 0 tile) }
{
    let made = Tile::new(alloc, layer.extent(), 0, cell)?;
    let _block = made.height();
    Ok(made)
}

// A patch of the first tile, with one new cell or with one cell everywhere.
fn painted(alloc: Global, layer: &Layer, work: Work, first: Cell) -> Result<Patch, NoMemory>
    ensures { IfOk result (λ patch. patch.size ≡ layer.now.size) }
{
    let extent = layer.extent();
    if work != Work::Tile || extent.tiles() == 0 {
        return repaint_of(alloc, layer, SPOT, first);
    }
    patch_of(alloc, extent, 0, even_tile(alloc, layer, first)?)
}

// A repaint, with the sums of what it changes.
fn repaint(
    alloc: Global,
    book: &mut Book,
    values: &mut Layer,
    zones: &Layer,
    work: Work,
    first: Cell,
) -> Result<i64, NoMemory>
    requires values { values.old.size ≡ book.old.size }
    requires zones { zones.now.size ≡ book.old.size }
    requires right { IsBookOf book.old values.old.cells zones.now.cells }
    ensures values { OnOk result (values.new.size ≡ book.new.size) }
    ensures zones { OnOk result (zones.now.size ≡ book.new.size) }
    ensures right { OnOk result (IsBookOf book.new values.new.cells zones.now.cells) }
{
    let mut tally = Counts::new();
    let patch = painted(alloc, values, work, first)?;
    let after = book.changed(
        alloc,
        &Change::patched(values, &patch),
        &Change::same(zones),
        &mut tally,
    )?;
    let total = sums(book, &after);
    book.commit(after);
    values.commit(patch, 1);
    Ok(total)
}

// So many repaints of the values, with a book.
fn repaints(
    alloc: Global,
    values: &mut Layer,
    zones: &Layer,
    work: Work,
    count: u32,
) -> Result<i64, NoMemory>
    requires { values.old.size ≡ zones.now.size }
{
    let mut tally = Counts::new();
    let mut book = Book::fresh(
        alloc,
        &Change::same(values),
        &Change::same(zones),
        &mut tally,
    )?;
    let mut total: i64 = 0;
    for round in 0..count {
        let first = cell(round % 1000);
        let sum = repaint(alloc, &mut book, values, zones, work, first)?;
        total = total.wrapping_add(sum);
    }
    Ok(total)
}

// So many repaints of the values, without a book.
fn paints(alloc: Global, values: &mut Layer, count: u32) -> Result<i64, NoMemory> {
    for round in 0..count {
        let patch = painted(alloc, values, Work::Cell, cell(round % 1000))?;
        values.commit(patch, 1);
    }
    Ok(0)
}

// So many rounds of the work.
fn rounds(alloc: Global, task: Task) -> Result<i64, NoMemory> {
    let extent = square(SIDE)?;
    let mut values = layer_of(alloc, extent, |at| cell(number(task.values, at)))?;
    let zones = layer_of(alloc, extent, |at| cell(number(task.zones, at)))?;
    match task.work {
        Work::Cell => repaints(alloc, &mut values, &zones, task.work, task.count),
        Work::Tile => repaints(alloc, &mut values, &zones, task.work, task.count),
        Work::Paint => paints(alloc, &mut values, task.count),
        Work::Fresh => {
            let mut total: i64 = 0;
            for _ in 0..task.count {
                total = total.wrapping_add(fresh(alloc, &values, &zones)?);
            }
            Ok(total)
        }
    }
}

/// What the words ask for.
#[derive(Clone, Copy)]
struct Task {
    count: u32,
    work: Work,
    values: Kind,
    zones: Kind,
}

// A kind of layer by its word.
fn kind_of(word: &str, default: Kind) -> Kind {
    match word {
        "mixed" => Kind::Mixed,
        "different" => Kind::Different,
        "blocks" => Kind::Blocks,
        "one" => Kind::One,
        _ => default,
    }
}

/// What so many rounds add up to.
pub fn measure(alloc: Global, words: &[&str]) -> Option<i64> {
    let work = match word_at(words, 1) {
        "cell" => Work::Cell,
        "tile" => Work::Tile,
        "paint" => Work::Paint,
        _ => Work::Fresh,
    };
    let task = Task {
        count: number_at(words, 0),
        work,
        values: kind_of(word_at(words, 2), Kind::Mixed),
        zones: kind_of(word_at(words, 3), Kind::Blocks),
    };
    rounds(alloc, task).ok()
}
