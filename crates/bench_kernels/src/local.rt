//! The Local kernel: so many times a statistic of two layers of 1000 by 1000 cells, tile by tile, in memory.
//!
//! The first word is the number of rounds. The second names the statistic, `sum`, `maximum` or `ignoring`, the sum where nulls are
//! passed over, so that the compiler doesn't know it, as in the program; with `copy` the tiles of the left layer are copied cell by
//! cell instead, to compare with. With a third word, `nulls`, a few cells of either layer are null. What is printed is the sum of
//! the first cells of all tiles of the last round. `bench/local` tells the time of a cell from two such runs.

ghost use Rattle.std.specs.Prelude.{◌≡◌, ◌<◌, length, IfOk};
ghost use Rattle.layer_tiles.specs.Tiles.{tiles_in};
ghost use Rattle.local_ops.specs.Operations.{op_of, Takes};

use crate::maps::{cell, layer_of, number_at, word_at};
use layer_tiles::{Cell, Change, Extent, KernelRefusal, Layer, NoMemory, Operands, Tile};
use local_ops::{LocalOp, local_tile};
use map_nums::Stat;
use map_outside::Counts;
use std::alloc::Global;

/// The rows and the columns of the layers.
const SIDE: u32 = 1000;

/// What is measured.
#[derive(Clone, Copy)]
enum Work {
    Stat(Stat),
    Ignoring(Stat),
    Copy,
}

// A layer whose cells rise by rows and by columns, and begin anew at 1000. Of so many cells one is null, of 0 none.
fn waves(
    alloc: Global,
    extent: Extent,
    by_row: u32,
    by_column: u32,
    nulls: u32,
) -> Result<Layer, NoMemory>
    ensures { IfOk result (λ layer. layer.size ≡ extent) }
{
    layer_of(alloc, extent, |at| {
        if nulls != 0 && at % nulls == 0 {
            return Cell::null();
        }
        let down = (at / SIDE).wrapping_mul(by_row);
        let right = (at % SIDE).wrapping_mul(by_column);
        cell(down.wrapping_add(right) % 1000)
    })
}

// A tile of an operation of the two layers.
fn both(
    alloc: Global,
    op: &LocalOp,
    left: &Layer,
    right: &Layer,
    tile: u32,
    tally: &mut Counts,
) -> Result<Tile, KernelRefusal>
    requires takes { Takes (op_of op.now) 2 }
    requires same { left.now.size ≡ right.now.size }
    requires within { tile < tiles_in left.now.size }
{
    let mut operands = Operands::new();
    operands.push(Change::same(left));
    operands.push(Change::same(right));
    local_tile(alloc, op, &operands, tile, tally)
}

// A copy of a tile of a layer.
fn copy(alloc: Global, layer: &Layer, tile: u32, tally: &mut Counts) -> Result<Tile, KernelRefusal>
    requires { tile < tiles_in layer.now.size }
{
    let extent = layer.extent();
    let change = Change::same(layer);
    let view = change.view(tile, tally);
    let Ok(mut made) = Tile::new(alloc, extent, tile, Cell::null()) else {
        return Err(KernelRefusal::NoMemory);
    };
    let place = extent.place(tile);
    for r in 0..place.height {
        copy_row(view.row(r), r, place.width, &mut made);
    }
    Ok(made)
}

// Copies a row of so many cells into a tile.
fn copy_row(row: &[Cell], r: u32, width: u32, made: &mut Tile)
    requires row { r < made.old.height }
    requires columns { width ≡ made.old.width }
    requires cells { width ≡ length row.now }
    ensures height { made.new.height ≡ made.old.height }
    ensures width { made.new.width ≡ made.old.width }
{
    for c in 0..width {
        made.set(r, c, row[c as usize]);
    }
}

// The first cell of a tile that the work makes.
fn corner(
    alloc: Global,
    work: Work,
    left: &Layer,
    right: &Layer,
    tile: u32,
    tally: &mut Counts,
) -> Result<i64, KernelRefusal>
    requires same { left.now.size ≡ right.now.size }
    requires within { tile < tiles_in left.now.size }
{
    let made = match work {
        Work::Stat(stat) => both(alloc, &LocalOp::Stat(stat), left, right, tile, tally)?,
        Work::Ignoring(stat) => both(alloc, &LocalOp::Ignoring(stat), left, right, tile, tally)?,
        Work::Copy => copy(alloc, left, tile, tally)?,
    };
    let first = made.row(0).first();
    Ok(first.and_then(|cell| cell.get()).unwrap_or(0))
}

// The sum of the first cells of all tiles.
fn round(alloc: Global, work: Work, left: &Layer, right: &Layer) -> Result<i64, KernelRefusal>
    requires { left.now.size ≡ right.now.size }
{
    let mut tally = Counts::new();
    let mut total: i64 = 0;
    for tile in 0..left.extent().tiles() {
        let first = corner(alloc, work, left, right, tile, &mut tally)?;
        total = total.wrapping_add(first);
    }
    Ok(total)
}

// So many rounds, and the sum of the last. With holes, one of 37 cells is null on the left, and one of 41 on the right.
fn rounds(alloc: Global, work: Work, holes: bool, count: u32) -> Option<i64> {
    let extent = Extent::new(SIDE, SIDE)?;
    let (nulls_left, nulls_right) = if holes { (37, 41) } else { (0, 0) };
    let left = waves(alloc, extent, 7, 3, nulls_left).ok()?;
    let right = waves(alloc, extent, 1, 5, nulls_right).ok()?;
    let mut total = 0;
    for _ in 0..count {
        total = round(alloc, work, &left, &right).ok()?;
    }
    Some(total)
}

/// The sum of the last of so many rounds.
pub fn measure(alloc: Global, words: &[&str]) -> Option<i64> {
    let work = match word_at(words, 1) {
        "copy" => Work::Copy,
        "maximum" => Work::Stat(Stat::Maximum),
        "ignoring" => Work::Ignoring(Stat::Sum),
        _ => Work::Stat(Stat::Sum),
    };
    let holes = word_at(words, 2) == "nulls";
    rounds(alloc, work, holes, number_at(words, 0))
}
