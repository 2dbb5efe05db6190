//! The tile of a statistic of the numbers round each cell.
ghost use Rattle.std.specs.Prelude.{◌≡◌, ◌+◌, ◌*◌, ◌<◌, ◌≤◌, ◌++◌, length, take};
ghost use Rattle.map_nums.specs.Grids.{numbers_in};
ghost use Rattle.layer_tiles.specs.Tiles.{IsBlockOf, tiles_in, tile_height, tile_width};
ghost use Rattle.layer_tiles.specs.PlaceByPlace.{IsPlacesAnswer};
ghost use Rattle.tile_frame.specs.Frames.{IsRowAnswer, by_row};
ghost use Rattle.focal_ops.specs.Masks.{HasHalves, IsGrown, numbers_round, statistic_round};

use crate::kinds::{Kinds, statistic_by_kinds};
use crate::masks::Mask;
use crate::places::start_of;
use layer_tiles::{Cell, Extent, KernelRefusal, Tile, Value};
use map_nums::Stat;
use near_cells::NearCells;
use std::alloc::Global;
use tile_frame::put;

/// The most cells of a neighbourhood.
const MOST: usize = 4225;

/// The tile that the statistic makes of the numbers round each cell, which are put into one list.
pub(crate) fn numbers_tile(
    alloc: Global,
    stat: Stat,
    mask: &Mask,
    near: &NearCells,
    extent: Extent,
    tile: u32,
) -> Result<Tile, KernelRefusal>
    requires mask { HasHalves mask.now.reach mask.now.halves }
    requires near { IsGrown extent tile mask.now.reach near.now }
    requires within { tile < tiles_in extent }
    ensures { IsPlacesAnswer (by_row (tile_width extent tile) (statistic_round stat mask.now.reach mask.now.halves near.now.cells near.now.width)) extent tile result }
{
    let Ok(mut numbers) = vec![in alloc; 0; MOST] else {
        return Err(KernelRefusal::NoMemory);
    };
    let maker = NumbersTile { stat, mask, near };
    numbers_rows(alloc, &maker, extent, tile, &mut numbers)
}

/// The cells round a tile, and the statistic that is made of the numbers round each of its cells.
#[derive(Drop)]
struct NumbersTile<'a> {
    stat: Stat,
    mask: &'a Mask,
    near: &'a NearCells,
}

/// The rows of that tile.
fn numbers_rows(
    alloc: Global,
    maker: &NumbersTile<'_>,
    extent: Extent,
    tile: u32,
    numbers: &mut [Value],
) -> Result<Tile, KernelRefusal>
    requires mask { HasHalves maker.now.mask.now.reach maker.now.mask.now.halves }
    requires near { IsGrown extent tile maker.now.mask.now.reach maker.now.near.now }
    requires room { length numbers.old ≡ 4225 }
    requires within { tile < tiles_in extent }
    ensures { IsPlacesAnswer (by_row (tile_width extent tile) (statistic_round maker.now.stat maker.now.mask.now.reach maker.now.mask.now.halves maker.now.near.now.cells maker.now.near.now.width)) extent tile result }
{
    let Ok(mut made) = Tile::new(alloc, extent, tile, Cell::null()) else {
        return Err(KernelRefusal::NoMemory);
    };
    let mut kinds = Kinds::new();
    for r in 0..extent.place(tile).height {
        numbers_row(maker, extent, tile, r, numbers, &mut kinds, &mut made)?;
    }
    Ok(made)
}

/// A row of that tile.
fn numbers_row(
    maker: &NumbersTile<'_>,
    extent: Extent,
    tile: u32,
    r: u32,
    numbers: &mut [Value],
    kinds: &mut Kinds,
    made: &mut Tile,
) -> Result<(), KernelRefusal>
    requires mask { HasHalves maker.now.mask.now.reach maker.now.mask.now.halves }
    requires near { IsGrown extent tile maker.now.mask.now.reach maker.now.near.now }
    requires room { length numbers.old ≡ 4225 }
    requires within { tile < tiles_in extent }
    requires row { r < tile_height extent tile }
    requires size { IsBlockOf extent tile made.old }
    ensures { IsRowAnswer (statistic_round maker.now.stat maker.now.mask.now.reach maker.now.mask.now.halves maker.now.near.now.cells maker.now.near.now.width r) extent tile r made.old made.new result }
{
    let place = extent.place(tile);
    let start = (place.top + r) * extent.columns() + place.left;
    for c in 0..place.width {
        let count = collect(maker.mask, maker.near, r, c, numbers);
        let answer = statistic_by_kinds(maker.stat, &mut numbers[..count], kinds);
        put(made, r, c, start + c, answer)?;
    }
    Ok(())
}

/// Puts the numbers at a mask's offsets from row `r` and column `c` to the front of a list, and says how many there are.
fn collect(mask: &Mask, near: &NearCells, r: u32, c: u32, numbers: &mut [Value]) -> usize
    requires mask { HasHalves mask.now.reach mask.now.halves }
    requires row { r + 2 * mask.now.reach < near.now.height }
    requires column { c + 2 * mask.now.reach < near.now.width }
    requires low { near.now.height ≤ 96 }
    requires narrow { near.now.width ≤ 96 }
    requires room { length numbers.old ≡ 4225 }
    ensures within { result ≤ length numbers.new }
    ensures numbers { take result numbers.new ≡ numbers_round mask.now.reach mask.now.halves near.now.cells near.now.width r c }
{
    let square = near.cells();
    let width = near.width() as u32;
    let mut count = 0;
    for k in 0..2 * mask.reach + 1 {
        let half = mask.halves[k as usize];
        let first = (start_of(r + k, width) + (c + mask.reach - half)) as usize;
        let last = first + (2 * half + 1) as usize;
        count = collect_piece(&square[first..last], numbers, count);
    }
    count
}

/// Puts the numbers of a piece of a row behind the first `count`.
fn collect_piece(piece: &[Cell], numbers: &mut [Value], count: usize) -> usize
    requires { count + length piece.now ≤ length numbers.old }
    ensures within { result ≤ count + length piece.now }
    ensures numbers { take result numbers.new ≡ take count numbers.old ++ numbers_in piece.now }
{
    let mut end = count;
    for cell in piece {
        if let Some(value) = cell.get() {
            numbers[end] = value;
            end += 1;
        }
    }
    end
}
