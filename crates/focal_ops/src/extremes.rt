//! The tile of the greatest or the least numbers.
ghost use Rattle.std.specs.Prelude.{◌≡◌, ℕ, pos, ◌+◌, ◌*◌, ◌<◌, ◌≤◌, length, slice_index_or};
ghost use Rattle.std.specs.Int.{int_max};
ghost use Rattle.map_nums.specs.Exact.{IsExact};
ghost use Rattle.layer_tiles.specs.Tiles.{tiles_in, tile_width};
ghost use Rattle.layer_tiles.specs.PlaceByPlace.{IsPlacesAnswer};
ghost use Rattle.tile_frame.specs.Frames.{by_row};
ghost use Rattle.focal_ops.specs.Masks.{HasHalves, IsGrown, numbers_round, statistic_round};
ghost use Rattle.focal_ops.specs.Extremes.{IsMost, AreTables, extreme, of_word};

use crate::masks::Mask;
use crate::places::start_of;
use crate::tables::{NOTHING, fill_tables};
use layer_tiles::{Extent, KernelRefusal, Tile, Value};
use map_nums::{VMAX, Wide};
use near_cells::NearCells;
use std::alloc::Global;
use tile_frame::{RowMaker, TileMaker, make_row, make_tile};

/// The tile of the greatest numbers, or of the least.
pub(crate) fn extremes_tile(
    alloc: Global,
    least: bool,
    mask: &Mask,
    near: &NearCells,
    extent: Extent,
    tile: u32,
) -> Result<Tile, KernelRefusal>
    requires mask { HasHalves mask.now.reach mask.now.halves }
    requires near { IsGrown extent tile mask.now.reach near.now }
    requires within { tile < tiles_in extent }
    ensures { IsPlacesAnswer (by_row (tile_width extent tile) (statistic_round (extreme least) mask.now.reach mask.now.halves near.now.cells near.now.width)) extent tile result }
{
    let _place = extent.place(tile);
    let square = near.cells();
    let levels = (2 * mask.reach + 1).ilog2();
    let size = start_of(levels + 1, square.len() as u32);
    let Ok(mut tables) = vec![in alloc; 0; size as usize] else {
        return Err(KernelRefusal::NoMemory);
    };
    fill_tables(least, levels, square, &mut tables);
    tile_of_tables(alloc, least, mask, near, &tables, extent, tile)
}

/// That tile, by tables.
fn tile_of_tables(
    alloc: Global,
    least: bool,
    mask: &Mask,
    near: &NearCells,
    tables: &[Value],
    extent: Extent,
    tile: u32,
) -> Result<Tile, KernelRefusal>
    requires mask { HasHalves mask.now.reach mask.now.halves }
    requires near { IsGrown extent tile mask.now.reach near.now }
    requires tables { AreTables least near.now.cells (2 * mask.now.reach + 1) tables.now }
    requires within { tile < tiles_in extent }
    ensures { IsPlacesAnswer (by_row (tile_width extent tile) (statistic_round (extreme least) mask.now.reach mask.now.halves near.now.cells near.now.width)) extent tile result }
{
    let maker = ExtremeTile {
        least,
        mask,
        near,
        tables,
    };
    make_tile(alloc, &maker, extent, tile)
}

/// The cells round a tile, and their tables.
#[derive(Drop)]
struct ExtremeTile<'a> {
    least: bool,
    mask: &'a Mask,
    near: &'a NearCells,
    tables: &'a [Value],
}

impl<'a> TileMaker for ExtremeTile<'a> {
    ghost use Rattle.std.specs.Prelude.{◌+◌, ◌*◌};
    ghost use Rattle.focal_ops.specs.Masks.{HasHalves, IsGrown, statistic_round};
    ghost use Rattle.focal_ops.specs.Extremes.{AreTables, extreme};

    ghost value = { λ m r c. statistic_round (extreme m.least) m.mask.now.reach m.mask.now.halves m.near.now.cells m.near.now.width r c };

    ghost makes = { λ m s t. HasHalves m.mask.now.reach m.mask.now.halves × IsGrown s t m.mask.now.reach m.near.now × AreTables m.least m.near.now.cells (2 * m.mask.now.reach + 1) m.tables.now };

    fn row(&self, extent: Extent, tile: u32, r: u32, made: &mut Tile) -> Result<(), KernelRefusal> {
        let place = extent.place(tile);
        let words = words_round(
            self.least,
            self.mask,
            self.near,
            self.tables,
            r,
            place.width,
        );
        let maker = ExtremeRow {
            least: self.least,
            words: &words,
        };
        make_row(&maker, extent, tile, r, made)
    }
}

/// The words of a row's cells.
#[derive(Drop)]
struct ExtremeRow<'a> {
    least: bool,
    words: &'a [Value; 32],
}

impl<'a> RowMaker for ExtremeRow<'a> {
    ghost use Rattle.std.specs.Prelude.{◌<◌, pos, slice_index_or};
    ghost use Rattle.focal_ops.specs.Extremes.{of_word};

    ghost value = { λ m c. of_word m.least (slice_index_or m.words.now c (pos 0)) };

    ghost has = { λ m c. c < 32 };

    fn value_at(&self, c: u32) -> Result<Option<Value>, Wide> {
        answer_of(self.least, self.words[c as usize])
    }
}

/// The words of the numbers round the first cells of row `r`.
fn words_round(
    least: bool,
    mask: &Mask,
    near: &NearCells,
    tables: &[Value],
    r: u32,
    columns: u32,
) -> [Value; 32]
    requires mask { HasHalves mask.now.reach mask.now.halves }
    requires row { r + 2 * mask.now.reach < near.now.height }
    requires columns { columns + 2 * mask.now.reach ≤ near.now.width }
    requires few { columns ≤ 32 }
    requires low { near.now.height ≤ 96 }
    requires narrow { near.now.width ≤ 96 }
    requires tables { AreTables least near.now.cells (2 * mask.now.reach + 1) tables.now }
    ensures { (c : ℕ) → c < columns → IsMost least (numbers_round mask.now.reach mask.now.halves near.now.cells near.now.width r c) (slice_index_or result c (pos 0)) }
{
    let count = near.cells().len() as u32;
    let width = near.width() as u32;
    let mut words = [NOTHING; 32];
    for k in 0..2 * mask.reach + 1 {
        let half = mask.halves[k as usize];
        let wide = 2 * half + 1;
        let p = wide.ilog2();
        let start = start_of(r + k, width) + (mask.reach - half);
        let first = (start_of(p, count) + start) as usize;
        let last = first + (wide - (1 << p)) as usize;
        join(
            &mut words,
            &tables[first..first + columns as usize],
            &tables[last..last + columns as usize],
        );
    }
    words
}

/// The greater of words and two others each.
fn join(words: &mut [Value], left: &[Value], right: &[Value])
    requires same { length left.now ≡ length right.now }
    requires room { length left.now ≤ length words.old }
    ensures { (c : ℕ) → c < length left.now → slice_index_or words.new c (pos 0) ≡ int_max (slice_index_or words.old c (pos 0)) (int_max (slice_index_or left.now c (pos 0)) (slice_index_or right.now c (pos 0))) }
{
    for c in 0..left.len() {
        words[c] = words[c].max(left[c].max(right[c]));
    }
}

/// What a word stands for.
fn answer_of(least: bool, word: Value) -> Result<Option<Value>, Wide>
    ensures { IsExact (of_word least word) result }
{
    if word == NOTHING {
        return Ok(None);
    }
    if word < -VMAX || word > VMAX {
        return Err(Wide);
    }
    Ok(Some(if least { -word } else { word }))
}
