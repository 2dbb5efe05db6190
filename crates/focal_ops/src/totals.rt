//! The tile of the sums or the means, by what the numbers among the first cells add up to.
ghost use Rattle.std.specs.Prelude.{◌≡◌, ℕ, pos, ◌+ℤ◌, ◌-ℤ◌, ◌≤ℤ◌, ◌+◌, ◌*◌, ◌<◌, ◌≤◌, length, slice_index_or};
ghost use Rattle.map_nums.specs.Exact.{IsExact};
ghost use Rattle.map_nums.specs.Stats.{total_of};
ghost use Rattle.layer_tiles.specs.Tiles.{tiles_in, tile_width};
ghost use Rattle.layer_tiles.specs.PlaceByPlace.{IsPlacesAnswer};
ghost use Rattle.tile_frame.specs.Frames.{by_row};
ghost use Rattle.focal_ops.specs.Masks.{HasHalves, IsGrown, statistic_round};
ghost use Rattle.focal_ops.specs.Totals.{AreFronts, IsWithin, Rises, differences, of_totals, summed};

use crate::fronts::fill_fronts;
use crate::masks::Mask;
use crate::places::start_of;
use layer_tiles::{Extent, KernelRefusal, Tile, Value};
use map_nums::{VMAX, Wide};
use near_cells::NearCells;
use std::alloc::Global;
use tile_frame::{RowMaker, TileMaker, make_row, make_tile};

/// The tile of the sums, or of the means.
pub(crate) fn totals_tile(
    alloc: Global,
    mean: bool,
    mask: &Mask,
    near: &NearCells,
    extent: Extent,
    tile: u32,
) -> Result<Tile, KernelRefusal>
    requires mask { HasHalves mask.now.reach mask.now.halves }
    requires near { IsGrown extent tile mask.now.reach near.now }
    requires within { tile < tiles_in extent }
    ensures { IsPlacesAnswer (by_row (tile_width extent tile) (statistic_round (summed mean) mask.now.reach mask.now.halves near.now.cells near.now.width)) extent tile result }
{
    let _place = extent.place(tile);
    let square = near.cells();
    let Ok(mut sums) = vec![in alloc; 0; square.len() + 1] else {
        return Err(KernelRefusal::NoMemory);
    };
    let Ok(mut counts) = vec![in alloc; 0; square.len() + 1] else {
        return Err(KernelRefusal::NoMemory);
    };
    fill_fronts(square, &mut sums, &mut counts);
    let maker = TotalTile {
        mean,
        mask,
        near,
        sums: &sums,
        counts: &counts,
    };
    make_tile(alloc, &maker, extent, tile)
}

/// The cells round a tile, with the sums and the counts of the first of them.
#[derive(Drop)]
struct TotalTile<'a> {
    mean: bool,
    mask: &'a Mask,
    near: &'a NearCells,
    sums: &'a [i64],
    counts: &'a [i64],
}

impl<'a> TileMaker for TotalTile<'a> {
    ghost use Rattle.focal_ops.specs.Masks.{HasHalves, IsGrown, statistic_round};
    ghost use Rattle.focal_ops.specs.Totals.{AreFronts, summed};

    ghost value = { λ m r c. statistic_round (summed m.mean) m.mask.now.reach m.mask.now.halves m.near.now.cells m.near.now.width r c };

    ghost makes = { λ m s t. HasHalves m.mask.now.reach m.mask.now.halves × IsGrown s t m.mask.now.reach m.near.now × AreFronts m.near.now.cells m.sums.now m.counts.now };

    fn row(&self, extent: Extent, tile: u32, r: u32, made: &mut Tile) -> Result<(), KernelRefusal> {
        let place = extent.place(tile);
        let sums = totals_round(self.mask, self.near, self.sums, r, place.width);
        let counts = totals_round(self.mask, self.near, self.counts, r, place.width);
        let maker = TotalRow {
            mean: self.mean,
            sums: &sums,
            counts: &counts,
        };
        make_row(&maker, extent, tile, r, made)
    }
}

/// The sums and the counts of the numbers round a row's cells.
#[derive(Drop)]
struct TotalRow<'a> {
    mean: bool,
    sums: &'a [i64; 32],
    counts: &'a [i64; 32],
}

impl<'a> RowMaker for TotalRow<'a> {
    ghost use Rattle.std.specs.Prelude.{◌<◌, ◌≤ℤ◌, pos, slice_index_or};
    ghost use Rattle.focal_ops.specs.Totals.{of_totals};

    ghost value = { λ m c. of_totals m.mean (slice_index_or m.sums.now c (pos 0)) (slice_index_or m.counts.now c (pos 0)) };

    ghost has = { λ m c. (c < 32) × (pos 0 ≤ℤ slice_index_or m.counts.now c (pos 0)) };

    fn value_at(&self, c: u32) -> Result<Option<Value>, Wide> {
        answer_of(self.mean, self.sums[c as usize], self.counts[c as usize])
    }
}

/// What the pieces round the first cells of row `r` add up to, by what the first cells of the square add up to.
fn totals_round(mask: &Mask, near: &NearCells, fronts: &[i64], r: u32, columns: u32) -> [i64; 32]
    requires mask { HasHalves mask.now.reach mask.now.halves }
    requires row { r + 2 * mask.now.reach < near.now.height }
    requires columns { columns + 2 * mask.now.reach ≤ near.now.width }
    requires few { columns ≤ 32 }
    requires low { near.now.height ≤ 96 }
    requires narrow { near.now.width ≤ 96 }
    requires count { length near.now.cells ≡ near.now.height * near.now.width }
    requires room { length fronts.now ≡ length near.now.cells + 1 }
    requires fronts { Rises (length near.now.cells) fronts.now }
    ensures { (c : ℕ) → c < columns → slice_index_or result c (pos 0) ≡ differences mask.now.reach mask.now.halves fronts.now near.now.width r c (2 * mask.now.reach + 1) }
{
    let width = near.width() as u32;
    let mut totals = [0; 32];
    for k in 0..2 * mask.reach + 1 {
        let half = mask.halves[k as usize];
        let first = (start_of(r + k, width) + (mask.reach - half)) as usize;
        let last = first + (2 * half + 1) as usize;
        add(
            k as usize,
            &mut totals,
            &fronts[first..first + columns as usize],
            &fronts[last..last + columns as usize],
        );
    }
    totals
}

/// Adds to totals of `k` pieces what the fronts rise by.
fn add(k: usize, totals: &mut [i64], left: &[i64], right: &[i64])
    requires few { k ≤ 65 }
    requires same { length left.now ≡ length right.now }
    requires room { length left.now ≤ length totals.old }
    requires totals { (c : ℕ) → c < length left.now → IsWithin (65 * k) (slice_index_or totals.old c (pos 0)) }
    requires rises { (c : ℕ) → c < length left.now → IsWithin 65 (slice_index_or right.now c (pos 0) -ℤ slice_index_or left.now c (pos 0)) }
    ensures sums { (c : ℕ) → c < length left.now → slice_index_or totals.new c (pos 0) ≡ slice_index_or totals.old c (pos 0) +ℤ (slice_index_or right.now c (pos 0) -ℤ slice_index_or left.now c (pos 0)) }
    ensures within { (c : ℕ) → c < length left.now → IsWithin (65 * (k + 1)) (slice_index_or totals.new c (pos 0)) }
{
    for c in 0..left.len() {
        totals[c] += right[c] - left[c];
    }
}

/// The sum or the mean of `count` numbers that add up to `total`.
fn answer_of(mean: bool, total: i64, count: i64) -> Result<Option<Value>, Wide>
    requires some { pos 0 ≤ℤ count }
    ensures { IsExact (of_totals mean total count) result }
{
    if count == 0 {
        return Ok(None);
    }
    let number = if mean { total.div_euclid(count) } else { total };
    if number < -VMAX || number > VMAX {
        return Err(Wide);
    }
    Ok(Some(number))
}
