//! A tile of a Focal operation.
ghost use Rattle.std.specs.Prelude.{◌≡◌, ◌<◌, ◌≤◌, IfSome};
ghost use Rattle.map_defs.specs.Focal.{focal_grid, offsets_of};
ghost use Rattle.layer_tiles.specs.Tiles.{tiles_in, tile_width};
ghost use Rattle.layer_tiles.specs.Tallies.{RisesBy};
ghost use Rattle.layer_tiles.specs.Answers.{IsTileAnswer};
ghost use Rattle.layer_tiles.specs.PlaceByPlace.{IsPlacesAnswer};
ghost use Rattle.tile_frame.specs.Frames.{by_row};
ghost use Rattle.focal_ops.specs.Masks.{HasHalves, IsGrown, statistic_round};

use crate::extremes::extremes_tile;
use crate::masks::{Mask, mask_of};
use crate::numbers::numbers_tile;
use crate::totals::totals_tile;
use layer_tiles::{Change, Extent, KernelRefusal, Tally, Tile};
use map_nums::Stat;
use near_cells::NearCells;
use std::alloc::Global;

/// Tile `tile` of the statistic over the disc of a radius, or without one over the square of three by three, of the operand
/// after the edit. At most 9 looks.
///
/// # Errors
///
/// `Overflow` at the tile's least cell whose value is out of range, exactly where there is one; `NoMemory`.
pub fn focal_tile<M: Tally>(
    alloc: Global,
    stat: Stat,
    of: &Change<'_>,
    radius: Option<u32>,
    tile: u32,
    tally: &mut M,
) -> Result<Tile, KernelRefusal>
    requires radius { IfSome radius (λ r. r ≤ 32) }
    requires within { tile < tiles_in of.now.size }
    ensures answer { IsTileAnswer of.now.size (focal_grid stat (offsets_of radius) of.now.size of.now.cells).cells tile result }
    ensures tally { RisesBy 9 0 (M.counts tally.old) (M.counts tally.new) }
{
    let extent = of.extent();
    let mask = mask_of(radius);
    let window = of.window(tile, mask.reach, tally);
    let Ok(near) = NearCells::of_window(alloc, &window, extent, tile, mask.reach) else {
        return Err(KernelRefusal::NoMemory);
    };
    tile_of_near(alloc, stat, &mask, &near, extent, tile)
}

/// The tile that the statistic makes of its grown square, by the way that is short for it.
fn tile_of_near(
    alloc: Global,
    stat: Stat,
    mask: &Mask,
    near: &NearCells,
    extent: Extent,
    tile: u32,
) -> Result<Tile, KernelRefusal>
    requires mask { HasHalves mask.now.reach mask.now.halves }
    requires near { IsGrown extent tile mask.now.reach near.now }
    requires within { tile < tiles_in extent }
    ensures { IsPlacesAnswer (by_row (tile_width extent tile) (statistic_round stat mask.now.reach mask.now.halves near.now.cells near.now.width)) extent tile result }
{
    match stat {
        Stat::Maximum => extremes_tile(alloc, false, mask, near, extent, tile),
        Stat::Minimum => extremes_tile(alloc, true, mask, near, extent, tile),
        Stat::Sum => totals_tile(alloc, false, mask, near, extent, tile),
        Stat::Mean => totals_tile(alloc, true, mask, near, extent, tile),
        _ => numbers_tile(alloc, stat, mask, near, extent, tile),
    }
}
