//! The tile that an operation makes of lent ones. What it does to two operands is asked once for a tile, so that each of the simple
//! ones has a loop of its own.
ghost use Rattle.std.specs.Prelude.{◌≡◌, ◌<◌, length};
ghost use Rattle.map_defs.specs.Local.{of_stat};
ghost use Rattle.layer_tiles.specs.PlaceByPlace.{IsPlacesAnswer};
ghost use Rattle.layer_tiles.specs.Tiles.{tiles_in, tile_height, tile_width};
ghost use Rattle.tile_frame.specs.Frames.{by_row};
ghost use Rattle.local_ops.specs.Operations.{op_of, Takes};
ghost use Rattle.local_ops.specs.Operands.{cell_by, HaveSize};

use crate::ops::LocalOp;
use crate::pairs::{
    AnyPresent, AnyStat, BothPresent, Differences, Maxima, Minima, Pairing, Products, Ratios,
    StatOfTwo, Sums,
};
use crate::rows::{row_of_any, row_of_two};
use layer_tiles::{Extent, KernelRefusal, Tile, TileView};
use map_nums::Stat;
use std::alloc::Global;
use tile_frame::{TileMaker, make_tile};

/// An operation on two values, and a tile of each of two operands.
#[derive(Drop)]
struct TileOfTwo<'a, 'b, P> {
    pairing: &'a P,
    views: &'a [TileView<'b>],
}

impl<'a, 'b, P: Pairing> TileMaker for TileOfTwo<'a, 'b, P> {
    ghost use Rattle.std.specs.Prelude.{◌≡◌, length};
    ghost use Rattle.layer_tiles.specs.Tiles.{tile_height, tile_width};
    ghost use Rattle.local_ops.specs.Operands.{cell_by, HaveSize};

    ghost value = { λ m r c. cell_by (P.op m.pairing.now) m.views.now r c };

    ghost makes = { λ m s t. (length m.views.now ≡ 2) × HaveSize (tile_height s t) (tile_width s t) m.views.now };

    fn row(&self, extent: Extent, tile: u32, r: u32, made: &mut Tile) -> Result<(), KernelRefusal> {
        row_of_two(self.pairing, self.views, extent, tile, r, made)
    }
}

/// An operation, and a tile of each of its operands.
#[derive(Drop)]
struct TileOfAny<'a, 'b> {
    op: &'a LocalOp,
    views: &'a [TileView<'b>],
}

impl<'a, 'b> TileMaker for TileOfAny<'a, 'b> {
    ghost use Rattle.std.specs.Prelude.{length};
    ghost use Rattle.layer_tiles.specs.Tiles.{tile_height, tile_width};
    ghost use Rattle.local_ops.specs.Operations.{op_of, Takes};
    ghost use Rattle.local_ops.specs.Operands.{cell_by, HaveSize};

    ghost value = { λ m r c. cell_by (op_of m.op.now) m.views.now r c };

    ghost makes = { λ m s t. Takes (op_of m.op.now) (length m.views.now) × HaveSize (tile_height s t) (tile_width s t) m.views.now };

    fn row(&self, extent: Extent, tile: u32, r: u32, made: &mut Tile) -> Result<(), KernelRefusal> {
        row_of_any(self.op, self.views, extent, tile, r, made)
    }
}

/// The tile of an operation.
pub fn tile_of_views(
    alloc: Global,
    op: &LocalOp,
    views: &[TileView<'_>],
    extent: Extent,
    tile: u32,
) -> Result<Tile, KernelRefusal>
    requires takes { Takes (op_of op.now) (length views.now) }
    requires within { tile < tiles_in extent }
    requires sizes { HaveSize (tile_height extent tile) (tile_width extent tile) views.now }
    ensures { IsPlacesAnswer (by_row (tile_width extent tile) (cell_by (op_of op.now) views.now)) extent tile result }
{
    if views.len() == 2 {
        return tile_of_pair(alloc, op, views, extent, tile);
    }
    make_tile(alloc, &TileOfAny { op, views }, extent, tile)
}

/// The same for two operands.
fn tile_of_pair(
    alloc: Global,
    op: &LocalOp,
    views: &[TileView<'_>],
    extent: Extent,
    tile: u32,
) -> Result<Tile, KernelRefusal>
    requires two { length views.now ≡ 2 }
    requires takes { Takes (op_of op.now) 2 }
    requires within { tile < tiles_in extent }
    requires sizes { HaveSize (tile_height extent tile) (tile_width extent tile) views.now }
    ensures { IsPlacesAnswer (by_row (tile_width extent tile) (cell_by (op_of op.now) views.now)) extent tile result }
{
    match op {
        LocalOp::Stat(stat) => tile_of_stat::<false>(alloc, *stat, views, extent, tile),
        LocalOp::Ignoring(stat) => tile_of_stat::<true>(alloc, *stat, views, extent, tile),
        LocalOp::Difference => tile_of_two(alloc, &Differences, views, extent, tile),
        LocalOp::Ratio => tile_of_two(alloc, &Ratios, views, extent, tile),
        LocalOp::Rating(_) => unreachable!(),
    }
}

/// The same for a statistic that ignores nulls or doesn't.
fn tile_of_stat<const IGNORING: bool>(
    alloc: Global,
    stat: Stat,
    views: &[TileView<'_>],
    extent: Extent,
    tile: u32,
) -> Result<Tile, KernelRefusal>
    requires two { length views.now ≡ 2 }
    requires within { tile < tiles_in extent }
    requires sizes { HaveSize (tile_height extent tile) (tile_width extent tile) views.now }
    ensures { IsPlacesAnswer (by_row (tile_width extent tile) (cell_by (of_stat stat IGNORING) views.now)) extent tile result }
{
    match stat {
        Stat::Sum => tile_by_nulls::<_, IGNORING>(alloc, Sums, views, extent, tile),
        Stat::Product => tile_by_nulls::<_, IGNORING>(alloc, Products, views, extent, tile),
        Stat::Maximum => tile_by_nulls::<_, IGNORING>(alloc, Maxima, views, extent, tile),
        Stat::Minimum => tile_by_nulls::<_, IGNORING>(alloc, Minima, views, extent, tile),
        _ => tile_by_nulls::<_, IGNORING>(alloc, AnyStat(stat), views, extent, tile),
    }
}

/// The same for a statistic as a type.
fn tile_by_nulls<P: StatOfTwo + Drop, const IGNORING: bool>(
    alloc: Global,
    statistic: P,
    views: &[TileView<'_>],
    extent: Extent,
    tile: u32,
) -> Result<Tile, KernelRefusal>
    requires two { length views.now ≡ 2 }
    requires within { tile < tiles_in extent }
    requires sizes { HaveSize (tile_height extent tile) (tile_width extent tile) views.now }
    ensures { IsPlacesAnswer (by_row (tile_width extent tile) (cell_by (of_stat (P.stat statistic) IGNORING) views.now)) extent tile result }
{
    if IGNORING {
        tile_of_two(alloc, &AnyPresent { statistic }, views, extent, tile)
    } else {
        tile_of_two(alloc, &BothPresent { statistic }, views, extent, tile)
    }
}

/// The tile of an operation on two values.
fn tile_of_two<P: Pairing>(
    alloc: Global,
    pairing: &P,
    views: &[TileView<'_>],
    extent: Extent,
    tile: u32,
) -> Result<Tile, KernelRefusal>
    requires two { length views.now ≡ 2 }
    requires within { tile < tiles_in extent }
    requires sizes { HaveSize (tile_height extent tile) (tile_width extent tile) views.now }
    ensures { IsPlacesAnswer (by_row (tile_width extent tile) (cell_by (P.op pairing.now) views.now)) extent tile result }
{
    make_tile(alloc, &TileOfTwo { pairing, views }, extent, tile)
}
