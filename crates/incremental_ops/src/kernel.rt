//! A tile of an Incremental operation.
ghost use Rattle.std.specs.Prelude.{◌≡◌, ◌<◌};
ghost use Rattle.map_defs.specs.Incremental.{form_grid};
ghost use Rattle.layer_tiles.specs.Tiles.{tiles_in, tile_width};
ghost use Rattle.layer_tiles.specs.Tallies.{RisesBy};
ghost use Rattle.layer_tiles.specs.Answers.{IsTileAnswer};
ghost use Rattle.layer_tiles.specs.PlaceByPlace.{IsPlacesAnswer};
ghost use Rattle.tile_frame.specs.Frames.{by_row};
ghost use Rattle.incremental_ops.specs.Shapes.{form_of, shape_round, IsGrown};

use crate::rows::ShapeTile;
use crate::values::Shape;
use layer_tiles::{Change, Extent, KernelRefusal, Tally, Tile};
use near_cells::NearCells;
use std::alloc::Global;
use tile_frame::make_tile;

/// Tile `tile` of the shape over the operand after the edit. At most 9 looks.
///
/// # Errors
///
/// `Overflow` at the tile's least cell whose value is out of range, exactly where there is one; `NoMemory`.
pub fn shape_tile<M: Tally>(
    alloc: Global,
    shape: Shape,
    of: &Change<'_>,
    tile: u32,
    tally: &mut M,
) -> Result<Tile, KernelRefusal>
    requires within { tile < tiles_in of.now.size }
    ensures answer { IsTileAnswer of.now.size (form_grid (form_of shape) of.now.size of.now.cells).cells tile result }
    ensures tally { RisesBy 9 0 (M.counts tally.old) (M.counts tally.new) }
{
    let extent = of.extent();
    let window = of.window(tile, 1, tally);
    let Ok(near) = NearCells::of_window(alloc, &window, extent, tile, 1) else {
        return Err(KernelRefusal::NoMemory);
    };
    tile_of_near(alloc, shape, &near, extent, tile)
}

/// The tile that the shape makes of its square grown by one.
fn tile_of_near(
    alloc: Global,
    shape: Shape,
    near: &NearCells,
    extent: Extent,
    tile: u32,
) -> Result<Tile, KernelRefusal>
    requires grown { IsGrown extent tile near.now }
    requires within { tile < tiles_in extent }
    ensures { IsPlacesAnswer (by_row (tile_width extent tile) (shape_round shape near.now)) extent tile result }
{
    let maker = ShapeTile { shape, near };
    make_tile(alloc, &maker, extent, tile)
}
