//! A tile, row by row.
ghost use Rattle.std.specs.Prelude.{◌≡◌, ◌<◌};
ghost use Rattle.layer_tiles.specs.Tiles.{tiles_in, tile_width};
ghost use Rattle.layer_tiles.specs.PlaceByPlace.{IsPlacesAnswer};
ghost use Rattle.tile_frame.specs.Frames.{by_row};

use layer_tiles::{Cell, Extent, KernelRefusal, Tile};
use std::alloc::Global;

/// What makes the rows of a tile, one by one.
pub trait TileMaker {
    ghost use Rattle.std.specs.Prelude.{ℕ, ◌<◌, ℤ, Option};
    ghost use Rattle.map_nums.specs.Grids.{Size};
    ghost use Rattle.layer_tiles.specs.Tiles.{tiles_in, tile_height, IsBlockOf};
    ghost use Rattle.tile_frame.specs.Frames.{IsRowAnswer};

    /// The value at each row and column, with no bound.
    ghost value: { Self → ℕ → ℕ → Option ℤ };

    /// It makes this tile of a grid of this size.
    ghost makes: { Self → Size → ℕ → Type 0 };

    /// Makes row `r` of the tile, by `make_row` mostly.
    fn row(&self, extent: Extent, tile: u32, r: u32, made: &mut Tile) -> Result<(), KernelRefusal>
        requires makes { makes self.now extent tile }
        requires within { tile < tiles_in extent }
        requires row { r < tile_height extent tile }
        requires size { IsBlockOf extent tile made.old }
        ensures { IsRowAnswer (value self.now r) extent tile r made.old made.new result };
}

/// Makes a tile.
///
/// # Errors
///
/// `Overflow` at the tile's least cell whose value is out of range, exactly where there is one; `NoMemory`.
pub fn make_tile<K: TileMaker>(
    alloc: Global,
    maker: &K,
    extent: Extent,
    tile: u32,
) -> Result<Tile, KernelRefusal>
    requires makes { K.makes maker.now extent tile }
    requires within { tile < tiles_in extent }
    ensures { IsPlacesAnswer (by_row (tile_width extent tile) (K.value maker.now)) extent tile result }
{
    let Ok(mut made) = Tile::new(alloc, extent, tile, Cell::null()) else {
        return Err(KernelRefusal::NoMemory);
    };
    for r in 0..extent.place(tile).height {
        maker.row(extent, tile, r, &mut made)?;
    }
    Ok(made)
}
