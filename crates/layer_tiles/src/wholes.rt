//! All tiles of a grid in order, each with its number.
ghost use Rattle.std.specs.Prelude.{◌≡◌, ◌<◌, [], Some};
ghost use Rattle.map_nums.specs.Grids.{cells_in, cell_at};
ghost use Rattle.layer_tiles.specs.Tiles.{tiles_in, tile_block};
ghost use Rattle.layer_tiles.specs.Patches.{patch_get, patched};
ghost use Rattle.layer_tiles.specs.Wholes.{IsWhole};
ghost use Rattle.layer_tiles.specs.Runs.{run_length, IsRun};

use crate::cells::Cell;
use crate::extents::Extent;
use crate::shared::SharedTile;
use crate::tiles::Tile;
use crate::views::TileView;

/// The tile of a number.
fn tile_at(extent: Extent, tiles: &[(u32, SharedTile)], number: u32) -> &Tile
    requires whole { IsWhole extent tiles.now }
    requires within { number < tiles_in extent }
    ensures { patch_get tiles.now number ≡ Some result.now }
{
    let entry = &tiles[number as usize];
    entry.1.tile()
}

/// A tile, lent.
pub(crate) fn whole_view(extent: Extent, tiles: &[(u32, SharedTile)], number: u32) -> TileView<'_>
    requires whole { IsWhole extent tiles.now }
    requires within { number < tiles_in extent }
    ensures { result ≡ tile_block extent (patched extent [] tiles.now) number }
{
    tile_at(extent, tiles, number).view()
}

/// One cell.
pub(crate) fn whole_cell(extent: Extent, tiles: &[(u32, SharedTile)], at: u32) -> Cell
    requires whole { IsWhole extent tiles.now }
    requires within { at < cells_in extent }
    ensures { result ≡ cell_at (patched extent [] tiles.now) at }
{
    let place = extent.place_in(at);
    let tile = tile_at(extent, tiles, extent.tile_of(at));
    tile.cell(place)
}

/// The cells from one on, to the end of its row within its tile.
pub(crate) fn whole_run(
    extent: Extent,
    tiles: &[(u32, SharedTile)],
    at: u32,
    count: usize,
) -> &[Cell]
    requires whole { IsWhole extent tiles.now }
    requires within { at < cells_in extent }
    requires count { count ≡ run_length extent at }
    ensures { IsRun extent (patched extent [] tiles.now) at result.now }
{
    let place = extent.place_in(at);
    let tile = tile_at(extent, tiles, extent.tile_of(at));
    tile.run(place, count)
}
