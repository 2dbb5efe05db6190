//! Patches of all the tiles of a grid.
ghost use Rattle.std.specs.Prelude.{◌≡◌, ◌<◌, length, IfOk};
ghost use Rattle.map_nums.specs.Grids.{IsSize, cells_in, constant};
ghost use Rattle.layer_tiles.specs.Cells.{AreCells};
ghost use Rattle.layer_tiles.specs.Tiles.{tiles_in, tile_block};
ghost use Rattle.layer_tiles.specs.Wholes.{IsCut};

use crate::cells::Cell;
use crate::extents::Extent;
use crate::patches::Patch;
use crate::tiles::Tile;
use crate::views::TileView;
use map_nums::NoMemory;
use std::alloc::Global;

/// The tiles of a list of cells.
pub(crate) fn cut_tiles(alloc: Global, extent: Extent, cells: &[Cell]) -> Result<Patch, NoMemory>
    requires count { length cells.now ≡ cells_in extent }
    requires are_cells { AreCells cells.now }
    ensures size { IsSize extent }
    ensures cut { IfOk result (λ patch. IsCut extent cells.now (tiles_in extent) patch) }
{
    let mut patch = Patch::new(alloc, extent);
    for number in 0..extent.tiles() {
        let tile = cut(alloc, extent, cells, number)?;
        patch.push(number, tile)?;
    }
    Ok(patch)
}

/// A tile of a list of cells.
fn cut(alloc: Global, extent: Extent, cells: &[Cell], number: u32) -> Result<Tile, NoMemory>
    requires count { length cells.now ≡ cells_in extent }
    requires are_cells { AreCells cells.now }
    requires within { number < tiles_in extent }
    ensures { IfOk result (λ tile. tile ≡ tile_block extent cells.now number) }
{
    let place = extent.place(number);
    let columns = extent.columns() as usize;
    let lent = TileView::lend(
        cells,
        place.top as usize * columns + place.left as usize,
        columns,
        place.height as usize,
        place.width as usize,
    );
    lent.to_tile(alloc)
}

/// The tiles of one cell everywhere.
pub(crate) fn constant_tiles(alloc: Global, extent: Extent, cell: Cell) -> Result<Patch, NoMemory>
    ensures size { IsSize extent }
    ensures cut { IfOk result (λ patch. IsCut extent (constant extent cell).cells (tiles_in extent) patch) }
{
    let mut patch = Patch::new(alloc, extent);
    for number in 0..extent.tiles() {
        let tile = Tile::new(alloc, extent, number, cell)?;
        patch.push(number, tile)?;
    }
    Ok(patch)
}
