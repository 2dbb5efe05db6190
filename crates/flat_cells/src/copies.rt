//! The copy of all cells, tile by tile.
ghost use Rattle.std.specs.Prelude.{◌≡◌, ◌+◌, ◌<◌, length, IfOk};
ghost use Rattle.map_nums.specs.Grids.{cells_in};
ghost use Rattle.layer_tiles.specs.Tiles.{tiles_in};
ghost use Rattle.layer_tiles.specs.Tallies.{RisesBy, looked};
ghost use Rattle.flat_cells.specs.Copies.{HasTiles};

use layer_tiles::{Cell, Change, NoMemory, Tally};
use std::alloc::Global;

/// All cells of an operand after the edit, row by row. One look at each tile.
///
/// # Errors
///
/// `NoMemory` alone.
pub fn cells_of<M: Tally>(
    alloc: Global,
    of: &Change<'_>,
    tally: &mut M,
) -> Result<Vec<Cell>, NoMemory>
    ensures cells { IfOk result (λ cells. cells.items ≡ of.now.cells) }
    ensures looks { RisesBy (tiles_in of.now.size) 0 (M.counts tally.old) (M.counts tally.new) }
{
    let extent = of.extent();
    let mut cells = vec![in alloc; Cell::null(); extent.cells() as usize]?;
    for tile in 0..extent.tiles() {
        put_tile(of, tile, &mut cells, tally);
    }
    Ok(cells)
}

/// Copies a tile's rows to their places. One look.
fn put_tile<M: Tally>(of: &Change<'_>, tile: u32, cells: &mut [Cell], tally: &mut M)
    requires within { tile < tiles_in of.now.size }
    requires tiles { HasTiles of.now.size of.now.cells tile cells.old }
    ensures tiles { HasTiles of.now.size of.now.cells (tile + 1) cells.new }
    ensures look { M.counts tally.new ≡ looked 1 (M.counts tally.old) }
{
    let extent = of.extent();
    let columns = extent.columns() as usize;
    let place = extent.place(tile);
    let start = place.top as usize * columns + place.left as usize;
    let view = of.view(tile, tally);
    for r in 0..view.height() {
        let first = start + r as usize * columns;
        let row = view.row(r);
        cells[first..first + row.len()].copy_from_slice(row);
    }
}
