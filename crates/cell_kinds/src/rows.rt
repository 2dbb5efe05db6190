//! Rows of a layer, gathered from its tiles.
ghost use Rattle.std.specs.Prelude.{◌≡◌, ◌+◌, ◌*◌, ◌/◌, ◌<◌, ◌++◌, take, drop, IfOk, OnOk};
ghost use Rattle.layer_tiles.specs.Layers.{IsLayer};
ghost use Rattle.layer_tiles.specs.Tiles.{tiles_across, tile_block};
ghost use Rattle.layer_tiles.specs.Tallies.{RisesBy, looked};

use layer_tiles::{Cell, Layer, Tally, TileView};
use map_nums::NoMemory;
use std::alloc::Global;

/// The `k`-th tile that row `r` of a layer crosses. One look.
pub(crate) fn crossed_tile<'a, M: Tally>(
    layer: &'a Layer,
    r: u32,
    k: u32,
    tally: &mut M,
) -> TileView<'a>
    requires row { r < layer.now.size.rows }
    requires tile { k < tiles_across layer.now.size }
    ensures tile { result ≡ tile_block layer.now.size layer.now.cells (r / 32 * tiles_across layer.now.size + k) }
    ensures look { M.counts tally.new ≡ looked 1 (M.counts tally.old) }
{
    let across = layer.extent().tiles_across();
    layer.view(r / 32 * across + k, tally)
}

/// Puts row `r` of a layer behind the cells that are there. One look at each tile that it crosses.
pub fn push_row<M: Tally>(
    cells: &mut Vec<Cell>,
    layer: &Layer,
    r: u32,
    tally: &mut M,
) -> Result<(), NoMemory>
    requires { r < layer.now.size.rows }
    ensures row { OnOk result (cells.new.items ≡ cells.old.items ++ take layer.now.size.columns (drop (r * layer.now.size.columns) layer.now.cells)) }
    ensures looks { RisesBy (tiles_across layer.now.size) 0 (M.counts tally.old) (M.counts tally.new) }
{
    let across = layer.extent().tiles_across();
    for k in 0..across {
        let tile = crossed_tile(layer, r, k, tally);
        cells.extend_from_slice(tile.row(r % 32))?;
    }
    Ok(())
}

/// All cells of a layer, row by row. One look at each tile that a row crosses.
pub(crate) fn all_cells<M: Tally>(
    alloc: Global,
    layer: &Layer,
    tally: &mut M,
) -> Result<Vec<Cell>, NoMemory>
    ensures cells { IfOk result (λ cells. cells.items ≡ layer.now.cells) }
    ensures layer { IsLayer layer.now }
    ensures looks { RisesBy (layer.now.size.rows * tiles_across layer.now.size) 0 (M.counts tally.old) (M.counts tally.new) }
{
    let extent = layer.extent();
    let mut cells = Vec::with_capacity(alloc, extent.cells() as usize)?;
    for r in 0..extent.rows() {
        push_row(&mut cells, layer, r, tally)?;
    }
    Ok(cells)
}
