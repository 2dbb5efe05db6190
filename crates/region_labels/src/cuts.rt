//! The tiles of a list of labels.
ghost use Rattle.std.specs.Prelude.{◌≡◌, ℕ, ◌<◌, ◌≤◌, length, None, IfOk};
ghost use Rattle.map_nums.specs.Grids.{cells_in, cell_at};
ghost use Rattle.layer_tiles.specs.Tiles.{tiles_in, tile_block};
ghost use Rattle.tile_work.specs.Working.{IsPatchTo};

use crate::kept::Label;
use layer_tiles::{Cell, Extent, NoMemory, Patch, Tile};
use std::alloc::Global;

/// All tiles.
pub fn patch_of(alloc: Global, extent: Extent, labels: &[Label]) -> Result<Patch, NoMemory>
    requires { length labels.now ≡ cells_in extent }
    ensures size { IfOk result (λ patch. patch.size ≡ extent) }
    ensures patch { IfOk result (λ patch. IsPatchTo extent None labels.now patch.tiles) }
{
    let mut patch = Patch::new(alloc, extent);
    for tile in 0..extent.tiles() {
        let made = tile_of(alloc, extent, labels, tile)?;
        patch.push(tile, made)?;
    }
    Ok(patch)
}

/// One tile.
fn tile_of(alloc: Global, extent: Extent, labels: &[Label], tile: u32) -> Result<Tile, NoMemory>
    requires count { length labels.now ≡ cells_in extent }
    requires within { tile < tiles_in extent }
    ensures { IfOk result (λ made. made ≡ tile_block extent labels.now tile) }
{
    let columns = extent.columns();
    let place = extent.place(tile);
    let mut made = Tile::new(alloc, extent, tile, Cell::null())?;
    for r in 0..place.height {
        let start = ((place.top + r) * columns + place.left) as usize;
        let row = cells_of_row(&labels[start..start + place.width as usize]);
        made.set_row(r, &row[..place.width as usize]);
    }
    Ok(made)
}

/// The cells of the labels of a tile's row, and null from there on.
fn cells_of_row(labels: &[Label]) -> [Cell; 32]
    requires { length labels.now ≤ 32 }
    ensures count { length result ≡ 32 }
    ensures each { (k : ℕ) → k < length labels.now → cell_at result k ≡ cell_at labels.now k }
{
    let mut cells = [Cell::null(); 32];
    for k in 0..labels.len() {
        cells[k] = labels[k].cell();
    }
    cells
}
