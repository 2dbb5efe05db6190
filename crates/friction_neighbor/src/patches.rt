//! All tiles of a grid, one after another.
ghost use Rattle.std.specs.Prelude.{◌≡◌, ◌<◌, ℕ, IsFalse, length, None, IfOk};
ghost use Rattle.map_nums.specs.Answers.{is_wide};
ghost use Rattle.map_nums.specs.Grids.{cells_in, cell_at};
ghost use Rattle.tile_work.specs.Working.{IsPatchTo};

use layer_tiles::{Extent, KernelRefusal, NoMemory, Patch, Tile};
use std::alloc::Global;

/// What makes the tiles of a grid, one by one.
pub trait TileSource {
    ghost use Rattle.std.specs.Prelude.{◌<◌};
    ghost use Rattle.map_nums.specs.Grids.{Size, Cells};
    ghost use Rattle.layer_tiles.specs.Answers.{IsTileAnswer};
    ghost use Rattle.layer_tiles.specs.Tiles.{tiles_in};

    /// The cells of the grid.
    ghost cells: { Self → Size → Cells };

    /// It makes the tiles of a grid of this size.
    ghost makes: { Self → Size → Type 0 };

    /// A tile of the grid.
    fn tile(&self, alloc: Global, extent: Extent, tile: u32) -> Result<Tile, KernelRefusal>
        requires makes { makes self.now extent }
        requires within { tile < tiles_in extent }
        ensures { IsTileAnswer extent (cells self.now extent) tile result };
}

/// All tiles of a grid whose cells are in range.
pub fn patch_of<S: TileSource>(alloc: Global, source: &S, extent: Extent) -> Result<Patch, NoMemory>
    requires makes { S.makes source.now extent }
    requires count { length (S.cells source.now extent) ≡ cells_in extent }
    requires in_range { (i : ℕ) → IsFalse (is_wide (cell_at (S.cells source.now extent) i)) }
    ensures size { IfOk result (λ patch. patch.size ≡ extent) }
    ensures patch { IfOk result (λ patch. IsPatchTo extent None (S.cells source.now extent) patch.tiles) }
{
    let mut patch = Patch::new(alloc, extent);
    for tile in 0..extent.tiles() {
        match source.tile(alloc, extent, tile) {
            Ok(made) => patch.push(tile, made)?,
            Err(KernelRefusal::Overflow(_)) => unreachable!(),
            Err(KernelRefusal::NoMemory) => return Err(NoMemory),
        }
    }
    Ok(patch)
}
