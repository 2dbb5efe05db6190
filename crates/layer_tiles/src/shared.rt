//! A tile that several grids and patches hold. No code writes cells of a tile once it is shared, not even while one grid alone
//! holds it: a patch puts another tile in its place, so that no write wants a copy of cells first.
ghost use Rattle.std.specs.Prelude.{◌≡◌, IfOk};

use crate::tiles::Tile;
use map_nums::NoMemory;
use std::alloc::Global;
use std::marker::Model;
use std::sync::Arc;

/// A tile in memory that counts how many hold it.
#[derive(Drop)]
pub(crate) struct SharedTile {
    tile: Arc<Tile, Global>,
}

impl Model for SharedTile {
    ghost use Rattle.std.specs.Arc.{arc_value};
    ghost use Rattle.layer_tiles.specs.Tiles.{Block};

    ghost Value = { Block };

    ghost view = { λ s. arc_value s.tile };
}

impl SharedTile {
    /// A tile that one holds.
    pub fn new(alloc: Global, tile: Tile) -> Result<SharedTile, NoMemory>
        ensures { IfOk result (λ shared. shared ≡ tile) }
    {
        Ok(SharedTile {
            tile: Arc::new(alloc, tile)?,
        })
    }

    /// The same tile, with the same memory, that one more holds.
    pub fn share(&self) -> Result<SharedTile, NoMemory>
        ensures { IfOk result (λ shared. shared ≡ self.now) }
    {
        Ok(SharedTile {
            tile: Arc::try_clone(&self.tile)?,
        })
    }

    /// The tile, lent.
    pub fn tile(&self) -> &Tile
        ensures { result.now ≡ self.now }
    {
        &self.tile
    }
}

/// The same tiles under the same numbers. No cell is copied.
pub(crate) fn shared_tiles(
    alloc: Global,
    tiles: &[(u32, SharedTile)],
) -> Result<Vec<(u32, SharedTile)>, NoMemory>
    ensures { IfOk result (λ copy. copy.items ≡ tiles.now) }
{
    let mut copy = Vec::with_capacity(alloc, tiles.len())?;
    for entry in tiles {
        copy.push((entry.0, entry.1.share()?))?;
    }
    Ok(copy)
}
