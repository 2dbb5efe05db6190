//! A grid of the sample by its rows of tiles: workers make them, and they are put together.
ghost use Rattle.std.specs.Prelude.{◌≡◌, ℕ, suc, ◌*◌, ◌<◌, ◌≤◌, length, IfOk, OnOk, slice_index_or};
ghost use Rattle.layer_tiles.specs.Layers.{layer_of};
ghost use Rattle.layer_tiles.specs.Tiles.{tiles_across, tiles_down, tiles_in, tile_block};
ghost use Rattle.layer_tiles.specs.Wholes.{IsCut};
ghost use Rattle.map_sample.specs.Grids.{cells_of, tiles_of_row};

use crate::grids::SampleGrid;
use layer_tiles::{Cell, Extent, Layer, Patch, Tally, Tile};
use map_nums::NoMemory;
use std::alloc::Global;
use tile_workers::{Seat, Work};

/// A grid of the sample, of this size.
#[derive(Drop)]
pub(crate) struct TileRows {
    pub(crate) alloc: Global,
    pub(crate) extent: Extent,
    pub(crate) grid: SampleGrid,
    ghost few: { (extent.rows ≤ 1224) × (extent.columns ≤ 1224) },
}

impl TileRows {
    // A tile.
    fn tile(&self, number: u32) -> Result<Tile, NoMemory>
        requires { number < tiles_in self.now.extent }
        ensures { IfOk result (λ tile. tile ≡ tile_block self.now.extent (cells_of self.now.extent self.now.grid) number) }
    {
        let place = self.extent.place(number);
        let mut made = Tile::new(self.alloc, self.extent, number, Cell::null())?;
        let mut cells = [Cell::null(); 32];
        for r in 0..place.height {
            self.grid
                .put_row(place.top + r + 1, place.left, place.width, &mut cells);
            made.set_row(r, &cells[..place.width as usize]);
        }
        Ok(made)
    }

    // The tiles of a row of tiles, from the left on.
    #[tactic(auto, unfolding(layer_tiles::specs::Tiles::tiles_down, layer_tiles::specs::Tiles::tiles_across))]
    fn row(&self, down: u32) -> Result<Vec<Tile>, NoMemory>
        requires { down < tiles_down self.now.extent }
        ensures { IfOk result (λ tiles. tiles.items ≡ tiles_of_row self.now.extent self.now.grid down) }
    {
        let across = self.extent.tiles_across();
        let mut tiles = Vec::with_capacity(self.alloc, across as usize)?;
        for k in 0..across {
            let tile = self.tile(down * across + k)?;
            tiles.push(tile)?;
        }
        Ok(tiles)
    }

    // Adds the tiles of a row of tiles to those above it.
    #[tactic(auto, unfolding(layer_tiles::specs::Tiles::tiles_down, layer_tiles::specs::Tiles::tiles_across))]
    fn add_row(&self, down: u32, tiles: Vec<Tile>, patch: &mut Patch) -> Result<(), NoMemory>
        requires within { down < tiles_down self.now.extent }
        requires tiles { tiles.items ≡ tiles_of_row self.now.extent self.now.grid down }
        requires above { IsCut self.now.extent (cells_of self.now.extent self.now.grid) (down * tiles_across self.now.extent) patch.old }
        ensures { OnOk result (IsCut self.now.extent (cells_of self.now.extent self.now.grid) (suc down * tiles_across self.now.extent) patch.new) }
    {
        let across = self.extent.tiles_across();
        let mut rest = tiles.into_iter();
        for k in 0..across {
            let Some(tile) = rest.next() else {
                unreachable!();
            };
            patch.push(down * across + k, tile)?;
        }
        Ok(())
    }

    /// The layer of all rows of tiles.
    pub(crate) fn layer(&self, rows: Vec<Result<Vec<Tile>, NoMemory>>) -> Result<Layer, NoMemory>
        requires count { length rows.items ≡ tiles_down self.now.extent }
        requires each { (k : ℕ) (d : _) → k < tiles_down self.now.extent → IfOk (slice_index_or rows.items k d) (λ tiles. tiles.items ≡ tiles_of_row self.now.extent self.now.grid k) }
        ensures { IfOk result (λ layer. layer ≡ layer_of self.now.extent (cells_of self.now.extent self.now.grid) 0) }
    {
        let mut patch = Patch::new(self.alloc, self.extent);
        let mut rest = rows.into_iter();
        for down in 0..self.extent.tiles_down() {
            let Some(row) = rest.next() else {
                unreachable!();
            };
            self.add_row(down, row?, &mut patch)?;
        }
        Ok(Layer::fresh(patch, 0))
    }
}

impl Work for TileRows {
    ghost use Rattle.std.specs.Prelude.{◌≡◌, IfOk, ⊤};
    ghost use Rattle.layer_tiles.specs.Tiles.{tiles_down};
    ghost use Rattle.map_sample.specs.Grids.{tiles_of_row};

    type Done = Result<Vec<Tile>, NoMemory>;

    ghost ready = { λ _. ⊤ };

    ghost jobs = { λ w. tiles_down w.extent };

    ghost looks = { λ w k. 0 };

    ghost picks = { λ w k. 0 };

    ghost answers = { λ w k d. IfOk d (λ tiles. tiles.items ≡ tiles_of_row w.extent w.grid k) };

    #[tactic(auto, unfolding(layer_tiles::specs::Tiles::tiles_down))]
    fn job<M: Tally + Send>(
        &self,
        _seat: &Seat,
        ticket: u64,
        _tally: &mut M,
    ) -> Result<Vec<Tile>, NoMemory> {
        self.row(ticket as u32)
    }
}
