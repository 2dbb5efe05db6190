//! A whole grid of cells, kept as its tiles, with a stamp for each.
ghost use Rattle.std.specs.Prelude.{◌≡◌, ◌<◌, ◌≤◌, [], length, slice_index, IfOk};
ghost use Rattle.map_nums.specs.Grids.{cells_in, cell_at, constant};
ghost use Rattle.layer_tiles.specs.Tiles.{tiles_in, tile_block};
ghost use Rattle.layer_tiles.specs.Patches.{HoldsAll, patched};
ghost use Rattle.layer_tiles.specs.Layers.{IsLayer, IsCommitted, layer_of};
ghost use Rattle.layer_tiles.specs.Exchanges.{tiles_at};
ghost use Rattle.layer_tiles.specs.Windows.{window_of, span_of, tiles_lent, LendsInReach};
ghost use Rattle.layer_tiles.specs.Tallies.{looked, picked};
ghost use Rattle.layer_tiles.specs.Runs.{run_length, IsRun};

use crate::cells::{Cell, are_cells};
use crate::cuts::{constant_tiles, cut_tiles};
use crate::extents::Extent;
use crate::patches::Patch;
use crate::shared::{SharedTile, shared_tiles};
use crate::tallies::Tally;
use crate::views::TileView;
use crate::wholes::{whole_cell, whole_run, whole_view};
use crate::windows::{Window, span};
use crate::writes::stamp_tiles;
use map_nums::NoMemory;
use std::alloc::Global;
use std::marker::Model;

/// A whole grid of cells, with a stamp for each tile.
#[derive(Drop)]
pub struct Layer {
    extent: Extent,
    /// All tiles in order, with their numbers: the list of a patch that holds every tile.
    tiles: Vec<(u32, SharedTile)>,
    stamps: Vec<u64>,
}

impl Model for Layer {
    ghost use Rattle.std.specs.Prelude.{[]};
    ghost use Rattle.layer_tiles.specs.Patches.{patched};
    ghost use Rattle.layer_tiles.specs.Layers.{LayerState};
    ghost use Rattle.layer_tiles.specs.Wholes.{IsTiled};

    ghost Value = { LayerState };

    ghost view = { λ l. record { size = l.extent; cells = patched l.extent [] l.tiles.items; stamps = l.stamps.items } };

    ghost invariant = { λ l. IsTiled l.extent l.tiles.items l.stamps.items };
}

impl Layer {
    /// One cell everywhere, with one stamp for all tiles.
    pub fn constant(
        alloc: Global,
        extent: Extent,
        cell: Cell,
        stamp: u64,
    ) -> Result<Layer, NoMemory>
        ensures { IfOk result (λ layer. layer ≡ layer_of extent (constant extent cell).cells stamp) }
    {
        let patch = constant_tiles(alloc, extent, cell)?;
        Ok(Layer::fresh(patch, stamp))
    }

    /// The cells row by row, with one stamp for all tiles.
    pub fn from_cells(
        alloc: Global,
        extent: Extent,
        cells: &[Cell],
        stamp: u64,
    ) -> Result<Layer, NoMemory>
        requires { length cells.now ≡ cells_in extent }
        ensures { IfOk result (λ layer. layer ≡ layer_of extent cells.now stamp) }
    {
        are_cells(cells);
        let patch = cut_tiles(alloc, extent, cells)?;
        Ok(Layer::fresh(patch, stamp))
    }

    /// The layer of a list of cells, row by row, with one stamp for all tiles.
    pub fn of_cells(
        alloc: Global,
        extent: Extent,
        cells: Vec<Cell>,
        stamp: u64,
    ) -> Result<Layer, NoMemory>
        requires { length cells.items ≡ cells_in extent }
        ensures { IfOk result (λ layer. layer ≡ layer_of extent cells.items stamp) }
    {
        Layer::from_cells(alloc, extent, &cells, stamp)
    }

    /// The layer of a patch that holds every tile, with one stamp for all tiles. It takes the patch's lists over, and wants
    /// no memory.
    pub fn fresh(patch: Patch, stamp: u64) -> Layer
        requires { HoldsAll patch }
        ensures { result ≡ layer_of patch.size (patched patch.size [] patch.tiles) stamp }
    {
        let extent = patch.extent();
        let (tiles, stamps) = patch.completed();
        let mut layer = Layer {
            extent,
            tiles,
            stamps,
        };
        layer.restamp(stamp);
        layer
    }

    /// The same grid with the same stamps. The tiles are shared, and no cell is copied.
    pub fn copy(&self, alloc: Global) -> Result<Layer, NoMemory>
        ensures { IfOk result (λ layer. layer ≡ self.now) }
    {
        Ok(Layer {
            extent: self.extent,
            tiles: shared_tiles(alloc, &self.tiles)?,
            stamps: Vec::from_slice(alloc, &self.stamps)?,
        })
    }

    pub fn extent(&self) -> Extent
        ensures extent { result ≡ self.now.size }
        ensures layer { IsLayer self.now }
    {
        self.extent
    }

    /// A tile of the layer. One look.
    pub fn view<'a, M: Tally>(&'a self, tile: u32, tally: &mut M) -> TileView<'a>
        requires { tile < tiles_in self.now.size }
        ensures tile { result ≡ tile_block self.now.size self.now.cells tile }
        ensures look { M.counts tally.new ≡ looked 1 (M.counts tally.old) }
    {
        tally.look();
        whole_view(self.extent, &self.tiles, tile)
    }

    /// One cell. One pick.
    pub fn cell<M: Tally>(&self, at: u32, tally: &mut M) -> Cell
        requires { at < cells_in self.now.size }
        ensures cell { result ≡ cell_at self.now.cells at }
        ensures pick { M.counts tally.new ≡ picked 1 (M.counts tally.old) }
    {
        tally.pick();
        self.peek(at)
    }

    /// The stamp of a tile.
    pub fn stamp(&self, tile: u32) -> u64
        requires { tile < tiles_in self.now.size }
        ensures { result ≡ slice_index self.now.stamps tile }
    {
        self.stamps[tile as usize]
    }

    /// Puts each tile of a patch in place of the layer's own. A tile whose cells differ gets the stamp.
    pub fn commit(&mut self, patch: Patch, stamp: u64)
        requires { patch.size ≡ self.old.size }
        ensures { IsCommitted self.old patch stamp self.new }
    {
        let _own = self.exchange(patch, stamp);
    }

    /// Puts each tile of a patch in place of the layer's own, and hands the layer's own tiles back. A tile whose cells differ
    /// gets the stamp.
    pub fn exchange(&mut self, mut patch: Patch, stamp: u64) -> Patch
        requires { patch.size ≡ self.old.size }
        ensures committed { IsCommitted self.old patch stamp self.new }
        ensures taken { result ≡ record { size = patch.size; tiles = tiles_at self.old.size self.old.cells patch.tiles } }
    {
        stamp_tiles(self.extent, &patch, &self.tiles, &mut self.stamps, stamp);
        patch.swap_with(&mut self.tiles);
        patch
    }

    /// Gives every tile the stamp.
    pub fn restamp(&mut self, stamp: u64)
        ensures { self.new ≡ layer_of self.old.size self.old.cells stamp }
    {
        self.stamps.fill(stamp);
    }

    /// The tiles that meet a tile's square grown by a reach. One look each.
    pub fn window<M: Tally>(&self, tile: u32, reach: u32, tally: &mut M) -> Window<'_>
        requires within { tile < tiles_in self.now.size }
        requires reach { reach ≤ 64 }
        ensures window { result ≡ window_of self.now.size self.now.cells tile reach }
        ensures lent { LendsInReach self.now.size tile reach (span_of self.now.size tile reach) }
        ensures looks { M.counts tally.new ≡ looked (tiles_lent (span_of self.now.size tile reach)) (M.counts tally.old) }
    {
        let lent = span(self.extent(), tile, reach, tally);
        Window::of_layer(self, lent)
    }

    /// The cells from one on, to the end of its row within its tile, uncounted.
    pub(crate) fn run(&self, at: u32, count: usize) -> &[Cell]
        requires within { at < cells_in self.now.size }
        requires count { count ≡ run_length self.now.size at }
        ensures { IsRun self.now.size self.now.cells at result.now }
    {
        whole_run(self.extent, &self.tiles, at, count)
    }

    /// One cell, uncounted.
    pub(crate) fn peek(&self, at: u32) -> Cell
        requires { at < cells_in self.now.size }
        ensures { result ≡ cell_at self.now.cells at }
    {
        whole_cell(self.extent, &self.tiles, at)
    }
}
