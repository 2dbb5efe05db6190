//! One tile of cells.
ghost use Rattle.std.specs.Prelude.{◌≡◌, ◌+◌, ◌*◌, ◌<◌, ◌≤◌, length, take, drop, replicate, slice_set, IfOk, IsTrue, ◌↔◌};
ghost use Rattle.map_nums.specs.Grids.{cell_at};
ghost use Rattle.layer_tiles.specs.Cells.{AreCells};
ghost use Rattle.layer_tiles.specs.Tiles.{Block, IsBlock, ArePut, IsRowSet, block_row, tiles_in, tile_size, tile_height, tile_width};

use crate::cells::{Cell, are_cells};
use crate::extents::Extent;
use crate::views::TileView;
use map_nums::NoMemory;
use std::alloc::Global;
use std::marker::Model;

/// A rectangle of cells, of the size of a tile.
#[derive(Drop)]
pub struct Tile {
    height: usize,
    width: usize,
    cells: Vec<Cell>,
}

impl Model for Tile {
    ghost use Rattle.layer_tiles.specs.Cells.{AreCells};
    ghost use Rattle.layer_tiles.specs.Tiles.{Block, IsBlock};

    ghost Value = { Block };

    ghost view = { λ t. record { height = t.height; width = t.width; cells = t.cells.items } };

    ghost invariant = { λ t. IsBlock (record { height = t.height; width = t.width; cells = t.cells.items }) × AreCells t.cells.items };
}

impl Tile {
    /// A tile of one cell everywhere.
    pub fn new(alloc: Global, extent: Extent, tile: u32, fill: Cell) -> Result<Tile, NoMemory>
        requires { tile < tiles_in extent }
        ensures { IfOk result
            (λ t. t ≡ record { height = tile_height extent tile; width = tile_width extent tile; cells = replicate (tile_size extent tile) fill }) }
    {
        let _value = fill.get();
        let place = extent.place(tile);
        let height = place.height as usize;
        let width = place.width as usize;
        Ok(Tile {
            height,
            width,
            cells: vec![in alloc; fill; height * width]?,
        })
    }

    /// A tile of rows that lie one after another.
    pub(crate) fn of_rows(height: usize, width: usize, cells: Vec<Cell>) -> Tile
        requires block { IsBlock (record { height = height; width = width; cells = cells.items }) }
        requires are_cells { AreCells cells.items }
        ensures { result ≡ record { height = height; width = width; cells = cells.items } }
    {
        Tile {
            height,
            width,
            cells,
        }
    }

    /// How many rows the tile has.
    pub fn height(&self) -> u32
        ensures height { result ≡ self.now.height }
        ensures block { IsBlock self.now }
        ensures are_cells { AreCells self.now.cells }
    {
        self.height as u32
    }

    /// Sets the cell of a row and a column, counted from 0 within the tile.
    pub fn set(&mut self, r: u32, c: u32, cell: Cell)
        requires row { r < self.old.height }
        requires column { c < self.old.width }
        ensures { self.new ≡ record self.old { cells = slice_set self.old.cells (r * self.old.width + c) cell } }
    {
        let _value = cell.get();
        let at = r as usize * self.width + c as usize;
        self.cells[at] = cell;
    }

    /// Sets a row, counted from 0 within the tile.
    pub fn set_row(&mut self, r: u32, cells: &[Cell])
        requires row { r < self.old.height }
        requires width { length cells.now ≡ self.old.width }
        ensures { IsRowSet r cells.now self.old self.new }
    {
        are_cells(cells);
        let first = r as usize * self.width;
        put_cells(&mut self.cells, first, cells);
    }

    /// A row of the tile, counted from 0 within it.
    pub fn row(&self, r: u32) -> &[Cell]
        requires { r < self.now.height }
        ensures row { result.now ≡ block_row self.now r }
        ensures width { length result.now ≡ self.now.width }
    {
        let first = r as usize * self.width;
        &self.cells[first..first + self.width]
    }

    /// The tile, lent. It is nobody's layer, so that nothing is counted.
    pub fn view(&self) -> TileView<'_>
        ensures { result ≡ self.now }
    {
        TileView::lend(&self.cells, 0, self.width, self.height, self.width)
    }

    /// Some cells from a place on, row by row.
    pub(crate) fn run(&self, first: usize, count: usize) -> &[Cell]
        requires { first + count ≤ length self.now.cells }
        ensures run { result.now ≡ take count (drop first self.now.cells) }
        ensures count { length result.now ≡ count }
    {
        &self.cells[first..first + count]
    }

    /// The cell at a place, row by row.
    pub fn cell(&self, k: usize) -> Cell
        requires { k < length self.now.cells }
        ensures { result ≡ cell_at self.now.cells k }
    {
        self.cells[k]
    }
}

/// Whether two lists hold the same cells.
pub fn same_cells(one: &[Cell], other: &[Cell]) -> bool
    requires { length one.now ≡ length other.now }
    ensures { IsTrue result ↔ (one.now ≡ other.now) }
{
    // The first cell that differs does not end the loop: without a branch it becomes one of vectors.
    let mut same = true;
    for k in 0..one.len() {
        same &= one[k].same(&other[k]);
    }
    same
}

/// Writes cells over those of a list, from a place on.
fn put_cells(list: &mut [Cell], first: usize, cells: &[Cell])
    requires { first + length cells.now ≤ length list.old }
    ensures { ArePut first (length cells.now) cells.now list.old list.new }
{
    for c in 0..cells.len() {
        list[first + c] = cells[c];
    }
}
