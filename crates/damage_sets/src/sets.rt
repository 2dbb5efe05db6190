//! Sets of tiles.
ghost use Rattle.std.specs.Prelude.{◌≡◌, ◌<◌, ◌≤◌, true, false, replicate, slice_set, IfOk};
ghost use Rattle.std.specs.List.{count_by};
ghost use Rattle.layer_tiles.specs.Tiles.{tiles_in, tiles_down, tiles_across};
ghost use Rattle.damage_sets.specs.Sets.{has_tile, IsTileSet};
ghost use Rattle.damage_sets.specs.Added.{IsRunAdded, AreRowsAdded, IsAt};
ghost use Rattle.damage_sets.specs.Widened.{IsWidened};

use layer_tiles::Extent;
use map_nums::NoMemory;
use std::alloc::Global;
use std::marker::Model;

/// Tiles of a grid: a mark for each, which is true where the set has it.
#[derive(Drop)]
pub struct TileSet {
    extent: Extent,
    marks: Vec<bool>,
}

impl Model for TileSet {
    ghost use Rattle.damage_sets.specs.Sets.{TileSetState, IsTileSet};

    ghost Value = { TileSetState };

    ghost view = { λ s. record { size = s.extent; marks = s.marks.items } };

    ghost invariant = { λ s. IsTileSet (record { size = s.extent; marks = s.marks.items }) };
}

impl TileSet {
    /// No tile.
    pub fn new(alloc: Global, extent: Extent) -> Result<TileSet, NoMemory>
        ensures { IfOk result (λ set. set ≡ record { size = extent; marks = replicate (tiles_in extent) false }) }
    {
        let marks = vec![in alloc; false; extent.tiles() as usize]?;
        Ok(TileSet { extent, marks })
    }

    /// Every tile.
    pub fn all(alloc: Global, extent: Extent) -> Result<TileSet, NoMemory>
        ensures { IfOk result (λ set. set ≡ record { size = extent; marks = replicate (tiles_in extent) true }) }
    {
        let marks = vec![in alloc; true; extent.tiles() as usize]?;
        Ok(TileSet { extent, marks })
    }

    pub fn extent(&self) -> Extent
        ensures extent { result ≡ self.now.size }
        ensures set { IsTileSet self.now }
    {
        self.extent
    }

    /// Puts a tile in.
    pub fn add(&mut self, tile: u32)
        requires { tile < tiles_in self.old.size }
        ensures { self.new ≡ record self.old { marks = slice_set self.old.marks tile true } }
    {
        self.marks[tile as usize] = true;
    }

    /// Whether the set has the tile.
    pub fn has(&self, tile: u32) -> bool
        requires { tile < tiles_in self.now.size }
        ensures { result ≡ has_tile self.now tile }
    {
        self.marks[tile as usize]
    }

    /// How many tiles the set has.
    pub fn count(&self) -> u32
        ensures count { result ≡ count_by (λ mark. mark) self.now.marks }
        ensures most { result ≤ tiles_in self.now.size }
    {
        let _most = self.extent.tiles();
        let mut count = 0;
        for mark in &self.marks {
            if *mark {
                count += 1;
            }
        }
        count
    }

    /// Puts the tiles from one up to another in.
    fn add_run(&mut self, first: u32, end: u32)
        requires order { first ≤ end }
        requires within { end ≤ tiles_in self.old.size }
        ensures size { self.new.size ≡ self.old.size }
        ensures run { IsRunAdded first end self.old.marks self.new.marks }
    {
        let _extent = self.extent();
        for tile in first..end {
            self.add(tile);
        }
    }

    /// Puts the tiles of some rows and columns of tiles in.
    fn add_rows(&mut self, low: u32, high: u32, left: u32, right: u32)
        requires rows { low ≤ high }
        requires columns { left ≤ right }
        requires down { high ≤ tiles_down self.old.size }
        requires across { right ≤ tiles_across self.old.size }
        ensures size { self.new.size ≡ self.old.size }
        ensures rows { AreRowsAdded (tiles_across self.old.size) low high left right self.old.marks self.new.marks }
    {
        let extent = self.extent();
        let across = extent.tiles_across();
        let _tiles = extent.tiles();
        for band in low..high {
            self.add_run(band * across + left, band * across + right);
        }
    }

    /// Puts the tiles in whose square, grown by a reach, has the cell of a row and a column.
    pub(crate) fn add_square(&mut self, row: u32, column: u32, reach: u32)
        requires row { row < self.old.size.rows }
        requires column { column < self.old.size.columns }
        requires reach { reach ≤ 64 }
        ensures size { self.new.size ≡ self.old.size }
        ensures marks { IsWidened self.old.size reach (IsAt self.old.size row column) self.old.marks self.new.marks }
    {
        let extent = self.extent();
        let _rows = extent.rows();
        let high = ((row + reach) / 32 + 1).min(extent.tiles_down());
        let right = ((column + reach) / 32 + 1).min(extent.tiles_across());
        self.add_rows(
            row.saturating_sub(reach) / 32,
            high,
            column.saturating_sub(reach) / 32,
            right,
        );
    }
}
