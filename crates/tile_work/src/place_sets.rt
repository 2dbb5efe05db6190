//! Sets of places.
ghost use Rattle.std.specs.Prelude.{◌≡◌, ◌<◌, ◌+◌, ◌*◌, IfOk, OnOk, OnErr, false, true, length, replicate, slice_index_or, slice_set};
ghost use Rattle.map_nums.specs.Grids.{IsSize, cells_in};
ghost use Rattle.tile_work.specs.PlaceSets.{AreWords, AreWordSeats, IsBegun, IsMarked, seated_words, words_at};

use layer_tiles::{Extent, NoMemory};
use std::alloc::Global;
use std::marker::Model;

/// Marks of the places of a grid. A tile without a marked place takes one slot.
#[derive(Drop)]
pub struct PlaceSet {
    alloc: Global,
    extent: Extent,
    /// Where the marks of each tile stand: first among all, until it has one.
    seats: Vec<usize>,
    /// None, and then those of each tile that has one: a word for each row, a bit for each column.
    words: Vec<Vec<u32>>,
}

impl Model for PlaceSet {
    ghost use Rattle.tile_work.specs.PlaceSets.{PlaceSetState, IsPlaceSet, AreWordSeats, marks_of, seated_words};

    ghost Value = { PlaceSetState };

    ghost view = { λ p. record { size = p.extent; marks = marks_of p.extent (seated_words p.words.items p.seats.items) } };

    ghost invariant = { λ p. IsPlaceSet p.extent (seated_words p.words.items p.seats.items) × AreWordSeats p.words.items p.seats.items };
}

impl PlaceSet {
    /// No place of a grid.
    ///
    /// # Errors
    ///
    /// `NoMemory`.
    pub fn new(alloc: Global, extent: Extent) -> Result<PlaceSet, NoMemory>
        ensures { IfOk result (λ p. p ≡ record { size = extent; marks = replicate (cells_in extent) false }) }
    {
        let seats = vec![in alloc; 0; extent.tiles() as usize]?;
        let mut words = Vec::new(alloc);
        words.push(Vec::new(alloc))?;
        Ok(PlaceSet {
            alloc,
            extent,
            seats,
            words,
        })
    }

    /// The size of the grid.
    pub fn extent(&self) -> Extent
        ensures extent { result ≡ self.now.size }
        ensures size { IsSize self.now.size }
        ensures count { length self.now.marks ≡ cells_in self.now.size }
    {
        self.extent
    }

    /// Whether a place is marked.
    pub fn has(&self, at: u32) -> bool
        requires { at < cells_in self.now.size }
        ensures { result ≡ slice_index_or self.now.marks at false }
    {
        let row = self.extent.row_of(at);
        let column = self.extent.column_of(at);
        self.has_at(row, column)
    }

    /// Whether the place of a row and a column is marked.
    pub fn has_at(&self, row: u32, column: u32) -> bool
        requires row { row < self.now.size.rows }
        requires column { column < self.now.size.columns }
        ensures { result ≡ slice_index_or self.now.marks (row * self.now.size.columns + column) false }
    {
        let tile = row / 32 * self.extent.tiles_across() + column / 32;
        let seat = self.seats[tile as usize];
        match self.words[seat].get((row % 32) as usize) {
            Some(word) => *word >> (column % 32) & 1 == 1,
            None => false,
        }
    }

    /// Marks a place.
    ///
    /// # Errors
    ///
    /// `NoMemory`, and no place is marked that was not.
    pub fn add(&mut self, at: u32) -> Result<(), NoMemory>
        requires { at < cells_in self.old.size }
        ensures ok { OnOk result (self.new ≡ record self.old { marks = slice_set self.old.marks at true }) }
        ensures err { OnErr result (self.new ≡ self.old) }
    {
        let row = self.extent.row_of(at);
        let column = self.extent.column_of(at);
        self.add_at(row, column)
    }

    /// Marks the place of a row and a column.
    ///
    /// # Errors
    ///
    /// `NoMemory`, and no place is marked that was not.
    pub fn add_at(&mut self, row: u32, column: u32) -> Result<(), NoMemory>
        requires row { row < self.old.size.rows }
        requires column { column < self.old.size.columns }
        ensures ok { OnOk result (self.new ≡ record self.old { marks = slice_set self.old.marks (row * self.old.size.columns + column) true }) }
        ensures err { OnErr result (self.new ≡ self.old) }
    {
        let tile = row / 32 * self.extent.tiles_across() + column / 32;
        begin(self.alloc, &mut self.seats, &mut self.words, tile as usize)?;
        let seat = self.seats[tile as usize];
        mark(&mut self.words[seat], row % 32, column % 32);
        Ok(())
    }
}

/// Gives a tile a word for each row, where it has none.
fn begin(
    alloc: Global,
    seats: &mut Vec<usize>,
    words: &mut Vec<Vec<u32>>,
    tile: usize,
) -> Result<(), NoMemory>
    requires within { tile < length seats.old.items }
    requires seats { AreWordSeats words.old.items seats.old.items }
    requires words { AreWords (words_at (seated_words words.old.items seats.old.items) tile) }
    ensures ok { OnOk result (IsBegun words.old.items seats.old.items tile words.new.items seats.new.items) }
    ensures err { OnErr result ((seats.new.items ≡ seats.old.items) × (words.new.items ≡ words.old.items)) }
{
    if !words[seats[tile]].is_empty() {
        return Ok(());
    }
    let blank = no_marks(alloc)?;
    let seat = words.len();
    words.push(blank)?;
    seats[tile] = seat;
    Ok(())
}

/// Marks a row and a column of a tile.
fn mark(words: &mut Vec<u32>, row: u32, column: u32)
    requires row { row < 32 }
    requires column { column < 32 }
    requires words { length words.old.items ≡ 32 }
    ensures { IsMarked words.old.items row column words.new.items }
{
    words[row as usize] |= 1 << column;
}

/// A word for each row of a tile, without a mark.
fn no_marks(alloc: Global) -> Result<Vec<u32>, NoMemory>
    ensures { IfOk result (λ words. words.items ≡ replicate 32 0) }
{
    Ok(vec![in alloc; 0; 32]?)
}
