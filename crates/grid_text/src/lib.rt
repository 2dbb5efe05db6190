//! The text of a grid in the Arc/Info ASCII form, read and printed.
//!
//! `read_grid` gives a `Grid`: a `Layer` of cells, and the `Header` whose texts are kept as they stand in the file.
//! `print_grid` writes the canonical text of a layer under a header.
#![tactic(auto)]

mod cells;
mod decimals;
mod found;
mod headers;
mod keys;
mod laws;
mod numbers;
mod print;
mod read;
mod tokens;

ghost use Rattle.std.specs.Prelude.{◌≡◌};

pub use laws::{
    printed_reads_back, refusals_are_first, texts_are_read, texts_are_settled, worked_texts,
};
use layer_tiles::{Layer, Text};
use map_nums::NoMemory;
pub use print::print_grid;
pub use read::read_grid;
use std::alloc::{AllocError, AllocFailed};

/// One of the corner lines of a header: of a corner or of a cell's center, and its text.
#[derive(Drop)]
pub struct Corner {
    pub center: bool,
    pub text: Text,
}

/// The header texts that are kept: both corner lines, and the size of a cell.
#[derive(Drop)]
pub struct Header {
    pub x: Corner,
    pub y: Corner,
    pub size: Text,
}

/// A grid that was read.
#[derive(Drop)]
pub struct Grid {
    pub header: Header,
    pub layer: Layer,
}

/// Why a text is no grid: its first fault in reading order. Bytes and indexes count from 1.
#[derive(Clone, Copy, Debug, PartialEq, Eq)]
pub enum GridRefusal {
    /// The token at this byte is no key, or a key again, or stands where a key is needed.
    Key(u64),
    /// The value at this byte is not of its key's form, or is missing there.
    Number(u64),
    /// No map has these rows and columns.
    Size(u64, u64),
    /// The text ends after so many cells, fewer than needed.
    Few(u64, u64),
    /// A further token, at this byte, follows the last cell.
    More(u64),
    /// The cell of this index is no whole number.
    Cell(u64),
    /// The cell of this index is out of range.
    Range(u64),
    NoMemory,
}

impl From<NoMemory> for GridRefusal {
    ghost use Rattle.grid_text.specs.declared.GridRefusal.{GridRefusal};

    ghost from_gives = { λ _ e. e ≡ GridRefusal.NoMemory };

    fn from(_: NoMemory) -> Self {
        GridRefusal::NoMemory
    }
}

impl From<AllocError> for GridRefusal {
    ghost use Rattle.grid_text.specs.declared.GridRefusal.{GridRefusal};

    ghost from_gives = { λ _ e. e ≡ GridRefusal.NoMemory };

    fn from(_: AllocError) -> Self {
        GridRefusal::NoMemory
    }
}

impl<T: Drop> From<AllocFailed<T>> for GridRefusal {
    ghost use Rattle.grid_text.specs.declared.GridRefusal.{GridRefusal};

    ghost from_gives = { λ _ e. e ≡ GridRefusal.NoMemory };

    fn from(_: AllocFailed<T>) -> Self {
        GridRefusal::NoMemory
    }
}
