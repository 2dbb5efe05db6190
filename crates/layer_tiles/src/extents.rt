//! The size of a grid, and its tiles.
ghost use Rattle.std.specs.Prelude.{◌≡◌, ◌↔◌, ◌<◌, ◌≤◌, ℕ, IsSome, IfSome};
ghost use Rattle.map_nums.specs.Grids.{Size, IsSize, cells_in, row_of, column_of};
ghost use Rattle.layer_tiles.specs.Tiles.{tiles_in, tile_of, tile_size, place_in, tiles_across, tiles_down, IsPlaced};
ghost use Rattle.layer_tiles.specs.Places.{IsPlaceOf};
ghost use Rattle.layer_tiles.specs.Runs.{run_length};

use std::marker::Model;

/// A power of two above the product of any row's length with any place.
const SCALED_ONE: u64 = 8_589_934_592;

/// The rows and columns of a grid.
#[derive(Clone, Copy)]
pub struct Extent {
    rows: u32,
    columns: u32,
    /// `SCALED_ONE` by the columns, rounded down, and one more: a product with it finds a row sooner than a division.
    scale: u64,
}

impl Model for Extent {
    ghost use Rattle.std.specs.Prelude.{◌≡◌};
    ghost use Rattle.std.proofs.Common.{ap, sym};
    ghost use Rattle.map_nums.specs.Grids.{Size, IsSize};
    ghost use Rattle.layer_tiles.specs.Scales.{scale_of};

    ghost Value = { Size };

    ghost view = { λ e. record { rows = e.rows; columns = e.columns } };

    ghost invariant = { λ e. IsSize (record { rows = e.rows; columns = e.columns }) × (e.scale ≡ scale_of (record { rows = e.rows; columns = e.columns })) };

    ghost inverse = { λ s. record { rows = s.rows; columns = s.columns; scale = scale_of s } };

    ghost inverse_ok = { λ a h. ap (λ n. record { rows = a.rows; columns = a.columns; scale = n }) (sym h.1) };
}

impl Extent {
    /// The extent of 1 to 4096 rows and columns and at most 1,500,000 cells, none for any other.
    #[tactic(auto, unfolding(crate::specs::Scales::scale_of))]
    pub fn new(rows: u32, columns: u32) -> Option<Extent>
        ensures fits { IsSome result ↔ IsSize (record { rows = rows; columns = columns }) }
        ensures size { IfSome result (λ e. e ≡ record { rows = rows; columns = columns }) }
    {
        if rows < 1 || rows > 4096 || columns < 1 || columns > 4096 || rows * columns > 1_500_000 {
            return None;
        }
        Some(Extent {
            rows,
            columns,
            scale: SCALED_ONE / u64::from(columns) + 1,
        })
    }

    /// The extent of one cell.
    #[tactic(auto, unfolding(crate::specs::Scales::scale_of))]
    pub(crate) fn one() -> Extent {
        Extent {
            rows: 1,
            columns: 1,
            scale: SCALED_ONE + 1,
        }
    }

    pub fn rows(&self) -> u32
        ensures rows { result ≡ self.now.rows }
        ensures size { IsSize self.now }
    {
        self.rows
    }

    pub fn columns(&self) -> u32
        ensures columns { result ≡ self.now.columns }
        ensures size { IsSize self.now }
    {
        self.columns
    }

    pub fn cells(&self) -> u32
        ensures cells { result ≡ cells_in self.now }
        ensures size { IsSize self.now }
    {
        self.rows * self.columns
    }

    /// How many tiles lie side by side.
    #[tactic(auto, unfolding(crate::specs::Tiles::tiles_across))]
    pub fn tiles_across(&self) -> u32
        ensures across { result ≡ tiles_across self.now }
        ensures size { IsSize self.now }
    {
        (self.columns + 31) / 32
    }

    /// How many tiles lie one above the other.
    #[tactic(auto, unfolding(crate::specs::Tiles::tiles_down))]
    pub fn tiles_down(&self) -> u32
        ensures down { result ≡ tiles_down self.now }
        ensures size { IsSize self.now }
    {
        (self.rows + 31) / 32
    }

    /// How many tiles there are.
    #[tactic(auto, unfolding(crate::specs::Tiles::tiles_in, crate::specs::Tiles::tiles_across, crate::specs::Tiles::tiles_down))]
    pub fn tiles(&self) -> u32
        ensures tiles { result ≡ tiles_in self.now }
        ensures size { IsSize self.now }
    {
        (self.rows + 31) / 32 * ((self.columns + 31) / 32)
    }

    /// The row of a cell.
    #[inline]
    pub fn row_of(&self, at: u32) -> u32
        requires { at < cells_in self.now }
        ensures row { result ≡ row_of self.now at }
        ensures within { result < self.now.rows }
        ensures size { IsSize self.now }
    {
        (u64::from(at) * self.scale / SCALED_ONE) as u32
    }

    /// The column of a cell.
    #[inline]
    pub fn column_of(&self, at: u32) -> u32
        requires { at < cells_in self.now }
        ensures column { result ≡ column_of self.now at }
        ensures within { result < self.now.columns }
        ensures size { IsSize self.now }
    {
        at - self.row_of(at) * self.columns
    }

    /// The tile of a cell.
    #[tactic(auto, unfolding(crate::specs::Tiles::tile_of, crate::specs::Tiles::tiles_across))]
    pub fn tile_of(&self, at: u32) -> u32
        requires { at < cells_in self.now }
        ensures { result ≡ tile_of self.now at }
    {
        let row = self.row_of(at);
        let column = self.column_of(at);
        row / 32 * ((self.columns + 31) / 32) + column / 32
    }

    /// How many cells lie together from one on, to the end of its row within its tile.
    #[tactic(auto, unfolding(crate::specs::Runs::run_length))]
    pub(crate) fn run_length(&self, at: u32) -> usize
        requires { at < cells_in self.now }
        ensures length { result ≡ run_length self.now at }
        ensures few { result ≤ 32 }
    {
        let column = self.column_of(at);
        (32 - column % 32).min(self.columns - column) as usize
    }

    /// The place of a cell within its tile.
    pub fn place_in(&self, at: u32) -> usize
        requires { at < cells_in self.now }
        ensures place { result ≡ place_in self.now at }
        ensures within { result < tile_size self.now (tile_of self.now at) }
        ensures tile { tile_of self.now at < tiles_in self.now }
    {
        let columns = self.columns();
        let row = self.row_of(at);
        let column = self.column_of(at);
        let width = (columns - column / 32 * 32).min(32);
        (row % 32 * width + column % 32) as usize
    }

    /// Where a tile lies.
    pub fn place(&self, tile: u32) -> Place
        requires { tile < tiles_in self.now }
        ensures place { IsPlaceOf self.now tile result }
        ensures placed { IsPlaced self.now tile }
        ensures size { IsSize self.now }
    {
        let across = self.tiles_across();
        let rows = self.rows();
        let columns = self.columns();
        let top = tile / across * 32;
        let left = tile % across * 32;
        Place {
            top,
            left,
            height: (rows - top).min(32),
            width: (columns - left).min(32),
        }
    }
}

/// Where a tile lies: its first row and column, from 0, and its size.
#[derive(Clone, Copy)]
pub struct Place {
    pub top: u32,
    pub left: u32,
    pub height: u32,
    pub width: u32,
}
