//! The cells of the sample's grids, by row and column, which count from 1.
ghost use Rattle.std.specs.Prelude.{◌≡◌, ◌≤◌};
ghost use Rattle.map_machine.specs.SampleGrids as grids;

use layer_tiles::Cell;
use map_nums::Value;

/// A height of 0 to 999.
pub fn height(r: u32, c: u32) -> Cell
    requires rows { r ≤ 1224 }
    requires columns { c ≤ 1224 }
    ensures { result ≡ grids.height r c }
{
    Cell::within(((7 * r * r + 11 * c * c + 3 * r * c) % 1000) as Value)
}

/// A friction of 1 to 9.
pub fn friction(r: u32, c: u32) -> Cell
    requires rows { r ≤ 1224 }
    requires columns { c ≤ 1224 }
    ensures { result ≡ grids.friction r c }
{
    Cell::within((1 + (5 * r + 3 * c) % 9) as Value)
}

/// A start at every hundredth row and column, from the first on.
pub fn start(r: u32, c: u32) -> Cell
    requires rows { 1 ≤ r }
    requires columns { 1 ≤ c }
    ensures { result ≡ grids.start r c }
{
    if (r - 1) % 100 == 0 && (c - 1) % 100 == 0 {
        Cell::within(1)
    } else {
        Cell::null()
    }
}

/// A zone for each square of 128 rows and columns.
pub fn zone(r: u32, c: u32) -> Cell
    requires rows { (1 ≤ r) × (r ≤ 1224) }
    requires columns { (1 ≤ c) × (c ≤ 1224) }
    ensures { result ≡ grids.zone r c }
{
    Cell::within((1 + 16 * ((r - 1) / 128) + (c - 1) / 128) as Value)
}
