//! The sample's grids.
ghost use Rattle.std.specs.Prelude.{◌≡◌, ℕ, ◌+◌, ◌<◌, ◌≤◌, IsTrue};
ghost use Rattle.map_words.specs.Names.{is_plain};
ghost use Rattle.map_nums.specs.Grids.{cell_at};
ghost use Rattle.map_sample.specs.Grids.{cell_in, name_of};

use crate::cells::{friction, height, start, zone};
use layer_tiles::Cell;

/// One of the sample's grids.
#[derive(Clone, Copy, Debug, PartialEq, Eq)]
pub enum SampleGrid {
    Height,
    Friction,
    Start,
    Zone,
}

/// All of them, in the order of their loads.
pub const SAMPLE_GRIDS: [SampleGrid; 4] = [
    SampleGrid::Height,
    SampleGrid::Friction,
    SampleGrid::Start,
    SampleGrid::Zone,
];

impl SampleGrid {
    /// The name that the grid is loaded under.
    pub fn name(&self) -> &'static str
        ensures name { result.now ≡ name_of self.now }
        ensures plain { IsTrue (is_plain result.now) }
    {
        match self {
            SampleGrid::Height => "H",
            SampleGrid::Friction => "F",
            SampleGrid::Start => "S",
            SampleGrid::Zone => "Z",
        }
    }

    /// The cells of a row, so many from a column on, which counts from 0.
    pub(crate) fn put_row(&self, r: u32, left: u32, width: u32, cells: &mut [Cell; 32])
        requires row { (1 ≤ r) × (r ≤ 1224) }
        requires columns { left + width ≤ 1224 }
        requires most { width ≤ 32 }
        ensures { (c : ℕ) → c < width → cell_at cells.new c ≡ cell_in self.now r (left + c + 1) }
    {
        match self {
            SampleGrid::Height => put_cells(left, width, cells, |c| height(r, c)),
            SampleGrid::Friction => put_cells(left, width, cells, |c| friction(r, c)),
            SampleGrid::Start => put_cells(left, width, cells, |c| start(r, c)),
            SampleGrid::Zone => put_cells(left, width, cells, |c| zone(r, c)),
        }
    }
}

// The cells of a row, so many from a column on, each from its column, which counts from 1. The loop is of one grid, without a choice
// in it.
fn put_cells<F: Fn(u32) -> Cell>(left: u32, width: u32, cells: &mut [Cell; 32], cell: F)
    requires columns { left + width ≤ 1224 }
    requires most { width ≤ 32 }
    requires cells { (c : ℕ) → c < width → F.pre cell (left + c + 1) }
    ensures { (c : ℕ) → c < width → F.post cell (left + c + 1) (cell_at cells.new c) }
{
    for c in 0..width {
        cells[c as usize] = cell(left + c + 1);
    }
}
