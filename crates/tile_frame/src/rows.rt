//! A row of a tile, cell by cell.
ghost use Rattle.std.specs.Prelude.{◌≡◌, ◌<◌, ◌≤◌, ℕ, IsTrue};
ghost use Rattle.layer_tiles.specs.Tiles.{tiles_in, tile_height, tile_width, IsBlockOf};
ghost use Rattle.map_nums.specs.Answers.{is_wide};
ghost use Rattle.tile_frame.specs.Frames.{IsRowAnswer, AreCellsOf};

use crate::places::cell_or_null;
use layer_tiles::{Cell, Extent, KernelRefusal, Tile, Value};
use map_nums::Wide;

/// What makes the cells of a row, one by one.
pub trait RowMaker {
    ghost use Rattle.std.specs.Prelude.{ℕ, ℤ, Option};
    ghost use Rattle.map_nums.specs.Exact.{IsExact};

    /// The value at each column, with no bound.
    ghost value: { Self → ℕ → Option ℤ };

    /// The row has the column.
    ghost has: { Self → ℕ → Type 0 };

    /// The value at a column, counted from 0 within the tile.
    fn value_at(&self, c: u32) -> Result<Option<Value>, Wide>
        requires { has self.now c }
        ensures { IsExact (value self.now c) result };
}

/// Makes the cells of a row, and gives the first column whose value is out of range; the width where there is none. It goes on to
/// the end in any case: so a simple operation's loop has no exit.
fn make_cells<R: RowMaker>(row: &R, width: u32, cells: &mut [Cell; 32]) -> u32
    requires columns { (c : ℕ) → c < width → R.has row.now c }
    requires most { width ≤ 32 }
    ensures most { result ≤ width }
    ensures made { AreCellsOf (R.value row.now) result cells.new }
    ensures wide { result < width → IsTrue (is_wide (R.value row.now result)) }
{
    let mut end = width;
    for c in 0..width {
        let answer = row.value_at(c);
        if answer.is_err() {
            end = end.min(c);
        }
        cells[c as usize] = cell_or_null(answer);
    }
    end
}

/// Makes row `r` of a tile.
///
/// # Errors
///
/// `Overflow` at the row's first cell whose value is out of range, exactly where there is one.
pub fn make_row<R: RowMaker>(
    row: &R,
    extent: Extent,
    tile: u32,
    r: u32,
    made: &mut Tile,
) -> Result<(), KernelRefusal>
    requires columns { (c : ℕ) → c < tile_width extent tile → R.has row.now c }
    requires within { tile < tiles_in extent }
    requires row { r < tile_height extent tile }
    requires size { IsBlockOf extent tile made.old }
    ensures { IsRowAnswer (R.value row.now) extent tile r made.old made.new result }
{
    let place = extent.place(tile);
    let mut cells = [Cell::null(); 32];
    let end = make_cells(row, place.width, &mut cells);
    if end < place.width {
        let start = (place.top + r) * extent.columns() + place.left;
        return Err(KernelRefusal::Overflow(start + end));
    }
    made.set_row(r, &cells[..place.width as usize]);
    Ok(())
}
