//! Reading the cells.
ghost use Rattle.std.specs.Prelude.{◌≡◌, ◌<◌, ◌≤◌, ◌+◌, IsTrue, length};
ghost use Rattle.grid_text.specs.Contents.{cell_of_number, cell_in, cells_from};
ghost use Rattle.grid_text.specs.Numbers.{is_short};
ghost use Rattle.grid_text.specs.Places.{tokens_left};
ghost use Rattle.grid_text.specs.Reads.{Gives};

use crate::GridRefusal;
use crate::numbers::{Whole, read_whole};
use crate::tokens::{byte_number, next_token};
use layer_tiles::Cell;
use map_nums::in_range;
use std::alloc::Global;

// The cell that a whole number is.
fn cell_of(null: i64, index: u64, number: i64) -> Result<Cell, GridRefusal>
    ensures { Gives (λ c. c) result (cell_of_number null index number) }
{
    if number == null {
        return Ok(Cell::null());
    }
    match in_range(number as i128) {
        None => Err(GridRefusal::Range(index)),
        Some(value) => Cell::of(value).ok_or(GridRefusal::Range(index)),
    }
}

// The cell that a token is.
fn read_cell(null: i64, index: u64, text: &[u8]) -> Result<Cell, GridRefusal>
    requires { IsTrue (is_short null) }
    ensures { Gives (λ c. c) result (cell_in null index text.now) }
{
    match read_whole(text) {
        Whole::Not => Err(GridRefusal::Cell(index)),
        Whole::Long => Err(GridRefusal::Range(index)),
        Whole::Short(number) => cell_of(null, index, number),
    }
}

/// The cells from a byte on, which must be as many as are needed, up to the end of the text.
pub(crate) fn read_cells(
    alloc: Global,
    bytes: &[u8],
    from: usize,
    null: i64,
    need: usize,
) -> Result<Vec<Cell>, GridRefusal>
    requires from { from ≤ length bytes.now }
    requires null { IsTrue (is_short null) }
    ensures { Gives (λ cells. cells.items) result (cells_from null need 0 (tokens_left bytes.now from)) }
{
    let mut cells = Vec::with_capacity(alloc, need)?;
    let mut next = from;
    while let Some(token) = next_token(bytes, next) {
        if cells.len() == need {
            return Err(GridRefusal::More(byte_number(token.at)));
        }
        let cell = read_cell(null, cells.len() as u64 + 1, token.text)?;
        cells.push(cell)?;
        next = token.next;
    }
    if cells.len() < need {
        return Err(GridRefusal::Few(cells.len() as u64, need as u64));
    }
    Ok(cells)
}
