//! Reading a grid.
ghost use Rattle.std.specs.Prelude.{◌≡◌, IsSome, IfSome, IfOk, ◌↔◌};
ghost use Rattle.map_nums.specs.Grids.{IsSize};
ghost use Rattle.grid_text.specs.Headers.{IsHeader};
ghost use Rattle.grid_text.specs.Reads.{Reads};

use crate::cells::read_cells;
use crate::headers::{read_head, read_pairs};
use crate::tokens::next_byte;
use crate::{Grid, GridRefusal};
use layer_tiles::{Extent, Layer};
use std::alloc::Global;

/// The most rows, and the most columns.
const LONGEST_SIDE: u64 = 4096;

// The extent of these rows and columns, where it is within the limits.
fn extent_of(rows: u64, columns: u64) -> Option<Extent>
    ensures fits { IsSome result ↔ IsSize (record { rows = rows; columns = columns }) }
    ensures size { IfSome result (λ e. e ≡ record { rows = rows; columns = columns }) }
{
    if rows > LONGEST_SIDE || columns > LONGEST_SIDE {
        return None;
    }
    Extent::new(rows as u32, columns as u32)
}

/// Reads a grid's text: pairs of a key and its value, in any letter case and order, and then `nrows * ncols` cells row by row
/// from the top. A cell that equals the value of `NODATA_value`, or -9999 without that key, is null. Every tile gets the stamp.
///
/// # Errors
///
/// The first fault in reading order, or `NoMemory`.
pub fn read_grid(alloc: Global, bytes: &[u8], stamp: u64) -> Result<Grid, GridRefusal>
    ensures reads { Reads bytes.now stamp result }
    ensures header { IfOk result (λ g. IsHeader g.header) }
{
    let pairs = read_pairs(alloc, bytes)?;
    let end = next_byte(bytes, pairs.next);
    let head = read_head(end, pairs.found)?;
    let Some(extent) = extent_of(head.rows, head.columns) else {
        return Err(GridRefusal::Size(head.rows, head.columns));
    };
    let cells = read_cells(alloc, bytes, pairs.next, head.null, extent.cells() as usize)?;
    let layer = Layer::of_cells(alloc, extent, cells, stamp)?;
    Ok(Grid {
        header: head.header,
        layer,
    })
}
