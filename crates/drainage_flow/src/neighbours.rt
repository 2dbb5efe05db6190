//! The eight neighbours of a cell, numbered from 0 at N clockwise.
ghost use Rattle.std.specs.Prelude.{◌≡◌, ◌<◌, ◌≤◌, ℤ, pos, ◌+ℤ◌, IfSome};
ghost use Rattle.map_nums.specs.Grids.{cells_in, moved};
ghost use Rattle.drainage_flow.specs.Steepest.{offset_at, line_at, IsStep};

use layer_tiles::Extent;

/// How many rows down and columns right a neighbour is.
fn offset(k: u8) -> (i32, i32)
    requires { k < 8 }
    ensures offset { result ≡ offset_at k }
    ensures down { IsStep result.0 }
    ensures right { IsStep result.1 }
{
    match k {
        0 => (-1, 0),
        1 => (-1, 1),
        2 => (0, 1),
        3 => (1, 1),
        4 => (1, 0),
        5 => (1, -1),
        6 => (0, -1),
        7 => (-1, -1),
        _ => unreachable!(),
    }
}

/// The line a step away, where it is on the map.
fn stepped(line: u32, by: i32, end: u32) -> Option<u32>
    requires within { line < end }
    requires few { end ≤ 4096 }
    requires by { IsStep by }
    ensures { result ≡ line_at (pos line +ℤ by) end }
{
    let there = line as i32 + by;
    if there < 0 || there >= end as i32 {
        return None;
    }
    Some(there as u32)
}

/// A neighbour of a cell, where it is on the map.
pub(crate) fn neighbour(extent: Extent, at: u32, k: u8) -> Option<u32>
    requires cell { at < cells_in extent }
    requires few { k < 8 }
    ensures place { result ≡ moved extent at (offset_at k) }
    ensures within { IfSome result (λ j. j < cells_in extent) }
{
    let rows = extent.rows();
    let columns = extent.columns();
    let (down, right) = offset(k);
    let Some(row) = stepped(extent.row_of(at), down, rows) else {
        return None;
    };
    let Some(column) = stepped(extent.column_of(at), right, columns) else {
        return None;
    };
    Some(row * columns + column)
}
