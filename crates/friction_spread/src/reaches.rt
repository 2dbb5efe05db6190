//! The rows beside a band that are taken in with it: those up to the next row that has a source, where that is less than half as far as
//! the nearest one of the band. A place near it then gets its least cost with those of its band, and not when the bands are joined.
ghost use Rattle.std.specs.Prelude.{◌<◌, ◌≤◌, ◌+◌};

use crate::flat::FlatGround;

/// So many rows are taken in with a row that has a source: it, and some beyond, for paths that lead round.
const TAKEN: u32 = 5;

/// How many rows above a band are taken in.
pub fn rows_above(ground: &FlatGround<'_>, first: u32, end: u32) -> u32
    requires some { first < end }
    requires within { end ≤ ground.now.size.rows }
    ensures { result ≤ first }
{
    let most = first.min(bare_below(ground, first, end) / 2);
    let beyond = bare_above(ground, first - most, first);
    if beyond == most {
        return 0;
    }
    first.min(beyond + TAKEN)
}

/// How many rows below a band are taken in.
pub fn rows_below(ground: &FlatGround<'_>, first: u32, end: u32) -> u32
    requires some { first < end }
    requires within { end ≤ ground.now.size.rows }
    ensures { end + result ≤ ground.now.size.rows }
{
    let rest = ground.extent().rows() - end;
    let most = rest.min(bare_above(ground, first, end) / 2);
    let beyond = bare_below(ground, end, end + most);
    if beyond == most {
        return 0;
    }
    rest.min(beyond + TAKEN)
}

/// How many of some rows have no source, from the first one down to one that has.
fn bare_below(ground: &FlatGround<'_>, first: u32, end: u32) -> u32
    requires some { first ≤ end }
    requires within { end ≤ ground.now.size.rows }
    ensures { first + result ≤ end }
{
    for row in first..end {
        if has_source(ground, row) {
            return row - first;
        }
    }
    end - first
}

/// How many of some rows have no source, from the last one up to one that has.
fn bare_above(ground: &FlatGround<'_>, first: u32, end: u32) -> u32
    requires some { first ≤ end }
    requires within { end ≤ ground.now.size.rows }
    ensures { first + result ≤ end }
{
    for k in 0..end - first {
        if has_source(ground, end - 1 - k) {
            return k;
        }
    }
    end - first
}

/// Whether a row has a source.
fn has_source(ground: &FlatGround<'_>, row: u32) -> bool
    requires { row < ground.now.size.rows }
{
    let columns = ground.extent().columns();
    let start = row * columns;
    let sources = ground.sources();
    for at in start..start + columns {
        if sources[at as usize].get().is_some() {
            return true;
        }
    }
    false
}
