//! The cells round a place.
ghost use Rattle.std.specs.Prelude.{◌≡◌, ◌+◌, ◌<◌, length};
ghost use Rattle.incremental_ops.specs.Around.{ring_in};

use layer_tiles::Cell;

/// The eight neighbours of a cell, null off the map.
#[derive(Clone, Copy)]
pub struct Ring {
    pub n: Cell,
    pub ne: Cell,
    pub e: Cell,
    pub se: Cell,
    pub s: Cell,
    pub sw: Cell,
    pub w: Cell,
    pub nw: Cell,
}

/// The neighbours of the cell in column `c + 1` of the middle one of three rows.
#[tactic(auto, unfolding(crate::specs::Around::ring_in))]
pub(crate) fn ring_at(above: &[Cell], here: &[Cell], below: &[Cell], c: usize) -> Ring
    requires above { c + 2 < length above.now }
    requires here { c + 2 < length here.now }
    requires below { c + 2 < length below.now }
    ensures { result ≡ ring_in above.now here.now below.now c }
{
    Ring {
        n: above[c + 1],
        ne: above[c + 2],
        e: here[c + 2],
        se: below[c + 2],
        s: below[c + 1],
        sw: below[c],
        w: here[c],
        nw: above[c],
    }
}
