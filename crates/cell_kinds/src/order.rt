//! The order of cells: null before all numbers.
ghost use Rattle.std.specs.Prelude.{◌≡◌};
ghost use Rattle.std.specs.Ordering.{int_cmp};
ghost use Rattle.layer_tiles.specs.Cells.{IsCell, word_of};

use layer_tiles::Cell;
use map_nums::Value;
use std::cmp::Ordering;

/// A number that stands for a cell in the order; that of null is below all others.
pub(crate) fn rank(cell: &Cell) -> Value
    ensures rank { result ≡ word_of cell.now }
    ensures cell { IsCell cell.now }
{
    match cell.get() {
        None => Value::MIN,
        Some(value) => value,
    }
}

pub(crate) fn compare(a: &Cell, b: &Cell) -> Ordering
    ensures { result ≡ int_cmp (word_of a.now) (word_of b.now) }
{
    rank(a).cmp(&rank(b))
}
