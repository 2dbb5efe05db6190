//! The greatest words of pieces of a list of cells, by tables of pieces whose widths are powers of two. The least number is
//! the greatest of the negatives.
ghost use Rattle.std.specs.Prelude.{◌≡◌, ℕ, pos, ◌+◌, ◌*◌, ◌<◌, ◌≤◌, ◌^◌, ◌∷◌, [], length, slice_index_or};
ghost use Rattle.std.specs.Int.{int_max};
ghost use Rattle.map_nums.specs.Grids.{numbers_in};
ghost use Rattle.focal_ops.specs.Extremes.{IsMost, IsTable};

use layer_tiles::{Cell, VMAX, Value};

/// The word of no number, below that of each number.
pub(crate) const NOTHING: Value = -(VMAX as Value) - 1;

/// Fills tables of the cells: table `p` has at place m the word of the 2^p cells from m on.
pub(crate) fn fill_tables(least: bool, levels: u32, square: &[Cell], tables: &mut [Value])
    requires few { levels ≤ 6 }
    requires long { 2 ^ levels ≤ length square.now }
    requires most { length square.now ≤ 9216 }
    requires room { length tables.old ≡ (levels + 1) * length square.now }
    ensures { (p : ℕ) → p ≤ levels → IsTable least square.now p (2 ^ p) tables.new }
{
    let count = square.len();
    fill_words(least, square, tables);
    let mut here = 0;
    let mut width = 1;
    for p in 0..levels {
        fill_next(here, width, count, tables);
        here += count;
        width *= 2;
    }
}

/// Fills the first table.
fn fill_words(least: bool, square: &[Cell], tables: &mut [Value])
    requires room { length square.now ≤ length tables.old }
    ensures { IsTable least square.now 0 1 tables.new }
{
    for m in 0..square.len() {
        tables[m] = word_of(least, square[m]);
    }
}

/// The word of a cell: its number, or its negative where the least is wanted.
fn word_of(least: bool, cell: Cell) -> Value
    ensures { IsMost least (numbers_in (cell ∷ [])) result }
{
    match cell.get() {
        None => NOTHING,
        Some(value) => { if least { -value } else { value } }
    }
}

/// Fills a table from the one before it, which begins at `here` and whose pieces are `width` wide.
fn fill_next(here: usize, width: usize, count: usize, tables: &mut [Value])
    requires some { 0 < width }
    requires narrow { 2 * width ≤ count }
    requires few { count ≤ 9216 }
    requires low { here ≤ 64512 }
    requires room { here + 2 * count ≤ length tables.old }
    ensures joined { (m : ℕ) → m + 2 * width ≤ count → slice_index_or tables.new (here + count + m) (pos 0) ≡ int_max (slice_index_or tables.old (here + m) (pos 0)) (slice_index_or tables.old (here + (m + width)) (pos 0)) }
    ensures kept { (j : ℕ) → j < here + count → slice_index_or tables.new j (pos 0) ≡ slice_index_or tables.old j (pos 0) }
{
    for m in 0..count + 1 - 2 * width {
        tables[here + count + m] = tables[here + m].max(tables[here + (m + width)]);
    }
}
