//! The sums and the counts of the numbers among a list's first cells.
ghost use Rattle.std.specs.Prelude.{◌≡◌, ◌+◌, ◌≤◌, ◌∷◌, [], length};
ghost use Rattle.map_nums.specs.Grids.{numbers_in};
ghost use Rattle.map_nums.specs.Stats.{total_of};
ghost use Rattle.focal_ops.specs.Totals.{IsFront, IsWithin, count_of};

use layer_tiles::Cell;

/// Puts the sum and the count of the numbers among the first m cells at place m of two lists.
pub(crate) fn fill_fronts(square: &[Cell], sums: &mut [i64], counts: &mut [i64])
    requires most { length square.now ≤ 9216 }
    requires sums_room { length sums.old ≡ length square.now + 1 }
    requires counts_room { length counts.old ≡ length square.now + 1 }
    ensures sums { IsFront total_of square.now (length square.now) sums.new }
    ensures counts { IsFront count_of square.now (length square.now) counts.new }
{
    let mut sum: i64 = 0;
    let mut found: i64 = 0;
    sums[0] = 0;
    counts[0] = 0;
    for m in 0..square.len() {
        sum += number_in(square[m]);
        found += count_in(square[m]);
        sums[m + 1] = sum;
        counts[m + 1] = found;
    }
}

/// A cell's number, 0 where it is null.
fn number_in(cell: Cell) -> i64
    ensures number { result ≡ total_of (numbers_in (cell ∷ [])) }
    ensures within { IsWithin 1 result }
{
    match cell.get() {
        None => 0,
        Some(value) => value,
    }
}

/// How many numbers a cell has.
fn count_in(cell: Cell) -> i64
    ensures count { result ≡ count_of (numbers_in (cell ∷ [])) }
    ensures within { IsWithin 1 result }
{
    match cell.get() {
        None => 0,
        Some(_) => 1,
    }
}
