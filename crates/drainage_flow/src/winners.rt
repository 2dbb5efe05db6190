//! The steepest way down from a cell.
ghost use Rattle.std.specs.Prelude.{◌≡◌, ◌+◌, ◌<◌, ◌≤◌, ℕ, ℤ, pos, ◌+ℤ◌, ◌<ℤ◌, ◌≤ℤ◌, length, int_lt, if◌then◌else◌, IfSome, IsTrue, Some, None};
ghost use Rattle.map_nums.specs.Numbers.{is_value};
ghost use Rattle.map_nums.specs.Grids.{Size, Cells, cell_at};
ghost use Rattle.map_defs.specs.Drainage.{drop_to, winner_at, direction_of};
ghost use Rattle.drainage_flow.specs.Steepest.{offset_at, AreAround};
ghost use Rattle.drainage_flow.specs.Marks.{marked};
ghost use Rattle.drainage_flow.specs.Around.{AreRowsRound};

use layer_tiles::Cell;
use map_nums::Value;

/// How far a number falls to a neighbour: 7 for each step of a straight one, 5 for each of a diagonal one.
fn fall(here: Value, k: u8, there: Cell) -> i64
    requires in_range { IsTrue (is_value here) }
    requires few { k < 8 }
    ensures fall { result ≡ drop_to here (offset_at k) there }
    ensures high { result ≤ℤ pos 20000000000000000 }
    ensures low { pos 0 ≤ℤ (pos 20000000000000000 +ℤ result) }
{
    match there.get() {
        Some(lower) => {
            let step = here - lower;
            if k % 2 == 0 { step * 7 } else { step * 5 }
        }
        None => 0,
    }
}

/// The mark of the way to a neighbour: the greater the steeper, and of two as steep the first.
fn mark(here: Value, k: u8, there: Cell) -> i64
    requires in_range { IsTrue (is_value here) }
    requires few { k < 8 }
    ensures { result ≡ marked (drop_to here (offset_at k) there) k }
{
    fall(here, k, there) * 8 + (7 - k) as i64
}

/// The greater of two marks.
fn greater(one: i64, other: i64) -> i64
    ensures { result ≡ (if int_lt one other then other else one) }
{
    if one < other { other } else { one }
}

/// The neighbour that the way of a mark leads to; none where it doesn't fall.
fn led_to(mark: i64) -> Option<u8>
    requires { pos 7 ≤ℤ mark }
    ensures level { mark <ℤ pos 8 → result ≡ None }
    ensures falls { (fall : ℤ) (k : ℕ) → k < 8 → pos 0 <ℤ fall → mark ≡ marked fall k → result ≡ Some k }
    ensures few { IfSome result (λ k. k < 8) }
{
    if mark < 8 {
        return None;
    }
    Some(7 - (mark as u64 % 8) as u8)
}

/// Which of the eight cells round one the steepest way leads to, the first where several are as steep; none where
/// nothing is lower.
pub(crate) fn winner(here: Value, around: &[Cell; 8]) -> Option<u8>
    requires { IsTrue (is_value here) }
    ensures winner { (s : Size) (surface : Cells) (at : ℕ) → cell_at surface at ≡ Some here → AreAround s surface at around.now → result ≡ winner_at s surface at }
    ensures few { IfSome result (λ k. k < 8) }
{
    // One number for a way, and no branch between two ways: which of them is steeper can't be foreseen.
    let mut best = 7;
    for k in 0..8u8 {
        best = greater(best, mark(here, k, around[k as usize]));
    }
    led_to(best)
}

/// The winner of the cell in the middle of three rows, whose neighbours begin in column `left`; none where that cell is null.
pub(crate) fn row_winner(above: &[Cell], here: &[Cell], below: &[Cell], left: usize) -> Option<u8>
    requires above { left + 2 < length above.now }
    requires here { left + 2 < length here.now }
    requires below { left + 2 < length below.now }
    ensures winner { (s : Size) (surface : Cells) (at : ℕ) → AreRowsRound s surface at above.now here.now below.now left → result ≡ winner_at s surface at }
    ensures few { IfSome result (λ k. k < 8) }
{
    let middle = left + 1;
    let right = left + 2;
    let Some(height) = here[middle].get() else {
        return None;
    };
    let around = [
        above[middle],
        above[right],
        here[right],
        below[right],
        below[middle],
        below[left],
        here[left],
        above[left],
    ];
    winner(height, &around)
}

/// The number of a direction: 1 to 8 for N to NW, 0 for none.
pub(crate) fn numbered(winner: Option<u8>) -> u8
    requires { IfSome winner (λ k. k < 8) }
    ensures number { result ≡ direction_of winner }
    ensures few { result ≤ 8 }
{
    match winner {
        Some(k) => k + 1,
        None => 0,
    }
}
