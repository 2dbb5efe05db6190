//! The least value that steps of least costs bring to a place.
ghost use Rattle.std.specs.Prelude.{◌≡◌, ◌<◌, ◌≤◌, ◌*◌};
ghost use Rattle.map_nums.specs.Grids.{gap};
ghost use Rattle.layer_tiles.specs.Tallies.{RisesBy};
ghost use Rattle.friction_spread.specs.Spots.{IsSpot, AreNear};
ghost use Rattle.friction_neighbor.specs.Spots.{IsFront};
ghost use Rattle.friction_neighbor.specs.Gathers.{IsLeastHere, IsLesser, IsGathered, IsBrought, RowBrought};

use crate::fields::Front;
use crate::views::FieldView;
use friction_spread::{Spot, least_step, weigh};
use layer_tiles::{Cell, Tally};
use tile_work::Working;

/// The lesser of two cells; null is above all numbers.
pub fn lesser(one: Cell, other: Cell) -> Cell
    ensures { IsLesser one other result }
{
    let Some(number) = other.get() else {
        return one;
    };
    match one.get() {
        Some(least) if least <= number => one,
        _ => other,
    }
}

/// The lesser of `best` and the value of a place near, if a step leads from there. At most three picks.
fn by_place<M: Tally>(
    field: &FieldView<'_>,
    values: &Working<'_>,
    to: &Front,
    from: Spot,
    best: Cell,
    tally: &mut M,
) -> Cell
    requires size { values.now.size ≡ field.now.field.ground.size }
    requires front { IsFront field.now.field to.now }
    requires costed { to.now.cost ≤ field.now.field.ground.limit }
    requires spot { IsSpot field.now.field.ground.size from }
    requires near { AreNear to.now.spot from }
    ensures gathered { IsGathered field.now.field values.now.cells to.now.spot.at best result }
    ensures brought { IsBrought field.now.field values.now.cells to.now.spot.at result from.at }
    ensures picks { RisesBy 0 3 (M.counts tally.old) (M.counts tally.new) }
{
    let _extent = field.extent();
    let there = field.cost(from.at, tally);
    if there + least_step(to.friction) > to.cost {
        return best;
    }
    let friction = field.friction(from.at, tally);
    let cost = there + weigh(from, to.spot, friction, to.friction);
    if cost != to.cost {
        return best;
    }
    let value = values.get(from.at, tally);
    lesser(best, value)
}

/// The same over a row next to a place. At most nine picks.
fn by_row<M: Tally>(
    field: &FieldView<'_>,
    values: &Working<'_>,
    to: &Front,
    row: u32,
    best: Cell,
    tally: &mut M,
) -> Cell
    requires size { values.now.size ≡ field.now.field.ground.size }
    requires front { IsFront field.now.field to.now }
    requires costed { to.now.cost ≤ field.now.field.ground.limit }
    requires row { row < field.now.field.ground.size.rows }
    requires close { gap to.now.spot.row row ≤ 1 }
    ensures gathered { IsGathered field.now.field values.now.cells to.now.spot.at best result }
    ensures brought { RowBrought field.now.field values.now.cells to.now.spot.at result row }
    ensures picks { RisesBy 0 9 (M.counts tally.old) (M.counts tally.new) }
{
    let columns = field.extent().columns();
    let low = to.spot.column.saturating_sub(1);
    let high = (to.spot.column + 2).min(columns);
    let mut least = best;
    for c in low..high {
        let from = field.spot_at(row, c);
        least = by_place(field, values, to, from, least, tally);
    }
    least
}

/// The same over all places near one that is no source that costs nothing. At most 27 picks.
fn by_round<M: Tally>(
    field: &FieldView<'_>,
    values: &Working<'_>,
    to: &Front,
    tally: &mut M,
) -> Cell
    requires size { values.now.size ≡ field.now.field.ground.size }
    requires front { IsFront field.now.field to.now }
    requires some { 0 < to.now.cost }
    requires costed { to.now.cost ≤ field.now.field.ground.limit }
    ensures least { IsLeastHere field.now.field values.now.cells to.now.spot.at result }
    ensures picks { RisesBy 0 27 (M.counts tally.old) (M.counts tally.new) }
{
    let rows = field.extent().rows();
    let low = to.spot.row.saturating_sub(1);
    let high = (to.spot.row + 2).min(rows);
    let mut least = Cell::null();
    for r in low..high {
        least = by_row(field, values, to, r, least, tally);
    }
    least
}

/// The least of the own number of a place, where it costs nothing, and of the values from where a step leads to it; null where it has
/// no cost. At most 27 picks.
pub fn least_value<M: Tally>(
    field: &FieldView<'_>,
    values: &Working<'_>,
    to: &Front,
    tally: &mut M,
) -> Cell
    requires size { values.now.size ≡ field.now.field.ground.size }
    requires front { IsFront field.now.field to.now }
    ensures least { IsLeastHere field.now.field values.now.cells to.now.spot.at result }
    ensures picks { RisesBy 0 27 (M.counts tally.old) (M.counts tally.new) }
{
    let _extent = field.extent();
    let limit = field.limit();
    if to.cost > limit {
        return Cell::null();
    }
    if to.cost == 0 {
        return field.source(to.spot.at, tally);
    }
    by_round(field, values, to, tally)
}
