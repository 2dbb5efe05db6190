//! The least value that steps of least costs bring to a place, where costs and values are in lists.
ghost use Rattle.std.specs.Prelude.{◌≡◌, ◌<◌, ◌≤◌, length};
ghost use Rattle.map_nums.specs.Grids.{cells_in, gap};
ghost use Rattle.friction_spread.specs.Spots.{IsSpot, AreNear};
ghost use Rattle.friction_neighbor.specs.Spots.{IsFront};
ghost use Rattle.friction_neighbor.specs.Gathers.{IsLeastHere, IsGathered, IsBrought, RowBrought};

use crate::fields::{CostField, Front};
use crate::gathers::lesser;
use friction_spread::{Spot, weigh};
use layer_tiles::Cell;

/// The lesser of `best` and the value of a place near, if a step leads from there.
fn by_place(field: &CostField<'_>, values: &[Cell], to: &Front, from: Spot, best: Cell) -> Cell
    requires count { length values.now ≡ cells_in field.now.ground.size }
    requires front { IsFront field.now to.now }
    requires costed { to.now.cost ≤ field.now.ground.limit }
    requires spot { IsSpot field.now.ground.size from }
    requires near { AreNear to.now.spot from }
    ensures gathered { IsGathered field.now values.now to.now.spot.at best result }
    ensures brought { IsBrought field.now values.now to.now.spot.at result from.at }
{
    let _extent = field.extent();
    let there = field.cost(from.at);
    if there >= to.cost {
        return best;
    }
    let friction = field.friction(from.at);
    let cost = there + weigh(from, to.spot, friction, to.friction);
    if cost != to.cost {
        return best;
    }
    let value = values[from.at as usize];
    lesser(best, value)
}

/// The same over a row next to a place.
fn by_row(field: &CostField<'_>, values: &[Cell], to: &Front, row: u32, best: Cell) -> Cell
    requires count { length values.now ≡ cells_in field.now.ground.size }
    requires front { IsFront field.now to.now }
    requires costed { to.now.cost ≤ field.now.ground.limit }
    requires row { row < field.now.ground.size.rows }
    requires close { gap to.now.spot.row row ≤ 1 }
    ensures gathered { IsGathered field.now values.now to.now.spot.at best result }
    ensures brought { RowBrought field.now values.now to.now.spot.at result row }
{
    let columns = field.extent().columns();
    let low = to.spot.column.saturating_sub(1);
    let high = (to.spot.column + 2).min(columns);
    let mut least = best;
    for c in low..high {
        let from = field.spot_at(row, c);
        least = by_place(field, values, to, from, least);
    }
    least
}

/// The same over all places near one that is no source that costs nothing.
fn by_round(field: &CostField<'_>, values: &[Cell], to: &Front) -> Cell
    requires count { length values.now ≡ cells_in field.now.ground.size }
    requires front { IsFront field.now to.now }
    requires some { 0 < to.now.cost }
    requires costed { to.now.cost ≤ field.now.ground.limit }
    ensures least { IsLeastHere field.now values.now to.now.spot.at result }
{
    let rows = field.extent().rows();
    let low = to.spot.row.saturating_sub(1);
    let high = (to.spot.row + 2).min(rows);
    let mut least = Cell::null();
    for r in low..high {
        least = by_row(field, values, to, r, least);
    }
    least
}

/// The least of the own number of a place, where it costs nothing, and of the values from where a step leads to it; null where it has
/// no cost.
pub fn least_value(field: &CostField<'_>, values: &[Cell], to: &Front) -> Cell
    requires count { length values.now ≡ cells_in field.now.ground.size }
    requires front { IsFront field.now to.now }
    ensures least { IsLeastHere field.now values.now to.now.spot.at result }
{
    let _extent = field.extent();
    let limit = field.limit();
    if to.cost > limit {
        return Cell::null();
    }
    if to.cost == 0 {
        return field.source(to.spot.at);
    }
    by_round(field, values, to)
}
