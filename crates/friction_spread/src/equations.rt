//! What the equation of a place gives.
ghost use Rattle.std.specs.Prelude.{◌≡◌, ◌<◌, ◌≤◌, ◌+◌, ◌*◌, ◌^◌, ℕ, suc, min, length};
ghost use Rattle.map_nums.specs.Grids.{IsSize, cells_in, cell_at, row_of, gap};
ghost use Rattle.map_defs.specs.Nets.{equation};
ghost use Rattle.map_defs.specs.Spread.{friction_at};
ghost use Rattle.layer_tiles.specs.Tallies.{RisesBy};
ghost use Rattle.friction_spread.specs.Costs.{IsGround, values, AreCosts, step_of, net_of};
ghost use Rattle.friction_spread.specs.Spots.{IsSpot, AreNear, weighed};
ghost use Rattle.friction_spread.specs.Rows.{IsLowered, RowLowered};

use crate::costs::cost_at;
use crate::ground::{Focus, Ground, Spot};
use layer_tiles::Tally;
use tile_work::Working;

/// No step from or to a place of this friction costs less.
pub fn least_step(friction: u64) -> u64
    requires { friction < 2 ^ 50 }
    ensures { result ≡ 5 * (friction + 1) }
{
    5 * (friction + 1)
}

/// What a step between neighbours of two frictions costs.
pub fn weigh(from: Spot, to: Spot, friction: u64, own: u64) -> u64
    requires { (friction < 2 ^ 50) × (own < 2 ^ 50) }
    ensures value { result ≡ weighed from to friction own }
    ensures low { result < 2 ^ 54 }
{
    let both = friction + own;
    if from.row == to.row || from.column == to.column {
        5 * both
    } else {
        7 * both
    }
}

/// The lesser of `best` and the cost by a step from a place near, which is not read where `best` is least already. At most two picks.
fn by_place<M: Tally>(
    ground: &Ground<'_>,
    labels: &Working<'_>,
    to: &Focus,
    floor: u64,
    from: Spot,
    best: u64,
    tally: &mut M,
) -> u64
    requires size { labels.now.size ≡ ground.now.size }
    requires spots { IsSpot ground.now.size to.now.spot × IsSpot ground.now.size from }
    requires near { AreNear to.now.spot from }
    requires floor { (j : ℕ) → floor ≤ values ground.now.limit labels.now.cells j + step_of ground.now j to.now.spot.at }
    requires own { (to.now.friction ≡ friction_at ground.now.friction to.now.spot.at) × (0 < to.now.friction) × (to.now.friction < 2 ^ 50) }
    requires best { best ≤ suc ground.now.limit }
    ensures value { result ≡ min best (values ground.now.limit labels.now.cells from.at + step_of ground.now from.at to.now.spot.at) }
    ensures picks { RisesBy 0 2 (M.counts tally.old) (M.counts tally.new) }
{
    if best <= floor {
        return best;
    }
    if from.at == to.spot.at {
        return best;
    }
    let value = cost_at(ground, labels, from.at, tally);
    if value + least_step(to.friction) >= best {
        return best;
    }
    let friction = ground.friction(from.at, tally);
    if friction == 0 {
        return best;
    }
    best.min(value + weigh(from, to.spot, friction, to.friction))
}

/// The same over a row next to a place. At most six picks.
fn by_row<M: Tally>(
    ground: &Ground<'_>,
    labels: &Working<'_>,
    to: &Focus,
    floor: u64,
    row: u32,
    best: u64,
    tally: &mut M,
) -> u64
    requires size { labels.now.size ≡ ground.now.size }
    requires spot { IsSpot ground.now.size to.now.spot }
    requires row { row < ground.now.size.rows }
    requires close { gap to.now.spot.row row ≤ 1 }
    requires floor { (j : ℕ) → floor ≤ values ground.now.limit labels.now.cells j + step_of ground.now j to.now.spot.at }
    requires own { (to.now.friction ≡ friction_at ground.now.friction to.now.spot.at) × (0 < to.now.friction) × (to.now.friction < 2 ^ 50) }
    requires best { best ≤ suc ground.now.limit }
    ensures lowered { IsLowered (net_of ground.now) (values ground.now.limit labels.now.cells) to.now.spot.at best result }
    ensures near { RowLowered (net_of ground.now) ground.now.size (values ground.now.limit labels.now.cells) to.now.spot.at row result }
    ensures picks { RisesBy 0 6 (M.counts tally.old) (M.counts tally.new) }
{
    let columns = ground.extent().columns();
    let low = to.spot.column.saturating_sub(1);
    let high = (to.spot.column + 2).min(columns);
    let mut least = best;
    for c in low..high {
        least = by_place(
            ground,
            labels,
            to,
            floor,
            ground.spot_at(row, c),
            least,
            tally,
        );
    }
    least
}

/// What the equation of a place of friction `own` gives, where that is known to be `floor` or above. At most 19 picks.
pub fn equation<M: Tally>(
    ground: &Ground<'_>,
    labels: &Working<'_>,
    to: Spot,
    own: u64,
    floor: u64,
    tally: &mut M,
) -> u64
    requires size { labels.now.size ≡ ground.now.size }
    requires count { length labels.now.cells ≡ cells_in ground.now.size }
    requires spot { IsSpot ground.now.size to }
    requires own { (own ≡ friction_at ground.now.friction to.at) × (own < 2 ^ 50) }
    requires floor { floor ≤ equation (net_of ground.now) (values ground.now.limit labels.now.cells) to.at }
    ensures value { result ≡ equation (net_of ground.now) (values ground.now.limit labels.now.cells) to.at }
    ensures most { result ≤ suc ground.now.limit }
    ensures picks { RisesBy 0 19 (M.counts tally.old) (M.counts tally.new) }
{
    if own == 0 {
        return ground.top();
    }
    if floor == 0 && ground.is_source(to.at, tally) {
        return 0;
    }
    let focus = Focus {
        spot: to,
        friction: own,
    };
    let rows = ground.extent().rows();
    let low = to.row.saturating_sub(1);
    let high = (to.row + 2).min(rows);
    let mut least = ground.top();
    for r in low..high {
        least = by_row(ground, labels, &focus, floor, r, least, tally);
    }
    least
}
