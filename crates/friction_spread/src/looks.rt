//! Places round a place come into the queue.
ghost use Rattle.std.specs.Prelude.{◌≡◌, ◌<◌, ◌≤◌, ◌+◌, ◌*◌, ℕ, length, OnOk};
ghost use Rattle.map_nums.specs.Grids.{cells_in, gap};
ghost use Rattle.layer_tiles.specs.Tallies.{RisesBy};
ghost use Rattle.friction_spread.specs.Costs.{values, net_of};
ghost use Rattle.friction_spread.specs.Spots.{IsSpot};
ghost use Rattle.least_costs.specs.Queue.{IsQueued, IsKept};
ghost use Rattle.friction_spread.specs.Rows.{RowQueued, RoundQueued};
ghost use Rattle.friction_spread.specs.Near.{AreMarked, AreSeen};

use crate::costs::cost_at;
use crate::equations::equation;
use crate::ground::{Ground, Spot};
use layer_tiles::{NoMemory, Tally};
use least_costs::Queue;
use tile_work::{PlaceSet, Working};

/// A place that disagrees comes into the queue. At most 21 picks.
pub fn look<M: Tally>(
    ground: &Ground<'_>,
    labels: &Working<'_>,
    queue: &mut Queue,
    at: Spot,
    tally: &mut M,
) -> Result<(), NoMemory>
    requires size { labels.now.size ≡ ground.now.size }
    requires spot { IsSpot ground.now.size at }
    ensures kept { OnOk result (IsKept queue.old queue.new) }
    ensures queued { OnOk result (IsQueued (net_of ground.now) (values ground.now.limit labels.now.cells) queue.new at.at) }
    ensures len { OnOk result (length queue.new ≤ length queue.old + 1) }
    ensures picks { RisesBy 0 21 (M.counts tally.old) (M.counts tally.new) }
{
    let value = cost_at(ground, labels, at.at, tally);
    let own = ground.friction(at.at, tally);
    let other = equation(ground, labels, at, own, 0, tally);
    if value == other {
        return Ok(());
    }
    let _extent = ground.extent();
    queue.push(value.min(other), at.at)?;
    Ok(())
}

/// The same where the place does not stand in a set of places that were looked at. At most 21 picks.
fn look_unless_marked<M: Tally>(
    ground: &Ground<'_>,
    labels: &Working<'_>,
    queue: &mut Queue,
    seen: &mut PlaceSet,
    at: Spot,
    tally: &mut M,
) -> Result<(), NoMemory>
    requires size { labels.now.size ≡ ground.now.size }
    requires spot { IsSpot ground.now.size at }
    requires seen { AreMarked ground.now (values ground.now.limit labels.now.cells) queue.old seen.old }
    ensures kept { OnOk result (IsKept queue.old queue.new) }
    ensures queued { OnOk result (IsQueued (net_of ground.now) (values ground.now.limit labels.now.cells) queue.new at.at) }
    ensures seen { OnOk result (AreMarked ground.now (values ground.now.limit labels.now.cells) queue.new seen.new) }
    ensures len { OnOk result (length queue.new ≤ length queue.old + 1) }
    ensures picks { RisesBy 0 21 (M.counts tally.old) (M.counts tally.new) }
{
    if seen.has(at.at) {
        return Ok(());
    }
    look(ground, labels, queue, at, tally)?;
    seen.add(at.at)?;
    Ok(())
}

/// The same where it is not known that the place was looked at. At most 21 picks.
fn look_once<M: Tally>(
    ground: &Ground<'_>,
    labels: &Working<'_>,
    queue: &mut Queue,
    seen: &mut Option<PlaceSet>,
    at: Spot,
    tally: &mut M,
) -> Result<(), NoMemory>
    requires size { labels.now.size ≡ ground.now.size }
    requires spot { IsSpot ground.now.size at }
    requires seen { AreSeen ground.now (values ground.now.limit labels.now.cells) queue.old seen.old }
    ensures kept { OnOk result (IsKept queue.old queue.new) }
    ensures queued { OnOk result (IsQueued (net_of ground.now) (values ground.now.limit labels.now.cells) queue.new at.at) }
    ensures seen { OnOk result (AreSeen ground.now (values ground.now.limit labels.now.cells) queue.new seen.new) }
    ensures len { OnOk result (length queue.new ≤ length queue.old + 1) }
    ensures picks { RisesBy 0 21 (M.counts tally.old) (M.counts tally.new) }
{
    match seen {
        Some(places) => look_unless_marked(ground, labels, queue, places, at, tally),
        None => look(ground, labels, queue, at, tally),
    }
}

/// Those of a row next to a place. At most 63 picks.
fn look_row<M: Tally>(
    ground: &Ground<'_>,
    labels: &Working<'_>,
    queue: &mut Queue,
    seen: &mut Option<PlaceSet>,
    from: Spot,
    row: u32,
    tally: &mut M,
) -> Result<(), NoMemory>
    requires size { labels.now.size ≡ ground.now.size }
    requires spot { IsSpot ground.now.size from }
    requires row { row < ground.now.size.rows }
    requires seen { AreSeen ground.now (values ground.now.limit labels.now.cells) queue.old seen.old }
    ensures kept { OnOk result (IsKept queue.old queue.new) }
    ensures queued { OnOk result (RowQueued (net_of ground.now) ground.now.size (values ground.now.limit labels.now.cells) queue.new from.at row) }
    ensures seen { OnOk result (AreSeen ground.now (values ground.now.limit labels.now.cells) queue.new seen.new) }
    ensures len { OnOk result (length queue.new ≤ length queue.old + 3) }
    ensures picks { RisesBy 0 63 (M.counts tally.old) (M.counts tally.new) }
{
    let columns = ground.extent().columns();
    let low = from.column.saturating_sub(1);
    let high = (from.column + 2).min(columns);
    for c in low..high {
        look_once(ground, labels, queue, seen, ground.spot_at(row, c), tally)?;
    }
    Ok(())
}

/// The places at most one row and one column from a place. At most 189 picks.
pub fn look_round<M: Tally>(
    ground: &Ground<'_>,
    labels: &Working<'_>,
    queue: &mut Queue,
    seen: &mut Option<PlaceSet>,
    from: Spot,
    tally: &mut M,
) -> Result<(), NoMemory>
    requires size { labels.now.size ≡ ground.now.size }
    requires spot { IsSpot ground.now.size from }
    requires seen { AreSeen ground.now (values ground.now.limit labels.now.cells) queue.old seen.old }
    ensures kept { OnOk result (IsKept queue.old queue.new) }
    ensures queued { OnOk result (RoundQueued (net_of ground.now) ground.now.size (values ground.now.limit labels.now.cells) queue.new from.at) }
    ensures seen { OnOk result (AreSeen ground.now (values ground.now.limit labels.now.cells) queue.new seen.new) }
    ensures len { OnOk result (length queue.new ≤ length queue.old + 9) }
    ensures picks { RisesBy 0 189 (M.counts tally.old) (M.counts tally.new) }
{
    let rows = ground.extent().rows();
    let low = from.row.saturating_sub(1);
    let high = (from.row + 2).min(rows);
    for r in low..high {
        look_row(ground, labels, queue, seen, from, r, tally)?;
    }
    Ok(())
}
