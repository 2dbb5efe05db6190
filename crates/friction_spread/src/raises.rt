//! Neighbours of a place whose cost was taken away come into the queue.
ghost use Rattle.std.specs.Prelude.{◌≡◌, ◌<◌, ◌≤◌, ◌+◌, ◌*◌, ◌^◌, ℕ, length, OnOk};
ghost use Rattle.map_nums.specs.Grids.{cells_in, gap};
ghost use Rattle.map_defs.specs.Spread.{friction_at};
ghost use Rattle.layer_tiles.specs.Tallies.{RisesBy};
ghost use Rattle.least_costs.specs.Queue.{IsKept, IsRisen};
ghost use Rattle.friction_spread.specs.Costs.{values, net_of};
ghost use Rattle.friction_spread.specs.Spots.{IsSpot, AreNear};
ghost use Rattle.friction_spread.specs.Rows.{RowRisen, RoundRisen};

use crate::costs::cost_at;
use crate::equations::{least_step, weigh};
use crate::ground::{Focus, Ground, Spot};
use crate::looks::look;
use layer_tiles::{NoMemory, Tally};
use least_costs::Queue;
use tile_work::Working;

/// A place near one whose cost was `value`. Where it has the cost through that one, it may have stood on it, and comes into the
/// queue under its own cost: its equation is computed when it is taken out. One above that cost comes into the queue if it
/// disagrees; for one below, the equation did not rise, or stays above it. At most 23 picks.
fn raise<M: Tally>(
    ground: &Ground<'_>,
    labels: &Working<'_>,
    queue: &mut Queue,
    from: &Focus,
    value: u64,
    to: Spot,
    tally: &mut M,
) -> Result<(), NoMemory>
    requires size { labels.now.size ≡ ground.now.size }
    requires spots { IsSpot ground.now.size from.now.spot × IsSpot ground.now.size to }
    requires near { AreNear to from.now.spot }
    requires low { value ≤ 2 ^ 50 }
    requires own { (from.now.friction ≡ friction_at ground.now.friction from.now.spot.at) × (0 < from.now.friction) × (from.now.friction < 2 ^ 50) }
    ensures kept { OnOk result (IsKept queue.old queue.new) }
    ensures risen { OnOk result (IsRisen (net_of ground.now) value (values ground.now.limit labels.now.cells) queue.new from.now.spot.at to.at) }
    ensures len { OnOk result (length queue.new ≤ length queue.old + 1) }
    ensures picks { RisesBy 0 23 (M.counts tally.old) (M.counts tally.new) }
{
    if from.spot.at == to.at {
        return Ok(());
    }
    let there = cost_at(ground, labels, to.at, tally);
    if there < value + least_step(from.friction) {
        return Ok(());
    }
    let friction = ground.friction(to.at, tally);
    if friction == 0 {
        return Ok(());
    }
    let cost = value + weigh(from.spot, to, from.friction, friction);
    if there < cost {
        return Ok(());
    }
    if there == cost {
        let _extent = ground.extent();
        queue.push(there, to.at)?;
        return Ok(());
    }
    look(ground, labels, queue, to, tally)
}

/// Those of a row next to it. At most 69 picks.
fn raise_row<M: Tally>(
    ground: &Ground<'_>,
    labels: &Working<'_>,
    queue: &mut Queue,
    from: &Focus,
    value: u64,
    row: u32,
    tally: &mut M,
) -> Result<(), NoMemory>
    requires size { labels.now.size ≡ ground.now.size }
    requires spot { IsSpot ground.now.size from.now.spot }
    requires row { row < ground.now.size.rows }
    requires close { gap row from.now.spot.row ≤ 1 }
    requires low { value ≤ 2 ^ 50 }
    requires own { (from.now.friction ≡ friction_at ground.now.friction from.now.spot.at) × (0 < from.now.friction) × (from.now.friction < 2 ^ 50) }
    ensures kept { OnOk result (IsKept queue.old queue.new) }
    ensures risen { OnOk result (RowRisen (net_of ground.now) ground.now.size value (values ground.now.limit labels.now.cells) queue.new from.now.spot.at row) }
    ensures len { OnOk result (length queue.new ≤ length queue.old + 3) }
    ensures picks { RisesBy 0 69 (M.counts tally.old) (M.counts tally.new) }
{
    let columns = ground.extent().columns();
    let low = from.spot.column.saturating_sub(1);
    let high = (from.spot.column + 2).min(columns);
    for c in low..high {
        raise(
            ground,
            labels,
            queue,
            from,
            value,
            ground.spot_at(row, c),
            tally,
        )?;
    }
    Ok(())
}

/// The neighbours of a place whose cost was `value` come into the queue, where its loss may make them disagree. At most 207 picks.
pub fn raise_round<M: Tally>(
    ground: &Ground<'_>,
    labels: &Working<'_>,
    queue: &mut Queue,
    from: Spot,
    value: u64,
    own: u64,
    tally: &mut M,
) -> Result<(), NoMemory>
    requires size { labels.now.size ≡ ground.now.size }
    requires spot { IsSpot ground.now.size from }
    requires low { value ≤ 2 ^ 50 }
    requires own { (own ≡ friction_at ground.now.friction from.at) × (own < 2 ^ 50) }
    ensures kept { OnOk result (IsKept queue.old queue.new) }
    ensures risen { OnOk result (RoundRisen (net_of ground.now) ground.now.size value (values ground.now.limit labels.now.cells) queue.new from.at) }
    ensures len { OnOk result (length queue.new ≤ length queue.old + 9) }
    ensures picks { RisesBy 0 207 (M.counts tally.old) (M.counts tally.new) }
{
    if own == 0 {
        return Ok(());
    }
    let focus = Focus {
        spot: from,
        friction: own,
    };
    let rows = ground.extent().rows();
    let low = from.row.saturating_sub(1);
    let high = (from.row + 2).min(rows);
    for r in low..high {
        raise_row(ground, labels, queue, &focus, value, r, tally)?;
    }
    Ok(())
}
