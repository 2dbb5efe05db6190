//! Places come into the queue under their costs, each once.
ghost use Rattle.std.specs.Prelude.{◌≡◌, ◌<◌, ◌≤◌, ◌+◌, ◌*◌, ℕ, length, slice_index_or, OnOk};
ghost use Rattle.std.specs.List.{All};
ghost use Rattle.map_nums.specs.Grids.{cells_in};
ghost use Rattle.layer_tiles.specs.Tallies.{RisesBy};
ghost use Rattle.friction_spread.specs.Spots.{IsSpot};
ghost use Rattle.friction_neighbor.specs.Puts.{ArePut, IsMarkedFrom, RowMarked, RoundMarked};

use crate::views::FieldView;
use friction_spread::Spot;
use layer_tiles::{NoMemory, Tally};
use least_costs::Queue;
use tile_work::PlaceSet;

/// A place comes into the queue where it costs `floor` or more, unless it did before. At most one pick.
fn put<M: Tally>(
    field: &FieldView<'_>,
    queue: &mut Queue,
    seen: &mut PlaceSet,
    floor: u64,
    at: u32,
    tally: &mut M,
) -> Result<(), NoMemory>
    requires size { seen.old.size ≡ field.now.field.ground.size }
    requires within { at < cells_in field.now.field.ground.size }
    ensures put { OnOk result (ArePut field.now.field queue.old seen.old queue.new seen.new) }
    ensures marked { OnOk result (IsMarkedFrom field.now.field floor seen.new at) }
    ensures len { OnOk result (length queue.new ≤ length queue.old + 1) }
    ensures pick { RisesBy 0 1 (M.counts tally.old) (M.counts tally.new) }
{
    let _extent = field.extent();
    let _places = seen.extent();
    if seen.has(at) {
        return Ok(());
    }
    let cost = field.cost(at, tally);
    if cost < floor {
        return Ok(());
    }
    queue.push(cost, at)?;
    seen.add(at)?;
    Ok(())
}

/// The same for a row next to a place. At most three picks.
fn put_row<M: Tally>(
    field: &FieldView<'_>,
    queue: &mut Queue,
    seen: &mut PlaceSet,
    floor: u64,
    from: Spot,
    row: u32,
    tally: &mut M,
) -> Result<(), NoMemory>
    requires size { seen.old.size ≡ field.now.field.ground.size }
    requires spot { IsSpot field.now.field.ground.size from }
    requires row { row < field.now.field.ground.size.rows }
    ensures put { OnOk result (ArePut field.now.field queue.old seen.old queue.new seen.new) }
    ensures marked { OnOk result (RowMarked field.now.field floor seen.new from.at row) }
    ensures len { OnOk result (length queue.new ≤ length queue.old + 3) }
    ensures picks { RisesBy 0 3 (M.counts tally.old) (M.counts tally.new) }
{
    let columns = field.extent().columns();
    let low = from.column.saturating_sub(1);
    let high = (from.column + 2).min(columns);
    for c in low..high {
        let spot = field.spot_at(row, c);
        put(field, queue, seen, floor, spot.at, tally)?;
    }
    Ok(())
}

/// The same for all places at most one row and one column from a place. At most nine picks.
pub fn put_round<M: Tally>(
    field: &FieldView<'_>,
    queue: &mut Queue,
    seen: &mut PlaceSet,
    floor: u64,
    from: Spot,
    tally: &mut M,
) -> Result<(), NoMemory>
    requires size { seen.old.size ≡ field.now.field.ground.size }
    requires spot { IsSpot field.now.field.ground.size from }
    ensures put { OnOk result (ArePut field.now.field queue.old seen.old queue.new seen.new) }
    ensures marked { OnOk result (RoundMarked field.now.field floor seen.new from.at) }
    ensures len { OnOk result (length queue.new ≤ length queue.old + 9) }
    ensures picks { RisesBy 0 9 (M.counts tally.old) (M.counts tally.new) }
{
    let rows = field.extent().rows();
    let low = from.row.saturating_sub(1);
    let high = (from.row + 2).min(rows);
    for r in low..high {
        put_row(field, queue, seen, floor, from, r, tally)?;
    }
    Ok(())
}

/// The places near each of some places come into the queue. At most nine picks each.
pub fn put_all<M: Tally>(
    field: &FieldView<'_>,
    queue: &mut Queue,
    seen: &mut PlaceSet,
    places: &[u32],
    tally: &mut M,
) -> Result<(), NoMemory>
    requires size { seen.old.size ≡ field.now.field.ground.size }
    requires within { All (λ at. at < cells_in field.now.field.ground.size) places.now }
    ensures put { OnOk result (ArePut field.now.field queue.old seen.old queue.new seen.new) }
    ensures marked { OnOk result ((k : ℕ) → k < length places.now → RoundMarked field.now.field 0 seen.new (slice_index_or places.now k 0)) }
    ensures len { OnOk result (length queue.new ≤ length queue.old + 9 * length places.now) }
    ensures picks { RisesBy 0 (9 * length places.now) (M.counts tally.old) (M.counts tally.new) }
{
    let _extent = field.extent();
    for at in places {
        let spot = field.spot(*at);
        put_round(field, queue, seen, 0, spot, tally)?;
    }
    Ok(())
}
