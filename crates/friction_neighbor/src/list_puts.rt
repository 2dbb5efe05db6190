//! Places come into the queue under their costs, each once, where costs are in a list.
ghost use Rattle.std.specs.Prelude.{◌≡◌, ◌<◌, ℕ, true, OnOk};
ghost use Rattle.map_nums.specs.Grids.{cells_in, row_of};
ghost use Rattle.friction_spread.specs.Spots.{IsSpot};
ghost use Rattle.friction_neighbor.specs.Puts.{is_marked, ArePut, IsMarkedFrom, RowMarked, RoundMarked};

use crate::fields::CostField;
use friction_spread::Spot;
use layer_tiles::NoMemory;
use least_costs::Queue;
use tile_work::PlaceSet;

/// A place comes into the queue where it costs `floor` or more, unless it did before.
fn put(
    field: &CostField<'_>,
    queue: &mut Queue,
    seen: &mut PlaceSet,
    floor: u64,
    at: u32,
) -> Result<(), NoMemory>
    requires size { seen.old.size ≡ field.now.ground.size }
    requires within { at < cells_in field.now.ground.size }
    ensures put { OnOk result (ArePut field.now queue.old seen.old queue.new seen.new) }
    ensures marked { OnOk result (IsMarkedFrom field.now floor seen.new at) }
{
    let _extent = field.extent();
    let _places = seen.extent();
    if seen.has(at) {
        return Ok(());
    }
    let cost = field.cost(at);
    if cost < floor {
        return Ok(());
    }
    queue.push(cost, at)?;
    seen.add(at)?;
    Ok(())
}

/// The same for a row next to a place.
fn put_row(
    field: &CostField<'_>,
    queue: &mut Queue,
    seen: &mut PlaceSet,
    floor: u64,
    from: Spot,
    row: u32,
) -> Result<(), NoMemory>
    requires size { seen.old.size ≡ field.now.ground.size }
    requires spot { IsSpot field.now.ground.size from }
    requires row { row < field.now.ground.size.rows }
    ensures put { OnOk result (ArePut field.now queue.old seen.old queue.new seen.new) }
    ensures marked { OnOk result (RowMarked field.now floor seen.new from.at row) }
{
    let columns = field.extent().columns();
    let low = from.column.saturating_sub(1);
    let high = (from.column + 2).min(columns);
    for c in low..high {
        let spot = field.spot_at(row, c);
        put(field, queue, seen, floor, spot.at)?;
    }
    Ok(())
}

/// The same for all places at most one row and one column from a place.
pub fn put_round(
    field: &CostField<'_>,
    queue: &mut Queue,
    seen: &mut PlaceSet,
    floor: u64,
    from: Spot,
) -> Result<(), NoMemory>
    requires size { seen.old.size ≡ field.now.ground.size }
    requires spot { IsSpot field.now.ground.size from }
    ensures put { OnOk result (ArePut field.now queue.old seen.old queue.new seen.new) }
    ensures marked { OnOk result (RoundMarked field.now floor seen.new from.at) }
{
    let rows = field.extent().rows();
    let low = from.row.saturating_sub(1);
    let high = (from.row + 2).min(rows);
    for r in low..high {
        put_row(field, queue, seen, floor, from, r)?;
    }
    Ok(())
}

/// All places of a row come into the queue.
pub fn put_line(
    field: &CostField<'_>,
    queue: &mut Queue,
    seen: &mut PlaceSet,
    row: u32,
) -> Result<(), NoMemory>
    requires size { seen.old.size ≡ field.now.ground.size }
    requires row { row < field.now.ground.size.rows }
    ensures put { OnOk result (ArePut field.now queue.old seen.old queue.new seen.new) }
    ensures marked { OnOk result ((i : ℕ) → i < cells_in field.now.ground.size → row_of field.now.ground.size i ≡ row → is_marked seen.new i ≡ true) }
{
    for c in 0..field.extent().columns() {
        let spot = field.spot_at(row, c);
        put(field, queue, seen, 0, spot.at)?;
    }
    Ok(())
}
