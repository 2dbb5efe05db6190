//! Values in a list are put right, where costs are in a list and right already.
ghost use Rattle.std.specs.Prelude.{◌≡◌, ◌<◌, length, OnOk};
ghost use Rattle.map_nums.specs.Grids.{cells_in};
ghost use Rattle.layer_tiles.specs.Cells.{AreCells};
ghost use Rattle.friction_neighbor.specs.Fields.{cost_at};
ghost use Rattle.friction_neighbor.specs.Joins.{IsListRepair, IsListDealt};
ghost use Rattle.friction_neighbor.specs.Repairs.{AreWanted};

use crate::fields::{CostField, Front};
use crate::list_gathers::least_value;
use crate::list_puts::put_round;
use layer_tiles::{Cell, NoMemory};
use least_costs::Queue;
use tile_work::PlaceSet;

/// Gives a place that was taken out of the queue under its cost its least value. If that is another one, the dearer places near come into
/// the queue.
fn deal(
    field: &CostField<'_>,
    values: &mut [Cell],
    queue: &mut Queue,
    seen: &mut PlaceSet,
    cost: u64,
    at: u32,
) -> Result<(), NoMemory>
    requires count { length values.old ≡ cells_in field.now.ground.size }
    requires seen { seen.old.size ≡ field.now.ground.size }
    requires within { at < cells_in field.now.ground.size }
    requires cost { cost ≡ cost_at field.now at }
    ensures count { OnOk result (length values.new ≡ length values.old) }
    ensures dealt { OnOk result (IsListDealt field.now at values.old values.new queue.old seen.old queue.new seen.new) }
{
    let _extent = field.extent();
    let front = Front {
        spot: field.spot(at),
        cost,
        friction: field.friction(at),
    };
    let value = least_value(field, values, &front);
    let _number = value.get();
    if values[at as usize].same(&value) {
        return Ok(());
    }
    values[at as usize] = value;
    put_round(field, queue, seen, cost + 1, front.spot)?;
    Ok(())
}

/// Gives each place the number of its nearest source, where those that may have another one stand in the queue.
pub fn settle(
    field: &CostField<'_>,
    values: &mut [Cell],
    queue: &mut Queue,
    seen: &mut PlaceSet,
) -> Result<(), NoMemory>
    requires begun { IsListRepair field.now values.old values.old seen.old queue.old }
    ensures count { OnOk result (length values.new ≡ length values.old) }
    ensures cells { OnOk result (AreCells values.new) }
    ensures right { OnOk result (AreWanted field.now values.new) }
{
    let _extent = field.extent();
    let _places = seen.extent();
    while let Some((cost, at)) = queue.pop() {
        deal(field, values, queue, seen, cost, at)?;
    }
    Ok(())
}
