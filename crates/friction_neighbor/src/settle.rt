//! The queue is emptied.
ghost use Rattle.std.specs.Prelude.{◌≡◌, ◌<◌, ◌≤◌, ◌+◌, ◌-◌, ◌*◌, length, OnOk, OnErr, IfOk};
ghost use Rattle.std.specs.Int.{from_bool};
ghost use Rattle.map_nums.specs.Grids.{Cells, cells_in};
ghost use Rattle.layer_tiles.specs.Tallies.{RisesBy};
ghost use Rattle.tile_work.specs.Working.{IsSameWork, base_of, copies};
ghost use Rattle.friction_spread.specs.Copied.{IsCopiedWhere};
ghost use Rattle.friction_neighbor.specs.Fields.{cost_at};
ghost use Rattle.friction_neighbor.specs.Repairs.{AreWanted, IsValueRepair, alone, IsDealt, IsDue, IsCaused};

use crate::gathers::least_value;
use crate::puts::put_round;
use crate::views::FieldView;
use layer_tiles::{NoMemory, Tally};
use least_costs::Queue;
use tile_work::{PlaceSet, Working};

/// Gives a place that was taken out of the queue under its cost its least value. If that is another one, the dearer places near come into
/// the queue; those near a place of a new cost did before. Says whether the value is another one, but not the cost.
fn deal<M: Tally>(
    field: &FieldView<'_>,
    values: &mut Working<'_>,
    queue: &mut Queue,
    seen: &mut PlaceSet,
    cost: u64,
    at: u32,
    tally: &mut M,
) -> Result<bool, NoMemory>
    requires size { values.old.size ≡ field.now.field.ground.size }
    requires seen { seen.old.size ≡ field.now.field.ground.size }
    requires within { at < cells_in field.now.field.ground.size }
    requires cost { cost ≡ cost_at field.now.field at }
    ensures same { IsSameWork values.old values.new }
    ensures dealt { IfOk result (IsDealt field.now at values.old.cells values.new.cells queue.old seen.old queue.new seen.new) }
    ensures copied { IsCopiedWhere values.old at (IsDue field.now.field values.old.cells at) values.new }
    ensures more { copies values.old.copied ≤ copies values.new.copied }
    ensures tally { IfOk result (λ told. RisesBy (copies values.new.copied - copies values.old.copied) (31 + 9 * from_bool told) (M.counts tally.old) (M.counts tally.new)) }
    ensures wanted { OnErr result (RisesBy (copies values.new.copied - copies values.old.copied + 1) 40 (M.counts tally.old) (M.counts tally.new)) }
{
    let _extent = values.extent();
    let front = field.front(at, cost, tally);
    let value = least_value(field, values, &front, tally);
    if values.get(at, tally).same(&value) {
        return Ok(false);
    }
    values.set(at, value, tally)?;
    if field.has_new_cost(at, tally) {
        return Ok(false);
    }
    put_round(field, queue, seen, cost + 1, front.spot, tally)?;
    Ok(true)
}

/// Gives each place the number of its nearest source, where those that may have another one stand in the queue, and counts the places
/// whose value alone is another one.
pub fn settle<M: Tally>(
    field: &FieldView<'_>,
    values: &mut Working<'_>,
    queue: &mut Queue,
    seen: &mut PlaceSet,
    tally: &mut M,
) -> Result<u64, NoMemory>
    requires size { values.old.size ≡ field.now.field.ground.size }
    requires begun { IsValueRepair field.now (base_of values.old.before) values.old.cells seen.old queue.old }
    requires unmoved { alone field.now (base_of values.old.before) values.old.cells ≡ 0 }
    requires caused { IsCaused field.now.field (base_of values.old.before) values.old }
    ensures same { IsSameWork values.old values.new }
    ensures right { IfOk result (λ moved. AreWanted field.now.field values.new.cells) }
    ensures moved { IfOk result (λ moved. moved ≡ alone field.now (base_of values.old.before) values.new.cells) }
    ensures caused { IsCaused field.now.field (base_of values.old.before) values.new }
    ensures more { copies values.old.copied ≤ copies values.new.copied }
    ensures tally { OnOk result ((cells : Cells) → AreWanted field.now.field cells → RisesBy (copies values.new.copied - copies values.old.copied) (31 * length queue.old + 288 * alone field.now (base_of values.old.before) cells) (M.counts tally.old) (M.counts tally.new)) }
    ensures wanted { OnErr result ((cells : Cells) → AreWanted field.now.field cells → RisesBy (copies values.new.copied - copies values.old.copied + 1) (31 * length queue.old + 288 * alone field.now (base_of values.old.before) cells + 40) (M.counts tally.old) (M.counts tally.new)) }
    ensures some { OnErr result (0 < length queue.old) }
{
    let _extent = field.extent();
    let _places = seen.extent();
    let mut moved = 0;
    while let Some((cost, at)) = queue.pop() {
        let told = deal(field, values, queue, seen, cost, at, tally)?;
        moved += u64::from(told);
    }
    Ok(moved)
}
