//! The numbers of nearest sources put right after a change, where the least costs are right already.
ghost use Rattle.std.specs.Prelude.{◌≡◌, ◌<◌, ◌≤◌, ◌+◌, ◌*◌, length, Some, IfOk};
ghost use Rattle.std.specs.List.{All};
ghost use Rattle.map_nums.specs.Grids.{cells_in};
ghost use Rattle.map_nums.specs.Numbers.{greatest_value};
ghost use Rattle.map_nums.specs.Tiles.{tiles};
ghost use Rattle.map_defs.specs.Differences.{differs};
ghost use Rattle.map_defs.specs.Nearest.{AreNearest};
ghost use Rattle.map_defs.specs.Spread.{IsSpread};
ghost use Rattle.layer_tiles.specs.Changes.{patched_change};
ghost use Rattle.layer_tiles.specs.Patches.{patched};
ghost use Rattle.changed_cells.specs.Unions.{AreAllPlaces};
ghost use Rattle.friction_spread.specs.Repairs.{HoldsExactly};
ghost use Rattle.friction_neighbor.specs.Repairs.{alone, AreLeastFar, ValuesReadWithin};
ghost use Rattle.friction_neighbor.specs.Results.{AreRightBefore, NearestReadsWithin};
ghost use Rattle.friction_neighbor.specs.Views.{view_of};

use crate::puts::put_all;
use crate::repair::Nearest;
use crate::settle::settle;
use crate::views::FieldView;
use changed_cells::{changed_places, changed_places_of_both};
use layer_tiles::{Change, Layer, NoMemory, Patch, Tally};
use least_costs::Queue;
use std::alloc::Global;
use tile_work::{PlaceSet, Working};

/// The changed tiles of the values, and at how many places the value is another one, but not the cost.
#[derive(Drop)]
pub struct ValueRepair {
    pub patch: Patch,
    pub moved: u64,
}

/// Values that are right but near some places, put right: near those of changed operands and of new costs.
fn repaired_values<M: Tally>(
    alloc: Global,
    base: &Layer,
    field: &FieldView<'_>,
    changed: &[u32],
    moved: &[u32],
    tally: &mut M,
) -> Result<ValueRepair, NoMemory>
    requires size { base.now.size ≡ field.now.field.ground.size }
    requires far { AreLeastFar field.now base.now.cells changed.now moved.now }
    requires within { All (λ at. at < cells_in field.now.field.ground.size) changed.now }
    requires moved { AreAllPlaces field.now.field.ground.size (differs field.now.was field.now.field.costs) moved.now }
    ensures size { IfOk result (λ r. r.patch.size ≡ field.now.field.ground.size) }
    ensures nearest { IfOk result (λ r. AreNearest field.now.field.ground.size field.now.field.ground.sources field.now.field.ground.friction field.now.field.ground.limit (patched field.now.field.ground.size base.now.cells r.patch.tiles)) }
    ensures exact { IfOk result (λ r. HoldsExactly field.now.field.ground.size base.now.cells r.patch.tiles) }
    ensures moved { IfOk result (λ r. r.moved ≡ alone field.now base.now.cells (patched field.now.field.ground.size base.now.cells r.patch.tiles)) }
    ensures reads { ValuesReadWithin field.now base.now.cells (length changed.now + length moved.now) (M.counts tally.old) (M.counts tally.new) }
{
    let extent = field.extent();
    let _base = base.extent();
    let mut values = Working::new(alloc, extent, Some(base))?;
    let mut queue = Queue::new(alloc);
    let mut seen = PlaceSet::new(alloc, extent)?;
    put_all(field, &mut queue, &mut seen, changed, tally)?;
    put_all(field, &mut queue, &mut seen, moved, tally)?;
    let moved = settle(field, &mut values, &mut queue, &mut seen, tally)?;
    let patch = values.into_patch(tally)?;
    Ok(ValueRepair { patch, moved })
}

/// Values that were right before, put right: `costs` are the changed tiles of the least costs.
pub fn repair_values<M: Tally>(
    alloc: Global,
    old: &Nearest<'_>,
    sources: &Change<'_>,
    friction: &Change<'_>,
    costs: &Patch,
    limit: u64,
    tally: &mut M,
) -> Result<ValueRepair, NoMemory>
    requires size { friction.now.size ≡ sources.now.size }
    requires limit { limit ≤ greatest_value }
    requires right { AreRightBefore sources.now friction.now limit old.now }
    requires patch { costs.now.size ≡ sources.now.size }
    requires exact { HoldsExactly sources.now.size old.now.cost.now.cells costs.now.tiles }
    requires spread { IsSpread sources.now.size sources.now.cells friction.now.cells limit (patched sources.now.size old.now.cost.now.cells costs.now.tiles) }
    ensures size { IfOk result (λ r. r.patch.size ≡ sources.now.size) }
    ensures nearest { IfOk result (λ r. AreNearest sources.now.size sources.now.cells friction.now.cells limit (patched sources.now.size old.now.value.now.cells r.patch.tiles)) }
    ensures exact { IfOk result (λ r. HoldsExactly sources.now.size old.now.value.now.cells r.patch.tiles) }
    ensures moved { IfOk result (λ r. r.moved ≡ alone (view_of sources.now friction.now (patched_change old.now.cost.now costs.now) limit) old.now.value.now.cells (patched sources.now.size old.now.value.now.cells r.patch.tiles)) }
    ensures reads { NearestReadsWithin 9 330 sources.now friction.now limit (Some old.now.value.now.cells) (M.counts tally.old) (M.counts tally.new) }
{
    let _extent = sources.extent();
    let _friction = friction.extent();
    let costs = Change::patched(old.cost, costs);
    let _costs = costs.extent();
    let changed = changed_places_of_both(alloc, sources, friction, tally)?;
    let moved = changed_places(alloc, &costs, tally)?;
    let field = FieldView::new(sources, friction, &costs, limit);
    let values = repaired_values(alloc, old.value, &field, &changed, &moved, tally)?;
    Ok(values)
}
