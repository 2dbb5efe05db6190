//! The places at which one of two operands changed.
ghost use Rattle.std.specs.Prelude.{◌≡◌, ◌<◌, ◌+◌, ◌*◌, length, filter, IfOk, OnOk, IsSome};
ghost use Rattle.map_nums.specs.Grids.{cells_in, places};
ghost use Rattle.map_defs.specs.Differences.{differs};
ghost use Rattle.layer_tiles.specs.Tallies.{RisesBy};
ghost use Rattle.layer_tiles.specs.Changes.{cells_before};
ghost use Rattle.changed_cells.specs.Unions.{AreAllPlaces, IsAddedUnless, both_changed};

use crate::changes::changed_places;
use layer_tiles::{Change, NoMemory, Tally};
use std::alloc::Global;

/// The places at which one of two operands changed, each once. Two looks for each touched tile of each, and at most two
/// picks for each place.
pub fn changed_places_of_both<M: Tally>(
    alloc: Global,
    one: &Change<'_>,
    other: &Change<'_>,
    tally: &mut M,
) -> Result<Vec<u32>, NoMemory>
    requires size { other.now.size ≡ one.now.size }
    requires one_there { IsSome one.now.before }
    requires other_there { IsSome other.now.before }
    ensures places { IfOk result (λ found. AreAllPlaces one.now.size (both_changed one.now other.now) found.items) }
    ensures looks { RisesBy (2 * length one.now.touched + 2 * length other.now.touched) (2 * length (filter (both_changed one.now other.now) (places one.now.size))) (M.counts tally.old) (M.counts tally.new) }
{
    let _kept = one.extent();
    let mut found = changed_places(alloc, one, tally)?;
    let more = changed_places(alloc, other, tally)?;
    for at in &more {
        add_unless(one, *at, &mut found, tally)?;
    }
    Ok(found)
}

/// Adds a place unless the operand changed there. Two picks.
fn add_unless<M: Tally>(
    of: &Change<'_>,
    at: u32,
    found: &mut Vec<u32>,
    tally: &mut M,
) -> Result<(), NoMemory>
    requires there { IsSome of.now.before }
    requires within { at < cells_in of.now.size }
    ensures added { OnOk result (IsAddedUnless (differs (cells_before of.now) of.now.cells at) at found.old.items found.new.items) }
    ensures picks { RisesBy 0 2 (M.counts tally.old) (M.counts tally.new) }
{
    if !of.cell_before(at, tally).same(&of.cell(at, tally)) {
        return Ok(());
    }
    found.push(at)?;
    Ok(())
}
