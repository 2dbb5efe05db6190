//! The costs and values of a map that had none.
ghost use Rattle.std.specs.Prelude.{◌≡◌, ◌≤◌, ◌≤ℤ◌, ◌*◌, pos, nat_abs, [], IfOk};
ghost use Rattle.map_nums.specs.Numbers.{greatest_value};
ghost use Rattle.map_defs.specs.Spread.{IsSpread};
ghost use Rattle.map_defs.specs.Nearest.{AreNearest};
ghost use Rattle.map_defs.specs.Work.{first_work};
ghost use Rattle.layer_tiles.specs.Patches.{patched, HoldsAll};
ghost use Rattle.layer_tiles.specs.Tallies.{RisesBy};
ghost use Rattle.layer_tiles.specs.Tiles.{tiles_in};

use crate::bands::nearest_of_band;
use crate::joins::nearest_of_bands;
use crate::repair::NearestRepair;
use flat_cells::cells_of;
use layer_tiles::{Change, NoMemory, Tally, Value};
use std::alloc::Global;

/// The costs and values of a map that had none. A look at each tile of both operands.
pub fn first_nearest<M: Tally>(
    alloc: Global,
    sources: &Change<'_>,
    friction: &Change<'_>,
    limit: Value,
    tally: &mut M,
) -> Result<NearestRepair, NoMemory>
    requires size { friction.now.size ≡ sources.now.size }
    requires limit { (pos 0 ≤ℤ limit) × (limit ≤ℤ pos greatest_value) }
    ensures sizes { IfOk result (λ r. (r.cost.size ≡ sources.now.size) × (r.value.size ≡ sources.now.size)) }
    ensures cost { IfOk result (λ r. IsSpread sources.now.size sources.now.cells friction.now.cells (nat_abs limit) (patched sources.now.size [] r.cost.tiles)) }
    ensures value { IfOk result (λ r. AreNearest sources.now.size sources.now.cells friction.now.cells (nat_abs limit) (patched sources.now.size [] r.value.tiles)) }
    ensures all { IfOk result (λ r. HoldsAll r.cost × HoldsAll r.value) }
    ensures worked { IfOk result (λ r. r.worked ≡ first_work sources.now.size (patched sources.now.size [] r.value.tiles)) }
    ensures looks { RisesBy (2 * tiles_in sources.now.size) 0 (M.counts tally.old) (M.counts tally.new) }
{
    let extent = sources.extent();
    let _friction = friction.extent();
    let begins = cells_of(alloc, sources, tally)?;
    let frictions = cells_of(alloc, friction, tally)?;
    let rows = extent.rows();
    let band = nearest_of_band(alloc, extent, &begins, &frictions, limit, 0, rows)?;
    let mut bands = Vec::new(alloc);
    bands.push(band)?;
    let list = nearest_of_bands(alloc, extent, &begins, &frictions, limit, bands)?;
    Ok(NearestRepair {
        cost: list.costs(alloc, extent)?,
        value: list.values(alloc, extent)?,
        worked: list.worked(),
    })
}
