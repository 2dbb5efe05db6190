//! The least costs of a map that had none, in bands of rows.
ghost use Rattle.std.specs.Prelude.{◌≡◌, ℕ, suc, ◌<◌, ◌≤◌, length, Some, slice_get, IfOk};
ghost use Rattle.friction_spread.specs.Bands.{IsCostBand};
ghost use Rattle.friction_spread.specs.Lists.{IsCostList};
ghost use Rattle.friction_spread.specs.declared.bands.CostBand.{CostBand};
ghost use Rattle.op_jobs.specs.Grounds.{FillPaths, path_ground, IsCosts};
ghost use Rattle.op_jobs.specs.Parts.{part_start};
ghost use Rattle.op_jobs.specs.declared.ground.Part.{Part};

use crate::ground::{Part, PathCells};
use crate::kinds::all_of;
use crate::parts::part_start;
use friction_spread::{CostBand, CostList, costs_of_band, spread_of_bands};
use layer_tiles::{Extent, Value};
use map_nums::NoMemory;
use std::alloc::Global;

/// The least costs within one of so many bands.
pub(crate) fn find_costs(
    alloc: Global,
    extent: Extent,
    ground: &PathCells,
    count: u64,
    k: u64,
) -> Result<CostBand, NoMemory>
    requires cells { FillPaths extent ground.now }
    requires few { count ≤ extent.rows }
    requires below { k < count }
    ensures { IfOk result (IsCostBand (path_ground extent ground.now) (part_start extent.rows count k) (part_start extent.rows count (suc k))) }
{
    let rows = extent.rows();
    let parts = count as u32;
    let first = part_start(rows, parts, k);
    let end = part_start(rows, parts, k + 1);
    let most = ground.limit as Value;
    costs_of_band(
        alloc,
        extent,
        &ground.sources,
        &ground.friction,
        most,
        first,
        end,
    )
}

/// The least costs of a map that had none, from those of its bands.
pub(crate) fn spread_by(
    alloc: Global,
    extent: Extent,
    ground: &PathCells,
    parts: Vec<Part>,
) -> Result<CostList, NoMemory>
    requires cells { FillPaths extent ground.now }
    requires some { 0 < length parts.items }
    requires each { (k : ℕ) (p : Part) → slice_get parts.items k ≡ Some p → IsCosts (path_ground extent ground.now) (length parts.items) k p }
    ensures { IfOk result (IsCostList (path_ground extent ground.now)) }
{
    let most = ground.limit as Value;
    let bands = all_of::<CostBand>(alloc, parts)?;
    spread_of_bands(
        alloc,
        extent,
        &ground.sources,
        &ground.friction,
        most,
        &bands,
    )
}
