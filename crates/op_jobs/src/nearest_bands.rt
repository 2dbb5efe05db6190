//! Nearest sources of a map that had none, and the least costs beside them, in bands of rows.
ghost use Rattle.std.specs.Prelude.{◌≡◌, ℕ, suc, ◌<◌, ◌≤◌, length, Some, slice_get, IfOk};
ghost use Rattle.friction_neighbor.specs.Bands.{IsNearestBand};
ghost use Rattle.friction_neighbor.specs.declared.bands.NearestBand.{NearestBand};
ghost use Rattle.op_jobs.specs.Grounds.{FillPaths, path_ground, IsNearest};
ghost use Rattle.op_jobs.specs.Nearest.{IsNearestFresh};
ghost use Rattle.op_jobs.specs.Parts.{part_start};
ghost use Rattle.op_jobs.specs.declared.ground.Part.{Part};
ghost use Rattle.op_jobs.specs.declared.ground.Part.TheVariants.{Nearest};

use crate::ground::{Part, PathCells};
use crate::kinds::all_of;
use crate::lists::{FreshLayer, LayerList};
use crate::parts::part_start;
use crate::whole_nearest::NO_STAMP;
use friction_neighbor::{NearestBand, nearest_of_band, nearest_of_bands};
use layer_tiles::{Extent, Layer, Value};
use map_nums::NoMemory;
use map_waves::Aside;
use std::alloc::Global;

/// The nearest sources within one of so many bands.
pub(crate) fn find_nearest(
    alloc: Global,
    extent: Extent,
    ground: &PathCells,
    count: u64,
    k: u64,
) -> Result<NearestBand, NoMemory>
    requires cells { FillPaths extent ground.now }
    requires few { count ≤ extent.rows }
    requires below { k < count }
    ensures { IfOk result (IsNearestBand (path_ground extent ground.now) (part_start extent.rows count k) (part_start extent.rows count (suc k))) }
{
    let rows = extent.rows();
    let parts = count as u32;
    let first = part_start(rows, parts, k);
    let end = part_start(rows, parts, k + 1);
    let most = ground.limit as Value;
    nearest_of_band(
        alloc,
        extent,
        &ground.sources,
        &ground.friction,
        most,
        first,
        end,
    )
}

/// The nearest sources of a map that had none, from those of its bands, and the layer of the least costs.
pub(crate) fn nearest_by(
    alloc: Global,
    extent: Extent,
    ground: &PathCells,
    parts: Vec<Part>,
) -> Result<FreshLayer, NoMemory>
    requires cells { FillPaths extent ground.now }
    requires some { 0 < length parts.items }
    requires each { (k : ℕ) (p : Part) → slice_get parts.items k ≡ Some p → IsNearest (path_ground extent ground.now) (length parts.items) k p }
    ensures { IfOk result (IsNearestFresh (path_ground extent ground.now)) }
{
    let most = ground.limit as Value;
    let bands = all_of::<NearestBand>(alloc, parts)?;
    let list = nearest_of_bands(
        alloc,
        extent,
        &ground.sources,
        &ground.friction,
        most,
        bands,
    )?;
    let costs = list.costs(alloc, extent)?;
    let worked = list.worked();
    Ok(FreshLayer {
        list: LayerList::Nearest(list),
        beside: Aside::Layer(Layer::fresh(costs, NO_STAMP)),
        worked,
    })
}
