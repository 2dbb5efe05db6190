//! The flow of a map that had none, from that within bands of rows.
ghost use Rattle.std.specs.Prelude.{◌≡◌, ℕ, suc, ◌-◌, ◌*◌, ◌<◌, ◌≤◌, length, Some, slice_get, IfOk};
ghost use Rattle.map_defs.specs.Flow.{flow_grid};
ghost use Rattle.map_defs.specs.Work.{first_work};
ghost use Rattle.drainage_flow.specs.FlowBands.{IsFlowBand};
ghost use Rattle.drainage_flow.specs.declared.flow_band.FlowBand.{FlowBand};
ghost use Rattle.op_jobs.specs.Grounds.{FillFlow, IsFlows};
ghost use Rattle.op_jobs.specs.Lists.{IsList, list_cells};
ghost use Rattle.op_jobs.specs.Parts.{part_start};
ghost use Rattle.op_jobs.specs.declared.ground.Part.{Part};

use crate::ground::{FlowCells, Part};
use crate::kinds::all_of;
use crate::lists::{FlowList, LayerList};
use crate::parts::part_start;
use drainage_flow::{FlowBand, first_flow_work, flow_of_band, pour};
use layer_tiles::Extent;
use map_nums::NoMemory;
use std::alloc::Global;

/// The flow within one of so many bands.
pub(crate) fn find_flows(
    alloc: Global,
    extent: Extent,
    ground: &FlowCells,
    count: u64,
    k: u64,
) -> Result<FlowBand, NoMemory>
    requires cells { FillFlow extent ground.now }
    requires few { count ≤ extent.rows }
    requires below { k < count }
    ensures { IfOk result (IsFlowBand extent ground.now.surface.items ground.now.weights.items (part_start extent.rows count k * extent.columns) ((part_start extent.rows count (suc k) - part_start extent.rows count k) * extent.columns)) }
{
    let rows = extent.rows();
    let parts = count as u32;
    let first = part_start(rows, parts, k);
    let end = part_start(rows, parts, k + 1);
    flow_of_band(alloc, extent, &ground.surface, &ground.weights, first, end)
}

/// The flow of a map that had none, from that of its bands, and the units of work.
pub(crate) fn flow_by(
    alloc: Global,
    extent: Extent,
    ground: FlowCells,
    parts: Vec<Part>,
) -> Result<(LayerList, u64), NoMemory>
    requires cells { FillFlow extent ground }
    requires some { 0 < length parts.items }
    requires each { (k : ℕ) (p : Part) → slice_get parts.items k ≡ Some p → IsFlows extent ground.surface.items ground.weights.items (length parts.items) k p }
    ensures list { IfOk result (λ r. IsList extent r.0) }
    ensures cells { IfOk result (λ r. list_cells extent r.0 ≡ (flow_grid extent ground.surface.items ground.weights.items).cells) }
    ensures work { IfOk result (λ r. r.1 ≡ first_work extent (flow_grid extent ground.surface.items ground.weights.items).cells) }
{
    let mut bands = all_of::<FlowBand>(alloc, parts)?;
    pour(extent, &ground.surface, &ground.weights, &mut bands);
    let worked = first_flow_work(extent, &ground.surface);
    let list = FlowList {
        surface: ground.surface,
        bands,
    };
    Ok((LayerList::Flow(list), worked))
}
