//! Layers that were not there, place by place, of which tiles are made one by one.
ghost use Rattle.std.specs.Prelude.{◌<◌};
ghost use Rattle.layer_tiles.specs.Answers.{IsTileAnswer};
ghost use Rattle.map_nums.specs.Tiles.{tiles_in};
ghost use Rattle.op_jobs.specs.Lists.{IsList, list_cells};

use crate::beside::Beside;
use drainage_flow::{FlowBand, flow_tile};
use friction_neighbor::NearestList;
use friction_spread::CostList;
use layer_tiles::{Cell, Extent, KernelRefusal, Tile};
use map_waves::Aside;
use region_labels::ProvisionalLabels;
use std::alloc::Global;

/// A layer that was not there, place by place.
#[derive(Drop)]
pub enum LayerList {
    Costs(CostList),
    Nearest(NearestList),
    Flow(FlowList),
    Labels(ProvisionalLabels),
}

/// A surface, and its flow in all bands of rows.
#[derive(Drop)]
pub struct FlowList {
    pub surface: Vec<Cell>,
    pub bands: Vec<FlowBand>,
}

/// A layer that was not there, what is to stand beside it, and the units of work.
#[derive(Drop)]
pub struct FreshLayer {
    pub list: LayerList,
    pub beside: Aside<Beside>,
    pub worked: u64,
}

/// A tile of the layer.
pub(crate) fn list_tile(
    alloc: Global,
    extent: Extent,
    tile: u32,
    list: &LayerList,
) -> Result<Tile, KernelRefusal>
    requires list { IsList extent list.now }
    requires within { tile < tiles_in extent }
    ensures { IsTileAnswer extent (list_cells extent list.now) tile result }
{
    match list {
        LayerList::Costs(costs) => costs.tile(alloc, extent, tile),
        LayerList::Nearest(nearest) => nearest.tile(alloc, extent, tile),
        LayerList::Flow(flow) => flow_tile(alloc, extent, tile, &flow.surface, &flow.bands),
        LayerList::Labels(labels) => labels.tile(alloc, extent, tile),
    }
}
