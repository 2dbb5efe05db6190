//! Layers that were not there, which workers make of parts.
ghost use Rattle.std.specs.Prelude.{◌≡◌, ◌*◌, ◌<◌, ◌≤◌, ℕ, List, length, Some, slice_get, IfOk, IfSome, IfNone};
ghost use Rattle.map_nums.specs.Numbers.{greatest_value};
ghost use Rattle.map_nums.specs.Tiles.{tiles_in};
ghost use Rattle.map_defs.specs.Ops.{Op as Operation};
ghost use Rattle.layer_tiles.specs.Changes.{ChangeState};
ghost use Rattle.layer_tiles.specs.Tallies.{RisesBy};
ghost use Rattle.statement_parser.specs.Views.{op_view};
ghost use Rattle.map_waves.specs.declared.keeping.Aside.TheVariants.{Other};
ghost use Rattle.op_jobs.specs.Grounds.{laying, AreZones, ArePathCells, AreFlowCells, IsGround, IsGroundOf, IsGroundPart};
ghost use Rattle.op_jobs.specs.Lists.{IsFreshMade};
ghost use Rattle.op_jobs.specs.Operands.{AreBoth, AreOperandsOf};
ghost use Rattle.op_jobs.specs.Ranges.{HasRanges};
ghost use Rattle.op_jobs.specs.declared.ground.Part.{Part};

use crate::beside::Beside;
use crate::classes::limit_of;
use crate::flow_bands::flow_by;
use crate::ground::{FlowCells, Ground, Part, PathCells};
use crate::label_bands::labels_by;
use crate::lists::{FreshLayer, LayerList};
use crate::nearest_bands::nearest_by;
use crate::operands::{both_of, only_of};
use crate::spread_bands::spread_by;
use flat_cells::cells_of;
use layer_tiles::{Extent, Operands, Tally};
use map_nums::NoMemory;
use map_waves::Aside;
use statement_parser::Op;
use std::alloc::Global;

/// All cells of sources and frictions. Two looks at each tile of the map.
fn path_cells<M: Tally>(
    alloc: Global,
    operands: &Operands<'_>,
    limit: u64,
    extent: Extent,
    tally: &mut M,
) -> Result<PathCells, NoMemory>
    requires both { AreBoth extent operands.now }
    requires limit { limit ≤ greatest_value }
    ensures cells { IfOk result (ArePathCells extent operands.now limit) }
    ensures looks { RisesBy (2 * tiles_in extent) 0 (M.counts tally.old) (M.counts tally.new) }
{
    let (first, second) = both_of(operands);
    let _first = first.extent();
    let _second = second.extent();
    let sources = cells_of(alloc, first, tally)?;
    let friction = cells_of(alloc, second, tally)?;
    Ok(PathCells {
        sources,
        friction,
        limit,
    })
}

/// All cells of a surface and its weights. Two looks at each tile of the map.
fn flow_cells<M: Tally>(
    alloc: Global,
    operands: &Operands<'_>,
    extent: Extent,
    tally: &mut M,
) -> Result<FlowCells, NoMemory>
    requires both { AreBoth extent operands.now }
    ensures cells { IfOk result (AreFlowCells extent operands.now) }
    ensures looks { RisesBy (2 * tiles_in extent) 0 (M.counts tally.old) (M.counts tally.new) }
{
    let (first, second) = both_of(operands);
    let _first = first.extent();
    let _second = second.extent();
    let surface = cells_of(alloc, first, tally)?;
    let weights = cells_of(alloc, second, tally)?;
    Ok(FlowCells { surface, weights })
}

/// What parts of the layer of an operation are found from; none of one whose layer is made tile by tile from the operands.
pub(crate) fn ground_by<M: Tally>(
    alloc: Global,
    op: &Op,
    operands: &Operands<'_>,
    extent: Extent,
    tally: &mut M,
) -> Result<Option<Ground>, NoMemory>
    requires operands_are { AreOperandsOf extent (op_view op.now) operands.now }
    ensures ground { IfOk result (λ found. IfSome found (λ q. IsGroundOf (op_view op.now) q × IsGround extent operands.now q)) }
    ensures looks { RisesBy (laying extent (op_view op.now)) 0 (M.counts tally.old) (M.counts tally.new) }
{
    let ground = match op {
        Op::Zonal { .. } => Ground::Zones,
        Op::Region { .. } => {
            let only = only_of(operands);
            let _only = only.extent();
            Ground::Regions(cells_of(alloc, only, tally)?)
        }
        Op::Flow { .. } => Ground::Flow(flow_cells(alloc, operands, extent, tally)?),
        Op::Spread { limit, .. } => {
            let limit = limit_of(*limit);
            Ground::Costs(path_cells(alloc, operands, limit, extent, tally)?)
        }
        Op::Neighbor { limit, .. } => {
            let limit = limit_of(*limit);
            Ground::Nearest(path_cells(alloc, operands, limit, extent, tally)?)
        }
        _ => return Ok(None),
    };
    Ok(Some(ground))
}

/// A layer that was not there, beside which nothing stands.
fn alone(list: LayerList, worked: u64) -> FreshLayer
    ensures { result ≡ record { list = list; beside = Other Beside.Nothing; worked = worked } }
{
    FreshLayer {
        list,
        beside: Aside::Other(Beside::Nothing),
        worked,
    }
}

/// A layer that was not there, place by place, from what was found of its parts; none of zones, whose parts make a book.
pub(crate) fn make_fresh(
    alloc: Global,
    extent: Extent,
    from: Ground,
    parts: Vec<Part>,
) -> Result<Option<FreshLayer>, NoMemory>
    requires from { (operands : List ChangeState) × IsGround extent operands from }
    requires some { 0 < length parts.items }
    requires each { (k : ℕ) (p : Part) → slice_get parts.items k ≡ Some p → IsGroundPart extent from (length parts.items) k p }
    ensures made { (op : Operation) (operands : List ChangeState) → IsGroundOf op from → HasRanges op → IsGround extent operands from → IfOk result (λ made. IfSome made (IsFreshMade extent op operands)) }
    ensures none { IfOk result (λ made. IfNone made (AreZones from)) }
{
    let _tiles = extent.tiles();
    match from {
        Ground::Costs(cells) => {
            let costs = spread_by(alloc, extent, &cells, parts)?;
            let worked = costs.worked;
            Ok(Some(alone(LayerList::Costs(costs), worked)))
        }
        Ground::Nearest(cells) => Ok(Some(nearest_by(alloc, extent, &cells, parts)?)),
        Ground::Flow(cells) => {
            let (list, worked) = flow_by(alloc, extent, cells, parts)?;
            Ok(Some(alone(list, worked)))
        }
        Ground::Regions(cells) => {
            let labels = labels_by(alloc, extent, &cells, parts)?;
            let worked = labels.worked;
            Ok(Some(alone(LayerList::Labels(labels), worked)))
        }
        Ground::Zones => Ok(None),
    }
}
