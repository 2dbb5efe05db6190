//! Flow accumulation, evaluated at first and repaired after edits.
ghost use Rattle.std.specs.Prelude.{◌≡◌, ◌⊎◌, ◌<◌, ◌≤◌, ◌+◌, ◌*◌, ℕ, ℤ, length, filter, Some, None, IfOk, IfErr, IsSome, IsTrue};
ghost use Rattle.std.specs.List.{All, Contains};
ghost use Rattle.std.specs.Option.{option_copied};
ghost use Rattle.map_nums.specs.Grids.{Cells, cells_in, cell_at, grid_by};
ghost use Rattle.map_nums.specs.Numbers.{is_value};
ghost use Rattle.map_defs.specs.Flow.{flow_grid};
ghost use Rattle.map_defs.specs.Ops.{Term};
ghost use Rattle.map_defs.specs.Work.{first_work};
ghost use Rattle.layer_tiles.specs.Tiles.{tiles_in};
ghost use Rattle.layer_tiles.specs.Changes.{ChangeState};
ghost use Rattle.layer_tiles.specs.Tallies.{RisesBy};
ghost use Rattle.layer_tiles.specs.ChangeFacts.{HoldsNoUnchanged};
ghost use Rattle.tile_work.specs.Working.{before_of, IsPatchTo};
ghost use Rattle.drainage_flow.specs.First.{AreFlows};
ghost use Rattle.drainage_flow.specs.FlowBands.{AreEven, all_flows};
ghost use Rattle.drainage_flow.specs.Operands.{HasCells};
ghost use Rattle.drainage_flow.specs.Mending.{now_at};
ghost use Rattle.drainage_flow.specs.Settling.{number_at};
ghost use Rattle.drainage_flow.specs.Showing.{shown_at, changes, changed_count, ArePlaced};
ghost use Rattle.drainage_flow.specs.Repairs.{flow_damage, flow_work, IsFlowBefore, IsFlowRepair, IsFlowRefusal};

use crate::flow_band::FlowBand;
use crate::pools::{flow_of_band, pour};
use crate::ranges::overflow;
use crate::repair::mend;
use crate::showing::{show_flows, show_grounds};
use crate::whole::{count_some, first_wide, whole_patch};
use changed_cells::changed_places_of_both;
use flat_cells::cells_of;
use layer_tiles::{Cell, Change, Extent, KernelRefusal, Layer, Patch, Tally};
use map_nums::NoMemory;
use std::alloc::Global;
use tile_work::Working;

/// A patch, and the work that it took.
#[derive(Drop)]
pub struct Repair {
    pub patch: Patch,
    pub worked: u64,
}

/// The flow of a surface and its weights after an edit, from the flow before it, or from nothing. Where the operands'
/// patches hold no unchanged tile, at most 32 looks for each damaged tile and 1000 picks for each unit of work.
///
/// # Errors
///
/// `Overflow` at the least cell whose flow is out of range, exactly where there is one; `NoMemory`.
pub fn flow_repair<M: Tally>(
    alloc: Global,
    base: Option<&Layer>,
    surface: &Change<'_>,
    weights: &Change<'_>,
    tally: &mut M,
) -> Result<Repair, KernelRefusal>
    requires size { weights.now.size ≡ surface.now.size }
    requires before { IsFlowBefore surface.now weights.now (option_copied base) }
    ensures repair { IfOk result (λ r. IsFlowRepair surface.now weights.now (before_of (option_copied base.entry)) r.patch r.worked) }
    ensures refusal { IfErr result (IsFlowRefusal surface.now weights.now) }
    ensures tally { (t u : Term) → HoldsNoUnchanged surface.now → HoldsNoUnchanged weights.now → RisesBy (32 * length (flow_damage t u surface.now weights.now (before_of (option_copied base.entry)))) (1000 * flow_work t u surface.now weights.now (before_of (option_copied base.entry))) (M.counts tally.old) (M.counts tally.new) }
{
    match base {
        Some(layer) => flow_from(alloc, layer, surface, weights, tally),
        None => first_flow(alloc, surface, weights, tally),
    }
}

/// The flow of a map that had none. Two looks at each tile.
fn first_flow<M: Tally>(
    alloc: Global,
    surface: &Change<'_>,
    weights: &Change<'_>,
    tally: &mut M,
) -> Result<Repair, KernelRefusal>
    requires { weights.now.size ≡ surface.now.size }
    ensures repair { IfOk result (λ r. IsFlowRepair surface.now weights.now None r.patch r.worked) }
    ensures refusal { IfErr result (IsFlowRefusal surface.now weights.now) }
    ensures tally { RisesBy (2 * tiles_in surface.now.size) 0 (M.counts tally.old) (M.counts tally.new) }
{
    let extent = surface.extent();
    let _weights = weights.extent();
    let Ok(heights) = cells_of(alloc, surface, tally) else {
        return Err(KernelRefusal::NoMemory);
    };
    let Ok(loads) = cells_of(alloc, weights, tally) else {
        return Err(KernelRefusal::NoMemory);
    };
    let Ok(band) = flow_of_band(alloc, extent, &heights, &loads, 0, extent.rows()) else {
        return Err(KernelRefusal::NoMemory);
    };
    let mut bands = [band];
    pour(extent, &heights, &loads, &mut bands);
    whole_flow(alloc, extent, &heights, &loads, &bands)
}

/// The tiles of the flow of a map that had none, which bands have, and the work; or the first cell that is out of range.
fn whole_flow(
    alloc: Global,
    extent: Extent,
    surface: &[Cell],
    _weights: &[Cell],
    bands: &[FlowBand],
) -> Result<Repair, KernelRefusal>
    requires surface { length surface.now ≡ cells_in extent }
    requires even { AreEven bands.now }
    requires flows { AreFlows extent surface.now _weights.now (all_flows bands.now) }
    ensures repair { (s w : ChangeState) → HasCells extent surface.now s → HasCells extent _weights.now w → IfOk result (λ r. IsFlowRepair s w None r.patch r.worked) }
    ensures refusal { (s w : ChangeState) → HasCells extent surface.now s → HasCells extent _weights.now w → IfErr result (IsFlowRefusal s w) }
{
    if let Some(at) = first_wide(bands) {
        return Err(KernelRefusal::Overflow(at));
    }
    match whole_patch(alloc, extent, surface, bands) {
        Ok(patch) => Ok(Repair {
            patch,
            worked: first_flow_work(extent, surface),
        }),
        Err(NoMemory) => Err(KernelRefusal::NoMemory),
    }
}

/// The units of work of the flow over a surface where there was none.
pub fn first_flow_work(extent: Extent, surface: &[Cell]) -> u64
    requires { length surface.now ≡ cells_in extent }
    ensures { (weights : Cells) → result ≡ first_work extent (flow_grid extent surface.now weights).cells }
{
    extent.cells() as u64 + count_some(surface)
}

/// The flow after an edit, from the flow before it.
fn flow_from<M: Tally>(
    alloc: Global,
    base: &Layer,
    surface: &Change<'_>,
    weights: &Change<'_>,
    tally: &mut M,
) -> Result<Repair, KernelRefusal>
    requires size { weights.now.size ≡ surface.now.size }
    requires before { IsFlowBefore surface.now weights.now (Some base.now) }
    ensures repair { IfOk result (λ r. IsFlowRepair surface.now weights.now (Some base.now.cells) r.patch r.worked) }
    ensures refusal { IfErr result (IsFlowRefusal surface.now weights.now) }
    ensures tally { (t u : Term) → HoldsNoUnchanged surface.now → HoldsNoUnchanged weights.now → RisesBy (32 * length (flow_damage t u surface.now weights.now (Some base.now.cells))) (1000 * flow_work t u surface.now weights.now (Some base.now.cells)) (M.counts tally.old) (M.counts tally.new) }
{
    let _base = base.extent();
    let _surface = surface.extent();
    let _weights = weights.extent();
    let Ok(changed) = changed_places_of_both(alloc, surface, weights, tally) else {
        return Err(KernelRefusal::NoMemory);
    };
    let Ok(puts) = mend(alloc, base, surface, weights, &changed, tally) else {
        return Err(KernelRefusal::NoMemory);
    };
    let before = Change::same(base);
    if let Some(at) = overflow(&before, surface, weights, &puts) {
        return Err(KernelRefusal::Overflow(at));
    }
    match write_flow(alloc, base, surface, &changed, &puts, tally) {
        Ok(repair) => Ok(repair),
        Err(NoMemory) => Err(KernelRefusal::NoMemory),
    }
}

/// The patch that gives these places their new numbers, and the work.
fn write_flow<M: Tally>(
    alloc: Global,
    base: &Layer,
    surface: &Change<'_>,
    changed: &[u32],
    puts: &[(u32, i128)],
    tally: &mut M,
) -> Result<Repair, NoMemory>
    requires base_size { base.now.size ≡ surface.now.size }
    requires within { All (λ at. at < cells_in surface.now.size) changed.now }
    requires few { length changed.now ≤ cells_in surface.now.size }
    requires puts_within { All (λ p. p.0 < cells_in surface.now.size) puts.now }
    requires in_range { All (λ p. IsTrue (is_value p.1)) puts.now }
    requires listed { (c : ℕ) → c < cells_in surface.now.size → Contains changed.now c ⊎ (cell_at base.now.cells c ≡ shown_at surface.now.cells (number_at base.now.cells) c) }
    requires placed { (flow : ℕ → ℤ) × ArePlaced surface.now.size base.now.cells puts.now flow }
    ensures size { IfOk result (λ r. r.patch.size ≡ surface.now.size) }
    ensures patch { IfOk result (λ r. IsPatchTo surface.now.size (Some base.now.cells) (grid_by surface.now.size (shown_at surface.now.cells (now_at (number_at base.now.cells) puts.now))).cells r.patch.tiles) }
    ensures worked { IfOk result (λ r. r.worked ≡ length changed.now + changes surface.now.size base.now.cells (grid_by surface.now.size (shown_at surface.now.cells (now_at (number_at base.now.cells) puts.now))).cells) }
    ensures tally { (flow : ℕ → ℤ) → ArePlaced surface.now.size base.now.cells puts.now flow → RisesBy (3 * changed_count surface.now.size surface.now.cells base.now.cells flow) (4 * length changed.now + 3 * length puts.now) (M.counts tally.old) (M.counts tally.new) }
{
    let _base = base.extent();
    let mut flows = Working::new(alloc, surface.extent(), Some(base))?;
    let begun = show_grounds(base, surface, changed, &mut flows, tally)?;
    let shown = show_flows(base, surface, puts, &mut flows, begun, tally)?;
    let patch = flows.into_patch(tally)?;
    Ok(Repair {
        patch,
        worked: changed.len() as u64 + shown,
    })
}
