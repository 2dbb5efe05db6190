//! The flow within bands of rows, and that of the map from it.
//!
//! The flow of a band is as far as it comes from its own rows. So the bands, one after another, are places of which some have passed
//! on what they have, and those that drain to another band's rows are ready to.
ghost use Rattle.std.specs.Prelude.{◌≡◌, ℕ, pos, ◌+◌, ◌-◌, ◌*◌, ◌<◌, ◌≤◌, ◌∷◌, [], length, None, IfOk};
ghost use Rattle.map_nums.specs.Grids.{cells_in};
ghost use Rattle.map_defs.specs.Flow.{flow_grid};
ghost use Rattle.drainage_flow.specs.Nets.{Net, inflow};
ghost use Rattle.drainage_flow.specs.FlowNets.{net_of};
ghost use Rattle.drainage_flow.specs.Pouring.{wait_in, Places, ArePools};
ghost use Rattle.drainage_flow.specs.Bands.{AreDowns};
ghost use Rattle.drainage_flow.specs.First.{AreFlows};
ghost use Rattle.drainage_flow.specs.FlowBands.{IsFlowBand, AreFlowBands, AreEven, all_flows, counts_of};
ghost use Rattle.drainage_flow.specs.Whole.{flow_cells};

use crate::bands::downs_between;
use crate::first::brought_by;
use crate::flow_band::FlowBand;
use crate::pouring::{add_waits, run_all};
use layer_tiles::{Cell, Extent};
use map_nums::NoMemory;
use std::alloc::Global;

/// The rows `first` to before `end` of a map, whose surface and weights are given whole, as a band for [`pour`]. Within it places have
/// passed on what they have; how far, is free.
///
/// # Errors
///
/// `NoMemory` alone.
pub fn flow_of_band(
    alloc: Global,
    extent: Extent,
    surface: &[Cell],
    weights: &[Cell],
    first: u32,
    end: u32,
) -> Result<FlowBand, NoMemory>
    requires surface { length surface.now ≡ cells_in extent }
    requires weights { length weights.now ≡ cells_in extent }
    requires rows { first ≤ end }
    requires within { end ≤ extent.rows }
    ensures { IfOk result (IsFlowBand extent surface.now weights.now (first * extent.columns) ((end - first) * extent.columns)) }
{
    let columns = extent.columns();
    let (start, past) = (first * columns, end * columns);
    let here = &surface[start as usize..past as usize];
    let loads = &weights[start as usize..past as usize];
    let flows = brought_by(alloc, here, loads)?;
    let downs = downs_between(alloc, extent, surface, first, end)?;
    let waits = waits_of(alloc, extent, surface, first, end, &downs)?;
    let band = FlowBand {
        downs,
        waits,
        flows,
    };
    poured(alloc, band, start)
}

/// How many places drain to each place of some rows, of which `downs` tells where they drain to: they lie in these rows and in those
/// beside them.
fn waits_of(
    alloc: Global,
    extent: Extent,
    surface: &[Cell],
    first: u32,
    end: u32,
    downs: &[Option<u32>],
) -> Result<Vec<u32>, NoMemory>
    requires surface { length surface.now ≡ cells_in extent }
    requires rows { first ≤ end }
    requires within { end ≤ extent.rows }
    requires downs { AreDowns extent surface.now (first * extent.columns) ((end - first) * extent.columns) downs.now }
    ensures count { IfOk result (λ waits. length waits.items ≡ length downs.now) }
    ensures waits { IfOk result (λ waits. (k : ℕ) → k < length downs.now → pos (wait_in waits.items k) ≡ inflow (net_of extent surface.now surface.now) (λ d. pos 1) (first * extent.columns + k)) }
{
    let start = first * extent.columns();
    let last = extent.rows().min(end + 1);
    let above = downs_between(alloc, extent, surface, first.saturating_sub(1), first)?;
    let below = downs_between(alloc, extent, surface, end, last)?;
    let mut waits = no_waits(alloc, downs.len())?;
    add_waits(&mut waits, start, &above);
    add_waits(&mut waits, start, downs);
    add_waits(&mut waits, start, &below);
    Ok(waits)
}

/// No place waits yet.
fn no_waits(alloc: Global, count: usize) -> Result<Vec<u32>, NoMemory>
    ensures count { IfOk result (λ waits. length waits.items ≡ count) }
    ensures none { IfOk result (λ waits. (k : ℕ) → k < length waits.items → wait_in waits.items k ≡ 0) }
{
    Ok(vec![in alloc; 0; count]?)
}

/// A band whose places have passed on what they have, as far as it goes within these rows. It begins at place `first` of the map.
fn poured(alloc: Global, band: FlowBand, first: u32) -> Result<FlowBand, NoMemory>
    requires even { AreEven (band ∷ []) }
    requires few { length band.downs.items < 4294967296 }
    requires pools { (g : Net) × (r : Places) × (n : ℕ) × ArePools g r first n 0 None band.downs.items band.waits.items band.flows.items }
    ensures { IfOk result (λ b. (g : Net) (r : Places) (n : ℕ) → ArePools g r first n 0 None band.downs.items band.waits.items band.flows.items → ArePools g r first n (length band.downs.items) None b.downs.items b.waits.items b.flows.items) }
{
    let count = band.count();
    let mut bands = Vec::with_capacity(alloc, 1)?;
    bands.push(band)?;
    run_all(&mut bands, first, count);
    let Some(band) = bands.pop() else {
        unreachable!()
    };
    Ok(band)
}

/// The flow of a map, from that of its bands, one after another, which have it from then on.
pub fn pour(extent: Extent, _surface: &[Cell], _weights: &[Cell], bands: &mut [FlowBand])
    requires bands { AreFlowBands extent _surface.now _weights.now 0 (cells_in extent) bands.old }
    ensures even { AreEven bands.new }
    ensures counts { counts_of bands.new ≡ counts_of bands.old }
    ensures flows { AreFlows extent _surface.now _weights.now (all_flows bands.new) }
    ensures cells { flow_cells extent _surface.now bands.new ≡ (flow_grid extent _surface.now _weights.now).cells }
{
    run_all(bands, 0, extent.cells() as usize);
}
