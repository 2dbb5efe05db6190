//! Flow directions and flow accumulation, first and repaired.
ghost use Rattle.std.specs.Prelude.{◌≡◌, IfOk};
ghost use Rattle.map_defs.specs.Flow.{flow_grid};

use crate::makers::{NULL, hold, layer_of, patch_with, tile_values, values_of};
use drainage_flow::{direction, direction_tile, flow_repair};
use layer_tiles::{Change, Extent, KernelRefusal, Layer, Patch, Value};
use map_outside::Counts;
use std::alloc::Global;
use std::test::Fail;

/// The flow where there was none, and its work.
fn first(alloc: Global, surface: &Layer, weights: &Layer) -> Result<(Layer, u64), KernelRefusal>
    requires { weights.now.size ≡ surface.now.size }
    ensures size { IfOk result (λ r. r.0.size ≡ surface.now.size) }
    ensures right { IfOk result (λ r. r.0.cells ≡ (flow_grid surface.now.size surface.now.cells weights.now.cells).cells) }
{
    let ground = Change::same(surface);
    let brought = Change::same(weights);
    let mut tally = Counts::new();
    let repair = flow_repair(alloc, None, &ground, &brought, &mut tally)?;
    let worked = repair.worked;
    Ok((Layer::fresh(repair.patch, 1), worked))
}

/// The flow after tile 0 of the surface was replaced, and its work.
fn again(
    alloc: Global,
    base: &Layer,
    surface: &Layer,
    patch: &Patch,
    weights: &Layer,
) -> Result<(Vec<Option<Value>>, u64), KernelRefusal>
    requires size { weights.now.size ≡ surface.now.size }
    requires patch { patch.now.size ≡ surface.now.size }
    requires base { base.now.size ≡ surface.now.size }
    requires right { base.now.cells ≡ (flow_grid surface.now.size surface.now.cells weights.now.cells).cells }
{
    let _patch = patch.extent();
    let _surface = surface.extent();
    let ground = Change::patched(surface, patch);
    let brought = Change::same(weights);
    let mut tally = Counts::new();
    let repair = flow_repair(alloc, Some(base), &ground, &brought, &mut tally)?;
    let after = Change::patched(base, &repair.patch);
    let mut values = Vec::new(alloc);
    for at in 0..after.extent().cells() {
        match values.push(after.cell(at, &mut tally).get()) {
            Ok(()) => {}
            Err(_) => return Err(KernelRefusal::NoMemory),
        }
    }
    Ok((values, repair.worked))
}

/// Whether the directions of tile 0 of a surface are these.
fn drains(
    alloc: Global,
    extent: Extent,
    surface: &[Value],
    wanted: &[Value],
) -> Result<bool, Fail> {
    let surface = layer_of(alloc, extent, surface)?;
    if surface.extent().tiles() == 0 {
        return Ok(false);
    }
    let made = direction_tile(alloc, &Change::same(&surface), 0, &mut Counts::new())?;
    Ok(hold(&tile_values(alloc, &made)?, wanted))
}

/// The direction of a cell of three rows and columns, by itself; none for any other layer and past its end.
fn direction_in_square(surface: &Layer, at: u32) -> Option<u8> {
    let extent = surface.extent();
    if extent.columns() != 3 || extent.cells() != 9 || at >= 9 {
        return None;
    }
    let tile = extent.tile_of(at);
    if tile >= extent.tiles() {
        return None;
    }
    let window = surface.window(tile, 64, &mut Counts::new());
    direction(&window, extent, at)
}

/// Whether the flow where there was none is this, with this work.
fn begins(
    alloc: Global,
    extent: Extent,
    surface: &[Value],
    weights: &[Value],
    wanted: &[Value],
    work: u64,
) -> Result<bool, Fail> {
    let surface = layer_of(alloc, extent, surface)?;
    let weights = layer_of(alloc, extent, weights)?;
    match first(alloc, &surface, &weights) {
        Ok((flow, worked)) => Ok(worked == work && hold(&values_of(alloc, &flow)?, wanted)),
        Err(_) => Ok(false),
    }
}

/// Whether the flow is this, with this work, after this patch of the surface.
fn repairs_to(
    alloc: Global,
    surface: &Layer,
    weights: &Layer,
    patch: &Patch,
    wanted: &[Value],
    work: u64,
) -> bool
    requires weights { weights.now.size ≡ surface.now.size }
    requires patch { patch.now.size ≡ surface.now.size }
{
    let Ok((base, _)) = first(alloc, surface, weights) else {
        return false;
    };
    match again(alloc, &base, surface, patch, weights) {
        Ok((values, worked)) => worked == work && hold(&values, wanted),
        Err(_) => false,
    }
}

/// Whether the flow is this, with this work, after tile 0 of the surface became that of another.
fn becomes(
    alloc: Global,
    extent: Extent,
    surface: &[Value],
    other: &[Value],
    weights: &[Value],
    wanted: &[Value],
    work: u64,
) -> Result<bool, Fail> {
    let surface = layer_of(alloc, extent, surface)?;
    let weights = layer_of(alloc, extent, weights)?;
    let patch = patch_with(alloc, extent, other)?;
    Ok(repairs_to(alloc, &surface, &weights, &patch, wanted, work))
}

/// The cell where the flow is first out of range.
fn out_of_range(
    alloc: Global,
    extent: Extent,
    surface: &[Value],
    weights: &[Value],
) -> Result<Option<u32>, Fail> {
    let surface = layer_of(alloc, extent, surface)?;
    let weights = layer_of(alloc, extent, weights)?;
    match first(alloc, &surface, &weights) {
        Err(KernelRefusal::Overflow(at)) => Ok(Some(at)),
        _ => Ok(None),
    }
}

/// A valley that opens to the north, and the same with its middle filled.
const VALLEY: [Value; 9] = [9, 4, 9, 9, 5, 4, 9, 9, 9];

const FILLED: [Value; 9] = [9, 4, 9, 9, 9, 4, 9, 9, 9];

#[test]
fn directions(rt: HostRuntime) -> Result<(), Fail> {
    let square = Extent::new(3, 3).ok_or("limits")?;
    assert!(rt; drains(rt.alloc(), square, &VALLEY, &[3, 0, 5, 3, 1, 0, 2, 1, 1])?);
    assert!(rt; drains(rt.alloc(), square, &FILLED, &[3, 0, 5, 2, 1, 0, 0, 2, 1])?);
    Ok(())
}

#[test]
fn directions_of_single_cells(rt: HostRuntime) -> Result<(), Fail> {
    let square = Extent::new(3, 3).ok_or("limits")?;
    let surface = layer_of(rt.alloc(), square, &[9, 4, 9, 9, 5, 4, 9, 9, NULL])?;
    for (at, want) in [
        (0, Some(3)),
        (1, Some(0)),
        (2, Some(5)),
        (4, Some(1)),
        (8, None),
    ] {
        assert_eq!(rt; direction_in_square(&surface, at), want, "{at}");
    }
    Ok(())
}

#[test]
fn a_valley_and_its_middle_filled(rt: HostRuntime) -> Result<(), Fail> {
    let square = Extent::new(3, 3).ok_or("limits")?;
    let ones = [1; 9];
    let open = [1, 6, 1, 1, 4, 3, 1, 1, 1];
    let full = [1, 4, 1, 1, 1, 4, 1, 1, 1];
    assert!(rt; begins(rt.alloc(), square, &VALLEY, &ones, &open, 18)?);
    assert!(rt; becomes(rt.alloc(), square, &VALLEY, &FILLED, &ones, &full, 4)?);
    assert!(rt; becomes(rt.alloc(), square, &FILLED, &VALLEY, &ones, &open, 4)?);
    Ok(())
}

#[test]
fn a_plain_and_one_cell(rt: HostRuntime) -> Result<(), Fail> {
    let square = Extent::new(3, 3).ok_or("limits")?;
    assert!(rt; drains(rt.alloc(), square, &[5; 9], &[0; 9])?);
    assert!(rt; begins(rt.alloc(), square, &[5; 9], &[1; 9], &[1; 9], 18)?);
    let least = Extent::new(1, 1).ok_or("limits")?;
    assert!(rt; drains(rt.alloc(), least, &[7], &[0])?);
    assert!(rt; begins(rt.alloc(), least, &[7], &[1], &[1], 2)?);
    Ok(())
}

#[test]
fn nulls(rt: HostRuntime) -> Result<(), Fail> {
    let row = Extent::new(1, 4).ok_or("limits")?;
    let slope = [4, 3, 2, 1];
    let cut = [4, 3, NULL, 1];
    assert!(rt; begins(rt.alloc(), row, &slope, &[1, NULL, 1, 1], &[1, 1, 2, 3], 8)?);
    assert!(rt; begins(rt.alloc(), row, &cut, &[1; 4], &[1, 2, NULL, 1], 7)?);
    assert!(rt; becomes(rt.alloc(), row, &slope, &cut, &[1; 4], &[1, 2, NULL, 1], 3)?);
    assert!(rt; becomes(rt.alloc(), row, &cut, &slope, &[1; 4], &[1, 2, 3, 4], 3)?);
    Ok(())
}

#[test]
fn flows_out_of_range(rt: HostRuntime) -> Result<(), Fail> {
    let row = Extent::new(1, 3).ok_or("limits")?;
    let most = [1_000_000_000_000_000, 0, 1];
    assert!(rt; out_of_range(rt.alloc(), row, &[3, 2, 1], &most)? == Some(2));
    assert!(rt; out_of_range(rt.alloc(), row, &[3, 2, 2], &most)?.is_none());
    Ok(())
}
