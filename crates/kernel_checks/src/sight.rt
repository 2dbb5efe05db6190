//! Viewers, and what they see.
ghost use Rattle.std.specs.Prelude.{◌≡◌, ◌<◌, IfOk};
ghost use Rattle.std.specs.List.{All};
ghost use Rattle.map_nums.specs.Grids.{cells_in};
ghost use Rattle.sight_lines.specs.Heights.{AreHeights};

use crate::makers::{NULL, cell, first_row, layer_of};
use layer_tiles::{Change, Extent, Layer, Patch, Tile, Value};
use map_outside::Counts;
use sight_lines::{Sight, SightRefusal, Viewers, sees, sight_tile};
use std::alloc::Global;
use std::process::Abort;
use std::test::Fail;

/// The viewers of a layer.
fn viewers_of(alloc: Global, layer: &Layer) -> Result<Viewers, SightRefusal>
    ensures { IfOk result (λ viewers. All (λ e. e.0 < cells_in layer.now.size) viewers) }
{
    Viewers::of(alloc, None, &Change::same(layer), &mut Counts::new())
}

/// The first tile of the sums of a layer's viewers over a surface.
fn seen(alloc: Global, viewers: &Layer, surface: &Layer) -> Result<Tile, SightRefusal>
    requires { viewers.now.size ≡ surface.now.size }
{
    let viewers = viewers_of(alloc, viewers)?;
    if surface.extent().tiles() == 0 {
        return Err(SightRefusal::NoMemory);
    }
    let sight = Sight {
        from: 0,
        to: 0,
        reach: 64,
    };
    let change = Change::same(surface);
    match sight_tile(alloc, &viewers, &change, sight, 0, &mut Counts::new()) {
        Ok(tile) => Ok(tile),
        Err(_) => Err(SightRefusal::NoMemory),
    }
}

/// Over a surface of one row a viewer of value 1 in its first column gives these sums.
fn sums(
    rt: &(impl AllocGlobal + Abort),
    surface: &[Value],
    want: &[Option<Value>],
) -> Result<(), Fail> {
    let extent = Extent::new(1, 5).ok_or("limits")?;
    let viewers = layer_of(rt.alloc(), extent, &[1, NULL, NULL, NULL, NULL])?;
    let surface = layer_of(rt.alloc(), extent, surface)?;
    match seen(rt.alloc(), &viewers, &surface) {
        Ok(tile) => assert_eq!(rt; first_row(rt.alloc(), &tile)?.as_slice(), want),
        Err(_) => panic!(rt; "no tile"),
    }
    Ok(())
}

#[test]
fn a_ridge_hides_what_is_behind(rt: HostRuntime) -> Result<(), Fail> {
    sums(
        &rt,
        &[0, 1, 2, 0, 0],
        &[Some(1), Some(1), Some(1), None, None],
    )?;
    sums(&rt, &[0, 2, 2, 0, 0], &[Some(1), Some(1), None, None, None])
}

/// Why a row of so many ones gives no viewers.
fn refusal(alloc: Global, columns: u32) -> Result<Option<SightRefusal>, Fail> {
    let extent = Extent::new(1, columns).ok_or("limits")?;
    let layer = Layer::constant(alloc, extent, cell(1), 1)?;
    Ok(viewers_of(alloc, &layer).err())
}

#[test]
fn viewers_end_at_sixty_four(rt: HostRuntime) -> Result<(), Fail> {
    assert_eq!(rt; refusal(rt.alloc(), 64)?, None);
    assert_eq!(rt; refusal(rt.alloc(), 65)?, Some(SightRefusal::Viewers(65)));
    Ok(())
}

/// The viewers of a layer after a patch, from those before it.
fn viewers_after(
    alloc: Global,
    layer: &Layer,
    patch: &Patch,
    tally: &mut Counts,
) -> Result<Viewers, SightRefusal>
    requires { patch.now.size ≡ layer.now.size }
{
    let old = Viewers::of(alloc, None, &Change::same(layer), &mut Counts::new())?;
    Viewers::of(alloc, Some(&old), &Change::patched(layer, patch), tally)
}

/// A patch of the last of two tiles in a row, all of 3.
fn last_tile(alloc: Global, extent: Extent) -> Result<Patch, Fail>
    ensures { IfOk result (λ patch. patch.size ≡ extent) }
{
    if extent.tiles() < 2 {
        return Err(Fail::from("tiles"));
    }
    let mut patch = Patch::new(alloc, extent);
    patch.push(1, Tile::new(alloc, extent, 1, cell(3))?)?;
    Ok(patch)
}

/// A row of two tiles with viewers of 5 and 9 in its first and last column, and of 3 there after a patch of the last tile.
fn repainted(alloc: Global, tally: &mut Counts) -> Result<Viewers, Fail> {
    let extent = Extent::new(1, 33).ok_or("limits")?;
    let mut values = [NULL; 33];
    values[0] = 5;
    values[32] = 9;
    let layer = layer_of(alloc, extent, &values)?;
    let patch = last_tile(alloc, extent)?;
    match viewers_after(alloc, &layer, &patch, tally) {
        Ok(viewers) => Ok(viewers.copy(alloc)?),
        Err(_) => Err(Fail::from("no viewers")),
    }
}

#[test]
fn viewers_after_a_repaint(rt: HostRuntime) -> Result<(), Fail> {
    let mut tally = Counts::new();
    let viewers = repainted(rt.alloc(), &mut tally)?;
    let list = [viewers.get(0), viewers.get(1), viewers.get(2)];
    assert_eq!(rt; list, [Some((0, 5)), Some((32, 3)), None]);
    assert_eq!(rt; (tally.looks(), tally.picks()), (1, 0));
    Ok(())
}

/// Whether a cell of a row of five sees another, raised by these heights; none for any other layer and past its end.
fn sees_in_row(heights: &Layer, viewer: u32, target: u32, from: Value, to: Value) -> Option<bool>
    requires { AreHeights from to }
{
    let extent = heights.extent();
    if extent.columns() != 5 || extent.cells() != 5 || viewer >= 5 || target >= 5 {
        return None;
    }
    let tile = extent.tile_of(viewer);
    if tile >= extent.tiles() {
        return None;
    }
    let window = heights.window(tile, 64, &mut Counts::new());
    Some(sees(&window, extent, viewer, target, from, to))
}

#[test]
fn lines_over_a_ridge(rt: HostRuntime) -> Result<(), Fail> {
    let extent = Extent::new(1, 5).ok_or("limits")?;
    let heights = layer_of(rt.alloc(), extent, &[0, 1, 2, 0, 0])?;
    let seen = [
        sees_in_row(&heights, 0, 2, 0, 0),
        sees_in_row(&heights, 0, 3, 0, 0),
        sees_in_row(&heights, 0, 3, 0, 6),
        sees_in_row(&heights, 0, 3, 5, 0),
        sees_in_row(&heights, 0, 3, 6, 0),
        sees_in_row(&heights, 3, 0, 0, 6),
    ];
    let wanted = [
        Some(true),
        Some(false),
        Some(true),
        Some(false),
        Some(true),
        Some(true),
    ];
    assert_eq!(rt; seen, wanted);
    Ok(())
}
