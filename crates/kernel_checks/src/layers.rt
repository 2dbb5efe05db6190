//! Small layers read through every loan, and edited.
ghost use Rattle.std.specs.Prelude.{◌≡◌, ◌<◌, IfOk};
ghost use Rattle.layer_tiles.specs.Tiles.{tiles_in};

use crate::makers::{cell, layer_of, numbers, stamps_of, value_at, values_of};
use layer_tiles::{
    Cell, Change, Extent, Layer, NoMemory, Operands, Patch, Text, Tile, TileView, Value,
};
use map_outside::Counts;
use std::alloc::Global;
use std::process::Abort;
use std::test::Fail;

#[test]
fn extents_at_their_limits(rt: HostRuntime) {
    for (rows, columns, fits) in [
        (1, 1, true),
        (4096, 366, true),
        (4096, 367, false),
        (4097, 1, false),
        (1, 4097, false),
        (0, 1, false),
        (1, 0, false),
    ] {
        let is_some = Extent::new(rows, columns).is_some();
        assert_eq!(rt; is_some, fits, "{rows} by {columns}");
    }
}

#[test]
fn cells_at_their_limits(rt: HostRuntime) {
    assert_eq!(rt; Cell::null().get(), None);
    for (value, fits) in [
        (1_000_000_000_000_000, true),
        (-1_000_000_000_000_000, true),
        (1_000_000_000_000_001, false),
        (-1_000_000_000_000_001, false),
        (Value::MIN, false),
    ] {
        assert_eq!(rt; Cell::of(value).is_some(), fits, "{value}");
        assert_eq!(rt; cell(value).get(), fits.then_some(value));
    }
}

#[test]
fn texts(rt: HostRuntime) -> Result<(), Fail> {
    let text = Text::of(rt.alloc(), b"100.5")?;
    assert_eq!(rt; text.bytes(), b"100.5".as_slice());
    Ok(())
}

/// The first cell of a tile.
fn first_of(view: &TileView<'_>) -> Option<Value>
    requires { 0 < view.now.height }
{
    view.row(0).first()?.get()
}

/// A cell of a window; none where its tile is not lent.
fn window_value(change: &Change<'_>, reach: u32, at: u32, tally: &mut Counts) -> Option<Value>
    requires { 0 < tiles_in change.now.size }
{
    if reach > 64 || at >= change.extent().cells() {
        return None;
    }
    change.window(0, reach, tally).cell(at)?.get()
}

#[test]
fn loans(rt: HostRuntime) -> Result<(), Fail> {
    let extent = Extent::new(33, 33).ok_or("limits")?;
    let layer = layer_of(rt.alloc(), extent, &numbers())?;
    let mut tally = Counts::new();
    assert!(rt; 3 < extent.tiles());
    assert_eq!(rt; first_of(&layer.view(3, &mut tally)), Some(1088));
    let same = Change::same(&layer);
    for (reach, at, want) in [(1, 1088, Some(1088)), (0, 31, Some(31)), (0, 32, None)] {
        assert_eq!(rt; window_value(&same, reach, at, &mut tally), want);
    }
    assert_eq!(rt; value_at(&layer, 40, &mut tally), Some(40));
    assert_eq!(rt; (tally.looks(), tally.picks()), (7, 1));
    Ok(())
}

/// A patch of two tiles that are each of one value.
pub(crate) fn patch_of(
    alloc: Global,
    extent: Extent,
    low: u32,
    one: Value,
    high: u32,
    other: Value,
) -> Result<Patch, NoMemory>
    requires ascending { low < high }
    requires within { high < tiles_in extent }
    ensures { IfOk result (λ patch. patch.size ≡ extent) }
{
    let mut patch = Patch::new(alloc, extent);
    patch.push(low, Tile::new(alloc, extent, low, cell(one))?)?;
    patch.push(high, Tile::new(alloc, extent, high, cell(other))?)?;
    Ok(patch)
}

/// A change of tiles 1 and 3 shows what was and what is.
fn shows_both(rt: &impl Abort, layer: &Layer, patch: &Patch)
    requires { patch.now.size ≡ layer.now.size }
{
    let extent = layer.extent();
    assert!(rt; 3 < extent.tiles());
    assert!(rt; 1088 < extent.cells());
    let change = Change::patched(layer, patch);
    let here = [
        patch.has(0),
        patch.has(1),
        patch.has(3),
        change.touched(0),
        change.touched(1),
    ];
    assert_eq!(rt; here, [false, true, true, false, true]);
    let mut tally = Counts::new();
    let seen = [
        change.cell(1088, &mut tally).get(),
        change.cell_before(1088, &mut tally).get(),
        first_of(&change.view(3, &mut tally)),
        first_of(&change.view_before(3, &mut tally)),
        window_value(&change, 1, 1088, &mut tally),
    ];
    assert_eq!(rt; seen, [Some(7), Some(5), Some(7), Some(5), Some(7)]);
    assert_eq!(rt; (tally.looks(), tally.picks()), (6, 2));
}

#[test]
fn a_change_shows_both_states(rt: HostRuntime) -> Result<(), Fail> {
    let extent = Extent::new(33, 33).ok_or("limits")?;
    assert!(rt; 3 < extent.tiles());
    let layer = Layer::constant(rt.alloc(), extent, cell(5), 1)?;
    let patch = patch_of(rt.alloc(), extent, 1, 5, 3, 7)?;
    shows_both(&rt, &layer, &patch);
    Ok(())
}

/// The tiles of a layer have these stamps.
fn has_stamps(rt: &(impl AllocGlobal + Abort), layer: &Layer, want: &[u64]) -> Result<(), Fail> {
    let stamps = stamps_of(rt.alloc(), layer)?;
    assert_eq!(rt; stamps.as_slice(), want);
    Ok(())
}

/// The cells of a layer are these.
fn has_values(
    rt: &(impl AllocGlobal + Abort),
    layer: &Layer,
    want: &[Option<Value>],
) -> Result<(), Fail> {
    let values = values_of(rt.alloc(), layer)?;
    assert_eq!(rt; values.as_slice(), want);
    Ok(())
}

/// A copy of a layer may be stamped anew.
fn restamps(rt: &(impl AllocGlobal + Abort), layer: &Layer, want: &[u64]) -> Result<(), Fail> {
    let mut twin = layer.copy(rt.alloc())?;
    twin.restamp(9);
    has_stamps(rt, &twin, want)
}

#[test]
fn committed_tiles_are_stamped(rt: HostRuntime) -> Result<(), Fail> {
    let extent = Extent::new(33, 33).ok_or("limits")?;
    assert!(rt; 3 < extent.tiles());
    let patch = patch_of(rt.alloc(), extent, 1, 5, 3, 7)?;
    let mut layer = Layer::constant(rt.alloc(), extent, cell(5), 1)?;
    layer.commit(patch, 2);
    assert_eq!(rt; value_at(&layer, 1088, &mut Counts::new()), Some(7));
    has_stamps(&rt, &layer, &[1, 1, 1, 2])?;
    restamps(&rt, &layer, &[9, 9, 9, 9])
}

#[test]
fn fresh_layers(rt: HostRuntime) -> Result<(), Fail> {
    let extent = Extent::new(1, 2).ok_or("limits")?;
    assert_eq!(rt; extent.tiles(), 1);
    let place = extent.place(0);
    assert_eq!(rt; (place.height, place.width), (1, 2));
    let mut tile = Tile::new(rt.alloc(), extent, 0, cell(3))?;
    tile.set(0, 1, cell(4));
    let mut patch = Patch::new(rt.alloc(), extent);
    patch.push(0, tile)?;
    assert_eq!(rt;
        first_of(&Change::fresh(&patch).view(0, &mut Counts::new())),
        Some(3)
    );
    let layer = Layer::fresh(patch, 6);
    has_values(&rt, &layer, &[Some(3), Some(4)])?;
    has_stamps(&rt, &layer, &[6])
}

#[test]
fn operands_are_kept_in_order(rt: HostRuntime) -> Result<(), Fail> {
    let extent = Extent::new(1, 2).ok_or("limits")?;
    let layer = layer_of(rt.alloc(), extent, &[3, 4])?;
    let mut operands = Operands::new();
    operands.push(Change::same(&layer));
    operands.push(Change::constant(Extent::new(1, 1).ok_or("limits")?, cell(8)));
    assert_eq!(rt; operands.len(), 2);
    for (k, cells) in [(0, Some(2)), (1, Some(1)), (2, None)] {
        let seen = match operands.get(k) {
            Some(change) => Some(change.extent().cells()),
            None => None,
        };
        assert_eq!(rt; seen, cells);
    }
    Ok(())
}

/// A layer that took over a list of 33 cells, of which the last differs.
fn taken_over(alloc: Global, extent: Extent) -> Result<Layer, Fail> {
    if extent.cells() != 33 {
        return Err(Fail::from("limits"));
    }
    let mut cells = vec![in alloc; cell(7); 33]?;
    cells[32] = cell(8);
    Ok(Layer::of_cells(alloc, extent, cells, 4)?)
}

#[test]
fn a_list_of_cells_taken_over(rt: HostRuntime) -> Result<(), Fail> {
    let layer = taken_over(rt.alloc(), Extent::new(1, 33).ok_or("limits")?)?;
    for (at, want) in [(31, Some(7)), (32, Some(8))] {
        assert_eq!(rt; value_at(&layer, at, &mut Counts::new()), want);
    }
    has_stamps(&rt, &layer, &[4, 4])
}

#[test]
fn tiles_are_copied_and_compared(rt: HostRuntime) -> Result<(), Fail> {
    let extent = Extent::new(1, 2).ok_or("limits")?;
    assert_eq!(rt; extent.tiles(), 1);
    let place = extent.place(0);
    assert_eq!(rt; (place.height, place.width), (1, 2));
    let mut tile = Tile::new(rt.alloc(), extent, 0, cell(3))?;
    let before = tile.view().to_tile(rt.alloc())?;
    tile.set(0, 1, cell(4));
    let after = tile.view().to_tile(rt.alloc())?;
    let are_same = [
        tile.view().same(&after.view()),
        tile.view().same(&before.view()),
    ];
    assert_eq!(rt; are_same, [true, false]);
    Ok(())
}

/// A change of tiles 1 and 3 is gone through in their order.
fn goes_through(rt: &(impl AllocGlobal + Abort), layer: &Layer, patch: &Patch)
    requires { patch.now.size ≡ layer.now.size }
{
    assert_eq!(rt; patch.len(), 2);
    let change = Change::patched(layer, patch);
    for (from, next) in [(0, Some(1)), (1, Some(1)), (2, Some(3)), (4, None)] {
        assert_eq!(rt; change.next_touched(from), next, "{from}");
    }
    assert_eq!(rt; Change::same(layer).next_touched(0), None);
}

#[test]
fn touched_tiles_come_in_order(rt: HostRuntime) -> Result<(), Fail> {
    let extent = Extent::new(33, 33).ok_or("limits")?;
    assert!(rt; 3 < extent.tiles());
    let layer = Layer::constant(rt.alloc(), extent, cell(5), 1)?;
    let patch = patch_of(rt.alloc(), extent, 1, 5, 3, 7)?;
    goes_through(&rt, &layer, &patch);
    Ok(())
}
