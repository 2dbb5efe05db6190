//! The places at which one operand changed.
ghost use Rattle.std.specs.Prelude.{◌≡◌, ◌<◌, ◌+◌, ◌*◌, length, IfOk, OnOk, IsSome};
ghost use Rattle.map_nums.specs.Grids.{Cells};
ghost use Rattle.layer_tiles.specs.Tiles.{tiles_in, tile_block, tile_height, tile_width, IsBlockOf};
ghost use Rattle.layer_tiles.specs.Tallies.{RisesBy};
ghost use Rattle.layer_tiles.specs.Changes.{cells_before};
ghost use Rattle.changed_cells.specs.Changed.{AreChanged, AreChangedTo, AddsRowTo, IsAddedIf};

use layer_tiles::{Cell, Change, Extent, NoMemory, Tally, TileView, same_cells};
use std::alloc::Global;

/// The places at which an operand changed, each once. Two looks for each touched tile.
pub fn changed_places<M: Tally>(
    alloc: Global,
    of: &Change<'_>,
    tally: &mut M,
) -> Result<Vec<u32>, NoMemory>
    requires there { IsSome of.now.before }
    ensures places { IfOk result (λ found. AreChanged of.now.size (cells_before of.now) of.now.cells found.items) }
    ensures looks { RisesBy (2 * length of.now.touched) 0 (M.counts tally.old) (M.counts tally.new) }
{
    let _tiles = of.extent().tiles();
    let mut found = Vec::new(alloc);
    let mut from = 0;
    while let Some(tile) = of.next_touched(from) {
        add_tile(of, tile, &mut found, tally)?;
        from = tile + 1;
    }
    Ok(found)
}

/// Adds the places of a tile. Two looks.
fn add_tile<M: Tally>(
    of: &Change<'_>,
    tile: u32,
    found: &mut Vec<u32>,
    tally: &mut M,
) -> Result<(), NoMemory>
    requires there { IsSome of.now.before }
    requires within { tile < tiles_in of.now.size }
    ensures added { OnOk result (AreChangedTo of.now.size (cells_before of.now) of.now.cells (tile * 1024) found.old.items → AreChangedTo of.now.size (cells_before of.now) of.now.cells ((tile + 1) * 1024) found.new.items) }
    ensures looks { RisesBy 2 0 (M.counts tally.old) (M.counts tally.new) }
{
    let extent = of.extent();
    let before = of.view_before(tile, tally);
    let after = of.view(tile, tally);
    add_rows(extent, tile, &before, &after, found)
}

/// Adds the places of a tile at which its cells differ.
fn add_rows(
    extent: Extent,
    tile: u32,
    before: &TileView<'_>,
    after: &TileView<'_>,
    found: &mut Vec<u32>,
) -> Result<(), NoMemory>
    requires within { tile < tiles_in extent }
    requires before { IsBlockOf extent tile before.now }
    requires after { IsBlockOf extent tile after.now }
    ensures { OnOk result ((b a : Cells) → before.now ≡ tile_block extent b tile → after.now ≡ tile_block extent a tile → AreChangedTo extent b a (tile * 1024) found.old.items → AreChangedTo extent b a ((tile + 1) * 1024) found.new.items) }
{
    for r in 0..extent.place(tile).height {
        add_row(extent, tile, r, before.row(r), after.row(r), found)?;
    }
    Ok(())
}

/// Adds the places of a row of a tile at which its cells differ.
fn add_row(
    extent: Extent,
    tile: u32,
    r: u32,
    before: &[Cell],
    after: &[Cell],
    found: &mut Vec<u32>,
) -> Result<(), NoMemory>
    requires within { tile < tiles_in extent }
    requires row { r < tile_height extent tile }
    requires before { length before.now ≡ tile_width extent tile }
    requires after { length after.now ≡ tile_width extent tile }
    ensures { OnOk result (AddsRowTo extent tile r 32 before.now after.now found.old.items found.new.items) }
{
    let _placed = extent.place(tile);
    if same_cells(before, after) {
        return Ok(());
    }
    add_cells(extent, tile, r, before, after, found)
}

/// The same, cell by cell.
fn add_cells(
    extent: Extent,
    tile: u32,
    r: u32,
    before: &[Cell],
    after: &[Cell],
    found: &mut Vec<u32>,
) -> Result<(), NoMemory>
    requires within { tile < tiles_in extent }
    requires row { r < tile_height extent tile }
    requires before { length before.now ≡ tile_width extent tile }
    requires after { length after.now ≡ tile_width extent tile }
    ensures { OnOk result (AddsRowTo extent tile r 32 before.now after.now found.old.items found.new.items) }
{
    let place = extent.place(tile);
    let start = (place.top + r) * extent.columns() + place.left;
    for c in 0..place.width {
        add_place(before[c as usize], after[c as usize], start + c, found)?;
    }
    Ok(())
}

/// Adds a place where its cells differ.
fn add_place(one: Cell, other: Cell, at: u32, found: &mut Vec<u32>) -> Result<(), NoMemory>
    ensures { OnOk result (IsAddedIf one other at found.old.items found.new.items) }
{
    if one.same(&other) {
        return Ok(());
    }
    found.push(at)?;
    Ok(())
}
