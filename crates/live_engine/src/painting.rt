//! The tiles of a layer that a painted rectangle meets.

ghost use Rattle.std.specs.Prelude.{◌≡◌, ◌↔◌, ◌+◌, ◌*◌, ◌<◌, ◌≤◌, ◌&&◌, nat_le, ℕ, if◌then◌else◌, length, IfOk, OnOk, IsTrue, IsSome};
ghost use Rattle.map_edits.specs.Painting.{is_within, painted};
ghost use Rattle.layer_tiles.specs.Tiles.{tile_height, tile_width, tiles_across, tiles_in, IsBlockOf};
ghost use Rattle.layer_tiles.specs.Patches.{patch_get, patched};
ghost use Rattle.layer_tiles.specs.Tallies.{RisesBy};
ghost use Rattle.layer_tiles.specs.Changes.{patched_change};
ghost use Rattle.map_waves.specs.Operands.{IsOperand};
ghost use Rattle.kept_map.specs.Maps.{grid_of};
ghost use Rattle.live_engine.specs.Painting.{rectangle_of, IsCounted, met_tiles, met_count, first_row, last_row, MeetsRectangle, IsPainted, ArePainted};

use layer_tiles::{Cell, Extent, Layer, Patch, Tally, Tile, TileView};
use map_nums::NoMemory;
use std::alloc::Global;

/// A rectangle of cells. Rows and columns count from 1.
#[derive(Clone, Copy)]
pub struct Rectangle {
    pub top: u32,
    pub left: u32,
    pub bottom: u32,
    pub right: u32,
}

/// The tiles of a layer that a paint changes, and how many it met.
#[derive(Drop)]
pub(crate) struct Painted {
    pub(crate) patch: Patch,
    pub(crate) met: u32,
}

/// The tiles of a layer that a paint changes. At most three looks for each that the rectangle meets.
pub(crate) fn changed_by_paint<M: Tally>(
    alloc: Global,
    layer: &Layer,
    rectangle: Rectangle,
    cell: Cell,
    tally: &mut M,
) -> Result<Painted, NoMemory>
    requires counted { IsCounted (rectangle_of rectangle) }
    requires within { IsTrue (is_within layer.now.size (rectangle_of rectangle)) }
    ensures size { IfOk result (λ p. p.patch.size ≡ layer.now.size) }
    ensures cells { IfOk result (λ p. patched layer.now.size layer.now.cells p.patch.tiles ≡ (painted layer.now.size (rectangle_of rectangle) cell (grid_of layer.now)).cells) }
    ensures operand { IfOk result (λ p. IsOperand layer.now.size (patched_change layer.now p.patch)) }
    ensures met { IfOk result (λ p. p.met ≡ length (met_tiles layer.now.size (rectangle_of rectangle))) }
    ensures tally { RisesBy (3 * length (met_tiles layer.now.size (rectangle_of rectangle))) 0 (M.counts tally.old) (M.counts tally.new) }
{
    let _extent = layer.extent();
    let mut patch = painted_tiles(alloc, layer, rectangle, cell, tally)?;
    let _patch = patch.extent();
    let met = patch.len();
    patch.narrow(layer, tally);
    Ok(Painted { patch, met })
}

/// The tiles of a layer that a rectangle meets, with the cell in each place of the rectangle. One look for each.
fn painted_tiles<M: Tally>(
    alloc: Global,
    layer: &Layer,
    rectangle: Rectangle,
    cell: Cell,
    tally: &mut M,
) -> Result<Patch, NoMemory>
    requires counted { IsCounted (rectangle_of rectangle) }
    requires within { IsTrue (is_within layer.now.size (rectangle_of rectangle)) }
    ensures size { IfOk result (λ p. p.size ≡ layer.now.size) }
    ensures cells { IfOk result (λ p. patched layer.now.size layer.now.cells p.tiles ≡ (painted layer.now.size (rectangle_of rectangle) cell (grid_of layer.now)).cells) }
    ensures met { IfOk result (λ p. (t : ℕ) → IsSome (patch_get p.tiles t) ↔ MeetsRectangle layer.now.size (rectangle_of rectangle) t) }
    ensures tally { RisesBy (length (met_tiles layer.now.size (rectangle_of rectangle))) 0 (M.counts tally.old) (M.counts tally.new) }
{
    let _across = layer.extent().tiles_across();
    let mut patch = Patch::new(alloc, layer.extent());
    for row in (rectangle.top - 1) / 32..(rectangle.bottom - 1) / 32 + 1 {
        paint_tiles_in_row(alloc, layer, rectangle, cell, row, &mut patch, tally)?;
    }
    Ok(patch)
}

/// The tiles of one row of tiles, put behind those of the rows above.
fn paint_tiles_in_row<M: Tally>(
    alloc: Global,
    layer: &Layer,
    rectangle: Rectangle,
    cell: Cell,
    row: u32,
    patch: &mut Patch,
    tally: &mut M,
) -> Result<(), NoMemory>
    requires counted { IsCounted (rectangle_of rectangle) }
    requires within { IsTrue (is_within layer.now.size (rectangle_of rectangle)) }
    requires row { (first_row (rectangle_of rectangle) ≤ row) × (row ≤ last_row (rectangle_of rectangle)) }
    requires above { ArePainted (grid_of layer.now) (rectangle_of rectangle) cell (row * tiles_across layer.now.size) patch.old }
    ensures painted { OnOk result (ArePainted (grid_of layer.now) (rectangle_of rectangle) cell ((row + 1) * tiles_across layer.now.size) patch.new) }
    ensures tally { RisesBy (met_count layer.now.size (rectangle_of rectangle) (row * tiles_across layer.now.size) (tiles_across layer.now.size)) 0 (M.counts tally.old) (M.counts tally.new) }
{
    let extent = layer.extent();
    let first = row * extent.tiles_across();
    for column in (rectangle.left - 1) / 32..(rectangle.right - 1) / 32 + 1 {
        let tile = first + column;
        let old = layer.view(tile, tally);
        let made = painted_tile(alloc, extent, tile, &old, rectangle, cell)?;
        patch.push(tile, made)?;
    }
    Ok(())
}

/// A tile with the cell in each place of the rectangle.
fn painted_tile(
    alloc: Global,
    extent: Extent,
    tile: u32,
    old: &TileView<'_>,
    rectangle: Rectangle,
    cell: Cell,
) -> Result<Tile, NoMemory>
    requires within { tile < tiles_in extent }
    requires size { IsBlockOf extent tile old.now }
    ensures { IfOk result (λ made. IsPainted extent tile (rectangle_of rectangle) cell old.now (tile_height extent tile * tile_width extent tile) made) }
{
    let mut made = Tile::new(alloc, extent, tile, cell)?;
    for r in 0..extent.place(tile).height {
        paint_row(&mut made, extent, tile, r, old, rectangle, cell);
    }
    Ok(made)
}

/// A row of that tile.
fn paint_row(
    made: &mut Tile,
    extent: Extent,
    tile: u32,
    r: u32,
    old: &TileView<'_>,
    rectangle: Rectangle,
    cell: Cell,
)
    requires within { tile < tiles_in extent }
    requires size { IsBlockOf extent tile old.now }
    requires row { r < tile_height extent tile }
    requires rows_above { IsPainted extent tile (rectangle_of rectangle) cell old.now (r * tile_width extent tile) made.old }
    ensures { IsPainted extent tile (rectangle_of rectangle) cell old.now ((r + 1) * tile_width extent tile) made.new }
{
    let place = extent.place(tile);
    let row = old.row(r);
    for c in 0..place.width {
        let below = place.top + r + 1;
        let right = place.left + c + 1;
        made.set(
            r,
            c,
            painted_cell(rectangle, below, right, cell, row[c as usize]),
        );
    }
}

/// The cell where the rectangle holds the row and the column; else the old one.
fn painted_cell(rectangle: Rectangle, row: u32, column: u32, cell: Cell, old: Cell) -> Cell
    ensures { result ≡ (if nat_le rectangle.top row && nat_le row rectangle.bottom && nat_le rectangle.left column && nat_le column rectangle.right then cell else old) }
{
    if row < rectangle.top || rectangle.bottom < row {
        return old;
    }
    if column < rectangle.left || rectangle.right < column {
        return old;
    }
    cell
}
