//! What the subjects share: their words, layers made cell by cell, repaints of a tile, and sums of cells.

ghost use Rattle.std.specs.Prelude.{◌≡◌, ◌<◌, IfOk};
ghost use Rattle.layer_tiles.specs.Tiles.{tiles_in, IsBlockOf};

use layer_tiles::{Cell, Change, Extent, Layer, NoMemory, Patch, Tile};
use map_nums::Value;
use map_outside::Counts;
use std::alloc::Global;

/// The rows and the columns of most maps.
pub const SIDE: u32 = 1201;

/// The word at a place, an empty one where there are fewer.
pub fn word_at<'a>(words: &[&'a str], place: usize) -> &'a str {
    match words.get(place) {
        Some(word) => *word,
        None => "",
    }
}

/// The number that the word at a place says, and 1 where it says none.
pub fn number_at(words: &[&str], place: usize) -> u32 {
    word_at(words, place).parse().unwrap_or(1)
}

/// The cell of a number.
pub fn cell(number: u32) -> Cell {
    Cell::of((number % 2_000_000) as Value).unwrap_or(Cell::null())
}

/// A square of so many rows and columns.
pub fn square(side: u32) -> Result<Extent, NoMemory> {
    match Extent::new(side, side) {
        Some(extent) => Ok(extent),
        None => Err(NoMemory),
    }
}

/// A layer of cells that are made from their places.
pub fn layer_of<F: Fn(u32) -> Cell>(
    alloc: Global,
    extent: Extent,
    cell: F,
) -> Result<Layer, NoMemory>
    requires { F.IsAlwaysCallable cell }
    ensures { IfOk result (λ layer. layer.size ≡ extent) }
{
    let mut cells = Vec::new(alloc);
    for at in 0..extent.cells() {
        cells.push(cell(at))?;
    }
    if cells.len() != extent.cells() as usize {
        return Err(NoMemory);
    }
    Layer::from_cells(alloc, extent, &cells, 1)
}

/// A tile of a layer.
pub fn tile_of(alloc: Global, layer: &Layer, number: u32) -> Result<Tile, NoMemory>
    requires { number < tiles_in layer.now.size }
    ensures { IfOk result (λ tile. IsBlockOf layer.now.size number tile) }
{
    let tile = layer.view(number, &mut Counts::new()).to_tile(alloc)?;
    let _block = tile.height();
    Ok(tile)
}

/// A patch of one tile.
pub fn patch_of(alloc: Global, extent: Extent, number: u32, tile: Tile) -> Result<Patch, NoMemory>
    requires within { number < tiles_in extent }
    requires block { IsBlockOf extent number tile }
    ensures { IfOk result (λ patch. patch.size ≡ extent) }
{
    let mut patch = Patch::new(alloc, extent);
    patch.push(number, tile)?;
    Ok(patch)
}

/// A cell of a tile, by row and column in it.
#[derive(Clone, Copy)]
pub struct Spot {
    pub tile: u32,
    pub row: u32,
    pub column: u32,
}

/// A tile of a layer with another cell at a spot, where the tile has it.
fn tile_with(alloc: Global, layer: &Layer, spot: Spot, other: Cell) -> Result<Tile, NoMemory>
    requires { spot.tile < tiles_in layer.now.size }
    ensures { IfOk result (λ tile. IsBlockOf layer.now.size spot.tile tile) }
{
    let mut tile = tile_of(alloc, layer, spot.tile)?;
    if spot.row < tile.height() && spot.column < tile.view().width() {
        tile.set(spot.row, spot.column, other);
    }
    let _block = tile.height();
    Ok(tile)
}

/// A patch with another cell at a spot of a layer; an empty one where the layer has no such tile.
pub fn repaint_of(alloc: Global, layer: &Layer, spot: Spot, other: Cell) -> Result<Patch, NoMemory>
    ensures { IfOk result (λ patch. patch.size ≡ layer.now.size) }
{
    let extent = layer.extent();
    if spot.tile >= extent.tiles() {
        return Ok(Patch::new(alloc, extent));
    }
    let tile = tile_with(alloc, layer, spot, other)?;
    patch_of(alloc, extent, spot.tile, tile)
}

/// The number of a cell, 0 where it is null.
pub fn amount(cell: Cell) -> u64 {
    match cell.get() {
        Some(number) => u64::try_from(number).unwrap_or(0),
        None => 0,
    }
}

/// The number of a cell of a change, 0 where it is null or off the map.
pub fn amount_at(change: &Change<'_>, at: u32) -> u64 {
    if at >= change.extent().cells() {
        return 0;
    }
    amount(change.cell(at, &mut Counts::new()))
}

/// The sum of cells, where a null one counts as much.
pub fn sum_of(cells: &[Cell], null: i64) -> i64 {
    let mut sum: i64 = 0;
    for cell in cells {
        sum = sum.wrapping_add(cell.get().unwrap_or(null));
    }
    sum
}

/// The sum of a tile's cells, where a null one counts as much.
pub fn sum_of_tile(tile: &Tile, null: i64) -> i64 {
    let mut sum: i64 = 0;
    for r in 0..tile.height() {
        sum = sum.wrapping_add(sum_of(tile.row(r), null));
    }
    sum
}
