//! Layers that several subjects are tested over, and what is seen of them.
ghost use Rattle.std.specs.Prelude.{◌≡◌, IfOk};

use layer_tiles::{Cell, Extent, Layer, NoMemory, Patch, Tile, Value};
use map_outside::Counts;
use std::alloc::Global;
use std::test::Fail;

/// A number that no cell holds: where it is given for a cell's value, the cell is null.
pub(crate) const NULL: Value = -1_000_000_000_000_001;

/// A cell of a value; null where it fits none.
pub(crate) fn cell(value: Value) -> Cell {
    match Cell::of(value) {
        Some(cell) => cell,
        None => Cell::null(),
    }
}

/// A layer of cells, row by row, stamped 1.
pub(crate) fn layer_of(alloc: Global, extent: Extent, values: &[Value]) -> Result<Layer, Fail>
    ensures { IfOk result (λ layer. layer.size ≡ extent) }
{
    let mut cells = Vec::new(alloc);
    for value in values {
        cells.push(cell(*value))?;
    }
    if cells.len() != extent.cells() as usize {
        return Err(Fail::from("cells"));
    }
    Ok(Layer::from_cells(alloc, extent, &cells, 1)?)
}

/// A cell of a layer; none where it is null or out of the grid.
pub(crate) fn value_at(layer: &Layer, at: u32, tally: &mut Counts) -> Option<Value> {
    if at < layer.extent().cells() {
        return layer.cell(at, tally).get();
    }
    None
}

/// The cells of a layer, row by row.
pub(crate) fn values_of(alloc: Global, layer: &Layer) -> Result<Vec<Option<Value>>, NoMemory> {
    let mut values = Vec::new(alloc);
    for at in 0..layer.extent().cells() {
        values.push(value_at(layer, at, &mut Counts::new()))?;
    }
    Ok(values)
}

/// The values of a tile, row by row.
pub(crate) fn tile_values(alloc: Global, tile: &Tile) -> Result<Vec<Option<Value>>, NoMemory> {
    let mut values = Vec::new(alloc);
    for r in 0..tile.height() {
        for cell in tile.row(r) {
            values.push(cell.get())?;
        }
    }
    Ok(values)
}

/// The values of a tile's first row.
pub(crate) fn first_row(alloc: Global, tile: &Tile) -> Result<Vec<Option<Value>>, NoMemory> {
    let mut values = Vec::new(alloc);
    if tile.height() == 0 {
        return Ok(values);
    }
    for cell in tile.row(0) {
        values.push(cell.get())?;
    }
    Ok(values)
}

/// Whether cells hold these numbers.
pub(crate) fn hold(values: &[Option<Value>], wanted: &[Value]) -> bool {
    if values.len() != wanted.len() {
        return false;
    }
    for at in 0..wanted.len() {
        if values[at] != cell(wanted[at]).get() {
            return false;
        }
    }
    true
}

/// The stamps of a layer's tiles.
pub(crate) fn stamps_of(alloc: Global, layer: &Layer) -> Result<Vec<u64>, NoMemory> {
    let mut stamps = Vec::new(alloc);
    for tile in 0..layer.extent().tiles() {
        stamps.push(layer.stamp(tile))?;
    }
    Ok(stamps)
}

/// A patch with tile 0 of a layer.
fn tile_patch(alloc: Global, layer: &Layer) -> Result<Patch, NoMemory>
    ensures { IfOk result (λ patch. patch.size ≡ layer.now.size) }
{
    let extent = layer.extent();
    let mut patch = Patch::new(alloc, extent);
    if extent.tiles() == 0 {
        return Ok(patch);
    }
    let tile = layer.view(0, &mut Counts::new()).to_tile(alloc)?;
    let _block = tile.height();
    patch.push(0, tile)?;
    Ok(patch)
}

/// A patch with tile 0 of these values.
pub(crate) fn patch_with(alloc: Global, extent: Extent, values: &[Value]) -> Result<Patch, Fail>
    ensures { IfOk result (λ patch. patch.size ≡ extent) }
{
    let layer = layer_of(alloc, extent, values)?;
    Ok(tile_patch(alloc, &layer)?)
}

/// The places of the cells of 33 rows and columns.
pub(crate) fn numbers() -> [Value; 1089] {
    let mut values = [0; 1089];
    for at in 0..1089 {
        values[at] = at as Value;
    }
    values
}
