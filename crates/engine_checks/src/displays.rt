//! What is printed of layers.
ghost use Rattle.std.specs.Prelude.{◌≡◌, ◌<◌, IfOk};
ghost use Rattle.layer_tiles.specs.Tiles.{tiles_in};

use crate::marks::{labels, mark, name, symbols};
use layer_tiles::{Cell, Extent, Layer, NoMemory, Patch, Tile, Value};
use map_display::{print_legend, print_show, print_stamps, print_table};
use map_marks::Marks;
use map_outside::Counts;
use std::alloc::Global;
use std::test::Fail;

/// A layer of cells, row by row, stamped 1; null where a number fits no cell.
fn layer_of(alloc: Global, extent: Extent, values: &[Value]) -> Result<Layer, Fail>
    ensures { IfOk result (λ layer. layer.size ≡ extent) }
{
    let mut cells = Vec::new(alloc);
    for value in values {
        cells.push(cell(*value))?;
    }
    if cells.len() != extent.cells() as usize {
        return Err(Fail::from("cells"));
    }
    Ok(Layer::from_cells(alloc, extent, &cells, 1)?)
}

/// A cell of a value; null where it fits none.
fn cell(value: Value) -> Cell {
    Cell::of(value).unwrap_or(Cell::null())
}

/// A number that no cell holds.
const NULL: Value = -1_000_000_000_000_001;

/// Two rows of three cells: a null, a negative number, a small one twice and one of two digits.
const VALUES: [Value; 6] = [1, 1, 2, NULL, 12, -5];

/// The lesser of each of them and 1.
const ZONES: [Value; 6] = [1, 1, 1, NULL, 1, -5];

fn layer(alloc: Global) -> Result<Layer, Fail> {
    layer_of(alloc, Extent::new(2, 3).ok_or("limits")?, &VALUES)
}

/// The legend of the layer.
fn legend(alloc: Global, labels: &Marks, symbols: &Marks) -> Result<Vec<u8>, Fail> {
    let name = name(alloc, b"A")?;
    let layer = layer(alloc)?;
    Ok(print_legend(alloc, &name, &layer, labels, symbols, &mut Counts::new())?)
}

#[test]
fn a_legend(rt: HostRuntime) -> Result<(), Fail> {
    let alloc = rt.alloc();
    let told = legend(alloc, &labels(alloc)?, &symbols(alloc)?)?;
    assert_eq!(rt;
        told.as_slice(),
        b"legend A 5\nnull 1 .\n-5 1 -\n1 2 1 dry land\n2 1 ~\n12 1 *\n".as_slice()
    );
    Ok(())
}

#[test]
fn a_legend_without_marks(rt: HostRuntime) -> Result<(), Fail> {
    let alloc = rt.alloc();
    let told = legend(alloc, &Marks::new(alloc), &Marks::new(alloc))?;
    assert_eq!(rt;
        told.as_slice(),
        b"legend A 5\nnull 1 .\n-5 1 -\n1 2 1\n2 1 2\n12 1 *\n".as_slice()
    );
    Ok(())
}

/// The signs of the layer.
fn signs(alloc: Global, symbols: &Marks) -> Result<Vec<u8>, Fail> {
    let name = name(alloc, b"A")?;
    let layer = layer(alloc)?;
    Ok(print_show(alloc, &name, &layer, symbols, &mut Counts::new())?)
}

#[test]
fn signs_of_a_layer(rt: HostRuntime) -> Result<(), Fail> {
    let told = signs(rt.alloc(), &symbols(rt.alloc())?)?;
    assert_eq!(rt; told.as_slice(), b"show A 2 3\n11~\n.*-\n".as_slice());
    Ok(())
}

#[test]
fn symbols_of_large_and_negative_values(rt: HostRuntime) -> Result<(), Fail> {
    let alloc = rt.alloc();
    let mut marks = symbols(alloc)?;
    marks.put(mark(alloc, b"A", 12, b"^")?)?;
    marks.put(mark(alloc, b"A", -5, b"v")?)?;
    assert_eq!(rt;
        signs(alloc, &marks)?.as_slice(),
        b"show A 2 3\n11~\n.^v\n".as_slice()
    );
    Ok(())
}

#[test]
fn symbols_that_are_dropped(rt: HostRuntime) -> Result<(), Fail> {
    let alloc = rt.alloc();
    let mut marks = symbols(alloc)?;
    marks.drop_name(&name(alloc, b"A")?);
    assert_eq!(rt;
        signs(alloc, &marks)?.as_slice(),
        b"show A 2 3\n112\n.*-\n".as_slice()
    );
    Ok(())
}

#[test]
fn a_table(rt: HostRuntime) -> Result<(), Fail> {
    let alloc = rt.alloc();
    let extent = Extent::new(2, 3).ok_or("limits")?;
    let zones = layer_of(alloc, extent, &ZONES)?;
    let values = layer_of(alloc, extent, &VALUES)?;
    let (b, a) = (name(alloc, b"B")?, name(alloc, b"A")?);
    let told = print_table(alloc, &b, &a, &zones, &values, &mut Counts::new())?;
    assert_eq!(rt;
        told.as_slice(),
        b"table B A 5\nnull null 1\n-5 -5 1\n1 1 2\n1 2 1\n1 12 1\n".as_slice()
    );
    Ok(())
}

#[test]
fn pairs_over_several_tiles(rt: HostRuntime) -> Result<(), Fail> {
    let alloc = rt.alloc();
    let extent = Extent::new(33, 33).ok_or("limits")?;
    let zones = Layer::constant(alloc, extent, Cell::null(), 1)?;
    let values = Layer::constant(alloc, extent, cell(-7), 1)?;
    let (z, v) = (name(alloc, b"Z")?, name(alloc, b"V")?);
    let told = print_table(alloc, &z, &v, &zones, &values, &mut Counts::new())?;
    assert_eq!(rt; told.as_slice(), b"table Z V 1\nnull -7 1089\n".as_slice());
    Ok(())
}

/// A patch of one tile.
fn patch_of_one(alloc: Global, extent: Extent, tile: u32, value: Value) -> Result<Patch, NoMemory>
    requires { tile < tiles_in extent }
    ensures { IfOk result (λ patch. patch.size ≡ extent) }
{
    let mut patch = Patch::new(alloc, extent);
    patch.push(tile, Tile::new(alloc, extent, tile, cell(value))?)?;
    Ok(patch)
}

#[test]
fn stamps_of_tiles(rt: HostRuntime) -> Result<(), Fail> {
    let alloc = rt.alloc();
    let extent = Extent::new(33, 33).ok_or("limits")?;
    assert!(rt; 1 < extent.tiles());
    let mut layer = Layer::constant(alloc, extent, Cell::null(), 5)?;
    layer.commit(
        patch_of_one(alloc, extent, 1, 3)?,
        18_446_744_073_709_551_615,
    );
    let told = print_stamps(alloc, &name(alloc, b"A")?, &layer)?;
    assert_eq!(rt;
        told.as_slice(),
        b"stamps A 2 2\n5 18446744073709551615\n5 5\n".as_slice()
    );
    Ok(())
}
