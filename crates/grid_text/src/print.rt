//! Printing a grid.
ghost use Rattle.std.specs.Prelude.{◌≡◌, ◌-◌, ◌*◌, ◌<◌, ◌++◌, codes, decimal, length, take, OnOk, IfOk};
ghost use Rattle.std.specs.Fmt.{signed_decimal};
ghost use Rattle.layer_tiles.specs.Tiles.{tiles_in, tiles_across};
ghost use Rattle.layer_tiles.specs.Tallies.{RisesBy};
ghost use Rattle.grid_text.specs.Headers.{IsHeader};
ghost use Rattle.grid_text.specs.Blanks.{blanked};
ghost use Rattle.grid_text.specs.Printed.{null_number, cell_text, x_key, y_key, header_text, row_text, rows_text, grid_text};
ghost use Rattle.grid_text.specs.ReadBack.{ReadsAs};

use crate::{Corner, Header};
use itoa::Buffer;
use layer_tiles::{Cell, Extent, Layer, Tally};
use map_nums::{NoMemory, Value};
use std::alloc::Global;

fn put_number(text: &mut Vec<u8>, number: Value) -> Result<(), NoMemory>
    ensures { OnOk result (text.new.items ≡ text.old.items ++ signed_decimal number) }
{
    text.extend_from_slice(Buffer::new().format(number).as_bytes())?;
    Ok(())
}

// The number that stands for null: no cell can hold it.
fn put_null(text: &mut Vec<u8>) -> Result<(), NoMemory>
    ensures { OnOk result (text.new.items ≡ text.old.items ++ signed_decimal null_number) }
{
    text.extend_from_slice(b"-1000000000000001")?;
    Ok(())
}

fn put_cell(text: &mut Vec<u8>, cell: Cell) -> Result<(), NoMemory>
    ensures { OnOk result (text.new.items ≡ text.old.items ++ cell_text cell) }
{
    match cell.get() {
        None => put_null(text),
        Some(value) => put_number(text, value),
    }
}

// A line of a key and its text.
fn put_line(text: &mut Vec<u8>, key: &[u8], value: &[u8]) -> Result<(), NoMemory>
    ensures { OnOk result (text.new.items ≡ text.old.items ++ key.now ++ value.now ++ codes "\n") }
{
    text.extend_from_slice(key)?;
    text.extend_from_slice(value)?;
    text.push(b'\n')?;
    Ok(())
}

// A line of a key and a number of rows or columns.
fn put_count(text: &mut Vec<u8>, key: &[u8], count: u32) -> Result<(), NoMemory>
    ensures { OnOk result (text.new.items ≡ text.old.items ++ key.now ++ decimal count ++ codes "\n") }
{
    put_line(text, key, Buffer::new().format(count).as_bytes())
}

fn put_x(text: &mut Vec<u8>, corner: &Corner) -> Result<(), NoMemory>
    ensures { OnOk result (text.new.items ≡ text.old.items ++ x_key corner.now ++ corner.now.text ++ codes "\n") }
{
    if corner.center {
        put_line(text, b"xllcenter ", corner.text.bytes())
    } else {
        put_line(text, b"xllcorner ", corner.text.bytes())
    }
}

fn put_y(text: &mut Vec<u8>, corner: &Corner) -> Result<(), NoMemory>
    ensures { OnOk result (text.new.items ≡ text.old.items ++ y_key corner.now ++ corner.now.text ++ codes "\n") }
{
    if corner.center {
        put_line(text, b"yllcenter ", corner.text.bytes())
    } else {
        put_line(text, b"yllcorner ", corner.text.bytes())
    }
}

// The line of the number that stands for null.
fn put_null_line(text: &mut Vec<u8>) -> Result<(), NoMemory>
    ensures { OnOk result (text.new.items ≡ text.old.items ++ codes "NODATA_value " ++ signed_decimal null_number ++ codes "\n") }
{
    text.extend_from_slice(b"NODATA_value ")?;
    put_null(text)?;
    text.push(b'\n')?;
    Ok(())
}

fn put_header(text: &mut Vec<u8>, header: &Header, extent: Extent) -> Result<(), NoMemory>
    ensures { OnOk result (text.new.items ≡ text.old.items ++ header_text header.now extent) }
{
    put_count(text, b"ncols ", extent.columns())?;
    put_count(text, b"nrows ", extent.rows())?;
    put_x(text, &header.x)?;
    put_y(text, &header.y)?;
    put_line(text, b"cellsize ", header.size.bytes())?;
    put_null_line(text)?;
    Ok(())
}

// Cells of a line, with a blank after each.
fn put_cells(text: &mut Vec<u8>, cells: &[Cell]) -> Result<(), NoMemory>
    ensures { OnOk result (text.new.items ≡ text.old.items ++ blanked cells.now) }
{
    for cell in cells {
        put_cell(text, *cell)?;
        text.push(b' ')?;
    }
    Ok(())
}

// Ends a line: a line feed stands in place of the last blank.
fn end_line(text: &mut Vec<u8>) -> Result<(), NoMemory>
    ensures { OnOk result (text.new.items ≡ take (length text.old.items - 1) text.old.items ++ codes "\n") }
{
    text.pop();
    text.push(b'\n')?;
    Ok(())
}

// A line of the cells of a row, from the tiles that it crosses: one look each.
fn put_row<M: Tally>(
    text: &mut Vec<u8>,
    layer: &Layer,
    r: u32,
    tally: &mut M,
) -> Result<(), NoMemory>
    requires { r < layer.now.size.rows }
    ensures row { OnOk result (text.new.items ≡ text.old.items ++ row_text layer.now.size layer.now.cells r) }
    ensures looks { RisesBy (tiles_across layer.now.size) 0 (M.counts tally.old) (M.counts tally.new) }
{
    let across = layer.extent().tiles_across();
    let first = r / 32 * across;
    for k in 0..across {
        let tile = layer.view(first + k, tally);
        put_cells(text, tile.row(r % 32))?;
    }
    end_line(text)?;
    Ok(())
}

fn put_rows<M: Tally>(text: &mut Vec<u8>, layer: &Layer, tally: &mut M) -> Result<(), NoMemory>
    ensures rows { OnOk result (text.new.items ≡ text.old.items ++ rows_text layer.now.size layer.now.cells) }
    ensures looks { RisesBy (layer.now.size.rows * tiles_across layer.now.size) 0 (M.counts tally.old) (M.counts tally.new) }
{
    for r in 0..layer.extent().rows() {
        put_row(text, layer, r, tally)?;
    }
    Ok(())
}

/// The canonical text of a layer under a header: the header's lines, and a line for each row. Where the header's texts are those of
/// decimals, it reads back as the same header and cells. At most 64 looks for each tile.
pub fn print_grid<M: Tally>(
    alloc: Global,
    header: &Header,
    layer: &Layer,
    tally: &mut M,
) -> Result<Vec<u8>, NoMemory>
    ensures text { IfOk result (λ v. v.items ≡ grid_text header.now layer.now.size layer.now.cells) }
    ensures reads { IsHeader header.now → IfOk result (λ v. ReadsAs v.items header.now layer.now.size layer.now.cells) }
    ensures looks { RisesBy (64 * tiles_in layer.now.size) 0 (M.counts tally.old) (M.counts tally.new) }
{
    let mut text = Vec::new(alloc);
    put_header(&mut text, header, layer.extent())?;
    put_rows(&mut text, layer, tally)?;
    Ok(text)
}
