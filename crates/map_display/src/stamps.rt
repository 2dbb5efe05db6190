//! The stamps of a layer.
ghost use Rattle.std.specs.Prelude.{◌≡◌, ◌*◌, ◌++◌, ◌<◌, codes, decimal, map, IfOk, OnOk};
ghost use Rattle.std.specs.List.{flat_map, range_with_len};
ghost use Rattle.layer_tiles.specs.Tiles.{tiles_down, tiles_across};
ghost use Rattle.grid_text.specs.Printed.{spaced};
ghost use Rattle.map_machine.specs.Displays.{row_in, stamps_reply};

use crate::words::{named, put_counted, put_number};
use layer_tiles::Layer;
use map_nums::NoMemory;
use map_words::Name;
use std::alloc::Global;

/// The stamps of a row of tiles.
fn row_of(alloc: Global, layer: &Layer, r: u32) -> Result<Vec<u64>, NoMemory>
    requires { r < tiles_down layer.now.size }
    ensures { IfOk result (λ row. row.items ≡ row_in (tiles_across layer.now.size) layer.now.stamps r) }
{
    let across = layer.extent().tiles_across();
    let mut row = Vec::with_capacity(alloc, across as usize)?;
    for k in 0..across {
        row.push(layer.stamp(r * across + k))?;
    }
    Ok(row)
}

/// A line of numbers.
fn put_row(text: &mut Vec<u8>, row: &[u64]) -> Result<(), NoMemory>
    ensures { OnOk result (text.new.items ≡ text.old.items ++ (spaced (map decimal row.now) ++ codes "\n")) }
{
    for (i, stamp) in row.iter().enumerate() {
        if i > 0 {
            text.push(b' ')?;
        }
        put_number(text, *stamp)?;
    }
    text.push(b'\n')?;
    Ok(())
}

/// The lines of stamps of a layer.
fn put_rows(alloc: Global, text: &mut Vec<u8>, layer: &Layer) -> Result<(), NoMemory>
    ensures { OnOk result (text.new.items ≡ text.old.items ++ flat_map (λ r. spaced (map decimal (row_in (tiles_across layer.now.size) layer.now.stamps r)) ++ codes "\n") (range_with_len 0 (tiles_down layer.now.size))) }
{
    for r in 0..layer.extent().tiles_down() {
        let row = row_of(alloc, layer, r)?;
        put_row(text, &row)?;
    }
    Ok(())
}

/// A layer's name and how many rows and columns of tiles it has, and then a line of stamps for each row of tiles. Nothing is looked
/// at.
pub fn print_stamps(alloc: Global, name: &Name, layer: &Layer) -> Result<Vec<u8>, NoMemory>
    ensures { IfOk result (λ text. text.items ≡ stamps_reply name.now layer.now.size layer.now.stamps) }
{
    let extent = layer.extent();
    let mut text = named(alloc, b"stamps ", name)?;
    put_counted(&mut text, extent.tiles_down() as u64)?;
    put_counted(&mut text, extent.tiles_across() as u64)?;
    text.push(b'\n')?;
    put_rows(alloc, &mut text, layer)?;
    Ok(text)
}
