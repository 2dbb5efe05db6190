//! A layer as signs.
ghost use Rattle.std.specs.Prelude.{◌≡◌, ◌*◌, ◌++◌, codes, map, IfOk, OnOk};
ghost use Rattle.std.specs.List.{flat_map, range_with_len};
ghost use Rattle.layer_tiles.specs.Tiles.{tiles_in, tiles_across};
ghost use Rattle.layer_tiles.specs.Tallies.{RisesBy};
ghost use Rattle.map_machine.specs.Displays.{row_in, show_reply};
ghost use Rattle.map_machine.specs.Signs.{sign_of};
ghost use Rattle.map_edits.specs.Marks.{Mark as Kept};
ghost use Rattle.map_defs.specs.Ops.{Name as Word};
ghost use Rattle.std.specs.Prelude.{List};
ghost use Rattle.map_display.specs.OfLayer.{AreSigns};

use crate::signs::Signs;
use crate::words::{named, put_counted};
use cell_kinds::push_row;
use layer_tiles::{Cell, Layer, Tally};
use map_marks::Marks;
use map_nums::NoMemory;
use map_words::Name;
use std::alloc::Global;

/// A row of signs and its line end.
fn put_signs(text: &mut Vec<u8>, row: &[Cell], signs: &Signs<'_>) -> Result<(), NoMemory>
    ensures { OnOk result ((symbols : List Kept) (n : Word) → AreSigns symbols n signs.now → text.new.items ≡ text.old.items ++ (map (sign_of symbols n) row.now ++ codes "\n")) }
{
    for cell in row {
        text.push(signs.sign(*cell))?;
    }
    text.push(b'\n')?;
    Ok(())
}

/// The lines of signs of a layer.
fn put_rows<M: Tally>(
    alloc: Global,
    text: &mut Vec<u8>,
    layer: &Layer,
    signs: &Signs<'_>,
    tally: &mut M,
) -> Result<(), NoMemory>
    ensures rows { OnOk result ((symbols : List Kept) (n : Word) → AreSigns symbols n signs.now → text.new.items ≡ text.old.items ++ flat_map (λ r. map (sign_of symbols n) (row_in layer.now.size.columns layer.now.cells r) ++ codes "\n") (range_with_len 0 layer.now.size.rows)) }
    ensures looks { RisesBy (layer.now.size.rows * tiles_across layer.now.size) 0 (M.counts tally.old) (M.counts tally.new) }
{
    let mut row = Vec::new(alloc);
    for r in 0..layer.extent().rows() {
        row.clear();
        push_row(&mut row, layer, r, tally)?;
        put_signs(text, &row, signs)?;
    }
    Ok(())
}

/// A layer's name and extent, and then a line of signs for each row: the sign of a value is its symbol, without one a digit for 0 to
/// 9, `*` above and `-` below; that of null is `.`. At most 64 looks for each tile.
pub fn print_show<M: Tally>(
    alloc: Global,
    name: &Name,
    layer: &Layer,
    symbols: &Marks,
    tally: &mut M,
) -> Result<Vec<u8>, NoMemory>
    ensures text { IfOk result (λ text. text.items ≡ show_reply name.now (record { size = layer.now.size; cells = layer.now.cells }) symbols.now) }
    ensures looks { RisesBy (64 * tiles_in layer.now.size) 0 (M.counts tally.old) (M.counts tally.new) }
{
    let signs = Signs::of(alloc, symbols, name)?;
    let extent = layer.extent();
    let mut text = named(alloc, b"show ", name)?;
    text.reserve((extent.cells() + extent.rows()) as usize + 16)?;
    put_counted(&mut text, extent.rows() as u64)?;
    put_counted(&mut text, extent.columns() as u64)?;
    text.push(b'\n')?;
    put_rows(alloc, &mut text, layer, &signs, tally)?;
    Ok(text)
}
