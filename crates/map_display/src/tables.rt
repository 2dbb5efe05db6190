//! The table of two layers.
ghost use Rattle.std.specs.Prelude.{◌≡◌, ◌*◌, ◌+◌, ◌++◌, flat_map, IfOk, OnOk};
ghost use Rattle.layer_tiles.specs.Tiles.{tiles_in};
ghost use Rattle.layer_tiles.specs.Tallies.{RisesBy};
ghost use Rattle.map_machine.specs.Displays.{table_reply};
ghost use Rattle.map_display.specs.Lines.{combination_line};

use crate::words::{named, put_cell, put_counted};
use cell_kinds::{Combination, combinations_of};
use layer_tiles::{Layer, Tally};
use map_nums::NoMemory;
use map_words::Name;
use std::alloc::Global;

/// A line of a table.
fn put_combination(text: &mut Vec<u8>, combination: &Combination) -> Result<(), NoMemory>
    ensures { OnOk result (text.new.items ≡ text.old.items ++ combination_line combination.now) }
{
    put_cell(text, combination.zone)?;
    text.push(b' ')?;
    put_cell(text, combination.value)?;
    put_counted(text, combination.count as u64)?;
    text.push(b'\n')?;
    Ok(())
}

/// The lines of a table.
fn put_combinations(text: &mut Vec<u8>, all: &[Combination]) -> Result<(), NoMemory>
    ensures { OnOk result (text.new.items ≡ text.old.items ++ flat_map combination_line all.now) }
{
    for combination in all {
        put_combination(text, combination)?;
    }
    Ok(())
}

/// The names of two layers of one extent and the number of pairs of a zone and a value that occur, and then for each pair a line of
/// the zone, the value and the number of its places: by zone, then by value, null first. At most 64 looks for each tile of either.
/// With n places it takes time of n log n.
pub fn print_table<M: Tally>(
    alloc: Global,
    zones_name: &Name,
    values_name: &Name,
    zones: &Layer,
    values: &Layer,
    tally: &mut M,
) -> Result<Vec<u8>, NoMemory>
    requires { values.now.size ≡ zones.now.size }
    ensures text { IfOk result (λ text. text.items ≡ table_reply zones_name.now values_name.now zones.now.cells values.now.cells) }
    ensures looks { RisesBy (64 * (tiles_in zones.now.size + tiles_in values.now.size)) 0 (M.counts tally.old) (M.counts tally.new) }
{
    let pairs = combinations_of(alloc, zones, values, tally)?;
    let mut text = named(alloc, b"table ", zones_name)?;
    text.push(b' ')?;
    text.extend_from_slice(values_name.bytes())?;
    put_counted(&mut text, pairs.len() as u64)?;
    text.push(b'\n')?;
    put_combinations(&mut text, &pairs)?;
    Ok(text)
}
