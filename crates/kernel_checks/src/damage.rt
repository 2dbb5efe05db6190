//! Sets of tiles, and the tiles that a changed cell reaches.
ghost use Rattle.std.specs.Prelude.{◌≡◌, ◌≤◌, IfOk};
ghost use Rattle.damage_sets.specs.Classes.{reach_of};

use crate::layers::patch_of;
use crate::makers::{layer_of, numbers, patch_with};
use damage_sets::{Class, TileSet, count_any, damaged};
use layer_tiles::{Change, Extent, Layer, NoMemory, Operands, Patch};
use map_outside::Counts;
use std::alloc::Global;
use std::process::Abort;
use std::test::Fail;

/// Of each tile, whether a set has it.
fn marks_of(alloc: Global, set: &TileSet) -> Result<Vec<bool>, NoMemory> {
    let mut marks = Vec::new(alloc);
    for tile in 0..set.extent().tiles() {
        marks.push(set.has(tile))?;
    }
    Ok(marks)
}

/// A set has these of four tiles.
fn has(rt: &(impl AllocGlobal + Abort), set: &TileSet, want: [bool; 4]) -> Result<(), Fail> {
    let marks = marks_of(rt.alloc(), set)?;
    assert_eq!(rt; marks.as_slice(), want.as_slice());
    Ok(())
}

#[test]
fn sets_of_tiles(rt: HostRuntime) -> Result<(), Fail> {
    let extent = Extent::new(33, 33).ok_or("limits")?;
    assert!(rt; 3 < extent.tiles());
    let mut set = TileSet::new(rt.alloc(), extent)?;
    has(&rt, &set, [false; 4])?;
    set.add(2);
    set.add(2);
    assert_eq!(rt; set.count(), 1);
    has(&rt, &set, [false, false, true, false])
}

#[test]
fn the_set_of_all_tiles(rt: HostRuntime) -> Result<(), Fail> {
    let all = TileSet::all(rt.alloc(), Extent::new(33, 33).ok_or("limits")?)?;
    assert_eq!(rt; all.count(), 4);
    has(&rt, &all, [true; 4])
}

#[test]
fn tiles_of_a_set_and_patches(rt: HostRuntime) -> Result<(), Fail> {
    let extent = Extent::new(33, 33).ok_or("limits")?;
    assert!(rt; 3 < extent.tiles());
    let patch = patch_of(rt.alloc(), extent, 0, 1, 2, 1)?;
    let mut set = TileSet::new(rt.alloc(), extent)?;
    set.add(2);
    set.add(3);
    assert_eq!(rt; count_any(&set, &patch, None), 3);
    assert_eq!(rt; count_any(&set, &patch, Some(&patch)), 3);
    Ok(())
}

/// The tiles that the changed cells of one operand reach.
fn reached(alloc: Global, layer: &Layer, patch: &Patch, class: Class) -> Result<Vec<bool>, NoMemory>
    requires size { patch.now.size ≡ layer.now.size }
    requires reach { reach_of class ≤ 64 }
{
    let mut operands = Operands::new();
    operands.push(Change::patched(layer, patch));
    let set = damaged(alloc, class, &operands, &mut Counts::new())?;
    marks_of(alloc, &set)
}

/// Of 33 rows and columns, the tiles that a change of the cell at a place reaches.
fn reached_from(alloc: Global, at: usize, class: Class) -> Result<Vec<bool>, Fail>
    requires { reach_of class ≤ 64 }
{
    let extent = Extent::new(33, 33).ok_or("limits")?;
    let mut values = numbers();
    let layer = layer_of(alloc, extent, &values)?;
    if at < values.len() {
        values[at] = -1;
    }
    let patch = patch_with(alloc, extent, &values)?;
    Ok(reached(alloc, &layer, &patch, class)?)
}

#[test]
fn a_changed_cell_reaches_tiles(rt: HostRuntime) -> Result<(), Fail> {
    let corner = 31 * 33 + 31;
    for (at, class, wanted) in [
        (corner, Class::Cells, [true, false, false, false]),
        (corner, Class::Square(1), [true, true, true, true]),
        (31, Class::Square(1), [true, true, false, false]),
        (31 * 33, Class::Square(1), [true, false, true, false]),
        (0, Class::Square(31), [true, false, false, false]),
        (0, Class::Square(32), [true, true, true, true]),
    ] {
        let marks = reached_from(rt.alloc(), at, class)?;
        assert_eq!(rt; marks.as_slice(), wanted.as_slice(), "{at}");
    }
    Ok(())
}
