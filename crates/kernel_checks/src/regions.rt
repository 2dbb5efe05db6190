//! Labels of regions, first and repaired.
ghost use Rattle.std.specs.Prelude.{◌≡◌, ◌<◌, IfOk};
ghost use Rattle.map_defs.specs.Regions.{AreRegions};
ghost use Rattle.layer_tiles.specs.Tiles.{tiles_in};

use crate::makers::{NULL, cell, layer_of, values_of};
use layer_tiles::{Cell, Change, Extent, Layer, NoMemory, Patch, Value};
use map_outside::Counts;
use region_labels::label_repair;
use std::alloc::Global;
use std::process::Abort;
use std::test::Fail;

/// The labels of a map that had none, and the work.
fn first_labels(alloc: Global, numbers: &Layer) -> Result<(Layer, u64), NoMemory>
    ensures size { IfOk result (λ r. r.0.size ≡ numbers.now.size) }
    ensures regions { IfOk result (λ r. AreRegions numbers.now.size numbers.now.cells r.0.cells) }
{
    let mut tally = Counts::new();
    let repair = label_repair(alloc, None, &Change::same(numbers), &mut tally)?;
    Ok((Layer::fresh(repair.patch, 1), repair.worked))
}

/// A patch of the first tile with another cell at a row and a column; none where it has no such place.
fn painted(
    alloc: Global,
    numbers: &Layer,
    row: u32,
    column: u32,
    other: Cell,
) -> Result<Patch, NoMemory>
    requires { 0 < tiles_in numbers.now.size }
    ensures { IfOk result (λ patch. patch.size ≡ numbers.now.size) }
{
    let mut tile = numbers.view(0, &mut Counts::new()).to_tile(alloc)?;
    let mut patch = Patch::new(alloc, numbers.extent());
    if row < tile.height() && column < tile.view().width() {
        tile.set(row, column, other);
        let _block = tile.height();
        patch.push(0, tile)?;
    }
    Ok(patch)
}

/// Puts labels right after a patch of their numbers, and tells the work.
fn repair(
    alloc: Global,
    numbers: &Layer,
    labels: &mut Layer,
    patch: &Patch,
) -> Result<u64, NoMemory>
    requires patch { patch.now.size ≡ numbers.now.size }
    requires labels { labels.old.size ≡ numbers.now.size }
    requires right { AreRegions numbers.now.size numbers.now.cells labels.old.cells }
{
    let mut tally = Counts::new();
    let change = Change::patched(numbers, patch);
    let repair = label_repair(alloc, Some(labels), &change, &mut tally)?;
    labels.commit(repair.patch, 2);
    Ok(repair.worked)
}

/// The labels of a layer are these, where null stands for none.
fn has(rt: &(impl AllocGlobal + Abort), labels: &Layer, want: &[Value]) -> Result<(), Fail> {
    let values = values_of(rt.alloc(), labels)?;
    let mut wanted = Vec::new(rt.alloc());
    for value in want {
        wanted.push(cell(*value).get())?;
    }
    assert_eq!(rt; values.as_slice(), wanted.as_slice());
    Ok(())
}

/// What is tried: these numbers have these labels, with this work, and where a cell becomes another, these labels with this work.
#[derive(Clone, Copy)]
struct Trial<'a> {
    numbers: &'a [Value],
    labels: &'a [Value],
    work: u64,
    row: u32,
    column: u32,
    other: Value,
    after: &'a [Value],
    repair: u64,
}

/// A change of the numbers has these labels.
fn repairs(
    rt: &(impl AllocGlobal + Abort),
    numbers: &Layer,
    labels: &mut Layer,
    trial: Trial<'_>,
) -> Result<(), Fail>
    requires some { 0 < tiles_in numbers.now.size }
    requires labels { labels.old.size ≡ numbers.now.size }
    requires right { AreRegions numbers.now.size numbers.now.cells labels.old.cells }
{
    let other = cell(trial.other);
    let patch = painted(rt.alloc(), numbers, trial.row, trial.column, other)?;
    let worked = repair(rt.alloc(), numbers, labels, &patch)?;
    assert_eq!(rt; worked, trial.repair);
    has(rt, labels, trial.after)
}

/// The numbers of a trial have its labels, before and after.
fn labels(rt: &(impl AllocGlobal + Abort), numbers: &Layer, trial: Trial<'_>) -> Result<(), Fail>
    requires { 0 < tiles_in numbers.now.size }
{
    let (mut labels, work) = first_labels(rt.alloc(), numbers)?;
    assert_eq!(rt; work, trial.work);
    has(rt, &labels, trial.labels)?;
    repairs(rt, numbers, &mut labels, trial)
}

/// Over so many rows and columns a trial has its labels, before and after.
fn tried(
    rt: &(impl AllocGlobal + Abort),
    rows: u32,
    columns: u32,
    trial: Trial<'_>,
) -> Result<(), Fail> {
    let extent = Extent::new(rows, columns).ok_or("limits")?;
    assert!(rt; 0 < extent.tiles());
    let numbers = layer_of(rt.alloc(), extent, trial.numbers)?;
    labels(rt, &numbers, trial)
}

#[test]
fn a_region_splits(rt: HostRuntime) -> Result<(), Fail> {
    let trial = Trial {
        numbers: &[7, 7, 7, 7, 7],
        labels: &[1, 1, 1, 1, 1],
        work: 10,
        row: 0,
        column: 2,
        other: 8,
        after: &[1, 1, 3, 4, 4],
        repair: 6,
    };
    tried(&rt, 1, 5, trial)
}

#[test]
fn corners_join_and_a_null_parts(rt: HostRuntime) -> Result<(), Fail> {
    let trial = Trial {
        numbers: &[5, NULL, 5, 5, NULL, 5, NULL, 6, 5, NULL, 6, 6],
        labels: &[1, NULL, 1, 1, NULL, 1, NULL, 8, 1, NULL, 8, 8],
        work: 20,
        row: 1,
        column: 1,
        other: NULL,
        after: &[1, NULL, 3, 3, NULL, NULL, NULL, 8, 9, NULL, 8, 8],
        repair: 8,
    };
    tried(&rt, 3, 4, trial)
}
