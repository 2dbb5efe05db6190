//! Statistics of zones before and after an edit.
ghost use Rattle.std.specs.Prelude.{◌≡◌, IfOk};

use crate::makers::{NULL, cell, layer_of};
use layer_tiles::{Change, Extent, Layer, NoMemory, Patch, Value};
use map_nums::Stat;
use map_outside::Counts;
use std::alloc::Global;
use std::process::Abort;
use std::test::Fail;
use zonal_totals::{Book, BookPatch};

/// The mean of a zone; none where there is none.
fn mean(alloc: Global, values: &Change<'_>, zones: &Change<'_>, zone: Value) -> Option<Value>
    requires { values.now.size ≡ zones.now.size }
{
    let book = Book::fresh(alloc, values, zones, &mut Counts::new()).ok()?;
    book.stat(Stat::Mean, zone).ok()?
}

#[test]
fn means_pass_over_null(rt: HostRuntime) -> Result<(), Fail> {
    let extent = Extent::new(1, 4).ok_or("limits")?;
    let layer = layer_of(rt.alloc(), extent, &[2, NULL, 4, NULL])?;
    let values = Change::same(&layer);
    let one = Change::constant(extent, cell(1));
    assert_eq!(rt; mean(rt.alloc(), &values, &one, 1), Some(3));
    let own = [
        mean(rt.alloc(), &values, &values, 2),
        mean(rt.alloc(), &values, &values, 4),
        mean(rt.alloc(), &values, &values, 1),
    ];
    assert_eq!(rt; own, [Some(2), Some(4), None]);
    Ok(())
}

/// A row of three tiles: 32 columns of zone 1, 32 of zone 2, and one of zone 1.
fn three_parts(alloc: Global) -> Result<Layer, Fail> {
    let extent = Extent::new(1, 65).ok_or("limits")?;
    let mut zones = Vec::new(alloc);
    for at in 0..65 {
        zones.push(if at >= 32 && at < 64 { 2 } else { 1 })?;
    }
    layer_of(alloc, extent, &zones)
}

/// A patch of a layer's first tile with another first cell.
fn first_cell(alloc: Global, layer: &Layer, value: Value) -> Result<Patch, NoMemory>
    ensures { IfOk result (λ patch. patch.size ≡ layer.now.size) }
{
    let extent = layer.extent();
    let mut patch = Patch::new(alloc, extent);
    if extent.tiles() == 0 {
        return Ok(patch);
    }
    let mut tile = layer.view(0, &mut Counts::new()).to_tile(alloc)?;
    let _some = tile.height();
    tile.set(0, 0, cell(value));
    let _block = tile.height();
    patch.push(0, tile)?;
    Ok(patch)
}

/// The book of ones in these zones, and what a patch of the zones makes of it.
fn with_ones(
    alloc: Global,
    zones: &Layer,
    patch: &Patch,
    tally: &mut Counts,
) -> Result<(Book, BookPatch), NoMemory>
    requires { patch.now.size ≡ zones.now.size }
    ensures { IfOk result (λ both. both.1.after.size ≡ both.0.size) }
{
    let ones = Change::constant(zones.extent(), cell(1));
    let book = Book::fresh(alloc, &ones, &Change::same(zones), &mut Counts::new())?;
    let after = book.changed(alloc, &ones, &Change::patched(zones, patch), tally)?;
    Ok((book, after))
}

/// The book of zones for their own values, and what a patch makes of it.
fn with_themselves(
    alloc: Global,
    zones: &Layer,
    patch: &Patch,
) -> Result<(Book, BookPatch), NoMemory>
    requires { patch.now.size ≡ zones.now.size }
    ensures { IfOk result (λ both. both.1.after.size ≡ both.0.size) }
{
    let same = Change::same(zones);
    let book = Book::fresh(alloc, &same, &same, &mut Counts::new())?;
    let patched = Change::patched(zones, patch);
    let after = book.changed(alloc, &patched, &patched, &mut Counts::new())?;
    Ok((book, after))
}

fn sum(book: &Book, zone: Value) -> Option<Value> {
    book.stat(Stat::Sum, zone).ok()?
}

fn sum_after(book: &Book, patch: &BookPatch, zone: Value) -> Option<Value>
    requires { patch.now.after.size ≡ book.now.size }
{
    book.stat_after(patch, Stat::Sum, zone).ok()?
}

fn variety(book: &Book, zone: Value) -> Option<Value> {
    book.stat(Stat::Variety, zone).ok()?
}

fn variety_after(book: &Book, patch: &BookPatch, zone: Value) -> Option<Value>
    requires { patch.now.after.size ≡ book.now.size }
{
    book.stat_after(patch, Stat::Variety, zone).ok()?
}

/// The first three tiles of a zone after a patch.
fn tiles_after(book: &Book, patch: &BookPatch, zone: Value) -> [Option<u32>; 3]
    requires { patch.now.after.size ≡ book.now.size }
{
    [
        book.zone_tile_after(patch, zone, 0),
        book.zone_tile_after(patch, zone, 1),
        book.zone_tile_after(patch, zone, 2),
    ]
}

/// The first three zones for which a count differs.
fn changed_zones(patch: &BookPatch) -> [Option<Value>; 3] {
    [patch.zone(0), patch.zone(1), patch.zone(2)]
}

/// A zone of a book has this sum, after a patch that sum, and then lies in these tiles.
fn has_sums(
    rt: &impl Abort,
    book: &Book,
    patch: &BookPatch,
    zone: Value,
    sums: [Value; 2],
    tiles: [Option<u32>; 3],
)
    requires { patch.now.after.size ≡ book.now.size }
{
    let found = [sum(book, zone), sum_after(book, patch, zone)];
    assert_eq!(rt; found, [Some(sums[0]), Some(sums[1])]);
    assert_eq!(rt; tiles_after(book, patch, zone), tiles);
}

/// One cell of zone 1 in a book of ones became one of zone 2.
fn moves(rt: &impl Abort, book: &Book, patch: &BookPatch)
    requires { patch.now.after.size ≡ book.now.size }
{
    assert_eq!(rt; changed_zones(patch), [Some(1), Some(2), None]);
    has_sums(rt, book, patch, 1, [33, 32], [Some(0), Some(2), None]);
    has_sums(rt, book, patch, 2, [32, 33], [Some(0), Some(1), None]);
}

#[test]
fn a_cell_changes_its_zone(rt: HostRuntime) -> Result<(), Fail> {
    let zones = three_parts(rt.alloc())?;
    let patch = first_cell(rt.alloc(), &zones, 2)?;
    let mut tally = Counts::new();
    let (book, after) = with_ones(rt.alloc(), &zones, &patch, &mut tally)?;
    moves(&rt, &book, &after);
    assert!(rt; tally.looks() <= 4 && tally.picks() == 0);
    Ok(())
}

/// Two zones have one value each, before and after a patch.
fn have_one_value(rt: &impl Abort, book: &Book, patch: &BookPatch)
    requires { patch.now.after.size ≡ book.now.size }
{
    assert_eq!(rt; [variety(book, 1), variety(book, 2)], [Some(1); 2]);
    let after = [variety_after(book, patch, 1), variety_after(book, patch, 2)];
    assert_eq!(rt; after, [Some(1); 2]);
}

#[test]
fn variety_stays(rt: HostRuntime) -> Result<(), Fail> {
    let zones = three_parts(rt.alloc())?;
    let patch = first_cell(rt.alloc(), &zones, 2)?;
    let (book, after) = with_themselves(rt.alloc(), &zones, &patch)?;
    have_one_value(&rt, &book, &after);
    Ok(())
}

/// A book takes its patch, and a copy from before keeps its sum.
fn takes(rt: &(impl AllocGlobal + Abort), book: &mut Book, patch: BookPatch) -> Result<(), Fail>
    requires { patch.after.size ≡ book.old.size }
{
    let before = book.copy(rt.alloc())?;
    book.commit(patch);
    assert_eq!(rt; [sum(&before, 1), sum(book, 1)], [Some(33), Some(32)]);
    Ok(())
}

#[test]
fn a_book_takes_its_patch(rt: HostRuntime) -> Result<(), Fail> {
    let zones = three_parts(rt.alloc())?;
    let patch = first_cell(rt.alloc(), &zones, 2)?;
    let (mut book, after) = with_ones(rt.alloc(), &zones, &patch, &mut Counts::new())?;
    takes(&rt, &mut book, after)
}
