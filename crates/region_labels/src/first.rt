//! The labels of a map that had none, from all its cells in one list. A region is reached from its first place, run by run: the
//! places that follow one another along a row are taken as one. Each place gets the label of the first at once: a label is the
//! mark that its place was reached.
ghost use Rattle.std.specs.Prelude.{◌≡◌, ◌<◌, ◌≤◌, ◌+◌, ◌*◌, ℕ, ℤ, false, length, filter, replicate, is_some, IsSome, Some, None, IfOk, OnOk};
ghost use Rattle.map_nums.specs.Grids.{cells_in, cell_at, places, row_of, column_of, gap};
ghost use Rattle.map_defs.specs.Regions.{AreRegions};
ghost use Rattle.region_labels.specs.Flood.{marks_in, IsGrown, IsFlooded};
ghost use Rattle.region_labels.specs.Repairs.{IsLabelStep, IsHandled};
ghost use Rattle.region_labels.specs.Lists.{labelled, flood_of, MayGet, AreHandledTo};
ghost use Rattle.region_labels.specs.Runs.{IsRunTo, IsClose, IsRunGrown, IsRunRow, IsRunRound};

use crate::kept::Label;
use crate::lists::LabelList;
use layer_tiles::{Cell, Extent, NoMemory};
use std::alloc::Global;

/// Places that follow one another along a row: the first, its column, and how many they are.
#[derive(Clone, Copy)]
struct Run {
    at: u32,
    column: u32,
    count: u32,
}

/// Labels the places of a row from place `at` on, to before place `end`, as long as they have no label and have the cell. The
/// place where it stopped.
fn reach_run(
    cells: &[Cell],
    value: Cell,
    label: Label,
    at: u32,
    end: u32,
    list: &mut LabelList,
) -> Result<u32, NoMemory>
    requires count { length cells.now ≡ cells_in list.old.size }
    requires label { IsSome label }
    requires some { at < end }
    requires within { end ≤ cells_in list.old.size }
    requires row { end ≤ (row_of list.old.size at + 1) * list.old.size.columns }
    ensures grown { (from : ℕ) → IsClose list.old.size from at → IsGrown list.old.size cells.now value from (flood_of list.old) (flood_of list.new) }
    ensures labels { MayGet label list.old.labels list.new.labels }
    ensures run { IfOk result (λ stop. IsRunTo cells.now value at end stop (labelled list.new.labels)) }
{
    let _size = list.extent();
    for j in at..end {
        if list.has(j) {
            return Ok(j);
        }
        if !cells[j as usize].same(&value) {
            return Ok(j);
        }
        list.add(j, label)?;
    }
    Ok(end)
}

/// Labels the places of a row next to one of a run, and those that follow along the row, where they have the cell.
fn reach_row(
    cells: &[Cell],
    value: Cell,
    label: Label,
    run: &Run,
    row: u32,
    list: &mut LabelList,
) -> Result<(), NoMemory>
    requires count { length cells.now ≡ cells_in list.old.size }
    requires label { IsSome label }
    requires within { run.now.at < cells_in list.old.size }
    requires column { run.now.column ≡ column_of list.old.size run.now.at }
    requires some { 0 < run.now.count }
    requires run { run.now.column + run.now.count ≤ list.old.size.columns }
    requires row { row < list.old.size.rows }
    requires close { gap (row_of list.old.size run.now.at) row ≤ 1 }
    ensures grown { IsRunGrown list.old.size cells.now value run.now.at run.now.count (flood_of list.old) (flood_of list.new) }
    ensures labels { MayGet label list.old.labels list.new.labels }
    ensures near { OnOk result (IsRunRow list.old.size cells.now value run.now.at run.now.count row (labelled list.new.labels)) }
{
    let columns = list.extent().columns();
    let start = row * columns;
    let end = start + columns;
    let high = start + (run.column + run.count + 1).min(columns);
    let mut next = list.bare_from(start + run.column.saturating_sub(1), high);
    while next < high {
        let past = reach_run(cells, value, label, next, end, list)? + 1;
        next = list.bare_from(past.min(high), high);
    }
    Ok(())
}

/// Labels the places next to one of `count` places of a row from place `at` on, and those that follow along their rows, where
/// they have the cell.
fn reach_round(
    cells: &[Cell],
    value: Cell,
    label: Label,
    at: u32,
    count: u32,
    list: &mut LabelList,
) -> Result<(), NoMemory>
    requires count { length cells.now ≡ cells_in list.old.size }
    requires label { IsSome label }
    requires within { at < cells_in list.old.size }
    requires some { 0 < count }
    requires run { column_of list.old.size at + count ≤ list.old.size.columns }
    ensures grown { IsRunGrown list.old.size cells.now value at count (flood_of list.old) (flood_of list.new) }
    ensures labels { MayGet label list.old.labels list.new.labels }
    ensures near { OnOk result (IsRunRound list.old.size cells.now value at count (labelled list.new.labels)) }
{
    let extent = list.extent();
    let row = extent.row_of(at);
    let run = Run {
        at,
        column: extent.column_of(at),
        count,
    };
    let low = row.saturating_sub(1);
    let high = (row + 2).min(extent.rows());
    for r in low..high {
        reach_row(cells, value, label, &run, r, list)?;
    }
    Ok(())
}

/// Labels the region of a place that has no label.
fn reach_region(
    cells: &[Cell],
    value: Cell,
    label: Label,
    root: u32,
    list: &mut LabelList,
) -> Result<(), NoMemory>
    requires count { length cells.now ≡ cells_in list.old.size }
    requires label { IsSome label }
    requires within { root < cells_in list.old.size }
    requires new { is_some (cell_at list.old.labels root) ≡ false }
    requires cell { cell_at cells.now root ≡ value }
    requires some { IsSome value }
    ensures extent { list.new.size ≡ list.old.size }
    ensures labels { MayGet label list.old.labels list.new.labels }
    ensures ok { OnOk result ((z : ℤ) → value ≡ Some z → IsFlooded list.old.size cells.now z root (labelled list.old.labels) (flood_of list.new)) }
{
    let extent = list.extent();
    list.clear();
    list.add(root, label)?;
    let mut head = 0;
    while head < list.found().len() {
        let at = list.found()[head];
        let count = list.run_from(head, extent.columns() - extent.column_of(at));
        reach_round(cells, value, label, at, count, list)?;
        head += count as usize;
    }
    Ok(())
}

/// Labels the region of a place, where it has none and those of all places before it were labelled. How many places got a label.
fn label_region(cells: &[Cell], at: u32, list: &mut LabelList) -> Result<u64, NoMemory>
    requires count { length cells.now ≡ cells_in list.old.size }
    requires within { at < cells_in list.old.size }
    requires before { AreHandledTo cells.now list.old.labels at }
    ensures extent { list.new.size ≡ list.old.size }
    ensures ok { IfOk result (λ n. IsLabelStep list.old.size cells.now list.old.labels (labelled list.old.labels) list.new.labels (labelled list.new.labels)) }
    ensures handled { IfOk result (λ n. IsHandled cells.now (labelled list.new.labels) at) }
    ensures count { IfOk result (λ n. marks_in (labelled list.new.labels) ≡ marks_in (labelled list.old.labels) + n) }
{
    let _size = list.extent();
    if list.has(at) {
        return Ok(0);
    }
    let value = cells[at as usize];
    if value.get().is_none() {
        return Ok(0);
    }
    reach_region(cells, value, Label::of(at), at, list)?;
    Ok(list.found().len() as u64)
}

/// Labels all regions. How many places have a label.
fn label_all(cells: &[Cell], list: &mut LabelList) -> Result<u64, NoMemory>
    requires count { length cells.now ≡ cells_in list.old.size }
    requires none { list.old.labels ≡ replicate (cells_in list.old.size) None }
    ensures regions { IfOk result (λ n. AreRegions list.old.size cells.now list.new.labels) }
    ensures count { IfOk result (λ n. n ≡ marks_in (labelled list.new.labels)) }
{
    let all = list.extent().cells();
    let mut count = 0;
    let mut at = list.bare_from(0, all);
    while at < all {
        count += label_region(cells, at, list)?;
        at = list.bare_from(at + 1, all);
    }
    Ok(count)
}

/// The labels of all places, and how many of them have one.
pub fn labels_of(
    alloc: Global,
    extent: Extent,
    cells: &[Cell],
) -> Result<(Vec<Label>, u64), NoMemory>
    requires { length cells.now ≡ cells_in extent }
    ensures regions { IfOk result (λ r. AreRegions extent cells.now r.0.items) }
    ensures count { IfOk result (λ r. r.1 ≡ length (filter (λ i. is_some (cell_at r.0.items i)) (places extent))) }
{
    let mut list = LabelList::new(alloc, extent)?;
    let count = label_all(cells, &mut list)?;
    Ok((list.into_labels(), count))
}
