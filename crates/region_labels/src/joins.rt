//! Regions that are joined where bands of rows meet.
ghost use Rattle.std.specs.Prelude.{◌≡◌, ◌<◌, ◌≤◌, ◌+◌, ◌*◌, ◌++◌, ℕ, ℤ, true, length, IfOk, OnOk};
ghost use Rattle.std.specs.List.{All};
ghost use Rattle.map_nums.specs.Grids.{cells_in, is_neighbour};
ghost use Rattle.map_defs.specs.Regions.{Has};
ghost use Rattle.region_labels.specs.Lists.{labelled};
ghost use Rattle.region_labels.specs.Roots.{root_in};
ghost use Rattle.region_labels.specs.Provisional.{AreProvisional, AreTied, IsJoinStep, IsTiedTo, IsTiedAbove, IsLabelBand, AreLabelBands, IsLabelList};

use crate::bands::LabelBand;
use crate::kept::Label;
use crate::roots::{root_of, told};
use crate::shows::ProvisionalLabels;
use layer_tiles::{Cell, Extent, NoMemory};
use std::alloc::Global;

/// Makes the labels of two places of one region lead to one place, if they don't.
fn join(extent: Extent, cells: &[Cell], one: u32, other: u32, labels: &mut [Label])
    requires few { length labels.old ≤ cells_in extent }
    requires provisional { AreProvisional extent cells.now labels.old }
    requires one { one < length labels.old }
    requires other { other < length labels.old }
    requires region { (z : ℤ) × Has extent cells.now z one × Has extent cells.now z other × (is_neighbour extent one other ≡ true) }
    ensures step { IsJoinStep extent cells.now labels.old labels.new }
    ensures tied { root_in labels.new one ≡ root_in labels.new other }
{
    let _cells = extent.cells();
    let a = root_of(labels, one);
    let b = root_of(labels, other);
    labels[a.max(b) as usize] = Label::of(a.min(b));
}

/// Joins a place with one of the row above it, if both have one number.
fn join_pair(extent: Extent, cells: &[Cell], above: u32, at: u32, labels: &mut [Label])
    requires count { length cells.now ≡ cells_in extent }
    requires few { length labels.old ≤ cells_in extent }
    requires provisional { AreProvisional extent cells.now labels.old }
    requires above { above < at }
    requires within { at < length labels.old }
    requires near { is_neighbour extent above at ≡ true }
    ensures step { IsJoinStep extent cells.now labels.old labels.new }
    ensures tied { IsTiedTo extent cells.now at labels.new above }
{
    let here = cells[at as usize];
    if here.get().is_some() && here.same(&cells[above as usize]) {
        join(extent, cells, above, at, labels);
    }
}

/// Joins the place of a row and a column with its neighbours in the row above.
fn join_above(extent: Extent, cells: &[Cell], row: u32, column: u32, labels: &mut [Label])
    requires count { length cells.now ≡ cells_in extent }
    requires few { length labels.old ≤ cells_in extent }
    requires provisional { AreProvisional extent cells.now labels.old }
    requires row { 0 < row }
    requires column { column < extent.columns }
    requires within { row * extent.columns + column < length labels.old }
    ensures step { IsJoinStep extent cells.now labels.old labels.new }
    ensures tied { IsTiedAbove extent cells.now (row * extent.columns + column) labels.new }
{
    let columns = extent.columns();
    let above = (row - 1) * columns;
    let low = column.saturating_sub(1);
    let high = (column + 2).min(columns);
    for c in low..high {
        join_pair(extent, cells, above + c, above + columns + column, labels);
    }
}

/// Joins the places of a row with those of the row above it.
fn join_row(extent: Extent, cells: &[Cell], row: u32, labels: &mut [Label])
    requires count { length cells.now ≡ cells_in extent }
    requires few { length labels.old ≤ cells_in extent }
    requires provisional { AreProvisional extent cells.now labels.old }
    requires row { 0 < row }
    requires within { (row + 1) * extent.columns ≤ length labels.old }
    ensures step { IsJoinStep extent cells.now labels.old labels.new }
    ensures tied { (c : ℕ) → c < extent.columns → IsTiedAbove extent cells.now (row * extent.columns + c) labels.new }
{
    for column in 0..extent.columns() {
        join_above(extent, cells, row, column, labels);
    }
}

/// Adds the labels of one more band, and joins its regions with those above it.
fn add_band(
    extent: Extent,
    cells: &[Cell],
    band: &LabelBand,
    labels: &mut Vec<Label>,
) -> Result<(), NoMemory>
    requires count { length cells.now ≡ cells_in extent }
    requires provisional { AreProvisional extent cells.now labels.old.items }
    requires tied { AreTied extent cells.now labels.old.items }
    requires rows { length labels.old.items ≡ band.now.first * extent.columns }
    requires band { (end : ℕ) × IsLabelBand extent cells.now band.now.first end band.now }
    ensures provisional { OnOk result (AreProvisional extent cells.now labels.new.items) }
    ensures tied { OnOk result (AreTied extent cells.now labels.new.items) }
    ensures marks { OnOk result (labelled labels.new.items ≡ labelled labels.old.items ++ labelled band.now.labels.items) }
{
    let _columns = extent.columns();
    labels.extend_from_slice(&band.labels)?;
    if band.first > 0 {
        join_row(extent, cells, band.first, labels);
    }
    Ok(())
}

/// Makes the label of a place tell the place to which it leads, at once.
fn shorten(extent: Extent, cells: &[Cell], at: u32, labels: &mut [Label])
    requires few { length labels.old ≤ cells_in extent }
    requires provisional { AreProvisional extent cells.now labels.old }
    requires within { at < length labels.old }
    ensures { IsJoinStep extent cells.now labels.old labels.new }
{
    let _cells = extent.cells();
    if labels[at as usize].get().is_some() {
        labels[at as usize] = Label::of(root_of(labels, at));
    }
}

/// Makes the labels of a row's places, and of those that they tell, tell the places to which they lead, at once.
fn shorten_row(extent: Extent, cells: &[Cell], row: u32, labels: &mut [Label])
    requires few { length labels.old ≤ cells_in extent }
    requires provisional { AreProvisional extent cells.now labels.old }
    requires within { (row + 1) * extent.columns ≤ length labels.old }
    ensures { IsJoinStep extent cells.now labels.old labels.new }
{
    let columns = extent.columns();
    for at in row * columns..(row + 1) * columns {
        let next = told(labels, at);
        shorten(extent, cells, next, labels);
        shorten(extent, cells, at, labels);
    }
}

/// Shortens the ways that labels lead from where bands meet: a region that winds through many bands may be joined place by place.
fn shorten_ways(extent: Extent, cells: &[Cell], bands: &[LabelBand], labels: &mut [Label])
    requires count { length labels.old ≡ cells_in extent }
    requires provisional { AreProvisional extent cells.now labels.old }
    requires bands { All (λ band. band.first < extent.rows) bands.now }
    ensures { IsJoinStep extent cells.now labels.old labels.new }
{
    for band in bands {
        if band.first > 0 {
            shorten_row(extent, cells, band.first - 1, labels);
            shorten_row(extent, cells, band.first, labels);
        }
    }
}

/// The labels of a map's regions, from those within its bands.
pub fn labels_of_bands(
    alloc: Global,
    extent: Extent,
    cells: &[Cell],
    bands: &[LabelBand],
) -> Result<ProvisionalLabels, NoMemory>
    requires count { length cells.now ≡ cells_in extent }
    requires bands { AreLabelBands extent cells.now 0 bands.now }
    ensures { IfOk result (IsLabelList extent cells.now) }
{
    let all = extent.cells();
    let mut labels = Vec::with_capacity(alloc, all as usize)?;
    let mut count = 0;
    for band in bands {
        add_band(extent, cells, band, &mut labels)?;
        count += band.count;
    }
    shorten_ways(extent, cells, bands, &mut labels);
    let worked = u64::from(all) + count;
    Ok(ProvisionalLabels { labels, worked })
}
