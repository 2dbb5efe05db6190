//! The places that the cells of some rows drain to.
ghost use Rattle.std.specs.Prelude.{◌≡◌, ◌+◌, ◌-◌, ◌*◌, ◌<◌, ◌≤◌, ◌∷◌, [], ℕ, length, slice_index, IfOk, OnOk};
ghost use Rattle.map_nums.specs.Grids.{Size, Cells, cells_in, near};
ghost use Rattle.map_defs.specs.Flow.{downstream_of};
ghost use Rattle.drainage_flow.specs.Steepest.{offset_at, AreAround};
ghost use Rattle.drainage_flow.specs.Around.{AreRowsRound};
ghost use Rattle.drainage_flow.specs.Bands.{AreDowns, AddsDowns, LeadOn};

use crate::neighbours::neighbour;
use crate::winners::{row_winner, winner};
use layer_tiles::{Cell, Extent};
use map_nums::NoMemory;
use std::alloc::Global;

/// The places to which the cells of rows `first` to before `end` drain, row by row.
///
/// # Errors
///
/// `NoMemory` alone.
pub(crate) fn downs_between(
    alloc: Global,
    extent: Extent,
    surface: &[Cell],
    first: u32,
    end: u32,
) -> Result<Vec<Option<u32>>, NoMemory>
    requires count { length surface.now ≡ cells_in extent }
    requires rows { first ≤ end }
    requires within { end ≤ extent.rows }
    ensures { IfOk result (λ downs. AreDowns extent surface.now (first * extent.columns) ((end - first) * extent.columns) downs.items) }
{
    let count = (end - first) * extent.columns();
    let mut downs = Vec::with_capacity(alloc, count as usize)?;
    for row in first..end {
        add_row(extent, surface, row, &mut downs)?;
    }
    Ok(downs)
}

/// Adds the places that the cells of a row drain to.
fn add_row(
    extent: Extent,
    surface: &[Cell],
    row: u32,
    downs: &mut Vec<Option<u32>>,
) -> Result<(), NoMemory>
    requires count { length surface.now ≡ cells_in extent }
    requires row { row < extent.rows }
    ensures { OnOk result (AddsDowns extent surface.now (row * extent.columns) extent.columns downs.old.items downs.new.items) }
{
    let columns = extent.columns();
    let start = row * columns;
    if row == 0 || row + 1 == extent.rows() || columns == 1 {
        return add_edge(extent, surface, start, columns, downs);
    }
    add_edge(extent, surface, start, 1, downs)?;
    add_inner(extent, surface, row, downs)?;
    add_edge(extent, surface, start + columns - 1, 1, downs)
}

/// Adds the places that some cells drain to, from one on.
fn add_edge(
    extent: Extent,
    surface: &[Cell],
    at: u32,
    count: u32,
    downs: &mut Vec<Option<u32>>,
) -> Result<(), NoMemory>
    requires count { length surface.now ≡ cells_in extent }
    requires within { at + count ≤ cells_in extent }
    ensures { OnOk result (AddsDowns extent surface.now at count downs.old.items downs.new.items) }
{
    let _cells = extent.cells();
    for k in 0..count {
        downs.push(down_of(extent, surface, at + k))?;
    }
    Ok(())
}

/// One of the cells round one, null off the map.
fn near_in(extent: Extent, surface: &[Cell], at: u32, k: u8) -> Cell
    requires count { length surface.now ≡ cells_in extent }
    requires within { at < cells_in extent }
    requires few { k < 8 }
    ensures { result ≡ near extent surface.now at (offset_at k) }
{
    match neighbour(extent, at, k) {
        Some(next) => surface[next as usize],
        None => Cell::null(),
    }
}

/// The cells round one.
fn around_in(extent: Extent, surface: &[Cell], at: u32) -> [Cell; 8]
    requires count { length surface.now ≡ cells_in extent }
    requires within { at < cells_in extent }
    ensures { AreAround extent surface.now at result }
{
    let mut around = [Cell::null(); 8];
    for k in 0..8u8 {
        around[k as usize] = near_in(extent, surface, at, k);
    }
    around
}

/// The place that a cell drains to.
fn down_of(extent: Extent, surface: &[Cell], at: u32) -> Option<u32>
    requires count { length surface.now ≡ cells_in extent }
    requires within { at < cells_in extent }
    ensures { result ≡ downstream_of extent surface.now at }
{
    let Some(here) = surface[at as usize].get() else {
        return None;
    };
    let around = around_in(extent, surface, at);
    let Some(k) = winner(here, &around) else {
        return None;
    };
    neighbour(extent, at, k)
}

/// Adds the places that the cells of a row but its first and its last drain to. There are rows above and below it.
fn add_inner(
    extent: Extent,
    surface: &[Cell],
    row: u32,
    downs: &mut Vec<Option<u32>>,
) -> Result<(), NoMemory>
    requires count { length surface.now ≡ cells_in extent }
    requires above { 0 < row }
    requires below { row + 1 < extent.rows }
    requires wide { 1 < extent.columns }
    ensures { OnOk result (AddsDowns extent surface.now (row * extent.columns + 1) (extent.columns - 2) downs.old.items downs.new.items) }
{
    let columns = extent.columns();
    let start = row * columns;
    let steps = steps(columns, start);
    let (first, width) = (start as usize, columns as usize);
    let above = &surface[first - width..first];
    let here = &surface[first..first + width];
    let below = &surface[first + width..first + 2 * width];
    for left in 0..columns - 2 {
        downs.push(inner_down(above, here, below, left, &steps))?;
    }
    Ok(())
}

/// Where the eight neighbours lie of the second cell of a row that begins at `start`; those of the cells after it lie as
/// much further.
fn steps(columns: u32, start: u32) -> [u32; 8]
    requires above { columns ≤ start }
    requires below { start + columns + 2 < 4294967296 }
    ensures { result ≡ (start - columns + 1) ∷ (start - columns + 2) ∷ (start + 2) ∷ (start + columns + 2) ∷ (start + columns + 1) ∷ (start + columns) ∷ start ∷ (start - columns) ∷ [] }
{
    let above = start - columns;
    let below = start + columns;
    [
        above + 1,
        above + 2,
        start + 2,
        below + 2,
        below + 1,
        below,
        start,
        above,
    ]
}

/// The place that the cell in the middle of three rows drains to, whose neighbours begin in column `left`.
fn inner_down(
    above: &[Cell],
    here: &[Cell],
    below: &[Cell],
    left: u32,
    steps: &[u32; 8],
) -> Option<u32>
    requires above { left + 2 < length above.now }
    requires here { left + 2 < length here.now }
    requires below { left + 2 < length below.now }
    requires fits { (k : ℕ) → k < 8 → slice_index steps.now k + left < 4294967296 }
    ensures { (s : Size) (surface : Cells) (i : ℕ) → AreRowsRound s surface i above.now here.now below.now left → LeadOn s i left steps.now → result ≡ downstream_of s surface i }
{
    match row_winner(above, here, below, left as usize) {
        Some(k) => Some(steps[k as usize] + left),
        None => None,
    }
}
