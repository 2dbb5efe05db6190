//! The labels of regions within bands of rows.
ghost use Rattle.std.specs.Prelude.{◌≡◌, ℕ, ◌<◌, ◌≤◌, length, map, IfOk};
ghost use Rattle.map_nums.specs.Grids.{cell_at, cells_in};
ghost use Rattle.region_labels.specs.Provisional.{IsLabelBand};
ghost use Rattle.region_labels.specs.Moves.{moved_label, IsUpTo};

use crate::first::labels_of;
use crate::kept::Label;
use layer_tiles::{Cell, Extent, NoMemory};
use std::alloc::Global;

/// The labels of the regions within some rows of a map, by walks that stay in them: the number, from 1, of the first place on the
/// map of each.
#[derive(Drop)]
pub struct LabelBand {
    /// The first row.
    pub(crate) first: u32,
    pub(crate) labels: Vec<Label>,
    /// How many places have a label.
    pub(crate) count: u64,
}

/// A label of a place that lies `by` places further on the map than it was numbered.
fn moved_label(label: Label, by: u32) -> Label
    requires { IsUpTo by label }
    ensures { result ≡ moved_label by label }
{
    match label.get() {
        Some(number) => Label::of(number as u32 - 1 + by),
        None => label,
    }
}

/// Moves each label `by` places.
fn move_labels(labels: &mut [Label], by: u32)
    requires { (k : ℕ) → k < length labels.old → IsUpTo by (cell_at labels.old k) }
    ensures { labels.new ≡ map (moved_label by) labels.old }
{
    for k in 0..labels.len() {
        labels[k] = moved_label(labels[k], by);
    }
}

/// The labels of the regions within the rows from `first` to before `end`.
pub fn labels_of_band(
    alloc: Global,
    extent: Extent,
    cells: &[Cell],
    first: u32,
    end: u32,
) -> Result<LabelBand, NoMemory>
    requires count { length cells.now ≡ cells_in extent }
    requires some { first < end }
    requires within { end ≤ extent.rows }
    ensures { IfOk result (IsLabelBand extent cells.now first end) }
{
    let columns = extent.columns();
    let start = first * columns;
    let stop = end * columns;
    let Some(band) = Extent::new(end - first, columns) else {
        unreachable!()
    };
    let rows = &cells[start as usize..stop as usize];
    let (mut labels, count) = labels_of(alloc, band, rows)?;
    move_labels(&mut labels, start);
    Ok(LabelBand {
        first,
        labels,
        count,
    })
}
