//! The labels of regions on a map that had none, in bands of rows.
ghost use Rattle.std.specs.Prelude.{◌≡◌, ℕ, suc, ◌<◌, ◌≤◌, length, Some, slice_get, IfOk};
ghost use Rattle.map_nums.specs.Grids.{cells_in};
ghost use Rattle.region_labels.specs.Provisional.{IsLabelBand, IsLabelList};
ghost use Rattle.region_labels.specs.declared.bands.LabelBand.{LabelBand};
ghost use Rattle.op_jobs.specs.Grounds.{IsLabels};
ghost use Rattle.op_jobs.specs.Parts.{part_start};
ghost use Rattle.op_jobs.specs.declared.ground.Part.{Part};

use crate::ground::Part;
use crate::kinds::all_of;
use crate::parts::part_start;
use layer_tiles::{Cell, Extent};
use map_nums::NoMemory;
use region_labels::{LabelBand, ProvisionalLabels, labels_of_band, labels_of_bands};
use std::alloc::Global;

/// The labels of the regions within one of so many bands.
pub(crate) fn find_labels(
    alloc: Global,
    extent: Extent,
    cells: &[Cell],
    count: u64,
    k: u64,
) -> Result<LabelBand, NoMemory>
    requires cells { length cells.now ≡ cells_in extent }
    requires few { count ≤ extent.rows }
    requires below { k < count }
    ensures { IfOk result (IsLabelBand extent cells.now (part_start extent.rows count k) (part_start extent.rows count (suc k))) }
{
    let rows = extent.rows();
    let parts = count as u32;
    let first = part_start(rows, parts, k);
    let end = part_start(rows, parts, k + 1);
    labels_of_band(alloc, extent, cells, first, end)
}

/// The labels of a map that had none, from those of its bands.
pub(crate) fn labels_by(
    alloc: Global,
    extent: Extent,
    cells: &[Cell],
    parts: Vec<Part>,
) -> Result<ProvisionalLabels, NoMemory>
    requires count { length cells.now ≡ cells_in extent }
    requires some { 0 < length parts.items }
    requires each { (k : ℕ) (p : Part) → slice_get parts.items k ≡ Some p → IsLabels extent cells.now (length parts.items) k p }
    ensures { IfOk result (IsLabelList extent cells.now) }
{
    let bands = all_of::<LabelBand>(alloc, parts)?;
    labels_of_bands(alloc, extent, cells, &bands)
}
