//! Labels of regions.
ghost use Rattle.std.specs.Prelude.{◌≡◌, ◌<◌, ◌≤◌, ◌+◌, ◌-◌, ◌*◌, suc, length, OnOk, OnErr, Some, pos, ℕ, ℤ};
ghost use Rattle.std.specs.List.{All};
ghost use Rattle.map_nums.specs.Grids.{IsSize, cells_in, cell_at, row_of, gap};
ghost use Rattle.layer_tiles.specs.Tallies.{RisesBy};
ghost use Rattle.tile_work.specs.Working.{IsSameWork, copies};
ghost use Rattle.region_labels.specs.Flood.{is_marked, marks_in, Holds, IsJoined};
ghost use Rattle.region_labels.specs.Touched.{IsMarkedFor, IsReachedFrom};
ghost use Rattle.region_labels.specs.Copies.{IsCopiedAmong, CopiesWith};
ghost use Rattle.region_labels.specs.Repairs.{IsLabelled, IsLabelStep, IsHandled, IsRowHandled, AreHandledRound};

use crate::floods::{Flood, reach_region};
use layer_tiles::{Cell, Change, NoMemory, Tally, Value};
use tile_work::Working;

/// The least of some places.
fn least(found: &[u32]) -> u32
    requires { 0 < length found.now }
    ensures held { Holds found.now result }
    ensures least { (j : ℕ) → Holds found.now j → result ≤ j }
{
    let mut least = found[0];
    for at in found {
        least = least.min(*at);
    }
    least
}

/// The label of a region that begins at a place.
pub fn label_of(first: u32) -> Cell
    requires { first < 1500000 }
    ensures { result ≡ Some (pos (suc first)) }
{
    match Cell::of(first as Value + 1) {
        Some(cell) => cell,
        None => unreachable!(),
    }
}

/// Puts a label on places.
fn write_label<M: Tally>(
    found: &[u32],
    label: Cell,
    labels: &mut Working<'_>,
    tally: &mut M,
) -> Result<(), NoMemory>
    requires within { All (λ at. at < cells_in labels.old.size) found.now }
    ensures same { IsSameWork labels.old labels.new }
    ensures ok { OnOk result (IsLabelled found.now label labels.old.cells labels.new.cells) }
    ensures more { copies labels.old.copied ≤ copies labels.new.copied }
    ensures copied { IsCopiedAmong labels.old.size found.now label labels.old.cells labels.old.copied labels.new.copied }
    ensures tally { OnOk result (RisesBy (copies labels.new.copied - copies labels.old.copied) (length found.now) (M.counts tally.old) (M.counts tally.new)) }
    ensures wanted { OnErr result (RisesBy (copies labels.new.copied - copies labels.old.copied + 1) (length found.now) (M.counts tally.old) (M.counts tally.new)) }
{
    for at in found {
        labels.put(*at, label, tally)?;
    }
    Ok(())
}

/// Labels the region of a place, where that was not done.
pub fn label_region<M: Tally>(
    of: &Change<'_>,
    at: u32,
    flood: &mut Flood,
    labels: &mut Working<'_>,
    tally: &mut M,
) -> Result<(), NoMemory>
    requires within { at < cells_in of.now.size }
    requires extent { flood.old.size ≡ of.now.size }
    requires marks { length flood.old.marks ≡ cells_in of.now.size }
    requires size { labels.old.size ≡ of.now.size }
    ensures same { IsSameWork labels.old labels.new }
    ensures extent { flood.new.size ≡ flood.old.size }
    ensures ok { OnOk result (IsLabelStep of.now.size of.now.cells labels.old.cells flood.old.marks labels.new.cells flood.new.marks) }
    ensures caused { IsMarkedFor (λ i. (z : ℤ) × IsJoined of.now.size of.now.cells z at i) flood.old.marks flood.new.marks }
    ensures grows { marks_in flood.old.marks ≤ marks_in flood.new.marks }
    ensures copied { CopiesWith of.now.size of.now.cells labels.old.cells flood.old.marks labels.old.copied labels.new.copied }
    ensures handled { OnOk result (IsHandled of.now.cells flood.new.marks at) }
    ensures more { copies labels.old.copied ≤ copies labels.new.copied }
    ensures picks { OnOk result (RisesBy (copies labels.new.copied - copies labels.old.copied) (1 + 10 * (marks_in flood.new.marks - marks_in flood.old.marks)) (M.counts tally.old) (M.counts tally.new)) }
    ensures wanted { OnErr result (RisesBy (copies labels.new.copied - copies labels.old.copied + 1) (1 + 10 * (marks_in flood.new.marks - marks_in flood.old.marks)) (M.counts tally.old) (M.counts tally.new)) }
{
    let _extent = of.extent();
    if flood.has(at) {
        return Ok(());
    }
    let value = of.cell(at, tally);
    if value.get().is_none() {
        return Ok(());
    }
    reach_region(of, value, at, flood, tally)?;
    let label = label_of(least(flood.found()));
    write_label(flood.found(), label, labels, tally)
}

/// Labels the regions of the places of a row next to a place.
fn label_row<M: Tally>(
    of: &Change<'_>,
    from: u32,
    row: u32,
    flood: &mut Flood,
    labels: &mut Working<'_>,
    tally: &mut M,
) -> Result<(), NoMemory>
    requires within { from < cells_in of.now.size }
    requires row { row < of.now.size.rows }
    requires close { gap (row_of of.now.size from) row ≤ 1 }
    requires extent { flood.old.size ≡ of.now.size }
    requires marks { length flood.old.marks ≡ cells_in of.now.size }
    requires size { labels.old.size ≡ of.now.size }
    ensures same { IsSameWork labels.old labels.new }
    ensures extent { flood.new.size ≡ flood.old.size }
    ensures ok { OnOk result (IsLabelStep of.now.size of.now.cells labels.old.cells flood.old.marks labels.new.cells flood.new.marks) }
    ensures caused { IsMarkedFor (IsReachedFrom of.now.size of.now.cells from) flood.old.marks flood.new.marks }
    ensures grows { marks_in flood.old.marks ≤ marks_in flood.new.marks }
    ensures copied { CopiesWith of.now.size of.now.cells labels.old.cells flood.old.marks labels.old.copied labels.new.copied }
    ensures handled { OnOk result (IsRowHandled of.now.size of.now.cells from row flood.new.marks) }
    ensures more { copies labels.old.copied ≤ copies labels.new.copied }
    ensures picks { OnOk result (RisesBy (copies labels.new.copied - copies labels.old.copied) (3 + 10 * (marks_in flood.new.marks - marks_in flood.old.marks)) (M.counts tally.old) (M.counts tally.new)) }
    ensures wanted { OnErr result (RisesBy (copies labels.new.copied - copies labels.old.copied + 1) (3 + 10 * (marks_in flood.new.marks - marks_in flood.old.marks)) (M.counts tally.old) (M.counts tally.new)) }
{
    let extent = of.extent();
    let columns = extent.columns();
    let column = extent.column_of(from);
    let low = column.saturating_sub(1);
    let high = (column + 2).min(columns);
    for c in low..high {
        label_region(of, row * columns + c, flood, labels, tally)?;
    }
    Ok(())
}

/// Labels the regions of a place and of its neighbours.
pub fn label_round<M: Tally>(
    of: &Change<'_>,
    from: u32,
    flood: &mut Flood,
    labels: &mut Working<'_>,
    tally: &mut M,
) -> Result<(), NoMemory>
    requires within { from < cells_in of.now.size }
    requires extent { flood.old.size ≡ of.now.size }
    requires marks { length flood.old.marks ≡ cells_in of.now.size }
    requires size { labels.old.size ≡ of.now.size }
    ensures same { IsSameWork labels.old labels.new }
    ensures extent { flood.new.size ≡ flood.old.size }
    ensures ok { OnOk result (IsLabelStep of.now.size of.now.cells labels.old.cells flood.old.marks labels.new.cells flood.new.marks) }
    ensures caused { IsMarkedFor (IsReachedFrom of.now.size of.now.cells from) flood.old.marks flood.new.marks }
    ensures grows { marks_in flood.old.marks ≤ marks_in flood.new.marks }
    ensures copied { CopiesWith of.now.size of.now.cells labels.old.cells flood.old.marks labels.old.copied labels.new.copied }
    ensures handled { OnOk result (AreHandledRound of.now.size of.now.cells flood.new.marks from) }
    ensures more { copies labels.old.copied ≤ copies labels.new.copied }
    ensures picks { OnOk result (RisesBy (copies labels.new.copied - copies labels.old.copied) (9 + 10 * (marks_in flood.new.marks - marks_in flood.old.marks)) (M.counts tally.old) (M.counts tally.new)) }
    ensures wanted { OnErr result (RisesBy (copies labels.new.copied - copies labels.old.copied + 1) (9 + 10 * (marks_in flood.new.marks - marks_in flood.old.marks)) (M.counts tally.old) (M.counts tally.new)) }
{
    let extent = of.extent();
    let row = extent.row_of(from);
    let low = row.saturating_sub(1);
    let high = (row + 2).min(extent.rows());
    for r in low..high {
        label_row(of, from, r, flood, labels, tally)?;
    }
    Ok(())
}
