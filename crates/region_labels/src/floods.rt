//! A region that is reached place by place.
ghost use Rattle.std.specs.Prelude.{◌≡◌, ◌↔◌, ◌<◌, ◌≤◌, ◌+◌, ◌-◌, ◌*◌, ◌^◌, ◌++◌, ◌∷◌, [], length, replicate, false, true, slice_set, IfOk, OnOk, OnErr, IsTrue, IsSome, Some, ℕ, ℤ};
ghost use Rattle.map_nums.specs.Grids.{cells_in, cell_at, row_of, column_of, gap};
ghost use Rattle.layer_tiles.specs.Tallies.{RisesBy};
ghost use Rattle.region_labels.specs.Flood.{is_marked, marks_in, reached, IsGrown, IsRowMarked, IsAllMarked, IsFurther, IsAfter, IsFlooded, IsJoined};
ghost use Rattle.region_labels.specs.Touched.{IsMarkedFor};

use layer_tiles::{Cell, Change, Extent, NoMemory, Tally};
use std::alloc::Global;
use std::marker::Model;
use tile_work::PlaceSet;

/// The places that were reached so far, and those of the region in hand in the order in which they were reached.
#[derive(Drop)]
pub struct Flood {
    marks: PlaceSet,
    found: Vec<u32>,
    /// How many places were reached.
    count: u64,
}

impl Model for Flood {
    ghost use Rattle.region_labels.specs.Flood.{FloodState};

    ghost Value = { FloodState };

    ghost use Rattle.std.specs.Prelude.{◌≡◌};
    ghost use Rattle.region_labels.specs.Flood.{marks_in};

    ghost view = { λ f. record { size = f.marks.size; marks = f.marks.marks; found = f.found.items } };

    ghost invariant = { λ f. f.count ≡ marks_in f.marks.marks };
}

impl Flood {
    /// No place was reached.
    pub fn new(alloc: Global, extent: Extent) -> Result<Flood, NoMemory>
        ensures { IfOk result (λ flood. flood ≡ record { size = extent; marks = replicate (cells_in extent) false; found = [] }) }
    {
        Ok(Flood {
            marks: PlaceSet::new(alloc, extent)?,
            found: Vec::new(alloc),
            count: 0,
        })
    }

    /// Whether a place was reached.
    pub fn has(&self, at: u32) -> bool
        requires { at < cells_in self.now.size }
        ensures { result ≡ is_marked self.now.marks at }
    {
        self.marks.has(at)
    }

    /// Whether the place of a row and a column was reached.
    fn has_at(&self, row: u32, column: u32) -> bool
        requires row { row < self.now.size.rows }
        requires column { column < self.now.size.columns }
        ensures { result ≡ is_marked self.now.marks (row * self.now.size.columns + column) }
    {
        self.marks.has_at(row, column)
    }

    /// One more place of the region in hand.
    fn add(&mut self, at: u32) -> Result<(), NoMemory>
        requires within { at < cells_in self.old.size }
        requires new { is_marked self.old.marks at ≡ false }
        ensures ok { OnOk result (self.new ≡ record self.old { marks = slice_set self.old.marks at true; found = self.old.found ++ at ∷ [] }) }
        ensures err { OnErr result (self.new ≡ self.old) }
    {
        let _count = self.marks.extent().cells();
        self.found.reserve(1)?;
        self.marks.add(at)?;
        self.found.push(at)?;
        self.count += 1;
        Ok(())
    }

    /// Whether a place of the region in hand comes right after the one that was reached before it.
    fn is_after(&self, head: usize) -> bool
        requires { head < length self.now.found }
        ensures { IsTrue result ↔ IsAfter self.now.found head }
    {
        if head == 0 {
            return false;
        }
        self.found[head - 1] as u64 + 1 == self.found[head] as u64
    }

    /// A next region is in hand.
    fn clear(&mut self)
        ensures { self.new ≡ record self.old { found = [] } }
    {
        self.found.clear();
    }

    /// How many places were reached.
    pub fn count(&self) -> u64
        ensures { result ≡ marks_in self.now.marks }
    {
        self.count
    }

    /// The places of the region in hand.
    pub fn found(&self) -> &[u32]
        ensures { result.now ≡ self.now.found }
    {
        &self.found
    }
}

/// A place whose neighbours are reached, its column, and the first column of those that are.
#[derive(Clone, Copy)]
struct Front {
    at: u32,
    column: u32,
    low: u32,
}

/// Reaches the place of a row and a column where it was not reached and has the cell. At most one pick.
fn reach<M: Tally>(
    of: &Change<'_>,
    value: Cell,
    columns: u32,
    row: u32,
    column: u32,
    flood: &mut Flood,
    tally: &mut M,
) -> Result<(), NoMemory>
    requires columns { columns ≡ of.now.size.columns }
    requires row { row < of.now.size.rows }
    requires column { column < columns }
    requires extent { flood.old.size ≡ of.now.size }
    requires marks { length flood.old.marks ≡ cells_in of.now.size }
    ensures ok { OnOk result (flood.new ≡ reached of.now.cells value (row * columns + column) flood.old) }
    ensures err { OnErr result (flood.new ≡ flood.old) }
    ensures pick { RisesBy 0 1 (M.counts tally.old) (M.counts tally.new) }
{
    let _size = of.extent();
    if flood.has_at(row, column) {
        return Ok(());
    }
    let at = row * columns + column;
    if !of.cell(at, tally).same(&value) {
        return Ok(());
    }
    flood.add(at)
}

/// Reaches the places of a row next to the front, from its first column on. At most three picks.
fn reach_row<M: Tally>(
    of: &Change<'_>,
    value: Cell,
    from: &Front,
    row: u32,
    flood: &mut Flood,
    tally: &mut M,
) -> Result<(), NoMemory>
    requires within { from.now.at < cells_in of.now.size }
    requires row { row < of.now.size.rows }
    requires close { gap (row_of of.now.size from.now.at) row ≤ 1 }
    requires column { from.now.column ≡ column_of of.now.size from.now.at }
    requires least { from.now.column ≤ from.now.low + 1 }
    requires most { from.now.low ≤ from.now.column + 1 }
    requires extent { flood.old.size ≡ of.now.size }
    requires marks { length flood.old.marks ≡ cells_in of.now.size }
    ensures grown { IsGrown of.now.size of.now.cells value from.now.at flood.old flood.new }
    ensures near { OnOk result (IsRowMarked of.now.size of.now.cells value from.now.at row from.now.low flood.new.marks) }
    ensures picks { RisesBy 0 3 (M.counts tally.old) (M.counts tally.new) }
{
    let columns = of.extent().columns();
    let high = (from.column + 2).min(columns);
    for c in from.low..high {
        reach(of, value, columns, row, c, flood, tally)?;
    }
    Ok(())
}

/// The first column next to a place in this one whose places are to be reached; `after` where the place on its left was worked on.
fn first_column(column: u32, after: bool) -> u32
    requires { column < 2 ^ 31 }
    ensures least { column ≤ result + 1 }
    ensures most { result ≤ column + 1 }
    ensures further { (x : ℕ) → gap column x ≤ 1 → IsFurther after column x → result ≤ x }
{
    if after && column > 0 {
        return column + 1;
    }
    column.saturating_sub(1)
}

/// Reaches the neighbours of a place, but for those next to the place on its left where that was worked on (`after`). At
/// most nine picks.
fn reach_all<M: Tally>(
    of: &Change<'_>,
    value: Cell,
    from: u32,
    after: bool,
    flood: &mut Flood,
    tally: &mut M,
) -> Result<(), NoMemory>
    requires within { from < cells_in of.now.size }
    requires extent { flood.old.size ≡ of.now.size }
    requires marks { length flood.old.marks ≡ cells_in of.now.size }
    ensures grown { IsGrown of.now.size of.now.cells value from flood.old flood.new }
    ensures near { OnOk result (IsAllMarked of.now.size of.now.cells value from after flood.new.marks) }
    ensures picks { RisesBy 0 9 (M.counts tally.old) (M.counts tally.new) }
{
    let extent = of.extent();
    let row = extent.row_of(from);
    let column = extent.column_of(from);
    let front = Front {
        at: from,
        column,
        low: first_column(column, after),
    };
    let low = row.saturating_sub(1);
    let high = (row + 2).min(extent.rows());
    for r in low..high {
        reach_row(of, value, &front, r, flood, tally)?;
    }
    Ok(())
}

/// Reaches the region of a place that was not reached. Nine picks a place at most.
pub fn reach_region<M: Tally>(
    of: &Change<'_>,
    value: Cell,
    root: u32,
    flood: &mut Flood,
    tally: &mut M,
) -> Result<(), NoMemory>
    requires within { root < cells_in of.now.size }
    requires extent { flood.old.size ≡ of.now.size }
    requires marks { length flood.old.marks ≡ cells_in of.now.size }
    requires new { is_marked flood.old.marks root ≡ false }
    requires cell { cell_at of.now.cells root ≡ value }
    requires some { IsSome value }
    ensures extent { flood.new.size ≡ flood.old.size }
    ensures ok { OnOk result ((z : ℤ) → value ≡ Some z → IsFlooded of.now.size of.now.cells z root flood.old.marks flood.new) }
    ensures caused { (z : ℤ) → value ≡ Some z → IsMarkedFor (IsJoined of.now.size of.now.cells z root) flood.old.marks flood.new.marks }
    ensures grows { marks_in flood.old.marks ≤ marks_in flood.new.marks }
    ensures picks { RisesBy 0 (9 * (marks_in flood.new.marks - marks_in flood.old.marks)) (M.counts tally.old) (M.counts tally.new) }
{
    let _size = of.extent();
    flood.clear();
    flood.add(root)?;
    let mut head = 0;
    while head < flood.found().len() {
        let at = flood.found()[head];
        let after = flood.is_after(head);
        reach_all(of, value, at, after, flood, tally)?;
        head += 1;
    }
    Ok(())
}
