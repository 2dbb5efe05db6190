//! The tiles that one operand's changed cells reach.
ghost use Rattle.std.specs.Prelude.{◌≡◌, ◌+◌, ◌*◌, ◌<◌, ◌≤◌, length, IsSome};
ghost use Rattle.layer_tiles.specs.Tiles.{tiles_in};
ghost use Rattle.layer_tiles.specs.Tallies.{RisesBy, looked};
ghost use Rattle.damage_sets.specs.Seen.{IsChangedIn, IsChangedOf, IsChangedCell};
ghost use Rattle.damage_sets.specs.Widened.{IsWidened};

use crate::sets::TileSet;
use layer_tiles::{Cell, Change, Tally, same_cells};

/// Adds the tiles that the changed cells of an operand reach. Two looks at each tile that its patch holds.
pub(crate) fn add_changed<M: Tally>(
    change: &Change<'_>,
    reach: u32,
    set: &mut TileSet,
    tally: &mut M,
)
    requires there { IsSome change.now.before }
    requires size { set.old.size ≡ change.now.size }
    requires reach { reach ≤ 64 }
    ensures size { set.new.size ≡ set.old.size }
    ensures marks { IsWidened change.now.size reach (IsChangedCell change.now) set.old.marks set.new.marks }
    ensures looks { RisesBy (2 * length change.now.touched) 0 (M.counts tally.old) (M.counts tally.new) }
{
    let extent = change.extent();
    let _tiles = extent.tiles();
    let mut from = 0;
    while let Some(tile) = change.next_touched(from) {
        add_tile(change, tile, reach, set, tally);
        from = tile + 1;
    }
}

/// Adds the tiles that the changed cells of a tile of an operand reach. Two looks.
fn add_tile<M: Tally>(change: &Change<'_>, tile: u32, reach: u32, set: &mut TileSet, tally: &mut M)
    requires there { IsSome change.now.before }
    requires size { set.old.size ≡ change.now.size }
    requires within { tile < tiles_in change.now.size }
    requires reach { reach ≤ 64 }
    ensures size { set.new.size ≡ set.old.size }
    ensures marks { IsWidened change.now.size reach (IsChangedOf change.now tile) set.old.marks set.new.marks }
    ensures looks { M.counts tally.new ≡ looked 2 (M.counts tally.old) }
{
    let extent = change.extent();
    let place = extent.place(tile);
    let before = change.view_before(tile, tally);
    let after = change.view(tile, tally);
    for r in 0..place.height {
        add_row(
            set,
            place.top + r,
            place.left,
            before.row(r),
            after.row(r),
            reach,
        );
    }
}

/// Adds the tiles that the changed cells of a row of a tile reach.
fn add_row(set: &mut TileSet, row: u32, left: u32, before: &[Cell], after: &[Cell], reach: u32)
    requires row { row < set.old.size.rows }
    requires columns { left + length before.now ≤ set.old.size.columns }
    requires same_length { length after.now ≡ length before.now }
    requires reach { reach ≤ 64 }
    ensures size { set.new.size ≡ set.old.size }
    ensures marks { IsWidened set.old.size reach (IsChangedIn set.old.size row left before.now after.now (length before.now)) set.old.marks set.new.marks }
{
    if same_cells(before, after) {
        return;
    }
    add_cells(set, row, left, before, after, reach);
}

/// The same, cell by cell.
fn add_cells(set: &mut TileSet, row: u32, left: u32, before: &[Cell], after: &[Cell], reach: u32)
    requires row { row < set.old.size.rows }
    requires columns { left + length before.now ≤ set.old.size.columns }
    requires same_length { length after.now ≡ length before.now }
    requires reach { reach ≤ 64 }
    ensures size { set.new.size ≡ set.old.size }
    ensures marks { IsWidened set.old.size reach (IsChangedIn set.old.size row left before.now after.now (length before.now)) set.old.marks set.new.marks }
{
    let extent = set.extent();
    let _columns = extent.columns();
    for k in 0..before.len() {
        if !before[k].same(&after[k]) {
            set.add_square(row, left + k as u32, reach);
        }
    }
}
