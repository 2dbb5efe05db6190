//! Where a cell drains to, before and after an edit.
ghost use Rattle.std.specs.Prelude.{◌≡◌, ◌<◌};
ghost use Rattle.map_nums.specs.Grids.{cells_in, cell_at, near};
ghost use Rattle.map_defs.specs.Flow.{downstream_of};
ghost use Rattle.layer_tiles.specs.Tallies.{picked, RisesBy};
ghost use Rattle.drainage_flow.specs.FlowNets.{IsSmall, number_of};
ghost use Rattle.drainage_flow.specs.Sides.{cells_on, HasSide};
ghost use Rattle.drainage_flow.specs.Steepest.{offset_at, AreAround};

use crate::neighbours::neighbour;
use crate::winners::winner;
use layer_tiles::{Cell, Change, Tally};
use map_nums::Value;

/// The state before an edit, or the one after it.
#[derive(Clone, Copy, Debug, PartialEq, Eq)]
pub(crate) enum Side {
    Before,
    After,
}

/// A cell as a number, a null one as 0.
pub(crate) fn number(cell: Cell) -> Value
    ensures number { result ≡ number_of cell }
    ensures small { IsSmall result }
{
    match cell.get() {
        Some(z) => z,
        None => 0,
    }
}

/// One cell on one side of an edit. One pick.
pub(crate) fn cell_on<M: Tally>(change: &Change<'_>, side: Side, at: u32, tally: &mut M) -> Cell
    requires side { HasSide change.now side }
    requires within { at < cells_in change.now.size }
    ensures cell { result ≡ cell_at (cells_on change.now side) at }
    ensures pick { M.counts tally.new ≡ picked 1 (M.counts tally.old) }
{
    match side {
        Side::Before => change.cell_before(at, tally),
        Side::After => change.cell(at, tally),
    }
}

/// One of the cells round one, null off the map. At most one pick.
fn near_on<M: Tally>(surface: &Change<'_>, side: Side, at: u32, k: u8, tally: &mut M) -> Cell
    requires side { HasSide surface.now side }
    requires within { at < cells_in surface.now.size }
    requires few { k < 8 }
    ensures cell { result ≡ near surface.now.size (cells_on surface.now side) at (offset_at k) }
    ensures picks { RisesBy 0 1 (M.counts tally.old) (M.counts tally.new) }
{
    match neighbour(surface.extent(), at, k) {
        Some(next) => cell_on(surface, side, next, tally),
        None => Cell::null(),
    }
}

/// The cells round one, on one side of an edit. At most eight picks.
fn around_on<M: Tally>(surface: &Change<'_>, side: Side, at: u32, tally: &mut M) -> [Cell; 8]
    requires side { HasSide surface.now side }
    requires within { at < cells_in surface.now.size }
    ensures around { AreAround surface.now.size (cells_on surface.now side) at result }
    ensures picks { RisesBy 0 8 (M.counts tally.old) (M.counts tally.new) }
{
    let mut around = [Cell::null(); 8];
    for k in 0..8u8 {
        around[k as usize] = near_on(surface, side, at, k, tally);
    }
    around
}

/// The place that a cell drains to, on one side of an edit. At most nine picks.
pub(crate) fn downstream<M: Tally>(
    surface: &Change<'_>,
    side: Side,
    at: u32,
    tally: &mut M,
) -> Option<u32>
    requires side { HasSide surface.now side }
    requires within { at < cells_in surface.now.size }
    ensures place { result ≡ downstream_of surface.now.size (cells_on surface.now side) at }
    ensures picks { RisesBy 0 9 (M.counts tally.old) (M.counts tally.new) }
{
    let Some(here) = cell_on(surface, side, at, tally).get() else {
        return None;
    };
    let around = around_on(surface, side, at, tally);
    let Some(k) = winner(here, &around) else {
        return None;
    };
    neighbour(surface.extent(), at, k)
}
