//! The flow after an edit, written into a working layer over the flow before.
ghost use Rattle.std.specs.Prelude.{◌≡◌, ◌≢◌, ◌<◌, ◌≤◌, ◌+◌, ◌-◌, ◌*◌, ℕ, ℤ, length, slice_set, IfOk, OnOk, OnErr, IsTrue, Some};
ghost use Rattle.std.specs.List.{All};
ghost use Rattle.map_nums.specs.Grids.{Cells, cells_in, cell_at};
ghost use Rattle.map_nums.specs.Numbers.{is_value};
ghost use Rattle.layer_tiles.specs.Tallies.{RisesBy};
ghost use Rattle.tile_work.specs.Working.{copies, IsSameWork};
ghost use Rattle.drainage_flow.specs.Showing.{shown, shown_at, IsWorked, AreCopiedFor, IsForward, AreGrounded, ArePlaced};
ghost use Rattle.drainage_flow.specs.Settling.{number_at};
ghost use Rattle.drainage_flow.specs.Mending.{now_at};

use crate::courses::number;
use layer_tiles::{Cell, Change, Layer, Tally, Value};
use map_nums::NoMemory;
use tile_work::Working;

/// The cell of a flow: null where the surface is null.
fn shown(height: Cell, amount: i128) -> Cell
    requires { IsTrue (is_value amount) }
    ensures { result ≡ shown height amount }
{
    match height.get() {
        Some(_) => Cell::within(amount as Value),
        None => Cell::null(),
    }
}

/// One more place, where a cell was the old one until now.
fn one_more(worked: u64, now: &Cell, was: &Cell) -> u64
    requires { worked < 4294967296 }
    ensures more { now.now ≡ was.now → result ≡ worked + 1 }
    ensures same { now.now ≢ was.now → result ≡ worked }
{
    if now.same(was) { worked + 1 } else { worked }
}

/// Writes what a place has, and gives how many places differ then. At most three picks, and a look where its tile is written
/// for the first time.
fn show<M: Tally>(
    surface: &Change<'_>,
    at: u32,
    amount: i128,
    flows: &mut Working<'_>,
    worked: u64,
    tally: &mut M,
) -> Result<u64, NoMemory>
    requires within { at < cells_in surface.now.size }
    requires size { flows.old.size ≡ surface.now.size }
    requires in_range { IsTrue (is_value amount) }
    requires few { worked < 4294967296 }
    ensures same { IsSameWork flows.old flows.new }
    ensures cells { OnOk result (flows.new.cells ≡ slice_set flows.old.cells at (shown (cell_at surface.now.cells at) amount)) }
    ensures worked { IfOk result (λ count. (old : Cells) (flow : ℕ → ℤ) → IsForward surface.now.cells old flow flows.old at amount → IsWorked surface.now.size old flows.old worked → IsWorked surface.now.size old flows.new count) }
    ensures copied { (old : Cells) (flow : ℕ → ℤ) → IsForward surface.now.cells old flow flows.old at amount → AreCopiedFor surface.now.size surface.now.cells old flow flows.old → AreCopiedFor surface.now.size surface.now.cells old flow flows.new }
    ensures err { OnErr result (cell_at flows.old.cells at ≢ shown (cell_at surface.now.cells at) amount) }
    ensures more { copies flows.old.copied ≤ copies flows.new.copied }
    ensures tally { OnOk result (RisesBy (copies flows.new.copied - copies flows.old.copied) 3 (M.counts tally.old) (M.counts tally.new)) }
    ensures wanted { OnErr result (RisesBy 1 3 (M.counts tally.old) (M.counts tally.new)) }
{
    let _extent = flows.extent();
    let height = surface.cell(at, tally);
    let cell = shown(height, amount);
    let now = flows.get(at, tally);
    if now.same(&cell) {
        return Ok(worked);
    }
    let was = flows.old_cell(at, tally);
    flows.set(at, cell, tally)?;
    Ok(one_more(worked, &now, &was))
}

/// Gives each of these places its old number over the new surface: null where the surface is null now.
pub fn show_grounds<M: Tally>(
    old: &Layer,
    surface: &Change<'_>,
    changed: &[u32],
    flows: &mut Working<'_>,
    tally: &mut M,
) -> Result<u64, NoMemory>
    requires old_size { old.now.size ≡ surface.now.size }
    requires within { All (λ at. at < cells_in surface.now.size) changed.now }
    requires begun { IsWorked surface.now.size old.now.cells flows.old 0 }
    requires cells { flows.old.cells ≡ old.now.cells }
    ensures same { IsSameWork flows.old flows.new }
    ensures worked { IfOk result (IsWorked surface.now.size old.now.cells flows.new) }
    ensures grounded { OnOk result (AreGrounded surface.now.size surface.now.cells old.now.cells changed.now (length changed.now) flows.new.cells) }
    ensures copied { (flow : ℕ → ℤ) → AreCopiedFor surface.now.size surface.now.cells old.now.cells flow flows.old → AreCopiedFor surface.now.size surface.now.cells old.now.cells flow flows.new }
    ensures err { OnErr result ((c : ℕ) × (c < cells_in surface.now.size) × ((flow : ℕ → ℤ) → cell_at old.now.cells c ≢ shown_at surface.now.cells flow c)) }
    ensures more { copies flows.old.copied ≤ copies flows.new.copied }
    ensures tally { OnOk result (RisesBy (copies flows.new.copied - copies flows.old.copied) (4 * length changed.now) (M.counts tally.old) (M.counts tally.new)) }
    ensures wanted { OnErr result (RisesBy (copies flows.new.copied - copies flows.old.copied + 1) (4 * length changed.now) (M.counts tally.old) (M.counts tally.new)) }
{
    let _old = old.extent();
    let _tiles = surface.extent();
    let mut worked = 0;
    for at in changed {
        let amount = number(old.cell(*at, tally)) as i128;
        worked = show(surface, *at, amount, flows, worked, tally)?;
    }
    Ok(worked)
}

/// Gives each place its new number, where it has one.
pub fn show_flows<M: Tally>(
    old: &Layer,
    surface: &Change<'_>,
    puts: &[(u32, i128)],
    flows: &mut Working<'_>,
    worked: u64,
    tally: &mut M,
) -> Result<u64, NoMemory>
    requires old_size { old.now.size ≡ surface.now.size }
    requires within { All (λ p. p.0 < cells_in surface.now.size) puts.now }
    requires in_range { All (λ p. IsTrue (is_value p.1)) puts.now }
    requires worked { IsWorked surface.now.size old.now.cells flows.old worked }
    requires grounded { (c : ℕ) → c < cells_in surface.now.size → cell_at flows.old.cells c ≡ shown_at surface.now.cells (number_at old.now.cells) c }
    requires flow { (flow : ℕ → ℤ) × ArePlaced surface.now.size old.now.cells puts.now flow }
    ensures same { IsSameWork flows.old flows.new }
    ensures worked { IfOk result (IsWorked surface.now.size old.now.cells flows.new) }
    ensures cells { OnOk result ((c : ℕ) → c < cells_in surface.now.size → cell_at flows.new.cells c ≡ shown_at surface.now.cells (now_at (number_at old.now.cells) puts.now) c) }
    ensures copied { (flow : ℕ → ℤ) → ArePlaced surface.now.size old.now.cells puts.now flow → AreCopiedFor surface.now.size surface.now.cells old.now.cells flow flows.old → AreCopiedFor surface.now.size surface.now.cells old.now.cells flow flows.new }
    ensures err { OnErr result ((flow : ℕ → ℤ) → ArePlaced surface.now.size old.now.cells puts.now flow → (c : ℕ) × (c < cells_in surface.now.size) × (cell_at old.now.cells c ≢ shown_at surface.now.cells flow c)) }
    ensures more { copies flows.old.copied ≤ copies flows.new.copied }
    ensures tally { OnOk result (RisesBy (copies flows.new.copied - copies flows.old.copied) (3 * length puts.now) (M.counts tally.old) (M.counts tally.new)) }
    ensures wanted { OnErr result (RisesBy (copies flows.new.copied - copies flows.old.copied + 1) (3 * length puts.now) (M.counts tally.old) (M.counts tally.new)) }
{
    let _old = old.extent();
    let _tiles = surface.extent();
    let mut worked = worked;
    for put in puts {
        worked = show(surface, put.0, put.1, flows, worked, tally)?;
    }
    Ok(worked)
}
