//! Cells as costs.
ghost use Rattle.std.specs.Prelude.{◌≡◌, ◌<◌, ◌≤◌, ◌+◌, ◌-◌, ◌^◌, ℕ, suc, length, OnOk, OnErr};
ghost use Rattle.map_nums.specs.Grids.{cells_in};
ghost use Rattle.map_nums.specs.Numbers.{greatest_value};
ghost use Rattle.map_defs.specs.Rounds.{cost_cell};
ghost use Rattle.layer_tiles.specs.Tallies.{RisesBy};
ghost use Rattle.tile_work.specs.Working.{IsSameWork, IsCopiedFor, base_of, copies};
ghost use Rattle.least_costs.specs.Queue.{IsSetTo};
ghost use Rattle.friction_spread.specs.Costs.{cost_of, values, AreCosts};

use crate::ground::Ground;
use layer_tiles::{Cell, NoMemory, Tally, Value};
use tile_work::Working;

/// The number of a cell; `top` where it is null.
pub fn cost_of(cell: Cell, top: u64) -> u64
    requires { top ≤ 2 ^ 50 }
    ensures value { result ≡ cost_of top cell }
    ensures low { result ≤ 2 ^ 50 }
{
    match cell.get() {
        Some(value) if value >= 0 => value as u64,
        Some(_) => 0,
        None => top,
    }
}

/// The cell of a cost: null where it is above the limit.
fn cell_of(cost: u64, limit: u64) -> Cell
    requires { limit ≤ greatest_value }
    ensures { result ≡ cost_cell limit cost }
{
    if cost > limit {
        return Cell::null();
    }
    match Cell::of(cost as Value) {
        Some(cell) => cell,
        None => unreachable!(),
    }
}

/// The cost of a place. One pick.
pub fn cost_at<M: Tally>(ground: &Ground<'_>, labels: &Working<'_>, at: u32, tally: &mut M) -> u64
    requires size { labels.now.size ≡ ground.now.size }
    requires within { at < cells_in ground.now.size }
    ensures value { result ≡ values ground.now.limit labels.now.cells at }
    ensures low { result ≤ 2 ^ 50 }
    ensures count { length labels.now.cells ≡ cells_in ground.now.size }
    ensures pick { RisesBy 0 1 (M.counts tally.old) (M.counts tally.new) }
{
    cost_of(labels.get(at, tally), ground.top())
}

/// The cost that a place had. One pick.
pub fn old_cost_at<M: Tally>(
    ground: &Ground<'_>,
    labels: &Working<'_>,
    at: u32,
    tally: &mut M,
) -> u64
    requires size { labels.now.size ≡ ground.now.size }
    requires within { at < cells_in ground.now.size }
    ensures value { result ≡ values ground.now.limit (base_of labels.now.before) at }
    ensures pick { RisesBy 0 1 (M.counts tally.old) (M.counts tally.new) }
{
    cost_of(labels.old_cell(at, tally), ground.top())
}

/// Writes the cost of a place. One pick, and a look where its tile is copied.
pub fn write<M: Tally>(
    ground: &Ground<'_>,
    labels: &mut Working<'_>,
    at: u32,
    cost: u64,
    tally: &mut M,
) -> Result<(), NoMemory>
    requires size { labels.old.size ≡ ground.now.size }
    requires within { at < cells_in ground.now.size }
    requires low { cost ≤ suc ground.now.limit }
    ensures same { IsSameWork labels.old labels.new }
    ensures set { OnOk result (IsSetTo (values ground.now.limit labels.old.cells) at cost (values ground.now.limit labels.new.cells)) }
    ensures costs { OnOk result (AreCosts ground.now.limit labels.old.cells → AreCosts ground.now.limit labels.new.cells) }
    ensures copied { OnOk result (IsCopiedFor labels.old at (cost_cell ground.now.limit cost) labels.new) }
    ensures err { OnErr result (labels.new ≡ labels.old) }
    ensures more { copies labels.old.copied ≤ copies labels.new.copied }
    ensures tally { OnOk result (RisesBy (copies labels.new.copied - copies labels.old.copied) 1 (M.counts tally.old) (M.counts tally.new)) }
    ensures wanted { OnErr result (RisesBy 1 1 (M.counts tally.old) (M.counts tally.new)) }
{
    let _extent = ground.extent();
    labels.put(at, cell_of(cost, ground.limit()), tally)?;
    Ok(())
}
