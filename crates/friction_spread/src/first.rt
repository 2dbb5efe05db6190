//! The least costs of a map that had none.
ghost use Rattle.std.specs.Prelude.{◌≡◌, ◌≤◌, ◌*◌, ◌<◌, ℕ, suc, [], length, OnOk, IfOk};
ghost use Rattle.map_nums.specs.Grids.{cells_in, cell_at};
ghost use Rattle.map_nums.specs.Numbers.{greatest_value};
ghost use Rattle.map_defs.specs.Nets.{IsLeastIn};
ghost use Rattle.map_defs.specs.Spread.{IsSpread};
ghost use Rattle.map_defs.specs.Work.{first_work};
ghost use Rattle.layer_tiles.specs.Tallies.{RisesBy};
ghost use Rattle.layer_tiles.specs.Tiles.{tiles_in};
ghost use Rattle.layer_tiles.specs.Patches.{patched, HoldsAll};
ghost use Rattle.least_costs.specs.Filling.{IsFilling};
ghost use Rattle.friction_spread.specs.Costs.{base_of, net_of};
ghost use Rattle.friction_spread.specs.Flat.{costs_of};
ghost use Rattle.friction_spread.specs.Shown.{shown_cells};

use crate::fills::fill;
use crate::flat::FlatGround;
use crate::shows::{cost_patch, count_costs};
use flat_cells::cells_of;
use layer_tiles::{Cell, Change, NoMemory, Patch, Tally};
use least_costs::Queue;
use std::alloc::Global;

/// A patch, and the work that it took.
#[derive(Drop)]
pub struct Repair {
    pub patch: Patch,
    pub worked: u64,
}

/// A source that is no barrier costs nothing, and comes into the queue.
fn begin_at(
    ground: &FlatGround<'_>,
    costs: &mut [u64],
    queue: &mut Queue,
    at: u32,
    source: Cell,
) -> Result<(), NoMemory>
    requires within { at < cells_in ground.now.size }
    requires source { source ≡ cell_at ground.now.sources at }
    requires count { length costs.old ≡ cells_in ground.now.size }
    requires filling { IsFilling (net_of ground.now) (costs_of ground.now costs.old) queue.old }
    ensures filling { OnOk result (IsFilling (net_of ground.now) (costs_of ground.now costs.new) queue.new) }
    ensures falls { OnOk result ((k : ℕ) → costs_of ground.now costs.new k ≤ costs_of ground.now costs.old k) }
    ensures begun { OnOk result (costs_of ground.now costs.new at ≤ base_of ground.now at) }
{
    let begins = source.get().is_some();
    if !begins {
        return Ok(());
    }
    let friction = ground.friction(at);
    if friction == 0 {
        return Ok(());
    }
    let _extent = ground.extent();
    queue.push(0, at)?;
    costs[at as usize] = 0;
    Ok(())
}

/// The sources cost nothing, and come into the queue.
fn begin(ground: &FlatGround<'_>, costs: &mut [u64], queue: &mut Queue) -> Result<(), NoMemory>
    requires count { length costs.old ≡ cells_in ground.now.size }
    requires none { (i : ℕ) → costs_of ground.now costs.old i ≡ suc ground.now.limit }
    ensures filling { OnOk result (IsFilling (net_of ground.now) (costs_of ground.now costs.new) queue.new) }
    ensures begun { OnOk result ((i : ℕ) → costs_of ground.now costs.new i ≤ base_of ground.now i) }
{
    let sources = ground.sources();
    for at in 0..ground.extent().cells() {
        begin_at(ground, costs, queue, at, sources[at as usize])?;
    }
    Ok(())
}

/// The least costs of all places, `top` where there is none.
pub fn costs_in(alloc: Global, ground: &FlatGround<'_>) -> Result<Vec<u64>, NoMemory>
    ensures count { IfOk result (λ costs. length costs.items ≡ cells_in ground.now.size) }
    ensures least { IfOk result (λ costs. (i : ℕ) → IsLeastIn (net_of ground.now) i (costs_of ground.now costs.items i)) }
{
    let top = ground.top();
    let mut costs = vec![in alloc; top; ground.extent().cells() as usize]?;
    let mut queue = Queue::new(alloc);
    begin(ground, &mut costs, &mut queue)?;
    fill(ground, &mut costs, &mut queue)?;
    Ok(costs)
}

/// The units of work of least costs where there were none.
pub fn work_of(ground: &FlatGround<'_>, costs: &[u64]) -> u64
    requires count { length costs.now ≡ cells_in ground.now.size }
    requires least { (i : ℕ) → IsLeastIn (net_of ground.now) i (costs_of ground.now costs.now i) }
    ensures { result ≡ first_work ground.now.size (shown_cells ground.now.size ground.now.limit costs.now) }
{
    ground.extent().cells() as u64 + count_costs(ground.limit(), costs)
}

/// The tiles of least costs where there were none, and the work that they are.
fn first_repair(alloc: Global, ground: &FlatGround<'_>, costs: &[u64]) -> Result<Repair, NoMemory>
    requires count { length costs.now ≡ cells_in ground.now.size }
    requires least { (i : ℕ) → IsLeastIn (net_of ground.now) i (costs_of ground.now costs.now i) }
    ensures size { IfOk result (λ r. r.patch.size ≡ ground.now.size) }
    ensures spread { IfOk result (λ r. IsSpread ground.now.size ground.now.sources ground.now.friction ground.now.limit (patched ground.now.size [] r.patch.tiles)) }
    ensures all { IfOk result (λ r. HoldsAll r.patch) }
    ensures worked { IfOk result (λ r. r.worked ≡ first_work ground.now.size (patched ground.now.size [] r.patch.tiles)) }
{
    let patch = cost_patch(alloc, ground.extent(), ground.limit(), costs)?;
    let worked = work_of(ground, costs);
    Ok(Repair { patch, worked })
}

/// The least costs of a map that had none. A look at each tile of both operands.
pub fn first_costs<M: Tally>(
    alloc: Global,
    sources: &Change<'_>,
    friction: &Change<'_>,
    limit: u64,
    tally: &mut M,
) -> Result<Repair, NoMemory>
    requires size { friction.now.size ≡ sources.now.size }
    requires limit { limit ≤ greatest_value }
    ensures size { IfOk result (λ r. r.patch.size ≡ sources.now.size) }
    ensures spread { IfOk result (λ r. IsSpread sources.now.size sources.now.cells friction.now.cells limit (patched sources.now.size [] r.patch.tiles)) }
    ensures all { IfOk result (λ r. HoldsAll r.patch) }
    ensures worked { IfOk result (λ r. r.worked ≡ first_work sources.now.size (patched sources.now.size [] r.patch.tiles)) }
    ensures looks { RisesBy (2 * tiles_in sources.now.size) 0 (M.counts tally.old) (M.counts tally.new) }
{
    let extent = sources.extent();
    let _friction = friction.extent();
    let begins = cells_of(alloc, sources, tally)?;
    let frictions = cells_of(alloc, friction, tally)?;
    let ground = FlatGround::new(extent, &begins, &frictions, limit);
    let costs = costs_in(alloc, &ground)?;
    first_repair(alloc, &ground, &costs)
}
