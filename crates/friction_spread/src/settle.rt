//! The queue is emptied.
ghost use Rattle.std.specs.Prelude.{◌≡◌, ◌<◌, ◌≤◌, ◌+◌, ◌-◌, ◌*◌, ℕ, suc, length, OnOk, OnErr, IfOk};
ghost use Rattle.map_nums.specs.Grids.{cells_in};
ghost use Rattle.map_defs.specs.Nets.{IsLeastIn};
ghost use Rattle.layer_tiles.specs.Tallies.{RisesBy};
ghost use Rattle.tile_work.specs.Working.{IsSameWork, base_of, copies};
ghost use Rattle.least_costs.specs.Ranks.{changed};
ghost use Rattle.least_costs.specs.Best.{IsRepairing};
ghost use Rattle.friction_spread.specs.Costs.{values, AreCosts, net_of};
ghost use Rattle.friction_spread.specs.Copied.{IsCaused, HasMoved};

use crate::deals::deal;
use crate::ground::Ground;
use layer_tiles::{NoMemory, Tally};
use least_costs::Queue;
use tile_work::Working;

/// Gives each place its least cost, where those that disagree stand in the queue, and counts the places that left their old value.
pub fn settle<M: Tally>(
    ground: &Ground<'_>,
    labels: &mut Working<'_>,
    queue: &mut Queue,
    tally: &mut M,
) -> Result<u64, NoMemory>
    requires size { labels.old.size ≡ ground.now.size }
    requires costs { AreCosts ground.now.limit labels.old.cells }
    requires caused { IsCaused ground.now labels.old }
    requires begun { IsRepairing (net_of ground.now) (values ground.now.limit (base_of labels.old.before)) (values ground.now.limit labels.old.cells) queue.old 0 }
    ensures same { IsSameWork labels.old labels.new }
    ensures costs { IfOk result (λ moved. AreCosts ground.now.limit labels.new.cells) }
    ensures least { IfOk result (λ moved. (i : ℕ) → IsLeastIn (net_of ground.now) i (values ground.now.limit labels.new.cells i)) }
    ensures moved { IfOk result (λ moved. moved ≡ changed (values ground.now.limit (base_of labels.old.before)) (values ground.now.limit labels.new.cells) (cells_in ground.now.size)) }
    ensures caused { IsCaused ground.now labels.new }
    ensures more { copies labels.old.copied ≤ copies labels.new.copied }
    ensures tally { OnOk result ((c : ℕ → ℕ) → ((i : ℕ) → IsLeastIn (net_of ground.now) i (c i)) → RisesBy (copies labels.new.copied - copies labels.old.copied) (21 * length queue.old + 628 * changed (values ground.now.limit (base_of labels.old.before)) c (cells_in ground.now.size)) (M.counts tally.old) (M.counts tally.new)) }
    ensures wanted { OnErr result ((c : ℕ → ℕ) → ((i : ℕ) → IsLeastIn (net_of ground.now) i (c i)) → RisesBy (copies labels.new.copied - copies labels.old.copied + 1) (21 * length queue.old + 628 * changed (values ground.now.limit (base_of labels.old.before)) c (cells_in ground.now.size)) (M.counts tally.old) (M.counts tally.new)) }
    ensures due { OnErr result (HasMoved ground.now labels.old) }
{
    let _extent = ground.extent();
    let mut moved = 0;
    while let Some((key, at)) = queue.pop() {
        let dealt = deal(ground, labels, queue, key, at, tally)?;
        moved += u64::from(dealt.first);
    }
    Ok(moved)
}
