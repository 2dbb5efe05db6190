//! What is done with an entry of the queue.
ghost use Rattle.std.specs.Prelude.{◌≡◌, ◌^◌, ◌<◌, ◌≤◌, ◌+◌, ◌-◌, ◌*◌, ℕ, suc, IfOk, OnOk, OnErr, length};
ghost use Rattle.std.specs.List.{Contains};
ghost use Rattle.layer_tiles.specs.Tallies.{RisesBy};
ghost use Rattle.map_defs.specs.Nets.{equation};
ghost use Rattle.tile_work.specs.Working.{IsSameWork, base_of, copies};
ghost use Rattle.least_costs.specs.Queue.{IsStep, IsDue, IsKept, falls, rises, is_first};
ghost use Rattle.friction_spread.specs.Costs.{values, AreCosts, net_of};
ghost use Rattle.friction_spread.specs.Copied.{IsCopiedWhere};

use crate::costs::{cost_at, old_cost_at, write};
use crate::equations::equation;
use crate::ground::Ground;
use crate::offers::offer_round;
use crate::raises::raise_round;
use layer_tiles::{NoMemory, Tally};
use least_costs::{Outcome, Queue};
use tile_work::Working;

/// What became of an entry, and whether its place had its old value until then.
#[derive(Clone, Copy)]
pub struct Dealt {
    pub outcome: Outcome,
    pub first: bool,
}

/// A place comes into the queue under what it costs, if it has a cost.
pub fn offer_cost(queue: &mut Queue, cost: u64, top: u64, at: u32) -> Result<(), NoMemory>
    requires { at < 2 ^ 21 }
    ensures kept { OnOk result (IsKept queue.old queue.new) }
    ensures there { OnOk result (cost < top → Contains queue.new (cost, at)) }
    ensures len { OnOk result (length queue.new ≤ length queue.old + 1) }
{
    if cost < top {
        queue.push(cost, at)?;
    }
    Ok(())
}

/// Deals with an entry that was taken out of the queue. Where the place disagrees and this is its key, a value above its equation's
/// becomes it, and a value below becomes none. At most 21 picks for an entry, 20 more where the value falls, and 209 where it rises.
pub fn deal<M: Tally>(
    ground: &Ground<'_>,
    labels: &mut Working<'_>,
    queue: &mut Queue,
    key: u64,
    at: u32,
    tally: &mut M,
) -> Result<Dealt, NoMemory>
    requires size { labels.old.size ≡ ground.now.size }
    requires costs { AreCosts ground.now.limit labels.old.cells }
    requires least { key ≤ values ground.now.limit labels.old.cells at → key ≤ equation (net_of ground.now) (values ground.now.limit labels.old.cells) at }
    ensures same { IsSameWork labels.old labels.new }
    ensures did { IfOk result (λ dealt. IsStep (net_of ground.now) (values ground.now.limit labels.old.cells) queue.old key at (values ground.now.limit labels.new.cells) queue.new dealt.outcome) }
    ensures first { IfOk result (λ dealt. dealt.first ≡ is_first (values ground.now.limit (base_of labels.old.before)) (values ground.now.limit labels.old.cells) at dealt.outcome) }
    ensures costs { IfOk result (λ dealt. AreCosts ground.now.limit labels.new.cells) }
    ensures copied { IsCopiedWhere labels.old at (IsDue (net_of ground.now) (values ground.now.limit labels.old.cells) key at) labels.new }
    ensures more { copies labels.old.copied ≤ copies labels.new.copied }
    ensures tally { IfOk result (λ dealt. RisesBy (copies labels.new.copied - copies labels.old.copied) (21 + (20 * falls dealt.outcome + 209 * rises dealt.outcome)) (M.counts tally.old) (M.counts tally.new)) }
    ensures due { OnErr result (IsDue (net_of ground.now) (values ground.now.limit labels.old.cells) key at) }
    ensures wanted { OnErr result (RisesBy (copies labels.new.copied - copies labels.old.copied + 1) 230 (M.counts tally.old) (M.counts tally.new)) }
{
    let passed = Dealt {
        outcome: Outcome::Passed,
        first: false,
    };
    if at >= ground.extent().cells() {
        return Ok(passed);
    }
    let spot = ground.spot(at);
    let value = cost_at(ground, labels, at, tally);
    if value < key {
        return Ok(passed);
    }
    let own = ground.friction(at, tally);
    let other = equation(ground, labels, spot, own, key, tally);
    if value == other || value.min(other) != key {
        return Ok(passed);
    }
    let first = old_cost_at(ground, labels, at, tally) == value;
    let top = ground.top();
    if other < value {
        write(ground, labels, at, other, tally)?;
        offer_round(ground, labels, queue, spot, other, own, tally)?;
        let outcome = Outcome::Fell;
        return Ok(Dealt { outcome, first });
    }
    write(ground, labels, at, top, tally)?;
    offer_cost(queue, other, top, at)?;
    raise_round(ground, labels, queue, spot, value, own, tally)?;
    let outcome = Outcome::Rose;
    Ok(Dealt { outcome, first })
}
