//! Amounts run down until all have arrived.
ghost use Rattle.std.specs.Prelude.{◌≡◌, ◌≢◌, ◌<◌, ◌≤◌, ◌+◌, ◌-◌, ◌*◌, ℤ, pos, ◌+ℤ◌, [], length, OnOk, OnErr, IfOk};
ghost use Rattle.map_nums.specs.Grids.{cells_in};
ghost use Rattle.map_defs.specs.Flow.{downstream_of};
ghost use Rattle.layer_tiles.specs.Tallies.{RisesBy};
ghost use Rattle.drainage_flow.specs.Mending.{IsSent};
ghost use Rattle.drainage_flow.specs.Queues.{IsAmount};
ghost use Rattle.drainage_flow.specs.Settling.{number_at, AreCells, IsFlowing, flow_changes, IsModest, IsReceived, AreNewFlows};

use crate::courses::{Side, downstream, number};
use crate::queue::{Arrival, Entry, Queue};
use layer_tiles::{Change, Tally};
use map_nums::NoMemory;
use std::alloc::Global;

/// Sends an amount on to the place downstream. At most ten picks.
pub(crate) fn send<M: Tally>(
    surface: &Change<'_>,
    place: u32,
    amount: i128,
    queue: &mut Queue,
    tally: &mut M,
) -> Result<(), NoMemory>
    requires within { place < cells_in surface.now.size }
    requires amount { IsAmount amount }
    ensures sent { OnOk result (IsSent (number_at surface.now.cells) (downstream_of surface.now.size surface.now.cells place) amount queue.old queue.new) }
    ensures picks { RisesBy 0 10 (M.counts tally.old) (M.counts tally.new) }
{
    let Some(to) = downstream(surface, Side::After, place, tally) else {
        return Ok(());
    };
    let height = number(surface.cell(to, tally));
    queue.push(Entry {
        height,
        place: to,
        amount,
    })?;
    Ok(())
}

/// Puts what arrives at a place, and sends it on. At most eleven picks, and none where nothing arrives.
fn receive<M: Tally>(
    old: &Change<'_>,
    surface: &Change<'_>,
    arrival: Arrival,
    queue: &mut Queue,
    puts: &mut Vec<(u32, i128)>,
    tally: &mut M,
) -> Result<(), NoMemory>
    requires size { old.now.size ≡ surface.now.size }
    requires within { arrival.place < cells_in surface.now.size }
    requires modest { arrival.amount ≢ pos 0 → IsModest (number_at old.now.cells arrival.place +ℤ arrival.amount) }
    ensures received { OnOk result (IsReceived (number_at surface.now.cells) (downstream_of surface.now.size surface.now.cells arrival.place) (number_at old.now.cells) arrival queue.old queue.new puts.old.items puts.new.items) }
    ensures picks { RisesBy 0 11 (M.counts tally.old) (M.counts tally.new) }
    ensures picks_ok { OnOk result (RisesBy 0 (11 * (length puts.new.items - length puts.old.items)) (M.counts tally.old) (M.counts tally.new)) }
    ensures err { OnErr result (arrival.amount ≢ pos 0) }
{
    if arrival.amount == 0 {
        return Ok(());
    }
    let before = number(old.cell(arrival.place, tally)) as i128;
    puts.push((arrival.place, before + arrival.amount))?;
    send(surface, arrival.place, arrival.amount, queue, tally)?;
    Ok(())
}

/// Lets all amounts run down: the places whose flow is another, each with its new flow.
pub(crate) fn settle<M: Tally>(
    alloc: Global,
    old: &Change<'_>,
    surface: &Change<'_>,
    weights: &Change<'_>,
    queue: Queue,
    tally: &mut M,
) -> Result<Vec<(u32, i128)>, NoMemory>
    requires old_size { old.now.size ≡ surface.now.size }
    requires weights_size { weights.now.size ≡ surface.now.size }
    requires cells { AreCells weights.now.cells }
    requires flowing { IsFlowing surface.now.size surface.now.cells weights.now.cells old.now.cells queue [] }
    ensures flows { IfOk result (λ puts. AreNewFlows surface.now.size surface.now.cells weights.now.cells old.now.cells puts.items) }
    ensures picks { RisesBy 0 (11 * flow_changes surface.now.size surface.now.cells weights.now.cells old.now.cells) (M.counts tally.old) (M.counts tally.new) }
{
    let _extent = surface.extent();
    let mut queue = queue;
    let mut puts = Vec::new(alloc);
    while let Some(arrival) = queue.next() {
        receive(old, surface, arrival, &mut queue, &mut puts, tally)?;
    }
    Ok(puts)
}
