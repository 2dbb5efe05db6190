//! What was made of all statements is put in place, without memory.

ghost use Rattle.std.specs.Prelude.{◌≡◌, ◌<◌, ◌≤◌, ◌++◌, ◌∷◌, [], ℕ, length, map, Some, slice_get, vec_len, vec_capacity};
ghost use Rattle.statement_parser.specs.declared.op.Op.{Op as Given};
ghost use Rattle.map_waves.specs.Placing.{HaveOwnSlots, AreReady, ArePlaced};
ghost use Rattle.map_waves.specs.declared.plans.Step.{Step};
ghost use Rattle.kept_map.specs.Rooms.{HasRoom};
ghost use Rattle.kept_map.specs.Commits.{IsAtRest, Rests};

use crate::room::Room;
use layer_tiles::Extent;
use map_waves::{Kept, Made, Step as Planned, place_all};
use op_jobs::Beside;
use statement_parser::Op;

/// Puts what was made of the statements in place of what was kept, and lets the statements rest.
pub fn put_in_place(
    kept: &mut Vec<Kept<Beside>>,
    steps: &mut [Planned<Op>],
    mut made: Vec<Option<Made<Beside>>>,
    mut room: Room,
    extent: Extent,
    stamp: u64,
)
    requires own { HaveOwnSlots steps.old }
    requires slots { (k i : ℕ) (x : Step Given) → slice_get steps.old k ≡ Some x → x.kept ≡ Some i → i < length kept.old.items }
    requires all { length made.items ≡ length steps.old }
    requires ready { AreReady extent (map (λ k. Some k) kept.old.items) steps.old made.items }
    requires room { HasRoom (length kept.old.items) (length steps.old) room }
    ensures count { length kept.new.items ≡ length steps.old }
    ensures placed { ArePlaced extent stamp (map (λ k. Some k) kept.old.items) steps.old made.items kept.new.items }
    ensures rest { Rests steps.old steps.new }
{
    move_out(kept, &mut room.slots);
    place_all(
        room.slots.as_mut_slice(),
        steps,
        made.as_mut_slice(),
        &mut room.next,
        extent,
        stamp,
    );
    *kept = room.next;
    rest(steps);
}

/// Moves what was kept into slots that have room for it.
fn move_out(kept: &mut Vec<Kept<Beside>>, slots: &mut Vec<Option<Kept<Beside>>>)
    requires none { slots.old.items ≡ [] }
    requires room { length kept.old.items ≤ vec_capacity slots.old }
    ensures { slots.new.items ≡ map (λ k. Some k) kept.old.items }
{
    for one in kept.drain(..) {
        fill(slots, one);
    }
}

/// Puts one more into slots that have room for it.
fn fill(slots: &mut Vec<Option<Kept<Beside>>>, one: Kept<Beside>)
    requires { vec_len slots.old < vec_capacity slots.old }
    ensures items { slots.new.items ≡ slots.old.items ++ Some one ∷ [] }
    ensures room { vec_capacity slots.old ≤ vec_capacity slots.new }
{
    match slots.push(Some(one)) {
        Ok(()) => {}
        Err(_) => {}
    }
}

/// Each statement is kept at its own place, and the edit that wrote it is over.
fn rest(steps: &mut [Planned<Op>])
    ensures { Rests steps.old steps.new }
{
    for place in 0..steps.len() {
        settle(&mut steps[place], place);
    }
}

/// A statement is kept at a place, and isn't written any more.
fn settle(step: &mut Planned<Op>, place: usize)
    ensures rest { IsAtRest place step.old step.new }
    ensures refs { step.new.refs ≡ step.old.refs }
{
    step.kept = Some(place);
    step.written = false;
}
