//! What was made of statements is put in place, without memory.
ghost use Rattle.std.specs.Prelude.{◌≡◌, ◌≢◌, ◌<◌, ◌≤◌, ◌++◌, ◌∷◌, [], ℕ, length, Option, Some, None, IfSome, slice_get, slice_index_or, vec_len, vec_capacity};
ghost use Rattle.map_waves.specs.Keeping.{CanPut, IsPut};
ghost use Rattle.map_waves.specs.Prepared.{IsReady};
ghost use Rattle.map_waves.specs.Placing.{IsPlaced, slot_of, HaveOwnSlots, AreReady, ArePlaced};

use crate::keeping::{Aside, Kept, Made, Renewal};
use crate::plans::Step;
use layer_tiles::{Extent, Layer};

/// Puts what was made in place of what stood beside a layer.
fn renew<B: Drop>(beside: &mut Aside<B>, made: Renewal<B>, stamp: u64)
    requires { CanPut (Some beside.old) made }
    ensures { IsPut (Some beside.old) made beside.new }
{
    match made {
        Renewal::Anew(new) => *beside = new,
        Renewal::Patched(patch) => match beside {
            Aside::Layer(layer) => layer.commit(patch, stamp),
            Aside::Other(_) => unreachable!(),
        },
    }
}

/// Puts what was made in place of what was kept.
fn put<B: Drop>(kept: &mut Kept<B>, made: Option<Made<B>>, extent: Extent, stamp: u64)
    requires { IsReady extent (Some kept.old) made }
    ensures { IsPlaced extent (Some kept.old) made stamp kept.new }
{
    let _extent = kept.layer.extent();
    if let Some(
        Made {
            patch,
            beside,
            worked,
            ..
        },
    ) = made
    {
        kept.layer.commit(patch, stamp);
        renew(&mut kept.beside, beside, stamp);
        kept.repaired = Some(worked);
    }
}

/// What is kept of a statement of which nothing was.
fn fresh<B: Drop>(made: Made<B>, extent: Extent, stamp: u64) -> Kept<B>
    requires { IsReady extent None (Some made) }
    ensures { IsPlaced extent None (Some made) stamp result }
{
    let Made { patch, beside, .. } = made;
    let Renewal::Anew(beside) = beside else {
        unreachable!();
    };
    Kept {
        layer: Layer::fresh(patch, stamp),
        beside,
        repaired: None,
    }
}

/// What is kept of a statement after the edit, which wrote it or not. It takes no memory.
pub fn place<B: Drop>(
    kept: Option<Kept<B>>,
    made: Option<Made<B>>,
    written: bool,
    extent: Extent,
    stamp: u64,
) -> Kept<B>
    requires { IsReady extent kept made }
    ensures { IsPlaced extent kept made stamp result }
{
    match kept {
        Some(mut kept) => {
            put(&mut kept, made, extent, stamp);
            if written {
                kept.repaired = None;
            }
            kept
        }
        None => match made {
            Some(made) => fresh(made, extent, stamp),
            None => unreachable!(),
        },
    }
}

/// Puts what was made of all statements in place, in the room of `next`. What was kept of each is taken out of its slot. It
/// takes no memory.
pub fn place_all<O, B: Drop>(
    slots: &mut [Option<Kept<B>>],
    steps: &[Step<O>],
    prepared: &mut [Option<Made<B>>],
    next: &mut Vec<Kept<B>>,
    extent: Extent,
    stamp: u64,
)
    requires own { HaveOwnSlots steps.now }
    requires slots { (k i : ℕ) (x : Step O) → slice_get steps.now k ≡ Some x → x.kept ≡ Some i → i < length slots.old }
    requires all { length prepared.old ≡ length steps.now }
    requires ready { AreReady extent slots.old steps.now prepared.old }
    requires none { next.old.items ≡ [] }
    requires room { length steps.now ≤ vec_capacity next.old }
    ensures count { length next.new.items ≡ length steps.now }
    ensures placed { ArePlaced extent stamp slots.old steps.now prepared.old next.new.items }
{
    for k in 0..steps.len() {
        let kept = taken(slots, steps[k].kept);
        let now = place(kept, prepared[k].take(), steps[k].written, extent, stamp);
        put_next(next, now);
    }
}

/// Puts what was made of all statements in place of what is kept of each. It takes no memory.
pub fn renew_all<B: Drop>(
    kept: &mut [Kept<B>],
    prepared: &mut [Option<Made<B>>],
    extent: Extent,
    stamp: u64,
)
    requires all { length prepared.old ≡ length kept.old }
    requires ready { (k : ℕ) (own : Kept B) (r : Option (Made B)) → slice_get kept.old k ≡ Some own → slice_get prepared.old k ≡ Some r → IsReady extent (Some own) r }
    ensures count { length kept.new ≡ length kept.old }
    ensures placed { (k : ℕ) (own now : Kept B) (r : Option (Made B)) → slice_get kept.old k ≡ Some own → slice_get kept.new k ≡ Some now → slice_get prepared.old k ≡ Some r → IsPlaced extent (Some own) r stamp now }
{
    for k in 0..kept.len() {
        let made = prepared[k].take();
        put(&mut kept[k], made, extent, stamp);
    }
}

/// Takes what is kept out of a slot.
fn taken<B: Drop>(slots: &mut [Option<Kept<B>>], kept: Option<usize>) -> Option<Kept<B>>
    requires { IfSome kept (λ i. i < length slots.old) }
    ensures kept { result ≡ slot_of slots.old kept }
    ensures left { (i : ℕ) → kept ≢ Some i → slice_index_or slots.new i None ≡ slice_index_or slots.old i None }
{
    match kept {
        None => None,
        Some(place) => slots[place].take(),
    }
}

/// Adds one to those that have room for it.
fn put_next<B: Drop>(next: &mut Vec<Kept<B>>, now: Kept<B>)
    requires { vec_len next.old < vec_capacity next.old }
    ensures items { next.new.items ≡ next.old.items ++ now ∷ [] }
    ensures room { vec_capacity next.old ≤ vec_capacity next.new }
{
    match next.push(now) {
        Ok(()) => {}
        Err(_) => {}
    }
}
