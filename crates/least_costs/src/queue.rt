//! A queue that gives the least key first.

ghost use Rattle.std.specs.Prelude.{◌≡◌, ◌^◌, ℕ, ◌+◌, ◌<◌, ◌≤◌, List, [], ◌∷◌, length, OnOk, IfSome, IfNone};
ghost use Rattle.std.specs.List.{Contains, All};
ghost use Rattle.std.specs.List.Sorted.{IsPermutation};

use map_nums::NoMemory;
use std::alloc::Global;
use std::cmp::Reverse;
use std::collections::BinaryHeap;
use std::marker::Model;

/// How many places a number has room for below its key: 2 to the power of 21, which is more than a map has.
const PLACES: u64 = 2_097_152;

/// The same, for numbers of 128 bits.
const FAR_PLACES: u128 = 2_097_152;

/// The least key that has no room above a place in 64 bits: 2 to the power of 43.
const FAR: u64 = 8_796_093_022_208;

/// Keys with places. An entry is one number, the key above the place, so that a heap compares numbers. Most keys are small: those below
/// `FAR` stand in a heap of numbers of 64 bits, which are moved and compared faster than the numbers of 128 bits for the others.
#[derive(Drop)]
pub struct Queue {
    near: BinaryHeap<Reverse<u64>, Global>,
    far: BinaryHeap<Reverse<u128>, Global>,
}

impl Model for Queue {
    ghost use Rattle.std.specs.Prelude.{ℕ, ◌^◌, List};
    ghost use Rattle.std.specs.BinaryHeap.{heap_items};
    ghost use Rattle.least_costs.specs.Entries.{entries_of, IsEntryHeap};

    ghost Value = { List (ℕ × ℕ) };

    ghost view = { λ q. entries_of (heap_items q.near) (heap_items q.far) };

    ghost invariant = { λ q. IsEntryHeap 0 (2 ^ 43) (heap_items q.near) × IsEntryHeap (2 ^ 43) (2 ^ 64) (heap_items q.far) };
}

impl Queue {
    pub fn new(alloc: Global) -> Queue
        ensures { result ≡ [] }
    {
        Queue {
            near: BinaryHeap::new(alloc),
            far: BinaryHeap::new(alloc),
        }
    }

    pub fn push(&mut self, key: u64, at: u32) -> Result<(), NoMemory>
        requires { at < 2 ^ 21 }
        ensures { OnOk result (IsPermutation ((key, at) ∷ self.old) self.new) }
    {
        if key < FAR {
            self.near.push(Reverse(key * PLACES + u64::from(at)))?;
            return Ok(());
        }
        self.far
            .push(Reverse(u128::from(key) * FAR_PLACES + u128::from(at)))?;
        Ok(())
    }

    /// Takes out the entry with the least key.
    pub fn pop(&mut self) -> Option<(u64, u32)>
        ensures entry { IfSome result (λ x. IsPermutation self.old (x ∷ self.new)) }
        ensures least { IfSome result (λ x. All (λ y. x.0 ≤ y.0) self.old) }
        ensures none { IfNone result (self.old ≡ []) }
    {
        if let Some(Reverse(number)) = self.near.pop() {
            return Some((number / PLACES, (number % PLACES) as u32));
        }
        let Some(Reverse(number)) = self.far.pop() else {
            return None;
        };
        Some(((number / FAR_PLACES) as u64, (number % FAR_PLACES) as u32))
    }
}
