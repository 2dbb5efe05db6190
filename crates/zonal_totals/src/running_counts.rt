//! Counts that rise by one place at a time.
ghost use Rattle.std.specs.Prelude.{◌≡◌, ◌+◌, ◌^◌, ◌<◌, ◌≤◌, pos, ◌+ℤ◌, OnOk, IfOk};
ghost use Rattle.zonal_totals.specs.declared.pairs.Pair.{Pair};
ghost use Rattle.zonal_totals.specs.Running.{steps_of};
ghost use Rattle.zonal_totals.specs.Steps.{net_in, weight};
ghost use Rattle.zonal_totals.specs.Sums.{held};

use crate::pairs::Pair;
use crate::steps::{Step, keep, put, together};
use map_nums::NoMemory;
use std::alloc::Global;

/// Counts that rise. Each pair has a slot, and the slot the count of the pair that met it last; what it counted of another
/// pair before is among the steps. So the many places of few pairs leave few steps to be put in order.
#[derive(Drop)]
pub(crate) struct RunningCounts {
    pub recent: Vec<Step>,
    pub steps: Vec<Step>,
}

impl RunningCounts {
    /// Counts of nothing, with so many slots.
    pub(crate) fn new(alloc: Global, slots: u32) -> Result<RunningCounts, NoMemory>
        ensures none { IfOk result (λ c. (p : Pair) → net_in (steps_of c) p ≡ pos 0) }
        ensures weight { IfOk result (λ c. weight (steps_of c) ≡ 0) }
    {
        let nothing = Step {
            pair: Pair { zone: 0, key: 0 },
            by: 0,
        };
        Ok(RunningCounts {
            recent: vec![in alloc; nothing; slots as usize]?,
            steps: Vec::new(alloc),
        })
    }

    /// The steps of all counts.
    pub(crate) fn into_steps(self) -> Result<Vec<Step>, NoMemory>
        ensures net { IfOk result (λ steps. (p : Pair) → net_in steps.items p ≡ net_in (steps_of self) p) }
        ensures weight { IfOk result (λ steps. weight steps.items ≡ weight (steps_of self)) }
    {
        let RunningCounts { recent, steps } = self;
        let mut all = steps;
        all.extend_from_slice(&recent)?;
        Ok(all)
    }
}

/// The slot of a pair. The numbers are folded to 32 bits, which are divided faster.
fn slot_of(pair: &Pair, slots: usize) -> usize
    requires { 0 < slots }
    ensures { result < slots }
{
    let zone = pair.zone.unsigned_abs().wrapping_mul(1_000_003);
    let mixed = zone.wrapping_add(pair.key.unsigned_abs());
    ((mixed ^ (mixed >> 32)) & 0xffff_ffff) as usize % slots
}

/// One more place has the pair.
pub(crate) fn enter(counts: &mut RunningCounts, pair: &Option<Pair>) -> Result<(), NoMemory>
    requires { weight (steps_of counts.old) + 1 < 2 ^ 31 }
    ensures net { OnOk result ((p : Pair) → net_in (steps_of counts.new) p ≡ net_in (steps_of counts.old) p +ℤ held p pair.now) }
    ensures weight { OnOk result (weight (steps_of counts.new) ≤ weight (steps_of counts.old) + 1) }
{
    let Some(pair) = pair else {
        return Ok(());
    };
    let one = Step { pair: *pair, by: 1 };
    if counts.recent.is_empty() {
        return put(&mut counts.steps, one);
    }
    let slot = slot_of(pair, counts.recent.len());
    let before = counts.recent[slot];
    if before.pair.is(pair) {
        counts.recent[slot] = together(&before, &one);
        return Ok(());
    }
    counts.recent[slot] = one;
    keep(&mut counts.steps, before)
}
