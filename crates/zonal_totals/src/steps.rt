//! Changes of the counts of pairs.
ghost use Rattle.std.specs.Prelude.{◌≡◌, ℕ, ◌+◌, ◌^◌, ◌<◌, ◌≤◌, ◌++◌, ◌+ℤ◌, length, OnOk, IfOk};
ghost use Rattle.std.specs.Ordering.{int_cmp};
ghost use Rattle.zonal_totals.specs.Pairs.{floor, rank};
ghost use Rattle.zonal_totals.specs.declared.pairs.Pair.{Pair};
ghost use Rattle.zonal_totals.specs.Steps.{net_in, size, weight, StepsClimb, AllShort};
ghost use Rattle.zonal_totals.specs.Settled.{kept, put_step, settled};

use crate::pairs::Pair;
use map_nums::NoMemory;
use std::alloc::Global;
use std::cmp::Ordering;

/// By how much the count of a pair rises, or falls.
#[derive(Clone, Copy)]
pub struct Step {
    pub pair: Pair,
    pub by: i32,
}

/// Adds a step to the last one where that is of the same pair, else puts it behind. A sum of 0 is left out.
pub(crate) fn put(steps: &mut Vec<Step>, step: Step) -> Result<(), NoMemory>
    requires { weight steps.old.items + size step.by < 2 ^ 31 }
    ensures { OnOk result (steps.new.items ≡ put_step steps.old.items step) }
{
    let Some(last) = steps.pop() else {
        return keep(steps, step);
    };
    if last.pair.is(&step.pair) {
        return keep(steps, together(&last, &step));
    }
    steps.push(last)?;
    keep(steps, step)
}

/// One step for two of the same pair.
pub(crate) fn together(last: &Step, step: &Step) -> Step
    requires { size last.now.by + size step.now.by < 2 ^ 31 }
    ensures { result ≡ record { pair = step.now.pair; by = last.now.by +ℤ step.now.by } }
{
    let by = last.by + step.by;
    Step {
        pair: step.pair,
        by,
    }
}

/// Puts a step behind the others, unless it is of 0.
pub(crate) fn keep(steps: &mut Vec<Step>, step: Step) -> Result<(), NoMemory>
    ensures { OnOk result (steps.new.items ≡ steps.old.items ++ kept step) }
{
    if step.by != 0 {
        steps.push(step)?;
    }
    Ok(())
}

/// The steps in order, one for each pair whose count changes.
pub(crate) fn settle(alloc: Global, mut steps: Vec<Step>) -> Result<Vec<Step>, NoMemory>
    requires { weight steps.items < 2 ^ 31 }
    ensures order { IfOk result (λ s. StepsClimb floor s.items) }
    ensures net { IfOk result (λ s. (p : Pair) → net_in s.items p ≡ net_in steps.items p) }
    ensures weight { IfOk result (λ s. weight s.items ≤ weight steps.items) }
{
    steps.sort_unstable_by(|a, b| compare(&a.pair, &b.pair));
    gathered(alloc, &steps)
}

/// The order of two pairs: by zone, then by key.
fn compare(a: &Pair, b: &Pair) -> Ordering
    ensures { result ≡ int_cmp (rank a.now) (rank b.now) }
{
    if a.is_before(b) {
        return Ordering::Less;
    }
    if b.is_before(a) {
        return Ordering::Greater;
    }
    Ordering::Equal
}

/// Steps that are in order, put together.
fn gathered(alloc: Global, steps: &[Step]) -> Result<Vec<Step>, NoMemory>
    requires { weight steps.now < 2 ^ 31 }
    ensures steps { IfOk result (λ s. s.items ≡ settled steps.now) }
    ensures short { IfOk result (λ s. AllShort steps.now) }
{
    let mut out = Vec::with_capacity(alloc, steps.len())?;
    for step in steps {
        let (_zone, _key) = (step.pair.zone, step.pair.key);
        put(&mut out, *step)?;
    }
    Ok(out)
}
