//! Steps of two lists put together.
ghost use Rattle.std.specs.Prelude.{◌≡◌, ◌+◌, ◌^◌, ◌<◌, ◌≤◌, ◌+ℤ◌, IfOk};
ghost use Rattle.zonal_totals.specs.declared.pairs.Pair.{Pair};
ghost use Rattle.zonal_totals.specs.Pairs.{floor};
ghost use Rattle.zonal_totals.specs.Steps.{net_in, weight, StepsClimb};

use crate::steps::{Step, keep, together};
use map_nums::NoMemory;
use std::alloc::Global;

/// The changes of both lists, each in order, put together.
pub(crate) fn joined(alloc: Global, one: &[Step], other: &[Step]) -> Result<Vec<Step>, NoMemory>
    requires one { StepsClimb floor one.now }
    requires other { StepsClimb floor other.now }
    requires room { weight one.now + weight other.now < 2 ^ 31 }
    ensures order { IfOk result (λ steps. StepsClimb floor steps.items) }
    ensures net { IfOk result (λ steps. (p : Pair) → net_in steps.items p ≡ net_in one.now p +ℤ net_in other.now p) }
    ensures weight { IfOk result (λ steps. weight steps.items ≤ weight one.now + weight other.now) }
{
    let mut out = Vec::with_capacity(alloc, one.len() + other.len())?;
    let mut i = 0;
    let mut j = 0;
    while i < one.len() && j < other.len() {
        if one[i].pair.is_before(&other[j].pair) {
            out.push(one[i])?;
            i += 1;
        } else if other[j].pair.is_before(&one[i].pair) {
            out.push(other[j])?;
            j += 1;
        } else {
            keep(&mut out, together(&one[i], &other[j]))?;
            i += 1;
            j += 1;
        }
    }
    out.extend_from_slice(&one[i..])?;
    out.extend_from_slice(&other[j..])?;
    Ok(out)
}
