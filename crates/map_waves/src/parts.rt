//! Parts of layers that were not there, found by workers side by side.
ghost use Rattle.std.specs.Prelude.{◌≡◌, ℕ, ◌*◌, ◌^◌, ◌<◌, ◌≤◌, length, Some, Ok, slice_get, IfOk, IfSome, sum_by};
ghost use Rattle.std.specs.List.{All, range_with_len};
ghost use Rattle.layer_tiles.specs.Tallies.{RisesBy, IsUndivided};
ghost use Rattle.map_waves.specs.Operands.{IsOperand};
ghost use Rattle.map_waves.specs.Keeping.{kept_now, was_of};
ghost use Rattle.map_waves.specs.Statements.{damage_by};
ghost use Rattle.map_waves.specs.Found.{AreFound};

use crate::jobs::Maker;
use crate::keeping::Kept;
use layer_tiles::{Extent, Operands, Tally};
use map_nums::NoMemory;
use std::alloc::Global;
use std::thread::Threads;
use tile_workers::{Crew, Gate, Seat, Work, run_by};

/// So many parts of a statement's layer, and what they are found from.
#[derive(Drop)]
struct Parts<'p, 'a, K: Maker> {
    alloc: Global,
    op: &'p K::Op,
    operands: &'p Operands<'a>,
    extent: Extent,
    ground: &'p K::Ground,
    count: u64,
    ghost is_grounded: { ∥ K.grounded extent (K.means op.now) operands.now count ground.now ∥₁ },
}

impl<'p, 'a, K: Maker> Work for Parts<'p, 'a, K> {
    ghost use Rattle.std.specs.Prelude.{IfOk, ⊤};

    type Done = Result<K::Part, NoMemory>;

    ghost ready = { λ _. ⊤ };

    ghost jobs = { λ w. w.count };

    ghost looks = { λ w k. K.finding w.extent (K.means w.op.now) w.operands.now w.count k };

    ghost picks = { λ w k. 0 };

    ghost answers = { λ w k d. IfOk d (K.part w.extent (K.means w.op.now) w.operands.now w.ground.now w.count k) };

    fn job<M: Tally + Send>(
        &self,
        _seat: &Seat,
        ticket: u64,
        tally: &mut M,
    ) -> Result<K::Part, NoMemory> {
        K::find_part(
            self.alloc,
            self.op,
            self.operands,
            self.extent,
            self.ground,
            self.count,
            ticket,
            tally,
        )
    }
}

/// What was found of all parts, in their order.
///
/// # Errors
///
/// `NoMemory` where one of them wants memory, or where there is none for the list.
pub fn all_found<P: Drop>(
    alloc: Global,
    answers: Vec<Result<P, NoMemory>>,
) -> Result<Vec<P>, NoMemory>
    ensures count { IfOk result (λ parts. length parts.items ≡ length answers.items) }
    ensures each { IfOk result (λ parts. (k : ℕ) (p : P) → slice_get parts.items k ≡ Some p → slice_get answers.items k ≡ Some (Ok p)) }
{
    let count = answers.len();
    let mut rest = answers.into_iter();
    let mut parts = Vec::with_capacity(alloc, count)?;
    for _place in 0..count {
        let Some(one) = rest.next() else {
            unreachable!();
        };
        let Ok(part) = one else {
            return Err(NoMemory);
        };
        parts.push(part)?;
    }
    Ok(parts)
}

/// All parts, by no more workers than there are parts.
fn find_all<K: Maker + Sync, M: Tally + Send, G: Gate + Sync, R: Threads + Sync>(
    crew: &Crew<'_, R, G>,
    op: &K::Op,
    operands: &Operands<'_>,
    extent: Extent,
    ground: &K::Ground,
    count: u64,
    tally: &mut M,
) -> Result<Vec<K::Part>, NoMemory>
    requires ground { K.grounded extent (K.means op.now) operands.now count ground.now }
    requires few { count < 2 ^ 32 }
    requires whole { 1 < crew.now.workers → IsUndivided (M.counts tally.old) }
    ensures found { IfOk result (λ parts. AreFound K.grounded K.part extent (K.means op.now) operands.now ground.now parts.items) }
    ensures looks { RisesBy (sum_by (K.finding extent (K.means op.now) operands.now count) (range_with_len 0 count)) 0 (M.counts tally.old) (M.counts tally.new) }
{
    let hands = crew.at_most(count);
    let work: Parts<'_, '_, K> = Parts {
        alloc: crew.alloc,
        op,
        operands,
        extent,
        ground,
        count,
    };
    let answers = run_by(&hands, count, tally, &work)?;
    all_found(crew.alloc, answers)
}

/// What workers find of a layer that was not there before its jobs begin, where it is one that they make.
pub(crate) fn found_of<K: Maker + Sync, M: Tally + Send, G: Gate + Sync, R: Threads + Sync>(
    crew: &Crew<'_, R, G>,
    op: &K::Op,
    operands: &Operands<'_>,
    kept: Option<&Kept<K::Beside>>,
    extent: Extent,
    tally: &mut M,
) -> Result<Option<(K::Ground, Vec<K::Part>)>, NoMemory>
    requires formed { K.formed op.now }
    requires operands { All (IsOperand extent) operands.now }
    requires terms { length operands.now ≡ length ((K.means op.now).terms) }
    requires whole { 1 < crew.now.workers → IsUndivided (M.counts tally.old) }
    ensures found { IfOk result (λ found. IfSome found (λ q. AreFound K.grounded K.part extent (K.means op.now) operands.now q.0 q.1.items)) }
    ensures fit { K.grounding extent (K.means op.now) (was_of (kept_now kept.entry)) operands.now ≤ 60 * length (damage_by extent (K.means op.now) (was_of (kept_now kept.entry)) operands.now) }
    ensures looks { RisesBy (K.grounding extent (K.means op.now) (was_of (kept_now kept.entry)) operands.now) 0 (M.counts tally.old) (M.counts tally.new) }
{
    let workers = crew.workers();
    let found = K::ground_of(crew.alloc, op, operands, kept, extent, workers, tally)?;
    let Some((ground, count)) = found else {
        return Ok(None);
    };
    let parts = find_all::<K, M, G, R>(crew, op, operands, extent, &ground, count, tally)?;
    Ok(Some((ground, parts)))
}
