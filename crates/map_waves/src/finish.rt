//! The pieces of statements put together.
ghost use Rattle.std.specs.Prelude.{◌≡◌, ℕ, ◌+◌, ◌-◌, ◌*◌, ◌<◌, ◌≤◌, length, Some, None, Ok, slice_get, IfOk, take, drop, sum_by};
ghost use Rattle.std.specs.Vec.Iter.{into_iter_items, into_iter_len};
ghost use Rattle.layer_tiles.specs.Operands.{cells_after};
ghost use Rattle.layer_tiles.specs.Narrowed.{narrowed};
ghost use Rattle.layer_tiles.specs.Patches.{IsPatch};
ghost use Rattle.layer_tiles.specs.Tallies.{looked, RisesBy};
ghost use Rattle.map_waves.specs.Statements.{damage_by, fault_in};
ghost use Rattle.map_waves.specs.Jobs.{AreOver};
ghost use Rattle.map_waves.specs.Answers.{AllOk, AreJobs};
ghost use Rattle.map_waves.specs.Plans.{reckoned};
ghost use Rattle.map_waves.specs.Bases.{IsBase, kept_by, step_of};
ghost use Rattle.map_waves.specs.Prepared.{IsMade};
ghost use Rattle.map_waves.specs.Tasks.{reckoned_kept};
ghost use Rattle.map_waves.specs.Filled.{IsFilled};

use crate::jobs::{Jobs, Maker};
use crate::keeping::{Kept, Made};
use crate::operands::kept_of;
use crate::plans::{Base, Step};
use layer_tiles::{KernelRefusal, Tally};
use map_nums::NoMemory;
use std::alloc::Global;
use std::vec::IntoIter;

/// The next pieces of a row of answers that are all there.
pub(crate) fn take_pieces<P: Drop>(
    alloc: Global,
    answers: &mut IntoIter<Result<P, KernelRefusal>, Global>,
    count: u64,
) -> Result<Vec<P>, NoMemory>
    requires some { count ≤ into_iter_len answers.old }
    requires ok { AllOk (take count (into_iter_items answers.old)) }
    ensures rest { IfOk result (λ _. into_iter_items answers.new ≡ drop count (into_iter_items answers.old)) }
    ensures left { IfOk result (λ _. into_iter_len answers.new + count ≡ into_iter_len answers.old) }
    ensures count { IfOk result (λ pieces. length pieces.items ≡ count) }
    ensures each { IfOk result (λ pieces. (k : ℕ) (p : P) → slice_get pieces.items k ≡ Some p → slice_get (into_iter_items answers.old) k ≡ Some (Ok p)) }
{
    let mut pieces = Vec::new(alloc);
    for _place in 0..count {
        let Some(one) = answers.next() else {
            unreachable!();
        };
        let Ok(piece) = one else {
            unreachable!();
        };
        pieces.push(piece)?;
    }
    Ok(pieces)
}

/// Leaves out the tiles that came out as they were kept. Two looks each.
fn leave_out_same<B, M: Tally>(made: &mut Made<B>, kept: &Kept<B>, tally: &mut M)
    requires { kept.now.layer.size ≡ made.old.patch.size }
    ensures patch { IsPatch made.old.patch }
    ensures made { made.new ≡ record made.old { patch = record made.old.patch { tiles = narrowed kept.now.layer.size kept.now.layer.cells made.old.patch.tiles } } }
    ensures looks { M.counts tally.new ≡ looked (2 * length made.old.patch.tiles) (M.counts tally.old) }
{
    let _extent = made.patch.extent();
    made.patch.narrow(&kept.layer, tally);
}

/// What was made of a statement whose pieces are all there. Where the edit wrote it and it was defined before, the tiles that
/// came out the same are left out.
pub(crate) fn finish_step<K: Maker, M: Tally>(
    alloc: Global,
    base: &Base<'_, K::Beside>,
    step: &Step<K::Op>,
    jobs: Jobs<'_, '_, K::Op, K::Beside, K::Own>,
    pieces: Vec<K::Piece>,
    tally: &mut M,
) -> Result<Made<K::Beside>, NoMemory>
    requires base { IsBase base.now }
    requires jobs { AreJobs K.means K.sound K.first K.looks K.picks K.pieces jobs }
    requires over { AreOver jobs base.now.extent step.now.op jobs.operands (reckoned_kept base.now step.now) }
    requires count { length pieces.items ≡ jobs.count }
    requires each { (k : ℕ) (p : K.Piece) → slice_get pieces.items k ≡ Some p → K.pieces jobs k (Ok p) }
    requires faultless { fault_in base.now.extent (K.means step.now.op) (cells_after jobs.operands) ≡ None }
    ensures made { IfOk result (λ m. IsMade K.suits base.now.extent (step_of K.means base.now step.now) jobs.entry.operands (kept_by base.now step.now.kept) (Some m)) }
    ensures tally { RisesBy (2 * length (damage_by base.now.extent (K.means step.now.op) (reckoned (step_of K.means base.now step.now)) jobs.entry.operands)) 0 (M.counts tally.old) (M.counts tally.new) }
{
    let mut made = K::gather(alloc, jobs, pieces)?;
    if !step.written {
        return Ok(made);
    }
    match kept_of(base, step.kept) {
        None => Ok(made),
        Some(kept) => {
            leave_out_same(&mut made, kept, tally);
            Ok(made)
        }
    }
}

/// Makes a list longer with nothing.
pub(crate) fn fill<T: Drop>(list: &mut Vec<Option<T>>, count: usize) -> Result<(), NoMemory>
    requires { length list.old.items ≤ count }
    ensures { IfOk result (λ _. IsFilled count list.old.items list.new.items) }
{
    for _place in list.len()..count {
        list.push(None)?;
    }
    Ok(())
}
