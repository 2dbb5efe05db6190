//! A work over a list that it borrows, whose jobs take memory.
ghost use Rattle.std.specs.Prelude.{◌≡◌, ℕ, ◌*◌, ◌^◌, ◌<◌, ◌≤◌, false, IfOk, ⊤, vec_len, length, slice_index, slice_index_or};
ghost use Rattle.layer_tiles.specs.Tallies.{IsUndivided};

use layer_tiles::Tally;
use map_nums::NoMemory;
use std::alloc::Global;
use std::thread::Threads;
use tile_workers::{Gate, Seat, Work, run_phase};

/// The values of a borrowed list, each doubled, in a list of its own. A job takes a look.
#[derive(Drop)]
pub struct Doubles<'a> {
    pub values: &'a [u32],
    pub alloc: Global,
}

impl<'a> Work for Doubles<'a> {
    type Done = Result<Vec<u64>, NoMemory>;

    ghost ready = { λ _. ⊤ };

    ghost jobs = { λ s. length s.values.now };

    ghost looks = { λ s k. 1 };

    ghost picks = { λ s k. 0 };

    ghost answers = { λ s k d. IfOk d (λ v. (vec_len v ≡ 1) × (slice_index v.items 0 ≡ 2 * slice_index s.values.now k)) };

    fn job<M: Tally + Send>(
        &self,
        _seat: &Seat,
        ticket: u64,
        tally: &mut M,
    ) -> Result<Vec<u64>, NoMemory> {
        tally.look();
        let mut list = Vec::new(self.alloc);
        list.push(u64::from(self.values[ticket as usize]) * 2)?;
        Ok(list)
    }
}

/// Each value doubled, by so many workers.
pub fn doubled<G: Gate + Sync, M: Tally + Send, R: Threads + Sync>(
    rt: &R,
    alloc: Global,
    values: &[u32],
    workers: u32,
    gate: &G,
    tally: &mut M,
) -> Result<Vec<Result<Vec<u64>, NoMemory>>, NoMemory>
    requires count { length values.now < 2 ^ 32 }
    requires workers { (0 < workers) × (workers ≤ 64) }
    requires whole { 1 < workers → IsUndivided (M.counts tally.old) }
    ensures len { IfOk result (λ v. vec_len v ≡ length values.now) }
    ensures each { IfOk result (λ v. (k : ℕ) (d : _) → k < length values.now → IfOk (slice_index_or v.items k d) (λ w. slice_index w.items 0 ≡ 2 * slice_index values.now k)) }
    ensures kept { ((M.counts tally.new).parts_out ≡ (M.counts tally.old).parts_out) × ((M.counts tally.new).is_part ≡ (M.counts tally.old).is_part) }
{
    let work = Doubles { values, alloc };
    run_phase(rt, alloc, values.len() as u64, workers, gate, tally, &work)
}
