//! Branches as jobs.

ghost use Rattle.std.specs.Prelude.{◌≡◌, ◌<◌, length};
ghost use Rattle.layer_tiles.specs.Tallies.{RisesBy};

use crate::items::{Told, tell_branch};
use layer_tiles::Tally;
use live_engine::Engine;
use map_nums::NoMemory;
use map_outside::Counts;
use statement_parser::Item;
use std::alloc::Global;
use std::thread::Threads;
use tile_workers::{Crew, NoGate, Seat, Work};

/// Branches to try, each from the state of an engine and by one worker.
pub(crate) struct Trials<'a, R> {
    pub(crate) rt: &'a R,
    pub(crate) alloc: Global,
    pub(crate) base: &'a Engine,
    pub(crate) branches: &'a [Vec<Item>],
}

impl<R> Drop for Trials<'_, R> {
    fn drop(self) {
        let Trials {
            rt: _,
            alloc: _,
            base: _,
            branches: _,
        } = self;
    }
}

impl<R: Threads + Sync> Work for Trials<'_, R> {
    ghost use Rattle.std.specs.Prelude.{length, IfOk};
    ghost use denote.Param.Send.{IsSync};
    ghost use Rattle.statement_parser.specs.Formed.{Each, IsItem};
    ghost use Rattle.statement_parser.specs.Views.{branches_view};
    ghost use Rattle.map_machine.specs.RequestReads.{items_reads};
    ghost use Rattle.what_if.specs.Tried.{branch_at, AreTold};

    type Done = Result<Vec<Told>, NoMemory>;

    ghost ready = { λ w. IsSync R.row × Each (Each IsItem) (branches_view w.branches.now) };

    ghost jobs = { λ w. length w.branches.now };

    ghost looks = { λ w k. (items_reads w.base.now (branch_at (branches_view w.branches.now) k)).looks };

    ghost picks = { λ w k. (items_reads w.base.now (branch_at (branches_view w.branches.now) k)).picks };

    ghost answers = { λ w k told. IfOk told (λ told. AreTold w.base.now (branch_at (branches_view w.branches.now) k) told.items) };

    fn job<M: Tally + Send>(
        &self,
        _seat: &Seat,
        ticket: u64,
        tally: &mut M,
    ) -> Result<Vec<Told>, NoMemory> {
        let alone = Crew::new(self.rt, self.alloc, &NoGate, 1);
        let mut counts = Counts::new();
        let items = self.branches[ticket as usize].as_slice();
        let told = tell_branch(&alone, self.base, items, &mut counts);
        look_often(counts.looks(), tally);
        pick_often(counts.picks(), tally);
        told
    }
}

/// Tells a tally of so many looks.
fn look_often<M: Tally>(looks: u64, tally: &mut M)
    ensures { RisesBy looks 0 (M.counts tally.old) (M.counts tally.new) }
{
    for _look in 0..looks {
        tally.look();
    }
}

/// Tells a tally of so many picks.
fn pick_often<M: Tally>(picks: u64, tally: &mut M)
    ensures { RisesBy 0 picks (M.counts tally.old) (M.counts tally.new) }
{
    for _pick in 0..picks {
        tally.pick();
    }
}
