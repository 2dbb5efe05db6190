//! The statements of a depth put together.
ghost use Rattle.std.specs.Prelude.{◌≡◌, ◌-◌, ◌*◌, ◌≤◌, length, IfOk, sum_by};
ghost use Rattle.layer_tiles.specs.Tallies.{RisesBy};
ghost use Rattle.map_waves.specs.Plans.{damage_at};
ghost use Rattle.map_waves.specs.Bases.{IsBase, plan_of};
ghost use Rattle.map_waves.specs.Prepared.{ArePrepared};
ghost use Rattle.map_waves.specs.Tasks.{AreTasks, places_of};
ghost use Rattle.map_waves.specs.Begun.{AreBegun};
ghost use Rattle.map_waves.specs.Seating.{AreAnswered};
ghost use Rattle.map_waves.specs.Refusals.{AllOkTo};

use crate::finish::{fill, finish_step, take_pieces};
use crate::jobs::{Jobs, Maker};
use crate::keeping::Made;
use crate::plans::{Base, Step};
use crate::tasks::Depth;
use crate::tickets::count_of;
use layer_tiles::{KernelRefusal, Tally};
use map_nums::NoMemory;
use std::alloc::Global;

/// What is prepared of the statements of one depth: of those at work what was made, and nothing of those that stay.
pub(crate) fn finish_all<'o, 'a, K: Maker, M: Tally>(
    alloc: Global,
    base: &Base<'a, K::Beside>,
    steps: &[Step<K::Op>],
    depth: &Depth<'o, 'a>,
    jobs: Vec<Jobs<'o, 'a, K::Op, K::Beside, K::Own>>,
    answers: Vec<Result<K::Piece, KernelRefusal>>,
    tally: &mut M,
) -> Result<Vec<Option<Made<K::Beside>>>, NoMemory>
    requires base { IsBase base.now }
    requires some { depth.now.first ≤ depth.now.end }
    requires tasks { AreTasks K.means K.formed K.suits base.now steps.now depth.now.first depth.now.end depth.now.tasks.now }
    requires begun { AreBegun K.means K.sound K.first K.looks K.picks K.pieces base.now steps.now depth.now.tasks.now jobs.items }
    requires all { length jobs.items ≡ length depth.now.tasks.now }
    requires answered { AreAnswered K.pieces jobs.items answers.items }
    requires ok { AllOkTo jobs.items answers.items (length jobs.items) }
    ensures count { IfOk result (λ more. length more.items ≡ depth.now.end - depth.now.first) }
    ensures prepared { IfOk result (λ more. ArePrepared K.means K.suits base.now steps.now depth.now.first more.items) }
    ensures tally { RisesBy (2 * sum_by (λ k. length (damage_at (plan_of K.means base.now steps.now) k)) (places_of depth.now.tasks.now)) 0 (M.counts tally.old) (M.counts tally.new) }
{
    let mut more = Vec::new(alloc);
    let mut queue = jobs.into_iter();
    let mut rest = answers.into_iter();
    let mut place = 0;
    let tasks = depth.tasks;
    'turns: while let Some(own) = queue.next() {
        let task = &tasks[place];
        fill(&mut more, task.place - depth.first)?;
        let count = count_of(&own);
        let pieces = take_pieces(alloc, &mut rest, count)?;
        let made = finish_step::<K, M>(alloc, base, &steps[task.place], own, pieces, tally)?;
        more.push(Some(made))?;
        place += 1;
    }
    fill(&mut more, depth.end - depth.first)?;
    Ok(more)
}
