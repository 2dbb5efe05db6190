//! The statements of a depth that are at work.
ghost use Rattle.std.specs.Prelude.{◌≡◌, ◌<◌, ◌≤◌, length, IfOk};
ghost use Rattle.map_waves.specs.Bases.{IsBase, ArePlanned, AreRight};
ghost use Rattle.map_waves.specs.Prepared.{ArePrepared};
ghost use Rattle.map_waves.specs.Phases.{AreAlike};
ghost use Rattle.map_waves.specs.Tasks.{AreTasks};

use crate::jobs::Maker;
use crate::keeping::Made;
use crate::operands::operands_of;
use crate::plans::{Base, Step};
use crate::skips::stays;
use layer_tiles::Operands;
use map_nums::NoMemory;
use std::alloc::Global;

/// A statement that is at work: its place and its operands.
#[derive(Drop)]
pub(crate) struct Task<'a> {
    pub(crate) place: usize,
    pub(crate) operands: Operands<'a>,
}

/// The statements of one depth: the places from `first` on, up to `end`, and those of them that are at work.
#[derive(Clone, Copy)]
pub(crate) struct Depth<'o, 'a> {
    pub(crate) first: usize,
    pub(crate) end: usize,
    pub(crate) tasks: &'o [Task<'a>],
}

/// The statements of one depth that don't stay as they were. Those before them are prepared.
pub(crate) fn tasks_of<'a, K: Maker>(
    alloc: Global,
    base: &Base<'a, K::Beside>,
    steps: &[Step<K::Op>],
    prepared: &'a [Option<Made<K::Beside>>],
    end: usize,
) -> Result<Vec<Task<'a>>, NoMemory>
    requires base { IsBase base.now }
    requires planned { ArePlanned K.means K.formed base.now steps.now }
    requires right { AreRight K.means K.suits base.now steps.now }
    requires prepared { ArePrepared K.means K.suits base.now steps.now 0 prepared.now }
    requires some { length prepared.now < end }
    requires most { end ≤ length steps.now }
    requires alike { AreAlike steps.now (length prepared.now) end }
    ensures { IfOk result (λ tasks. AreTasks K.means K.formed K.suits base.now steps.now (length prepared.now) end tasks.items) }
{
    let mut tasks = Vec::new(alloc);
    for place in prepared.len()..end {
        let step = &steps[place];
        if stays::<K>(base, steps, prepared, step) {
            continue;
        }
        let operands = operands_of::<K>(base, steps, prepared, step);
        tasks.push(Task { place, operands })?;
    }
    Ok(tasks)
}
