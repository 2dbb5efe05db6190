//! All statements are repaired, and what is wrong with one is told by its name.

ghost use Rattle.std.specs.Prelude.{◌≡◌, ◌^◌, ◌<◌, ◌≤◌, ◌*◌, ℕ, false, length, IfOk, Some, slice_get};
ghost use Rattle.layer_tiles.specs.Tallies.{RisesBy, IsUndivided};
ghost use Rattle.statement_parser.specs.Views.{op_view};
ghost use Rattle.map_waves.specs.Plans.{changed_to, evaluated_to, worked_to};
ghost use Rattle.map_waves.specs.Bases.{IsBase, ArePlanned, AreRight, plan_of};
ghost use Rattle.map_waves.specs.Prepared.{ArePrepared};
ghost use Rattle.map_waves.specs.Phases.{AreFaultless};
ghost use Rattle.op_jobs.specs.Beside.{suits};
ghost use Rattle.op_jobs.specs.Ranges.{HasRanges};
ghost use Rattle.kept_map.specs.Told.{IsToldOf, IsToldHalt, IsReachedBy};

use crate::halts::Halt;
use edit_plans::Planned;
use indexmap::IndexSet;
use layer_tiles::{Extent, Tally};
use map_nums::NoMemory;
use map_waves::{Base, Counts, Made, Stop, count_all, repair_all};
use map_words::Name;
use op_jobs::{Beside, Statements};
use std::alloc::Global;
use std::thread::Threads;
use tile_workers::{Crew, Gate};

/// What was made of all statements, and the counts of it.
#[derive(Drop)]
pub struct Prepared {
    pub made: Vec<Option<Made<Beside>>>,
    pub counts: Counts,
}

/// Repairs all statements of a plan by the workers at hand.
///
/// # Errors
///
/// The first statement with a fault, by depth, then in order of place, and which fault. `NoMemory` where there is none.
pub fn repair<M: Tally + Send, G: Gate + Sync, R: Threads + Sync>(
    crew: &Crew<'_, R, G>,
    base: &Base<'_, Beside>,
    planned: &Planned,
    tally: &mut M,
) -> Result<Prepared, Halt>
    requires base { IsBase base.now }
    requires planned { ArePlanned op_view (λ o. HasRanges (op_view o)) base.now planned.now.steps.items }
    requires right { AreRight op_view suits base.now planned.now.steps.items }
    requires named { length planned.now.names.keys ≡ length planned.now.steps.items }
    requires few { length planned.now.steps.items < 2 ^ 31 }
    requires whole { 1 < crew.now.workers → IsUndivided (M.counts tally.old) }
    ensures count { IfOk result (λ r. length r.made.items ≡ length planned.now.steps.items) }
    ensures made { IfOk result (λ r. ArePrepared op_view suits base.now planned.now.steps.items 0 r.made.items) }
    ensures changed { IfOk result (λ r. r.counts.changed ≡ changed_to (plan_of op_view base.now planned.now.steps.items) (length planned.now.steps.items)) }
    ensures evaluated { IfOk result (λ r. r.counts.evaluated ≡ evaluated_to (plan_of op_view base.now planned.now.steps.items) (length planned.now.steps.items)) }
    ensures worked { IfOk result (λ r. r.counts.worked ≡ worked_to (plan_of op_view base.now planned.now.steps.items) (length planned.now.steps.items)) }
    ensures faultless { IfOk result (λ r. AreFaultless (plan_of op_view base.now planned.now.steps.items) 0 (length planned.now.steps.items)) }
    ensures halted { IsToldHalt base.now.extent (plan_of op_view base.now planned.now.steps.items) planned.now.names.keys result }
    ensures tally { let plan = plan_of op_view base.now planned.now.steps.items in
        (end : ℕ) × IsReachedBy plan planned.now.names.keys planned.now.steps.items result end × RisesBy (62 * evaluated_to plan end) (1000 * worked_to plan end) (M.counts tally.old) (M.counts tally.new) }
{
    match repair_all::<Statements, M, G, R>(crew, base, planned.steps.as_slice(), tally) {
        Ok(made) => {
            let counts = count_all::<Statements>(base, planned.steps.as_slice(), made.as_slice());
            Ok(Prepared { made, counts })
        }
        Err(stop) => Err(told(crew.alloc, base.extent, &planned.names, stop)),
    }
}

/// Names the statement that stopped all others.
fn told(alloc: Global, extent: Extent, names: &IndexSet<Name>, stop: Stop) -> Halt
    ensures { IsToldOf extent names.now.keys stop result }
{
    match stop {
        Stop::Viewers(place, count) => match name_at(alloc, names, place) {
            Ok(name) => Halt::Viewers(name, count),
            Err(_) => Halt::NoMemory,
        },
        Stop::Overflow(place, at) => match name_at(alloc, names, place) {
            Ok(name) => {
                let row = u64::from(at / extent.columns()) + 1;
                let column = u64::from(at % extent.columns()) + 1;
                Halt::Overflow(name, row, column)
            }
            Err(_) => Halt::NoMemory,
        },
        Stop::NoMemory => Halt::NoMemory,
    }
}

/// A copy of the name at a place.
fn name_at(alloc: Global, names: &IndexSet<Name>, place: usize) -> Result<Name, NoMemory>
    ensures { IfOk result (λ name. slice_get names.now.keys place ≡ Some name) }
{
    match names.get_index(place) {
        Some(name) => name.copy(alloc),
        None => Err(NoMemory),
    }
}
