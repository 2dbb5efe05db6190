//! What an edit makes of all statements, with all memory that it wants, before anything is put in place.

ghost use Rattle.std.specs.Prelude.{◌≡◌, ℕ, ◌<◌, ◌≤◌, false, List, length, IfOk, IfErr};
ghost use Rattle.layer_tiles.specs.Tallies.{IsUndivided};
ghost use Rattle.map_edits.specs.WholeStates.{WholeState};
ghost use Rattle.map_edits.specs.WholeEdits.{WholeEdit};
ghost use Rattle.kept_map.specs.Maps.{names_with};
ghost use Rattle.kept_map.specs.Keeps.{IsKept};
ghost use Rattle.kept_map.specs.Edits.{IsSetUp, IsReplanned, IsSamePlan};
ghost use Rattle.kept_map.specs.Halts.{IsHaltOf};
ghost use Rattle.kept_map.specs.Planning.{IsPlannedFor};
ghost use Rattle.kept_map.specs.Repairs.{IsPreparedFor, RisesByRest};
ghost use Rattle.kept_map.specs.Rooms.{HasRoom};

use crate::flats::FlatsAfter;
use crate::halts::Halt;
use crate::maps::KeptMap;
use crate::repairing::{Prepared, repair};
use crate::room::Room;
use edit_plans::{Planned, SourceNames, make_plan};
use layer_tiles::Tally;
use map_waves::{Base, Shift};
use map_words::Name;
use procedure_expand::Flat;
use statement_graph::Graph;
use std::thread::Threads;
use tile_workers::{Crew, Gate};

/// A plan of all statements, what was made of them, and room to put it in place.
#[derive(Drop)]
pub struct Replanned {
    pub planned: Planned,
    pub prepared: Prepared,
    pub room: Room,
}

/// Repairs the statements of a plan over what is kept of a map.
fn repaired<M: Tally + Send, G: Gate + Sync, R: Threads + Sync>(
    crew: &Crew<'_, R, G>,
    map: &KeptMap,
    shift: Shift<'_>,
    planned: &Planned,
    tally: &mut M,
) -> Result<Prepared, Halt>
    requires kept { IsKept map.now }
    requires planned { (e : WholeEdit) × (t : WholeState) × (sources : List (List ℕ)) × IsPlannedFor map.now e t shift sources planned.now.names.keys planned.now.steps.items }
    requires whole { 1 < crew.now.workers → IsUndivided (M.counts tally.old) }
    ensures prepared { (e : WholeEdit) (t : WholeState) (sources : List (List ℕ)) → IsPlannedFor map.now e t shift.entry sources planned.now.names.keys planned.now.steps.items
        → IfOk result (IsPreparedFor map.now e t shift.entry sources planned.now.names.keys planned.now.steps.items) }
    ensures halted { (e : WholeEdit) (t : WholeState) (sources : List (List ℕ)) → IsPlannedFor map.now e t shift.entry sources planned.now.names.keys planned.now.steps.items → IfErr result (IsHaltOf e t) }
    ensures tally { (e : WholeEdit) (t : WholeState) (sources : List (List ℕ)) → IsPlannedFor map.now e t shift.entry sources planned.now.names.keys planned.now.steps.items
        → RisesByRest map.now e t (M.counts tally.old) (M.counts tally.new) }
{
    let base = Base {
        extent: map.extent,
        sources: map.sources.layers.as_slice(),
        shift,
        kept: map.kept.as_slice(),
    };
    let prepared = repair(crew, &base, planned, tally)?;
    Ok(prepared)
}

/// Repairs the statements of a map after an edit that leaves them as they are written.
///
/// # Errors
///
/// The first statement with a fault, by depth, then in order of place, and which fault. `NoMemory`.
pub fn prepare_kept<M: Tally + Send, G: Gate + Sync, R: Threads + Sync>(
    crew: &Crew<'_, R, G>,
    map: &KeptMap,
    shift: Shift<'_>,
    tally: &mut M,
) -> Result<Prepared, Halt>
    requires kept { IsKept map.now }
    requires set_up { (e : WholeEdit) × (t : WholeState) × IsSetUp map.now e t shift map.now.sources.names.keys × IsSamePlan map.now e t }
    requires whole { 1 < crew.now.workers → IsUndivided (M.counts tally.old) }
    ensures prepared { (e : WholeEdit) (t : WholeState) → IsSetUp map.now e t shift.entry map.now.sources.names.keys → IsSamePlan map.now e t
        → IfOk result (IsPreparedFor map.now e t shift.entry map.now.sources.names.keys map.now.planned.names.keys map.now.planned.steps.items) }
    ensures halted { (e : WholeEdit) (t : WholeState) → IsSetUp map.now e t shift.entry map.now.sources.names.keys → IsSamePlan map.now e t → IfErr result (IsHaltOf e t) }
    ensures tally { (e : WholeEdit) (t : WholeState) → IsSetUp map.now e t shift.entry map.now.sources.names.keys → IsSamePlan map.now e t → RisesByRest map.now e t (M.counts tally.old) (M.counts tally.new) }
{
    repaired(crew, map, shift, &map.planned, tally)
}

/// Plans the statements of a map after an edit, repairs them, and takes room for what is made. `written` are the flat statements that the
/// edit wrote, `added` is the name of a source that it adds.
///
/// # Errors
///
/// The first statement with a fault, by depth, then in order of place, and which fault. `NoMemory`.
pub fn prepare<M: Tally + Send, G: Gate + Sync, R: Threads + Sync>(
    crew: &Crew<'_, R, G>,
    map: &KeptMap,
    shift: Shift<'_>,
    graph: &Graph,
    added: Option<&Name>,
    edited: &Name,
    written: &[Flat],
    tally: &mut M,
) -> Result<Replanned, Halt>
    requires kept { IsKept map.now }
    requires set_up { (e : WholeEdit) × (t : WholeState) × IsSetUp map.now e t shift (names_with map.now.sources added) × IsReplanned map.now e t (names_with map.now.sources added) graph.now edited.now written.now }
    requires whole { 1 < crew.now.workers → IsUndivided (M.counts tally.old) }
    ensures prepared { (e : WholeEdit) (t : WholeState) → IsSetUp map.now e t shift.entry (names_with map.now.sources added.entry) → IsReplanned map.now e t (names_with map.now.sources added.entry) graph.now edited.now written.now
        → IfOk result (λ p. IsPreparedFor map.now e t shift.entry (names_with map.now.sources added.entry) p.planned.names.keys p.planned.steps.items p.prepared) }
    ensures room { IfOk result (λ p. HasRoom (length map.now.kept.items) (length p.planned.steps.items) p.room) }
    ensures halted { (e : WholeEdit) (t : WholeState) → IsSetUp map.now e t shift.entry (names_with map.now.sources added.entry) → IsReplanned map.now e t (names_with map.now.sources added.entry) graph.now edited.now written.now → IfErr result (IsHaltOf e t) }
    ensures tally { (e : WholeEdit) (t : WholeState) → IsSetUp map.now e t shift.entry (names_with map.now.sources added.entry) → IsReplanned map.now e t (names_with map.now.sources added.entry) graph.now edited.now written.now → RisesByRest map.now e t (M.counts tally.old) (M.counts tally.new) }
{
    let sources = SourceNames {
        held: &map.sources.names,
        added,
    };
    let flats = FlatsAfter {
        names: &map.names,
        edited,
        written,
    };
    let planned = make_plan(crew.alloc, graph, sources, &flats, &map.planned.names)?;
    let prepared = repaired(crew, map, shift, &planned, tally)?;
    let room = Room::of(crew.alloc, map.kept.len(), planned.steps.len())?;
    Ok(Replanned {
        planned,
        prepared,
        room,
    })
}
