//! Edits of a name: drafted, then the statements are repaired, then all is put in place.

ghost use Rattle.std.specs.Prelude.{◌≡◌, ◌<◌, false, length, IfOk, IfErr};
ghost use Rattle.layer_tiles.specs.Tallies.{IsUndivided};
ghost use Rattle.map_edits.specs.Touches.{touch_of};
ghost use Rattle.map_edits.specs.WholeEdits.{WholeEdit};
ghost use Rattle.kept_map.specs.Halts.{IsHaltOf};
ghost use Rattle.kept_map.specs.Keeps.{IsKept};
ghost use Rattle.kept_map.specs.Maps.{seen};
ghost use Rattle.kept_map.specs.Repairs.{RisesByRest};
ghost use Rattle.kept_map.specs.Rooms.{HasRoom};
ghost use Rattle.live_engine.specs.Accepts.{ReadsWithin};
ghost use Rattle.live_engine.specs.Drafts.{IsDraft, IsDrafted, IsRepairedFor, HasRoomFor, draft_state};
ghost use Rattle.live_engine.specs.Inverses.{TakesBack, AcceptsBack, IsCarried};
ghost use Rattle.live_engine.specs.declared.inverses.Inverse.TheVariants as inverses;

use crate::edits::{Accepted, Refusal};
use crate::halted::refused;
use crate::inverses::Inverse;
use crate::placing::place;
use kept_map::{Halt, KeptMap, Replanned, prepare};
use layer_tiles::{Layer, Tally};
use map_marks::Marks;
use map_waves::Shift;
use map_words::Name;
use procedure_expand::Flat;
use statement_graph::Graph;
use statement_parser::Written;
use std::thread::Threads;
use tile_workers::{Crew, Gate};

/// What stands for a name after an edit.
#[derive(Drop)]
pub enum Change {
    /// A further source, at a place or after all names; the name once more, as the key of its layer.
    Source {
        key: Name,
        layer: Layer,
        place: Option<usize>,
    },
    /// A statement: where the name is there in its place, else at a place or after all names.
    Statement {
        written: Written,
        flats: Vec<Flat>,
        place: Option<usize>,
    },
    /// Nothing any more.
    Out,
}

/// An edit of a name that nothing speaks against but a fault of the statements.
#[derive(Drop)]
pub struct Draft {
    pub name: Name,
    pub change: Change,
    /// The graph after the edit.
    pub graph: Graph,
    /// The labels after the edit, where they are others.
    pub labels: Option<Marks>,
    /// The symbols after the edit, where they are others.
    pub symbols: Option<Marks>,
}

/// Plans the statements after an edit, and repairs them.
fn repaired<M: Tally + Send, G: Gate + Sync, R: Threads + Sync>(
    map: &KeptMap,
    crew: &Crew<'_, R, G>,
    draft: &Draft,
    tally: &mut M,
) -> Result<Replanned, Halt>
    requires kept { IsKept map.now }
    requires draft { (e : WholeEdit) × IsDraft map.now e draft.now }
    requires whole { 1 < crew.now.workers → IsUndivided (M.counts tally.old) }
    ensures repaired { (e : WholeEdit) → IsDraft map.now e draft.now → IfOk result (λ p. IsRepairedFor map.now e draft.now p.planned p.prepared) }
    ensures room { IfOk result (λ p. HasRoom (length map.now.kept.items) (length p.planned.steps.items) p.room) }
    ensures halted { (e : WholeEdit) → IsDraft map.now e draft.now → IfErr result (IsHaltOf e (draft_state (seen map.now) draft.now)) }
    ensures tally { (e : WholeEdit) → IsDraft map.now e draft.now → RisesByRest map.now e (draft_state (seen map.now) draft.now) (M.counts tally.old) (M.counts tally.new) }
{
    let Draft {
        name,
        change,
        graph,
        ..
    } = draft;
    match change {
        Change::Source { layer, .. } => {
            // Tells the proof that it is a layer.
            let _extent = layer.extent();
            let shift = Shift::Loaded(layer);
            prepare(crew, map, shift, graph, Some(name), name, &[], tally)
        }
        Change::Statement { flats, .. } => {
            let flats = flats.as_slice();
            prepare(crew, map, Shift::Nothing, graph, None, name, flats, tally)
        }
        Change::Out => prepare(crew, map, Shift::Nothing, graph, None, name, &[], tally),
    }
}

/// An edit that isn't carried out, and why.
#[derive(Drop)]
pub(crate) struct Left {
    pub(crate) draft: Draft,
    pub(crate) refusal: Refusal,
}

/// Carries an edit out, and answers what stood for its name before; or the map is as it was. There is room for it.
pub(crate) fn carry<M: Tally + Send, G: Gate + Sync, R: Threads + Sync>(
    map: &mut KeptMap,
    crew: &Crew<'_, R, G>,
    draft: Draft,
    tally: &mut M,
) -> Result<(Accepted, Draft), Left>
    requires kept { IsKept map.old }
    requires draft { (e : WholeEdit) × IsDraft map.old e draft }
    requires room { HasRoomFor map.old draft.change }
    requires whole { 1 < crew.now.workers → IsUndivided (M.counts tally.old) }
    ensures carried { (e : WholeEdit) → IsDraft map.old e draft → IsCarried (seen map.old) (seen map.new) e draft result }
    ensures before { IfOk result (λ r. (e : WholeEdit) → IsDraft map.old e draft → TakesBack (seen map.old) (seen map.new) (touch_of e) (inverses.Name r.1)) }
    ensures kept { IsKept map.new }
    ensures reads { (e : WholeEdit) → IsDraft map.old e draft → ReadsWithin (seen map.old) e (M.counts tally.old) (M.counts tally.new) }
{
    let replanned = match repaired(map, crew, &draft, tally) {
        Ok(replanned) => replanned,
        Err(halt) => {
            let refusal = refused(halt);
            return Err(Left { draft, refusal });
        }
    };
    match draft.name.copy(crew.alloc) {
        Ok(key) => Ok(place(map, draft, key, replanned)),
        Err(_) => Err(Left {
            draft,
            refusal: Refusal::NoMemory,
        }),
    }
}

/// Carries an edit out where it was drafted; or the map is as it was. There is room for it.
pub(crate) fn carry_out<M: Tally + Send, G: Gate + Sync, R: Threads + Sync>(
    map: &mut KeptMap,
    crew: &Crew<'_, R, G>,
    drafted: Result<Draft, Refusal>,
    tally: &mut M,
) -> Result<(Accepted, Inverse), Refusal>
    requires kept { IsKept map.old }
    requires drafted { (e : WholeEdit) × IsDrafted map.old e drafted }
    requires room { IfOk drafted (λ d. HasRoomFor map.old d.change) }
    requires whole { 1 < crew.now.workers → IsUndivided (M.counts tally.old) }
    ensures accepts { (e : WholeEdit) → IsDrafted map.old e drafted → AcceptsBack (seen map.old) (seen map.new) e result }
    ensures kept { IsKept map.new }
    ensures reads { (e : WholeEdit) → IsDrafted map.old e drafted → ReadsWithin (seen map.old) e (M.counts tally.old) (M.counts tally.new) }
{
    let draft = match drafted {
        Ok(draft) => draft,
        Err(refusal) => return Err(refusal),
    };
    match carry(map, crew, draft, tally) {
        Ok((accepted, before)) => Ok((accepted, Inverse::Name(before))),
        Err(left) => Err(left.refusal),
    }
}
