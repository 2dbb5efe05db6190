//! Sources are painted.

ghost use Rattle.std.specs.Prelude.{◌≡◌, ◌*◌, ◌<◌, ◌≤◌, length, false, None, position, bytes_eq, IfOk, ℤ, Option};
ghost use Rattle.layer_tiles.specs.Tallies.{IsUndivided, RisesBy};
ghost use Rattle.map_nums.specs.Grids.{Grid};
ghost use Rattle.statement_parser.specs.Formed.{IsEdit};
ghost use Rattle.statement_parser.specs.Lines.{paint as paints};
ghost use Rattle.map_edits.specs.EditForms.{Rectangle as AnyRectangle, paint as any_paint};
ghost use Rattle.map_edits.specs.Painting as painting_specs;
ghost use Rattle.map_edits.specs.Touches.{touch_of};
ghost use Rattle.map_edits.specs.WholeEdits.{WholeEdit, of_names};
ghost use Rattle.kept_map.specs.Maps.{seen};
ghost use Rattle.kept_map.specs.Keeps.{IsKept};
ghost use Rattle.kept_map.specs.Repairs.{RisesByRest};
ghost use Rattle.live_engine.specs.Accepts.{ReadsWithin, Refuses};
ghost use Rattle.live_engine.specs.Inverses.{TakesBack, AcceptsBack, IsRepaintCarried};
ghost use Rattle.live_engine.specs.Painting.{rectangle_of, met_tiles};
ghost use Rattle.live_engine.specs.Repainting.{CanRepaint, HadTiles, IsRepainted, IsRepaintOf, IsRepaintDrafted, repainted_state};
ghost use Rattle.live_engine.specs.declared.inverses.Inverse.TheVariants as inverses;

use crate::counting::joined;
use crate::edits::{Accepted, Refusal};
use crate::halted::refused;
use crate::inverses::Inverse;
use crate::limits::has;
use crate::painting::{Painted, Rectangle, changed_by_paint};
use crate::settling::settle;
use kept_map::{KeptMap, prepare_kept};
use layer_tiles::{Cell, Extent, Patch, Tally};
use map_waves::Shift;
use map_words::Name;
use std::alloc::Global;
use std::thread::Threads;
use tile_workers::{Crew, Gate};

/// Whether a rectangle lies on the map.
fn is_within(extent: Extent, rectangle: Rectangle) -> bool
    ensures { result ≡ painting_specs.is_within extent (rectangle_of rectangle) }
{
    rectangle.top <= rectangle.bottom
        && rectangle.left <= rectangle.right
        && rectangle.bottom <= extent.rows()
        && rectangle.right <= extent.columns()
}

/// Why a name isn't painted, where it is no source.
fn no_source(map: &KeptMap, name: Name) -> Refusal
    requires kept { IsKept map.now }
    requires none { position (bytes_eq name) map.now.sources.names.keys ≡ None }
    ensures { (r : AnyRectangle) (cell : Option ℤ) → Refuses (seen map.now) (seen map.now) (of_names (any_paint name r cell)) result }
{
    if has(map, &name) {
        Refusal::Derived(name)
    } else {
        Refusal::Unknown(name)
    }
}

/// The tiles that a source is to have within a rectangle, and how many tiles meet it.
#[derive(Drop)]
pub struct Repaint {
    pub name: Name,
    pub rectangle: Rectangle,
    pub patch: Patch,
    pub met: u32,
}

/// The tiles that a paint changes, or why it is refused.
fn drafted<M: Tally>(
    map: &KeptMap,
    alloc: Global,
    name: Name,
    rectangle: Rectangle,
    cell: Cell,
    tally: &mut M,
) -> Result<Repaint, Refusal>
    requires kept { IsKept map.now }
    requires formed { IsEdit (paints name rectangle.top rectangle.left rectangle.bottom rectangle.right cell) }
    ensures drafted { IsRepaintDrafted map.now name (rectangle_of rectangle) cell result }
    ensures reads { ReadsWithin (seen map.now) (of_names (any_paint name (rectangle_of rectangle) cell)) (M.counts tally.old) (M.counts tally.new) }
    ensures looks { IfOk result (λ r. RisesBy (3 * length (met_tiles map.now.extent (rectangle_of rectangle))) 0 (M.counts tally.old) (M.counts tally.new)) }
{
    let extent = map.extent;
    let Some(place) = map.sources.names.get_index_of(&name) else {
        return Err(no_source(map, name));
    };
    if !is_within(extent, rectangle) {
        return Err(Refusal::Size(extent.rows() as u64, extent.columns() as u64));
    }
    let layer = &map.sources.layers[place];
    let Painted { patch, met } = changed_by_paint(alloc, layer, rectangle, cell, tally)?;
    Ok(Repaint {
        name,
        rectangle,
        patch,
        met,
    })
}

/// Puts a patch into the layer of a source, and answers the tiles that the layer had.
fn put(map: &mut KeptMap, place: usize, patch: Patch) -> Patch
    requires { CanRepaint map.old place patch }
    ensures put { IsRepainted map.old map.new place patch }
    ensures before { HadTiles map.old place patch result }
{
    let number = map.number;
    let layer = &mut map.sources.layers[place];
    let own = layer.exchange(patch, number);
    // Tells the proof that it is a layer.
    let _extent = layer.extent();
    own
}

/// A repaint that isn't carried out, and why.
#[derive(Drop)]
pub(crate) struct Unpainted {
    pub(crate) repaint: Repaint,
    pub(crate) refusal: Refusal,
}

/// Repairs the statements after a source is repainted, puts all in place, and answers the tiles that the source had; or the map is as it was.
pub(crate) fn carry<M: Tally + Send, G: Gate + Sync, R: Threads + Sync>(
    map: &mut KeptMap,
    crew: &Crew<'_, R, G>,
    repaint: Repaint,
    tally: &mut M,
) -> Result<(Accepted, Repaint), Unpainted>
    requires kept { IsKept map.old }
    requires draft { (e : WholeEdit) × (grid : Grid) × IsRepaintOf map.old e grid repaint }
    requires whole { 1 < crew.now.workers → IsUndivided (M.counts tally.old) }
    ensures carried { (e : WholeEdit) (grid : Grid) → IsRepaintOf map.old e grid repaint → IsRepaintCarried (seen map.old) (seen map.new) e repaint result }
    ensures before { IfOk result (λ r. (e : WholeEdit) (grid : Grid) → IsRepaintOf map.old e grid repaint → TakesBack (seen map.old) (seen map.new) (touch_of e) (inverses.Tiles r.1)) }
    ensures kept { IsKept map.new }
    ensures reads { (e : WholeEdit) (grid : Grid) → IsRepaintOf map.old e grid repaint → RisesByRest map.old e (repainted_state (seen map.old) repaint.name grid) (M.counts tally.old) (M.counts tally.new) }
{
    let Some(place) = map.sources.names.get_index_of(&repaint.name) else {
        unreachable!()
    };
    let shift = Shift::Painted(place, &repaint.patch);
    let prepared = match prepare_kept(crew, map, shift, tally) {
        Ok(prepared) => prepared,
        Err(halt) => {
            let refusal = refused(halt);
            return Err(Unpainted { repaint, refusal });
        }
    };
    let Repaint {
        name,
        rectangle,
        patch,
        met,
    } = repaint;
    let counts = joined(patch.len(), met, prepared.counts);
    settle(map, prepared);
    let patch = put(map, place, patch);
    let accepted = Accepted {
        number: map.number,
        counts,
    };
    let before = Repaint {
        name,
        rectangle,
        patch,
        met,
    };
    Ok((accepted, before))
}

/// Puts a cell into a rectangle of a source.
pub(crate) fn paint<M: Tally + Send, G: Gate + Sync, R: Threads + Sync>(
    map: &mut KeptMap,
    crew: &Crew<'_, R, G>,
    name: Name,
    rectangle: Rectangle,
    cell: Cell,
    tally: &mut M,
) -> Result<(Accepted, Inverse), Refusal>
    requires kept { IsKept map.old }
    requires formed { IsEdit (paints name rectangle.top rectangle.left rectangle.bottom rectangle.right cell) }
    requires whole { 1 < crew.now.workers → IsUndivided (M.counts tally.old) }
    ensures accepts { AcceptsBack (seen map.old) (seen map.new) (of_names (any_paint name (rectangle_of rectangle) cell)) result }
    ensures kept { IsKept map.new }
    ensures reads { ReadsWithin (seen map.old) (of_names (any_paint name (rectangle_of rectangle) cell)) (M.counts tally.old) (M.counts tally.new) }
{
    let repaint = match drafted(map, crew.alloc, name, rectangle, cell, tally) {
        Ok(repaint) => repaint,
        Err(refusal) => return Err(refusal),
    };
    match carry(map, crew, repaint, tally) {
        Ok((accepted, before)) => Ok((accepted, Inverse::Tiles(before))),
        Err(left) => Err(left.refusal),
    }
}
