//! Sources that are loaded or made new.

ghost use Rattle.std.specs.Prelude.{◌≡◌, ◌<◌, false, IfOk, IsTrue, None};
ghost use Rattle.map_words.specs.Names.{is_plain};
ghost use Rattle.layer_tiles.specs.Tallies.{IsUndivided};
ghost use Rattle.map_edits.specs.Entries.{find_def};
ghost use Rattle.map_edits.specs.EditForms as edits;
ghost use Rattle.map_edits.specs.EntriesAfter.{same_size as is_same_size};
ghost use Rattle.map_edits.specs.WholeEdits.{of_names};
ghost use Rattle.kept_map.specs.Maps.{grid_of, entries_in, seen};
ghost use Rattle.kept_map.specs.Keeps.{IsKept};
ghost use Rattle.kept_map.specs.Rooms.{HasNextRoom};
ghost use Rattle.live_engine.specs.Accepts.{ReadsWithin};
ghost use Rattle.live_engine.specs.Inverses.{AcceptsBack};
ghost use Rattle.live_engine.specs.Adding.{IsAdding};
ghost use Rattle.live_engine.specs.Drafts.{IsDrafted, HasRoomFor};

use crate::drafts::{Change, Draft, carry_out};
use crate::edits::{Accepted, Refusal, Which};
use crate::graphs::with_source;
use crate::inverses::Inverse;
use crate::limits::{MOST_SOURCES, has, sources};
use kept_map::KeptMap;
use layer_tiles::{Cell, Extent, Layer, Tally};
use map_words::Name;
use std::alloc::Global;
use std::thread::Threads;
use tile_workers::{Crew, Gate};

fn same_size(one: Extent, other: Extent) -> bool
    ensures { result ≡ is_same_size one other }
{
    one.rows() == other.rows() && one.columns() == other.columns()
}

/// Loads a layer.
pub(crate) fn load<M: Tally + Send, G: Gate + Sync, R: Threads + Sync>(
    map: &mut KeptMap,
    crew: &Crew<'_, R, G>,
    name: Name,
    layer: Layer,
    tally: &mut M,
) -> Result<(Accepted, Inverse), Refusal>
    requires kept { IsKept map.old }
    requires plain { IsTrue (is_plain name) }
    requires whole { 1 < crew.now.workers → IsUndivided (M.counts tally.old) }
    ensures accepts { AcceptsBack (seen map.old) (seen map.new) (of_names (edits.load name (grid_of layer))) result }
    ensures kept { IsKept map.new }
    ensures reads { ReadsWithin (seen map.old) (of_names (edits.load name (grid_of layer))) (M.counts tally.old) (M.counts tally.new) }
{
    if has(map, &name) {
        return Err(Refusal::Exists(name));
    }
    let extent = map.extent;
    if !same_size(layer.extent(), extent) {
        return Err(Refusal::Size(extent.rows() as u64, extent.columns() as u64));
    }
    map.reserve()?;
    let drafted = drafted(map, crew.alloc, name, layer);
    carry_out(map, crew, drafted, tally)
}

/// Makes a layer that has a cell everywhere.
pub(crate) fn new_layer<M: Tally + Send, G: Gate + Sync, R: Threads + Sync>(
    map: &mut KeptMap,
    crew: &Crew<'_, R, G>,
    name: Name,
    cell: Cell,
    tally: &mut M,
) -> Result<(Accepted, Inverse), Refusal>
    requires kept { IsKept map.old }
    requires plain { IsTrue (is_plain name) }
    requires whole { 1 < crew.now.workers → IsUndivided (M.counts tally.old) }
    ensures accepts { AcceptsBack (seen map.old) (seen map.new) (of_names (edits.new_layer name cell)) result }
    ensures kept { IsKept map.new }
    ensures reads { ReadsWithin (seen map.old) (of_names (edits.new_layer name cell)) (M.counts tally.old) (M.counts tally.new) }
{
    if has(map, &name) {
        return Err(Refusal::Exists(name));
    }
    let layer = Layer::constant(crew.alloc, map.extent, cell, 0)?;
    map.reserve()?;
    let drafted = drafted(map, crew.alloc, name, layer);
    carry_out(map, crew, drafted, tally)
}

/// A further source with a layer of the map's size. The name isn't there, and there is room for it.
fn drafted(map: &KeptMap, alloc: Global, name: Name, layer: Layer) -> Result<Draft, Refusal>
    requires kept { IsKept map.now }
    requires plain { IsTrue (is_plain name) }
    requires new { find_def (entries_in map.now) name ≡ None }
    requires size { layer.size ≡ map.now.extent }
    requires room { HasNextRoom map.now }
    ensures room { IfOk result (λ d. HasRoomFor map.now d.change) }
    ensures drafted { (edit : edits.Edit) → IsAdding (seen map.now) edit name (grid_of layer) → IsDrafted map.now (of_names edit) result }
{
    if sources(map) >= MOST_SOURCES {
        return Err(Refusal::Limit(Which::Sources));
    }
    let graph = with_source(&map.graph, alloc, &name)?;
    let key = name.copy(alloc)?;
    // Tells the proof that it is a layer.
    let _extent = layer.extent();
    let change = Change::Source {
        key,
        layer,
        place: None,
    };
    Ok(Draft {
        name,
        change,
        graph,
        labels: None,
        symbols: None,
    })
}
