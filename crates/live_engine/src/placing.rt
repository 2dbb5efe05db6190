//! An edit of a name is put in place, without memory.

ghost use Rattle.std.specs.Prelude.{◌≡◌, ◌<◌, ◌≤◌, ◌^◌, Ok, List, ℕ, length, position, None, bytes_eq, option_map, unwrap_or};
ghost use Rattle.std.specs.Map.{lookup};
ghost use Rattle.std.specs.List.{IsDistinct};
ghost use Rattle.indexmap.specs.IndexMap.{spare};
ghost use Rattle.map_edits.specs.Touches.{touch_of};
ghost use Rattle.map_edits.specs.WholeStates.{WholeState};
ghost use Rattle.map_edits.specs.WholeEdits.{WholeEdit};
ghost use Rattle.map_waves.specs.declared.plans.Shift.{Shift};
ghost use Rattle.kept_map.specs.Edits.{IsSetUp};
ghost use Rattle.kept_map.specs.Keeps.{IsKept};
ghost use Rattle.kept_map.specs.Maps.{seen};
ghost use Rattle.kept_map.specs.Repairs.{IsPreparedFor, counts_view};
ghost use Rattle.kept_map.specs.Rooms.{HasRoom, HasNextRoom};
ghost use Rattle.live_engine.specs.Accepts.{Accepts};
ghost use Rattle.live_engine.specs.Drafts.{IsDraft, IsRepairedFor, HasRoomFor, CanEnter, counts_with as with_own};
ghost use Rattle.live_engine.specs.Inverses.{TakesBack};
ghost use Rattle.live_engine.specs.Puts.{ArePut, CanSeat, seated_item, IsSourcePut, IsNameOut, IsEntered, stood_as, StoodFor, replaced_by, IsStandBefore};
ghost use Rattle.live_engine.specs.declared.inverses.Inverse.TheVariants as inverses;

use crate::counting::joined;
use crate::drafts::{Change, Draft};
use crate::edits::Accepted;
use indexmap::IndexMap;
use kept_map::{Item, KeptMap, Replanned, put_in_place, take_source};
use layer_tiles::{Extent, Layer};
use map_marks::Marks;
use map_waves::Counts;
use map_words::Name;
use statement_graph::Graph;
use std::mem::replace;

/// Puts the statements of an edit in place, counts it, and answers the graph before.
fn commit(map: &mut KeptMap, graph: Graph, replanned: Replanned) -> Graph
    requires kept { IsKept map.old }
    requires prepared { (e : WholeEdit) × (t : WholeState) × (shift : Shift) × (sources : List (List ℕ)) × IsSetUp map.old e t shift sources × IsPreparedFor map.old e t shift sources replanned.planned.names.keys replanned.planned.steps.items replanned.prepared }
    requires room { HasRoom (length map.old.kept.items) (length replanned.planned.steps.items) replanned.room }
    ensures put { ArePut map.old map.new graph replanned.planned replanned.prepared }
    ensures before { result ≡ map.old.graph }
{
    let Replanned {
        mut planned,
        prepared,
        room,
    } = replanned;
    let number = map.number.saturating_add(1);
    put_in_place(
        &mut map.kept,
        planned.steps.as_mut_slice(),
        prepared.made,
        room,
        map.extent,
        number,
    );
    map.planned = planned;
    map.number = number;
    replace(&mut map.graph, graph)
}

/// Puts an item of a name in its place, at a place or after all others, and answers what it takes the place of. There is room for it.
fn insert(
    names: &mut IndexMap<Name, Item>,
    place: Option<usize>,
    name: Name,
    item: Item,
) -> Option<Item>
    requires room { 0 < spare names.old }
    requires place { CanSeat names.old.entries name place }
    ensures items { names.new.entries ≡ seated_item names.old.entries place name item }
    ensures before { result ≡ lookup (bytes_eq name) names.old.entries }
{
    match place {
        None => match names.insert(name, item) {
            Ok(before) => before,
            Err(_) => None,
        },
        Some(at) => match names.insert_before(at, name, item) {
            Ok((_, before)) => before,
            Err(_) => None,
        },
    }
}

/// Puts a source at a place or after all names. There is room for it.
fn enter_source(map: &mut KeptMap, name: Name, key: Name, mut layer: Layer, place: Option<usize>)
    requires room { HasNextRoom map.old }
    requires same { key ≡ name }
    requires new { position (bytes_eq name) map.old.sources.names.keys ≡ None }
    requires place { CanSeat map.old.names.entries name place }
    ensures { IsSourcePut map.old map.new name layer place }
{
    layer.restamp(map.number);
    map.sources.add(key, layer);
    insert(&mut map.names, place, name, Item::Source);
}

/// What stood for a name, at its place.
fn stood(item: Item, source: Option<(Name, Layer)>, place: usize) -> Change
    ensures { result ≡ stood_as item source place }
{
    match (item, source) {
        (Item::Statement { written, flats }, _) => Change::Statement {
            written,
            flats,
            place: Some(place),
        },
        (Item::Source, Some((key, layer))) => Change::Source {
            key,
            layer,
            place: Some(place),
        },
        (Item::Source, None) => Change::Out,
    }
}

/// Takes a name out, with its layer where it is a source, and answers what stood for it.
fn leave(map: &mut KeptMap, name: &Name) -> Change
    requires apart { IsDistinct bytes_eq map.old.sources.names.keys }
    requires count { length map.old.sources.layers.items ≡ length map.old.sources.names.keys }
    ensures out { IsNameOut map.old map.new name.now }
    ensures before { StoodFor map.old name.now result }
{
    let source = take_source(&mut map.sources, map.planned.steps.as_mut_slice(), name);
    match map.names.shift_remove_full(name) {
        Some((place, _, item)) => stood(item, source, place),
        None => Change::Out,
    }
}

/// What a statement took the place of.
fn replaced(before: Option<Item>) -> Change
    ensures { result ≡ replaced_by before }
{
    match before {
        Some(Item::Statement { written, flats }) => Change::Statement {
            written,
            flats,
            place: None,
        },
        Some(Item::Source) | None => Change::Out,
    }
}

/// Puts in place what stands for a name, and answers what stood for it before.
fn enter(map: &mut KeptMap, key: Name, name: &Name, change: Change) -> Change
    requires can { CanEnter map.old name.now change }
    requires same { key ≡ name.now }
    ensures entered { IsEntered map.old map.new name.now change }
    ensures before { IsStandBefore map.old name.now change result }
{
    match change {
        Change::Source {
            key: own,
            layer,
            place,
        } => {
            enter_source(map, key, own, layer, place);
            Change::Out
        }
        Change::Statement {
            written,
            flats,
            place,
        } => {
            let item = Item::Statement { written, flats };
            replaced(insert(&mut map.names, place, key, item))
        }
        Change::Out => leave(map, name),
    }
}

/// Puts other marks in place of these, where there are others, and answers these then.
fn exchange(marks: &mut Marks, others: Option<Marks>) -> Option<Marks>
    ensures new { marks.new ≡ unwrap_or others marks.old }
    ensures before { result ≡ option_map (λ others. marks.old) others }
{
    match others {
        None => None,
        Some(others) => Some(replace(marks, others)),
    }
}

/// The counts of an edit: all tiles of a new source beside those of the statements.
fn counts_with(extent: Extent, change: &Change, counts: Counts) -> Counts
    requires changed { counts.changed < 2 ^ 63 }
    requires evaluated { counts.evaluated < 2 ^ 63 }
    ensures { counts_view result ≡ with_own extent change.now (counts_view counts) }
{
    match change {
        Change::Source { .. } => {
            let tiles = extent.tiles();
            joined(tiles, tiles, counts)
        }
        Change::Statement { .. } | Change::Out => counts,
    }
}

/// Puts an edit in place, with the statements that were repaired for it, and answers what stood for its name before. There is
/// room for it.
pub(crate) fn place(
    map: &mut KeptMap,
    draft: Draft,
    key: Name,
    replanned: Replanned,
) -> (Accepted, Draft)
    requires kept { IsKept map.old }
    requires room { HasRoomFor map.old draft.change }
    requires same { key ≡ draft.name }
    requires ready { (e : WholeEdit) × IsDraft map.old e draft × IsRepairedFor map.old e draft replanned.planned replanned.prepared }
    requires kept_room { HasRoom (length map.old.kept.items) (length replanned.planned.steps.items) replanned.room }
    ensures accepts { (e : WholeEdit) → IsDraft map.old e draft → IsRepairedFor map.old e draft replanned.planned replanned.prepared → Accepts (seen map.old) (seen map.new) e (Ok result.0) }
    ensures before { (e : WholeEdit) → IsDraft map.old e draft → TakesBack (seen map.old) (seen map.new) (touch_of e) (inverses.Name result.1) }
    ensures kept { IsKept map.new }
{
    let Draft {
        name,
        change,
        graph,
        labels,
        symbols,
    } = draft;
    let counts = counts_with(map.extent, &change, replanned.prepared.counts);
    let graph = commit(map, graph, replanned);
    let change = enter(map, key, &name, change);
    let labels = exchange(&mut map.labels, labels);
    let symbols = exchange(&mut map.symbols, symbols);
    let accepted = Accepted {
        number: map.number,
        counts,
    };
    let before = Draft {
        name,
        change,
        graph,
        labels,
        symbols,
    };
    (accepted, before)
}
