//! How many flat statements of a kind there would be.

ghost use Rattle.std.specs.Prelude.{◌≡◌, ◌≤◌, ◌∷◌, length, Option, bytes_eq, count_by, nat_lt, sum_by};
ghost use Rattle.std.specs.Map.{lookup};
ghost use Rattle.indexmap.specs.IndexMap.{values};
ghost use Rattle.map_nums.specs.Grids.{Size};
ghost use Rattle.map_defs.specs.Ops.{Name as Named};
ghost use Rattle.map_defs.specs.Statements.{Written};
ghost use Rattle.layer_tiles.specs.Layers.{LayerState};
ghost use Rattle.procedure_expand.specs.Flats.{flats_view};
ghost use Rattle.map_edits.specs.Entries.{statement, put_entry};
ghost use Rattle.map_edits.specs.LayerDefs.{layers};
ghost use Rattle.map_edits.specs.Limits.{most_of, is_of as is_of_limits, is_flat, most_flats};
ghost use Rattle.kept_map.specs.Maps.{entries_by};
ghost use Rattle.live_engine.specs.Counting.{kind_of, is_of, item_count, count_there, IsBeyond};

use crate::edits::Which;
use indexmap::IndexMap;
use kept_map::Item;
use map_words::Name;
use procedure_expand::Flat;
use statement_parser::Op;

/// Which flat statements are counted.
#[derive(Clone, Copy)]
enum Kind {
    Any,
    Zonal,
    Neighbor,
}

/// How many there may be.
fn most_of(kind: Kind) -> usize
    ensures { result ≡ most_of (kind_of kind) }
{
    match kind {
        Kind::Any => 64,
        Kind::Zonal => 12,
        Kind::Neighbor => 8,
    }
}

fn is_of_kind(kind: Kind, flat: &Flat) -> bool
    ensures { result ≡ is_of kind flat.now }
{
    match kind {
        Kind::Any => true,
        Kind::Zonal => matches!(flat.op, Op::Zonal { .. }),
        Kind::Neighbor => matches!(flat.op, Op::Neighbor { .. }),
    }
}

fn count_among(kind: Kind, flats: &[Flat]) -> usize
    ensures { result ≡ count_by (is_of kind) flats.now }
{
    flats.iter().filter(|flat| is_of_kind(kind, *flat)).count()
}

fn count_in(kind: Kind, item: &Item) -> usize
    ensures { result ≡ item_count kind item.now }
{
    match item {
        Item::Source => 0,
        Item::Statement { flats, .. } => count_among(kind, flats.as_slice()),
    }
}

/// Those of a name.
fn count_of(kind: Kind, names: &IndexMap<Name, Item>, name: &Name) -> usize
    ensures { result ≡ count_there kind (lookup (bytes_eq name.now) names.now.entries) }
{
    match names.get(name) {
        None => 0,
        Some(item) => count_in(kind, item),
    }
}

fn count_all(kind: Kind, names: &IndexMap<Name, Item>) -> usize
    requires { sum_by (item_count kind) (values names.now) ≤ most_flats }
    ensures { result ≡ sum_by (item_count kind) (values names.now) }
{
    names.values().map(|item| count_in(kind, item)).sum()
}

/// How many there would be with these in place of those of a name.
fn count_with(kind: Kind, names: &IndexMap<Name, Item>, name: &Name, flats: &[Flat]) -> usize
    requires few { sum_by (item_count kind) (values names.now) ≤ most_flats }
    requires these { length flats.now ≤ most_flats }
    ensures { (size : Size) (grids : Named → Option LayerState) (w : Written)
        → result ≡ count_by (is_of_limits (kind_of kind)) (layers (put_entry (entries_by size grids names.now.entries) name.now (statement w (flats_view flats.now)))) }
{
    let others = count_all(kind, names) - count_of(kind, names, name);
    others + count_among(kind, flats)
}

/// Whether there would be too many.
fn is_beyond(kind: Kind, names: &IndexMap<Name, Item>, name: &Name, flats: &[Flat]) -> bool
    requires few { sum_by (item_count kind) (values names.now) ≤ most_flats }
    requires these { length flats.now ≤ most_flats }
    ensures { (size : Size) (grids : Named → Option LayerState) (w : Written)
        → result ≡ nat_lt (most_of (kind_of kind)) (count_by (is_of_limits (kind_of kind)) (layers (put_entry (entries_by size grids names.now.entries) name.now (statement w (flats_view flats.now))))) }
{
    count_with(kind, names, name, flats) > most_of(kind)
}

/// Of what there would be too many with these flat statements in place of those of a name.
pub(crate) fn beyond(names: &IndexMap<Name, Item>, name: &Name, flats: &[Flat]) -> Option<Which>
    requires few { (size : Size) × (grids : Named → Option LayerState) × (count_by is_flat (layers (entries_by size grids names.now.entries)) ≤ most_flats) }
    requires these { length flats.now ≤ most_flats }
    ensures { (size : Size) (grids : Named → Option LayerState) (w : Written) → IsBeyond (put_entry (entries_by size grids names.now.entries) name.now (statement w (flats_view flats.now))) result }
{
    if is_beyond(Kind::Any, names, name, flats) {
        return Some(Which::Statements);
    }
    if is_beyond(Kind::Zonal, names, name, flats) {
        return Some(Which::Zonals);
    }
    if is_beyond(Kind::Neighbor, names, name, flats) {
        return Some(Which::Neighbors);
    }
    None
}
