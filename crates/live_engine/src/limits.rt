//! What a name stands for, and how many sources there are.

ghost use Rattle.std.specs.Prelude.{◌≡◌, count_by, is_some};
ghost use Rattle.indexmap.specs.IndexMap.{values};
ghost use Rattle.map_edits.specs.Entries.{find_def};
ghost use Rattle.map_edits.specs.Limits.{is_source};
ghost use Rattle.kept_map.specs.Maps.{entries_in};
ghost use Rattle.live_engine.specs.Standing.{standing_of, is_source_item};

use kept_map::{Item, KeptMap};
use map_words::Name;

/// The most sources.
pub(crate) const MOST_SOURCES: usize = 32;

/// What a name stands for.
#[derive(Clone, Copy)]
pub(crate) enum Kind {
    Nothing,
    Source,
    Statement,
}

/// What a name stands for.
pub(crate) fn kind_of(map: &KeptMap, name: &Name) -> Kind
    ensures { result ≡ standing_of (find_def (entries_in map.now) name.now) }
{
    match map.names.get(name) {
        None => Kind::Nothing,
        Some(Item::Source) => Kind::Source,
        Some(Item::Statement { .. }) => Kind::Statement,
    }
}

/// Whether a name is there.
pub(crate) fn has(map: &KeptMap, name: &Name) -> bool
    ensures { result ≡ is_some (find_def (entries_in map.now) name.now) }
{
    map.names.contains_key(name)
}

fn is_source_at(item: &Item) -> bool
    ensures { result ≡ is_source_item item.now }
{
    matches!(item, Item::Source)
}

fn source_items(map: &KeptMap) -> usize
    ensures { result ≡ count_by is_source_item (values map.now.names) }
{
    map.names
        .values()
        .filter(|item| is_source_at(*item))
        .count()
}

/// How many sources there are.
pub(crate) fn sources(map: &KeptMap) -> usize
    ensures { result ≡ count_by is_source (entries_in map.now) }
{
    source_items(map)
}
