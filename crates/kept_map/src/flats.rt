//! The flat statements of a map after an edit.

ghost use Rattle.std.specs.Prelude.{◌≡◌, Bool, false, bytes_eq, map, option_map};
ghost use Rattle.std.specs.Map.{lookup};
ghost use Rattle.edit_plans.specs.Planned.{FlatDef};
ghost use Rattle.kept_map.specs.Flats.{flat_def, item_flats};

use crate::maps::Item;
use edit_plans::{Flat as Found, FlatStatements};
use indexmap::IndexMap;
use map_words::Name;
use procedure_expand::Flat;

/// Those that an edit wrote, and those of all names but the edited one.
#[derive(Clone, Copy)]
pub struct FlatsAfter<'a> {
    pub names: &'a IndexMap<Name, Item>,
    pub edited: &'a Name,
    pub written: &'a [Flat],
}

/// The flat statement of a name among some.
fn flat_among<'a>(flats: &'a [Flat], name: &Name) -> Option<&'a Flat>
    ensures { (written : Bool) → option_map (λ f. record { op = f.now.op; written = written }) result ≡ lookup (bytes_eq name.now) (map (flat_def written) flats.now) }
{
    match flats {
        [] => None,
        [first, rest @ ..] => if first.name == *name {
            Some(first)
        } else {
            flat_among(rest, name)
        },
    }
}

/// The flat statement of a name among those of an item.
fn flat_of_item<'a>(item: &'a Item, name: &Name) -> Option<&'a Flat>
    ensures { option_map (λ f. record { op = f.now.op; written = false }) result ≡ lookup (bytes_eq name.now) (item_flats item.now) }
{
    match item {
        Item::Source => None,
        Item::Statement { flats, .. } => flat_among(flats.as_slice(), name),
    }
}

impl<'a> FlatStatements for FlatsAfter<'a> {
    ghost use Rattle.kept_map.specs.Flats.{flats_after};

    ghost all = { λ f. flats_after f.names.now.entries f.edited.now f.written.now };

    fn find(&self, name: &Name) -> Option<Found<'_>> {
        if let Some(flat) = flat_among(self.written, name) {
            return Some(Found {
                op: &flat.op,
                written: true,
            });
        }
        for (other, item) in self.names {
            if *other != *self.edited {
                if let Some(flat) = flat_of_item(item, name) {
                    return Some(Found {
                        op: &flat.op,
                        written: false,
                    });
                }
            }
        }
        None
    }
}
