//! Whether two engines show the same. It takes no memory.

use arrayvec::ArrayString;
use layer_tiles::Layer;
use live_engine::{Engine, Entry};
use map_marks::Marks;
use map_outside::Counts;
use map_words::Name;
use std::fmt::{Debug, Write};

/// More than a map has names (32 sources and 64 statements), or procedures.
const PLACES: u32 = 100;

/// A value as it is printed for debugging; none where that is too long.
fn printed<D: Debug>(value: &D) -> Option<ArrayString<4096>> {
    let mut text = ArrayString::new();
    match write!(text, "{value:?}") {
        Ok(()) => Some(text),
        Err(_) => None,
    }
}

/// Whether two values are printed alike.
fn is_printed_alike<D: Debug>(one: &D, other: &D) -> bool {
    match (printed(one), printed(other)) {
        (Some(one), Some(other)) => one.as_str() == other.as_str(),
        _ => false,
    }
}

/// Whether two layers have the same cells and the same stamps.
fn are_alike_layers(one: &Layer, other: &Layer) -> bool {
    let tiles = one.extent().tiles();
    if tiles != other.extent().tiles() {
        return false;
    }
    let mut tally = Counts::new();
    for tile in 0..tiles {
        let view = one.view(tile, &mut tally);
        if !view.same(&other.view(tile, &mut tally)) || one.stamp(tile) != other.stamp(tile) {
            return false;
        }
    }
    true
}

/// Whether a name has the same layer in both, or lacks the same name.
pub fn is_alike_layer(one: &Engine, other: &Engine, name: &Name) -> bool {
    match (one.layer(name), other.layer(name)) {
        (Ok(one), Ok(other)) => are_alike_layers(one, other),
        (Err(one), Err(other)) => match (one.name, other.name) {
            (Some(one), Some(other)) => *one == *other,
            (None, None) => true,
            _ => false,
        },
        _ => false,
    }
}

/// Whether two names are one, and have the same layer.
fn is_alike_name(one: &Engine, other: &Engine, names: (&Name, &Name)) -> bool {
    *names.0 == *names.1 && is_alike_layer(one, other, names.0)
}

/// Whether at a place of the list of names there is the same in both.
fn is_alike_entry(one: &Engine, other: &Engine, place: u32) -> bool {
    match (one.entry(place), other.entry(place)) {
        (Some(Entry::Source(first)), Some(Entry::Source(second))) => {
            is_alike_name(one, other, (first, second))
        }
        (Some(Entry::Statement(first, body)), Some(Entry::Statement(second, other_body))) => {
            is_alike_name(one, other, (first, second)) && is_printed_alike(body, other_body)
        }
        (None, None) => true,
        _ => false,
    }
}

pub fn are_alike_names(one: &Engine, other: &Engine) -> bool {
    for place in 0..PLACES {
        if !is_alike_entry(one, other, place) {
            return false;
        }
    }
    true
}

pub fn are_alike_procedures(one: &Engine, other: &Engine) -> bool {
    for place in 0..PLACES {
        let is_alike = match (one.procedure(place), other.procedure(place)) {
            (Some(one), Some(other)) => is_printed_alike(one, other),
            (None, None) => true,
            _ => false,
        };
        if !is_alike {
            return false;
        }
    }
    true
}

pub fn are_alike_marks(one: &Marks, other: &Marks) -> bool {
    if one.count() != other.count() {
        return false;
    }
    for (one, other) in one.all().iter().zip(other.all()) {
        if !one.is(&other.name, other.value) || one.text.bytes() != other.text.bytes() {
            return false;
        }
    }
    true
}
