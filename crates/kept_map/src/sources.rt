//! Sources are put in and taken out, without memory.

ghost use Rattle.std.specs.Prelude.{◌≡◌, ◌<◌, ◌++◌, ◌∷◌, [], length, map, option_map, position, bytes_eq, remove, slice_get, vec_capacity, Some, None, IfSome, IfNone, OnOk};
ghost use Rattle.std.specs.List.{IsDistinct};
ghost use Rattle.indexmap.specs.IndexSet.{spare};
ghost use Rattle.kept_map.specs.Maps.{seen, source_in};
ghost use Rattle.kept_map.specs.Keeps.{IsKept};
ghost use Rattle.kept_map.specs.Rooms.{HasSourceRoom, HasNextRoom};
ghost use Rattle.kept_map.specs.Lowering.{lowered, IsLowered, AreLowered, IsTakenOut};

use crate::maps::{KeptMap, Sources};
use indexmap::IndexSet;
use layer_tiles::Layer;
use map_nums::NoMemory;
use map_waves::{Ref, Step};
use map_words::Name;
use statement_parser::Op;
use std::alloc::AllocError;

impl KeptMap {
    /// Room for one name and one source more.
    pub fn reserve(&mut self) -> Result<(), NoMemory>
        ensures seen { seen self.new ≡ seen self.old }
        ensures kept { IsKept self.old → IsKept self.new }
        ensures room { OnOk result (HasNextRoom self.new) }
    {
        self.names.reserve(1)?;
        self.sources.reserve()?;
        Ok(())
    }
}

impl Sources {
    /// Room for one source more.
    fn reserve(&mut self) -> Result<(), AllocError>
        ensures names { self.new.names.keys ≡ self.old.names.keys }
        ensures layers { self.new.layers.items ≡ self.old.layers.items }
        ensures room { OnOk result (HasSourceRoom self.new) }
    {
        self.names.reserve(1)?;
        self.layers.reserve(1)
    }

    /// Puts a source after all others. There is room for it.
    pub fn add(&mut self, name: Name, layer: Layer)
        requires room { HasSourceRoom self.old }
        requires new { position (bytes_eq name) self.old.names.keys ≡ None }
        ensures names { self.new.names.keys ≡ self.old.names.keys ++ name ∷ [] }
        ensures apart { IsDistinct bytes_eq self.new.names.keys }
        ensures layers { self.new.layers.items ≡ self.old.layers.items ++ layer ∷ [] }
    {
        add_name(&mut self.names, name);
        add_layer(&mut self.layers, layer);
    }

    /// Takes a source out and answers its place, its name and its layer; nothing where the name is no source. The sources after it
    /// come one place forward.
    fn take_out(&mut self, name: &Name) -> Option<(usize, Name, Layer)>
        requires apart { IsDistinct bytes_eq self.old.names.keys }
        requires count { length self.old.layers.items ≡ length self.old.names.keys }
        ensures place { option_map (λ out. out.0) result ≡ position (bytes_eq name.now) self.old.names.keys }
        ensures out { IfSome result (λ out. (out.1 ≡ name.now) × (slice_get self.old.layers.items out.0 ≡ Some out.2)) }
        ensures names { IfSome result (λ out. self.new.names.keys ≡ remove self.old.names.keys out.0) }
        ensures layers { IfSome result (λ out. self.new.layers.items ≡ remove self.old.layers.items out.0) }
        ensures names_stay { IfNone result (self.new.names.keys ≡ self.old.names.keys) }
        ensures layers_stay { IfNone result (self.new.layers.items ≡ self.old.layers.items) }
        ensures apart { IsDistinct bytes_eq self.new.names.keys }
    {
        let place = self.names.get_index_of(name)?;
        let own = self.names.shift_remove_index(place)?;
        let layer = self.layers.remove(place);
        Some((place, own, layer))
    }
}

fn add_name(names: &mut IndexSet<Name>, name: Name)
    requires room { 0 < spare names.old }
    requires new { position (bytes_eq name) names.old.keys ≡ None }
    ensures names { names.new.keys ≡ names.old.keys ++ name ∷ [] }
    ensures apart { IsDistinct bytes_eq names.new.keys }
{
    match names.insert(name) {
        Ok(_) => {}
        Err(_) => {}
    }
}

fn add_layer(layers: &mut Vec<Layer>, layer: Layer)
    requires { length layers.old.items < vec_capacity layers.old }
    ensures { layers.new.items ≡ layers.old.items ++ layer ∷ [] }
{
    match layers.push(layer) {
        Ok(()) => {}
        Err(_) => {}
    }
}

/// An operand, where the source at a place was taken out.
fn lower(operand: Ref, place: usize) -> Ref
    ensures { result ≡ lowered place operand }
{
    match operand {
        Ref::Source(at) => {
            if place < at {
                Ref::Source(at - 1)
            } else {
                operand
            }
        }
        Ref::Statement(_) | Ref::Number(_) => operand,
    }
}

fn lower_all(operands: &mut [Ref], place: usize)
    ensures { operands.new ≡ map (lowered place) operands.old }
{
    for operand in operands.iter_mut() {
        *operand = lower(*operand, place);
    }
}

fn lower_step(step: &mut Step<Op>, place: usize)
    ensures { IsLowered place step.old step.new }
{
    lower_all(step.refs.as_mut_slice(), place);
}

/// The operands of all steps, where the source at a place was taken out.
fn lower_sources(steps: &mut [Step<Op>], place: usize)
    ensures { AreLowered place steps.old steps.new }
{
    for at in 0..steps.len() {
        lower_step(&mut steps[at], place);
    }
}

/// Takes a source out, where the name is one, and lets the operands of all steps go with those that are left. Answers the
/// source's name and its layer.
pub fn take_source(
    sources: &mut Sources,
    steps: &mut [Step<Op>],
    name: &Name,
) -> Option<(Name, Layer)>
    requires apart { IsDistinct bytes_eq sources.old.names.keys }
    requires count { length sources.old.layers.items ≡ length sources.old.names.keys }
    ensures taken { IsTakenOut (position (bytes_eq name.now) sources.old.names.keys) sources.old sources.new steps.old steps.new }
    ensures apart { IsDistinct bytes_eq sources.new.names.keys }
    ensures out { option_map (λ out. out.1) result ≡ source_in sources.old name.now }
    ensures own { IfSome result (λ out. out.0 ≡ name.now) }
{
    let (place, own, layer) = sources.take_out(name)?;
    lower_sources(steps, place);
    Some((own, layer))
}
