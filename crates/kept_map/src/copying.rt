//! Copies of a whole map.

ghost use Rattle.std.specs.Prelude.{◌≡◌, bytes_eq, IfOk, OnOk};
ghost use Rattle.indexmap.specs.IndexMap.{insert_entry};
ghost use Rattle.procedure_expand.specs.Flats.{flat_view, flats_view};
ghost use Rattle.kept_map.specs.Maps.{seen};
ghost use Rattle.kept_map.specs.Keeps.{IsKept};
ghost use Rattle.kept_map.specs.Copies.{item_view, items_view, step_view, steps_view, map_view};

use crate::maps::{Item, KeptMap, Sources};
use edit_plans::Planned;
use indexmap::{IndexMap, IndexSet};
use layer_tiles::Layer;
use map_nums::NoMemory;
use map_waves::{Kept, Step};
use map_words::Name;
use op_jobs::{Beside, copy_aside};
use procedure_expand::Flat;
use statement_parser::Op;
use std::alloc::Global;

impl KeptMap {
    /// A map of the same state, which is edited on its own.
    ///
    /// # Errors
    ///
    /// `NoMemory` alone.
    pub fn copy(&self, alloc: Global) -> Result<KeptMap, NoMemory>
        requires { IsKept self.now }
        ensures seen { IfOk result (λ m. seen m ≡ seen self.now) }
        ensures kept { IfOk result IsKept }
    {
        let mut copy = KeptMap::new(alloc, self.extent);
        copy.fill(alloc, self)?;
        Ok(copy)
    }

    /// Copies all that another map of the same size has.
    fn fill(&mut self, alloc: Global, from: &KeptMap) -> Result<(), NoMemory>
        requires { self.old.extent ≡ from.now.extent }
        ensures { OnOk result (map_view self.new ≡ map_view from.now) }
    {
        let names = copy_items(alloc, &from.names)?;
        self.names = names;
        let graph = from.graph.copy(alloc)?;
        self.graph = graph;
        let sources = from.sources.copy(alloc)?;
        self.sources = sources;
        let planned = copy_plan(alloc, &from.planned)?;
        self.planned = planned;
        let kept = copy_all_kept(alloc, from.kept.as_slice())?;
        self.kept = kept;
        let procedures = from.procedures.copy(alloc)?;
        self.procedures = procedures;
        let labels = from.labels.copy(alloc)?;
        self.labels = labels;
        let symbols = from.symbols.copy(alloc)?;
        self.symbols = symbols;
        self.number = from.number;
        Ok(())
    }
}

/// The same names in the same order.
fn copy_names(alloc: Global, names: &IndexSet<Name>) -> Result<IndexSet<Name>, NoMemory>
    ensures { IfOk result (λ copies. copies.keys ≡ names.now.keys) }
{
    let mut copies = IndexSet::with_capacity(alloc, names.len())?;
    for name in names.as_slice() {
        copies.insert(name.copy(alloc)?)?;
    }
    Ok(copies)
}

fn copy_flat(alloc: Global, flat: &Flat) -> Result<Flat, NoMemory>
    ensures { IfOk result (λ copy. flat_view copy ≡ flat_view flat.now) }
{
    let name = flat.name.copy(alloc)?;
    let op = flat.op.copy(alloc)?;
    Ok(Flat { name, op })
}

fn copy_flats(alloc: Global, flats: &[Flat]) -> Result<Vec<Flat>, NoMemory>
    ensures { IfOk result (λ copies. flats_view copies.items ≡ flats_view flats.now) }
{
    let mut copies = Vec::with_capacity(alloc, flats.len())?;
    for flat in flats {
        copies.push(copy_flat(alloc, flat)?)?;
    }
    Ok(copies)
}

impl Item {
    fn copy(&self, alloc: Global) -> Result<Item, NoMemory>
        ensures { IfOk result (λ copy. item_view copy ≡ item_view self.now) }
    {
        match self {
            Item::Source => Ok(Item::Source),
            Item::Statement { written, flats } => {
                let written = written.copy(alloc)?;
                let flats = copy_flats(alloc, flats.as_slice())?;
                Ok(Item::Statement { written, flats })
            }
        }
    }
}

fn put_item(items: &mut IndexMap<Name, Item>, name: Name, item: Item) -> Result<(), NoMemory>
    ensures { OnOk result (items.new.entries ≡ insert_entry bytes_eq items.old.entries name item) }
{
    items.insert(name, item)?;
    Ok(())
}

/// The same names in the same order, each with a copy of what it stands for.
fn copy_items(alloc: Global, items: &IndexMap<Name, Item>) -> Result<IndexMap<Name, Item>, NoMemory>
    ensures { IfOk result (λ copies. items_view copies.entries ≡ items_view items.now.entries) }
{
    let mut copies = IndexMap::with_capacity(alloc, items.len())?;
    for (name, item) in items {
        let own = item.copy(alloc)?;
        put_item(&mut copies, name.copy(alloc)?, own)?;
    }
    Ok(copies)
}

fn copy_layers(alloc: Global, layers: &[Layer]) -> Result<Vec<Layer>, NoMemory>
    ensures { IfOk result (λ copies. copies.items ≡ layers.now) }
{
    let mut copies = Vec::with_capacity(alloc, layers.len())?;
    for layer in layers {
        copies.push(layer.copy(alloc)?)?;
    }
    Ok(copies)
}

impl Sources {
    fn copy(&self, alloc: Global) -> Result<Sources, NoMemory>
        ensures names { IfOk result (λ copy. copy.names.keys ≡ self.now.names.keys) }
        ensures layers { IfOk result (λ copy. copy.layers.items ≡ self.now.layers.items) }
    {
        let names = copy_names(alloc, &self.names)?;
        let layers = copy_layers(alloc, self.layers.as_slice())?;
        Ok(Sources { names, layers })
    }
}

fn copy_step(alloc: Global, step: &Step<Op>) -> Result<Step<Op>, NoMemory>
    ensures { IfOk result (λ copy. step_view copy ≡ step_view step.now) }
{
    let op = step.op.copy(alloc)?;
    let refs = Vec::from_slice(alloc, step.refs.as_slice())?;
    Ok(Step {
        op,
        refs,
        depth: step.depth,
        kept: step.kept,
        written: step.written,
    })
}

fn copy_steps(alloc: Global, steps: &[Step<Op>]) -> Result<Vec<Step<Op>>, NoMemory>
    ensures { IfOk result (λ copies. steps_view copies.items ≡ steps_view steps.now) }
{
    let mut copies = Vec::with_capacity(alloc, steps.len())?;
    for step in steps {
        copies.push(copy_step(alloc, step)?)?;
    }
    Ok(copies)
}

fn copy_plan(alloc: Global, planned: &Planned) -> Result<Planned, NoMemory>
    ensures names { IfOk result (λ copy. copy.names.keys ≡ planned.now.names.keys) }
    ensures steps { IfOk result (λ copy. steps_view copy.steps.items ≡ steps_view planned.now.steps.items) }
{
    let names = copy_names(alloc, &planned.names)?;
    let steps = copy_steps(alloc, planned.steps.as_slice())?;
    Ok(Planned { names, steps })
}

fn copy_kept(alloc: Global, kept: &Kept<Beside>) -> Result<Kept<Beside>, NoMemory>
    ensures { IfOk result (λ copy. copy ≡ kept.now) }
{
    let layer = kept.layer.copy(alloc)?;
    let beside = copy_aside(alloc, &kept.beside)?;
    Ok(Kept {
        layer,
        beside,
        repaired: kept.repaired,
    })
}

fn copy_all_kept(alloc: Global, kept: &[Kept<Beside>]) -> Result<Vec<Kept<Beside>>, NoMemory>
    ensures { IfOk result (λ copies. copies.items ≡ kept.now) }
{
    let mut copies = Vec::with_capacity(alloc, kept.len())?;
    for one in kept {
        copies.push(copy_kept(alloc, one)?)?;
    }
    Ok(copies)
}
