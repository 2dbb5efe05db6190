//! The items of a branch, made one after another.

ghost use Rattle.std.specs.Prelude.{◌≡◌, ◌<◌, IfOk};
ghost use Rattle.layer_tiles.specs.Tallies.{RisesBy, IsUndivided};
ghost use Rattle.statement_parser.specs.Formed.{Each, IsItem};
ghost use Rattle.statement_parser.specs.Views.{item_view, items_view};
ghost use Rattle.map_machine.specs.Branches.{after_item};
ghost use Rattle.map_machine.specs.RequestReads.{item_reads, items_reads};
ghost use Rattle.what_if.specs.Tried.{IsTold, AreTold};

use crate::looks::{Seen, look};
use layer_tiles::Tally;
use live_engine::{Accepted, Edit, Engine, Refusal};
use map_nums::NoMemory;
use statement_parser::Item;
use std::thread::Threads;
use tile_workers::{Crew, Gate};

/// What an item tells.
#[derive(Drop)]
pub enum Told {
    /// Of an edit, which is never refused for want of memory.
    Edit(Result<Accepted, Refusal>),
    /// Of a look.
    Value(Seen),
}

/// Makes an item, and tells what came of it.
fn tell<M: Tally + Send, G: Gate + Sync, R: Threads + Sync>(
    engine: &mut Engine,
    crew: &Crew<'_, R, G>,
    item: &Item,
    tally: &mut M,
) -> Result<Told, NoMemory>
    requires formed { IsItem (item_view item.now) }
    requires whole { 1 < crew.now.workers → IsUndivided (M.counts tally.old) }
    ensures told { IfOk result (IsTold engine.old (item_view item.now)) }
    ensures after { IfOk result (λ _. engine.new ≡ after_item engine.old (item_view item.now)) }
    ensures reads { RisesBy (item_reads engine.old (item_view item.now)).looks (item_reads engine.old (item_view item.now)).picks (M.counts tally.old) (M.counts tally.new) }
{
    match item {
        Item::Edit(edit) => {
            let edit = Edit::Line(edit.copy(crew.alloc)?);
            match engine.edit_by(crew, edit, tally) {
                Err(Refusal::NoMemory) => Err(NoMemory),
                told => Ok(Told::Edit(told)),
            }
        }
        Item::Value { name, r, c } => {
            let seen = look(engine, crew.alloc, name, *r, *c, tally)?;
            Ok(Told::Value(seen))
        }
    }
}

/// Makes items one after another, and tells what came of each.
pub(crate) fn tell_all<M: Tally + Send, G: Gate + Sync, R: Threads + Sync>(
    engine: &mut Engine,
    crew: &Crew<'_, R, G>,
    items: &[Item],
    tally: &mut M,
) -> Result<Vec<Told>, NoMemory>
    requires formed { Each IsItem (items_view items.now) }
    requires whole { 1 < crew.now.workers → IsUndivided (M.counts tally.old) }
    ensures told { IfOk result (λ told. AreTold engine.old (items_view items.now) told.items) }
    ensures reads { RisesBy (items_reads engine.old (items_view items.now)).looks (items_reads engine.old (items_view items.now)).picks (M.counts tally.old) (M.counts tally.new) }
{
    let mut told = Vec::with_capacity(crew.alloc, items.len())?;
    for item in items {
        let one = tell(engine, crew, item, tally)?;
        told.push(one)?;
    }
    Ok(told)
}

/// Makes the items of a branch on a copy of the engine, and tells what came of each.
pub(crate) fn tell_branch<M: Tally + Send, G: Gate + Sync, R: Threads + Sync>(
    crew: &Crew<'_, R, G>,
    base: &Engine,
    items: &[Item],
    tally: &mut M,
) -> Result<Vec<Told>, NoMemory>
    requires formed { Each IsItem (items_view items.now) }
    requires whole { 1 < crew.now.workers → IsUndivided (M.counts tally.old) }
    ensures told { IfOk result (λ told. AreTold base.now (items_view items.now) told.items) }
    ensures reads { RisesBy (items_reads base.now (items_view items.now)).looks (items_reads base.now (items_view items.now)).picks (M.counts tally.old) (M.counts tally.new) }
{
    let mut engine = base.copy(crew.alloc)?;
    tell_all(&mut engine, crew, items, tally)
}
