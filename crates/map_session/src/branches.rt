//! The answer to a line of branches.
ghost use Rattle.std.specs.Prelude.{◌≡◌, ◌++◌, ◌<◌, IfOk, OnOk};
ghost use Rattle.std.specs.List.{AllZip};
ghost use Rattle.layer_tiles.specs.Tallies.{IsUndivided};
ghost use Rattle.statement_parser.specs.Formed.{IsRequest};
ghost use Rattle.statement_parser.specs.Lines.{ask_branches};
ghost use Rattle.statement_parser.specs.Views.{item_view, items_view, branches_view};
ghost use Rattle.map_machine.specs.Answers.{answer_to};
ghost use Rattle.map_session.specs.Said.{Says};
ghost use Rattle.map_session.specs.Asked.{state_asked, ReadsFor};
ghost use Rattle.map_session.specs.BranchTexts.{IsTellable, AreTellable, edit_text, told_text, branch_text, branches_text};

use crate::answers::Asked;
use crate::causes::{counted, edit_cause};
use crate::replies::Reply;
use crate::rooms::ReplyRoom;
use crate::values::seen_reply;
use layer_tiles::Tally;
use live_engine::{Accepted, Refusal};
use map_machine::Kind;
use map_nums::NoMemory;
use statement_parser::Item;
use std::alloc::Global;
use std::thread::Threads;
use tile_workers::{Crew, Gate};
use what_if::{Told, run_branches};

impl Asked<'_> {
    /// To branches, which are tried by the workers at hand.
    pub(crate) fn branches<M: Tally + Send, G: Gate + Sync, R: Threads + Sync>(
        &self,
        crew: &Crew<'_, R, G>,
        branches: &[Vec<Item>],
        tally: &mut M,
    ) -> Result<Reply, NoMemory>
        requires formed { IsRequest (ask_branches (branches_view branches.now)) }
        requires whole { 1 < crew.now.workers → IsUndivided (M.counts tally.old) }
        ensures says { IfOk result (Says (answer_to (state_asked self.now) (ask_branches (branches_view branches.now))) Kind.Shown) }
        ensures reads { ReadsFor (state_asked self.now) (ask_branches (branches_view branches.now)) (M.counts tally.old) (M.counts tally.new) }
    {
        let told = run_branches(crew, self.engine, branches, tally)?;
        let text = branches_reply(crew.alloc, branches, &told)?;
        Ok(Reply::shown(text))
    }
}

/// What was told of branches, in the order of the branches.
fn branches_reply(
    alloc: Global,
    branches: &[Vec<Item>],
    told: &[Vec<Told>],
) -> Result<Vec<u8>, NoMemory>
    requires { AllZip AreTellable (branches_view branches.now) told.now }
    ensures { IfOk result (λ text. text.items ≡ branches_text 1 (branches_view branches.now) told.now) }
{
    let mut text = Vec::new(alloc);
    let mut number = 0;
    for (items, told) in branches.iter().zip(told) {
        number += 1;
        put_branch(alloc, number, items, told, &mut text)?;
    }
    Ok(text)
}

/// Puts the number of a branch, and what its items told.
fn put_branch(
    alloc: Global,
    number: u64,
    items: &[Item],
    told: &[Told],
    text: &mut Vec<u8>,
) -> Result<(), NoMemory>
    requires { AllZip IsTellable (items_view items.now) told.now }
    ensures { OnOk result (text.new.items ≡ text.old.items ++ branch_text number (items_view items.now) told.now) }
{
    text.extend_from_slice(&counted(alloc, b"branch", number)?)?;
    text.push(b'\n')?;
    for (item, told) in items.iter().zip(told) {
        let reply = item_reply(alloc, item, told)?;
        text.extend_from_slice(&reply.bytes)?;
    }
    Ok(())
}

/// What an item told.
fn item_reply(alloc: Global, item: &Item, told: &Told) -> Result<Reply, NoMemory>
    requires { IsTellable (item_view item.now) told.now }
    ensures { IfOk result (λ reply. reply.bytes.items ≡ told_text (item_view item.now) told.now) }
{
    match (item, told) {
        (Item::Edit(_), Told::Edit(told)) => edit_reply(alloc, told),
        (Item::Value { name, r, c }, Told::Value(seen)) => seen_reply(alloc, name, *r, *c, seen),
        _ => unreachable!(),
    }
}

/// The reply to an edit.
fn edit_reply(alloc: Global, told: &Result<Accepted, Refusal>) -> Result<Reply, NoMemory>
    ensures { IfOk result (λ reply. reply.bytes.items ≡ edit_text told.now) }
{
    match told {
        Ok(accepted) => Ok(ReplyRoom::new(alloc)?.filled(*accepted)),
        Err(refusal) => Reply::refused(alloc, &edit_cause(alloc, refusal)?),
    }
}
