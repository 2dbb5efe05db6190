//! Where names stand first, looked up once for all rounds.

ghost use Rattle.std.specs.Prelude.{◌≡◌, ℕ, ◌+◌, ◌<◌, ◌≤◌, IfOk, None, length, slice_index_or};
ghost use Rattle.statement_graph.specs.Seats.{nodes_at};
ghost use Rattle.statement_graph.specs.Firsts.{IsFirst};
ghost use Rattle.statement_graph.specs.Links.{all_needs, IsLinkedFrom, IsFirstTo, IsLinked, HasRoom};

use crate::node::Entry;
use crate::places::place_of;
use map_nums::NoMemory;
use map_words::Name;
use std::alloc::Global;

/// The first places of names; there may be room for more.
#[derive(Drop)]
pub(crate) struct Links {
    /// For each place, the first that has its name.
    pub(crate) firsts: Vec<usize>,
    /// For each need of all places, in order, the first place that has its name.
    pub(crate) needs: Vec<Option<usize>>,
}

impl Links {
    pub(crate) fn new(alloc: Global) -> Links
        ensures firsts { length result.firsts.items ≡ 0 }
        ensures needs { length result.needs.items ≡ 0 }
    {
        Links {
            firsts: Vec::new(alloc),
            needs: Vec::new(alloc),
        }
    }

    /// Room for so many places and needs.
    pub(crate) fn with_room(alloc: Global, places: usize, needs: usize) -> Result<Links, NoMemory>
        ensures firsts { IfOk result (λ links. length links.firsts.items ≡ places) }
        ensures needs { IfOk result (λ links. length links.needs.items ≡ needs) }
    {
        let firsts = vec![in alloc; 0; places]?;
        let needs = vec![in alloc; None; needs]?;
        Ok(Links { firsts, needs })
    }

    pub(crate) fn copy(&self, alloc: Global) -> Result<Links, NoMemory>
        ensures firsts { IfOk result (λ links. links.firsts.items ≡ self.now.firsts.items) }
        ensures needs { IfOk result (λ links. links.needs.items ≡ self.now.needs.items) }
    {
        let firsts = Vec::from_slice(alloc, self.firsts.as_slice())?;
        let needs = Vec::from_slice(alloc, self.needs.as_slice())?;
        Ok(Links { firsts, needs })
    }

    /// Looks all names up.
    pub(crate) fn relink(&mut self, entries: &[Entry])
        requires { HasRoom (nodes_at entries.now) self.old.firsts.items self.old.needs.items }
        ensures linked { IsLinked (nodes_at entries.now) self.new.firsts.items self.new.needs.items }
        ensures firsts_stay { length self.new.firsts.items ≡ length self.old.firsts.items }
        ensures needs_stay { length self.new.needs.items ≡ length self.old.needs.items }
    {
        link_places(entries, self.firsts.as_mut_slice());
        link_needs(entries, self.needs.as_mut_slice());
    }
}

/// How many needs there are, after so many; want of memory where they are too many to be counted.
pub(crate) fn count_needs(entries: &[Entry], before: usize) -> Result<usize, NoMemory>
    ensures { IfOk result (λ count. count ≡ before + length (all_needs (nodes_at entries.now))) }
{
    let mut count = before;
    for at in 0..entries.len() {
        match count.checked_add(entries[at].needs().len()) {
            None => return Err(NoMemory),
            Some(sum) => count = sum,
        }
    }
    Ok(count)
}

/// The first place that has the name of a place.
fn first_of(entries: &[Entry], at: usize) -> usize
    requires { at < length entries.now }
    ensures before { result ≤ at }
    ensures first { IsFirst (nodes_at entries.now) at result }
{
    match place_of(entries, entries[at].name()) {
        None => at,
        Some(first) => first,
    }
}

/// The first places of the names of all places.
fn link_places(entries: &[Entry], firsts: &mut [usize])
    requires { length entries.now ≤ length firsts.old }
    ensures { IsFirstTo (nodes_at entries.now) (length entries.now) firsts.new }
{
    for at in 0..entries.len() {
        firsts[at] = first_of(entries, at);
    }
}

/// The first places of some names, from `start` on.
fn link_names(entries: &[Entry], names: &[Name], links: &mut [Option<usize>], start: usize)
    requires { start + length names.now ≤ length links.old }
    ensures before { (k : ℕ) → k < start → slice_index_or links.new k None ≡ slice_index_or links.old k None }
    ensures linked { IsLinkedFrom (nodes_at entries.now) start names.now links.new }
{
    for (k, name) in names.iter().enumerate() {
        links[start + k] = place_of(entries, name);
    }
}

/// The first places of all needs.
fn link_needs(entries: &[Entry], links: &mut [Option<usize>])
    requires { length (all_needs (nodes_at entries.now)) ≤ length links.old }
    ensures { IsLinkedFrom (nodes_at entries.now) 0 (all_needs (nodes_at entries.now)) links.new }
{
    let mut start = 0;
    for at in 0..entries.len() {
        let needs = entries[at].needs();
        link_names(entries, needs, links, start);
        start += needs.len();
    }
}
