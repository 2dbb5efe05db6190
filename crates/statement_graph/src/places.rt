//! The places of a graph, one after the other.

ghost use Rattle.std.specs.Prelude.{◌≡◌, ◌+◌, ◌≤◌, IfOk, Some, None, length, option_map, map, unwrap_or, position, bytes_eq, List, ◌++◌, take, drop};
ghost use Rattle.statement_graph.specs.declared.node.Entry.{Entry};
ghost use Rattle.statement_graph.specs.Seats.{seats, name_at, span_from};
ghost use Rattle.statement_graph.specs.Puts.{flat_nodes};
ghost use Rattle.statement_graph.specs.Fresh.{group_seats, span_pair};

use crate::node::{Entry, Node};
use map_nums::NoMemory;
use map_words::Name;
use std::alloc::{AllocError, Global};

/// The first place that has the name.
pub(crate) fn place_of(entries: &[Entry], name: &Name) -> Option<usize>
    ensures { result ≡ position (λ e. bytes_eq (name_at e) name.now) entries.now }
{
    entries.iter().position(|entry| *entry.name() == *name)
}

/// The places of a group.
#[derive(Clone, Copy, Debug)]
pub(crate) struct Span {
    pub(crate) start: usize,
    pub(crate) end: usize,
}

/// The group with this name.
pub(crate) fn span_of(entries: &[Entry], name: &Name) -> Option<Span>
    ensures { option_map span_pair result ≡ span_from 0 0 name.now (seats entries.now) }
{
    let mut start = 0;
    for at in 0..entries.len() {
        let entry = &entries[at];
        if !entry.ends() {
            continue;
        }
        if *entry.name() == *name {
            return Some(Span { start, end: at + 1 });
        }
        start = at + 1;
    }
    None
}

/// The group with this name, or the end where it isn't there.
pub(crate) fn span_or_end(entries: &[Entry], name: &Name) -> Span
    ensures { span_pair result ≡ unwrap_or (span_from 0 0 name.now (seats entries.now)) (length entries.now, length entries.now) }
{
    match span_of(entries, name) {
        Some(span) => span,
        None => Span {
            start: entries.len(),
            end: entries.len(),
        },
    }
}

pub(crate) fn copy_entries(alloc: Global, entries: &[Entry]) -> Result<Vec<Entry>, NoMemory>
    ensures { IfOk result (λ v. seats v.items ≡ seats entries.now) }
{
    let mut copies = Vec::new(alloc);
    for entry in entries {
        copies.push(entry.copy(alloc)?)?;
    }
    Ok(copies)
}

fn inner_entries(alloc: Global, nodes: Vec<Node>) -> Result<Vec<Entry>, AllocError>
    ensures { IfOk result (λ v. v.items ≡ map Entry.Inner nodes.items) }
{
    nodes
        .into_iter()
        .map(|node| Entry::Inner(node))
        .collect(alloc)
}

/// A statement's places, for its flat statements.
pub(crate) fn group_of(alloc: Global, mut nodes: Vec<Node>) -> Result<Vec<Entry>, NoMemory>
    ensures { IfOk result (λ v. seats v.items ≡ group_seats (flat_nodes nodes.items)) }
{
    match nodes.pop() {
        None => Ok(Vec::new(alloc)),
        Some(own) => {
            let mut entries = inner_entries(alloc, nodes)?;
            entries.push(Entry::Own(own))?;
            Ok(entries)
        }
    }
}

/// Changes the places from `start` to `end` with the last `count` places.
fn exchange(entries: &mut [Entry], start: usize, end: usize, count: usize)
    requires order { start ≤ end }
    requires within { end + count ≤ length entries.old }
    ensures { (a o t n : List Entry) → entries.old ≡ a ++ o ++ t ++ n → length a ≡ start → length a + length o ≡ end → length n ≡ count
        → entries.new ≡ a ++ n ++ t ++ o }
{
    let rest = &mut entries[start..];
    rest.rotate_right(count);
    let rest = &mut rest[count..];
    rest.rotate_left(end - start);
}

/// The same in a list.
pub(crate) fn exchange_in(entries: &mut Vec<Entry>, start: usize, end: usize, count: usize)
    requires order { start ≤ end }
    requires within { end + count ≤ length entries.old.items }
    ensures len { length entries.new.items ≡ length entries.old.items }
    ensures turned { (a o t n : List Entry) → entries.old.items ≡ a ++ o ++ t ++ n → length a ≡ start → length a + length o ≡ end → length n ≡ count
        → entries.new.items ≡ a ++ n ++ t ++ o }
{
    exchange(entries.as_mut_slice(), start, end, count);
}

/// Takes the places of a span out.
pub(crate) fn cut_out(entries: &mut Vec<Entry>, span: Span)
    requires order { span.start ≤ span.end }
    requires within { span.end ≤ length entries.old.items }
    ensures { entries.new.items ≡ take span.start entries.old.items ++ drop span.end entries.old.items }
{
    let had = entries.len();
    exchange_in(entries, span.start, span.end, 0);
    entries.truncate(had - (span.end - span.start));
}
