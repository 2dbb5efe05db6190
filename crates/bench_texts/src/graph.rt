//! The graph of names: so many times a statement is written again, in a copy of a graph of 68 names where each
//! statement needs the eight names before it.
//!
//! The first word is the number of rounds. With `copy` for the second, the graph is only copied; with `walk`, its
//! statements are asked for by depth, one after another; with `list`, all at once. What is printed is the sum of the
//! depths of the last name, or the number of statements that were found, over all rounds. `bench/graph` tells the time
//! of a round from two such runs.

ghost use Rattle.std.specs.Prelude.{◌≡◌, ◌+◌, ◌<◌, ◌≤◌, length, IfSome, Some};
ghost use Rattle.statement_graph.specs.Groups.{nodes_in};
ghost use Rattle.statement_graph.specs.Puts.{own_name, flat_nodes};

use crate::words::{name_of, number_at, word_at};
use map_words::Name;
use statement_graph::{Graph, Node};
use std::alloc::Global;

/// How many names there are, the source's among them.
const NAMES: u32 = 68;

/// How many names a statement needs.
const TERMS: u32 = 8;

/// What is measured.
#[derive(Clone, Copy)]
enum Work {
    Define,
    Copy,
    Walk,
    List,
}

// The names before a number, as often as a statement has terms; where there are fewer, the source's again.
fn needs_of(alloc: Global, number: u32) -> Option<Vec<Name>> {
    let mut needs = Vec::new(alloc);
    for back in 0..TERMS {
        let need = name_of(alloc, number.saturating_sub(back + 1))?;
        needs.push(need).ok()?;
    }
    Some(needs)
}

// The flat statement with a name.
fn nodes_of(alloc: Global, name: &Name, number: u32) -> Option<Vec<Node>>
    ensures own { IfSome result (λ nodes. own_name (flat_nodes nodes.items) ≡ Some name.now) }
    ensures one { IfSome result (λ nodes. length nodes.items ≡ 1) }
{
    let needs = needs_of(alloc, number)?;
    let name = name.copy(alloc).ok()?;
    let mut nodes = Vec::new(alloc);
    nodes.push(Node { name, needs }).ok()?;
    Some(nodes)
}

// Writes a statement.
fn define(graph: &mut Graph, alloc: Global, number: u32) -> Option<()>
    requires { length (nodes_in graph.old) < 1000 }
    ensures { length (nodes_in graph.new) ≤ length (nodes_in graph.old) + 1 }
{
    let name = name_of(alloc, number)?;
    let nodes = nodes_of(alloc, &name, number)?;
    graph.put(alloc, &name, nodes).ok()
}

// A graph with the source alone.
fn with_source(alloc: Global) -> Option<Graph>
    ensures { IfSome result (λ graph. length (nodes_in graph) ≡ 1) }
{
    let name = name_of(alloc, 0)?;
    let mut graph = Graph::new(alloc);
    graph.put_source(alloc, &name).ok()?;
    Some(graph)
}

// The graph of all names.
fn full(alloc: Global) -> Option<Graph>
    ensures { IfSome result (λ graph. length (nodes_in graph) ≤ 68) }
{
    let mut graph = with_source(alloc)?;
    for number in 1..NAMES {
        define(&mut graph, alloc, number)?;
    }
    Some(graph)
}

// A statement written again in a copy; the depth of the last name.
fn redefine(alloc: Global, graph: &Graph, number: u32, last: &Name) -> Option<u64>
    requires { length (nodes_in graph.now) ≤ 68 }
{
    let mut next = graph.copy(alloc).ok()?;
    define(&mut next, alloc, number)?;
    Some(next.depth(last)? as u64)
}

// How many flat statements are found by depth.
fn walk(graph: &Graph) -> u64 {
    let mut found = 0;
    for k in 0..NAMES {
        if graph.node(k).is_some() {
            found += 1;
        }
    }
    found
}

// What a round adds.
fn round(alloc: Global, work: Work, graph: &Graph, at: u32, last: &Name) -> Option<u64>
    requires { length (nodes_in graph.now) ≤ 68 }
{
    match work {
        Work::Define => redefine(alloc, graph, at % (NAMES - 1) + 1, last),
        Work::Copy => Some(graph.copy(alloc).ok()?.depth(last)? as u64),
        Work::Walk => Some(walk(graph)),
        Work::List => Some(graph.ordered(alloc).ok()?.len() as u64),
    }
}

// So many rounds, and the sum of what they add.
fn rounds(alloc: Global, work: Work, count: u32) -> Option<u64> {
    let graph = full(alloc)?;
    let last = name_of(alloc, NAMES - 1)?;
    let mut total: u64 = 0;
    for at in 0..count {
        let more = round(alloc, work, &graph, at, &last)?;
        total = total.wrapping_add(more);
    }
    Some(total)
}

/// What so many rounds add up to.
pub fn measure(alloc: Global, words: &[&str]) -> Option<u64> {
    let work = match word_at(words, 1) {
        "copy" => Work::Copy,
        "walk" => Work::Walk,
        "list" => Work::List,
        _ => Work::Define,
    };
    rounds(alloc, work, number_at(words, 0))
}
