//! Names in order of depth, as statements come, change and go.
ghost use Rattle.std.specs.Prelude.{◌≡◌, ◌+◌, ◌*◌, ◌<◌, ◌≤◌, length, IfOk, Some};
ghost use Rattle.statement_graph.specs.Groups.{nodes_in};
ghost use Rattle.statement_graph.specs.Puts.{own_name, flat_nodes};

use map_nums::NoMemory;
use map_words::Name;
use statement_graph::{Graph, GraphRefusal, Node};
use std::alloc::Global;
use std::process::Abort;
use std::test::Fail;

/// What is done to a graph, and what is seen of it.
#[derive(Clone, Copy)]
enum Step<'a> {
    /// A statement is put that needs these names.
    Puts(&'a str, &'a [&'a str]),
    /// A statement is put with an inner one before it; each with the names that it needs.
    Calls(&'a str, &'a [&'a str], &'a str, &'a [&'a str]),
    /// A statement that needs these names is refused for its cycle.
    Refuses(&'a str, &'a [&'a str]),
    Drops(&'a str),
    /// The flat statements in order of depth: a name, its depth, and the first name that it lacks behind a question mark.
    Stands(&'a str),
    /// The names of all flat statements by depth, and those of the statements that lack none.
    Lists(&'a str, &'a str),
    Depth(&'a str, Option<u32>),
    LacksNone(&'a str),
}

fn named(alloc: Global, text: &str) -> Result<Name, Fail> {
    match Name::plain(alloc, text.as_bytes()) {
        Ok(name) => Ok(name),
        Err(_) => Ok(Name::dotted(alloc, text.as_bytes())?),
    }
}

fn names_of(alloc: Global, texts: &[&str]) -> Result<Vec<Name>, Fail> {
    let mut names = Vec::new(alloc);
    for text in texts {
        names.push(named(alloc, text)?)?;
    }
    Ok(names)
}

fn node(alloc: Global, name: &Name, needs: &[&str]) -> Result<Node, Fail>
    ensures { IfOk result (λ n. n.name ≡ name.now) }
{
    let needs = names_of(alloc, needs)?;
    Ok(Node {
        name: name.copy(alloc)?,
        needs,
    })
}

/// The node of a statement, with that of its inner one before it.
fn nodes(alloc: Global, inner: Option<Node>, own: Node) -> Result<Vec<Node>, NoMemory>
    ensures own { IfOk result (λ v. own_name (flat_nodes v.items) ≡ Some own.name) }
    ensures few { IfOk result (λ v. length v.items ≤ 2) }
{
    let mut nodes = Vec::new(alloc);
    if let Some(inner) = inner {
        nodes.push(inner)?;
    }
    nodes.push(own)?;
    Ok(nodes)
}

/// An inner statement's node; none where there is no inner one.
fn inner_node(alloc: Global, inner: Option<(&str, &[&str])>) -> Result<Option<Node>, Fail> {
    let Some((text, needs)) = inner else {
        return Ok(None);
    };
    let name = named(alloc, text)?;
    Ok(Some(node(alloc, &name, needs)?))
}

/// The nodes of a statement and of its inner one.
fn both_nodes(
    alloc: Global,
    name: &Name,
    needs: &[&str],
    inner: Option<(&str, &[&str])>,
) -> Result<Vec<Node>, Fail>
    ensures own { IfOk result (λ v. own_name (flat_nodes v.items) ≡ Some name.now) }
    ensures few { IfOk result (λ v. length v.items ≤ 2) }
{
    let inner = inner_node(alloc, inner)?;
    let own = node(alloc, name, needs)?;
    Ok(nodes(alloc, inner, own)?)
}

/// What is said to a statement.
fn put(
    graph: &mut Graph,
    alloc: Global,
    name: &Name,
    needs: &[&str],
    inner: Option<(&str, &[&str])>,
) -> Result<Result<(), GraphRefusal>, Fail>
    requires { length (nodes_in graph.old) < 1000 }
    ensures { length (nodes_in graph.new) ≤ length (nodes_in graph.old) + 2 }
{
    let nodes = both_nodes(alloc, name, needs, inner)?;
    Ok(graph.put(alloc, name, nodes))
}

/// A statement is put, or refused for this.
fn puts<R: Abort>(
    rt: &R,
    alloc: Global,
    graph: &mut Graph,
    name: &str,
    needs: &[&str],
    inner: Option<(&str, &[&str])>,
    want: Result<(), GraphRefusal>,
) -> Result<(), Fail>
    requires { length (nodes_in graph.old) < 1000 }
    ensures { length (nodes_in graph.new) ≤ length (nodes_in graph.old) + 2 }
{
    let own = named(alloc, name)?;
    let answer = put(graph, alloc, &own, needs, inner)?;
    assert_eq!(rt; answer, want, "{name}");
    Ok(())
}

fn take_out(graph: &mut Graph, name: &Name)
    ensures { length (nodes_in graph.new) ≤ length (nodes_in graph.old) }
{
    graph.drop_name(name);
}

fn drops(alloc: Global, graph: &mut Graph, name: &str) -> Result<(), Fail>
    ensures { length (nodes_in graph.new) ≤ length (nodes_in graph.old) }
{
    let name = named(alloc, name)?;
    take_out(graph, &name);
    Ok(())
}

/// A flat statement as `Stands` tells it, with a blank behind it.
fn put_told(text: &mut Vec<u8>, graph: &Graph, name: &Name) -> Result<(), Fail> {
    text.extend_from_slice(name.bytes())?;
    let depth = graph.depth(name).ok_or("no depth")?;
    text.push(b'0' + depth.min(9) as u8)?;
    if let Some(missing) = graph.missing(name) {
        text.push(b'?')?;
        text.extend_from_slice(missing.bytes())?;
    }
    text.push(b' ')?;
    Ok(())
}

/// The first four flat statements as `Stands` tells them.
fn told(alloc: Global, graph: &Graph) -> Result<Vec<u8>, Fail> {
    let mut text = Vec::new(alloc);
    for k in 0..4 {
        if let Some(node) = graph.node(k) {
            put_told(&mut text, graph, &node.name)?;
        }
    }
    Ok(text)
}

/// The names of nodes, each with a blank behind it.
fn names(alloc: Global, nodes: &[&Node]) -> Result<Vec<u8>, Fail> {
    let mut text = Vec::new(alloc);
    for node in nodes {
        text.extend_from_slice(node.name.bytes())?;
        text.push(b' ')?;
    }
    Ok(text)
}

/// A graph has these flat statements, and so has a copy of it.
fn stands<R: Abort>(rt: &R, alloc: Global, graph: &Graph, want: &str) -> Result<(), Fail> {
    assert_eq!(rt; told(alloc, graph)?.as_slice(), want.as_bytes());
    let copy = graph.copy(alloc)?;
    assert_eq!(rt; told(alloc, &copy)?.as_slice(), want.as_bytes());
    Ok(())
}

fn lists<R: Abort>(
    rt: &R,
    alloc: Global,
    graph: &Graph,
    all: &str,
    whole: &str,
) -> Result<(), Fail> {
    assert_eq!(rt;
        names(alloc, &graph.ordered(alloc)?)?.as_slice(),
        all.as_bytes()
    );
    assert_eq!(rt;
        names(alloc, &graph.whole(alloc)?)?.as_slice(),
        whole.as_bytes()
    );
    Ok(())
}

fn has_depth<R: Abort>(
    rt: &R,
    alloc: Global,
    graph: &Graph,
    name: &str,
    want: Option<u32>,
) -> Result<(), Fail> {
    let own = named(alloc, name)?;
    assert_eq!(rt; graph.depth(&own), want, "{name}");
    Ok(())
}

fn lacks_none<R: Abort>(rt: &R, alloc: Global, graph: &Graph, name: &str) -> Result<(), Fail> {
    let own = named(alloc, name)?;
    assert!(rt; graph.missing(&own).is_none(), "{name}");
    Ok(())
}

fn take<R: Abort>(rt: &R, alloc: Global, graph: &mut Graph, step: Step<'_>) -> Result<(), Fail>
    requires { length (nodes_in graph.old) < 1000 }
    ensures { length (nodes_in graph.new) ≤ length (nodes_in graph.old) + 2 }
{
    match step {
        Step::Puts(name, needs) => puts(rt, alloc, graph, name, needs, None, Ok(())),
        Step::Calls(name, needs, inner, inner_needs) => {
            let inner = Some((inner, inner_needs));
            puts(rt, alloc, graph, name, needs, inner, Ok(()))
        }
        Step::Refuses(name, needs) => {
            puts(
                rt,
                alloc,
                graph,
                name,
                needs,
                None,
                Err(GraphRefusal::Cycle),
            )
        }
        Step::Drops(name) => drops(alloc, graph, name),
        Step::Stands(want) => stands(rt, alloc, graph, want),
        Step::Lists(all, whole) => lists(rt, alloc, graph, all, whole),
        Step::Depth(name, want) => has_depth(rt, alloc, graph, name, want),
        Step::LacksNone(name) => lacks_none(rt, alloc, graph, name),
    }
}

/// Takes these steps, one after another.
fn take_all<R: Abort>(
    rt: &R,
    alloc: Global,
    graph: &mut Graph,
    steps: &[Step<'_>],
) -> Result<(), Fail>
    requires { length (nodes_in graph.old) + 2 * length steps.now < 1000 }
{
    match steps {
        [] => Ok(()),
        [first, rest @ ..] => {
            take(rt, alloc, graph, *first)?;
            take_all(rt, alloc, graph, rest)
        }
    }
}

/// A graph with one source.
fn with_source(alloc: Global, name: &str) -> Result<Graph, Fail>
    ensures { IfOk result (λ g. length (nodes_in g) ≡ 1) }
{
    let name = named(alloc, name)?;
    let mut graph = Graph::new(alloc);
    graph.put_source(alloc, &name)?;
    Ok(graph)
}

/// A graph with the source A takes these steps.
fn tried<R: AllocGlobal + Abort>(rt: &R, steps: &[Step<'_>]) -> Result<(), Fail>
    requires { length steps.now < 100 }
{
    let mut graph = with_source(rt.alloc(), "A")?;
    take_all(rt, rt.alloc(), &mut graph, steps)
}

#[test]
fn rewriting_keeps_the_place_and_dropping_gives_it_up(rt: HostRuntime) -> Result<(), Fail> {
    let steps = [
        Step::Puts("C", &["B", "A"]),
        Step::Puts("B", &["A"]),
        Step::Stands("B1 C2 "),
        Step::Puts("C", &["A"]),
        Step::Stands("C1 B1 "),
        Step::Drops("C"),
        Step::Stands("B1 "),
        Step::Puts("C", &["A"]),
        Step::Stands("B1 C1 "),
    ];
    tried(&rt, &steps)
}

#[test]
fn depths_and_missing_names(rt: HostRuntime) -> Result<(), Fail> {
    let steps = [
        Step::Puts("C", &["A", "B"]),
        Step::Stands("C1?B "),
        Step::LacksNone("A"),
        Step::LacksNone("B"),
        Step::Depth("A", Some(0)),
        Step::Depth("B", None),
        Step::Puts("B", &[]),
        Step::Stands("B1 C2 "),
    ];
    tried(&rt, &steps)
}

#[test]
fn lists_by_depth(rt: HostRuntime) -> Result<(), Fail> {
    let steps = [
        Step::Puts("C", &["B", "A"]),
        Step::Puts("B", &["A"]),
        Step::Puts("D", &["Q"]),
        Step::Lists("B D C ", "B C "),
    ];
    tried(&rt, &steps)
}

#[test]
fn cycles_are_refused(rt: HostRuntime) -> Result<(), Fail> {
    let steps = [
        Step::Puts("B", &["C"]),
        Step::Refuses("C", &["A", "B"]),
        Step::Refuses("B", &["B"]),
        Step::Depth("C", None),
        Step::Stands("B1?C "),
    ];
    tried(&rt, &steps)
}

#[test]
fn calls_have_inner_statements(rt: HostRuntime) -> Result<(), Fail> {
    let steps = [
        // An inner statement may read the name itself.
        Step::Calls("P", &["A"], "P.x", &["P"]),
        Step::Stands("P1 P.x2 "),
        Step::Calls("P", &["P.x"], "P.x", &["A"]),
        Step::Stands("P.x1 P2 "),
        Step::Drops("P"),
        Step::Stands(""),
    ];
    tried(&rt, &steps)
}
