//! The graph after a statement is written.

ghost use Rattle.std.specs.Prelude.{◌≡◌, ◌++◌, ◌∷◌, [], IfOk, OnOk, flat_map};
ghost use Rattle.map_defs.specs.Ops.{term_names, needs_of as needs_of_op};
ghost use Rattle.statement_parser.specs.Views.{term_view, terms_view, op_view};
ghost use Rattle.procedure_expand.specs.Flats.{flat_view, flats_view};
ghost use Rattle.map_edits.specs.LayerDefs.{flat_layer, node_of_layer};
ghost use Rattle.statement_graph.specs.Puts.{FitsAs, flat_node, flat_nodes};
ghost use Rattle.kept_map.specs.Groups.{statement_nodes, IsGraphWith};

use map_nums::NoMemory;
use map_words::Name;
use procedure_expand::Flat;
use statement_graph::{Graph, GraphRefusal, Node};
use statement_parser::{Op, Term};
use std::alloc::Global;

/// Adds the name of a term that is a layer.
fn push_name(needs: &mut Vec<Name>, alloc: Global, term: &Term) -> Result<(), NoMemory>
    ensures { OnOk result (needs.new.items ≡ needs.old.items ++ term_names (term_view term.now)) }
{
    if let Term::Layer(name) = term {
        needs.push(name.copy(alloc)?)?;
    }
    Ok(())
}

/// The names of terms that are layers, in order.
fn names_among(alloc: Global, terms: &[Term]) -> Result<Vec<Name>, NoMemory>
    ensures { IfOk result (λ names. names.items ≡ flat_map term_names (terms_view terms.now)) }
{
    let mut names = Vec::new(alloc);
    for term in terms {
        push_name(&mut names, alloc, term)?;
    }
    Ok(names)
}

/// The names of two terms that are layers, in order.
fn names_of_both(alloc: Global, left: &Term, right: &Term) -> Result<Vec<Name>, NoMemory>
    ensures { IfOk result (λ names. names.items ≡ flat_map term_names (term_view left.now ∷ term_view right.now ∷ [])) }
{
    let mut names = Vec::new(alloc);
    push_name(&mut names, alloc, left)?;
    push_name(&mut names, alloc, right)?;
    Ok(names)
}

fn names_of_one(alloc: Global, term: &Term) -> Result<Vec<Name>, NoMemory>
    ensures { IfOk result (λ names. names.items ≡ flat_map term_names (term_view term.now ∷ [])) }
{
    let mut names = Vec::new(alloc);
    push_name(&mut names, alloc, term)?;
    Ok(names)
}

/// The names that an operation needs, in order.
fn needs_of(alloc: Global, op: &Op) -> Result<Vec<Name>, NoMemory>
    ensures { IfOk result (λ names. names.items ≡ needs_of_op (op_view op.now)) }
{
    match op {
        Op::Local { terms, .. } => names_among(alloc, terms.as_slice()),
        Op::Difference { left, right } | Op::Ratio { left, right } => {
            names_of_both(alloc, left, right)
        }
        Op::Zonal { of, zones, .. } => names_of_both(alloc, of, zones),
        Op::Flow { of, weights } => names_of_both(alloc, of, weights),
        Op::Spread { of, friction, .. } | Op::Neighbor { of, friction, .. } => {
            names_of_both(alloc, of, friction)
        }
        Op::Sight { of, surface, .. } => names_of_both(alloc, of, surface),
        Op::Rating { of, .. }
        | Op::Focal { of, .. }
        | Op::Incremental { of, .. }
        | Op::Direction { of }
        | Op::Region { of } => names_of_one(alloc, of),
    }
}

/// The node of a flat statement.
fn node_of(alloc: Global, flat: &Flat) -> Result<Node, NoMemory>
    ensures { IfOk result (λ node. flat_node node ≡ node_of_layer (flat_layer (flat_view flat.now))) }
{
    let name = flat.name.copy(alloc)?;
    let needs = needs_of(alloc, &flat.op)?;
    Ok(Node { name, needs })
}

/// The nodes of flat statements, in order.
fn nodes_of(alloc: Global, flats: &[Flat]) -> Result<Vec<Node>, NoMemory>
    ensures { IfOk result (λ nodes. flat_nodes nodes.items ≡ statement_nodes (flats_view flats.now)) }
{
    let mut nodes = Vec::new(alloc);
    for flat in flats {
        nodes.push(node_of(alloc, flat)?)?;
    }
    Ok(nodes)
}

/// The graph with a statement, in its place where the name is there.
pub(crate) fn with_statement(
    graph: &Graph,
    alloc: Global,
    name: &Name,
    flats: &[Flat],
) -> Result<Graph, GraphRefusal>
    requires { FitsAs graph.now name.now (statement_nodes (flats_view flats.now)) }
    ensures { IsGraphWith graph.now name.now (statement_nodes (flats_view flats.now)) result }
{
    let nodes = nodes_of(alloc, flats)?;
    let mut next = graph.copy(alloc)?;
    match next.put(alloc, name, nodes) {
        Ok(()) => Ok(next),
        Err(refusal) => Err(refusal),
    }
}
