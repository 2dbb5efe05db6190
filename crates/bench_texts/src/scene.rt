//! What a plan is made of: a graph of names, its sources, and its flat statements, which are sums.

ghost use Rattle.std.specs.Prelude.{◌≡◌, ◌+◌, ◌<◌, ◌≤◌, ◌∷◌, [], length, map, Some, IfSome};
ghost use Rattle.map_defs.specs.Ops.{layer_term};
ghost use Rattle.statement_graph.specs.Groups.{nodes_in};
ghost use Rattle.statement_graph.specs.Puts.{flat_nodes};
ghost use Rattle.statement_parser.specs.Views.{op_view};
ghost use Rattle.bench_texts.specs.Scenes.{IsFine, HasSum};

use edit_plans::{Flat, FlatStatements, Planned, SourceNames, make_plan};
use indexmap::{IndexMap, IndexSet};
use map_nums::Stat;
use map_words::Name;
use statement_graph::{Graph, Node};
use statement_parser::{Op, Term};
use std::alloc::Global;

#[derive(Drop)]
pub struct Scene {
    pub graph: Graph,
    pub sources: IndexSet<Name>,
    pub ops: IndexMap<Name, Op>,
    /// The statements whose layers are kept.
    pub kept: IndexSet<Name>,
}

impl FlatStatements for Scene {
    ghost use Rattle.bench_texts.specs.Scenes.{flats_of};

    ghost all = { λ s. flats_of s.ops.entries };

    fn find(&self, name: &Name) -> Option<Flat<'_>> {
        match self.ops.get(name) {
            Some(op) => Some(Flat { op, written: false }),
            None => None,
        }
    }
}

fn copy_of(alloc: Global, name: &Name) -> Option<Name>
    ensures { IfSome result (λ n. n ≡ name.now) }
{
    name.copy(alloc).ok()
}

// The sum of some layers.
fn sum_of(alloc: Global, names: &[Name]) -> Option<Op>
    ensures { IfSome result (λ op. (op_view op).terms ≡ map (λ n. layer_term n) names.now) }
{
    let mut terms = Vec::new(alloc);
    for name in names {
        terms.push(Term::Layer(copy_of(alloc, name)?)).ok()?;
    }
    Some(Op::Local {
        stat: Stat::Sum,
        terms,
        ignoring: false,
    })
}

// Writes the sum of some layers under a name.
fn put_sum(ops: &mut IndexMap<Name, Op>, alloc: Global, name: &Name, reads: &[Name]) -> Option<()>
    ensures { IfSome result (λ _. HasSum ops.old.entries ops.new.entries name.now reads.now) }
{
    let own = copy_of(alloc, name)?;
    let op = sum_of(alloc, reads)?;
    ops.insert(own, op).ok()?;
    Some(())
}

// The flat statement that reads these.
fn nodes_of(alloc: Global, name: &Name, needs: Vec<Name>) -> Option<Vec<Node>>
    ensures { IfSome result (λ nodes. flat_nodes nodes.items ≡ record { name = name.now; needs = Some needs.items } ∷ []) }
{
    let name = copy_of(alloc, name)?;
    let mut nodes = Vec::new(alloc);
    nodes.push(Node { name, needs }).ok()?;
    Some(nodes)
}

impl Scene {
    pub fn new(alloc: Global) -> Scene
        ensures fine { IsFine result.graph result.sources.keys result.ops.entries }
        ensures empty { length (nodes_in result.graph) ≡ 0 }
    {
        Scene {
            graph: Graph::new(alloc),
            sources: IndexSet::new(alloc),
            ops: IndexMap::new(alloc),
            kept: IndexSet::new(alloc),
        }
    }

    /// A source with a new name.
    pub fn load(&mut self, alloc: Global, name: &Name) -> Option<()>
        requires fine { IsFine self.old.graph self.old.sources.keys self.old.ops.entries }
        requires room { length (nodes_in self.old.graph) < 1000 }
        ensures fine { IfSome result (λ _. IsFine self.new.graph self.new.sources.keys self.new.ops.entries) }
        ensures one { IfSome result (λ _. length (nodes_in self.new.graph) ≡ length (nodes_in self.old.graph) + 1) }
    {
        if self.graph.depth(name).is_some() {
            return None;
        }
        let Ok(()) = self.graph.put_source(alloc, name) else {
            return None;
        };
        let own = copy_of(alloc, name)?;
        let Ok(_) = self.sources.insert(own) else {
            return None;
        };
        Some(())
    }

    /// A sum of layers with a new name.
    pub fn define(&mut self, alloc: Global, name: &Name, reads: Vec<Name>) -> Option<()>
        requires fine { IsFine self.old.graph self.old.sources.keys self.old.ops.entries }
        requires room { length (nodes_in self.old.graph) < 1000 }
        requires few { length reads.items ≤ 8 }
        ensures fine { IfSome result (λ _. IsFine self.new.graph self.new.sources.keys self.new.ops.entries) }
        ensures one { IfSome result (λ _. length (nodes_in self.new.graph) ≡ length (nodes_in self.old.graph) + 1) }
    {
        if self.graph.depth(name).is_some() {
            return None;
        }
        put_sum(&mut self.ops, alloc, name, reads.as_slice())?;
        let nodes = nodes_of(alloc, name, reads)?;
        let Ok(()) = self.graph.put(alloc, name, nodes) else {
            return None;
        };
        self.kept.insert(copy_of(alloc, name)?).ok()?;
        Some(())
    }

    pub fn plan(&self, alloc: Global) -> Option<Planned>
        requires fine { IsFine self.now.graph self.now.sources.keys self.now.ops.entries }
        requires few { length (nodes_in self.now.graph) < 1000 }
    {
        let sources = SourceNames {
            held: &self.sources,
            added: None,
        };
        make_plan(alloc, &self.graph, sources, self, &self.kept).ok()
    }
}
