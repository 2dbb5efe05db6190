//! The steps of the statements that are defined after an edit.

ghost use Rattle.std.specs.Prelude.{◌≡◌, ◌+◌, ◌^◌, ◌<◌, ◌++◌, ◌∷◌, [], suc, length, fold, map, max, option_map, slice_get, position, bytes_eq, IfOk, OnOk};
ghost use Rattle.std.specs.List.{All};
ghost use Rattle.map_nums.specs.Options.{all_some};
ghost use Rattle.map_edits.specs.Laws.{HasNoCycle};
ghost use Rattle.statement_graph.specs.Groups.{nodes_in};
ghost use Rattle.statement_parser.specs.Views.{op_view, term_view};
ghost use Rattle.edit_plans.specs.Planned.{source_names, place_for, ref_for, ref_depth, HasValue, HasOperands, AreNamedApart, AreSources, AreFlats, IsPlanned};
ghost use Rattle.edit_plans.specs.NextStep.{IsReady, IsNextStep, IsNew};

use crate::flats::FlatStatements;
use indexmap::IndexSet;
use layer_tiles::Cell;
use map_nums::NoMemory;
use map_waves::{Ref, Step};
use map_words::Name;
use statement_graph::Graph;
use statement_parser::{Op, Term};
use std::alloc::Global;

/// The names of the sources by place.
#[derive(Clone, Copy)]
pub struct SourceNames<'a> {
    pub held: &'a IndexSet<Name>,
    /// One that comes after all others.
    pub added: Option<&'a Name>,
}

/// The statements that are defined, by depth, then in order of place, each with its name.
#[derive(Drop)]
pub struct Planned {
    pub names: IndexSet<Name>,
    pub steps: Vec<Step<Op>>,
}

impl Planned {
    fn with_room(alloc: Global, count: usize) -> Result<Planned, NoMemory>
        ensures names { IfOk result (λ p. p.names.keys ≡ []) }
        ensures steps { IfOk result (λ p. p.steps.items ≡ []) }
    {
        let names = IndexSet::with_capacity(alloc, count)?;
        let steps = Vec::with_capacity(alloc, count)?;
        Ok(Planned { names, steps })
    }

    fn push(&mut self, alloc: Global, name: &Name, step: Step<Op>) -> Result<(), NoMemory>
        requires { IsNew self.old.names.keys name.now }
        ensures names { OnOk result (self.new.names.keys ≡ self.old.names.keys ++ name.now ∷ []) }
        ensures steps { OnOk result (self.new.steps.items ≡ self.old.steps.items ++ step ∷ []) }
    {
        self.names.insert(name.copy(alloc)?)?;
        self.steps.push(step)?;
        Ok(())
    }
}

/// The place of a source.
fn source_at(sources: SourceNames<'_>, name: &Name) -> Option<usize>
    ensures { result ≡ position (bytes_eq name.now) (source_names sources.entry) }
{
    match sources.held.get_index_of(name) {
        Some(place) => Some(place),
        None => match sources.added {
            Some(added) if *name == *added => Some(sources.held.len()),
            _ => None,
        },
    }
}

/// What an operand reads: a source, or a statement that is planned already.
fn place_of(sources: SourceNames<'_>, names: &IndexSet<Name>, name: &Name) -> Option<Ref>
    ensures { result ≡ place_for (source_names sources.entry) names.now.keys name.now }
{
    match source_at(sources, name) {
        Some(place) => Some(Ref::Source(place)),
        None => match names.get_index_of(name) {
            Some(place) => Some(Ref::Statement(place)),
            None => None,
        },
    }
}

/// A term as an operand, none where its layer is not there.
fn ref_of(sources: SourceNames<'_>, names: &IndexSet<Name>, term: &Term) -> Option<Ref>
    requires { HasValue (term_view term.now) }
    ensures { result ≡ ref_for (source_names sources.entry) names.now.keys (term_view term.now) }
{
    match term {
        Term::Layer(name) => place_of(sources, names, name),
        Term::Number(value) => Some(Ref::Number(Cell::within(*value))),
    }
}

/// The operands of an operation, none where a layer is not there.
fn refs_of(
    alloc: Global,
    sources: SourceNames<'_>,
    names: &IndexSet<Name>,
    op: &Op,
) -> Result<Option<Vec<Ref>>, NoMemory>
    requires { HasOperands (op_view op.now) }
    ensures { IfOk result (λ refs. option_map (λ rs. rs.items) refs ≡ all_some (map (ref_for (source_names sources.entry) names.now.keys) (op_view op.now).terms)) }
{
    let mut refs = Vec::new(alloc);
    let mut k = 0;
    while let Some(term) = op.term(k) {
        let Some(operand) = ref_of(sources, names, term) else {
            return Ok(None);
        };
        refs.push(operand)?;
        k += 1;
    }
    Ok(Some(refs))
}

/// How deep an operand stands.
fn depth_of(operand: Ref, steps: &[Step<Op>]) -> u32
    requires { All (λ x. x.depth + 1 < 2 ^ 32) steps.now }
    ensures depth { result ≡ ref_depth steps.now operand }
    ensures shallow { result + 1 < 2 ^ 32 }
{
    match operand {
        Ref::Statement(place) => match steps.get(place) {
            Some(step) => step.depth,
            None => 0,
        },
        _ => 0,
    }
}

/// One more than the greatest depth of the operands.
fn depth_over(refs: &[Ref], steps: &[Step<Op>]) -> u32
    requires { All (λ x. x.depth + 1 < 2 ^ 32) steps.now }
    ensures { result ≡ suc (fold (λ d r. max d (ref_depth steps.now r)) 0 refs.now) }
{
    let mut depth = 0;
    for operand in refs {
        depth = depth.max(depth_of(*operand, steps));
    }
    depth + 1
}

/// The step of a statement that lacks no name, after those that are planned.
fn next_step<F: FlatStatements>(
    alloc: Global,
    sources: SourceNames<'_>,
    flats: &F,
    old: &IndexSet<Name>,
    planned: &Planned,
    name: &Name,
) -> Result<Step<Op>, NoMemory>
    requires ready { IsReady (source_names sources) (F.all flats.now) planned.now.names.keys name.now }
    requires shallow { All (λ x. x.depth + 1 < 2 ^ 32) planned.now.steps.items }
    ensures { IfOk result (IsNextStep (source_names sources.entry) (F.all flats.now) old.now.keys planned.now.names.keys planned.now.steps.items name.now) }
{
    let Some(flat) = flats.find(name) else {
        unreachable!()
    };
    let Some(refs) = refs_of(alloc, sources, &planned.names, flat.op)? else {
        unreachable!()
    };
    let depth = depth_over(refs.as_slice(), planned.steps.as_slice());
    let op = flat.op.copy(alloc)?;
    Ok(Step {
        op,
        refs,
        depth,
        kept: old.get_index_of(name),
        written: flat.written,
    })
}

/// The plan of a map after an edit: a step for each flat statement that lacks no name. `old` has the names by the
/// places of what is kept of them.
pub fn make_plan<F: FlatStatements>(
    alloc: Global,
    graph: &Graph,
    sources: SourceNames<'_>,
    flats: &F,
    old: &IndexSet<Name>,
) -> Result<Planned, NoMemory>
    requires acyclic { HasNoCycle (nodes_in graph.now) }
    requires apart { AreNamedApart (nodes_in graph.now) }
    requires few { length (nodes_in graph.now) + 1 < 2 ^ 31 }
    requires sources { AreSources (nodes_in graph.now) (source_names sources) }
    requires flats { AreFlats (nodes_in graph.now) (F.all flats.now) }
    ensures { IfOk result (λ p. IsPlanned (nodes_in graph.now) (source_names sources.entry) (F.all flats.now) old.now.keys p.names.keys p.steps.items) }
{
    let nodes = graph.whole(alloc)?;
    let mut planned = Planned::with_room(alloc, nodes.len())?;
    for node in nodes.as_slice() {
        let step = next_step(alloc, sources, flats, old, &planned, &node.name)?;
        planned.push(alloc, &node.name, step)?;
    }
    Ok(planned)
}
