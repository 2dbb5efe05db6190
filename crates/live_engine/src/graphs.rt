//! The graph after a source is added, or a name dropped.

ghost use Rattle.std.specs.Prelude.{◌≡◌, ◌+◌, ◌^◌, ◌<◌, ◌++◌, ◌∷◌, [], length, IfOk, IsFalse};
ghost use Rattle.statement_graph.specs.Groups.{nodes_in, has_group, drop_group};
ghost use Rattle.statement_graph.specs.Puts.{source_node};

use map_nums::NoMemory;
use map_words::Name;
use statement_graph::Graph;
use std::alloc::Global;

/// The graph with a further source.
pub(crate) fn with_source(graph: &Graph, alloc: Global, name: &Name) -> Result<Graph, NoMemory>
    requires new { IsFalse (has_group graph.now name.now) }
    requires few { length (nodes_in graph.now) + 2 < 2 ^ 32 }
    ensures { IfOk result (λ next. next ≡ graph.now ++ record { name = name.now; nodes = source_node name.now ∷ [] } ∷ []) }
{
    let mut next = graph.copy(alloc)?;
    next.put_source(alloc, name)?;
    Ok(next)
}

/// The graph without a name.
pub(crate) fn without(graph: &Graph, alloc: Global, name: &Name) -> Result<Graph, NoMemory>
    ensures { IfOk result (λ next. next ≡ drop_group graph.now name.now) }
{
    let mut next = graph.copy(alloc)?;
    next.drop_name(name);
    Ok(next)
}
