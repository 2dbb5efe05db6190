//! Why a statement isn't put into a graph.

ghost use Rattle.std.specs.Prelude.{◌≡◌};

use map_nums::NoMemory;
use std::alloc::AllocError;

/// Why a statement isn't put into a graph.
#[derive(Clone, Copy, Debug, PartialEq, Eq)]
pub enum GraphRefusal {
    /// The name would be reached from what it needs.
    Cycle,
    NoMemory,
}

impl From<NoMemory> for GraphRefusal {
    ghost use Rattle.statement_graph.specs.declared.refusal.GraphRefusal.TheVariants.{NoMemory as no_memory};

    ghost from_gives = { λ _ e. e ≡ no_memory };

    fn from(_: NoMemory) -> GraphRefusal {
        GraphRefusal::NoMemory
    }
}

impl From<AllocError> for GraphRefusal {
    ghost use Rattle.statement_graph.specs.declared.refusal.GraphRefusal.TheVariants.{NoMemory as no_memory};

    ghost from_gives = { λ _ e. e ≡ no_memory };

    fn from(_: AllocError) -> GraphRefusal {
        GraphRefusal::NoMemory
    }
}
