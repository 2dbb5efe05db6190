//! Edits, and why they are refused.

ghost use Rattle.std.specs.Prelude.{◌≡◌};

use layer_tiles::Layer;
use map_nums::NoMemory;
use map_waves::Counts;
use map_words::Name;
use statement_parser::LineEdit;
use std::alloc::AllocError;

/// What changes the names of a map.
#[derive(Drop)]
pub enum Edit {
    /// A further source. Its stamps become the edit's number.
    Load { name: Name, layer: Layer },
    Line(LineEdit),
}

/// An accepted edit.
#[derive(Clone, Copy, Debug, PartialEq, Eq)]
pub struct Accepted {
    /// How many edits were accepted so far, this one included; at most 2^64-1.
    pub number: u64,
    /// Tiles that changed, tiles that were damaged, and work, of all layers.
    pub counts: Counts,
}

/// Of what there would be too many.
#[derive(Clone, Copy, Debug, PartialEq, Eq)]
pub enum Which {
    /// 32 sources.
    Sources,
    /// 64 flat statements.
    Statements,
    /// 12 of them Zonal.
    Zonals,
    /// 8 of them FocalNeighbor.
    Neighbors,
    /// 4096 labels.
    Labels,
    /// 4096 symbols.
    Symbols,
    /// 32 procedures.
    Procedures,
}

/// Why an edit is refused. Rows and columns count from 1.
#[derive(Debug, Drop)]
pub enum Refusal {
    /// The name is no source and no statement.
    Unknown(Name),
    /// The name is a statement.
    Derived(Name),
    /// The name is there already.
    Exists(Name),
    /// The rows and columns of the map, which are others, or which a rectangle leaves.
    Size(u64, u64),
    Limit(Which),
    /// The name would be reached from its own operands.
    Cycle(Name),
    /// The first statement with a fault, where that is how many viewers it has, more than 64.
    Viewers(Name, u64),
    /// The first statement with a fault, where that is a value that no cell may hold, and the row and column of its first such cell.
    Overflow(Name, u64, u64),
    /// No procedure has this name.
    NoProcedure(Name),
    /// How many terms a call has, and how many its procedure takes.
    Terms(u64, u64),
    NoMemory,
}

impl From<NoMemory> for Refusal {
    ghost use Rattle.live_engine.specs.declared.edits.Refusal.TheVariants.{NoMemory as no_memory};

    ghost from_gives = { λ _ e. e ≡ no_memory };

    fn from(_: NoMemory) -> Refusal {
        Refusal::NoMemory
    }
}

impl From<AllocError> for Refusal {
    ghost use Rattle.live_engine.specs.declared.edits.Refusal.TheVariants.{NoMemory as no_memory};

    ghost from_gives = { λ _ e. e ≡ no_memory };

    fn from(_: AllocError) -> Refusal {
        Refusal::NoMemory
    }
}
