//! A map between edits.

ghost use Rattle.std.specs.Prelude.{◌≡◌};
ghost use Rattle.map_edits.specs.WholeStates.{no_names};
ghost use Rattle.kept_map.specs.Maps.{seen};
ghost use Rattle.kept_map.specs.Keeps.{IsKept};

use edit_plans::Planned;
use indexmap::{IndexMap, IndexSet};
use layer_tiles::{Extent, Layer};
use map_marks::Marks;
use map_waves::Kept;
use map_words::Name;
use op_jobs::Beside;
use procedure_expand::{Flat, Procs};
use statement_graph::Graph;
use statement_parser::Written;
use std::alloc::Global;

/// What a name stands for.
#[derive(Drop)]
pub enum Item {
    /// A layer that was loaded, made new or painted; it stands among the sources.
    Source,
    /// A statement as it was written, and the flat statements that it stands for.
    Statement { written: Written, flats: Vec<Flat> },
}

/// The sources, each with its layer at the place of its name.
#[derive(Drop)]
pub struct Sources {
    pub names: IndexSet<Name>,
    pub layers: Vec<Layer>,
}

/// The names of a map in order of place, with all that is kept of them.
#[derive(Drop)]
pub struct KeptMap {
    pub extent: Extent,
    pub names: IndexMap<Name, Item>,
    pub graph: Graph,
    pub sources: Sources,
    /// The flat statements that are defined, by depth, then in order of place.
    pub planned: Planned,
    /// What is kept of each of them.
    pub kept: Vec<Kept<Beside>>,
    pub procedures: Procs,
    pub labels: Marks,
    pub symbols: Marks,
    /// How many edits were accepted; at most 2^64-1.
    pub number: u64,
}

impl KeptMap {
    /// A map without names. It takes no memory.
    pub fn new(alloc: Global, extent: Extent) -> KeptMap
        ensures seen { seen result ≡ no_names extent }
        ensures kept { IsKept result }
    {
        // Tells the proof that the size is within the limits.
        let _columns = extent.columns();
        KeptMap {
            extent,
            names: IndexMap::new(alloc),
            graph: Graph::new(alloc),
            sources: Sources {
                names: IndexSet::new(alloc),
                layers: Vec::new(alloc),
            },
            planned: Planned {
                names: IndexSet::new(alloc),
                steps: Vec::new(alloc),
            },
            kept: Vec::new(alloc),
            procedures: Procs::new(alloc),
            labels: Marks::new(alloc),
            symbols: Marks::new(alloc),
            number: 0,
        }
    }
}
