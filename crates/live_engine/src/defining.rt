//! Statements that are written or rewritten.

ghost use Rattle.std.specs.Prelude.{◌≡◌, ◌<◌, false, IfOk, IsTrue};
ghost use Rattle.indexmap.specs.IndexMap.{spare};
ghost use Rattle.layer_tiles.specs.Tallies.{IsUndivided};
ghost use Rattle.map_words.specs.Names.{is_plain};
ghost use Rattle.statement_parser.specs.Formed.{IsWritten};
ghost use Rattle.statement_parser.specs.Views.{written_view};
ghost use Rattle.kept_map.specs.Maps.{seen};
ghost use Rattle.kept_map.specs.Keeps.{IsKept};
ghost use Rattle.live_engine.specs.Accepts.{ReadsWithin};
ghost use Rattle.live_engine.specs.Inverses.{AcceptsBack};
ghost use Rattle.live_engine.specs.Defining.{defines, not_put as refused_put};
ghost use Rattle.live_engine.specs.Drafts.{IsDrafted, HasRoomFor};

use crate::drafts::{Change, Draft, carry_out};
use crate::edits::{Accepted, Refusal};
use crate::expanding::expanded;
use crate::inverses::Inverse;
use crate::limits::{Kind, kind_of};
use crate::statement_graphs::with_statement;
use crate::statement_limits::beyond;
use kept_map::KeptMap;
use layer_tiles::Tally;
use map_words::Name;
use statement_graph::GraphRefusal;
use statement_parser::Written;
use std::alloc::Global;
use std::thread::Threads;
use tile_workers::{Crew, Gate};

/// Writes a statement, in its place where the name is there.
pub(crate) fn define<M: Tally + Send, G: Gate + Sync, R: Threads + Sync>(
    map: &mut KeptMap,
    crew: &Crew<'_, R, G>,
    name: Name,
    written: Written,
    tally: &mut M,
) -> Result<(Accepted, Inverse), Refusal>
    requires kept { IsKept map.old }
    requires plain { IsTrue (is_plain name) }
    requires formed { IsWritten (written_view written) }
    requires whole { 1 < crew.now.workers → IsUndivided (M.counts tally.old) }
    ensures accepts { AcceptsBack (seen map.old) (seen map.new) (defines name written) result }
    ensures kept { IsKept map.new }
    ensures reads { ReadsWithin (seen map.old) (defines name written) (M.counts tally.old) (M.counts tally.new) }
{
    map.reserve()?;
    let drafted = drafted(map, crew.alloc, name, written);
    carry_out(map, crew, drafted, tally)
}

/// Why the graph doesn't take a statement of this name, as a refusal of the edit.
fn not_put(name: Name, refusal: GraphRefusal) -> Refusal
    ensures { result ≡ refused_put name refusal }
{
    match refusal {
        GraphRefusal::Cycle => Refusal::Cycle(name),
        GraphRefusal::NoMemory => Refusal::NoMemory,
    }
}

/// A statement with what it stands for, or why it is refused. There is room for its name.
fn drafted(map: &KeptMap, alloc: Global, name: Name, written: Written) -> Result<Draft, Refusal>
    requires kept { IsKept map.now }
    requires plain { IsTrue (is_plain name) }
    requires formed { IsWritten (written_view written) }
    requires room { 0 < spare map.now.names }
    ensures room { IfOk result (λ d. HasRoomFor map.now d.change) }
    ensures drafted { IsDrafted map.now (defines name written) result }
{
    if let Kind::Source = kind_of(map, &name) {
        return Err(Refusal::Exists(name));
    }
    let flats = match expanded(alloc, &map.procedures, &name, &written) {
        Ok(flats) => flats,
        Err(refusal) => return Err(refusal),
    };
    if let Some(which) = beyond(&map.names, &name, flats.as_slice()) {
        return Err(Refusal::Limit(which));
    }
    match with_statement(&map.graph, alloc, &name, flats.as_slice()) {
        Ok(graph) => {
            let change = Change::Statement {
                written,
                flats,
                place: None,
            };
            Ok(Draft {
                name,
                change,
                graph,
                labels: None,
                symbols: None,
            })
        }
        Err(refusal) => Err(not_put(name, refusal)),
    }
}
