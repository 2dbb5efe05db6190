//! Names that are dropped.

ghost use Rattle.std.specs.Prelude.{◌<◌, false, IfOk, IsTrue};
ghost use Rattle.layer_tiles.specs.Tallies.{IsUndivided};
ghost use Rattle.map_words.specs.Names.{is_plain};
ghost use Rattle.kept_map.specs.Maps.{seen};
ghost use Rattle.kept_map.specs.Keeps.{IsKept};
ghost use Rattle.live_engine.specs.Accepts.{ReadsWithin};
ghost use Rattle.live_engine.specs.Inverses.{AcceptsBack};
ghost use Rattle.live_engine.specs.Dropping.{drops};
ghost use Rattle.live_engine.specs.Drafts.{IsDrafted, HasRoomFor};

use crate::drafts::{Change, Draft, carry_out};
use crate::edits::{Accepted, Refusal};
use crate::graphs::without;
use crate::inverses::Inverse;
use crate::limits::has;
use kept_map::KeptMap;
use layer_tiles::Tally;
use map_words::Name;
use std::alloc::Global;
use std::thread::Threads;
use tile_workers::{Crew, Gate};

/// Takes a source or a statement out. What lacks it becomes undefined, and none gets a fault.
pub(crate) fn drop_name<M: Tally + Send, G: Gate + Sync, R: Threads + Sync>(
    map: &mut KeptMap,
    crew: &Crew<'_, R, G>,
    name: Name,
    tally: &mut M,
) -> Result<(Accepted, Inverse), Refusal>
    requires kept { IsKept map.old }
    requires plain { IsTrue (is_plain name) }
    requires whole { 1 < crew.now.workers → IsUndivided (M.counts tally.old) }
    ensures accepts { AcceptsBack (seen map.old) (seen map.new) (drops name) result }
    ensures kept { IsKept map.new }
    ensures reads { ReadsWithin (seen map.old) (drops name) (M.counts tally.old) (M.counts tally.new) }
{
    let drafted = drafted(map, crew.alloc, name);
    carry_out(map, crew, drafted, tally)
}

/// The name out, with its labels and symbols, or that it isn't there.
fn drafted(map: &KeptMap, alloc: Global, name: Name) -> Result<Draft, Refusal>
    requires kept { IsKept map.now }
    requires plain { IsTrue (is_plain name) }
    ensures room { IfOk result (λ d. HasRoomFor map.now d.change) }
    ensures drafted { IsDrafted map.now (drops name) result }
{
    if !has(map, &name) {
        return Err(Refusal::Unknown(name));
    }
    let graph = without(&map.graph, alloc, &name)?;
    let labels = map.labels.without(alloc, &name)?;
    let symbols = map.symbols.without(alloc, &name)?;
    let change = Change::Out;
    Ok(Draft {
        name,
        change,
        graph,
        labels,
        symbols,
    })
}
