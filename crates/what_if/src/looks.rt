//! Looks at one cell of a map.

ghost use Rattle.std.specs.Prelude.{◌≡◌, Some, IfOk};
ghost use Rattle.layer_tiles.specs.Tallies.{RisesBy};
ghost use Rattle.map_machine.specs.LayerAnswers as answers;
ghost use Rattle.map_machine.specs.LayerAnswers.{look_in};
ghost use Rattle.map_machine.specs.RequestReads.{look_reads};
ghost use Rattle.kept_map.specs.Maps.{grid_of};
ghost use Rattle.what_if.specs.Tried.{look_view};

use layer_tiles::{Cell, Extent, Layer, Tally};
use live_engine::Engine;
use map_nums::NoMemory;
use map_words::Name;
use std::alloc::Global;

/// What a look at a row and a column tells.
#[derive(Drop)]
pub enum Seen {
    Cell(Cell),
    /// The layer is defined, and has no such row or column.
    Outside,
    /// The layer is undefined, for want of this name: the first that is missing, its own where it isn't there.
    Undefined(Name),
}

/// Looks at the cell in a row and a column of a name, which count from 1. At most one look and one
/// pick, none where the layer is undefined.
///
/// # Errors
///
/// `NoMemory` where there is none for the missing name.
pub fn look<M: Tally>(
    engine: &Engine,
    alloc: Global,
    name: &Name,
    r: u32,
    c: u32,
    tally: &mut M,
) -> Result<Seen, NoMemory>
    ensures seen { IfOk result (λ seen. look_view seen ≡ answers.look engine.now.names name.now r c) }
    ensures reads { RisesBy (look_reads engine.now.names name.now).looks (look_reads engine.now.names name.now).picks (M.counts tally.old) (M.counts tally.new) }
{
    match engine.layer(name) {
        Err(missing) => Ok(Seen::Undefined(missing.or(name).copy(alloc)?)),
        Ok(layer) => Ok(cell_of(layer, r, c, tally)),
    }
}

/// The cell in a row and a column. One pick, none off the map.
fn cell_of<M: Tally>(layer: &Layer, r: u32, c: u32, tally: &mut M) -> Seen
    ensures seen { (lacking : _) → look_view result ≡ look_in (Some (grid_of layer.now)) lacking r c }
    ensures pick { RisesBy 0 1 (M.counts tally.old) (M.counts tally.new) }
{
    let extent = layer.extent();
    if !is_on(extent, r, c) {
        return Seen::Outside;
    }
    let at = (r - 1) * extent.columns() + (c - 1);
    Seen::Cell(layer.cell(at, tally))
}

fn is_on(extent: Extent, r: u32, c: u32) -> bool
    ensures { result ≡ answers.is_on extent r c }
{
    1 <= r && r <= extent.rows() && 1 <= c && c <= extent.columns()
}
