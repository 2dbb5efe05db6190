//! What the cells of a map that had no flow bring.
ghost use Rattle.std.specs.Prelude.{◌≡◌, ◌<◌, length, IfOk};
ghost use Rattle.drainage_flow.specs.FlowNets.{IsSmall, brought};
ghost use Rattle.drainage_flow.specs.First.{AreBrought};

use crate::courses::number;
use layer_tiles::Cell;
use map_nums::NoMemory;
use std::alloc::Global;

/// What a cell brings.
fn brought(height: Cell, weight: Cell) -> i128
    ensures brought { result ≡ brought height weight }
    ensures small { IsSmall result }
{
    match height.get() {
        Some(_) => number(weight) as i128,
        None => 0,
    }
}

/// What each cell brings.
pub(crate) fn brought_by(
    alloc: Global,
    surface: &[Cell],
    weights: &[Cell],
) -> Result<Vec<i128>, NoMemory>
    requires { length weights.now ≡ length surface.now }
    ensures { IfOk result (λ amounts. AreBrought surface.now weights.now (length surface.now) amounts.items) }
{
    let mut amounts = Vec::with_capacity(alloc, surface.len())?;
    for at in 0..surface.len() {
        amounts.push(brought(surface[at], weights[at]))?;
    }
    Ok(amounts)
}
