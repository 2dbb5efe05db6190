//! A tile of a Local operation.
ghost use Rattle.std.specs.Prelude.{◌≡◌, ◌<◌, length, IfOk};
ghost use Rattle.std.specs.List.{All};
ghost use Rattle.map_defs.specs.Local.{local_grid};
ghost use Rattle.layer_tiles.specs.Tiles.{tiles_in};
ghost use Rattle.layer_tiles.specs.Tallies.{RisesBy};
ghost use Rattle.layer_tiles.specs.Answers.{IsTileAnswer};
ghost use Rattle.layer_tiles.specs.Operands.{size_of, cells_after};
ghost use Rattle.local_ops.specs.Operations.{op_of, Takes};
ghost use Rattle.local_ops.specs.Operands.{blocks_of};

use crate::ops::LocalOp;
use crate::tiles::tile_of_views;
use layer_tiles::{KernelRefusal, NoMemory, Operands, Tally, Tile, TileView};
use std::alloc::Global;

/// Tile `tile` of the operation over the operands after the edit.
///
/// # Errors
///
/// `Overflow` at the tile's least cell whose value is out of range, exactly where there is one; `NoMemory`.
pub fn local_tile<M: Tally>(
    alloc: Global,
    op: &LocalOp,
    operands: &Operands<'_>,
    tile: u32,
    tally: &mut M,
) -> Result<Tile, KernelRefusal>
    requires takes { Takes (op_of op.now) (length operands.now) }
    requires one_size { All (λ c. c.size ≡ size_of operands.now) operands.now }
    requires within { tile < tiles_in (size_of operands.now) }
    ensures answer { IsTileAnswer (size_of operands.now) (local_grid (size_of operands.now) (op_of op.now) (cells_after operands.now)).cells tile result }
    ensures tally { RisesBy (length operands.now) 0 (M.counts tally.old) (M.counts tally.new) }
{
    let first = operands.at(0);
    let extent = first.extent();
    match lend(alloc, operands, tile, tally) {
        Ok(views) => tile_of_views(alloc, op, &views, extent, tile),
        Err(NoMemory) => Err(KernelRefusal::NoMemory),
    }
}

/// The tile of each operand.
fn lend<'a, M: Tally>(
    alloc: Global,
    operands: &'a Operands<'_>,
    tile: u32,
    tally: &mut M,
) -> Result<Vec<TileView<'a>>, NoMemory>
    requires one_size { All (λ c. c.size ≡ size_of operands.now) operands.now }
    requires within { tile < tiles_in (size_of operands.now) }
    ensures views { IfOk result (λ views. views.items ≡ blocks_of (size_of operands.now) tile operands.now) }
    ensures tally { RisesBy (length operands.now) 0 (M.counts tally.old) (M.counts tally.new) }
{
    let mut views = Vec::new(alloc);
    for k in 0..operands.len() {
        let change = operands.at(k);
        views.push(change.view(tile, tally))?;
    }
    Ok(views)
}
