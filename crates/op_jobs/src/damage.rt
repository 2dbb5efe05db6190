//! The tiles that changed operand cells reach.
ghost use Rattle.std.specs.Prelude.{◌≡◌, ◌<◌, ◌≤◌, length, filter, IfOk, IfSome, IsSome};
ghost use Rattle.std.specs.List.{All};
ghost use Rattle.map_nums.specs.Tiles.{tiles};
ghost use Rattle.layer_tiles.specs.Tallies.{RisesBy};
ghost use Rattle.damage_sets.specs.Sets.{has_tile};
ghost use Rattle.map_waves.specs.Keeping.{kept_now, was_of};
ghost use Rattle.map_waves.specs.Operands.{IsOperand};
ghost use Rattle.op_jobs.specs.Owning.{reached, reached_looks};

use crate::beside::Beside;
use damage_sets::{Class, TileSet, damaged};
use layer_tiles::{Extent, Operands, Tally};
use map_nums::NoMemory;
use map_waves::Kept;
use std::alloc::Global;

/// The tiles whose square, grown by a reach, has a changed operand cell; all tiles where no layer is kept. Two looks at each tile
/// that an operand's patch holds.
pub(crate) fn reached_tiles<M: Tally>(
    alloc: Global,
    reach: u32,
    operands: &Operands<'_>,
    kept: Option<&Kept<Beside>>,
    extent: Extent,
    tally: &mut M,
) -> Result<TileSet, NoMemory>
    requires some { 0 < length operands.now }
    requires operands_are { All (IsOperand extent) operands.now }
    requires there { IfSome (kept_now kept) (λ _. All (λ c. IsSome c.before) operands.now) }
    requires reach { reach ≤ 64 }
    ensures set { IfOk result (λ set. set ≡ reached reach extent (was_of (kept_now kept.entry)) operands.entry.now) }
    ensures looks { RisesBy (reached_looks (was_of (kept_now kept.entry)) operands.entry.now) 0 (M.counts tally.old) (M.counts tally.new) }
{
    match kept {
        None => TileSet::all(alloc, extent),
        Some(_) => damaged(alloc, Class::Square(reach), operands, tally),
    }
}

/// The tiles of a set, in ascending order.
pub(crate) fn tiles_of(alloc: Global, set: &TileSet) -> Result<Vec<u32>, NoMemory>
    ensures { IfOk result (λ list. list.items ≡ filter (has_tile set.now) (tiles set.now.size)) }
{
    let extent = set.extent();
    let mut list = Vec::new(alloc);
    for tile in 0..extent.tiles() {
        if set.has(tile) {
            list.push(tile)?;
        }
    }
    Ok(list)
}

/// The tiles whose square, grown by a reach, has a changed operand cell, or all of them, in ascending order. Two looks at each tile that
/// an operand's patch holds.
pub(crate) fn felt_tiles<M: Tally>(
    alloc: Global,
    reach: u32,
    operands: &Operands<'_>,
    kept: Option<&Kept<Beside>>,
    extent: Extent,
    tally: &mut M,
) -> Result<Vec<u32>, NoMemory>
    requires some { 0 < length operands.now }
    requires operands_are { All (IsOperand extent) operands.now }
    requires there { IfSome (kept_now kept) (λ _. All (λ c. IsSome c.before) operands.now) }
    requires reach { reach ≤ 64 }
    ensures list { let set = reached reach extent (was_of (kept_now kept.entry)) operands.entry.now in IfOk result (λ list. list.items ≡ filter (has_tile set) (tiles set.size)) }
    ensures looks { RisesBy (reached_looks (was_of (kept_now kept.entry)) operands.entry.now) 0 (M.counts tally.old) (M.counts tally.new) }
{
    let set = reached_tiles(alloc, reach, operands, kept, extent, tally)?;
    tiles_of(alloc, &set)
}

/// All tiles, in ascending order.
pub(crate) fn all_tiles(alloc: Global, extent: Extent) -> Result<Vec<u32>, NoMemory>
    ensures { IfOk result (λ list. list.items ≡ tiles extent) }
{
    let mut list = Vec::with_capacity(alloc, extent.tiles() as usize)?;
    for tile in 0..extent.tiles() {
        list.push(tile)?;
    }
    Ok(list)
}
