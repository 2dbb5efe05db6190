//! Statements that are repaired tile by tile: a job for each tile of the damage.
ghost use Rattle.std.specs.Prelude.{◌≡◌, ◌^◌, ◌<◌, ◌++◌, length, slice_index, IfOk, IfSome, OnOk};
ghost use Rattle.std.specs.List.{All};
ghost use Rattle.std.specs.List.Sorted.{IsStrictlyIncreasing};
ghost use Rattle.layer_tiles.specs.Patches.{IsAboveLast};
ghost use Rattle.layer_tiles.specs.Tallies.{RisesBy};
ghost use Rattle.layer_tiles.specs.Tiles.{tiles_in};
ghost use Rattle.map_waves.specs.Jobs.{was_in};
ghost use Rattle.map_waves.specs.Keeping.{kept_now};
ghost use Rattle.op_jobs.specs.Others.{IsOther};
ghost use Rattle.op_jobs.specs.Pieces.{IsTilePiece, FitsTile, FitTiles, tiles_at, tiles_of};
ghost use Rattle.op_jobs.specs.Sound.{IsSound, IsMadeOf, now_in};
ghost use Rattle.op_jobs.specs.declared.own.Own.TheVariants.{Tiles};

use crate::beside::Beside;
use crate::kernels::make_tile;
use crate::own::{Own, TileJobs};
use crate::pieces::Piece;
use layer_tiles::{Extent, KernelRefusal, Patch, Tally, Tile};
use map_nums::NoMemory;
use map_waves::{Jobs, Kept, Made, Renewal};
use statement_parser::Op;
use std::alloc::Global;

/// The tile; none where the kept one has its cells, at which it looks.
fn unless_same<M: Tally>(
    made: Tile,
    kept: Option<&Kept<Beside>>,
    tile: u32,
    tally: &mut M,
) -> Option<Tile>
    requires { IfSome (kept_now kept) (λ k. tile < tiles_in k.layer.size) }
    ensures other { IsOther (kept_now kept.entry) tile made result }
    ensures looks { RisesBy 1 0 (M.counts tally.old) (M.counts tally.new) }
{
    let Some(kept) = kept else {
        return Some(made);
    };
    if kept.layer.view(tile, tally).same(&made.view()) {
        return None;
    }
    Some(made)
}

/// Makes the tile of a job, at most 25 looks, and looks at the kept one.
pub(crate) fn do_tile<M: Tally>(
    alloc: Global,
    jobs: &Jobs<'_, '_, Op, Beside, Own>,
    own: &TileJobs,
    job: u64,
    tally: &mut M,
) -> Result<Piece, KernelRefusal>
    requires sound { IsSound jobs.now }
    requires own { jobs.now.own ≡ Tiles own.now }
    requires below { job < length own.now.tiles.items }
    ensures piece { IsTilePiece jobs.now.size (was_in jobs.now) (now_in jobs.now) (slice_index own.now.tiles.items job) result }
    ensures tally { RisesBy 26 0 (M.counts tally.old) (M.counts tally.new) }
{
    let tile = own.tiles[job as usize];
    let made = make_tile(alloc, &own.kernel, jobs.operands, jobs.extent, tile, tally)?;
    Ok(Piece::Tile(unless_same(made, jobs.kept, tile, tally)))
}

/// Adds what a job made to the tiles that changed.
fn push_piece(patch: &mut Patch, tile: u32, piece: Piece) -> Result<(), NoMemory>
    requires ascending { IsAboveLast patch.old.tiles tile }
    requires within { tile < tiles_in patch.old.size }
    requires fits { FitsTile patch.old.size tile piece }
    ensures { OnOk result (patch.new ≡ record patch.old { tiles = patch.old.tiles ++ tiles_at tile piece }) }
{
    match piece {
        Piece::Tile(Some(made)) => patch.push(tile, made),
        _ => Ok(()),
    }
}

/// The tiles that changed, of the pieces in the order of their jobs.
fn changed_patch(
    alloc: Global,
    extent: Extent,
    tiles: &[u32],
    pieces: Vec<Piece>,
) -> Result<Patch, NoMemory>
    requires count { length pieces.items ≡ length tiles.now }
    requires ascending { IsStrictlyIncreasing tiles.now }
    requires within { All (λ t. t < tiles_in extent) tiles.now }
    requires fit { FitTiles extent tiles.now pieces.items }
    ensures size { IfOk result (λ patch. patch.size ≡ extent) }
    ensures tiles { IfOk result (λ patch. patch.tiles ≡ tiles_of tiles.now pieces.items) }
{
    let mut patch = Patch::new(alloc, extent);
    let mut k = 0;
    for piece in pieces {
        push_piece(&mut patch, tiles[k], piece)?;
        k += 1;
    }
    Ok(patch)
}

/// The repaired layer, of the pieces in the order of their jobs.
pub(crate) fn gather_tiles(
    alloc: Global,
    extent: Extent,
    own: TileJobs,
    pieces: Vec<Piece>,
) -> Result<Made<Beside>, NoMemory>
    requires few { length own.tiles.items < 2 ^ 32 }
    requires count { length pieces.items ≡ length own.tiles.items }
    requires ascending { IsStrictlyIncreasing own.tiles.items }
    requires within { All (λ t. t < tiles_in extent) own.tiles.items }
    requires fit { FitTiles extent own.tiles.items pieces.items }
    ensures { IfOk result (IsMadeOf extent own pieces.items) }
{
    let patch = changed_patch(alloc, extent, &own.tiles, pieces)?;
    let evaluated = own.tiles.len() as u32;
    let (beside, worked) = own.kernel.left();
    Ok(Made {
        patch,
        beside: Renewal::Anew(beside),
        evaluated,
        worked,
    })
}
