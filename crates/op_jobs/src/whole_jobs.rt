//! The one job of a statement that is repaired whole.
ghost use Rattle.std.specs.Prelude.{◌≡◌, ◌*◌, ◌∷◌, [], None};
ghost use Rattle.std.specs.Option.{option_copied};
ghost use Rattle.layer_tiles.specs.Tallies.{RisesBy};
ghost use Rattle.statement_parser.specs.Views.{op_view};
ghost use Rattle.map_waves.specs.Jobs.{was_in, aside_in};
ghost use Rattle.map_waves.specs.Keeping.{kept_now};
ghost use Rattle.map_waves.specs.Statements.{work_by};
ghost use Rattle.map_waves.specs.declared.keeping.Made.{Made};
ghost use Rattle.map_waves.specs.declared.keeping.Aside.TheVariants.{Other};
ghost use Rattle.map_waves.specs.declared.keeping.Renewal.TheVariants.{Anew};
ghost use Rattle.op_jobs.specs.Beside.{layer_in};
ghost use Rattle.op_jobs.specs.Pieces.{IsWholePiece};
ghost use Rattle.op_jobs.specs.Sound.{IsSound, damage_in};
ghost use Rattle.damage_sets.specs.Counted.{count_any};
ghost use Rattle.op_jobs.specs.declared.beside.Beside.{Beside};
ghost use Rattle.op_jobs.specs.declared.own.Own.TheVariants.{Whole};
ghost use Rattle.op_jobs.specs.declared.own.Repair.TheVariants.{Alone, Nearest};
ghost use Rattle.op_jobs.specs.declared.pieces.Piece.TheVariants.{Whole as WholePiece};

use crate::beside::Beside;
use crate::operands::both_of;
use crate::own::{Lone, Own, Repair, WholeJob};
use crate::pieces::Piece;
use crate::whole::repair_whole;
use crate::whole_nearest::{nearest_of, repair_nearest};
use damage_sets::{TileSet, count_any};
use layer_tiles::{Extent, KernelRefusal, Layer, Patch, Tally};
use map_nums::NoMemory;
use map_waves::{Aside, Jobs, Kept, Made, Renewal};
use statement_parser::Op;
use std::alloc::Global;

/// The layer that is kept, where one is.
fn layer_of(kept: Option<&Kept<Beside>>) -> Option<&Layer>
    ensures { option_copied result ≡ layer_in (kept_now kept.entry) }
{
    match kept {
        Some(kept) => Some(&kept.layer),
        None => None,
    }
}

/// What is made of the tiles that changed, where nothing stands beside the layer.
fn made_alone(touched: &TileSet, patch: Patch, worked: u64) -> Made<Beside>
    requires { touched.now.size ≡ patch.size }
    ensures { result ≡ record { patch = patch; beside = Anew (Other Beside.Nothing); evaluated = count_any touched.now patch None; worked = worked } }
{
    let evaluated = count_any(touched, &patch, None);
    Made {
        patch,
        beside: Renewal::Anew(Aside::Other(Beside::Nothing)),
        evaluated,
        worked,
    }
}

/// Repairs all of a layer beside which nothing stands.
fn do_alone<M: Tally>(
    alloc: Global,
    jobs: &Jobs<'_, '_, Op, Beside, Own>,
    job: &WholeJob,
    lone: Lone,
    tally: &mut M,
) -> Result<Piece, KernelRefusal>
    requires sound { IsSound jobs.now }
    requires own { jobs.now.own ≡ Whole job.now }
    requires repair { job.now.repair ≡ Alone lone }
    ensures piece { IsWholePiece jobs.now.size (op_view jobs.now.op) (was_in jobs.now) (aside_in jobs.now) jobs.now.operands result }
    ensures tally { RisesBy (32 * damage_in jobs.now) (1000 * work_by jobs.now.size (op_view jobs.now.op) (was_in jobs.now) jobs.now.operands) (M.counts tally.old) (M.counts tally.new) }
{
    let old = layer_of(jobs.kept);
    let (patch, worked) = repair_whole(alloc, lone, jobs.operands, old, tally)?;
    Ok(Piece::Whole(made_alone(&job.touched, patch, worked)))
}

/// Repairs all of a layer and the least costs beside it.
fn do_nearest<M: Tally>(
    alloc: Global,
    jobs: &Jobs<'_, '_, Op, Beside, Own>,
    job: &WholeJob,
    limit: u64,
    tally: &mut M,
) -> Result<Piece, KernelRefusal>
    requires sound { IsSound jobs.now }
    requires own { jobs.now.own ≡ Whole job.now }
    requires repair { job.now.repair ≡ Nearest limit }
    ensures piece { IsWholePiece jobs.now.size (op_view jobs.now.op) (was_in jobs.now) (aside_in jobs.now) jobs.now.operands result }
    ensures tally { RisesBy (32 * damage_in jobs.now) (1000 * work_by jobs.now.size (op_view jobs.now.op) (was_in jobs.now) jobs.now.operands) (M.counts tally.old) (M.counts tally.new) }
{
    let (sources, friction) = both_of(jobs.operands);
    let old = nearest_of(jobs.kept);
    match repair_nearest(alloc, old, &job.touched, sources, friction, limit, tally) {
        Ok(made) => Ok(Piece::Whole(made)),
        Err(NoMemory) => Err(KernelRefusal::NoMemory),
    }
}

/// Repairs all of a layer, with what stands beside it.
pub(crate) fn do_whole<M: Tally>(
    alloc: Global,
    jobs: &Jobs<'_, '_, Op, Beside, Own>,
    job: &WholeJob,
    tally: &mut M,
) -> Result<Piece, KernelRefusal>
    requires sound { IsSound jobs.now }
    requires own { jobs.now.own ≡ Whole job.now }
    ensures piece { IsWholePiece jobs.now.size (op_view jobs.now.op) (was_in jobs.now) (aside_in jobs.now) jobs.now.operands result }
    ensures tally { RisesBy (32 * damage_in jobs.now) (1000 * work_by jobs.now.size (op_view jobs.now.op) (was_in jobs.now) jobs.now.operands) (M.counts tally.old) (M.counts tally.new) }
{
    match job.repair {
        Repair::Alone(lone) => do_alone(alloc, jobs, job, lone, tally),
        Repair::Nearest(limit) => do_nearest(alloc, jobs, job, limit, tally),
    }
}

/// The repaired layer: the piece of the one job.
pub(crate) fn gather_whole(alloc: Global, extent: Extent, pieces: Vec<Piece>) -> Made<Beside>
    requires { (m : Made Beside) × (pieces.items ≡ WholePiece m ∷ []) }
    ensures { pieces.items ≡ WholePiece result ∷ [] }
{
    let mut rest = pieces.into_iter();
    match rest.next() {
        Some(Piece::Whole(made)) => made,
        _ => Made {
            patch: Patch::new(alloc, extent),
            beside: Renewal::Anew(Aside::Other(Beside::Nothing)),
            evaluated: 0,
            worked: 0,
        },
    }
}
