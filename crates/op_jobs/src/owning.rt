//! What the jobs of a statement share, by the class of its operation.
ghost use Rattle.std.specs.Prelude.{◌≡◌, ◌*◌, List, length, None, option_map, IfOk, IfSome, IfNone, IsTrue};
ghost use Rattle.std.specs.Option.{option_copied};
ghost use Rattle.map_defs.specs.Ops.{Op as Operation, Term, zonal_op, sight_op};
ghost use Rattle.map_defs.specs.Damage.{has_work};
ghost use Rattle.map_defs.specs.Operate.{operand};
ghost use Rattle.layer_tiles.specs.Changes.{ChangeState};
ghost use Rattle.layer_tiles.specs.Operands.{cells_after};
ghost use Rattle.layer_tiles.specs.Tallies.{RisesBy};
ghost use Rattle.sight_lines.specs.Puts.{sighting_of};
ghost use Rattle.statement_parser.specs.Views.{op_view};
ghost use Rattle.map_waves.specs.Found.{AreFound};
ghost use Rattle.map_waves.specs.Keeping.{kept_now, was_of};
ghost use Rattle.map_waves.specs.Statements.{damage_by};
ghost use Rattle.op_jobs.specs.Beside.{book_in, kept_viewers};
ghost use Rattle.op_jobs.specs.Grounds.{AreAllCounts, AreGrounded, AreZones, IsGroundOf, IsGrounded, IsPart};
ghost use Rattle.op_jobs.specs.Operands.{IsEdited};
ghost use Rattle.op_jobs.specs.Owning.{IsOwn, IsOwnAnswer};
ghost use Rattle.op_jobs.specs.Ranges.{HasRanges};
ghost use Rattle.op_jobs.specs.Repairs.{IsPlain, IsRepairOf};

use crate::beside::Beside;
use crate::classes::{Class, class_of};
use crate::damage::{all_tiles, felt_tiles, reached_tiles};
use crate::fresh::make_fresh;
use crate::ground::{Ground, Part};
use crate::kernels::Kernel;
use crate::own::{Own, Repair, TileJobs, WholeJob};
use crate::sight::sight_begin;
use crate::zonal::zonal_begin;
use layer_tiles::{Extent, Operands, Tally};
use map_nums::{NoMemory, Stat};
use map_waves::{Aside, Kept, NoJobs};
use sight_lines::{Sight, Viewers};
use statement_parser::Op;
use std::alloc::Global;
use zonal_totals::Book;

/// The book that is kept, where there is one.
fn book_of(kept: Option<&Kept<Beside>>) -> Option<&Book>
    ensures { option_copied result ≡ book_in (kept_now kept.entry) }
{
    let Some(kept) = kept else {
        return None;
    };
    match &kept.beside {
        Aside::Other(Beside::Book(book)) => Some(book),
        _ => None,
    }
}

/// The viewers that are kept, where there are any.
fn viewers_of(kept: Option<&Kept<Beside>>) -> Option<&Viewers>
    ensures { option_copied result ≡ kept_viewers (kept_now kept.entry) }
{
    let Some(kept) = kept else {
        return None;
    };
    match &kept.beside {
        Aside::Other(Beside::Viewers(viewers)) => Some(viewers),
        _ => None,
    }
}

/// The parts that were found.
fn parts_found(found: Option<(Ground, Vec<Part>)>) -> Option<Vec<Part>>
    ensures { result ≡ option_map (λ q. q.1) found }
{
    match found {
        Some((_, parts)) => Some(parts),
        None => None,
    }
}

/// What the jobs of an operation share whose tiles come from its operands alone.
fn plain_own<M: Tally>(
    alloc: Global,
    kernel: Kernel,
    operands: &Operands<'_>,
    kept: Option<&Kept<Beside>>,
    extent: Extent,
    tally: &mut M,
) -> Result<Own, NoJobs>
    requires edited { (op : Operation) × IsPlain op kernel × IsEdited extent op operands.now (kept_now kept) }
    ensures answer { (op : Operation) → IsPlain op kernel → IsEdited extent op operands.entry.now (kept_now kept.entry) → IsOwnAnswer extent op operands.entry.now (was_of (kept_now kept.entry)) result }
    ensures looks { (op : Operation) → IsPlain op kernel → IsEdited extent op operands.entry.now (kept_now kept.entry) → RisesBy (26 * length (damage_by extent op (was_of (kept_now kept.entry)) operands.entry.now)) 0 (M.counts tally.old) (M.counts tally.new) }
{
    match felt_tiles(alloc, kernel.felt_within(), operands, kept, extent, tally) {
        Ok(tiles) => Ok(Own::Tiles(TileJobs { tiles, kernel })),
        Err(NoMemory) => Err(NoJobs::NoMemory),
    }
}

/// What the jobs of a Zonal operation share.
fn zonal_own<M: Tally>(
    alloc: Global,
    stat: Stat,
    operands: &Operands<'_>,
    kept: Option<&Kept<Beside>>,
    extent: Extent,
    found: Option<Vec<Part>>,
    tally: &mut M,
) -> Result<Own, NoJobs>
    requires edited { (t : Term) × (u : Term) × IsEdited extent (zonal_op stat t u) operands.now (kept_now kept) }
    requires found { IfSome found (λ parts. AreAllCounts extent (operand (cells_after operands.now) 0) (operand (cells_after operands.now) 1) parts.items) }
    ensures answer { (t u : Term) → IsOwnAnswer extent (zonal_op stat t u) operands.entry.now (was_of (kept_now kept.entry)) result }
    ensures looks { (t u : Term) → RisesBy (26 * length (damage_by extent (zonal_op stat t u) (was_of (kept_now kept.entry)) operands.entry.now)) 0 (M.counts tally.old) (M.counts tally.new) }
{
    match zonal_begin(alloc, stat, operands, book_of(kept), extent, found, tally) {
        Ok((book, tiles)) => Ok(Own::Tiles(TileJobs {
            tiles,
            kernel: Kernel::Zonal(stat, book),
        })),
        Err(NoMemory) => Err(NoJobs::NoMemory),
    }
}

/// What the jobs of a sight operation share.
fn sight_own<M: Tally>(
    alloc: Global,
    sight: Sight,
    operands: &Operands<'_>,
    kept: Option<&Kept<Beside>>,
    extent: Extent,
    tally: &mut M,
) -> Result<Own, NoJobs>
    requires edited { (t : Term) × (u : Term) × IsEdited extent (sight_op (sighting_of sight) t u) operands.now (kept_now kept) }
    ensures answer { (t u : Term) → IsOwnAnswer extent (sight_op (sighting_of sight) t u) operands.entry.now (was_of (kept_now kept.entry)) result }
    ensures looks { (t u : Term) → RisesBy (26 * length (damage_by extent (sight_op (sighting_of sight) t u) (was_of (kept_now kept.entry)) operands.entry.now)) 0 (M.counts tally.old) (M.counts tally.new) }
{
    let (viewers, tiles) = sight_begin(
        alloc,
        sight.reach,
        operands,
        viewers_of(kept),
        extent,
        tally,
    )?;
    Ok(Own::Tiles(TileJobs {
        tiles,
        kernel: Kernel::Sight(sight, viewers),
    }))
}

/// A job for each tile of a layer that was not there, where it was made of parts that were found.
fn fresh_own(
    alloc: Global,
    extent: Extent,
    found: Option<(Ground, Vec<Part>)>,
) -> Result<Option<Own>, NoMemory>
    requires found { IfSome found (λ q. (operands : List ChangeState) × AreGrounded extent operands q.0 q.1.items) }
    ensures made { (op : Operation) (operands : List ChangeState) → IsTrue (has_work op) → HasRanges op → IfSome found (λ q. IsGroundOf op q.0 × AreGrounded extent operands q.0 q.1.items) → IfOk result (λ made. IfSome made (IsOwn extent op operands None)) }
    ensures none { IfOk result (λ made. IfNone made (IfSome found (λ q. AreZones q.0))) }
{
    let Some((ground, parts)) = found else {
        return Ok(None);
    };
    let Some(fresh) = make_fresh(alloc, extent, ground, parts)? else {
        return Ok(None);
    };
    let tiles = all_tiles(alloc, extent)?;
    Ok(Some(Own::Tiles(TileJobs {
        tiles,
        kernel: Kernel::Fresh(fresh),
    })))
}

/// What the jobs of an operation share that takes work: a job for each tile where there was no layer and its parts were found, else one.
fn whole_own<M: Tally>(
    alloc: Global,
    repair: Repair,
    operands: &Operands<'_>,
    kept: Option<&Kept<Beside>>,
    extent: Extent,
    found: Option<(Ground, Vec<Part>)>,
    tally: &mut M,
) -> Result<Own, NoJobs>
    requires edited { (op : Operation) × IsRepairOf op repair × IsEdited extent op operands.now (kept_now kept) }
    requires found { IfSome found (λ q. AreGrounded extent operands.now q.0 q.1.items) }
    ensures answer { (op : Operation) → IsRepairOf op repair → IsEdited extent op operands.entry.now (kept_now kept.entry) → IfSome found (λ q. IsGroundOf op q.0) → IsOwnAnswer extent op operands.entry.now (was_of (kept_now kept.entry)) result }
    ensures looks { (op : Operation) → IsRepairOf op repair → IsEdited extent op operands.entry.now (kept_now kept.entry) → RisesBy (26 * length (damage_by extent op (was_of (kept_now kept.entry)) operands.entry.now)) 0 (M.counts tally.old) (M.counts tally.new) }
{
    if kept.is_none() {
        match fresh_own(alloc, extent, found) {
            Ok(Some(own)) => return Ok(own),
            Ok(None) => {}
            Err(NoMemory) => return Err(NoJobs::NoMemory),
        }
    }
    match reached_tiles(alloc, 0, operands, kept, extent, tally) {
        Ok(touched) => Ok(Own::Whole(WholeJob { repair, touched })),
        Err(NoMemory) => Err(NoJobs::NoMemory),
    }
}

/// What the jobs of a statement share.
pub(crate) fn own_of<M: Tally>(
    alloc: Global,
    op: &Op,
    operands: &Operands<'_>,
    kept: Option<&Kept<Beside>>,
    extent: Extent,
    found: Option<(Ground, Vec<Part>)>,
    tally: &mut M,
) -> Result<Own, NoJobs>
    requires edited { IsEdited extent (op_view op.now) operands.now (kept_now kept) }
    requires found { IfSome found (λ q. AreFound IsGrounded IsPart extent (op_view op.now) operands.now q.0 q.1.items) }
    ensures answer { IsOwnAnswer extent (op_view op.entry.now) operands.entry.now (was_of (kept_now kept.entry)) result }
    ensures looks { RisesBy (26 * length (damage_by extent (op_view op.entry.now) (was_of (kept_now kept.entry)) operands.entry.now)) 0 (M.counts tally.old) (M.counts tally.new) }
{
    let Ok(class) = class_of(alloc, op) else {
        return Err(NoJobs::NoMemory);
    };
    match class {
        Class::Plain(kernel) => plain_own(alloc, kernel, operands, kept, extent, tally),
        Class::Zonal(stat) => {
            let parts = parts_found(found);
            zonal_own(alloc, stat, operands, kept, extent, parts, tally)
        }
        Class::Sight(sight) => sight_own(alloc, sight, operands, kept, extent, tally),
        Class::Whole(repair) => whole_own(alloc, repair, operands, kept, extent, found, tally),
    }
}
