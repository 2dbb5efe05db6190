//! Sight statements: their damage, the viewers that are kept beside their layer, and their tiles.
ghost use Rattle.std.specs.Prelude.{◌≡◌, ◌*◌, ◌<◌, ◌≤◌, ℕ, true, length, is_some, Option, IfOk, IfErr, IfSome, IsSome};
ghost use Rattle.std.specs.List.{All};
ghost use Rattle.map_nums.specs.Grids.{Cells};
ghost use Rattle.map_nums.specs.Tiles.{tiles_in};
ghost use Rattle.map_defs.specs.Ops.{Term, sight_op};
ghost use Rattle.map_defs.specs.Operate.{operand};
ghost use Rattle.map_defs.specs.Sight.{Sighting, viewer_count, most_viewers};
ghost use Rattle.layer_tiles.specs.Answers.{IsTileAnswer};
ghost use Rattle.layer_tiles.specs.Operands.{cells_after};
ghost use Rattle.layer_tiles.specs.Tallies.{RisesBy};
ghost use Rattle.sight_lines.specs.Heights.{AreHeights};
ghost use Rattle.sight_lines.specs.Puts.{sighting_of};
ghost use Rattle.sight_lines.specs.Viewed.{viewers_of};
ghost use Rattle.map_waves.specs.Answers.{LacksJobs};
ghost use Rattle.map_waves.specs.Statements.{damage_by, made};
ghost use Rattle.op_jobs.specs.Operands.{AreBoth};
ghost use Rattle.op_jobs.specs.Sight.{AreRightViewers, felt_tiles};

use crate::damage::{all_tiles, tiles_of};
use crate::operands::both_of;
use damage_sets::{Class, damaged};
use layer_tiles::{Extent, KernelRefusal, Operands, Tally, Tile};
use map_nums::NoMemory;
use map_waves::NoJobs;
use sight_lines::{Sight, SightRefusal, Viewers, sight_tile};
use std::alloc::Global;

/// The viewers after an edit and the tiles of the damage, in ascending order: from the viewers that are kept of the statement,
/// or all tiles where none are. At most five looks for each tile of the damage.
///
/// # Errors
///
/// `Viewers` with their count where there are more than 64, exactly there; `NoMemory`.
pub(crate) fn sight_begin<M: Tally>(
    alloc: Global,
    reach: u32,
    operands: &Operands<'_>,
    kept: Option<&Viewers>,
    extent: Extent,
    tally: &mut M,
) -> Result<(Viewers, Vec<u32>), NoJobs>
    requires both { AreBoth extent operands.now }
    requires reach { reach ≤ 64 }
    requires right { IfSome kept (λ viewers. AreRightViewers extent operands.now viewers.now) }
    ensures viewers { IfOk result (λ r. r.0 ≡ viewers_of extent (operand (cells_after operands.now) 0)) }
    ensures few { IfOk result (λ r. viewer_count (operand (cells_after operands.now) 0) ≤ most_viewers) }
    ensures damage { IfOk result (λ r. (sight : Sighting) (t u : Term) (was : Option Cells) → sight.reach ≡ reach → is_some was ≡ is_some kept.entry → r.1.items ≡ damage_by extent (sight_op sight t u) was operands.now) }
    ensures halt { (sight : Sighting) (t u : Term) → IfErr result (LacksJobs extent (sight_op sight t u) (cells_after operands.now)) }
    ensures looks { (sight : Sighting) (t u : Term) (was : Option Cells) → sight.reach ≡ reach → is_some was ≡ is_some kept.entry → RisesBy (5 * length (damage_by extent (sight_op sight t u) was operands.now)) 0 (M.counts tally.old) (M.counts tally.new) }
{
    let viewers = viewers_after(alloc, operands, kept, extent, tally)?;
    match felt(alloc, reach, operands, kept.is_some(), extent, tally) {
        Ok(tiles) => Ok((viewers, tiles)),
        Err(NoMemory) => Err(NoJobs::NoMemory),
    }
}

/// The viewers after an edit: from those that are kept, or from all tiles where none are.
///
/// # Errors
///
/// `Viewers` with their count where there are more than 64, exactly there; `NoMemory`.
fn viewers_after<M: Tally>(
    alloc: Global,
    operands: &Operands<'_>,
    kept: Option<&Viewers>,
    extent: Extent,
    tally: &mut M,
) -> Result<Viewers, NoJobs>
    requires both { AreBoth extent operands.now }
    requires right { IfSome kept (λ viewers. AreRightViewers extent operands.now viewers.now) }
    ensures viewers { IfOk result (λ viewers. viewers ≡ viewers_of extent (operand (cells_after operands.now) 0)) }
    ensures few { IfOk result (λ viewers. viewer_count (operand (cells_after operands.now) 0) ≤ most_viewers) }
    ensures halt { (sight : Sighting) (t u : Term) → IfErr result (LacksJobs extent (sight_op sight t u) (cells_after operands.now)) }
    ensures looks { (r : ℕ) → RisesBy (length (felt_tiles (is_some kept.entry) r extent operands.now)) 0 (M.counts tally.old) (M.counts tally.new) }
{
    let (viewers, _) = both_of(operands);
    match Viewers::of(alloc, kept, viewers, tally) {
        Ok(found) => Ok(found),
        Err(SightRefusal::Viewers(count)) => Err(NoJobs::Viewers(count as u64)),
        Err(SightRefusal::NoMemory) => Err(NoJobs::NoMemory),
    }
}

/// The tiles within whose reach an operand's cell changed, in ascending order, or all tiles.
fn felt<M: Tally>(
    alloc: Global,
    reach: u32,
    operands: &Operands<'_>,
    there: bool,
    extent: Extent,
    tally: &mut M,
) -> Result<Vec<u32>, NoMemory>
    requires both { AreBoth extent operands.now }
    requires reach { reach ≤ 64 }
    requires before { there ≡ true → All (λ c. IsSome c.before) operands.now }
    ensures tiles { IfOk result (λ tiles. tiles.items ≡ felt_tiles there reach extent operands.now) }
    ensures looks { RisesBy (4 * length (felt_tiles there reach extent operands.now)) 0 (M.counts tally.old) (M.counts tally.new) }
{
    if !there {
        return all_tiles(alloc, extent);
    }
    let set = damaged(alloc, Class::Square(reach), operands, tally)?;
    tiles_of(alloc, &set)
}

/// Tile `tile` of the sums of the viewers that see a cell, from the viewers after the edit. At most 25 looks.
///
/// # Errors
///
/// `Overflow` at the tile's least cell whose sum is out of range, exactly where there is one; `NoMemory`.
pub(crate) fn sight_piece<M: Tally>(
    alloc: Global,
    sight: Sight,
    viewers: &Viewers,
    operands: &Operands<'_>,
    extent: Extent,
    tile: u32,
    tally: &mut M,
) -> Result<Tile, KernelRefusal>
    requires both { AreBoth extent operands.now }
    requires reach { sight.reach ≤ 64 }
    requires heights { AreHeights sight.from sight.to }
    requires within { tile < tiles_in extent }
    requires viewers { viewers.now ≡ viewers_of extent (operand (cells_after operands.now) 0) }
    ensures answer { (t u : Term) → IsTileAnswer extent (made extent (sight_op (sighting_of sight) t u) (cells_after operands.now)) tile result }
    ensures tally { RisesBy 25 0 (M.counts tally.old) (M.counts tally.new) }
{
    let (_, surface) = both_of(operands);
    sight_tile(alloc, viewers, surface, sight, tile, tally)
}
