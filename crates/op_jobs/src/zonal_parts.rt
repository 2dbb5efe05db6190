//! The book of a Zonal statement that was not there, counted by workers in parts of its tiles.
ghost use Rattle.std.specs.Prelude.{◌≡◌, suc, ◌-◌, ◌*◌, ◌<◌, ◌≤◌, IfOk};
ghost use Rattle.map_nums.specs.Grids.{Cells};
ghost use Rattle.map_nums.specs.Tiles.{tiles_in};
ghost use Rattle.map_defs.specs.Operate.{operand};
ghost use Rattle.layer_tiles.specs.Operands.{cells_after};
ghost use Rattle.layer_tiles.specs.Tallies.{RisesBy};
ghost use Rattle.zonal_totals.specs.Books.{IsBookOf};
ghost use Rattle.op_jobs.specs.Grounds.{IsCounts, AreAllCounts};
ghost use Rattle.op_jobs.specs.Operands.{AreBoth};
ghost use Rattle.op_jobs.specs.Parts.{part_start};
ghost use Rattle.op_jobs.specs.declared.ground.Part.{Part};
ghost use Rattle.op_jobs.specs.declared.ground.Part.TheVariants.{Counts};

use crate::ground::Part;
use crate::kinds::all_of;
use crate::operands::both_of;
use crate::parts::part_start;
use layer_tiles::{Extent, Operands, Tally};
use map_nums::NoMemory;
use std::alloc::Global;
use zonal_totals::{Book, TileCounts};

/// What one of so many parts of the tiles counts. Two looks a tile.
pub(crate) fn count_part<M: Tally>(
    alloc: Global,
    operands: &Operands<'_>,
    extent: Extent,
    count: u64,
    k: u64,
    tally: &mut M,
) -> Result<Part, NoMemory>
    requires both { AreBoth extent operands.now }
    requires few { count ≤ extent.rows }
    requires below { k < count }
    ensures counts { IfOk result (IsCounts extent (operand (cells_after operands.now) 0) (operand (cells_after operands.now) 1) count k) }
    ensures looks { RisesBy (2 * (part_start (tiles_in extent) count (suc k) - part_start (tiles_in extent) count k)) 0 (M.counts tally.old) (M.counts tally.new) }
{
    let _rows = extent.rows();
    let (values, zones) = both_of(operands);
    let tiles = extent.tiles();
    let parts = count as u32;
    let first = part_start(tiles, parts, k);
    let end = part_start(tiles, parts, k + 1);
    let counts = TileCounts::of(alloc, values, zones, first, end, tally)?;
    Ok(Part::Counts(counts))
}

/// The book of all tiles, from what their parts count.
pub(crate) fn counted_book(
    alloc: Global,
    extent: Extent,
    parts: Vec<Part>,
) -> Result<Book, NoMemory>
    requires { (values : Cells) × (zones : Cells) × AreAllCounts extent values zones parts.items }
    ensures size { IfOk result (λ book. book.size ≡ extent) }
    ensures book { IfOk result (λ book. (values zones : Cells) → AreAllCounts extent values zones parts.items → IsBookOf book values zones) }
{
    let all = all_of::<TileCounts>(alloc, parts)?;
    let book = Book::of_counts(alloc, extent, &all)?;
    Ok(book)
}
