//! Zonal statements: their damage, and the book that is kept beside their layer.
ghost use Rattle.std.specs.Prelude.{◌≡◌, ◌≢◌, ◌*◌, ◌<◌, length, is_some, Option, IfOk, IfSome};
ghost use Rattle.map_nums.specs.Grids.{Cells};
ghost use Rattle.map_defs.specs.Ops.{Term, zonal_op};
ghost use Rattle.map_defs.specs.Operate.{operand};
ghost use Rattle.map_nums.specs.Tiles.{tiles, tiles_in};
ghost use Rattle.layer_tiles.specs.Answers.{IsTileAnswer};
ghost use Rattle.layer_tiles.specs.Operands.{cells_after};
ghost use Rattle.layer_tiles.specs.Tallies.{RisesBy};
ghost use Rattle.zonal_totals.specs.Books.{IsBookOf};
ghost use Rattle.map_waves.specs.Statements.{damage_by, made};
ghost use Rattle.op_jobs.specs.Grounds.{AreAllCounts};
ghost use Rattle.op_jobs.specs.Operands.{AreBoth};
ghost use Rattle.op_jobs.specs.Zonal.{IsRightBook, zonal_tiles};

use crate::damage::{all_tiles, tiles_of};
use crate::ground::Part;
use crate::operands::both_of;
use crate::zonal_kernel::zonal_tile;
use crate::zonal_parts::counted_book;
use crate::zonal_zones::add_zones;
use damage_sets::{Class, damaged};
use layer_tiles::{Extent, KernelRefusal, Operands, Tally, Tile};
use map_nums::{NoMemory, Stat};
use std::alloc::Global;
use zonal_totals::Book;

/// The book after an edit and the tiles of the damage, in ascending order: from the book that is kept of the statement, or
/// all tiles where none is. At most eight looks for each tile of the damage.
pub(crate) fn zonal_begin<M: Tally>(
    alloc: Global,
    stat: Stat,
    operands: &Operands<'_>,
    kept: Option<&Book>,
    extent: Extent,
    found: Option<Vec<Part>>,
    tally: &mut M,
) -> Result<(Book, Vec<u32>), NoMemory>
    requires both { AreBoth extent operands.now }
    requires found { IfSome found (λ parts. AreAllCounts extent (operand (cells_after operands.now) 0) (operand (cells_after operands.now) 1) parts.items) }
    requires no_product { stat ≢ Stat.Product }
    requires right { IfSome kept (λ book. IsRightBook stat extent operands.now book.now) }
    ensures size { IfOk result (λ r. r.0.size ≡ extent) }
    ensures book { IfOk result (λ r. IsBookOf r.0 (operand (cells_after operands.now) 0) (operand (cells_after operands.now) 1)) }
    ensures damage { IfOk result (λ r. (t u : Term) (was : Option Cells) → is_some was ≡ is_some kept.entry → r.1.items ≡ damage_by extent (zonal_op stat t u) was operands.now) }
    ensures looks { (t u : Term) (was : Option Cells) → is_some was ≡ is_some kept.entry → RisesBy (8 * length (damage_by extent (zonal_op stat t u) was operands.now)) 0 (M.counts tally.old) (M.counts tally.new) }
{
    match kept {
        None => first_book(alloc, operands, extent, found, tally),
        Some(book) => changed_book(alloc, stat, operands, book, tally),
    }
}

/// The book of a statement of which none is kept: from what was counted in the parts of the map, where that was found.
fn fresh_book<M: Tally>(
    alloc: Global,
    operands: &Operands<'_>,
    extent: Extent,
    found: Option<Vec<Part>>,
    tally: &mut M,
) -> Result<Book, NoMemory>
    requires both { AreBoth extent operands.now }
    requires found { IfSome found (λ parts. AreAllCounts extent (operand (cells_after operands.now) 0) (operand (cells_after operands.now) 1) parts.items) }
    ensures size { IfOk result (λ book. book.size ≡ extent) }
    ensures book { IfOk result (λ book. IsBookOf book (operand (cells_after operands.now) 0) (operand (cells_after operands.now) 1)) }
    ensures looks { RisesBy (2 * tiles_in extent) 0 (M.counts tally.old) (M.counts tally.new) }
{
    if let Some(parts) = found {
        let book = counted_book(alloc, extent, parts)?;
        return Ok(book);
    }
    let (values, zones) = both_of(operands);
    let book = Book::fresh(alloc, values, zones, tally)?;
    Ok(book)
}

/// The book of a statement of which none is kept, and all tiles.
fn first_book<M: Tally>(
    alloc: Global,
    operands: &Operands<'_>,
    extent: Extent,
    found: Option<Vec<Part>>,
    tally: &mut M,
) -> Result<(Book, Vec<u32>), NoMemory>
    requires both { AreBoth extent operands.now }
    requires found { IfSome found (λ parts. AreAllCounts extent (operand (cells_after operands.now) 0) (operand (cells_after operands.now) 1) parts.items) }
    ensures size { IfOk result (λ r. r.0.size ≡ extent) }
    ensures book { IfOk result (λ r. IsBookOf r.0 (operand (cells_after operands.now) 0) (operand (cells_after operands.now) 1)) }
    ensures damage { IfOk result (λ r. r.1.items ≡ tiles extent) }
    ensures looks { RisesBy (2 * tiles_in extent) 0 (M.counts tally.old) (M.counts tally.new) }
{
    let book = fresh_book(alloc, operands, extent, found, tally)?;
    let list = all_tiles(alloc, extent)?;
    Ok((book, list))
}

/// The book after an edit, from the one before, and the tiles that the edit damages.
fn changed_book<M: Tally>(
    alloc: Global,
    stat: Stat,
    operands: &Operands<'_>,
    book: &Book,
    tally: &mut M,
) -> Result<(Book, Vec<u32>), NoMemory>
    requires both { AreBoth book.now.size operands.now }
    requires no_product { stat ≢ Stat.Product }
    requires right { IsRightBook stat book.now.size operands.now book.now }
    ensures size { IfOk result (λ r. r.0.size ≡ book.now.size) }
    ensures book { IfOk result (λ r. IsBookOf r.0 (operand (cells_after operands.now) 0) (operand (cells_after operands.now) 1)) }
    ensures damage { IfOk result (λ r. r.1.items ≡ zonal_tiles stat book.now.size operands.now) }
    ensures looks { RisesBy (8 * length (zonal_tiles stat book.now.size operands.now)) 0 (M.counts tally.old) (M.counts tally.new) }
{
    let (values, zones) = both_of(operands);
    let mut set = damaged(alloc, Class::Cells, operands, tally)?;
    let patch = book.changed(alloc, values, zones, tally)?;
    add_zones(stat, book, &patch, &mut set);
    let list = tiles_of(alloc, &set)?;
    Ok((patch.into_book(), list))
}

/// Tile `tile` of a Zonal statement, from the book after the edit. One look.
///
/// # Errors
///
/// `Overflow` at the tile's least cell whose zone's statistic is out of range, exactly where there is one; `NoMemory`.
pub(crate) fn zonal_piece<M: Tally>(
    alloc: Global,
    stat: Stat,
    book: &Book,
    operands: &Operands<'_>,
    extent: Extent,
    tile: u32,
    tally: &mut M,
) -> Result<Tile, KernelRefusal>
    requires both { AreBoth extent operands.now }
    requires no_product { stat ≢ Stat.Product }
    requires within { tile < tiles_in extent }
    requires size { book.now.size ≡ extent }
    requires right { IsBookOf book.now (operand (cells_after operands.now) 0) (operand (cells_after operands.now) 1) }
    ensures answer { (t u : Term) → IsTileAnswer extent (made extent (zonal_op stat t u) (cells_after operands.now)) tile result }
    ensures tally { RisesBy 1 0 (M.counts tally.old) (M.counts tally.new) }
{
    let (_, zones) = both_of(operands);
    zonal_tile(alloc, stat, book, zones, tile, tally)
}
