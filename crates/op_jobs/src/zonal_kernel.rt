//! A tile of a Zonal statement.
ghost use Rattle.std.specs.Prelude.{◌≡◌, ◌≢◌, ◌<◌, IfOk, option_and_then};
ghost use Rattle.map_nums.specs.Exact.{IsExact};
ghost use Rattle.map_nums.specs.Grids.{Cells, cell_at};
ghost use Rattle.map_defs.specs.Zonal.{zonal_grid};
ghost use Rattle.layer_tiles.specs.Tiles.{tiles_in, tile_height, tile_width, block_row};
ghost use Rattle.layer_tiles.specs.Tallies.{RisesBy};
ghost use Rattle.layer_tiles.specs.Answers.{IsTileAnswer};
ghost use Rattle.layer_tiles.specs.PlaceByPlace.{IsPlacesAnswer};
ghost use Rattle.tile_frame.specs.Frames.{by_row};
ghost use Rattle.zonal_totals.specs.Books.{IsBookOf};
ghost use Rattle.op_jobs.specs.Zonal.{CountsCells, AreStats, told};

use layer_tiles::{Cell, Change, Extent, KernelRefusal, Tally, Tile, TileView, Value};
use map_nums::{NoMemory, Stat, Wide};
use std::alloc::Global;
use std::collections::BTreeMap;
use tile_frame::{RowMaker, TileMaker, make_row, make_tile};
use zonal_totals::Book;

/// The statistics of some zones, none where a zone has no number.
type Stats = BTreeMap<Value, Result<Option<Value>, Wide>>;

/// Tile `tile` of the statistics of the zones after the edit, from the book after it. One look; the statistic of each zone
/// in the tile is found once.
///
/// # Errors
///
/// `Overflow` at the tile's least cell whose zone's statistic is out of range, exactly where there is one; `NoMemory`.
pub(crate) fn zonal_tile<M: Tally>(
    alloc: Global,
    stat: Stat,
    book: &Book,
    zones: &Change<'_>,
    tile: u32,
    tally: &mut M,
) -> Result<Tile, KernelRefusal>
    requires within { tile < tiles_in zones.now.size }
    requires size { book.now.size ≡ zones.now.size }
    requires no_product { stat ≢ Stat.Product }
    requires counts { CountsCells book.now }
    ensures answer { (values : Cells) → IsBookOf book.now values zones.now.cells → IsTileAnswer zones.now.size (zonal_grid stat zones.now.size values zones.now.cells).cells tile result }
    ensures tally { RisesBy 1 0 (M.counts tally.old) (M.counts tally.new) }
{
    let extent = zones.extent();
    let view = zones.view(tile, tally);
    match stats_of(alloc, stat, book, &view) {
        Ok(known) => tile_of_zones(alloc, stat, book, &known, &view, extent, tile),
        Err(NoMemory) => Err(KernelRefusal::NoMemory),
    }
}

/// The tile over its zones.
fn tile_of_zones(
    alloc: Global,
    stat: Stat,
    book: &Book,
    known: &Stats,
    view: &TileView<'_>,
    extent: Extent,
    tile: u32,
) -> Result<Tile, KernelRefusal>
    requires within { tile < tiles_in extent }
    requires height { view.now.height ≡ tile_height extent tile }
    requires width { view.now.width ≡ tile_width extent tile }
    requires stats { AreStats stat book.now known.now }
    ensures { IsPlacesAnswer (by_row (tile_width extent tile) (λ r c. option_and_then (told stat book.now) (cell_at (block_row view.now r) c))) extent tile result }
{
    let maker = ZonalTile {
        stat,
        book,
        known,
        view,
    };
    make_tile(alloc, &maker, extent, tile)
}

/// The zones of a tile, and what is known of their statistics.
#[derive(Drop)]
struct ZonalTile<'a, 'b> {
    stat: Stat,
    book: &'a Book,
    known: &'a Stats,
    view: &'a TileView<'b>,
}

impl<'a, 'b> TileMaker for ZonalTile<'a, 'b> {
    ghost use Rattle.std.specs.Prelude.{◌≡◌, option_and_then};
    ghost use Rattle.map_nums.specs.Grids.{cell_at};
    ghost use Rattle.layer_tiles.specs.Tiles.{tile_height, tile_width, block_row};
    ghost use Rattle.op_jobs.specs.Zonal.{AreStats, told};

    ghost value = { λ m r c. option_and_then (told m.stat m.book.now) (cell_at (block_row m.view.now r) c) };

    ghost makes = { λ m s t. (m.view.now.height ≡ tile_height s t) × (m.view.now.width ≡ tile_width s t) × AreStats m.stat m.book.now m.known.now };

    fn row(&self, extent: Extent, tile: u32, r: u32, made: &mut Tile) -> Result<(), KernelRefusal> {
        let maker = ZonalRow {
            stat: self.stat,
            book: self.book,
            known: self.known,
            cells: self.view.row(r),
        };
        make_row(&maker, extent, tile, r, made)
    }
}

/// A row of the zones of a tile, and what is known of their statistics.
#[derive(Drop)]
struct ZonalRow<'a> {
    stat: Stat,
    book: &'a Book,
    known: &'a Stats,
    cells: &'a [Cell],
}

impl<'a> RowMaker for ZonalRow<'a> {
    ghost use Rattle.std.specs.Prelude.{◌<◌, length, option_and_then};
    ghost use Rattle.map_nums.specs.Grids.{cell_at};
    ghost use Rattle.op_jobs.specs.Zonal.{AreStats, told};

    ghost value = { λ m c. option_and_then (told m.stat m.book.now) (cell_at m.cells.now c) };

    ghost has = { λ m c. (c < length m.cells.now) × AreStats m.stat m.book.now m.known.now };

    fn value_at(&self, c: u32) -> Result<Option<Value>, Wide> {
        match self.cells[c as usize].get() {
            None => Ok(None),
            Some(zone) => known_stat(self.stat, self.book, self.known, zone),
        }
    }
}

/// The statistics of the zones of a tile.
fn stats_of(alloc: Global, stat: Stat, book: &Book, view: &TileView<'_>) -> Result<Stats, NoMemory>
    requires no_product { stat ≢ Stat.Product }
    requires counts { CountsCells book.now }
    ensures { IfOk result (λ known. AreStats stat book.now known) }
{
    let mut known = BTreeMap::new(alloc);
    for r in 0..view.height() {
        add_stats(stat, book, view.row(r), &mut known)?;
    }
    Ok(known)
}

/// Adds the statistics of the zones of a row.
fn add_stats(stat: Stat, book: &Book, row: &[Cell], known: &mut Stats) -> Result<(), NoMemory>
    requires stats { AreStats stat book.now known.old }
    ensures { IfOk result (λ done. AreStats stat book.now known.new) }
{
    let mut last: Option<Value> = None;
    for cell in row {
        let zone = cell.get();
        if zone != last {
            add_stat(stat, book, zone, known)?;
            last = zone;
        }
    }
    Ok(())
}

/// Adds the statistic of a zone, where it is not known.
fn add_stat(stat: Stat, book: &Book, zone: Option<Value>, known: &mut Stats) -> Result<(), NoMemory>
    requires stats { AreStats stat book.now known.old }
    ensures { IfOk result (λ done. AreStats stat book.now known.new) }
{
    let Some(zone) = zone else {
        return Ok(());
    };
    if known.contains_key(&zone) {
        return Ok(());
    }
    known.insert(zone, book_stat(stat, book, zone))?;
    Ok(())
}

/// The statistic of a zone, from the known ones or from the book.
fn known_stat(stat: Stat, book: &Book, known: &Stats, zone: Value) -> Result<Option<Value>, Wide>
    requires stats { AreStats stat book.now known.now }
    ensures { IsExact (told stat book.now zone) result }
{
    match known.get(&zone) {
        Some(answer) => *answer,
        None => book_stat(stat, book, zone),
    }
}

/// The statistic of a zone.
fn book_stat(stat: Stat, book: &Book, zone: Value) -> Result<Option<Value>, Wide>
    requires no_product { stat ≢ Stat.Product }
    requires counts { CountsCells book.now }
    ensures { IsExact (told stat book.now zone) result }
{
    match book.stat(stat, zone) {
        Ok(value) => Ok(value),
        Err(_) => Err(Wide),
    }
}
