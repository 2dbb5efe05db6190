//! The tiles of the zones whose statistic differs after an edit.
ghost use Rattle.std.specs.Prelude.{◌≡◌, ◌≢◌, ℤ, not, length, IsFalse, true};
ghost use Rattle.map_nums.specs.Answers.{is_wide};
ghost use Rattle.map_nums.specs.Grids.{Cells};
ghost use Rattle.map_defs.specs.Cells.{same_cell};
ghost use Rattle.map_defs.specs.Zonal.{zone_statistic};
ghost use Rattle.zonal_totals.specs.Books.{IsBookOf};
ghost use Rattle.zonal_totals.specs.Tilings.{HasZone};
ghost use Rattle.op_jobs.specs.Zonal.{CountsCells, AreMarked};
ghost use Rattle.op_jobs.specs.ZonalZones.{HasOtherZone, IsOfOther};

use damage_sets::TileSet;
use map_nums::{Stat, Value};
use zonal_totals::{Book, BookPatch};

/// Adds the tiles that have, after the edit, a cell of a listed zone whose statistic is another one than before.
pub(crate) fn add_zones(stat: Stat, book: &Book, patch: &BookPatch, set: &mut TileSet)
    requires after_size { patch.now.after.size ≡ book.now.size }
    requires set_size { set.old.size ≡ book.now.size }
    requires no_product { stat ≢ Stat.Product }
    requires counts { CountsCells patch.now.after }
    ensures size { set.new.size ≡ set.old.size }
    ensures marks { (values zones values' zones' : Cells) → IsBookOf book.now values zones → IsBookOf patch.now.after values' zones' → ((z : ℤ) → IsFalse (is_wide (zone_statistic stat book.now.size values zones z))) → AreMarked book.now.size (HasOtherZone stat book.now.size values zones values' zones' patch.now.zones (length patch.now.zones)) set.old.marks set.new.marks }
{
    for zone in patch.zones() {
        add_other(stat, book, patch, *zone, set);
    }
}

/// Adds the tiles that have a cell of a zone after the edit, where its statistic is another one than before.
fn add_other(stat: Stat, book: &Book, patch: &BookPatch, zone: Value, set: &mut TileSet)
    requires after_size { patch.now.after.size ≡ book.now.size }
    requires set_size { set.old.size ≡ book.now.size }
    requires no_product { stat ≢ Stat.Product }
    requires counts { CountsCells patch.now.after }
    ensures size { set.new.size ≡ set.old.size }
    ensures marks { (values zones values' zones' : Cells) → IsBookOf book.now values zones → IsBookOf patch.now.after values' zones' → IsFalse (is_wide (zone_statistic stat book.now.size values zones zone)) → AreMarked book.now.size (IsOfOther stat book.now.size values zones values' zones' zone) set.old.marks set.new.marks }
{
    if is_other(stat, book, patch, zone) {
        add_zone(book, patch, zone, set);
    }
}

/// Whether a zone has another statistic than before, where that was in range.
fn is_other(stat: Stat, book: &Book, patch: &BookPatch, zone: Value) -> bool
    requires after_size { patch.now.after.size ≡ book.now.size }
    requires no_product { stat ≢ Stat.Product }
    ensures { (values zones values' zones' : Cells) → IsBookOf book.now values zones → IsBookOf patch.now.after values' zones' → IsFalse (is_wide (zone_statistic stat book.now.size values zones zone)) → result ≡ not (same_cell (zone_statistic stat book.now.size values zones zone) (zone_statistic stat book.now.size values' zones' zone)) }
{
    let Ok(before) = book.stat(stat, zone) else {
        return true;
    };
    let Ok(after) = book.stat_after(patch, stat, zone) else {
        return true;
    };
    before != after
}

/// Adds the tiles that have a cell of a zone after the edit.
fn add_zone(book: &Book, patch: &BookPatch, zone: Value, set: &mut TileSet)
    requires after_size { patch.now.after.size ≡ book.now.size }
    requires set_size { set.old.size ≡ book.now.size }
    requires counts { CountsCells patch.now.after }
    ensures size { set.new.size ≡ set.old.size }
    ensures marks { (values zones : Cells) → IsBookOf patch.now.after values zones → AreMarked book.now.size (HasZone book.now.size zones zone) set.old.marks set.new.marks }
{
    let extent = set.extent();
    let _tiles = extent.tiles();
    let mut k = 0;
    while let Some(tile) = book.zone_tile_after(patch, zone, k) {
        set.add(tile);
        k += 1;
    }
}
