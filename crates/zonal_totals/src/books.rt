//! Books and what an edit makes of them.
ghost use Rattle.std.specs.Prelude.{◌≡◌, ◌≢◌, ◌*◌, IfOk, IsSome, Err, slice_get};
ghost use Rattle.map_nums.specs.declared.StatRefusal.TheVariants.{NoMemory as no_memory};
ghost use Rattle.map_nums.specs.Answers.{IsAnswer};
ghost use Rattle.map_nums.specs.Grids.{Cells};
ghost use Rattle.map_defs.specs.Zonal.{zone_statistic};
ghost use Rattle.layer_tiles.specs.Tiles.{tiles_in};
ghost use Rattle.layer_tiles.specs.Tallies.{RisesBy};
ghost use Rattle.layer_tiles.specs.Changes.{cells_before};
ghost use Rattle.zonal_totals.specs.Books.{IsBookOf};
ghost use Rattle.zonal_totals.specs.Looks.{tiles_held};
ghost use Rattle.zonal_totals.specs.Ranges.{AreTileCounts, AreRanges};
ghost use Rattle.zonal_totals.specs.ChangedZones.{AreChangedZones};
ghost use Rattle.zonal_totals.specs.TileKeys.{tile_at};
ghost use Rattle.zonal_totals.specs.Tilings.{IsZoneTile};

use crate::drafts::{Draft, drafted};
use crate::entries::Entry;
use crate::registers::Register;
use crate::stats::statistic_of_part;
use crate::steps::settle;
use crate::tile_counts::TileCounts;
use crate::zone_lists::zones_of;
use layer_tiles::{Change, Extent, Tally};
use map_nums::{NoMemory, Stat, StatRefusal, Value, Wide};
use std::alloc::Global;
use std::marker::Model;

/// How often each value occurs in each zone, and how many cells of each zone each tile has.
#[derive(Drop)]
pub struct Book {
    extent: Extent,
    values: Register,
    tiles: Register,
}

impl Model for Book {
    ghost use Rattle.zonal_totals.specs.Books.{BookState};

    ghost Value = { BookState };

    ghost view = { λ b. record { size = b.extent; values = b.values; tiles = b.tiles } };
}

/// The book after an edit, and the zones for which the count of some value differs.
#[derive(Drop)]
pub struct BookPatch {
    zones: Vec<Value>,
    after: Book,
}

impl Model for BookPatch {
    ghost use Rattle.zonal_totals.specs.Books.{PatchState};

    ghost Value = { PatchState };

    ghost view = { λ p. record { zones = p.zones.items; after = p.after } };
}

impl BookPatch {
    /// The zones for which the count of some value differs, in ascending order from place 0; none past the last.
    pub fn zone(&self, k: u32) -> Option<Value>
        ensures { result ≡ slice_get self.now.zones k }
    {
        self.zones.get(k as usize).copied()
    }

    /// All of these zones.
    pub fn zones(&self) -> &[Value]
        ensures { result.now ≡ self.now.zones }
    {
        &self.zones
    }

    /// The book after the edit.
    pub fn into_book(self) -> Book
        ensures { result ≡ self.after }
    {
        self.after
    }
}

impl Book {
    /// The book of the operands after the edit, with two looks at each tile of the map.
    pub fn fresh<M: Tally>(
        alloc: Global,
        values: &Change<'_>,
        zones: &Change<'_>,
        tally: &mut M,
    ) -> Result<Book, NoMemory>
        requires size { values.now.size ≡ zones.now.size }
        ensures book { IfOk result (λ book. IsBookOf book values.now.cells zones.now.cells) }
        ensures size { IfOk result (λ book. book.size ≡ zones.now.size) }
        ensures looks { RisesBy (2 * tiles_in zones.now.size) 0 (M.counts tally.old) (M.counts tally.new) }
    {
        let extent = zones.extent();
        let counts = TileCounts::of(alloc, values, zones, 0, extent.tiles(), tally)?;
        Book::of_whole(alloc, extent, &counts)
    }

    /// The book of a map from the counts of all its tiles, in ranges that follow one another. It reads no tile.
    pub fn of_counts(alloc: Global, extent: Extent, counts: &[TileCounts]) -> Result<Book, NoMemory>
        requires { (values : Cells) × (zones : Cells) × AreRanges extent values zones 0 (tiles_in extent) counts.now }
        ensures book { IfOk result (λ book. (values zones : Cells) → AreRanges extent values zones 0 (tiles_in extent) counts.now → IsBookOf book values zones) }
        ensures size { IfOk result (λ book. book.size ≡ extent) }
    {
        let all = TileCounts::of_all(alloc, extent, counts)?;
        Book::of_whole(alloc, extent, &all)
    }

    /// The book of a map from the counts of all its tiles.
    fn of_whole(alloc: Global, extent: Extent, all: &TileCounts) -> Result<Book, NoMemory>
        requires { (values : Cells) × (zones : Cells) × AreTileCounts extent values zones 0 (tiles_in extent) all.now }
        ensures book { IfOk result (λ book. (values zones : Cells) → AreTileCounts extent values zones 0 (tiles_in extent) all.now → IsBookOf book values zones) }
        ensures size { IfOk result (λ book. book.size ≡ extent) }
    {
        let _size = extent.tiles();
        let none = Register::new(alloc);
        Ok(Book {
            extent,
            values: none.after(alloc, all.values())?,
            tiles: none.after(alloc, all.tiles())?,
        })
    }

    /// The book after an edit, from the tiles that either operand's patch holds, with four looks at each of these.
    pub fn changed<M: Tally>(
        &self,
        alloc: Global,
        values: &Change<'_>,
        zones: &Change<'_>,
        tally: &mut M,
    ) -> Result<BookPatch, NoMemory>
        requires values_size { values.now.size ≡ self.now.size }
        requires zones_size { zones.now.size ≡ self.now.size }
        requires values_before { IsSome values.now.before }
        requires zones_before { IsSome zones.now.before }
        requires right { IsBookOf self.now (cells_before values.now) (cells_before zones.now) }
        ensures book { IfOk result (λ patch. IsBookOf patch.after values.now.cells zones.now.cells) }
        ensures zones { IfOk result (λ patch. AreChangedZones patch.zones zones.now.size (cells_before values.now) (cells_before zones.now) values.now.cells zones.now.cells) }
        ensures size { IfOk result (λ patch. patch.after.size ≡ self.now.size) }
        ensures looks { RisesBy (4 * tiles_held values.now zones.now) 0 (M.counts tally.old) (M.counts tally.new) }
    {
        let _size = zones.extent();
        let draft = drafted(alloc, values, zones, tally)?;
        let Draft { values, tiles } = draft;
        let value_steps = settle(alloc, values)?;
        let tile_steps = settle(alloc, tiles)?;
        Ok(BookPatch {
            zones: zones_of(alloc, &value_steps)?,
            after: Book {
                extent: self.extent,
                values: self.values.after(alloc, &value_steps)?,
                tiles: self.tiles.after(alloc, &tile_steps)?,
            },
        })
    }

    /// Takes the book that a patch made. It wants no memory.
    pub fn commit(&mut self, patch: BookPatch)
        requires { patch.after.size ≡ self.old.size }
        ensures { self.new ≡ patch.after }
    {
        *self = patch.after;
    }

    /// A statistic of all numbers of a zone, none where it has none. It wants no memory.
    ///
    /// # Errors
    ///
    /// `Wide` exactly where no cell may hold the statistic.
    pub fn stat(&self, stat: Stat, zone: Value) -> Result<Option<Value>, StatRefusal>
        requires { stat ≢ Stat.Product }
        ensures statistic { (values zones : Cells) → IsBookOf self.now values zones → IsAnswer (zone_statistic stat self.now.size values zones zone) result }
        ensures memory { result ≢ Err no_memory }
    {
        let part = self.values.part(zone);
        match statistic_of_part(stat, part.entries, part.known) {
            Ok(value) => Ok(value),
            Err(Wide) => Err(StatRefusal::Wide),
        }
    }

    /// A statistic of all numbers of a zone after a patch.
    ///
    /// # Errors
    ///
    /// `Wide` exactly where no cell may hold the statistic.
    pub fn stat_after(
        &self,
        patch: &BookPatch,
        stat: Stat,
        zone: Value,
    ) -> Result<Option<Value>, StatRefusal>
        requires size { patch.now.after.size ≡ self.now.size }
        requires no_product { stat ≢ Stat.Product }
        ensures statistic { (values zones : Cells) → IsBookOf patch.now.after values zones → IsAnswer (zone_statistic stat self.now.size values zones zone) result }
        ensures memory { result ≢ Err no_memory }
    {
        patch.after.stat(stat, zone)
    }

    /// The tiles that have a cell of the zone after a patch, in ascending order from place 0; none past the last.
    pub fn zone_tile_after(&self, patch: &BookPatch, zone: Value, k: u32) -> Option<u32>
        requires { patch.now.after.size ≡ self.now.size }
        ensures { (values zones : Cells) → IsBookOf patch.now.after values zones → IsZoneTile self.now.size zones zone k result }
    {
        patch.after.zone_tile(zone, k)
    }

    /// The tiles that have a cell of the zone, in ascending order from place 0; none past the last.
    fn zone_tile(&self, zone: Value, k: u32) -> Option<u32>
        ensures { (values zones : Cells) → IsBookOf self.now values zones → IsZoneTile self.now.size zones zone k result }
    {
        let _size = self.extent.tiles();
        nth_tile(self.tiles.part(zone).entries, k)
    }

    /// The same book once more.
    pub fn copy(&self, alloc: Global) -> Result<Book, NoMemory>
        ensures { IfOk result (λ book. book ≡ self.now) }
    {
        Ok(Book {
            extent: self.extent,
            values: self.values.copy(alloc)?,
            tiles: self.tiles.copy(alloc)?,
        })
    }
}

/// The tile of the entry at a place, none past the last and where the key has more than 32 bits.
fn nth_tile(part: &[Entry], k: u32) -> Option<u32>
    ensures { result ≡ tile_at (slice_get part.now k) }
{
    if k as usize >= part.len() {
        return None;
    }
    let tile = part[k as usize].key();
    if tile < 0 || tile > u32::MAX as i64 {
        return None;
    }
    Some(tile as u32)
}
