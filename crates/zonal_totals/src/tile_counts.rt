//! Counts of ranges of tiles, and their join.
ghost use Rattle.std.specs.Prelude.{◌≡◌, ◌-◌, ◌*◌, ◌≤◌, IfOk};
ghost use Rattle.map_nums.specs.Grids.{Cells};
ghost use Rattle.layer_tiles.specs.Tiles.{tiles_in};
ghost use Rattle.layer_tiles.specs.Tallies.{RisesBy};
ghost use Rattle.zonal_totals.specs.Ranges.{AreTileCounts, AreRanges};

use crate::counts::counted;
use crate::drafts::Draft;
use crate::joins::joined;
use crate::steps::{Step, settle};
use layer_tiles::{Change, Extent, Tally};
use map_nums::NoMemory;
use std::alloc::Global;
use std::marker::Model;

/// How often each value and each tile occurs in each zone, in some tiles of a map.
#[derive(Drop)]
pub struct TileCounts {
    values: Vec<Step>,
    tiles: Vec<Step>,
}

impl Model for TileCounts {
    ghost use Rattle.zonal_totals.specs.Ranges.{CountsState};

    ghost Value = { CountsState };

    ghost view = { λ c. record { values = c.values.items; tiles = c.tiles.items } };
}

impl TileCounts {
    /// The counts of tiles `first` to before `end` after the edit. Two looks a tile.
    pub fn of<M: Tally>(
        alloc: Global,
        values: &Change<'_>,
        zones: &Change<'_>,
        first: u32,
        end: u32,
        tally: &mut M,
    ) -> Result<TileCounts, NoMemory>
        requires size { values.now.size ≡ zones.now.size }
        requires order { first ≤ end }
        requires within { end ≤ tiles_in zones.now.size }
        ensures counts { IfOk result (AreTileCounts zones.now.size values.now.cells zones.now.cells first end) }
        ensures looks { RisesBy (2 * (end - first)) 0 (M.counts tally.old) (M.counts tally.new) }
    {
        let _size = zones.extent();
        let draft = counted(alloc, values, zones, first, end, tally)?;
        let Draft { values, tiles } = draft;
        Ok(TileCounts {
            values: settle(alloc, values)?,
            tiles: settle(alloc, tiles)?,
        })
    }

    /// The counts of all tiles, from those of ranges that follow one another.
    pub(crate) fn of_all(
        alloc: Global,
        extent: Extent,
        ranges: &[TileCounts],
    ) -> Result<TileCounts, NoMemory>
        requires { (values : Cells) × (zones : Cells) × AreRanges extent values zones 0 (tiles_in extent) ranges.now }
        ensures { IfOk result (λ all. (values zones : Cells) → AreRanges extent values zones 0 (tiles_in extent) ranges.now → AreTileCounts extent values zones 0 (tiles_in extent) all) }
    {
        let _size = extent.tiles();
        let mut values = Vec::new(alloc);
        let mut tiles = Vec::new(alloc);
        for range in ranges {
            values = joined(alloc, &values, range.values())?;
            tiles = joined(alloc, &tiles, range.tiles())?;
        }
        Ok(TileCounts { values, tiles })
    }

    pub(crate) fn values(&self) -> &[Step]
        ensures { result.now ≡ self.now.values }
    {
        &self.values
    }

    pub(crate) fn tiles(&self) -> &[Step]
        ensures { result.now ≡ self.now.tiles }
    {
        &self.tiles
    }
}
