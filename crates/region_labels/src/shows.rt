//! Labels that lead to those of the regions, as the tiles of a layer.
ghost use Rattle.std.specs.Prelude.{◌≡◌, ◌<◌, length};
ghost use Rattle.map_nums.specs.Exact.{IsExact};
ghost use Rattle.map_nums.specs.Grids.{cells_in};
ghost use Rattle.layer_tiles.specs.Answers.{IsTileAnswer};
ghost use Rattle.layer_tiles.specs.Tiles.{tiles_in};
ghost use Rattle.region_labels.specs.Roots.{AreBack, resolved_cells};

use crate::kept::Label;
use crate::roots::resolved;
use layer_tiles::{Extent, KernelRefusal, Tile, Value};
use map_nums::Wide;
use std::alloc::Global;
use tile_frame::{RowMaker, TileMaker, make_row, make_tile};

/// Labels of a map that had none, place by place, which lead to those of its regions; and the units of work that they are.
#[derive(Drop)]
pub struct ProvisionalLabels {
    pub(crate) labels: Vec<Label>,
    pub worked: u64,
}

impl ProvisionalLabels {
    /// A tile of the regions' labels.
    ///
    /// # Errors
    ///
    /// `NoMemory` alone, since no label is out of range.
    pub fn tile(&self, alloc: Global, extent: Extent, tile: u32) -> Result<Tile, KernelRefusal>
        requires back { AreBack self.now.labels.items }
        requires count { length self.now.labels.items ≡ cells_in extent }
        requires within { tile < tiles_in extent }
        ensures { IsTileAnswer extent (resolved_cells extent self.now.labels.items) tile result }
    {
        let _rows = extent.rows();
        let maker = LabelTile {
            extent,
            tile,
            labels: &self.labels,
        };
        make_tile(alloc, &maker, extent, tile)
    }
}

/// The labels, place by place, and the tile that is made of them.
#[derive(Drop)]
struct LabelTile<'a> {
    extent: Extent,
    tile: u32,
    labels: &'a [Label],
}

impl<'a> TileMaker for LabelTile<'a> {
    ghost use Rattle.std.specs.Prelude.{◌≡◌, length};
    ghost use Rattle.map_nums.specs.Grids.{IsSize, cells_in};
    ghost use Rattle.layer_tiles.specs.PlaceByPlace.{cell_in};
    ghost use Rattle.region_labels.specs.Roots.{AreBack, resolved};

    ghost value = { λ m r c. resolved m.labels.now (cell_in m.extent m.tile r c) };

    ghost makes = { λ m s t. (s ≡ m.extent) × (t ≡ m.tile) × IsSize s × (length m.labels.now ≡ cells_in s) × AreBack m.labels.now };

    fn row(&self, extent: Extent, tile: u32, r: u32, made: &mut Tile) -> Result<(), KernelRefusal> {
        let place = extent.place(tile);
        let start = (place.top + r) * extent.columns() + place.left;
        let maker = LabelRow {
            labels: self.labels,
            start,
        };
        make_row(&maker, extent, tile, r, made)
    }
}

/// The labels, place by place, and the place where a row begins.
#[derive(Drop)]
struct LabelRow<'a> {
    labels: &'a [Label],
    start: u32,
}

impl<'a> RowMaker for LabelRow<'a> {
    ghost use Rattle.std.specs.Prelude.{◌≡◌, ◌+◌, ◌<◌, ◌≤◌, length};
    ghost use Rattle.region_labels.specs.Roots.{AreBack, resolved};

    ghost value = { λ m c. resolved m.labels.now (m.start + c) };

    ghost has = { λ m c. (m.start + c < length m.labels.now) × (length m.labels.now ≤ 1500000) × AreBack m.labels.now };

    fn value_at(&self, c: u32) -> Result<Option<Value>, Wide> {
        Ok(resolved(self.labels, self.start + c))
    }
}
