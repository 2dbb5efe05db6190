//! Costs and values as the tiles of layers.
ghost use Rattle.std.specs.Prelude.{◌≡◌, ◌<◌, length};
ghost use Rattle.map_nums.specs.Exact.{IsExact};
ghost use Rattle.map_nums.specs.Grids.{cell_at, cells_in};
ghost use Rattle.layer_tiles.specs.Answers.{IsTileAnswer};
ghost use Rattle.layer_tiles.specs.Tiles.{tiles_in};
ghost use Rattle.friction_neighbor.specs.Shown.{shown_cells};

use crate::lists::NearestList;
use crate::patches::TileSource;
use friction_spread::CostList;
use layer_tiles::{Cell, Extent, KernelRefusal, Tile, Value};
use map_nums::Wide;
use std::alloc::Global;
use tile_frame::{RowMaker, TileMaker, make_row, make_tile};

impl TileSource for CostList {
    ghost use Rattle.std.specs.Prelude.{◌≡◌, ◌≤◌, length};
    ghost use Rattle.map_nums.specs.Grids.{cells_in};
    ghost use Rattle.map_nums.specs.Numbers.{greatest_value};
    ghost use Rattle.friction_spread.specs.Lists.{list_cells};

    ghost cells = { λ list s. list_cells s list };

    ghost makes = { λ list s. (list.limit ≤ greatest_value) × (length list.costs.items ≡ cells_in s) };

    fn tile(&self, alloc: Global, extent: Extent, tile: u32) -> Result<Tile, KernelRefusal> {
        CostList::tile(self, alloc, extent, tile)
    }
}

impl TileSource for NearestList {
    ghost use Rattle.std.specs.Prelude.{◌≡◌, length};
    ghost use Rattle.map_nums.specs.Grids.{cells_in};
    ghost use Rattle.friction_neighbor.specs.Bands.{list_cells};

    ghost cells = { λ list s. list_cells s list };

    ghost makes = { λ list s. length list.values.items ≡ cells_in s };

    fn tile(&self, alloc: Global, extent: Extent, tile: u32) -> Result<Tile, KernelRefusal> {
        NearestList::tile(self, alloc, extent, tile)
    }
}

/// One tile of values.
pub fn value_tile(
    alloc: Global,
    extent: Extent,
    tile: u32,
    values: &[Cell],
) -> Result<Tile, KernelRefusal>
    requires within { tile < tiles_in extent }
    requires count { length values.now ≡ cells_in extent }
    ensures { IsTileAnswer extent (shown_cells extent values.now) tile result }
{
    let _rows = extent.rows();
    let maker = ValueTile {
        extent,
        tile,
        values,
    };
    make_tile(alloc, &maker, extent, tile)
}

/// The values, place by place, and the tile that is made of them.
#[derive(Drop)]
struct ValueTile<'a> {
    extent: Extent,
    tile: u32,
    values: &'a [Cell],
}

impl<'a> TileMaker for ValueTile<'a> {
    ghost use Rattle.std.specs.Prelude.{◌≡◌, length};
    ghost use Rattle.map_nums.specs.Grids.{IsSize, cell_at, cells_in};
    ghost use Rattle.layer_tiles.specs.PlaceByPlace.{cell_in};

    ghost value = { λ m r c. cell_at m.values.now (cell_in m.extent m.tile r c) };

    ghost makes = { λ m s t. (s ≡ m.extent) × (t ≡ m.tile) × IsSize s × (length m.values.now ≡ cells_in s) };

    fn row(&self, extent: Extent, tile: u32, r: u32, made: &mut Tile) -> Result<(), KernelRefusal> {
        let place = extent.place(tile);
        let start = (place.top + r) * extent.columns() + place.left;
        let maker = ValueRow {
            values: self.values,
            start,
        };
        make_row(&maker, extent, tile, r, made)
    }
}

/// The values, place by place, and the place where a row begins.
#[derive(Drop)]
struct ValueRow<'a> {
    values: &'a [Cell],
    start: u32,
}

impl<'a> RowMaker for ValueRow<'a> {
    ghost use Rattle.std.specs.Prelude.{◌≡◌, ◌+◌, ◌<◌, length};
    ghost use Rattle.map_nums.specs.Grids.{cell_at};

    ghost value = { λ m c. cell_at m.values.now (m.start + c) };

    ghost has = { λ m c. m.start + c < length m.values.now };

    fn value_at(&self, c: u32) -> Result<Option<Value>, Wide> {
        shown(self.values, self.start as usize + c as usize)
    }
}

/// What a place shows.
fn shown(values: &[Cell], at: usize) -> Result<Option<Value>, Wide>
    requires within { at < length values.now }
    ensures { IsExact (cell_at values.now at) result }
{
    Ok(values[at].get())
}
