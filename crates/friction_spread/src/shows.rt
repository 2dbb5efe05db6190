//! Costs that stand in a list, as the tiles of a layer.
ghost use Rattle.std.specs.Prelude.{◌≡◌, ◌<◌, ◌≤◌, ℕ, suc, length, slice_index_or, None, [], IfOk};
ghost use Rattle.map_nums.specs.Exact.{IsExact};
ghost use Rattle.map_nums.specs.Grids.{cells_in};
ghost use Rattle.map_nums.specs.Numbers.{greatest_value};
ghost use Rattle.map_defs.specs.Rounds.{cost_cell};
ghost use Rattle.layer_tiles.specs.Answers.{IsTileAnswer};
ghost use Rattle.layer_tiles.specs.Tiles.{tiles_in};
ghost use Rattle.tile_work.specs.Working.{IsPatchTo};
ghost use Rattle.least_costs.specs.Ranks.{changed};
ghost use Rattle.friction_spread.specs.Costs.{values};
ghost use Rattle.friction_spread.specs.Shown.{shown_at, shown_cells};

use layer_tiles::{Extent, KernelRefusal, NoMemory, Patch, Tile, Value};
use map_nums::Wide;
use std::alloc::Global;
use tile_frame::{RowMaker, TileMaker, make_row, make_tile};

/// All tiles.
pub fn cost_patch(
    alloc: Global,
    extent: Extent,
    limit: u64,
    costs: &[u64],
) -> Result<Patch, NoMemory>
    requires limit { limit ≤ greatest_value }
    requires count { length costs.now ≡ cells_in extent }
    ensures size { IfOk result (λ patch. patch.size ≡ extent) }
    ensures patch { IfOk result (λ patch. IsPatchTo extent None (shown_cells extent limit costs.now) patch.tiles) }
{
    let mut patch = Patch::new(alloc, extent);
    for tile in 0..extent.tiles() {
        match cost_tile(alloc, extent, tile, limit, costs) {
            Ok(made) => patch.push(tile, made)?,
            Err(KernelRefusal::Overflow(_)) => unreachable!(),
            Err(KernelRefusal::NoMemory) => return Err(NoMemory),
        }
    }
    Ok(patch)
}

/// One tile.
pub fn cost_tile(
    alloc: Global,
    extent: Extent,
    tile: u32,
    limit: u64,
    costs: &[u64],
) -> Result<Tile, KernelRefusal>
    requires within { tile < tiles_in extent }
    requires limit { limit ≤ greatest_value }
    requires count { length costs.now ≡ cells_in extent }
    ensures { IsTileAnswer extent (shown_cells extent limit costs.now) tile result }
{
    let _rows = extent.rows();
    let maker = CostTile {
        extent,
        tile,
        limit,
        costs,
    };
    make_tile(alloc, &maker, extent, tile)
}

/// The costs, place by place, and the tile that is made of them.
#[derive(Drop)]
struct CostTile<'a> {
    extent: Extent,
    tile: u32,
    limit: u64,
    costs: &'a [u64],
}

impl<'a> TileMaker for CostTile<'a> {
    ghost use Rattle.std.specs.Prelude.{◌≡◌, ◌≤◌, length};
    ghost use Rattle.map_nums.specs.Grids.{IsSize, cells_in};
    ghost use Rattle.map_nums.specs.Numbers.{greatest_value};
    ghost use Rattle.layer_tiles.specs.PlaceByPlace.{cell_in};
    ghost use Rattle.friction_spread.specs.Shown.{shown_at};

    ghost value = { λ m r c. shown_at m.limit m.costs.now (cell_in m.extent m.tile r c) };

    ghost makes = { λ m s t. (s ≡ m.extent) × (t ≡ m.tile) × IsSize s × (length m.costs.now ≡ cells_in s) × (m.limit ≤ greatest_value) };

    fn row(&self, extent: Extent, tile: u32, r: u32, made: &mut Tile) -> Result<(), KernelRefusal> {
        let place = extent.place(tile);
        let start = (place.top + r) * extent.columns() + place.left;
        let maker = CostRow {
            limit: self.limit,
            costs: self.costs,
            start,
        };
        make_row(&maker, extent, tile, r, made)
    }
}

/// The costs, place by place, and the place where a row begins.
#[derive(Drop)]
struct CostRow<'a> {
    limit: u64,
    costs: &'a [u64],
    start: u32,
}

impl<'a> RowMaker for CostRow<'a> {
    ghost use Rattle.std.specs.Prelude.{◌≡◌, ◌+◌, ◌<◌, ◌≤◌, length};
    ghost use Rattle.map_nums.specs.Numbers.{greatest_value};
    ghost use Rattle.friction_spread.specs.Shown.{shown_at};

    ghost value = { λ m c. shown_at m.limit m.costs.now (m.start + c) };

    ghost has = { λ m c. (m.start + c < length m.costs.now) × (m.limit ≤ greatest_value) };

    fn value_at(&self, c: u32) -> Result<Option<Value>, Wide> {
        shown(self.limit, self.costs, self.start as usize + c as usize)
    }
}

/// What a place shows.
fn shown(limit: u64, costs: &[u64], at: usize) -> Result<Option<Value>, Wide>
    requires limit { limit ≤ greatest_value }
    requires within { at < length costs.now }
    ensures { IsExact (shown_at limit costs.now at) result }
{
    Ok(value_of(limit, costs[at]))
}

/// The value of a cost, none above the limit.
fn value_of(limit: u64, cost: u64) -> Option<Value>
    requires { limit ≤ greatest_value }
    ensures { result ≡ cost_cell limit cost }
{
    if cost > limit {
        return None;
    }
    Some(cost as Value)
}

/// How many costs are within the limit.
pub fn count_costs(limit: u64, costs: &[u64]) -> u64
    requires most { (k : ℕ) → slice_index_or costs.now k 0 ≤ suc limit }
    requires count { length costs.now < 4294967296 }
    ensures counted { result ≡ changed (values limit []) (λ i. slice_index_or costs.now i (suc limit)) (length costs.now) }
    ensures few { result ≤ length costs.now }
{
    let mut count = 0;
    for cost in costs {
        count += u64::from(*cost <= limit);
    }
    count
}
