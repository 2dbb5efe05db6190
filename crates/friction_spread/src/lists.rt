//! The least costs of a map place by place, of which the tiles of its layer are made.
ghost use Rattle.std.specs.Prelude.{◌≡◌, ◌<◌, ◌≤◌, length};
ghost use Rattle.map_nums.specs.Grids.{cells_in};
ghost use Rattle.map_nums.specs.Numbers.{greatest_value};
ghost use Rattle.layer_tiles.specs.Answers.{IsTileAnswer};
ghost use Rattle.layer_tiles.specs.Tiles.{tiles_in};
ghost use Rattle.friction_spread.specs.Lists.{list_cells};

use crate::shows::cost_tile;
use layer_tiles::{Extent, KernelRefusal, Tile};
use std::alloc::Global;

/// The least costs of a map that had none, place by place, and the units of work that they are.
#[derive(Drop)]
pub struct CostList {
    pub(crate) limit: u64,
    pub(crate) costs: Vec<u64>,
    pub worked: u64,
}

impl CostList {
    /// The costs of all places; above the limit where there is none.
    pub fn costs(&self) -> &[u64]
        ensures { result.now ≡ self.now.costs.items }
    {
        &self.costs
    }

    /// A tile of the costs.
    ///
    /// # Errors
    ///
    /// `NoMemory` alone, since no cost is out of range.
    pub fn tile(&self, alloc: Global, extent: Extent, tile: u32) -> Result<Tile, KernelRefusal>
        requires limit { self.now.limit ≤ greatest_value }
        requires count { length self.now.costs.items ≡ cells_in extent }
        requires within { tile < tiles_in extent }
        ensures { IsTileAnswer extent (list_cells extent self.now) tile result }
    {
        cost_tile(alloc, extent, tile, self.limit, &self.costs)
    }
}
