//! The numbers of nearest sources of a map that had none, place by place, of which the tiles of their layer are made.
ghost use Rattle.std.specs.Prelude.{◌≡◌, ◌<◌, ◌≤◌, [], length, IfOk};
ghost use Rattle.map_nums.specs.Grids.{cells_in};
ghost use Rattle.map_nums.specs.Numbers.{greatest_value};
ghost use Rattle.layer_tiles.specs.Cells.{AreCells};
ghost use Rattle.layer_tiles.specs.Answers.{IsTileAnswer};
ghost use Rattle.layer_tiles.specs.Patches.{patched, HoldsAll};
ghost use Rattle.layer_tiles.specs.Tiles.{tiles_in};
ghost use Rattle.friction_spread.specs.Lists.{list_cells as cost_cells};
ghost use Rattle.friction_neighbor.specs.Bands.{list_cells};

use crate::patches::patch_of;
use crate::shows::value_tile;
use friction_spread::CostList;
use layer_tiles::{Cell, Extent, KernelRefusal, NoMemory, Patch, Tile};
use std::alloc::Global;

/// The least costs of a map that had none and the numbers of the nearest sources, place by place.
#[derive(Drop)]
pub struct NearestList {
    pub(crate) costs: CostList,
    pub(crate) values: Vec<Cell>,
}

impl NearestList {
    /// The units of work that they are.
    pub fn worked(&self) -> u64
        ensures { result ≡ self.now.costs.worked }
    {
        self.costs.worked
    }

    /// A tile of the numbers.
    ///
    /// # Errors
    ///
    /// `NoMemory` alone, since no number is out of range.
    pub fn tile(&self, alloc: Global, extent: Extent, tile: u32) -> Result<Tile, KernelRefusal>
        requires count { length self.now.values.items ≡ cells_in extent }
        requires within { tile < tiles_in extent }
        ensures { IsTileAnswer extent (list_cells extent self.now) tile result }
    {
        value_tile(alloc, extent, tile, &self.values)
    }

    /// All tiles of the costs.
    ///
    /// # Errors
    ///
    /// `NoMemory`.
    pub fn costs(&self, alloc: Global, extent: Extent) -> Result<Patch, NoMemory>
        requires limit { self.now.costs.limit ≤ greatest_value }
        requires count { length self.now.costs.costs.items ≡ cells_in extent }
        ensures size { IfOk result (λ patch. patch.size ≡ extent) }
        ensures all { IfOk result HoldsAll }
        ensures cells { IfOk result (λ patch. patched extent [] patch.tiles ≡ cost_cells extent self.now.costs) }
    {
        let patch = patch_of(alloc, &self.costs, extent)?;
        Ok(patch)
    }

    /// All tiles of the numbers.
    pub(crate) fn values(&self, alloc: Global, extent: Extent) -> Result<Patch, NoMemory>
        requires count { length self.now.values.items ≡ cells_in extent }
        requires cells { AreCells self.now.values.items }
        ensures size { IfOk result (λ patch. patch.size ≡ extent) }
        ensures all { IfOk result HoldsAll }
        ensures cells { IfOk result (λ patch. patched extent [] patch.tiles ≡ list_cells extent self.now) }
    {
        let patch = patch_of(alloc, self, extent)?;
        Ok(patch)
    }
}
