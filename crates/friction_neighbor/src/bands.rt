//! Bands of rows of a map: the least costs within each, and the numbers of the nearest sources.
ghost use Rattle.std.specs.Prelude.{◌≡◌, ◌<◌, ◌≤◌, ◌≤ℤ◌, pos, nat_abs, length, IfOk};
ghost use Rattle.map_nums.specs.Grids.{cells_in};
ghost use Rattle.map_nums.specs.Numbers.{greatest_value};
ghost use Rattle.friction_spread.specs.Bands.{ground_of};
ghost use Rattle.friction_neighbor.specs.Bands.{IsNearestBand};

use crate::fields::CostField;
use crate::floods::values_of;
use friction_spread::{CostBand, costs_of_band, limit_of};
use layer_tiles::{Cell, Extent, NoMemory, Value};
use std::alloc::Global;

/// The least costs within some rows of a map and the numbers of the nearest sources, by paths that stay in these rows and those that
/// were taken in beside them.
#[derive(Drop)]
pub struct NearestBand {
    pub(crate) costs: CostBand,
    /// Of all rows, those taken in too.
    pub(crate) values: Vec<Cell>,
}

/// The least costs within the rows `first` to before `end` of a map, whose sources and frictions are given whole, and the numbers of the
/// nearest sources; rows beside them may be taken in. The limit is the greatest cost that counts, and no more than a cell holds.
///
/// # Errors
///
/// `NoMemory` alone.
pub fn nearest_of_band(
    alloc: Global,
    extent: Extent,
    sources: &[Cell],
    friction: &[Cell],
    limit: Value,
    first: u32,
    end: u32,
) -> Result<NearestBand, NoMemory>
    requires sources { length sources.now ≡ cells_in extent }
    requires friction { length friction.now ≡ cells_in extent }
    requires limit { (pos 0 ≤ℤ limit) × (limit ≤ℤ pos greatest_value) }
    requires rows { (first < end) × (end ≤ extent.rows) }
    ensures { IfOk result (IsNearestBand (ground_of extent sources.now friction.now (nat_abs limit)) first end) }
{
    let costs = costs_of_band(alloc, extent, sources, friction, limit, first, end)?;
    let columns = extent.columns();
    let count = costs.costs().len();
    let Some(size) = Extent::new(count as u32 / columns, columns) else {
        unreachable!()
    };
    let start = ((first - costs.above()) * columns) as usize;
    let field = CostField::new(
        size,
        &sources[start..start + count],
        &friction[start..start + count],
        limit_of(limit),
        costs.costs(),
    );
    let values = values_of(alloc, &field)?;
    Ok(NearestBand { costs, values })
}
