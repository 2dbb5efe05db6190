//! Bands of rows of a map: the least costs within each, and those of the map from them.
//!
//! A path that stays in some rows costs the same in the map. So the costs of the bands, one below the other, are what some paths cost, and a place
//! that lies in no row beside another band has its steps tried: they lead to places of its band. The others come into the queue.
ghost use Rattle.std.specs.Prelude.{◌≡◌, ◌<◌, ◌≤◌, ◌≤ℤ◌, ◌+◌, ◌*◌, ℕ, suc, pos, nat_abs, true, length, IfOk, OnOk};
ghost use Rattle.std.specs.List.{Contains};
ghost use Rattle.map_nums.specs.Grids.{cells_in, row_of};
ghost use Rattle.map_nums.specs.Numbers.{greatest_value};
ghost use Rattle.map_defs.specs.Nets.{IsLeastIn};
ghost use Rattle.least_costs.specs.Queue.{IsKept};
ghost use Rattle.friction_spread.specs.Costs.{net_of};
ghost use Rattle.friction_spread.specs.Flat.{costs_of};
ghost use Rattle.friction_spread.specs.Bands.{ground_of, IsCostBand, AreCostBands};
ghost use Rattle.friction_spread.specs.Joins.{AreCostsTo, IsAtSeam};
ghost use Rattle.friction_spread.specs.Lists.{IsCostList};

use crate::deals::offer_cost;
use crate::fills::fill;
use crate::first::{costs_in, work_of};
use crate::flat::FlatGround;
use crate::ground::limit_of;
use crate::lists::CostList;
use crate::reaches::{rows_above, rows_below};
use layer_tiles::{Cell, Extent, NoMemory, Value};
use least_costs::Queue;
use std::alloc::Global;

/// The least costs within some rows of a map, by paths that stay in these rows and those that were taken in beside them.
#[derive(Drop)]
pub struct CostBand {
    /// How many rows above were taken in.
    above: u32,
    rows: u32,
    /// Of all rows, those taken in too.
    costs: Vec<u64>,
}

impl CostBand {
    /// How many rows above were taken in.
    pub fn above(&self) -> u32
        ensures { result ≡ self.now.above }
    {
        self.above
    }

    /// How many rows it has, without those that were taken in.
    pub fn rows(&self) -> u32
        ensures { result ≡ self.now.rows }
    {
        self.rows
    }

    /// The costs of all rows, those taken in too; above the limit where there is none.
    pub fn costs(&self) -> &[u64]
        ensures { result.now ≡ self.now.costs.items }
    {
        &self.costs
    }
}

/// The least costs within the rows `first` to before `end` of a map, whose sources and frictions are given whole; rows beside them may
/// be taken in. The limit is the greatest cost that counts, and no more than a cell holds.
///
/// # Errors
///
/// `NoMemory` alone.
pub fn costs_of_band(
    alloc: Global,
    extent: Extent,
    sources: &[Cell],
    friction: &[Cell],
    limit: Value,
    first: u32,
    end: u32,
) -> Result<CostBand, NoMemory>
    requires sources { length sources.now ≡ cells_in extent }
    requires friction { length friction.now ≡ cells_in extent }
    requires limit { (pos 0 ≤ℤ limit) × (limit ≤ℤ pos greatest_value) }
    requires rows { (first < end) × (end ≤ extent.rows) }
    ensures { IfOk result (IsCostBand (ground_of extent sources.now friction.now (nat_abs limit)) first end) }
{
    let whole = FlatGround::new(extent, sources, friction, limit_of(limit));
    let above = rows_above(&whole, first, end);
    let below = rows_below(&whole, first, end);
    let costs = costs_in(alloc, &whole.band(first - above, end + below))?;
    Ok(CostBand {
        above,
        rows: end - first,
        costs,
    })
}

/// The least costs of a map that had none, from those of its bands, top to bottom.
///
/// # Errors
///
/// `NoMemory` alone.
pub fn spread_of_bands(
    alloc: Global,
    extent: Extent,
    sources: &[Cell],
    friction: &[Cell],
    limit: Value,
    bands: &[CostBand],
) -> Result<CostList, NoMemory>
    requires sources { length sources.now ≡ cells_in extent }
    requires friction { length friction.now ≡ cells_in extent }
    requires limit { (pos 0 ≤ℤ limit) × (limit ≤ℤ pos greatest_value) }
    requires bands { AreCostBands (ground_of extent sources.now friction.now (nat_abs limit)) 0 bands.now }
    ensures { IfOk result (IsCostList (ground_of extent sources.now friction.now (nat_abs limit))) }
{
    let ground = FlatGround::new(extent, sources, friction, limit_of(limit));
    let costs = costs_of_bands(alloc, &ground, bands)?;
    let worked = work_of(&ground, &costs);
    Ok(CostList {
        limit: ground.limit(),
        costs,
        worked,
    })
}

/// The least costs of a map, from those of its bands.
fn costs_of_bands(
    alloc: Global,
    ground: &FlatGround<'_>,
    bands: &[CostBand],
) -> Result<Vec<u64>, NoMemory>
    requires { AreCostBands ground.now 0 bands.now }
    ensures count { IfOk result (λ costs. length costs.items ≡ cells_in ground.now.size) }
    ensures least { IfOk result (λ costs. (i : ℕ) → IsLeastIn (net_of ground.now) i (costs_of ground.now costs.items i)) }
{
    let mut queue = Queue::new(alloc);
    let mut costs = join(alloc, ground, bands, &mut queue)?;
    fill(ground, &mut costs, &mut queue)?;
    Ok(costs)
}

/// The costs of all bands, one below the other.
fn join(
    alloc: Global,
    ground: &FlatGround<'_>,
    bands: &[CostBand],
    queue: &mut Queue,
) -> Result<Vec<u64>, NoMemory>
    requires bands { AreCostBands ground.now 0 bands.now }
    ensures { IfOk result (λ costs. AreCostsTo ground.now ground.now.size.rows costs.items queue.new) }
{
    let mut costs = Vec::with_capacity(alloc, ground.extent().cells() as usize)?;
    let mut first = 0;
    for band in bands {
        first = join_band(ground, band, first, &mut costs, queue)?;
    }
    Ok(costs)
}

/// One more band below. Gives the row where it ends.
fn join_band(
    ground: &FlatGround<'_>,
    band: &CostBand,
    first: u32,
    costs: &mut Vec<u64>,
    queue: &mut Queue,
) -> Result<u32, NoMemory>
    requires band { IsCostBand ground.now first (first + band.now.rows) band.now }
    requires above { AreCostsTo ground.now first costs.old.items queue.old }
    ensures end { IfOk result (λ end. end ≡ first + band.now.rows) }
    ensures joined { IfOk result (λ end. AreCostsTo ground.now end costs.new.items queue.new) }
{
    let columns = ground.extent().columns();
    let end = first + band.rows;
    let start = band.above * columns;
    let past = start + band.rows * columns;
    costs.extend_from_slice(&band.costs[start as usize..past as usize])?;
    push_seams(ground, costs, queue, first, end)?;
    Ok(end)
}

/// The rows of a band that lie beside another band come into the queue.
fn push_seams(
    ground: &FlatGround<'_>,
    costs: &[u64],
    queue: &mut Queue,
    first: u32,
    end: u32,
) -> Result<(), NoMemory>
    requires rows { (first < end) × (end ≤ ground.now.size.rows) }
    requires count { length costs.now ≡ end * ground.now.size.columns }
    ensures kept { OnOk result (IsKept queue.old queue.new) }
    ensures queued { OnOk result ((c : ℕ) → IsAtSeam ground.now.size first end c → costs_of ground.now costs.now c < suc ground.now.limit → Contains queue.new (costs_of ground.now costs.now c, c)) }
{
    let rows = ground.extent().rows();
    push_beside(ground, costs, queue, first, first > 0)?;
    push_beside(ground, costs, queue, end - 1, end < rows)?;
    Ok(())
}

/// A row comes into the queue if another band lies beside it.
fn push_beside(
    ground: &FlatGround<'_>,
    costs: &[u64],
    queue: &mut Queue,
    row: u32,
    beside: bool,
) -> Result<(), NoMemory>
    requires row { row < ground.now.size.rows }
    requires count { (row + 1) * ground.now.size.columns ≤ length costs.now }
    ensures kept { OnOk result (IsKept queue.old queue.new) }
    ensures queued { OnOk result (beside ≡ true → (c : ℕ) → row_of ground.now.size c ≡ row → costs_of ground.now costs.now c < suc ground.now.limit → Contains queue.new (costs_of ground.now costs.now c, c)) }
{
    if beside {
        push_row(ground, costs, queue, row)?;
    }
    Ok(())
}

/// The places of a row that have a cost come into the queue.
fn push_row(
    ground: &FlatGround<'_>,
    costs: &[u64],
    queue: &mut Queue,
    row: u32,
) -> Result<(), NoMemory>
    requires row { row < ground.now.size.rows }
    requires count { (row + 1) * ground.now.size.columns ≤ length costs.now }
    ensures kept { OnOk result (IsKept queue.old queue.new) }
    ensures queued { OnOk result ((c : ℕ) → row_of ground.now.size c ≡ row → costs_of ground.now costs.now c < suc ground.now.limit → Contains queue.new (costs_of ground.now costs.now c, c)) }
{
    let columns = ground.extent().columns();
    let start = row * columns;
    let top = ground.top();
    for at in start..start + columns {
        offer_cost(queue, costs[at as usize], top, at)?;
    }
    Ok(())
}
