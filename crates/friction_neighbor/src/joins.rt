//! The least costs of a map that had none and the numbers of the nearest sources, from those of its bands.
//!
//! A place of a band keeps its number where its cost and those of the places near are the band's, and no other band lies beside its row. The
//! others come into a queue, and are given their least values in the order of the costs.
ghost use Rattle.std.specs.Prelude.{◌≡◌, ◌<◌, ◌≤◌, ◌≤ℤ◌, ◌+◌, pos, nat_abs, map, length, IfOk, OnOk};
ghost use Rattle.map_nums.specs.Grids.{cells_in};
ghost use Rattle.map_nums.specs.Numbers.{greatest_value};
ghost use Rattle.layer_tiles.specs.Cells.{AreCells};
ghost use Rattle.friction_spread.specs.Bands.{ground_of, IsCostBand};
ghost use Rattle.friction_neighbor.specs.Bands.{IsOwnBand, AreNearestBands, AreBandsOf, IsNearestList};
ghost use Rattle.friction_neighbor.specs.Joins.{AreReadyTo, AreBandMarked, AreMovedMarked};
ghost use Rattle.friction_neighbor.specs.Puts.{ArePut};
ghost use Rattle.friction_neighbor.specs.Repairs.{AreWanted};

use crate::bands::NearestBand;
use crate::fields::CostField;
use crate::list_puts::{put_line, put_round};
use crate::list_settle::settle;
use crate::lists::NearestList;
use friction_spread::{CostBand, limit_of, spread_of_bands};
use layer_tiles::{Cell, Extent, NoMemory, Value};
use least_costs::Queue;
use std::alloc::Global;
use tile_work::PlaceSet;

/// The least costs of a map that had none and the numbers of the nearest sources, from those of its bands, top to bottom.
///
/// # Errors
///
/// `NoMemory` alone.
pub fn nearest_of_bands(
    alloc: Global,
    extent: Extent,
    sources: &[Cell],
    friction: &[Cell],
    limit: Value,
    bands: Vec<NearestBand>,
) -> Result<NearestList, NoMemory>
    requires sources { length sources.now ≡ cells_in extent }
    requires friction { length friction.now ≡ cells_in extent }
    requires limit { (pos 0 ≤ℤ limit) × (limit ≤ℤ pos greatest_value) }
    requires bands { AreNearestBands (ground_of extent sources.now friction.now (nat_abs limit)) 0 bands.items }
    ensures { IfOk result (IsNearestList (ground_of extent sources.now friction.now (nat_abs limit))) }
{
    let (bands, parts) = split(alloc, bands)?;
    let costs = spread_of_bands(alloc, extent, sources, friction, limit, &bands)?;
    let field = CostField::new(extent, sources, friction, limit_of(limit), costs.costs());
    let _extent = field.extent();
    let values = values_of_bands(alloc, &field, &bands, &parts)?;
    Ok(NearestList { costs, values })
}

/// The costs of bands, and their values.
fn split(
    alloc: Global,
    bands: Vec<NearestBand>,
) -> Result<(Vec<CostBand>, Vec<Vec<Cell>>), NoMemory>
    ensures costs { IfOk result (λ r. r.0.items ≡ map (λ b. b.costs) bands.items) }
    ensures values { IfOk result (λ r. r.1.items ≡ map (λ b. b.values) bands.items) }
{
    let count = bands.len();
    let mut costs = Vec::with_capacity(alloc, count)?;
    let mut values = Vec::with_capacity(alloc, count)?;
    for band in bands {
        costs.push(band.costs)?;
        values.push(band.values)?;
    }
    Ok((costs, values))
}

/// The values of a map, from those of its bands, where the least costs are right already.
fn values_of_bands(
    alloc: Global,
    field: &CostField<'_>,
    bands: &[CostBand],
    parts: &[Vec<Cell>],
) -> Result<Vec<Cell>, NoMemory>
    requires bands { AreBandsOf field.now.ground 0 bands.now parts.now }
    ensures count { IfOk result (λ values. length values.items ≡ cells_in field.now.ground.size) }
    ensures cells { IfOk result (λ values. AreCells values.items) }
    ensures right { IfOk result (λ values. AreWanted field.now values.items) }
{
    let extent = field.extent();
    let mut values = Vec::with_capacity(alloc, extent.cells() as usize)?;
    let mut queue = Queue::new(alloc);
    let mut seen = PlaceSet::new(alloc, extent)?;
    let mut first = 0;
    for k in 0..bands.len() {
        first = take_band(
            field,
            &bands[k],
            &parts[k],
            first,
            &mut values,
            &mut queue,
            &mut seen,
        )?;
    }
    settle(field, &mut values, &mut queue, &mut seen)?;
    Ok(values)
}

/// Adds the values of one more band below; the places that may have another value in the map come into the queue. Gives the row where the
/// band ends.
fn take_band(
    field: &CostField<'_>,
    band: &CostBand,
    part: &[Cell],
    first: u32,
    values: &mut Vec<Cell>,
    queue: &mut Queue,
    seen: &mut PlaceSet,
) -> Result<u32, NoMemory>
    requires band { IsOwnBand field.now.ground first (first + band.now.rows) band.now part.now }
    requires ready { AreReadyTo field.now first values.old.items queue.old seen.old }
    ensures end { IfOk result (λ end. end ≡ first + band.now.rows) }
    ensures ready { IfOk result (λ end. AreReadyTo field.now end values.new.items queue.new seen.new) }
{
    let columns = field.extent().columns();
    let start = band.above() * columns;
    let past = start + band.rows() * columns;
    values.extend_from_slice(&part[start as usize..past as usize])?;
    mark_band(field, band, first, queue, seen)?;
    Ok(first + band.rows())
}

/// The places of a band that may have another value in the map come into the queue: those of rows beside another band, and those near places
/// of another cost.
fn mark_band(
    field: &CostField<'_>,
    band: &CostBand,
    first: u32,
    queue: &mut Queue,
    seen: &mut PlaceSet,
) -> Result<(), NoMemory>
    requires band { IsCostBand field.now.ground first (first + band.now.rows) band.now }
    requires size { seen.old.size ≡ field.now.ground.size }
    ensures put { OnOk result (ArePut field.now queue.old seen.old queue.new seen.new) }
    ensures marked { OnOk result (AreBandMarked field.now first (first + band.now.rows) band.now seen.new) }
{
    let _places = seen.extent();
    let end = first + band.rows();
    if first > 0 {
        put_line(field, queue, seen, first)?;
    }
    if end < field.extent().rows() {
        put_line(field, queue, seen, end - 1)?;
    }
    mark_moved(field, band, first, queue, seen)
}

/// The places near those of a band that have another cost in the map come into the queue.
fn mark_moved(
    field: &CostField<'_>,
    band: &CostBand,
    first: u32,
    queue: &mut Queue,
    seen: &mut PlaceSet,
) -> Result<(), NoMemory>
    requires band { IsCostBand field.now.ground first (first + band.now.rows) band.now }
    requires size { seen.old.size ≡ field.now.ground.size }
    ensures put { OnOk result (ArePut field.now queue.old seen.old queue.new seen.new) }
    ensures marked { OnOk result (AreMovedMarked field.now first band.now seen.new) }
{
    let columns = field.extent().columns();
    let up = first * columns;
    let skipped = band.above() * columns;
    let costs = band.costs();
    let top = field.limit() + 1;
    for k in 0..band.rows() * columns {
        let at = up + k;
        if field.cost(at) != costs[(skipped + k) as usize].min(top) {
            put_round(field, queue, seen, 0, field.spot(at))?;
        }
    }
    Ok(())
}
