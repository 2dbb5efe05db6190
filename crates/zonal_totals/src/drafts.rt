//! The changes of the counts of a book, from the tiles that an edit's patches hold.
ghost use Rattle.std.specs.Prelude.{◌≡◌, ℕ, ◌+◌, ◌*◌, ◌^◌, ◌<◌, ◌≤◌, pos, ◌+ℤ◌, Some, OnOk, IfOk, IsSome};
ghost use Rattle.map_nums.specs.Grids.{cells_in};
ghost use Rattle.layer_tiles.specs.Tiles.{tile_size, tiles_in};
ghost use Rattle.layer_tiles.specs.Tallies.{RisesBy};
ghost use Rattle.zonal_totals.specs.Drafts.{IsNextHeld, least_of, value_shift, tile_shift};
ghost use Rattle.zonal_totals.specs.Looks.{tiles_held};
ghost use Rattle.zonal_totals.specs.declared.pairs.Pair.{Pair};
ghost use Rattle.zonal_totals.specs.Steps.{net_in, weight};
ghost use Rattle.zonal_totals.specs.Sums.{sum_to, place_of};

use crate::rows::{compare_values, compare_zones};
use crate::steps::Step;
use layer_tiles::{Cell, Change, Tally};
use map_nums::{NoMemory, Value};
use std::alloc::Global;

/// The changes of both lists of a book.
#[derive(Drop)]
pub(crate) struct Draft {
    pub values: Vec<Step>,
    pub tiles: Vec<Step>,
}

/// The cell that holds the number of a tile.
pub(crate) fn number_cell(tile: u32) -> Cell
    requires { tile < 2 ^ 30 }
    ensures { result ≡ Some (pos tile) }
{
    match Cell::of(tile as Value) {
        Some(cell) => cell,
        None => unreachable!(),
    }
}

/// The changes of a tile, with four looks.
fn compare_tile<M: Tally>(
    draft: &mut Draft,
    values: &Change<'_>,
    zones: &Change<'_>,
    tile: u32,
    tally: &mut M,
) -> Result<(), NoMemory>
    requires size { values.now.size ≡ zones.now.size }
    requires values_before { IsSome values.now.before }
    requires zones_before { IsSome zones.now.before }
    requires within { tile < tiles_in zones.now.size }
    requires value_room { weight draft.old.values.items + 2 * tile_size zones.now.size tile < 2 ^ 31 }
    requires tile_room { weight draft.old.tiles.items + 2 * tile_size zones.now.size tile < 2 ^ 31 }
    ensures values { OnOk result ((p : Pair) → net_in draft.new.values.items p ≡ net_in draft.old.values.items p
        +ℤ sum_to (λ k. value_shift values.now zones.now p (place_of zones.now.size tile k)) (tile_size zones.now.size tile)) }
    ensures tiles { OnOk result ((p : Pair) → net_in draft.new.tiles.items p ≡ net_in draft.old.tiles.items p
        +ℤ sum_to (λ k. tile_shift zones.now p (place_of zones.now.size tile k)) (tile_size zones.now.size tile)) }
    ensures value_weight { OnOk result (weight draft.new.values.items ≤ weight draft.old.values.items + 2 * tile_size zones.now.size tile) }
    ensures tile_weight { OnOk result (weight draft.new.tiles.items ≤ weight draft.old.tiles.items + 2 * tile_size zones.now.size tile) }
    ensures looks { RisesBy 4 0 (M.counts tally.old) (M.counts tally.new) }
{
    let place = zones.extent().place(tile);
    let height = place.height;
    let width = place.width as usize;
    let keys = [number_cell(tile); 32];
    let old_zones = zones.view_before(tile, tally);
    let old_values = values.view_before(tile, tally);
    let new_zones = zones.view(tile, tally);
    let new_values = values.view(tile, tally);
    compare_values(
        &mut draft.values,
        &old_zones,
        &old_values,
        &new_zones,
        &new_values,
        height,
        width,
    )?;
    compare_zones(
        &mut draft.tiles,
        &old_zones,
        &new_zones,
        &keys,
        height,
        width,
    )
}

/// The lesser of two numbers that are there.
fn least(one: Option<u32>, other: Option<u32>) -> Option<u32>
    ensures { result ≡ least_of one other }
{
    match (one, other) {
        (Some(m), Some(n)) => { if n < m { Some(n) } else { Some(m) } }
        (Some(m), None) => Some(m),
        (None, n) => n,
    }
}

/// The first tile from a number on that either patch holds.
fn next_tile(values: &Change<'_>, zones: &Change<'_>, from: u32) -> Option<u32>
    requires { values.now.size ≡ zones.now.size }
    ensures { IsNextHeld values.now zones.now from result }
{
    let _values_within = values.extent();
    let _zones_within = zones.extent();
    least(values.next_touched(from), zones.next_touched(from))
}

/// The changes of an edit, from the tiles that either patch holds, with four looks at each.
pub(crate) fn drafted<M: Tally>(
    alloc: Global,
    values: &Change<'_>,
    zones: &Change<'_>,
    tally: &mut M,
) -> Result<Draft, NoMemory>
    requires size { values.now.size ≡ zones.now.size }
    requires values_before { IsSome values.now.before }
    requires zones_before { IsSome zones.now.before }
    ensures values { IfOk result (λ d. (p : Pair) → net_in d.values.items p ≡ sum_to (value_shift values.now zones.now p) (cells_in zones.now.size)) }
    ensures tiles { IfOk result (λ d. (p : Pair) → net_in d.tiles.items p ≡ sum_to (tile_shift zones.now p) (cells_in zones.now.size)) }
    ensures value_weight { IfOk result (λ d. weight d.values.items < 2 ^ 31) }
    ensures tile_weight { IfOk result (λ d. weight d.tiles.items < 2 ^ 31) }
    ensures looks { RisesBy (4 * tiles_held values.now zones.now) 0 (M.counts tally.old) (M.counts tally.new) }
{
    let _values_stay = values.extent();
    let _zones_stay = zones.extent();
    let mut draft = Draft {
        values: Vec::new(alloc),
        tiles: Vec::new(alloc),
    };
    let mut from = 0;
    while let Some(tile) = next_tile(values, zones, from) {
        compare_tile(&mut draft, values, zones, tile, tally)?;
        from = tile + 1;
    }
    Ok(draft)
}
