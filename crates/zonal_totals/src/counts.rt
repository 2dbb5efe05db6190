//! What tiles count.
ghost use Rattle.std.specs.Prelude.{◌≡◌, ◌+◌, ◌-◌, ◌*◌, ◌^◌, ◌<◌, ◌≤◌, pos, ◌+ℤ◌, length, OnOk, IfOk};
ghost use Rattle.map_nums.specs.Grids.{cell_at};
ghost use Rattle.layer_tiles.specs.Tiles.{tile_size, tiles_in};
ghost use Rattle.layer_tiles.specs.Tallies.{RisesBy};
ghost use Rattle.zonal_totals.specs.declared.pairs.Pair.{Pair};
ghost use Rattle.zonal_totals.specs.Books.{pairs_in, tile_number};
ghost use Rattle.zonal_totals.specs.Ranges.{zone_within};
ghost use Rattle.zonal_totals.specs.Running.{steps_of};
ghost use Rattle.zonal_totals.specs.Steps.{net_in, weight};
ghost use Rattle.zonal_totals.specs.Sums.{sum_to, pair_at, held, HasShape, IsOfOneCell};

use crate::drafts::{Draft, number_cell};
use crate::rows::{pair_of, row_of};
use crate::running_counts::{RunningCounts, enter};
use layer_tiles::{Cell, Change, Tally, TileView};
use map_nums::NoMemory;
use std::alloc::Global;

/// The counts of both lists of a book, while they rise.
#[derive(Drop)]
struct Counting {
    values: RunningCounts,
    tiles: RunningCounts,
}

/// What a row of places counts.
fn count_row(counts: &mut RunningCounts, zones: &[Cell], keys: &[Cell]) -> Result<(), NoMemory>
    requires keys { length keys.now ≡ length zones.now }
    requires room { weight (steps_of counts.old) + length zones.now < 2 ^ 31 }
    ensures net { OnOk result ((p : Pair) → net_in (steps_of counts.new) p ≡ net_in (steps_of counts.old) p
        +ℤ sum_to (λ c. held p (pair_at (cell_at zones.now c) (cell_at keys.now c))) (length zones.now)) }
    ensures weight { OnOk result (weight (steps_of counts.new) ≤ weight (steps_of counts.old) + length zones.now) }
{
    for c in 0..zones.len() {
        let pair = pair_of(&zones[c], &keys[c]);
        enter(counts, &pair)?;
    }
    Ok(())
}

/// What a tile counts of values.
fn count_values(
    counts: &mut RunningCounts,
    zones: &TileView<'_>,
    values: &TileView<'_>,
    height: u32,
    width: usize,
) -> Result<(), NoMemory>
    requires zones { HasShape height width zones.now }
    requires values { HasShape height width values.now }
    requires room { weight (steps_of counts.old) + height * width < 2 ^ 31 }
    ensures net { OnOk result ((p : Pair) → net_in (steps_of counts.new) p ≡ net_in (steps_of counts.old) p
        +ℤ sum_to (λ k. held p (pair_at (cell_at zones.now.cells k) (cell_at values.now.cells k))) (height * width)) }
    ensures weight { OnOk result (weight (steps_of counts.new) ≤ weight (steps_of counts.old) + height * width) }
{
    for r in 0..height {
        let row = row_of(zones, r, height, width);
        let keys = row_of(values, r, height, width);
        count_row(counts, row, keys)?;
    }
    Ok(())
}

/// What a tile counts of its own number. Each cell of `keys` is that number.
fn count_zones(
    counts: &mut RunningCounts,
    zones: &TileView<'_>,
    keys: &[Cell; 32],
    height: u32,
    width: usize,
) -> Result<(), NoMemory>
    requires zones { HasShape height width zones.now }
    requires keys { IsOfOneCell keys.now }
    requires most { width ≤ 32 }
    requires room { weight (steps_of counts.old) + height * width < 2 ^ 31 }
    ensures net { OnOk result ((p : Pair) → net_in (steps_of counts.new) p ≡ net_in (steps_of counts.old) p
        +ℤ sum_to (λ k. held p (pair_at (cell_at zones.now.cells k) (cell_at keys.now 0))) (height * width)) }
    ensures weight { OnOk result (weight (steps_of counts.new) ≤ weight (steps_of counts.old) + height * width) }
{
    for r in 0..height {
        let row = row_of(zones, r, height, width);
        let numbers = &keys[..width];
        count_row(counts, row, numbers)?;
    }
    Ok(())
}

/// What a tile counts, with two looks.
fn count_tile<M: Tally>(
    counting: &mut Counting,
    values: &Change<'_>,
    zones: &Change<'_>,
    tile: u32,
    tally: &mut M,
) -> Result<(), NoMemory>
    requires size { values.now.size ≡ zones.now.size }
    requires within { tile < tiles_in zones.now.size }
    requires value_room { weight (steps_of counting.old.values) + tile_size zones.now.size tile < 2 ^ 31 }
    requires tile_room { weight (steps_of counting.old.tiles) + tile_size zones.now.size tile < 2 ^ 31 }
    ensures values { OnOk result ((p : Pair) → net_in (steps_of counting.new.values) p ≡ net_in (steps_of counting.old.values) p
        +ℤ pos (pairs_in zones.now.size (zone_within zones.now.size zones.now.cells tile (tile + 1)) (cell_at values.now.cells) p)) }
    ensures tiles { OnOk result ((p : Pair) → net_in (steps_of counting.new.tiles) p ≡ net_in (steps_of counting.old.tiles) p
        +ℤ pos (pairs_in zones.now.size (zone_within zones.now.size zones.now.cells tile (tile + 1)) (tile_number zones.now.size) p)) }
    ensures value_weight { OnOk result (weight (steps_of counting.new.values) ≤ weight (steps_of counting.old.values) + tile_size zones.now.size tile) }
    ensures tile_weight { OnOk result (weight (steps_of counting.new.tiles) ≤ weight (steps_of counting.old.tiles) + tile_size zones.now.size tile) }
    ensures looks { RisesBy 2 0 (M.counts tally.old) (M.counts tally.new) }
{
    let place = zones.extent().place(tile);
    let height = place.height;
    let width = place.width as usize;
    let keys = [number_cell(tile); 32];
    let new_zones = zones.view(tile, tally);
    let new_values = values.view(tile, tally);
    count_values(&mut counting.values, &new_zones, &new_values, height, width)?;
    count_zones(&mut counting.tiles, &new_zones, &keys, height, width)
}

/// How many slots the counts of tiles have: one tile after another is counted, and has few zones.
const TILE_SLOTS: u32 = 61;

/// How many slots the counts of the values of so many tiles have: a quarter of their cells, up to a prime above 65,536.
fn slots_for(tiles: u32) -> u32 {
    if tiles < 256 { tiles * 256 } else { 65_537 }
}

/// What the tiles from number `first` to before `end` count, with two looks at each.
pub(crate) fn counted<M: Tally>(
    alloc: Global,
    values: &Change<'_>,
    zones: &Change<'_>,
    first: u32,
    end: u32,
    tally: &mut M,
) -> Result<Draft, NoMemory>
    requires size { values.now.size ≡ zones.now.size }
    requires order { first ≤ end }
    requires within { end ≤ tiles_in zones.now.size }
    ensures values { IfOk result (λ d. (p : Pair) → net_in d.values.items p ≡ pos (pairs_in zones.now.size (zone_within zones.now.size zones.now.cells first end) (cell_at values.now.cells) p)) }
    ensures tiles { IfOk result (λ d. (p : Pair) → net_in d.tiles.items p ≡ pos (pairs_in zones.now.size (zone_within zones.now.size zones.now.cells first end) (tile_number zones.now.size) p)) }
    ensures value_weight { IfOk result (λ d. weight d.values.items ≤ 1024 * (end - first)) }
    ensures tile_weight { IfOk result (λ d. weight d.tiles.items ≤ 1024 * (end - first)) }
    ensures looks { RisesBy (2 * (end - first)) 0 (M.counts tally.old) (M.counts tally.new) }
{
    let _size = zones.extent();
    let mut counting = Counting {
        values: RunningCounts::new(alloc, slots_for(end - first))?,
        tiles: RunningCounts::new(alloc, TILE_SLOTS)?,
    };
    for tile in first..end {
        count_tile(&mut counting, values, zones, tile, tally)?;
    }
    let Counting { values, tiles } = counting;
    Ok(Draft {
        values: values.into_steps()?,
        tiles: tiles.into_steps()?,
    })
}
