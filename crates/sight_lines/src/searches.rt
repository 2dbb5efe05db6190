//! The search for viewers, one row of tiles after another.
ghost use Rattle.std.specs.Prelude.{◌≡◌, ℕ, ◌+◌, ◌*◌, ◌<◌, ◌≤◌, ◌++◌, [], ◌∷◌, List, length, ℤ, filter, IfOk};
ghost use Rattle.map_nums.specs.Grids.{cells_in};
ghost use Rattle.layer_tiles.specs.Tiles.{tiles_in, tiles_down, tiles_across, tile_of};
ghost use Rattle.layer_tiles.specs.Tallies.{TallyState, RisesBy};
ghost use Rattle.layer_tiles.specs.Runs.{run_length};
ghost use Rattle.sight_lines.specs.Found.{IsTaken, IsFound, is_between};
ghost use Rattle.sight_lines.specs.Searches.{IsKnown, IsSlot, AreSlots, looks_below, band_start};

use crate::viewers::{add_cells, add_pair};
use layer_tiles::{Change, Extent, NoMemory, Tally, Value, Window};
use std::alloc::Global;

/// Adds the viewers of an operand after the edit, and gives how many there are. Looks at all tiles, or at the touched ones
/// where the viewers from before are known.
pub(crate) fn search<M: Tally>(
    alloc: Global,
    all: bool,
    kept: &[(u32, Value)],
    of: &Change<'_>,
    pairs: &mut Vec<(u32, Value)>,
    tally: &mut M,
) -> Result<u32, NoMemory>
    requires empty { pairs.old.items ≡ [] }
    requires known { IsKnown all of.now kept.now }
    requires few { length kept.now ≤ 64 }
    ensures found { IfOk result (λ count. IsFound of.now.cells (cells_in of.now.size) pairs.new.items count) }
    ensures looks { RisesBy (looks_below all of.now.touched (tiles_in of.now.size)) 0 (M.counts tally.old) (M.counts tally.new) }
{
    let extent = of.extent();
    let down = extent.tiles_down();
    let mut count = 0;
    for band in 0..down {
        let slots = lend(alloc, all, of, band, tally)?;
        count = add_band(&slots, kept, of, band, pairs, count)?;
    }
    Ok(count)
}

/// Lends those tiles of a row of them that are looked at.
fn lend<'a, M: Tally>(
    alloc: Global,
    all: bool,
    of: &Change<'a>,
    band: u32,
    tally: &mut M,
) -> Result<Vec<Option<Window<'a>>>, NoMemory>
    requires band { band < tiles_down of.now.size }
    ensures slots { IfOk result (λ slots. (kept : List (ℕ × ℤ)) → IsKnown all of.now kept → AreSlots kept of.now band slots.items) }
    ensures looks { (first : TallyState) → RisesBy (looks_below all of.now.touched (band * tiles_across of.now.size)) 0 first (M.counts tally.old) → RisesBy (looks_below all of.now.touched ((band + 1) * tiles_across of.now.size)) 0 first (M.counts tally.new) }
{
    let extent = of.extent();
    let across = extent.tiles_across();
    let mut slots = Vec::new(alloc);
    for k in 0..across {
        slots.push(slot(all, of, band * across + k, tally))?;
    }
    Ok(slots)
}

/// Lends a tile that is looked at.
fn slot<'a, M: Tally>(all: bool, of: &Change<'a>, tile: u32, tally: &mut M) -> Option<Window<'a>>
    requires within { tile < tiles_in of.now.size }
    ensures slot { (kept : List (ℕ × ℤ)) → IsKnown all of.now kept → IsSlot kept of.now tile result }
    ensures looks { (first : TallyState) → RisesBy (looks_below all of.now.touched tile) 0 first (M.counts tally.old) → RisesBy (looks_below all of.now.touched (tile + 1)) 0 first (M.counts tally.new) }
{
    let _extent = of.extent();
    if all {
        return Some(of.window(tile, 0, tally));
    }
    if of.touched(tile) {
        return Some(of.window(tile, 0, tally));
    }
    None
}

/// Adds the viewers of a row of tiles.
fn add_band(
    slots: &[Option<Window<'_>>],
    kept: &[(u32, Value)],
    of: &Change<'_>,
    band: u32,
    pairs: &mut Vec<(u32, Value)>,
    count: u32,
) -> Result<u32, NoMemory>
    requires band { band < tiles_down of.now.size }
    requires slots { AreSlots kept.now of.now band slots.now }
    requires few { length kept.now ≤ 64 }
    requires found { IsFound of.now.cells (band_start of.now.size band) pairs.old.items count }
    ensures { IfOk result (λ found. IsFound of.now.cells (band_start of.now.size (band + 1)) pairs.new.items found) }
{
    let extent = of.extent();
    let columns = extent.columns();
    let end = extent.rows().min(band * 32 + 32) * columns;
    let mut at = band * 32 * columns;
    let mut found = count;
    while at < end {
        let slot = &slots[(at % columns / 32) as usize];
        found = add_run(slot, kept, of, at, pairs, found)?;
        at += run_length(extent, at);
    }
    Ok(found)
}

/// Adds the viewers from a place on, to the end of its row within its tile.
fn add_run(
    slot: &Option<Window<'_>>,
    kept: &[(u32, Value)],
    of: &Change<'_>,
    at: u32,
    pairs: &mut Vec<(u32, Value)>,
    count: u32,
) -> Result<u32, NoMemory>
    requires within { at < cells_in of.now.size }
    requires slot { IsSlot kept.now of.now (tile_of of.now.size at) slot.now }
    requires few { length kept.now ≤ 64 }
    requires found { IsFound of.now.cells at pairs.old.items count }
    ensures { IfOk result (λ found. IsFound of.now.cells (at + run_length of.now.size at) pairs.new.items found) }
{
    let extent = of.extent();
    match slot {
        Some(window) => add_cells(window.run(at), at, pairs, count),
        None => add_kept(kept, at, at + run_length(extent, at), pairs, count),
    }
}

/// How many cells lie together from one on, to the end of its row within its tile.
#[tactic(auto, unfolding(layer_tiles::specs::Runs::run_length))]
fn run_length(extent: Extent, at: u32) -> u32
    requires { at < cells_in extent }
    ensures length { result ≡ run_length extent at }
    ensures few { result ≤ 32 }
{
    let columns = extent.columns();
    let column = at % columns;
    (32 - column % 32).min(columns - column)
}

/// Adds those viewers of a list that stand from one place on and below another.
fn add_kept(
    kept: &[(u32, Value)],
    from: u32,
    to: u32,
    pairs: &mut Vec<(u32, Value)>,
    count: u32,
) -> Result<u32, NoMemory>
    requires few { length kept.now ≤ 64 }
    requires count { count ≤ 1500000 }
    ensures { IfOk result (λ found. (all : List (ℕ × ℤ)) → IsTaken all pairs.old.items count → IsTaken (all ++ filter (is_between from to) kept.now) pairs.new.items found) }
{
    let mut found = count;
    for k in 0..kept.len() {
        let (at, value) = kept[k];
        found = add_between(at, value, from, to, pairs, found)?;
    }
    Ok(found)
}

/// Adds a viewer that stands from one place on and below another.
fn add_between(
    at: u32,
    value: Value,
    from: u32,
    to: u32,
    pairs: &mut Vec<(u32, Value)>,
    count: u32,
) -> Result<u32, NoMemory>
    requires { count ≤ 1500064 }
    ensures at_most { IfOk result (λ found. found ≤ count + 1) }
    ensures found { IfOk result (λ found. (all : List (ℕ × ℤ)) (z : ℤ) → value ≡ z → IsTaken all pairs.old.items count → IsTaken (all ++ filter (is_between from to) ((at, z) ∷ [])) pairs.new.items found) }
{
    if at < from || to <= at {
        return Ok(count);
    }
    add_pair(at, value, pairs, count)
}
