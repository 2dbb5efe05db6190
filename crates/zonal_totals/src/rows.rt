//! The changes of the rows of a tile.
ghost use Rattle.std.specs.Prelude.{◌≡◌, ℕ, ◌+◌, ◌*◌, ◌^◌, ◌<◌, ◌≤◌, ◌+ℤ◌, ◌-ℤ◌, length, OnOk, IsTrue};
ghost use Rattle.map_nums.specs.Grids.{cell_at};
ghost use Rattle.zonal_totals.specs.declared.pairs.Pair.{Pair};
ghost use Rattle.zonal_totals.specs.Steps.{net_in, weight};
ghost use Rattle.zonal_totals.specs.Sums.{sum_to, pair_at, held, shift, HasShape, IsOfOneCell};

use crate::pairs::Pair;
use crate::steps::{Step, put};
use layer_tiles::{Cell, TileView};
use map_nums::NoMemory;

/// The pair of two cells, where neither is null.
pub(crate) fn pair_of(zone: &Cell, key: &Cell) -> Option<Pair>
    ensures { result ≡ pair_at zone.now key.now }
{
    match (zone.get(), key.get()) {
        (Some(zone), Some(key)) => Some(Pair { zone, key }),
        _ => None,
    }
}

fn same_pairs(one: &Option<Pair>, other: &Option<Pair>) -> bool
    ensures { IsTrue result → one.now ≡ other.now }
{
    match (one, other) {
        (None, None) => true,
        (Some(a), Some(b)) => a.is(b),
        _ => false,
    }
}

/// One more place has the pair.
pub(crate) fn enter(steps: &mut Vec<Step>, pair: &Option<Pair>) -> Result<(), NoMemory>
    requires { weight steps.old.items + 1 < 2 ^ 31 }
    ensures net { OnOk result ((p : Pair) → net_in steps.new.items p ≡ net_in steps.old.items p +ℤ held p pair.now) }
    ensures weight { OnOk result (weight steps.new.items ≤ weight steps.old.items + 1) }
{
    if let Some(pair) = pair {
        put(steps, Step { pair: *pair, by: 1 })?;
    }
    Ok(())
}

/// One place less has the pair.
fn leave(steps: &mut Vec<Step>, pair: &Option<Pair>) -> Result<(), NoMemory>
    requires { weight steps.old.items + 1 < 2 ^ 31 }
    ensures net { OnOk result ((p : Pair) → net_in steps.new.items p ≡ net_in steps.old.items p -ℤ held p pair.now) }
    ensures weight { OnOk result (weight steps.new.items ≤ weight steps.old.items + 1) }
{
    if let Some(pair) = pair {
        put(
            steps,
            Step {
                pair: *pair,
                by: -1,
            },
        )?;
    }
    Ok(())
}

/// A place has another pair than before, or the same.
fn change(
    steps: &mut Vec<Step>,
    before: &Option<Pair>,
    after: &Option<Pair>,
) -> Result<(), NoMemory>
    requires { weight steps.old.items + 2 < 2 ^ 31 }
    ensures net { OnOk result ((p : Pair) → net_in steps.new.items p ≡ net_in steps.old.items p +ℤ (held p after.now -ℤ held p before.now)) }
    ensures weight { OnOk result (weight steps.new.items ≤ weight steps.old.items + 2) }
{
    if same_pairs(before, after) {
        return Ok(());
    }
    leave(steps, before)?;
    enter(steps, after)
}

/// The changes of a row of places.
fn compare_row(
    steps: &mut Vec<Step>,
    zones_before: &[Cell],
    keys_before: &[Cell],
    zones: &[Cell],
    keys: &[Cell],
) -> Result<(), NoMemory>
    requires zones_before { length zones_before.now ≡ length zones.now }
    requires keys_before { length keys_before.now ≡ length zones.now }
    requires keys { length keys.now ≡ length zones.now }
    requires room { weight steps.old.items + 2 * length zones.now < 2 ^ 31 }
    ensures net { OnOk result ((p : Pair) → net_in steps.new.items p ≡ net_in steps.old.items p
        +ℤ sum_to (λ c. shift p (cell_at zones_before.now c) (cell_at keys_before.now c) (cell_at zones.now c) (cell_at keys.now c)) (length zones.now)) }
    ensures weight { OnOk result (weight steps.new.items ≤ weight steps.old.items + 2 * length zones.now) }
{
    for c in 0..zones.len() {
        let before = pair_of(&zones_before[c], &keys_before[c]);
        let after = pair_of(&zones[c], &keys[c]);
        change(steps, &before, &after)?;
    }
    Ok(())
}

/// A row of a tile.
pub(crate) fn row_of<'a>(view: &'a TileView<'_>, r: u32, height: u32, width: usize) -> &'a [Cell]
    requires row { r < height }
    requires shape { HasShape height width view.now }
    ensures width { length result.now ≡ width }
    ensures cells { (c : ℕ) → c < width → cell_at result.now c ≡ cell_at view.now.cells (r * width + c) }
{
    view.row(r)
}

/// How a tile changes the counts of values.
pub(crate) fn compare_values(
    steps: &mut Vec<Step>,
    zones_before: &TileView<'_>,
    values_before: &TileView<'_>,
    zones: &TileView<'_>,
    values: &TileView<'_>,
    height: u32,
    width: usize,
) -> Result<(), NoMemory>
    requires zones_before { HasShape height width zones_before.now }
    requires values_before { HasShape height width values_before.now }
    requires zones { HasShape height width zones.now }
    requires values { HasShape height width values.now }
    requires room { weight steps.old.items + 2 * (height * width) < 2 ^ 31 }
    ensures net { OnOk result ((p : Pair) → net_in steps.new.items p ≡ net_in steps.old.items p
        +ℤ sum_to (λ k. shift p (cell_at zones_before.now.cells k) (cell_at values_before.now.cells k) (cell_at zones.now.cells k) (cell_at values.now.cells k)) (height * width)) }
    ensures weight { OnOk result (weight steps.new.items ≤ weight steps.old.items + 2 * (height * width)) }
{
    for r in 0..height {
        let old_zones = row_of(zones_before, r, height, width);
        let old_values = row_of(values_before, r, height, width);
        let new_zones = row_of(zones, r, height, width);
        let new_values = row_of(values, r, height, width);
        compare_row(steps, old_zones, old_values, new_zones, new_values)?;
    }
    Ok(())
}

/// How a tile changes the counts of its own number. Each cell of `keys` is that number.
pub(crate) fn compare_zones(
    steps: &mut Vec<Step>,
    zones_before: &TileView<'_>,
    zones: &TileView<'_>,
    keys: &[Cell; 32],
    height: u32,
    width: usize,
) -> Result<(), NoMemory>
    requires zones_before { HasShape height width zones_before.now }
    requires zones { HasShape height width zones.now }
    requires keys { IsOfOneCell keys.now }
    requires most { width ≤ 32 }
    requires room { weight steps.old.items + 2 * (height * width) < 2 ^ 31 }
    ensures net { OnOk result ((p : Pair) → net_in steps.new.items p ≡ net_in steps.old.items p
        +ℤ sum_to (λ k. shift p (cell_at zones_before.now.cells k) (cell_at keys.now 0) (cell_at zones.now.cells k) (cell_at keys.now 0)) (height * width)) }
    ensures weight { OnOk result (weight steps.new.items ≤ weight steps.old.items + 2 * (height * width)) }
{
    for r in 0..height {
        let old_zones = row_of(zones_before, r, height, width);
        let new_zones = row_of(zones, r, height, width);
        let numbers = &keys[..width];
        compare_row(steps, old_zones, numbers, new_zones, numbers)?;
    }
    Ok(())
}
