//! The pairs of a zone and a value at the places of two layers.
ghost use Rattle.std.specs.Prelude.{◌≡◌, ◌↔◌, ◌*◌, ◌+◌, ◌<◌, length, map, slice_index_or, IfOk, IsTrue};
ghost use Rattle.std.specs.Ordering.{int_cmp};
ghost use Rattle.layer_tiles.specs.Tiles.{tiles_in};
ghost use Rattle.layer_tiles.specs.Tallies.{RisesBy};
ghost use Rattle.cell_kinds.specs.Counted.{combination_from, same_pair, rank, counted_pairs};
ghost use Rattle.cell_kinds.specs.Runs.{runs_of};

use crate::order;
use crate::rows::all_cells;
use layer_tiles::{Cell, Layer, Tally};
use map_nums::NoMemory;
use std::alloc::Global;
use std::cmp::Ordering;

/// A zone and a value, and the number of places where both stand.
#[derive(Clone, Copy)]
pub struct Combination {
    pub zone: Cell,
    pub value: Cell,
    pub count: usize,
}

/// A zone and a value.
#[derive(Clone, Copy)]
struct Pair {
    zone: Cell,
    value: Cell,
}

/// The pairs that occur in two layers of one extent, by zone and then by value, null first, each with the number of its places. At
/// most 64 looks for each tile of either. With n places it takes time of n log n and at most 48 bytes of memory for each.
pub fn combinations_of<M: Tally>(
    alloc: Global,
    zones: &Layer,
    values: &Layer,
    tally: &mut M,
) -> Result<Vec<Combination>, NoMemory>
    requires { values.now.size ≡ zones.now.size }
    ensures pairs { IfOk result (λ pairs. pairs.items ≡ counted_pairs zones.now.cells values.now.cells) }
    ensures looks { RisesBy (64 * (tiles_in zones.now.size + tiles_in values.now.size)) 0 (M.counts tally.old) (M.counts tally.new) }
{
    let first = all_cells(alloc, zones, tally)?;
    let second = all_cells(alloc, values, tally)?;
    let mut pairs = paired(alloc, &first, &second)?;
    pairs.sort_unstable_by(|a, b| compare(a, b));
    runs(alloc, &pairs)
}

/// The pairs at the places of two lists.
fn paired(alloc: Global, zones: &[Cell], values: &[Cell]) -> Result<Vec<Pair>, NoMemory>
    requires { length values.now ≡ length zones.now }
    ensures zones { IfOk result (λ pairs. map (λ p. p.zone) pairs.items ≡ zones.now) }
    ensures values { IfOk result (λ pairs. map (λ p. p.value) pairs.items ≡ values.now) }
{
    let mut pairs = Vec::with_capacity(alloc, zones.len())?;
    for (i, zone) in zones.iter().enumerate() {
        pairs.push(Pair {
            zone: *zone,
            value: values[i],
        })?;
    }
    Ok(pairs)
}

fn compare(a: &Pair, b: &Pair) -> Ordering
    ensures { result ≡ int_cmp (rank a.now) (rank b.now) }
{
    let (zone, other_zone) = (order::rank(&a.zone), order::rank(&b.zone));
    let (value, other_value) = (order::rank(&a.value), order::rank(&b.value));
    if zone < other_zone || (zone == other_zone && value < other_value) {
        return Ordering::Less;
    }
    if other_zone < zone || other_value < value {
        return Ordering::Greater;
    }
    Ordering::Equal
}

/// The runs of equal pairs.
fn runs(alloc: Global, pairs: &[Pair]) -> Result<Vec<Combination>, NoMemory>
    ensures { IfOk result (λ all. all.items ≡ map combination_from (runs_of same_pair pairs.now)) }
{
    let mut combinations = Vec::new(alloc);
    let mut count = 0;
    for (i, pair) in pairs.iter().enumerate() {
        count += 1;
        if !goes_on(pairs, i) {
            combinations.push(Combination {
                zone: pair.zone,
                value: pair.value,
                count,
            })?;
            count = 0;
        }
    }
    Ok(combinations)
}

/// Whether the next pair is the same.
fn goes_on(pairs: &[Pair], i: usize) -> bool
    requires { i < length pairs.now }
    ensures { (d : Pair) → IsTrue result ↔ (i + 1 < length pairs.now) × (slice_index_or pairs.now (i + 1) d ≡ slice_index_or pairs.now i d) }
{
    if i + 1 == pairs.len() {
        return false;
    }
    let (next, now) = (pairs[i + 1], pairs[i]);
    next.zone.same(&now.zone) && next.value.same(&now.value)
}
