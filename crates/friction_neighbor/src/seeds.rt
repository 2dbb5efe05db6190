//! The sources that cost nothing, in ascending order of their numbers.
ghost use Rattle.std.specs.Prelude.{◌≡◌, ◌<◌, ◌+◌, IfOk, OnOk};
ghost use Rattle.std.specs.Ordering.{int_cmp};
ghost use Rattle.map_nums.specs.Grids.{cells_in};
ghost use Rattle.friction_neighbor.specs.Seeds.{AreSeedsTo, AreSeeds};

use crate::fields::CostField;
use layer_tiles::{Cell, NoMemory, Value};
use std::alloc::Global;
use std::cmp::Ordering;

/// A source that costs nothing, and its number.
#[derive(Clone, Copy)]
pub struct Seed {
    pub number: Value,
    /// The number as a cell.
    pub value: Cell,
    pub at: u32,
}

/// All sources that cost nothing, in ascending order of their numbers.
pub fn seeds_of(alloc: Global, field: &CostField<'_>) -> Result<Vec<Seed>, NoMemory>
    ensures { IfOk result (λ seeds. AreSeeds field.now seeds.items) }
{
    let mut seeds = all_seeds(alloc, field)?;
    seeds.sort_unstable_by(|a, b| compare(a, b));
    Ok(seeds)
}

/// The order of two seeds by their numbers.
fn compare(a: &Seed, b: &Seed) -> Ordering
    ensures { result ≡ int_cmp a.now.number b.now.number }
{
    a.number.cmp(&b.number)
}

/// All sources that cost nothing, in the order of their places.
fn all_seeds(alloc: Global, field: &CostField<'_>) -> Result<Vec<Seed>, NoMemory>
    ensures { IfOk result (λ seeds. AreSeedsTo field.now (cells_in field.now.ground.size) seeds.items) }
{
    let mut seeds = Vec::new(alloc);
    for at in 0..field.extent().cells() {
        add_seed(field, at, &mut seeds)?;
    }
    Ok(seeds)
}

/// Adds a place where it is a source that costs nothing.
fn add_seed(field: &CostField<'_>, at: u32, seeds: &mut Vec<Seed>) -> Result<(), NoMemory>
    requires within { at < cells_in field.now.ground.size }
    requires seeds { AreSeedsTo field.now at seeds.old.items }
    ensures { OnOk result (AreSeedsTo field.now (at + 1) seeds.new.items) }
{
    if field.cost(at) > 0 {
        return Ok(());
    }
    let _extent = field.extent();
    let value = field.source(at);
    if let Some(number) = value.get() {
        seeds.push(Seed { number, value, at })?;
    }
    Ok(())
}
