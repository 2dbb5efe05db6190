//! Focal and Incremental tiles of a map of 1201 by 1201 cells, in memory.
//!
//! The words are the number of rounds, the operation and its radius. An operation is a statistic, a form, or `near`, which only
//! copies each tile's square grown by the radius; a statistic without a radius has the square of three by three. A round makes
//! all tiles of the map and adds up their cells, and what is printed is the sum over all rounds. `bench/focal` tells the time of a
//! cell from two such runs.

ghost use Rattle.std.specs.Prelude.{◌<◌, ◌≤◌, IfSome};
ghost use Rattle.layer_tiles.specs.Tiles.{tiles_in};

use crate::maps::{SIDE, layer_of, number_at, square, sum_of, sum_of_tile, word_at};
use focal_ops::focal_tile;
use incremental_ops::{Shape, shape_tile};
use layer_tiles::{Cell, Change, KernelRefusal, NoMemory, Tile};
use map_nums::{Stat, Value};
use map_outside::Counts;
use near_cells::NearCells;
use std::alloc::Global;

/// What is made of each tile.
#[derive(Clone, Copy)]
enum Work {
    Focal(Stat),
    Incremental(Shape),
    Near,
}

// A cell of waves with noise, one of 37 null.
fn cell(at: u32) -> Cell {
    let mixed = at.wrapping_mul(2_654_435_761) / 4096 % 100_000;
    if mixed % 37 == 0 {
        return Cell::null();
    }
    Cell::of((mixed % 1000 + at / SIDE % 1000) as Value).unwrap_or(Cell::null())
}

// The sum of a tile's cells, a null one counting as 1; where one is out of range, the place of the first such cell.
fn worth(made: Result<Tile, KernelRefusal>) -> Result<i64, NoMemory> {
    match made {
        Ok(tile) => Ok(sum_of_tile(&tile, 1)),
        Err(KernelRefusal::Overflow(at)) => Ok(at as i64),
        Err(KernelRefusal::NoMemory) => Err(NoMemory),
    }
}

// The first and the last cell round a tile.
fn worth_of_near(near: &NearCells) -> i64 {
    let cells = near.cells();
    let first = sum_of(cells.get(..1).unwrap_or(&[]), 1);
    first.wrapping_add(cells.len() as i64)
}

// What becomes of a tile.
fn tile_worth(
    alloc: Global,
    work: Work,
    of: &Change<'_>,
    radius: Option<u32>,
    tile: u32,
) -> Result<i64, NoMemory>
    requires radius { IfSome radius (λ r. r ≤ 32) }
    requires within { tile < tiles_in of.now.size }
{
    let mut tally = Counts::new();
    match work {
        Work::Focal(stat) => worth(focal_tile(alloc, stat, of, radius, tile, &mut tally)),
        Work::Incremental(shape) => worth(shape_tile(alloc, shape, of, tile, &mut tally)),
        Work::Near => {
            let reach = radius.unwrap_or(1);
            let near = NearCells::of_change(alloc, of, tile, reach, &mut tally)?;
            Ok(worth_of_near(&near))
        }
    }
}

// So many rounds of the work.
fn rounds(alloc: Global, task: Task) -> Result<i64, NoMemory> {
    let map = layer_of(alloc, square(SIDE)?, cell)?;
    let change = Change::same(&map);
    let mut total: i64 = 0;
    for _ in 0..task.count {
        for tile in 0..change.extent().tiles() {
            let sum = tile_worth(alloc, task.work, &change, checked(task.radius), tile)?;
            total = total.wrapping_add(sum);
        }
    }
    Ok(total)
}

// A radius that operations take.
fn checked(radius: Option<u32>) -> Option<u32>
    ensures { IfSome result (λ r. r ≤ 32) }
{
    match radius {
        Some(radius) => Some(radius.min(32)),
        None => None,
    }
}

/// What the words ask for.
#[derive(Clone, Copy)]
struct Task {
    count: u32,
    work: Work,
    radius: Option<u32>,
}

// A statistic, a form or a mere copy by its word.
fn work_of(word: &str) -> Work {
    match word {
        "sum" => Work::Focal(Stat::Sum),
        "mean" => Work::Focal(Stat::Mean),
        "maximum" => Work::Focal(Stat::Maximum),
        "minimum" => Work::Focal(Stat::Minimum),
        "median" => Work::Focal(Stat::Median),
        "majority" => Work::Focal(Stat::Majority),
        "minority" => Work::Focal(Stat::Minority),
        "variety" => Work::Focal(Stat::Variety),
        "linkage" => Work::Incremental(Shape::Linkage),
        "gradient" => Work::Incremental(Shape::Gradient),
        "aspect" => Work::Incremental(Shape::Aspect),
        _ => Work::Near,
    }
}

/// What so many rounds add up to.
pub fn measure(alloc: Global, words: &[&str]) -> Option<i64> {
    let task = Task {
        count: number_at(words, 0),
        work: work_of(word_at(words, 1)),
        radius: word_at(words, 2).parse().ok(),
    };
    rounds(alloc, task).ok()
}
