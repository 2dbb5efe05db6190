//! About what the jobs of a statement take, in microseconds, as `bench/` tells it.

use crate::beside::Beside;
use crate::kernels::Kernel;
use crate::lists::LayerList;
use crate::own::Own;
use map_nums::Stat;
use map_waves::{Kept, WORTH_A_WORKER};

/// A layer that was not there is worth a second worker from so many tiles on.
const SEVERAL: u64 = 4;

/// What a tile takes of an operation that only goes through its operands' cells.
const PLAINEST: u64 = 4;

/// What a repair takes of a layer that one job repairs, for each tile in which an operand changed.
const REPAIR: u64 = 128;

/// What all jobs of a statement take that is repaired from what is kept, or made anew where nothing is.
pub(crate) fn weight_of(own: &Own, kept: Option<&Kept<Beside>>) -> u64 {
    match own {
        Own::Tiles(jobs) => {
            let tiles = jobs.tiles.len() as u64;
            tiles_weight(&jobs.kernel, tiles, kept.is_none())
        }
        Own::Whole(job) => {
            let touched = u64::from(job.touched.count());
            match kept {
                None => REPAIR * touched,
                Some(kept) => repair_weight(kept.repaired, touched),
            }
        }
    }
}

/// What so many tiles take. Four of the plainest are done before a thread has begun, so they are worth none.
fn tiles_weight(kernel: &Kernel, tiles: u64, is_fresh: bool) -> u64 {
    let each = tile_weight(kernel);
    let weight = each.saturating_mul(tiles);
    if is_fresh && tiles >= SEVERAL && each > PLAINEST {
        return weight.max(WORTH_A_WORKER);
    }
    weight
}

/// What one job takes that repairs a layer: half a microsecond for each unit of work of the repair before it, or by the tiles in
/// which an operand changed, beyond the first. What a first repair takes isn't known.
fn repair_weight(repaired: Option<u64>, touched: u64) -> u64 {
    match repaired {
        None => WORTH_A_WORKER,
        Some(work) => (20 + work / 2).max(REPAIR.saturating_mul(touched.saturating_sub(1))),
    }
}

/// What a tile takes.
fn tile_weight(kernel: &Kernel) -> u64 {
    match kernel {
        Kernel::Focal(stat, radius) => focal_weight(*stat, *radius),
        Kernel::Shape(_) | Kernel::Direction => 20,
        Kernel::Sight(..) => 256,
        Kernel::Fresh(fresh) => list_weight(&fresh.list),
        Kernel::Local(_) | Kernel::Zonal(..) => PLAINEST,
    }
}

/// What a tile of a layer takes that is there place by place.
fn list_weight(list: &LayerList) -> u64 {
    match list {
        LayerList::Costs(_) | LayerList::Nearest(_) => 16,
        LayerList::Flow(_) => 24,
        LayerList::Labels(_) => PLAINEST,
    }
}

/// What a tile of a Focal operation takes: it grows with the radius where runs of cells are taken together, with its square where
/// each neighbour is looked at.
fn focal_weight(stat: Stat, radius: Option<u32>) -> u64 {
    let radius = match radius {
        None => 1,
        Some(radius) => u64::from(radius),
    };
    match stat {
        Stat::Sum | Stat::Mean | Stat::Maximum | Stat::Minimum => 8 + 3 * radius,
        _ => radius
            .saturating_mul(radius)
            .saturating_mul(16)
            .saturating_add(32),
    }
}
