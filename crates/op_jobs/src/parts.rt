//! Parts of the rows of a map.
ghost use Rattle.std.specs.Prelude.{◌≡◌, ◌<◌, ◌≤◌};
ghost use Rattle.op_jobs.specs.Parts.{part_start};

use layer_tiles::Extent;
use statement_parser::Op;

/// So many cells are found faster at a time than more: what is found of them stays near the processor.
const PART_CELLS: u32 = 200_000;

/// The costs of several workers are in parts of up to so many cells, since one alone puts them right from each seam.
const SHARED_PART_CELLS: u32 = 400_000;

/// How many parts the rows of a map have: of up to so many cells, as many for each worker, each of 64 rows or more.
fn parts_by(extent: Extent, workers: u32, cells: u32) -> u32
    requires { 0 < cells }
    ensures { result ≤ extent.rows }
{
    let hands = workers.max(1);
    let each = extent.cells() / cells / hands + 1;
    each.saturating_mul(hands).min(extent.rows() / 64)
}

/// Into how many parts the work on a layer that was not there is cut. Fewer than two mean that it isn't cut: one worker labels all
/// regions at once faster than band by band.
pub(crate) fn parts_of(op: &Op, extent: Extent, workers: u32) -> u32
    ensures some { result ≤ extent.rows }
{
    match op {
        Op::Region { .. } if workers < 2 => 0,
        Op::Spread { .. } | Op::Neighbor { .. } if workers > 1 => parts_by(
            extent,
            workers,
            SHARED_PART_CELLS,
        ),
        Op::Zonal { .. } if workers > 1 => parts_by(extent, workers, PART_CELLS).min(workers),
        _ => parts_by(extent, workers, PART_CELLS),
    }
}

/// The row at which a part begins.
pub(crate) fn part_start(rows: u32, parts: u32, k: u64) -> u32
    requires some { 0 < parts }
    requires within { k ≤ parts }
    ensures start { result ≡ part_start rows parts k }
    ensures most { result ≤ rows }
{
    (k * u64::from(rows) / u64::from(parts)) as u32
}
