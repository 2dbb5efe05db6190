//! What an edit of a large map reads.
use crate::trials::Step::{Loads, Reads, Shows, Takes};
use crate::trials::{Step, tried};
use std::test::Fail;

/// A paint of one cell damages a tile of each of two layers of 1,024, of which one changes, and reads no more than two tiles may be read for.
const PAINT: [Step<'static>; 5] = [
    Loads("L", 0),
    Takes("new A 0", 1024, 1024),
    Takes("B = FocalMean of A", 1024, 1024),
    Reads("paint A 500 500 500 500 1", 1, 2, 128),
    Shows("B", 499 * 1024 + 499, 0),
];

#[test]
fn one_worker_reads_two_tiles(rt: HostRuntime) -> Result<(), Fail> {
    tried(&rt, 1024, 1024, 1, &PAINT)
}

#[test]
fn eight_workers_read_two_tiles(rt: HostRuntime) -> Result<(), Fail> {
    tried(&rt, 1024, 1024, 8, &PAINT)
}
