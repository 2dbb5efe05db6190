//! Stamps of layers of four tiles.
use crate::trials::Step::{Loads, Stamps, Takes};
use crate::trials::tried;
use std::test::Fail;

#[test]
fn a_paint_stamps_the_tiles_that_change(rt: HostRuntime) -> Result<(), Fail> {
    let steps = [
        Loads("A", 1),
        Takes("B = LocalSum of A and 3", 4, 4),
        Takes("paint A 1 1 1 1 9", 2, 2),
        Takes("paint A 33 33 33 33 9", 2, 2),
        Stamps("A", &[3, 1, 1, 4]),
        Stamps("B", &[3, 2, 2, 4]),
    ];
    tried(&rt, 33, 33, 1, &steps)
}

#[test]
fn tiles_that_stay_keep_their_stamps(rt: HostRuntime) -> Result<(), Fail> {
    let steps = [
        Loads("A", 1),
        Takes("B = LocalMaximum of A and 9", 4, 4),
        Takes("paint A 33 33 33 33 9", 1, 2),
        // the corner of all four tiles, of which the last is as it was
        Takes("paint A 32 32 33 33 9", 3, 7),
        Stamps("A", &[4, 4, 4, 3]),
        Stamps("B", &[2, 2, 2, 2]),
    ];
    tried(&rt, 33, 33, 1, &steps)
}
