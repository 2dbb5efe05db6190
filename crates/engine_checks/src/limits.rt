//! Of what there would be too many.
use crate::trials::Step::{Loads, Refuses, Shows, Takes, TakesEach};
use crate::trials::{Said, tried};
use live_engine::Which;
use std::test::Fail;

#[test]
fn too_many_sources(rt: HostRuntime) -> Result<(), Fail> {
    let steps = [
        TakesEach("new S", " 1", 32, 1),
        Refuses("new T 1", Said::Limit(Which::Sources)),
        Takes("drop S31", 0, 0),
        Takes("new T 1", 1, 1),
    ];
    tried(&rt, 1, 1, 1, &steps)
}

#[test]
fn too_many_zonal_statements(rt: HostRuntime) -> Result<(), Fail> {
    let steps = [
        TakesEach("Z", " = ZonalSum of Q within Q", 12, 0),
        Refuses("Y = ZonalMean of Q within 1", Said::Limit(Which::Zonals)),
        Takes("Z0 = ZonalMean of Q within 1", 0, 0),
        Takes("Z0 = LocalSum of Q and 1", 0, 0),
        Takes("Y = ZonalMean of Q within 1", 0, 0),
    ];
    tried(&rt, 1, 1, 1, &steps)
}

#[test]
fn too_many_nearest_sources(rt: HostRuntime) -> Result<(), Fail> {
    let steps = [
        TakesEach("N", " = FocalNeighbor of Q", 8, 0),
        Refuses(
            "Y = FocalNeighbor of Q within 1",
            Said::Limit(Which::Neighbors),
        ),
        Takes("N0 = FocalNeighbor of Q within 1", 0, 0),
        Takes("N0 = LocalSum of Q and 1", 0, 0),
        Takes("Y = FocalNeighbor of Q within 1", 0, 0),
    ];
    tried(&rt, 1, 1, 1, &steps)
}

#[test]
fn too_many_viewers(rt: HostRuntime) -> Result<(), Fail> {
    let steps = [
        Loads("A", 1),
        Refuses("B = FocalSum of A radiating on 0", Said::Viewers(65)),
        Takes("paint A 1 1 1 1 null", 1, 1),
        Takes("B = FocalSum of A radiating on 0", 1, 1),
        Shows("B", 0, 64),
        Refuses("paint A 1 1 1 1 1", Said::Viewers(65)),
    ];
    tried(&rt, 5, 13, 1, &steps)
}
