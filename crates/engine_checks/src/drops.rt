//! Names that go, while others stay.
use crate::trials::Step::{Lacks, Loads, Marks, Shows, Stamps, Takes};
use crate::trials::tried;
use std::test::Fail;

#[test]
fn statements_follow_the_sources_that_stay(rt: HostRuntime) -> Result<(), Fail> {
    let steps = [
        Loads("A", 1),
        Takes("new C 10", 1, 1),
        Takes("new E 100", 1, 1),
        Takes("S = LocalSum of A and 1", 1, 1),
        Takes("T = LocalSum of C and 2", 1, 1),
        Takes("U = LocalSum of A and E", 1, 1),
        Takes("drop C", 0, 0),
        Lacks("T", "C"),
        Takes("paint E 2 2 2 2 200", 2, 2),
        Shows("U", 4, 201),
        Takes("paint A 1 1 1 1 5", 3, 3),
        Shows("U", 0, 105),
        Shows("S", 0, 6),
        Stamps("E", &[8]),
        Stamps("A", &[9]),
        Takes("new C 20", 2, 2),
        Shows("T", 0, 22),
    ];
    tried(&rt, 3, 3, 1, &steps)
}

#[test]
fn labels_and_symbols_go_with_their_name(rt: HostRuntime) -> Result<(), Fail> {
    let steps = [
        Loads("A", 1),
        Takes("new C 10", 1, 1),
        Takes("label A 1 wet", 0, 0),
        Takes("label C 10 dry", 0, 0),
        Takes("symbol C 10 ~", 0, 0),
        Marks(2, 1),
        Takes("drop C", 0, 0),
        Marks(1, 0),
    ];
    tried(&rt, 3, 3, 1, &steps)
}
