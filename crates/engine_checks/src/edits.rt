//! Edits one after another, accepted and refused.
use crate::trials::Step::{
    Lacks, Loads, Names, Number, Refuses, RefusesLoad, Shows, Stamps, Takes,
};
use crate::trials::{Said, Stands, tried};
use std::test::Fail;

#[test]
fn each_call_changes_the_map(rt: HostRuntime) -> Result<(), Fail> {
    let steps = [
        Takes("new A 1", 1, 1),
        Takes("B = LocalSum of A and 3", 1, 1),
        Takes("paint A 3 3 3 3 5", 2, 2),
        Shows("B", 8, 8),
        Takes("paint A 3 3 3 3 5", 0, 1),
        Takes("drop A", 0, 0),
        Lacks("B", "A"),
        Lacks("A", "A"),
        Takes("new A 2", 2, 2),
        Shows("B", 8, 5),
    ];
    tried(&rt, 3, 3, 1, &steps)
}

#[test]
fn a_refused_line_changes_nothing(rt: HostRuntime) -> Result<(), Fail> {
    let steps = [
        Loads("A", 1),
        Takes("B = LocalSum of A and 3", 1, 1),
        Refuses("paint Z 1 1 1 1 1", Said::Unknown),
        Refuses("paint B 1 1 1 1 1", Said::Derived),
        Refuses("paint A 1 1 4 1 0", Said::Size(3, 3)),
        Refuses("A = LocalSum of B and 1", Said::Exists),
        Refuses("new B 1", Said::Exists),
        Shows("B", 8, 4),
        RefusesLoad("D", 1, 33, Said::Size(3, 3)),
        Number(2),
        Names(0, Stands::Source),
        Names(1, Stands::Statement),
        Names(2, Stands::Nothing),
    ];
    tried(&rt, 3, 3, 1, &steps)
}

#[test]
fn an_overflow_that_is_found_late_leaves_all_as_it_was(rt: HostRuntime) -> Result<(), Fail> {
    let steps = [
        Loads("A", 1),
        Takes("B = LocalProduct of A and 50000", 2, 2),
        Takes("C = LocalProduct of B and 500000000", 2, 2),
        Refuses("paint A 1 32 1 33 41", Said::Overflow(1, 32)),
        Shows("C", 31, 25_000_000_000_000),
        Shows("A", 32, 1),
        Stamps("B", &[2, 2]),
        Takes("paint A 1 32 1 33 40", 6, 6),
        Shows("C", 32, 1_000_000_000_000_000),
    ];
    tried(&rt, 1, 33, 8, &steps)
}
