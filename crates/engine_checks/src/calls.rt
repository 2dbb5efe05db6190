//! Statements that call a procedure.
use crate::trials::Step::{Lacks, Loads, Procedures, Refuses, Shows, Takes, TakesEach};
use crate::trials::{Said, tried};
use live_engine::Which;
use std::test::Fail;

/// A procedure of two statements.
const TWICE: &str =
    "procedure Twice(P, K): x = LocalSum of P and K; result = LocalProduct of x and 2";

#[test]
fn a_call_stands_for_the_statements_of_its_procedure(rt: HostRuntime) -> Result<(), Fail> {
    let steps = [
        Loads("A", 1),
        Takes(TWICE, 0, 0),
        Takes("B = Twice(A, 3)", 2, 2),
        Takes("paint A 3 3 3 3 5", 3, 3),
        Shows("B.x", 0, 4),
        Shows("B.x", 8, 8),
        Shows("B", 8, 16),
        Refuses("B = Twice(A)", Said::Terms(1, 2)),
        Refuses("B = Nope(A)", Said::NoProcedure),
        Refuses(TWICE, Said::Exists),
        Procedures(1),
    ];
    tried(&rt, 3, 3, 1, &steps)
}

#[test]
fn a_call_is_rewritten(rt: HostRuntime) -> Result<(), Fail> {
    let steps = [
        Loads("A", 1),
        Takes(TWICE, 0, 0),
        Takes("B = Twice(A, 3)", 2, 2),
        Takes("C = LocalSum of B and 1", 1, 1),
        Takes("B = Twice(A, 4)", 3, 3),
        Shows("B.x", 0, 5),
        Shows("C", 0, 11),
        Takes("B = LocalSum of A and 1", 2, 2),
        Lacks("B.x", "B.x"),
        Shows("C", 0, 3),
        Takes("B = Twice(Q, 3)", 0, 0),
        Lacks("B.x", "Q"),
        Lacks("C", "Q"),
    ];
    tried(&rt, 3, 3, 1, &steps)
}

#[test]
fn a_cycle_through_two_statements(rt: HostRuntime) -> Result<(), Fail> {
    let steps = [
        Takes(TWICE, 0, 0),
        Takes("B = Twice(C, 1)", 0, 0),
        Refuses("C = LocalSum of B and 1", Said::Cycle),
        Refuses("C = Twice(C, 1)", Said::Cycle),
        Takes("new C 7", 3, 3),
        Shows("B", 0, 16),
    ];
    tried(&rt, 1, 1, 1, &steps)
}

#[test]
fn the_statements_of_calls_are_limited(rt: HostRuntime) -> Result<(), Fail> {
    let steps = [
        Takes(TWICE, 0, 0),
        TakesEach("A", " = Twice(Q, 1)", 31, 0),
        Takes("B = LocalSum of Q and 1", 0, 0),
        Refuses("C = Twice(Q, 1)", Said::Limit(Which::Statements)),
        Takes("B = Twice(Q, 1)", 0, 0),
        Refuses("C = LocalSum of Q and 1", Said::Limit(Which::Statements)),
    ];
    tried(&rt, 1, 1, 1, &steps)
}

/// Procedures of 4, 16, 64 and 65 flat statements.
const FOURFOLD: [&str; 4] = [
    "procedure P(T): a = LocalSum of T and 1; b = LocalSum of T and 1; c = LocalSum of T and 1; result = LocalSum of T and 1",
    "procedure Q(T): a = P(T); b = P(T); c = P(T); result = P(T)",
    "procedure R(T): a = Q(T); b = Q(T); c = Q(T); result = Q(T)",
    "procedure S(T): a = R(T); result = LocalSum of T and 1",
];

#[test]
fn a_call_of_too_many_statements_is_told_as_that(rt: HostRuntime) -> Result<(), Fail> {
    let steps = [
        Takes(FOURFOLD[0], 0, 0),
        Takes(FOURFOLD[1], 0, 0),
        Takes(FOURFOLD[2], 0, 0),
        Takes(FOURFOLD[3], 0, 0),
        Refuses("B = S(A)", Said::Limit(Which::Statements)),
        Takes("B = R(A)", 0, 0),
        Refuses("B = S(A)", Said::Limit(Which::Statements)),
    ];
    tried(&rt, 1, 1, 1, &steps)
}
