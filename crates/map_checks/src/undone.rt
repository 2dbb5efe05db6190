//! Edits that are taken back; another program gave what the replies say.
use crate::plays::Step::{Line, Repeat, TakenBack};
use crate::plays::{SQUARE, plays};
use map_machine::Kind;
use std::test::Fail;

#[test]
fn a_paint_and_a_statement_are_taken_back(rt: HostRuntime) -> Result<(), Fail> {
    let steps = [
        Line(
            "B = LocalSum of A and 3",
            "ok 2 changed 1 evaluated 1 worked 0\n",
        ),
        Line("paint A 1 1 1 1 5", "ok 3 changed 2 evaluated 2 worked 0\n"),
        Line("undo", "ok 4 changed 2 evaluated 2 worked 0\n"),
        Line("value B 1 1", "value B 1 1 4\n"),
        Line("stamps A", "stamps A 1 1\n4\n"),
        Line("undo", "ok 5 changed 0 evaluated 0 worked 0\n"),
        Line("value B 1 1", "undefined B: B\n"),
        Line("undo", "refused nothing\n"),
        Line("undo A", "refused syntax 6\n"),
    ];
    plays(&rt, "A", SQUARE, &steps)
}

#[test]
fn a_drop_is_taken_back(rt: HostRuntime) -> Result<(), Fail> {
    let steps = [
        Line(
            "B = LocalSum of A and 3",
            "ok 2 changed 1 evaluated 1 worked 0\n",
        ),
        Line(
            "label A 1 dry land",
            "ok 3 changed 0 evaluated 0 worked 0\n",
        ),
        Line("drop A", "ok 4 changed 0 evaluated 0 worked 0\n"),
        Line("undo", "ok 5 changed 2 evaluated 2 worked 0\n"),
        Line("list", "list 2\nsource A\nB = LocalSum of A and 3\n"),
        Line(
            "legend A",
            "legend A 9\n1 1 1 dry land\n2 1 2\n3 1 3\n4 1 4\n5 1 5\n6 1 6\n7 1 7\n8 1 8\n9 1 9\n",
        ),
    ];
    plays(&rt, "A", SQUARE, &steps)
}

/// The last of sixty-four undos is accepted, and the next isn't.
#[test]
fn sixty_four_edits_can_be_taken_back(rt: HostRuntime) -> Result<(), Fail> {
    let steps = [
        Repeat(65, "label A 1 wet", Kind::Accepted),
        Repeat(64, "undo", Kind::Accepted),
        Line("undo", "refused nothing\n"),
    ];
    plays(&rt, "A", SQUARE, &steps)
}

/// What is asked before an edit, and after it was taken back.
const ASKED: [&str; 13] = [
    "list",
    "grid A",
    "grid C",
    "grid S",
    "grid T",
    "grid Z",
    "grid E",
    "grid V",
    "grid P",
    "legend A",
    "legend C",
    "show C",
    "table A S",
];

#[test]
fn each_kind_of_edit_is_taken_back(rt: HostRuntime) -> Result<(), Fail> {
    let steps = [
        TakenBack("new C 10", &ASKED),
        TakenBack("S = LocalSum of A and C", &ASKED),
        TakenBack(
            "procedure Twice(P, K): x = LocalSum of P and K; result = LocalProduct of x and 2",
            &ASKED,
        ),
        TakenBack("T = Twice(S, 3)", &ASKED),
        TakenBack("Z = ZonalSum of S within A", &ASKED),
        TakenBack("new E null", &ASKED),
        TakenBack("V = FocalSum of E radiating on C within 3", &ASKED),
        TakenBack("P = FocalProximity of E spreading in C within 1000", &ASKED),
        TakenBack("paint E 2 2 2 3 7", &ASKED),
        TakenBack("paint A 1 1 3 2 2", &ASKED),
        TakenBack("S = LocalMaximum of A and C", &ASKED),
        TakenBack("T = Twice(C, 4)", &ASKED),
        TakenBack("label A 2 wet", &ASKED),
        TakenBack("label C 10 rock", &ASKED),
        TakenBack("symbol C 10 ~", &ASKED),
        TakenBack("label C 10 sand", &ASKED),
        TakenBack("label A 2 dry", &ASKED),
        TakenBack("symbol C 10 +", &ASKED),
        TakenBack("drop S", &ASKED),
        TakenBack("drop C", &ASKED),
        TakenBack("drop T", &ASKED),
        TakenBack("drop A", &ASKED),
        Repeat(22, "undo", Kind::Accepted),
        Line("undo", "refused nothing\n"),
        Line("list", "list 1\nsource A\n"),
        Line("legend C", "undefined C: C\n"),
    ];
    plays(&rt, "A", SQUARE, &steps)
}
