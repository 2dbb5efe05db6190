//! Branches that are tried; another program gave what the replies say.
use crate::plays::Step::Line;
use crate::plays::{CELL, SQUARE, plays};
use std::test::Fail;

#[test]
fn two_branches_are_tried(rt: HostRuntime) -> Result<(), Fail> {
    let steps = [
        Line(
            "B = LocalSum of A and 3",
            "ok 2 changed 1 evaluated 1 worked 0\n",
        ),
        Line(
            "branch paint A 1 1 1 1 5; value B 1 1 branch C = LocalSum of B and B; value C 3 3; drop Z end",
            "branch 1\nok 3 changed 2 evaluated 2 worked 0\nvalue B 1 1 8\nbranch 2\nok 3 changed 1 evaluated 1 worked 0\nvalue C 3 3 24\nrefused unknown Z\n",
        ),
        Line("value B 1 1", "value B 1 1 4\n"),
        Line("value C 3 3", "undefined C: C\n"),
        Line("undo", "ok 3 changed 0 evaluated 0 worked 0\n"),
        Line("branch end", "refused syntax 8\n"),
        Line("branch value A 1 1", "refused syntax 19\n"),
    ];
    plays(&rt, "A", SQUARE, &steps)
}

/// Sixteen branches on a map of one cell, and not seventeen.
#[test]
fn sixteen_branches_are_tried(rt: HostRuntime) -> Result<(), Fail> {
    let steps = [
        Line(
            "branch new B 1 branch new B 2 branch new B 3 branch new B 4 branch new B 5 branch new B 6 branch new B 7 branch new B 8 branch new B 9 branch new B 10 branch new B 11 branch new B 12 branch new B 13 branch value B 1 1 branch value A 1 1 branch value A 2 1 end",
            "branch 1\nok 2 changed 1 evaluated 1 worked 0\nbranch 2\nok 2 changed 1 evaluated 1 worked 0\nbranch 3\nok 2 changed 1 evaluated 1 worked 0\nbranch 4\nok 2 changed 1 evaluated 1 worked 0\nbranch 5\nok 2 changed 1 evaluated 1 worked 0\nbranch 6\nok 2 changed 1 evaluated 1 worked 0\nbranch 7\nok 2 changed 1 evaluated 1 worked 0\nbranch 8\nok 2 changed 1 evaluated 1 worked 0\nbranch 9\nok 2 changed 1 evaluated 1 worked 0\nbranch 10\nok 2 changed 1 evaluated 1 worked 0\nbranch 11\nok 2 changed 1 evaluated 1 worked 0\nbranch 12\nok 2 changed 1 evaluated 1 worked 0\nbranch 13\nok 2 changed 1 evaluated 1 worked 0\nbranch 14\nundefined B: B\nbranch 15\nvalue A 1 1 7\nbranch 16\nvalue A 2 1 outside\n",
        ),
        Line(
            "branch drop A branch drop A branch drop A branch drop A branch drop A branch drop A branch drop A branch drop A branch drop A branch drop A branch drop A branch drop A branch drop A branch drop A branch drop A branch drop A branch drop A end",
            "refused syntax 225\n",
        ),
    ];
    plays(&rt, "A", CELL, &steps)
}
