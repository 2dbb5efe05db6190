//! Sessions byte for byte; another program gave what they say.
use crate::plays::Step::{Line, Load, Silent};
use crate::plays::{CELL, SQUARE, answers, plays};
use layer_tiles::{Cell, Extent, Layer};
use map_machine::Kind;
use map_outside::Counts;
use map_session::{Reply, Session};
use map_words::Name;
use std::alloc::Global;
use std::process::Abort;
use std::test::Fail;
use std::thread::Threads;
use tile_workers::{Crew, NoGate};

#[test]
fn cycle_through_two_statements(rt: HostRuntime) -> Result<(), Fail> {
    let steps = [
        Line(
            "A = LocalSum of B and 1",
            "ok 2 changed 0 evaluated 0 worked 0\n",
        ),
        Line("B = LocalSum of A and 1", "refused cycle B\n"),
        Line("B = LocalSum of B and 1", "refused cycle B\n"),
        Line("list", "list 2\nsource S\nA = LocalSum of B and 1\n"),
    ];
    plays(&rt, "S", CELL, &steps)
}

#[test]
fn missing_existing_unknown(rt: HostRuntime) -> Result<(), Fail> {
    let steps = [
        Line(
            "C = LocalSum of A and Q",
            "ok 2 changed 0 evaluated 0 worked 0\n",
        ),
        Line("value C 1 1", "undefined C: Q\n"),
        Line("A = LocalSum of A and 1", "refused exists A\n"),
        Line("drop Q", "refused unknown Q\n"),
        Line("label Z 1 x", "refused unknown Z\n"),
        Line("legend Q", "undefined Q: Q\n"),
    ];
    plays(&rt, "A", SQUARE, &steps)
}

#[test]
fn statement_before_its_operand(rt: HostRuntime) -> Result<(), Fail> {
    let steps = [
        Line(
            "B = LocalSum of C and 1",
            "ok 2 changed 0 evaluated 0 worked 0\n",
        ),
        Line("grid B", "undefined B: C\n"),
        Line("new C 1", "ok 3 changed 2 evaluated 2 worked 0\n"),
        Line("value B 1 1", "value B 1 1 2\n"),
        Line("drop C", "ok 4 changed 0 evaluated 0 worked 0\n"),
        Line("value B 1 1", "undefined B: C\n"),
        Line("value C 1 1", "undefined C: C\n"),
        Line("new C 1", "ok 5 changed 2 evaluated 2 worked 0\n"),
        Line("stamps B", "stamps B 1 1\n5\n"),
        Line("value B 2 1", "value B 2 1 outside\n"),
    ];
    plays(&rt, "A", CELL, &steps)
}

#[test]
fn a_region_splits(rt: HostRuntime) -> Result<(), Fail> {
    let grid = "ncols 5\nnrows 1\nxllcorner 0\nyllcorner 0\ncellsize 1\n7 7 7 7 7\n";
    let steps = [
        Line(
            "L = FocalInsularity of A",
            "ok 2 changed 1 evaluated 1 worked 10\n",
        ),
        Line(
            "paint A 1 3 1 3 null",
            "ok 3 changed 2 evaluated 2 worked 5\n",
        ),
        Line(
            "grid L",
            "ncols 5\nnrows 1\nxllcorner 0\nyllcorner 0\ncellsize 1\nNODATA_value -1000000000000001\n1 1 -1000000000000001 4 4\n",
        ),
    ];
    plays(&rt, "A", grid, &steps)
}

#[test]
fn refused_lines(rt: HostRuntime) -> Result<(), Fail> {
    let steps = [
        Line("foo", "refused syntax 4\n"),
        Line("C = LocalSun of A and 1", "refused operation 5\n"),
        Line("C = LocalSum of A and", "refused syntax 22\n"),
        Line("paint A 0 1 1 1 1", "refused number 9\n"),
        Line("paint A 1 1 4 1 0", "refused size 3 3\n"),
        Line("symbol A 1 ab", "refused syntax 13\n"),
        Line(
            "B = LocalSum of A and 1000000000000000",
            "refused overflow B 1 1\n",
        ),
        Line("", ""),
        Line("# note", ""),
    ];
    plays(&rt, "A", SQUARE, &steps)
}

/// Two rows with a null, a negative number, a small one twice and one of two digits.
const SEVERAL: &str =
    "ncols 3\nnrows 2\nxllcorner 0\nyllcorner 0\ncellsize 1\n1 1 2\n-9999 12 -5\n";

#[test]
fn labels_symbols_and_displays(rt: HostRuntime) -> Result<(), Fail> {
    let steps = [
        Line(
            "label A 1 dry land",
            "ok 2 changed 0 evaluated 0 worked 0\n",
        ),
        Line("symbol A 2 ~", "ok 3 changed 0 evaluated 0 worked 0\n"),
        Line(
            "B = LocalMinimum of A and 1",
            "ok 4 changed 1 evaluated 1 worked 0\n",
        ),
        Line(
            "legend A",
            "legend A 5\nnull 1 .\n-5 1 -\n1 2 1 dry land\n2 1 ~\n12 1 *\n",
        ),
        Line("show A", "show A 2 3\n11~\n.*-\n"),
        Line(
            "table B A",
            "table B A 5\nnull null 1\n-5 -5 1\n1 1 2\n1 2 1\n1 12 1\n",
        ),
        Line("stamps B", "stamps B 1 1\n4\n"),
    ];
    plays(&rt, "A", SEVERAL, &steps)
}

#[test]
fn procedures(rt: HostRuntime) -> Result<(), Fail> {
    const TWICE: &str =
        "procedure Twice(P, K): x = LocalSum of P and K; result = LocalProduct of x and 2";
    let steps = [
        Line(TWICE, "ok 2 changed 0 evaluated 0 worked 0\n"),
        Line("B = Twice(A, 3)", "ok 3 changed 2 evaluated 2 worked 0\n"),
        Line("value B.x 1 1", "value B.x 1 1 4\n"),
        Line("value B 1 1", "value B 1 1 8\n"),
        Line("C = Twice(A)", "refused count 1 2\n"),
        Line("C = Nope(A)", "refused procedure Nope\n"),
        Line(TWICE, "refused exists Twice\n"),
        Line(
            "list",
            "list 3\nprocedure Twice(P, K): x = LocalSum of P and K; result = LocalProduct of x and 2\nsource A\nB = Twice(A, 3)\n",
        ),
    ];
    plays(&rt, "A", SQUARE, &steps)
}

/// A line of so many letters.
fn letters(alloc: Global, count: u32) -> Result<String, Fail> {
    let mut line = String::new(alloc);
    for _ in 0..count {
        line.push('x')?;
    }
    Ok(line)
}

#[test]
fn long_line_and_end(rt: HostRuntime) -> Result<(), Fail> {
    let line = letters(rt.alloc(), 4097)?;
    let steps = [
        Line(&line, "refused long 4097\n"),
        Silent("quit", Kind::Quit),
    ];
    plays(&rt, "A", CELL, &steps)
}

/// One row with a gap.
const GAPS: &str = "ncols 3\nnrows 1\nxllcorner 0\nyllcorner 0\ncellsize 1\n1 -9999 3\n";

const OTHER_GAPS: &str = "ncols 3\nnrows 1\nxllcorner 0\nyllcorner 0\ncellsize 1\n5 7 -9999\n";

#[test]
fn languages(rt: HostRuntime) -> Result<(), Fail> {
    let steps = [
        Load(
            "B",
            OTHER_GAPS,
            Kind::Accepted,
            "ok 2 changed 1 evaluated 1 worked 0\n",
        ),
        Line(
            "C = LocalSum of A and B ignoring nulls",
            "refused syntax 25\n",
        ),
        Line("model 3", "refused number 7\n"),
        Silent("", Kind::Silent),
        Silent("model 2", Kind::Model),
        Line("model 2", "refused syntax 1\n"),
        Line(
            "C = LocalSum of A and B ignoring nulls",
            "ok 3 changed 1 evaluated 1 worked 0\n",
        ),
        Line(
            "procedure P(K): result = LocalMean of K and B ignoring nulls",
            "refused syntax 45\n",
        ),
        Line(
            "procedure P(K, M): result = LocalMean of K and M ignoring nulls",
            "ok 4 changed 0 evaluated 0 worked 0\n",
        ),
        Line("D = P(A, C)", "ok 5 changed 1 evaluated 1 worked 0\n"),
        Line("value C 1 2", "value C 1 2 7\n"),
        Line("value D 1 2", "value D 1 2 7\n"),
        Line(
            "list",
            "list 5\nprocedure P(K, M): result = LocalMean of K and M ignoring nulls\nsource A\nsource B\nC = LocalSum of A and B ignoring nulls\nD = P(A, C)\n",
        ),
        Line(
            "paint B 1 2 1 2 null",
            "ok 6 changed 3 evaluated 3 worked 0\n",
        ),
        Line("value D 1 2", "value D 1 2 null\n"),
        Line("model 1", "refused syntax 1\n"),
    ];
    plays(&rt, "A", GAPS, &steps)
}

#[test]
fn language_closed_by_an_edit(rt: HostRuntime) -> Result<(), Fail> {
    let steps = [
        Line("value A 1 2", "value A 1 2 null\n"),
        Line("paint A 1 1 2 2 0", "refused size 1 3\n"),
        Line("label A 1 one", "ok 2 changed 0 evaluated 0 worked 0\n"),
        Line("model 2", "refused syntax 1\n"),
    ];
    plays(&rt, "A", GAPS, &steps)
}

#[test]
fn further_grids(rt: HostRuntime) -> Result<(), Fail> {
    let steps = [
        Load("B", CELL, Kind::Refused, "refused load B size 3 3\n"),
        Load(
            "B",
            SQUARE,
            Kind::Accepted,
            "ok 2 changed 1 evaluated 1 worked 0\n",
        ),
    ];
    plays(&rt, "A", SQUARE, &steps)
}

/// What is said to a layer of nulls.
fn loaded_nulls<R: AllocGlobal + Threads + Sync>(
    rt: &R,
    session: &mut Session,
    extent: Extent,
) -> Result<Reply, Fail> {
    let alloc = rt.alloc();
    let layer = Layer::constant(alloc, extent, Cell::null(), 1)?;
    let Ok(name) = Name::plain(alloc, b"A") else {
        return Err(Fail::from("no name"));
    };
    let mut tally = Counts::new();
    let crew = Crew::new(rt, alloc, &NoGate, 1);
    let reply = session.load_layer(&crew, name, layer, &mut tally)?;
    Ok(reply)
}

/// A session takes a layer of nulls.
fn takes_nulls<R: AllocGlobal + Abort + Threads + Sync>(
    rt: &R,
    session: &mut Session,
    extent: Extent,
) -> Result<(), Fail> {
    let reply = loaded_nulls(rt, session, extent)?;
    assert_eq!(rt; reply.kind, Kind::Accepted);
    answers(rt, session, &[Line("value A 2 2", "value A 2 2 null\n")])
}

#[test]
fn layers_of_a_sample(rt: HostRuntime) -> Result<(), Fail> {
    let extent = Extent::new(2, 2).ok_or("limits")?;
    let mut session = Session::sample(rt.alloc(), 2)?;
    takes_nulls(&rt, &mut session, extent)
}
