//! Lines of the language where all of its rows are there.
use crate::texts::{Table, look_at, refusal};
use map_nums::Value;
use statement_parser::LineRefusal;
use std::alloc::Global;
use std::process::Abort;
use std::test::Fail;

/// A line is refused for this, or read where there is nothing.
fn gives(rt: &(impl AllocGlobal + Abort), line: &[u8], want: Option<LineRefusal>) {
    assert_eq!(rt; refusal(rt.alloc(), Table::All, line), want, "{line:?}");
}

/// A statement or a procedure has this canonical text, and so has a copy of it.
fn reads(rt: &(impl AllocGlobal + Abort), line: &[u8], text: &[u8]) {
    match look_at(rt.alloc(), Table::All, line) {
        Ok(found) => {
            assert_eq!(rt; found.text.as_deref(), Some(text));
            assert_eq!(rt; found.copy.as_deref(), Some(text));
        }
        Err(_) => panic!(rt; "not read"),
    }
}

#[test]
fn refused_lines_of_all_rows(rt: HostRuntime) {
    let lines: [(&[u8], LineRefusal); 18] = [
        (b"C = FocalSum of A at 33", LineRefusal::Number(22)),
        (
            b"C = FocalMean of A radiating on B",
            LineRefusal::Syntax(20),
        ),
        (b"C = FocalProduct of A", LineRefusal::Operation(5)),
        (b"C = FocalSum(A)", LineRefusal::Syntax(13)),
        (
            b"C = FocalSum of A radiating on B within 65",
            LineRefusal::Number(41),
        ),
        (
            b"C = FocalSum of A radiating on B to 1 from 1",
            LineRefusal::Syntax(39),
        ),
        (
            b"C = FocalProximity of A within -1",
            LineRefusal::Number(32),
        ),
        (
            b"C = FocalProximity of A within 5 spreading in B",
            LineRefusal::Syntax(34),
        ),
        (b"C = FocalInsularity of A at 1", LineRefusal::Syntax(26)),
        (b"C = ZonalVariety of A and B", LineRefusal::Syntax(23)),
        (
            b"C = IncrementalDrainage of A carrying",
            LineRefusal::Syntax(38),
        ),
        (b"C = Twice", LineRefusal::Operation(5)),
        (b"C = Twice()", LineRefusal::Syntax(11)),
        (
            b"C = Twice(1, 2, 3, 4, 5, 6, 7, 8, 9)",
            LineRefusal::Syntax(33),
        ),
        (b"C = paint(A)", LineRefusal::Syntax(5)),
        (b"show", LineRefusal::Syntax(5)),
        (b"table A", LineRefusal::Syntax(8)),
        (b"legend A.paint", LineRefusal::Syntax(8)),
    ];
    for (line, want) in lines {
        gives(&rt, line, Some(want));
    }
}

#[test]
fn defaults_are_left_out(rt: HostRuntime) {
    let texts: [(&[u8], &[u8]); 7] = [
        (b"C=FocalMean of A at 1", b"C = FocalMean of A at 1"),
        (
            b"C = FocalSum of A radiating on B from 0 to 5 within 64",
            b"C = FocalSum of A radiating on B to 5",
        ),
        (
            b"C = FocalProximity of A spreading in +1 within 1000000000000000",
            b"C = FocalProximity of A",
        ),
        (
            b"C = FocalProximity of A spreading in B within 0",
            b"C = FocalProximity of A spreading in B within 0",
        ),
        (
            b"C = IncrementalDrainage of A carrying 1",
            b"C = IncrementalDrainage of A carrying 1",
        ),
        (
            b"C = ZonalVariety of A within 3",
            b"C = ZonalVariety of A within 3",
        ),
        (b"C=Twice ( A,-0 , 007 )", b"C = Twice(A, 0, 7)"),
    ];
    for (line, want) in texts {
        reads(&rt, line, want);
    }
}

/// The refused lines of worked sessions and model files that the grammar alone decides.
#[test]
fn refused_lines_of_sessions(rt: HostRuntime) {
    let lines: [(&[u8], LineRefusal); 9] = [
        (b"foo", LineRefusal::Syntax(4)),
        (b"C = LocalSun of A and 1", LineRefusal::Operation(5)),
        (b"C = LocalSum of A and", LineRefusal::Syntax(22)),
        (b"B = LocalSum of A and", LineRefusal::Syntax(22)),
        (b"new of 1", LineRefusal::Syntax(5)),
        (b"new C 1000000000000001", LineRefusal::Number(7)),
        (b"paint A 0 1 1 1 1", LineRefusal::Number(9)),
        (b"symbol A 1 ab", LineRefusal::Syntax(13)),
        (b"ab\x80d", LineRefusal::Syntax(3)),
    ];
    for (line, want) in lines {
        gives(&rt, line, Some(want));
    }
}

#[test]
fn refused_long_lines_of_sessions(rt: HostRuntime) -> Result<(), Fail> {
    let brackets = vec![in rt.alloc(); b'('; 2000]?;
    gives(&rt, &brackets, Some(LineRefusal::Syntax(1)));
    let letters = vec![in rt.alloc(); b'x'; 4097]?;
    gives(&rt, &letters, Some(LineRefusal::Long(4097)));
    Ok(())
}

#[test]
fn refused_labels_and_symbols(rt: HostRuntime) {
    let lines: [(&[u8], LineRefusal); 9] = [
        (b"label A 5x", LineRefusal::Syntax(9)),
        (b"label A 1000000000000001 x", LineRefusal::Number(9)),
        (b"label A.b 5 x", LineRefusal::Syntax(7)),
        (b"label A 5", LineRefusal::Syntax(10)),
        (b"label A 5  ", LineRefusal::Syntax(12)),
        (b"label = x", LineRefusal::Syntax(7)),
        (b"symbol A 1 a b", LineRefusal::Syntax(14)),
        (b"symbol A 1\t", LineRefusal::Syntax(12)),
        (b"symbol A x y", LineRefusal::Syntax(10)),
    ];
    for (line, want) in lines {
        gives(&rt, line, Some(want));
    }
}

/// A label whose text has 64 bytes, and this behind it.
fn long_label(alloc: Global, behind: &[u8]) -> Result<Vec<u8>, Fail> {
    let mut line = Vec::from_slice(alloc, b"label A 5 ")?;
    for _ in 0..64 {
        line.push(b'7')?;
    }
    line.extend_from_slice(behind)?;
    Ok(line)
}

/// A label whose text has 64 bytes is refused for this with what stands behind it, or read.
fn ends(
    rt: &(impl AllocGlobal + Abort),
    behind: &[u8],
    want: Option<LineRefusal>,
) -> Result<(), Fail> {
    let line = long_label(rt.alloc(), behind)?;
    gives(rt, &line, want);
    Ok(())
}

#[test]
fn a_text_ends_at_sixty_four(rt: HostRuntime) -> Result<(), Fail> {
    ends(&rt, b" ", None)?;
    ends(&rt, b" x", Some(LineRefusal::Syntax(75)))
}

#[test]
fn refused_procedures(rt: HostRuntime) {
    let lines: [(&[u8], LineRefusal); 13] = [
        (
            b"procedure Q(P): x = LocalMean of P and 1",
            LineRefusal::Syntax(41),
        ),
        (
            b"procedure Q(P): x = LocalMean of P and 1; ",
            LineRefusal::Syntax(43),
        ),
        (
            b"procedure Q(P): x = LocalMean of P and y; y = LocalMean of x and 1",
            LineRefusal::Syntax(40),
        ),
        (
            b"procedure Q(P): x = LocalMean of x and 1; result = Q(x)",
            LineRefusal::Syntax(34),
        ),
        (
            b"procedure Q(P): result = LocalMean of P and 1; y = Q(P)",
            LineRefusal::Syntax(46),
        ),
        (b"procedure Q(P, P): result = Q(P)", LineRefusal::Syntax(16)),
        (
            b"procedure Q(P): P = Q(P); result = Q(P)",
            LineRefusal::Syntax(17),
        ),
        (b"procedure Q(): result = Q(1)", LineRefusal::Syntax(13)),
        (b"procedure Q(1): result = Q(1)", LineRefusal::Syntax(13)),
        (
            b"procedure Q(a, b, c, d, e, f, g, h, i): result = Q(a)",
            LineRefusal::Syntax(35),
        ),
        (b"procedure Q(P) result = Q(P)", LineRefusal::Syntax(16)),
        (
            b"procedure Q(P): result = Twice",
            LineRefusal::Operation(26),
        ),
        (
            b"procedure Q(P): result = Q(1000000000000001)",
            LineRefusal::Number(28),
        ),
    ];
    for (line, want) in lines {
        gives(&rt, line, Some(want));
    }
}

/// A procedure with so many statements before the last.
fn procedure_of(alloc: Global, count: u8, last: &[u8]) -> Result<Vec<u8>, Fail> {
    let mut line = Vec::from_slice(alloc, b"procedure Q(P): ")?;
    for place in 0..count {
        line.push(b'a'.wrapping_add(place))?;
        line.extend_from_slice(b" = Q(P); ")?;
    }
    line.extend_from_slice(last)?;
    Ok(line)
}

/// A procedure with fifteen statements before the last is refused for this, or read.
fn closes(
    rt: &(impl AllocGlobal + Abort),
    last: &[u8],
    want: Option<LineRefusal>,
) -> Result<(), Fail> {
    let line = procedure_of(rt.alloc(), 15, last)?;
    gives(rt, &line, want);
    Ok(())
}

#[test]
fn the_sixteenth_statement_is_the_result(rt: HostRuntime) -> Result<(), Fail> {
    closes(&rt, b"result = Q(o)", None)?;
    closes(&rt, b"p = Q(o)", Some(LineRefusal::Syntax(167)))
}

/// A line of this form gives a value this text or sign.
fn marks(rt: &(impl AllocGlobal + Abort), line: &[u8], form: &str, value: Value, text: &[u8]) {
    match look_at(rt.alloc(), Table::All, line) {
        Ok(found) => {
            assert_eq!(rt; (found.form, found.value), (form, Some(Some(value))));
            assert_eq!(rt; found.text.as_deref(), Some(text));
        }
        Err(_) => panic!(rt; "not read"),
    }
}

#[test]
fn labels_and_symbols_are_read(rt: HostRuntime) {
    marks(&rt, b"label A 1 dry land", "label of A", 1, b"dry land");
    marks(
        &rt,
        b" label\tA -0 \t x  (y) \t",
        "label of A",
        0,
        b"x  (y)",
    );
    marks(&rt, b"label A 5=x", "label of A", 5, b"=x");
    marks(&rt, b"label A +05 5", "label of A", 5, b"5");
    marks(&rt, b"symbol A 2 ~", "symbol of A", 2, b"~");
    marks(&rt, b"symbol A 5;", "symbol of A", 5, b";");
    marks(&rt, b"symbol A 5 7 ", "symbol of A", 5, b"7");
}

#[test]
fn procedures_are_printed(rt: HostRuntime) {
    let texts: [(&[u8], &[u8]); 3] = [
        (
            b"procedure Twice(P, K): x = LocalSum of P and K; result = LocalProduct of x and 2",
            b"procedure Twice(P, K): x = LocalSum of P and K; result = LocalProduct of x and 2",
        ),
        (
            b"procedure\tQ ( Q ):result=FocalProximity of Q spreading in +01",
            b"procedure Q(Q): result = FocalProximity of Q",
        ),
        (
            b"procedure P(a,b) : x=Q(a , 007) ;y =ZonalVariety of x within b;result=P(y)",
            b"procedure P(a, b): x = Q(a, 7); y = ZonalVariety of x within b; result = P(y)",
        ),
    ];
    for (line, want) in texts {
        reads(&rt, line, want);
        reads(&rt, want, want);
    }
}
