//! Lines that are read, refused and printed again.
use crate::texts::{Table, look_at, refusal};
use map_nums::Value;
use statement_parser::{LineRefusal, Op, Term};
use std::alloc::Global;
use std::process::Abort;
use std::test::Fail;

/// A line is refused for this.
fn refused(rt: &(impl AllocGlobal + Abort), line: &[u8], want: LineRefusal) {
    assert_eq!(rt; refusal(rt.alloc(), Table::Program, line), Some(want));
}

#[test]
fn refused_words(rt: HostRuntime) {
    refused(&rt, b"foo", LineRefusal::Syntax(4));
    refused(&rt, b"drop of", LineRefusal::Syntax(6));
    refused(&rt, b"drop A.b", LineRefusal::Syntax(6));
    refused(&rt, b"grid A.paint", LineRefusal::Syntax(6));
    refused(&rt, b"symbol A 1 ab", LineRefusal::Syntax(13));
    refused(&rt, b"label Z 1", LineRefusal::Syntax(10));
    refused(&rt, b"legend", LineRefusal::Syntax(7));
    refused(&rt, b"undo x", LineRefusal::Syntax(6));
    refused(&rt, b" undo undo", LineRefusal::Syntax(7));
    refused(&rt, b"undo = LocalSum of A and 1", LineRefusal::Syntax(6));
    refused(&rt, b"Undo", LineRefusal::Syntax(5));
    refused(&rt, b"new undo 1", LineRefusal::Syntax(5));
}

#[test]
fn refused_branches(rt: HostRuntime) {
    refused(&rt, b"branch", LineRefusal::Syntax(7));
    refused(&rt, b"branch end", LineRefusal::Syntax(8));
    refused(&rt, b"branch value A 1 1", LineRefusal::Syntax(19));
    refused(&rt, b"branch X = end", LineRefusal::Operation(12));
    refused(&rt, b"branch paint A 1 1 1 1 end", LineRefusal::Syntax(24));
    refused(&rt, b"branch value A 1 4097 end", LineRefusal::Number(18));
    refused(&rt, b"branch label A 1 x end", LineRefusal::Syntax(8));
    refused(&rt, b"branch undo end", LineRefusal::Syntax(8));
    refused(&rt, b"branch drop A; end", LineRefusal::Syntax(16));
    refused(&rt, b"branch drop A end x", LineRefusal::Syntax(19));
}

#[test]
fn refused_news(rt: HostRuntime) {
    refused(&rt, b"new of 1", LineRefusal::Syntax(5));
    refused(&rt, b"new C 1000000000000001", LineRefusal::Number(7));
    refused(&rt, b"new C x", LineRefusal::Syntax(7));
    refused(&rt, b"new C", LineRefusal::Syntax(6));
    refused(&rt, b"new A.b 1", LineRefusal::Syntax(5));
    refused(&rt, b"new C 1 1", LineRefusal::Syntax(9));
}

#[test]
fn refused_paints(rt: HostRuntime) {
    refused(&rt, b"paint A 0 1 1 1 1", LineRefusal::Number(9));
    refused(&rt, b"paint A 1 1 1 4097 1", LineRefusal::Number(15));
    refused(
        &rt,
        b"paint A 1 1 1 1 1000000000000001",
        LineRefusal::Number(17),
    );
    refused(&rt, b"paint A 1 1 1 1", LineRefusal::Syntax(16));
}

#[test]
fn refused_operations(rt: HostRuntime) {
    refused(&rt, b"C = LocalSun of A and 1", LineRefusal::Operation(5));
    refused(&rt, b"C = end", LineRefusal::Operation(5));
    refused(&rt, b"C = paint(A)", LineRefusal::Syntax(5));
    refused(&rt, b"C = Twice(A, 3", LineRefusal::Syntax(15));
    refused(
        &rt,
        b"C = FocalProduct of A at 2",
        LineRefusal::Operation(5),
    );
    refused(&rt, b"C = FocalSum of A at 33", LineRefusal::Number(22));
    refused(&rt, b"C = LocalSum(A)", LineRefusal::Syntax(13));
    refused(&rt, b"C = LocalSun of\x1FA", LineRefusal::Syntax(16));
}

#[test]
fn refused_bodies(rt: HostRuntime) {
    refused(&rt, b"C = LocalSum of A and", LineRefusal::Syntax(22));
    refused(&rt, b"C = LocalSum of A and  ", LineRefusal::Syntax(24));
    refused(
        &rt,
        b"C = LocalRating of A with 1 for 1 to",
        LineRefusal::Syntax(37),
    );
    refused(
        &rt,
        b"C = LocalRatio of A and 1 and 2",
        LineRefusal::Syntax(27),
    );
    refused(
        &rt,
        b"C = LocalMean of 1 and 2 and 3 and 4 and 5 and 6 and 7 and 8 and 9",
        LineRefusal::Syntax(62),
    );
}

#[test]
fn lines_of_any_length(rt: HostRuntime) -> Result<(), Fail> {
    let letters = vec![in rt.alloc(); b'x'; 4097]?;
    refused(&rt, &letters[1..], LineRefusal::Syntax(1));
    refused(&rt, &letters, LineRefusal::Long(4097));
    Ok(())
}

/// A rating with so many rates.
fn rating(alloc: Global, count: u32) -> Result<Vec<u8>, Fail> {
    let mut line = Vec::from_slice(alloc, b"R = LocalRating of A")?;
    for _ in 0..count {
        line.extend_from_slice(b" with 1 for 1")?;
    }
    Ok(line)
}

/// A rating with so many rates is refused for this, or read.
fn rated(
    rt: &(impl AllocGlobal + Abort),
    count: u32,
    want: Option<LineRefusal>,
) -> Result<(), Fail> {
    let line = rating(rt.alloc(), count)?;
    assert_eq!(rt; refusal(rt.alloc(), Table::Program, &line), want);
    Ok(())
}

#[test]
fn rates_end_at_thirty_two(rt: HostRuntime) -> Result<(), Fail> {
    rated(&rt, 32, None)?;
    rated(&rt, 33, Some(LineRefusal::Syntax(438)))
}

/// A line of so many branches of one item.
fn branched(alloc: Global, count: u32) -> Result<Vec<u8>, Fail> {
    let mut line = Vec::new(alloc);
    for _ in 0..count {
        line.extend_from_slice(b"branch drop A ")?;
    }
    line.extend_from_slice(b"end")?;
    Ok(line)
}

#[test]
fn branches_end_at_sixteen(rt: HostRuntime) -> Result<(), Fail> {
    let sixteen = branched(rt.alloc(), 16)?;
    assert_eq!(rt; refusal(rt.alloc(), Table::Program, &sixteen), None);
    let more = branched(rt.alloc(), 17)?;
    refused(&rt, &more, LineRefusal::Syntax(225));
    Ok(())
}

/// A line of 4,096 bytes of one branch.
fn longest_branch(alloc: Global) -> Result<Vec<u8>, Fail> {
    let mut line = Vec::from_slice(alloc, b"branch new A 1")?;
    for _ in 0..582 {
        line.extend_from_slice(b";drop A")?;
    }
    line.extend_from_slice(b" end    ")?;
    Ok(line)
}

#[test]
fn longest_branch_is_read(rt: HostRuntime) -> Result<(), Fail> {
    let line = longest_branch(rt.alloc())?;
    assert_eq!(rt; line.len(), 4096);
    has_form(&rt, &line, "a branch of 583 items");
    Ok(())
}

/// A line has this form.
fn has_form(rt: &(impl AllocGlobal + Abort), line: &[u8], want: &str) {
    match look_at(rt.alloc(), Table::Program, line) {
        Ok(found) => assert_eq!(rt; found.form, want),
        Err(_) => panic!(rt; "not read"),
    }
}

#[test]
fn each_form_is_read(rt: HostRuntime) {
    has_form(&rt, b"\t # note \x80", "blank");
    has_form(&rt, b"undo", "undo");
    has_form(&rt, b"\t undo ", "undo");
    has_form(&rt, b" quit ", "quit");
    has_form(&rt, b"list", "list");
    has_form(&rt, b"value A.b 1 2", "value at 1 2");
    has_form(&rt, b"drop Q", "drop");
    has_form(&rt, b"branch drop A end", "branches");
    has_form(&rt, b"paint A 1 2 3 4 null", "paint from 1 2 to 3 4");
}

/// Each cell of a new layer holds this.
fn has_cell(rt: &(impl AllocGlobal + Abort), line: &[u8], want: Option<Value>) {
    match look_at(rt.alloc(), Table::Program, line) {
        Ok(found) => assert_eq!(rt; found.value, Some(want)),
        Err(_) => panic!(rt; "not read"),
    }
}

#[test]
fn new_layers_have_their_cell(rt: HostRuntime) {
    has_cell(
        &rt,
        b"new C -1000000000000000",
        Some(-1_000_000_000_000_000),
    );
    has_cell(&rt, b"new C null", None);
}

/// A statement has this canonical text, and so has a copy of it.
fn reads(rt: &(impl AllocGlobal + Abort), line: &[u8], text: &[u8]) {
    match look_at(rt.alloc(), Table::Program, line) {
        Ok(found) => {
            assert_eq!(rt; found.text.as_deref(), Some(text));
            assert_eq!(rt; found.copy.as_deref(), Some(text));
        }
        Err(_) => panic!(rt; "not read"),
    }
}

#[test]
fn texts_are_canonical(rt: HostRuntime) {
    reads(
        &rt,
        b"B=LocalSum\tof A and  +03 and -0",
        b"B = LocalSum of A and 3 and 0",
    );
    reads(
        &rt,
        b"D = LocalRatio of 1 and D",
        b"D = LocalRatio of 1 and D",
    );
    reads(
        &rt,
        b"R = LocalRating of A with +9 for 01 to 3 with null for -5 to -5",
        b"R = LocalRating of A with 9 for 1 to 3 with null for -5",
    );
    reads(
        &rt,
        b"C = LocalRating of A with 9 for 1 to 3",
        b"C = LocalRating of A with 9 for 1 to 3",
    );
}

/// The number that stands at a place of an operation.
fn number_at(op: &Op, k: u32) -> Option<Value> {
    match op.term(k) {
        Some(Term::Number(value)) => Some(*value),
        _ => None,
    }
}

#[test]
fn terms_are_in_order(rt: HostRuntime) {
    let op = Op::Difference {
        left: Term::Number(4),
        right: Term::Number(7),
    };
    let numbers = [number_at(&op, 0), number_at(&op, 1), number_at(&op, 2)];
    assert_eq!(rt; numbers, [Some(4), Some(7), None]);
}
