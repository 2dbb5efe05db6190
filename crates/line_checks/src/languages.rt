//! Lines of both languages, and those that set one.
use crate::texts::{Table, look_at, refusal};
use statement_parser::LineRefusal;
use std::alloc::Global;
use std::process::Abort;
use std::test::Fail;

fn is_refused(rt: &(impl AllocGlobal + Abort), table: Table, line: &[u8], want: LineRefusal) {
    assert_eq!(rt; refusal(rt.alloc(), table, line), Some(want), "{line:?}");
}

#[test]
fn refused_by_the_language_and_the_place(rt: HostRuntime) {
    let lines: [(Table, &[u8], LineRefusal); 16] = [
        (
            Table::Program,
            b"C = LocalSum of A and B ignoring nulls",
            LineRefusal::Syntax(25),
        ),
        (
            Table::Program,
            b"procedure P(K): result = LocalMean of K and 1 ignoring nulls",
            LineRefusal::Syntax(47),
        ),
        (Table::Program, b"model 2", LineRefusal::Syntax(1)),
        (Table::Program, b"model 3", LineRefusal::Syntax(1)),
        (Table::Early, b"undo 1", LineRefusal::Syntax(6)),
        (Table::Early, b"model", LineRefusal::Syntax(6)),
        (Table::Early, b"model two", LineRefusal::Syntax(7)),
        (Table::Early, b"model 0", LineRefusal::Number(7)),
        (Table::Early, b"model 3", LineRefusal::Number(7)),
        (Table::Early, b"model -2", LineRefusal::Number(7)),
        (Table::Early, b"model 2 2", LineRefusal::Syntax(9)),
        (
            Table::Early,
            b"C = LocalSum of A and B ignoring",
            LineRefusal::Syntax(33),
        ),
        (
            Table::Early,
            b"C = LocalSum of A and B nulls",
            LineRefusal::Syntax(25),
        ),
        (
            Table::Early,
            b"C = LocalRatio of A and B ignoring nulls",
            LineRefusal::Syntax(27),
        ),
        (
            Table::Early,
            b"C = LocalSum of A and B ignoring nulls and D",
            LineRefusal::Syntax(40),
        ),
        (
            Table::Early,
            b"C = LocalSum of 1 and 2 and 3 and 4 and 5 and 6 and 7 and 8 and 9 ignoring nulls",
            LineRefusal::Syntax(61),
        ),
    ];
    for (table, line, want) in lines {
        is_refused(&rt, table, line, want);
    }
}

fn has_form(rt: &(impl AllocGlobal + Abort), line: &[u8], want: &str) {
    match look_at(rt.alloc(), Table::Early, line) {
        Ok(found) => assert_eq!(rt; found.form, want),
        Err(_) => panic!(rt; "not read"),
    }
}

#[test]
fn undo_is_there_early(rt: HostRuntime) {
    has_form(&rt, b" undo ", "undo");
}

#[test]
fn lines_that_set_a_language(rt: HostRuntime) {
    let lines: [(&[u8], &'static str); 4] = [
        (b"model 1", "language 1"),
        (b" model\t2 ", "language 2"),
        (b"model +2", "language 2"),
        (b"model 01", "language 1"),
    ];
    for (line, want) in lines {
        has_form(&rt, line, want);
    }
}

/// A statement or a procedure has this canonical text, and so has a copy of it.
fn reads(rt: &(impl AllocGlobal + Abort), line: &[u8], text: &[u8]) {
    match look_at(rt.alloc(), Table::Early, line) {
        Ok(found) => {
            assert_eq!(rt; found.text.as_deref(), Some(text));
            assert_eq!(rt; found.copy.as_deref(), Some(text));
        }
        Err(_) => panic!(rt; "not read"),
    }
}

#[test]
fn nulls_that_are_ignored_are_printed(rt: HostRuntime) {
    let texts: [(&[u8], &[u8]); 3] = [
        (
            b"C=LocalMinority of A and -07 ignoring  nulls",
            b"C = LocalMinority of A and -7 ignoring nulls",
        ),
        (b"C = LocalSum of A and B", b"C = LocalSum of A and B"),
        (
            b"procedure P(K,M): x = LocalSum of K and M ignoring nulls;result=LocalSum of x and K",
            b"procedure P(K, M): x = LocalSum of K and M ignoring nulls; result = LocalSum of x and K",
        ),
    ];
    for (line, text) in texts {
        reads(&rt, line, text);
    }
}
