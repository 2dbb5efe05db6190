//! Memory ends within an edit: the engine is then as it was, and takes the edit as soon as there is memory again.
//!
//! `.ci/refusals` runs the test over and over, and refuses each of its calls for memory in turn. In a run without a refusal the test
//! shows that two engines that take the same edits are alike.
ghost use Rattle.std.specs.Prelude.{IfOk, IfSome};
ghost use Rattle.live_engine.specs.Accepts.{IsFormedEdit};

use crate::alike::{are_alike_marks, are_alike_names, are_alike_procedures, is_alike_layer};
use crate::memory::Given::{Load, Text};
use crate::trials::{Said, told};
use layer_tiles::{Cell, Extent, Layer, Value};
use live_engine::{Edit, Engine, Which};
use map_lines::parse_line;
use map_outside::Counts;
use map_words::{Name, NameRefusal};
use statement_parser::{Language, Line, LineRefusal, Place};
use std::alloc::Global;
use std::io::Print;
use std::mem::forget;
use std::process::Abort;
use std::test::Fail;
use std::thread::Threads;
use tile_workers::NoGate;

/// What an engine is given.
#[derive(Clone, Copy, Debug)]
enum Given {
    /// A layer of so many rows and columns, with this value in each cell.
    Load(&'static str, u32, u32, Value),
    Text(&'static str),
}

/// What is given, and why it is refused, if it is.
type Row = (Given, Option<Said>);

/// What is given one after another to a map of 3 rows and 33 columns.
const EDITS: [Row; 54] = [
    (Load("A", 3, 33, 1), None),
    (Load("A", 3, 33, 1), Some(Said::Exists)),
    (Load("D", 3, 32, 1), Some(Said::Size(3, 33))),
    (Text("new C 10"), None),
    (Text("new C 10"), Some(Said::Exists)),
    (Text("S = LocalSum of A and C"), None),
    (Text("new S 1"), Some(Said::Exists)),
    (Text("A = LocalSum of C and 1"), Some(Said::Exists)),
    (
        Text("procedure Twice(P, K): x = LocalSum of P and K; result = LocalProduct of x and 2"),
        None,
    ),
    (
        Text("procedure Twice(P): result = LocalSum of P and 1"),
        Some(Said::Exists),
    ),
    (
        Text("procedure Thrice(P): result = Nope(P)"),
        Some(Said::NoProcedure),
    ),
    (
        Text("procedure Thrice(P): result = Twice(P)"),
        Some(Said::Terms(1, 2)),
    ),
    (Text("T = Twice(S, 3)"), None),
    (Text("T = Nope(S)"), Some(Said::NoProcedure)),
    (Text("T = Twice(S)"), Some(Said::Terms(1, 2))),
    (Text("F = FocalMaximum of S at 2"), None),
    (Text("Z = ZonalSum of S within A"), None),
    (Text("R = FocalInsularity of A"), None),
    (Text("W = IncrementalDrainage of C carrying A"), None),
    // each of the 99 cells would be a viewer
    (
        Text("V = FocalSum of A radiating on 0"),
        Some(Said::Viewers(99)),
    ),
    (Text("new E null"), None),
    (Text("V = FocalSum of E radiating on C within 3"), None),
    (
        Text("P = FocalProximity of E spreading in C within 1000"),
        None,
    ),
    (Text("paint E 2 2 2 3 7"), None),
    // no cell is greater than 10^15
    (Text("O = LocalProduct of A and 1000000000000000"), None),
    (Text("paint A 1 31 2 33 2"), Some(Said::Overflow(1, 31))),
    (Text("drop O"), None),
    (Text("paint A 1 31 2 33 2"), None),
    (Text("paint C 1 1 2 2 9"), None),
    (Text("paint N 1 1 1 1 1"), Some(Said::Unknown)),
    (Text("paint S 1 1 1 1 1"), Some(Said::Derived)),
    (Text("paint A 1 1 4 1 1"), Some(Said::Size(3, 33))),
    (Text("S = LocalMaximum of A and C"), None),
    (Text("S = LocalMaximum of T and 1"), Some(Said::Cycle)),
    (Text("T = Twice(C, 4)"), None),
    (Text("F = LocalSum of Missing and 1"), None),
    (Text("label A 2 wet"), None),
    (Text("label C 9 rock"), None),
    (Text("symbol C 9 ~"), None),
    (Text("label C 9 sand"), None),
    (Text("symbol C 9 +"), None),
    (Text("label N 1 none"), Some(Said::Unknown)),
    (Text("symbol N 1 !"), Some(Said::Unknown)),
    (
        Text(
            "procedure Four(P): a = ZonalSum of P within P; b = ZonalSum of a within P; c = ZonalSum of b within P; result = ZonalSum of c within P",
        ),
        None,
    ),
    (
        Text("procedure Sixteen(P): a = Four(P); b = Four(a); c = Four(b); result = Four(c)"),
        None,
    ),
    (
        Text(
            "procedure Eighty(P): a = Sixteen(P); b = Sixteen(a); c = Sixteen(b); d = Sixteen(c); result = Sixteen(d)",
        ),
        None,
    ),
    (Text("L = Eighty(A)"), Some(Said::Limit(Which::Statements))),
    (
        Text("procedure Forty(P): a = Sixteen(P); b = Sixteen(a); c = Four(b); result = Four(c)"),
        None,
    ),
    (Text("L = Forty(A)"), Some(Said::Limit(Which::Zonals))),
    (Text("drop C"), None),
    (Text("drop C"), Some(Said::Unknown)),
    (Text("new C 7"), None),
    (Text("drop T"), None),
    (Text("paint A 3 33 3 33 5"), None),
];

/// The edit of a line; none where memory ends.
fn edit_of(alloc: Global, line: &str) -> Result<Option<Edit>, Fail>
    ensures { IfOk result (λ made. IfSome made IsFormedEdit) }
{
    let place = Place {
        language: Language::One,
        early: true,
    };
    match parse_line(alloc, line.as_bytes(), place) {
        Ok(Line::Edit(edit)) => Ok(Some(Edit::Line(edit))),
        Err(LineRefusal::NoMemory) => Ok(None),
        _ => Err(Fail::from("no edit")),
    }
}

/// The load of a layer of this value in each cell; none where memory ends.
fn load_of(alloc: Global, name: &str, extent: Extent, value: Value) -> Result<Option<Edit>, Fail>
    ensures { IfOk result (λ made. IfSome made IsFormedEdit) }
{
    let cell = Cell::of(value).ok_or("no cell")?;
    let name = match Name::plain(alloc, name.as_bytes()) {
        Ok(name) => name,
        Err(NameRefusal::NoMemory) => return Ok(None),
        Err(NameRefusal::Form) => return Err(Fail::from("no name")),
    };
    match Layer::constant(alloc, extent, cell, 7) {
        Ok(layer) => Ok(Some(Edit::Load { name, layer })),
        Err(_) => Ok(None),
    }
}

/// The edit that is given; none where memory ends.
fn made(alloc: Global, given: Given) -> Result<Option<Edit>, Fail>
    ensures { IfOk result (λ made. IfSome made IsFormedEdit) }
{
    match given {
        Load(name, rows, columns, value) => {
            let extent = Extent::new(rows, columns).ok_or("limits")?;
            load_of(alloc, name, extent, value)
        }
        Text(line) => edit_of(alloc, line),
    }
}

/// What an engine says to what it is given; none where memory ends before.
fn said<R: AllocGlobal + Threads + Sync>(
    rt: &R,
    engine: &mut Engine,
    given: Given,
) -> Result<Option<Said>, Fail> {
    let Some(edit) = made(rt.alloc(), given)? else {
        return Ok(None);
    };
    let answer = engine.edit(rt, rt.alloc(), edit, 1, &NoGate, &mut Counts::new());
    Ok(Some(told(&answer)))
}

/// Nothing tells one engine from the other. `inner` is a dotted name.
fn are_alike<R: Abort>(rt: &R, one: &Engine, other: &Engine, inner: &Name, given: Given) {
    assert_eq!(rt; one.number(), other.number(), "{given:?}");
    assert!(rt; are_alike_names(one, other), "{given:?}");
    assert!(rt; is_alike_layer(one, other, inner), "{given:?}");
    assert!(rt; are_alike_procedures(one, other), "{given:?}");
    assert!(rt; are_alike_marks(one.labels(), other.labels()), "{given:?}");
    assert!(rt;
        are_alike_marks(one.symbols(), other.symbols()),
        "{given:?}"
    );
}

/// Whether it is accepted, or refused for this.
fn is_due(said: Said, refusal: Option<Said>) -> bool {
    match refusal {
        Some(cause) => said == cause,
        None => matches!(said, Said::Accepted(_, _)),
    }
}

/// Two engines, and a name of a statement of a call.
#[derive(Drop)]
struct Pair<'a, R> {
    rt: &'a R,
    one: Engine,
    other: Engine,
    inner: Name,
}

impl<'a, R: AllocGlobal + Abort + Print + Threads + Sync> Pair<'a, R> {
    fn are_alike(&self, given: Given) {
        are_alike(self.rt, &self.one, &self.other, &self.inner, given);
    }

    /// What the first engine says in the end. Where memory ends within the edit, it is as the other still is.
    fn one_says(&mut self, given: Given) -> Result<Option<Said>, Fail> {
        let first = said(self.rt, &mut self.one, given)?;
        if first != Some(Said::NoMemory) {
            return Ok(first);
        }
        println!(self.rt; "no memory: {given:?}")?;
        self.are_alike(given);
        said(self.rt, &mut self.one, given)
    }

    /// What the other one says in the end.
    fn other_says(&mut self, given: Given) -> Result<Option<Said>, Fail> {
        let first = said(self.rt, &mut self.other, given)?;
        if first != Some(Said::NoMemory) {
            return Ok(first);
        }
        println!(self.rt; "no memory: {given:?}")?;
        said(self.rt, &mut self.other, given)
    }

    /// Both take what is given, or refuse it for what is due; false where memory ends before.
    fn take(&mut self, row: &Row) -> Result<bool, Fail> {
        let (given, refusal) = *row;
        let Some(first) = self.one_says(given)? else {
            return Ok(false);
        };
        let Some(second) = self.other_says(given)? else {
            return Ok(false);
        };
        assert!(self.rt; is_due(first, refusal), "{given:?}: {first:?}");
        assert_eq!(self.rt; first, second, "{given:?}");
        self.are_alike(given);
        Ok(true)
    }

    fn take_all(&mut self, rows: &[Row]) -> Result<(), Fail> {
        for row in rows {
            if !self.take(row)? {
                return Ok(());
            }
        }
        Ok(())
    }

    fn take_edits(&mut self) -> Result<(), Fail> {
        self.take_all(&EDITS)
    }
}

#[test]
fn an_edit_without_memory_changes_nothing(rt: HostRuntime) -> Result<(), Fail> {
    let extent = Extent::new(3, 33).ok_or("limits")?;
    let Ok(inner) = Name::dotted(rt.alloc(), b"T.x") else {
        return Ok(());
    };
    let mut pair = Pair {
        rt: &rt,
        one: Engine::new(rt.alloc(), extent),
        other: Engine::new(rt.alloc(), extent),
        inner,
    };
    let said = pair.take_edits();
    // The test ends here, as in `tried`.
    forget(pair);
    said
}
