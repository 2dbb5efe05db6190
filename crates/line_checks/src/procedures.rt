//! Copies of what lines say, procedures, and what calls of them stand for, worked by hand.
ghost use Rattle.std.specs.Prelude.{false, ◌≡◌, ◌∷◌, [], IfOk, codes, pos};
ghost use Rattle.map_nums.specs.declared.Stat.TheVariants.{Sum, Product};
ghost use Rattle.map_defs.specs.Ops.{layer_term, number_term, local_op};
ghost use Rattle.map_defs.specs.Statements.{plain, call};
ghost use Rattle.statement_parser.specs.Views.{term_view, written_view};
ghost use Rattle.statement_parser.specs.Procedures.{procedure_view, body_view};
ghost use Rattle.procedure_expand.specs.WorkedProcedures.{twice as meant_twice};

use map_nums::Stat;
use map_words::Name;
use procedure_expand::{ExpandRefusal, Flat, Procs, expand};
use statement_parser::{Op, Procedure, Term, Written, print_written};
use std::alloc::Global;
use std::test::Fail;

fn layer(alloc: Global, name: &[u8]) -> Result<Term, Fail>
    ensures { IfOk result (λ t. term_view t ≡ layer_term name.now) }
{
    Ok(Term::Layer(Name::plain(alloc, name)?))
}

/// A Local statistic of two terms.
fn local(alloc: Global, stat: Stat, left: Term, right: Term) -> Result<Written, Fail>
    ensures { IfOk result (λ w. written_view w ≡ plain (local_op stat false (term_view left ∷ term_view right ∷ []))) }
{
    let terms = vec![in alloc; left, right]?;
    Ok(Written::Plain(Op::Local {
        stat,
        terms,
        ignoring: false,
    }))
}

/// `x = LocalSum of P and K`.
fn sum(alloc: Global) -> Result<Written, Fail>
    ensures { IfOk result (λ w. written_view w ≡ plain (local_op Sum false (layer_term (codes "P") ∷ layer_term (codes "K") ∷ []))) }
{
    let value = layer(alloc, b"P")?;
    let more = layer(alloc, b"K")?;
    local(alloc, Stat::Sum, value, more)
}

/// `result = LocalProduct of x and 2`.
fn product(alloc: Global) -> Result<Written, Fail>
    ensures { IfOk result (λ w. written_view w ≡ plain (local_op Product false (layer_term (codes "x") ∷ number_term (pos 2) ∷ []))) }
{
    let x = layer(alloc, b"x")?;
    local(alloc, Stat::Product, x, Term::Number(2))
}

fn body(alloc: Global) -> Result<Vec<(Name, Written)>, Fail>
    ensures { IfOk result (λ b. body_view b.items ≡ meant_twice.body) }
{
    let x = Name::plain(alloc, b"x")?;
    let first = sum(alloc)?;
    let last = Name::result(alloc)?;
    let second = product(alloc)?;
    Ok(vec![in alloc; (x, first), (last, second)]?)
}

fn parameters(alloc: Global) -> Result<Vec<Name>, Fail>
    ensures { IfOk result (λ ns. ns.items ≡ meant_twice.takes) }
{
    let value = Name::plain(alloc, b"P")?;
    let more = Name::plain(alloc, b"K")?;
    Ok(vec![in alloc; value, more]?)
}

/// `procedure Twice(P, K): x = LocalSum of P and K; result = LocalProduct of x and 2`.
fn twice(alloc: Global) -> Result<Procedure, Fail>
    ensures { IfOk result (λ p. procedure_view p ≡ meant_twice) }
{
    let name = Name::plain(alloc, b"Twice")?;
    let takes = parameters(alloc)?;
    let body = body(alloc)?;
    Ok(Procedure { name, takes, body })
}

fn with_twice(alloc: Global) -> Result<Procs, Fail> {
    let mut procs = Procs::new(alloc);
    let procedure = twice(alloc)?;
    procs.add(procedure)?;
    Ok(procs)
}

/// `Twice(A, 3)`.
fn call_of_twice(alloc: Global) -> Result<Written, Fail>
    ensures { IfOk result (λ w. written_view w ≡ call (codes "Twice") (layer_term (codes "A") ∷ number_term (pos 3) ∷ [])) }
{
    let procedure = Name::plain(alloc, b"Twice")?;
    let value = layer(alloc, b"A")?;
    let given = vec![in alloc; value, Term::Number(3)]?;
    Ok(Written::Call { procedure, given })
}

/// What `B = Twice(A, 3)` stands for.
fn flats(alloc: Global, procs: &Procs) -> Result<Vec<Flat>, Fail> {
    let name = Name::plain(alloc, b"B")?;
    let written = call_of_twice(alloc)?;
    Ok(expand(alloc, procs, &name, &written)?)
}

/// The canonical text of a flat statement.
fn flat_text(alloc: Global, flat: Option<&Flat>) -> Result<Vec<u8>, Fail> {
    let flat = flat.ok_or("no statement")?;
    let written = Written::Plain(flat.op.copy(alloc)?);
    Ok(print_written(alloc, &flat.name, &written)?)
}

#[test]
fn calls_are_flat(rt: HostRuntime) -> Result<(), Fail> {
    let procs = with_twice(rt.alloc())?.copy(rt.alloc())?;
    let flats = flats(rt.alloc(), &procs)?;
    let first = flat_text(rt.alloc(), flats.get(0))?;
    assert_eq!(rt; first.as_slice(), b"B.x = LocalSum of A and 3".as_slice());
    let own = flat_text(rt.alloc(), flats.get(1))?;
    assert_eq!(rt; own.as_slice(), b"B = LocalProduct of B.x and 2".as_slice());
    assert_eq!(rt; flats.len(), 2);
    Ok(())
}

/// How many terms the first wrong call of a procedure gives, and how many are wanted.
fn counts(alloc: Global, procs: &Procs, procedure: &Procedure) -> Option<(u64, u64)> {
    match procs.check(alloc, procedure) {
        Err(ExpandRefusal::Count(given, wanted)) => Some((given, wanted)),
        _ => None,
    }
}

/// A procedure whose result is `Twice(1)`.
fn short_call(alloc: Global) -> Result<Procedure, Fail> {
    let procedure = Name::plain(alloc, b"Twice")?;
    let given = vec![in alloc; Term::Number(1)]?;
    let last = Name::result(alloc)?;
    let body = vec![in alloc; (last, Written::Call { procedure, given })]?;
    let name = Name::plain(alloc, b"Short")?;
    let takes = Vec::new(alloc);
    Ok(Procedure { name, takes, body })
}

#[test]
fn wrong_calls_are_told(rt: HostRuntime) -> Result<(), Fail> {
    let procs = with_twice(rt.alloc())?;
    let procedure = short_call(rt.alloc())?;
    assert_eq!(rt; counts(rt.alloc(), &procs, &procedure), Some((1, 2)));
    Ok(())
}

/// How many names a procedure takes, and how many statements it has.
fn shape(procedure: Option<&Procedure>) -> Option<(usize, usize)> {
    let found = procedure?;
    Some((found.takes.len(), found.body.len()))
}

#[test]
fn procedures_are_found(rt: HostRuntime) -> Result<(), Fail> {
    let procs = with_twice(rt.alloc())?;
    let name = Name::plain(rt.alloc(), b"Twice")?;
    let shapes = [
        shape(procs.find(&name)),
        shape(procs.get(0)),
        shape(procs.get(1)),
    ];
    assert_eq!(rt; shapes, [Some((2, 2)), Some((2, 2)), None]);
    assert_eq!(rt; procs.count(), 1);
    Ok(())
}
