//! Calls and bodies, put out as flat statements.

ghost use Rattle.std.specs.Prelude.{◌≡◌, ◌≢◌, ◌+◌, ◌*◌, ◌≤◌, ◌∷◌, ◌++◌, [], codes, length, map, IfOk, Ok, bytes_eq, option_copied, option_map, if◌then◌else◌};
ghost use Rattle.statement_parser.specs.Views.{terms_view, written_view};
ghost use Rattle.statement_parser.specs.Procedures.{procedure_view, procedures_view, body_view};
ghost use Rattle.map_defs.specs.Expansion.{find_procedure, both_flats, body_flats, call_flats, inner_flats, inner_name as meant_name, dotted};
ghost use Rattle.map_defs.specs.MadeProcedures.{is_result as is_result_name};
ghost use Rattle.procedure_expand.specs.CalledProcedures.{AreShort, HaveShortNames};
ghost use Rattle.procedure_expand.specs.Flats.{flats_view, bound_view};
ghost use Rattle.procedure_expand.specs.Answers.{Gives, IsPrefix, most_flats};

use crate::bindings::Bindings;
use crate::flat::{Flat, put};
use crate::refusal::ExpandRefusal;
use map_nums::NoMemory;
use map_words::Name;
use statement_parser::{Procedure, Term, Written, terms_with};
use std::alloc::Global;

/// What calls are expanded within: the procedures that they may name, and memory.
#[derive(Clone, Copy)]
pub(crate) struct Scope<'a> {
    pub alloc: Global,
    pub procedures: &'a [Procedure],
}

/// The first procedure of the name.
pub(crate) fn find_in<'a>(procedures: &'a [Procedure], name: &Name) -> Option<&'a Procedure>
    ensures { option_map procedure_view (option_copied result) ≡ find_procedure (procedures_view procedures.now) name.now }
{
    match procedures {
        [] => None,
        [first, rest @ ..] => if first.name == *name {
            Some(first)
        } else {
            find_in(rest, name)
        },
    }
}

fn is_result(name: &Name) -> bool
    ensures { result ≡ is_result_name name.now }
{
    name.bytes() == b"result".as_slice()
}

/// The name of an inner statement's own flat statement.
fn inner_name(alloc: Global, name: &Name, longer: &Name, inner: &Name) -> Result<Name, NoMemory>
    ensures { IfOk result (λ n. n ≡ (if bytes_eq inner.now (codes "result") then name.now else longer.now)) }
{
    if is_result(inner) {
        name.copy(alloc)
    } else {
        longer.copy(alloc)
    }
}

#[cycle(expansion)]
fn expand_inner(
    scope: &Scope<'_>,
    depth: usize,
    bindings: &Bindings,
    name: Name,
    prefix: &Name,
    written: &Written,
    out: &mut Vec<Flat>,
) -> Result<(), ExpandRefusal>
    requires short { HaveShortNames (procedures_view scope.now.procedures.now) }
    requires prefix { IsPrefix depth prefix.now }
    requires few { length (flats_view out.old.items) ≤ most_flats }
    ensures { Gives (flats_view out.new.items) (both_flats (Ok (flats_view out.old.items)) (inner_flats (call_flats depth (procedures_view scope.now.procedures.now)) (bound_view bindings.now) name prefix.now (written_view written.now))) result }
{
    match written {
        Written::Plain(op) => {
            let op = op.with_terms(scope.alloc, bindings)?;
            put(out, Flat { name, op })
        }
        Written::Call { procedure, given } => {
            let terms = terms_with(scope.alloc, bindings, given.as_slice())?;
            expand_call(scope, depth, name, prefix, procedure, terms.as_slice(), out)
        }
    }
}

#[cycle(expansion)]
fn expand_body(
    scope: &Scope<'_>,
    depth: usize,
    name: &Name,
    prefix: &Name,
    mut bindings: Bindings,
    body: &[(Name, Written)],
    out: &mut Vec<Flat>,
) -> Result<(), ExpandRefusal>
    requires short { HaveShortNames (procedures_view scope.now.procedures.now) }
    requires body { AreShort (body_view body.now) }
    requires prefix { IsPrefix (depth + 1) prefix.now }
    requires few { length (flats_view out.old.items) ≤ most_flats }
    ensures { Gives (flats_view out.new.items) (both_flats (Ok (flats_view out.old.items)) (body_flats (call_flats depth (procedures_view scope.now.procedures.now)) name.now prefix.now (bound_view bindings) (body_view body.now))) result }
{
    for inner in body {
        let longer = prefix.join(scope.alloc, &inner.0)?;
        let own = inner_name(scope.alloc, name, &longer, &inner.0)?;
        let meant = own.copy(scope.alloc)?;
        expand_inner(scope, depth, &bindings, own, &longer, &inner.1, out)?;
        bindings.bind(inner.0.copy(scope.alloc)?, Term::Layer(meant))?;
    }
    Ok(())
}

#[cycle(expansion)]
pub(crate) fn expand_call(
    scope: &Scope<'_>,
    depth: usize,
    name: Name,
    prefix: &Name,
    called: &Name,
    given: &[Term],
    out: &mut Vec<Flat>,
) -> Result<(), ExpandRefusal>
    requires short { HaveShortNames (procedures_view scope.now.procedures.now) }
    requires prefix { IsPrefix depth prefix.now }
    requires few { length (flats_view out.old.items) ≤ most_flats }
    ensures { Gives (flats_view out.new.items) (both_flats (Ok (flats_view out.old.items)) (call_flats depth (procedures_view scope.now.procedures.now) name prefix.now called.now (terms_view given.now))) result }
{
    if depth == 0 {
        return Err(ExpandRefusal::Unknown(called.copy(scope.alloc)?));
    }
    let procedure = match find_in(scope.procedures, called) {
        None => return Err(ExpandRefusal::Unknown(called.copy(scope.alloc)?)),
        Some(procedure) => procedure,
    };
    if given.len() != procedure.takes.len() {
        return Err(ExpandRefusal::Count(given.len() as u64, procedure.takes.len() as u64));
    }
    let bindings = Bindings::given(scope.alloc, procedure.takes.as_slice(), given)?;
    expand_body(
        scope,
        depth - 1,
        &name,
        prefix,
        bindings,
        procedure.body.as_slice(),
        out,
    )
}
