//! What the names of a procedure's body stand for.

ghost use Rattle.std.specs.Prelude.{◌≡◌, ◌∷◌, ◌++◌, [], IfOk, OnOk, length};
ghost use Rattle.map_defs.specs.Bindings.{named_term as term_named, given_for};
ghost use Rattle.statement_parser.specs.Views.{term_view, terms_view};
ghost use Rattle.procedure_expand.specs.Flats.{binding_view, bindings_view, bound_view};

use map_nums::NoMemory;
use map_words::Name;
use statement_parser::{Substitution, Term};
use std::alloc::Global;

/// A name, and the term that it stands for.
#[derive(Drop)]
pub(crate) struct Binding {
    name: Name,
    term: Term,
}

/// Names with their terms; of two with one name the first holds.
#[derive(Drop)]
pub(crate) struct Bindings {
    list: Vec<Binding>,
}

/// The term of the first binding of the name; else the layer of that name.
fn named_term(alloc: Global, bindings: &[Binding], name: &Name) -> Result<Term, NoMemory>
    ensures { IfOk result (λ t. term_view t ≡ term_named (bindings_view bindings.now) name.now) }
{
    match bindings {
        [] => Ok(Term::Layer(name.copy(alloc)?)),
        [first, rest @ ..] => if first.name == *name {
            first.term.copy(alloc)
        } else {
            named_term(alloc, rest, name)
        },
    }
}

impl Bindings {
    /// The parameters with the terms that are given.
    pub(crate) fn given(alloc: Global, takes: &[Name], given: &[Term]) -> Result<Bindings, NoMemory>
        requires { length takes.now ≡ length given.now }
        ensures { IfOk result (λ bs. bound_view bs ≡ given_for takes.now (terms_view given.now)) }
    {
        let mut list = Vec::new(alloc);
        for at in 0..takes.len() {
            let name = takes[at].copy(alloc)?;
            let term = given[at].copy(alloc)?;
            list.push(Binding { name, term })?;
        }
        Ok(Bindings { list })
    }

    /// One binding more, after the others.
    pub(crate) fn bind(&mut self, name: Name, term: Term) -> Result<(), NoMemory>
        ensures { OnOk result (bound_view self.new ≡ bound_view self.old ++ record { name = name; term = term_view term } ∷ []) }
    {
        self.list.push(Binding { name, term })?;
        Ok(())
    }
}

impl Substitution for Bindings {
    ghost use Rattle.map_defs.specs.Bindings.{term_with};

    ghost becomes = { λ b. term_with (bound_view b) };

    fn term(&self, alloc: Global, term: &Term) -> Result<Term, NoMemory> {
        match term {
            Term::Layer(name) => named_term(alloc, self.list.as_slice(), name),
            Term::Number(value) => Ok(Term::Number(*value)),
        }
    }
}
