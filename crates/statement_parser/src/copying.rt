//! Copies of terms, operations, statements' bodies and edits.

ghost use Rattle.std.specs.Prelude.{◌≡◌, IfOk};
ghost use Rattle.statement_parser.specs.Views.{op_view, written_view, edit_view};

use crate::line::{LineEdit, Written};
use crate::op::{Op, Term};
use crate::substitution::{Substitution, terms_with};
use layer_tiles::Text;
use map_nums::NoMemory;
use std::alloc::Global;

/// Each term in place of itself.
struct Itself;

impl Substitution for Itself {
    ghost becomes = { λ _ t. t };

    fn term(&self, alloc: Global, term: &Term) -> Result<Term, NoMemory> {
        term.copy(alloc)
    }
}

impl Term {
    pub fn copy(&self, alloc: Global) -> Result<Term, NoMemory>
        ensures { IfOk result (λ t. t ≡ self.now) }
    {
        match self {
            Term::Layer(name) => Ok(Term::Layer(name.copy(alloc)?)),
            Term::Number(value) => Ok(Term::Number(*value)),
        }
    }
}

impl Op {
    pub fn copy(&self, alloc: Global) -> Result<Op, NoMemory>
        ensures { IfOk result (λ o. op_view o ≡ op_view self.now) }
    {
        self.with_terms(alloc, &Itself)
    }
}

impl Written {
    pub fn copy(&self, alloc: Global) -> Result<Written, NoMemory>
        ensures { IfOk result (λ w. written_view w ≡ written_view self.now) }
    {
        match self {
            Written::Plain(op) => Ok(Written::Plain(op.copy(alloc)?)),
            Written::Call { procedure, given } => {
                let procedure = procedure.copy(alloc)?;
                let given = terms_with(alloc, &Itself, given.as_slice())?;
                Ok(Written::Call { procedure, given })
            }
        }
    }
}

impl LineEdit {
    pub fn copy(&self, alloc: Global) -> Result<LineEdit, NoMemory>
        ensures { IfOk result (λ e. edit_view e ≡ edit_view self.now) }
    {
        match self {
            LineEdit::Define { name, written } => {
                let name = name.copy(alloc)?;
                let written = written.copy(alloc)?;
                Ok(LineEdit::Define { name, written })
            }
            LineEdit::Paint {
                name,
                r1,
                c1,
                r2,
                c2,
                cell,
            } => {
                let name = name.copy(alloc)?;
                Ok(LineEdit::Paint {
                    name,
                    r1: *r1,
                    c1: *c1,
                    r2: *r2,
                    c2: *c2,
                    cell: *cell,
                })
            }
            LineEdit::New { name, cell } => {
                let name = name.copy(alloc)?;
                Ok(LineEdit::New { name, cell: *cell })
            }
            LineEdit::Drop { name } => {
                let name = name.copy(alloc)?;
                Ok(LineEdit::Drop { name })
            }
            LineEdit::Procedure(procedure) => Ok(LineEdit::Procedure(procedure.copy(alloc)?)),
            LineEdit::Label { name, value, text } => {
                let name = name.copy(alloc)?;
                let text = Text::of(alloc, text.bytes())?;
                Ok(LineEdit::Label {
                    name,
                    value: *value,
                    text,
                })
            }
            LineEdit::Symbol { name, value, sign } => {
                let name = name.copy(alloc)?;
                Ok(LineEdit::Symbol {
                    name,
                    value: *value,
                    sign: *sign,
                })
            }
        }
    }
}
