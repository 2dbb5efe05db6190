//! Procedures.

ghost use Rattle.std.specs.Prelude.{◌≡◌, IfOk};
ghost use Rattle.statement_parser.specs.Procedures.{body_view, procedure_view};

use crate::line::Written;
use map_nums::NoMemory;
use map_words::Name;
use std::alloc::Global;

/// A procedure: its parameters, and the statements of its body by their names. The last name is `result`.
#[derive(Debug, Drop)]
pub struct Procedure {
    pub name: Name,
    pub takes: Vec<Name>,
    pub body: Vec<(Name, Written)>,
}

fn copy_names(alloc: Global, names: &[Name]) -> Result<Vec<Name>, NoMemory>
    ensures { IfOk result (λ v. v.items ≡ names.now) }
{
    let mut copies = Vec::new(alloc);
    for name in names {
        copies.push(name.copy(alloc)?)?;
    }
    Ok(copies)
}

fn copy_body(alloc: Global, body: &[(Name, Written)]) -> Result<Vec<(Name, Written)>, NoMemory>
    ensures { IfOk result (λ v. body_view v.items ≡ body_view body.now) }
{
    let mut copies = Vec::new(alloc);
    for inner in body {
        let name = inner.0.copy(alloc)?;
        let written = inner.1.copy(alloc)?;
        copies.push((name, written))?;
    }
    Ok(copies)
}

impl Procedure {
    pub fn copy(&self, alloc: Global) -> Result<Procedure, NoMemory>
        ensures { IfOk result (λ p. procedure_view p ≡ procedure_view self.now) }
    {
        let name = self.name.copy(alloc)?;
        let takes = copy_names(alloc, self.takes.as_slice())?;
        let body = copy_body(alloc, self.body.as_slice())?;
        Ok(Procedure { name, takes, body })
    }
}
