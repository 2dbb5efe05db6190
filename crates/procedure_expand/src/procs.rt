//! Procedures in order of definition.

ghost use Rattle.std.specs.Prelude.{◌≡◌, ◌<◌, ◌≤◌, ◌++◌, ◌∷◌, [], length, IfOk, OnOk, OnErr, Ok, None, List, option_copied, option_map, slice_get};
ghost use Rattle.map_defs.specs.Statements.{Procedure as Meant};
ghost use Rattle.map_defs.specs.Expansion.{find_procedure, expansion_of, both_flats};
ghost use Rattle.map_defs.specs.Calls.{wrong_call, wrong_in};
ghost use Rattle.statement_parser.specs.Views.{written_view};
ghost use Rattle.statement_parser.specs.Procedures.{procedure_view, procedures_view, body_view};
ghost use Rattle.map_defs.specs.MadeProcedures.{written_names, IsBody, IsUndotted};
ghost use Rattle.procedure_expand.specs.CalledProcedures.{IsPlain, AreShort, HaveShortNames, AreProcs, most_procedures};
ghost use Rattle.map_defs.specs.FlatNames.{Each, IsInside, AreFlats};
ghost use Rattle.procedure_expand.specs.Flats.{flats_view};
ghost use Rattle.procedure_expand.specs.Answers.{Gives, Finds, IsExpanded, IsRefused, IsPrefix, most_flats};

use crate::checking::{check_body, check_written};
use crate::expansion::{Scope, expand_call, find_in};
use crate::flat::{Flat, put};
use crate::refusal::ExpandRefusal;
use map_nums::NoMemory;
use map_words::Name;
use statement_parser::{Procedure, Written};
use std::alloc::Global;
use std::marker::Model;

/// Procedures in order of definition, each with calls of earlier ones alone; seen as what they mean.
#[derive(Drop)]
pub struct Procs {
    list: Vec<Procedure>,
}

impl Model for Procs {
    ghost use Rattle.std.specs.Prelude.{List};
    ghost use Rattle.map_defs.specs.Statements.{Procedure as Meant};
    ghost use Rattle.statement_parser.specs.Procedures.{procedures_view};
    ghost use Rattle.procedure_expand.specs.CalledProcedures.{AreProcs};

    ghost Value = { List Meant };

    ghost view = { λ p. procedures_view p.list.items };

    ghost invariant = { λ p. AreProcs (procedures_view p.list.items) };
}

fn copy_list(alloc: Global, list: &[Procedure]) -> Result<Vec<Procedure>, NoMemory>
    ensures { IfOk result (λ v. procedures_view v.items ≡ procedures_view list.now) }
{
    let mut copies = Vec::new(alloc);
    for procedure in list {
        copies.push(procedure.copy(alloc)?)?;
    }
    Ok(copies)
}

impl Procs {
    /// No procedures.
    pub fn new(alloc: Global) -> Procs
        ensures { result ≡ [] }
    {
        Procs {
            list: Vec::new(alloc),
        }
    }

    /// A copy of all of them.
    pub fn copy(&self, alloc: Global) -> Result<Procs, NoMemory>
        ensures { IfOk result (λ p. p ≡ self.now) }
    {
        let list = copy_list(alloc, self.list.as_slice())?;
        Ok(Procs { list })
    }

    /// How many there are.
    pub fn count(&self) -> usize
        ensures count { result ≡ length self.now }
        ensures procs { AreProcs self.now }
    {
        self.list.len()
    }

    /// The procedure of this name; looks at each in turn.
    pub fn find(&self, name: &Name) -> Option<&Procedure>
        ensures { option_map procedure_view (option_copied result) ≡ find_procedure self.now name.now }
    {
        find_in(self.list.as_slice(), name)
    }

    /// The procedure at this place, from 0.
    pub fn get(&self, place: u32) -> Option<&Procedure>
        ensures { option_map procedure_view (option_copied result) ≡ slice_get self.now place }
    {
        self.list.get(place as usize)
    }

    /// Whether each call of a procedure's body is of one of these, with as many terms as it takes.
    ///
    /// # Errors
    ///
    /// Of the first call that isn't: `Unknown` where its procedure isn't there, else `Count`. Never `Limit`.
    pub fn check(&self, alloc: Global, procedure: &Procedure) -> Result<(), ExpandRefusal>
        ensures { Finds (wrong_call self.now (body_view procedure.now.body.items)) result }
    {
        check_body(alloc, self.list.as_slice(), procedure.body.as_slice())
    }

    /// Puts a procedure after all others, whose calls are right and whose name is new. After `NoMemory` they are as before.
    pub fn add(&mut self, procedure: Procedure) -> Result<(), NoMemory>
        requires new { find_procedure self.old procedure.name ≡ None }
        requires right { wrong_call self.old (body_view procedure.body.items) ≡ None }
        requires body { IsBody (body_view procedure.body.items) }
        requires short { AreShort (body_view procedure.body.items) }
        requires few { length self.old < most_procedures }
        ensures ok { OnOk result (self.new ≡ self.old ++ procedure_view procedure ∷ []) }
        ensures err { OnErr result (self.new ≡ self.old) }
    {
        self.list.push(procedure)?;
        Ok(())
    }

    /// Takes the last procedure away, without memory.
    pub fn drop_last(&mut self)
        requires { 0 < length self.old }
        ensures { (ps : List Meant) (p : Meant) → self.old ≡ ps ++ p ∷ [] → self.new ≡ ps }
    {
        self.list.pop();
    }
}

/// Puts out what a statement stands for.
fn put_written(
    alloc: Global,
    procedures: &[Procedure],
    name: &Name,
    written: &Written,
    out: &mut Vec<Flat>,
) -> Result<(), ExpandRefusal>
    requires short { HaveShortNames (procedures_view procedures.now) }
    requires prefix { IsPrefix (length procedures.now) name.now }
    requires few { length (flats_view out.old.items) ≤ most_flats }
    ensures { Gives (flats_view out.new.items) (both_flats (Ok (flats_view out.old.items)) (expansion_of (procedures_view procedures.now) name.now (written_view written.now))) result }
{
    let own = name.copy(alloc)?;
    match written {
        Written::Plain(op) => {
            let op = op.copy(alloc)?;
            put(out, Flat { name: own, op })
        }
        Written::Call { procedure, given } => {
            let scope = Scope { alloc, procedures };
            expand_call(
                &scope,
                procedures.len(),
                own,
                name,
                procedure,
                given.as_slice(),
                out,
            )
        }
    }
}

/// The flat statements that a written statement stands for, its own the last; each other has a name that begins with the
/// statement's and a dot, and all names differ. Ends with the sixty-fifth flat statement, however many there would be.
///
/// # Errors
///
/// `Unknown` where the called procedure isn't there, `Count` where it takes another number of terms, `Limit` where there would be
/// more than 64 flat statements, `NoMemory`.
pub fn expand(
    alloc: Global,
    procs: &Procs,
    name: &Name,
    written: &Written,
) -> Result<Vec<Flat>, ExpandRefusal>
    requires plain { IsPlain name.now }
    requires undotted { Each IsUndotted (written_names (written_view written.now)) }
    ensures expanded { IsExpanded (expansion_of procs.now name.now (written_view written.now)) result }
    ensures wrong { IsRefused (wrong_in procs.now (written_view written.now)) result }
    ensures named { IfOk result (λ fs. AreFlats (IsInside name.now) name.now [] (flats_view fs.items)) }
{
    check_written(alloc, procs.list.as_slice(), written)?;
    let mut out = Vec::new(alloc);
    put_written(alloc, procs.list.as_slice(), name, written, &mut out)?;
    Ok(out)
}
