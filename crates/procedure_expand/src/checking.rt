//! Which calls of a body are wrong.

ghost use Rattle.std.specs.Prelude.{◌≡◌, length};
ghost use Rattle.map_defs.specs.Calls.{wrong_in, wrong_call};
ghost use Rattle.statement_parser.specs.Views.{terms_view, written_view};
ghost use Rattle.statement_parser.specs.Procedures.{procedures_view, body_view};
ghost use Rattle.procedure_expand.specs.Answers.{Finds};

use crate::expansion::find_in;
use crate::refusal::ExpandRefusal;
use map_words::Name;
use statement_parser::{Procedure, Written};
use std::alloc::Global;

/// Whether a statement's call is of a procedure that is there, with as many terms as it takes.
pub(crate) fn check_written(
    alloc: Global,
    procedures: &[Procedure],
    written: &Written,
) -> Result<(), ExpandRefusal>
    ensures { Finds (wrong_in (procedures_view procedures.now) (written_view written.now)) result }
{
    match written {
        Written::Plain(_) => Ok(()),
        Written::Call { procedure, given } => match find_in(procedures, procedure) {
            None => Err(ExpandRefusal::Unknown(procedure.copy(alloc)?)),
            Some(found) => {
                if given.len() != found.takes.len() {
                    return Err(ExpandRefusal::Count(given.len() as u64, found.takes.len() as u64));
                }
                Ok(())
            }
        },
    }
}

/// The first wrong call of a body, where the procedures before it are these.
pub(crate) fn check_body(
    alloc: Global,
    procedures: &[Procedure],
    body: &[(Name, Written)],
) -> Result<(), ExpandRefusal>
    ensures { Finds (wrong_call (procedures_view procedures.now) (body_view body.now)) result }
{
    for inner in body {
        check_written(alloc, procedures, &inner.1)?;
    }
    Ok(())
}
