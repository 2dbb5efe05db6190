//! Procedures are defined.

ghost use Rattle.std.specs.Prelude.{◌≡◌, ◌+◌, ◌<◌, ◌≤◌, false, length, None, OnOk, IfErr};
ghost use Rattle.map_defs.specs.Calls.{wrong_call};
ghost use Rattle.map_defs.specs.Expansion.{find_procedure};
ghost use Rattle.statement_parser.specs.Formed.{IsProcedure};
ghost use Rattle.statement_parser.specs.Procedures.{procedure_view};
ghost use Rattle.map_edits.specs.Attempts.{most_procedures};
ghost use Rattle.map_edits.specs.WholeStates.{WholeState};
ghost use Rattle.map_edits.specs.WholeEdits.{define_procedure as defines};
ghost use Rattle.kept_map.specs.Maps.{seen};
ghost use Rattle.kept_map.specs.Keeps.{IsKept};
ghost use Rattle.live_engine.specs.Accepts.{Refuses};
ghost use Rattle.live_engine.specs.Inverses.{AcceptsBack};

use crate::edits::{Accepted, Refusal, Which};
use crate::expanding::not_expanded;
use crate::inverses::Inverse;
use crate::noting::{Note, take_note};
use kept_map::KeptMap;
use procedure_expand::Procs;
use statement_parser::Procedure;
use std::alloc::Global;

/// The most procedures.
const MOST_PROCEDURES: usize = 32;

/// Looks whether the calls of a procedure are right, and whether there would be too many procedures.
fn check(alloc: Global, procedures: &Procs, procedure: &Procedure) -> Result<(), Refusal>
    requires new { find_procedure procedures.now procedure.now.name ≡ None }
    ensures right { OnOk result (wrong_call procedures.now (procedure_view procedure.now).body ≡ None) }
    ensures few { OnOk result (length procedures.now + 1 ≤ most_procedures) }
    ensures refused { (s : WholeState) → s.procedures ≡ procedures.now → IfErr result (Refuses s s (defines (procedure_view procedure.now))) }
{
    match procedures.check(alloc, procedure) {
        Ok(()) => {}
        Err(refusal) => return Err(not_expanded(refusal)),
    }
    if procedures.count() >= MOST_PROCEDURES {
        return Err(Refusal::Limit(Which::Procedures));
    }
    Ok(())
}

/// Defines a procedure, after all others.
pub(crate) fn define_procedure(
    map: &mut KeptMap,
    alloc: Global,
    procedure: Procedure,
) -> Result<(Accepted, Inverse), Refusal>
    requires kept { IsKept map.old }
    requires formed { IsProcedure (procedure_view procedure) }
    ensures accepts { AcceptsBack (seen map.old) (seen map.new) (defines (procedure_view procedure)) result }
    ensures kept { IsKept map.new }
{
    if map.procedures.find(&procedure.name).is_some() {
        return Err(Refusal::Exists(procedure.name));
    }
    match check(alloc, &map.procedures, &procedure) {
        Ok(()) => {}
        Err(refusal) => return Err(refusal),
    }
    take_note(map, alloc, Note::Procedure(procedure))
}
