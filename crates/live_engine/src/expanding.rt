//! What a statement stands for.

ghost use Rattle.std.specs.Prelude.{◌≡◌, [], IfOk, IsTrue};
ghost use Rattle.std.specs.List.{All};
ghost use Rattle.map_words.specs.Names.{is_plain};
ghost use Rattle.map_defs.specs.Expansion.{expansion_of};
ghost use Rattle.map_defs.specs.FlatNames.{IsInside, AreFlats};
ghost use Rattle.statement_parser.specs.Formed.{IsWritten, IsProcedure};
ghost use Rattle.statement_parser.specs.Views.{op_view, written_view};
ghost use Rattle.procedure_expand.specs.Flats.{flats_view};
ghost use Rattle.op_jobs.specs.Ranges.{HasRanges};
ghost use Rattle.live_engine.specs.Expanding.{StandsFor, not_expanded};

use crate::edits::{Refusal, Which};
use map_words::Name;
use procedure_expand::{ExpandRefusal, Flat, Procs, expand};
use statement_parser::Written;
use std::alloc::Global;

/// Why a call isn't expanded, as a refusal of the edit.
pub(crate) fn not_expanded(refusal: ExpandRefusal) -> Refusal
    ensures { result ≡ not_expanded refusal }
{
    match refusal {
        ExpandRefusal::Unknown(procedure) => Refusal::NoProcedure(procedure),
        ExpandRefusal::Count(given, wanted) => Refusal::Terms(given, wanted),
        ExpandRefusal::Limit => Refusal::Limit(Which::Statements),
        ExpandRefusal::NoMemory => Refusal::NoMemory,
    }
}

/// The flat statements that a statement stands for, its own the last.
///
/// # Errors
///
/// `NoProcedure` and `Terms` where a call is wrong, `Limit` where there would be more than 64 of them. `NoMemory`.
pub(crate) fn expanded(
    alloc: Global,
    procedures: &Procs,
    name: &Name,
    written: &Written,
) -> Result<Vec<Flat>, Refusal>
    requires procedures { All IsProcedure procedures.now }
    requires plain { IsTrue (is_plain name.now) }
    requires formed { IsWritten (written_view written.now) }
    ensures flats { StandsFor (expansion_of procedures.now name.now (written_view written.now)) result }
    ensures named { IfOk result (λ fs. AreFlats (IsInside name.now) name.now [] (flats_view fs.items)) }
    ensures ranges { IfOk result (λ fs. All (λ f. HasRanges (op_view f.op)) fs.items) }
{
    match expand(alloc, procedures, name, written) {
        Ok(flats) => Ok(flats),
        Err(refusal) => Err(not_expanded(refusal)),
    }
}
