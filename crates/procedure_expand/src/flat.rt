//! Flat statements.

ghost use Rattle.std.specs.Prelude.{◌≡◌, ◌≤◌, ◌∷◌, [], length, Ok};
ghost use Rattle.map_defs.specs.Expansion.{both_flats};
ghost use Rattle.procedure_expand.specs.Flats.{flat_view, flats_view};
ghost use Rattle.procedure_expand.specs.Answers.{Gives, most_flats};

use crate::refusal::ExpandRefusal;
use map_words::Name;
use statement_parser::Op;

/// The most flat statements.
const MOST_FLATS: usize = 64;

/// A statement that is one operation.
#[derive(Debug, Drop)]
pub struct Flat {
    pub name: Name,
    pub op: Op,
}

pub(crate) fn put(out: &mut Vec<Flat>, flat: Flat) -> Result<(), ExpandRefusal>
    requires { length (flats_view out.old.items) ≤ most_flats }
    ensures { Gives (flats_view out.new.items) (both_flats (Ok (flats_view out.old.items)) (Ok (flat_view flat ∷ []))) result }
{
    if out.len() == MOST_FLATS {
        return Err(ExpandRefusal::Limit);
    }
    out.push(flat)?;
    Ok(())
}
