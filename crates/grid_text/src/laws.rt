//! Laws of the definitions.

ghost use Rattle.std.specs.Prelude.{List, ℕ};
ghost use Rattle.grid_text.specs.Grammar.{ReadsAll};
ghost use Rattle.grid_text.specs.ReadBack.{ReadsBack};
ghost use Rattle.grid_text.specs.Refusals.{RefusesAll};
ghost use Rattle.grid_text.specs.Rows.{Rows};
ghost use Rattle.grid_text.specs.Settled.{IsSettledText};

/// Reading finds the texts of grids, and no others.
pub fn texts_are_read()
    ensures { ReadsAll }
{}

/// Reading refuses each other text with its first fault, and no other.
pub fn refusals_are_first()
    ensures { RefusesAll }
{}

/// Each text holds one grid, or has one first fault.
pub fn texts_are_settled()
    ensures { (bytes : List ℕ) → IsSettledText bytes }
{}

/// What is printed reads back as the same header and cells.
pub fn printed_reads_back()
    ensures { ReadsBack }
{}

/// Worked texts hold what the definitions make of them.
pub fn worked_texts()
    ensures { Rows }
{}
