//! What the rows of a place mean for lines that are printed.

ghost use Rattle.statement_parser.specs.declared.language.Place.{Place};
ghost use Rattle.map_lines.specs.ReadAgain.{ReadsStatements, ReadsProcedures};

/// The printed text of a formed statement or procedure reads as itself wherever it is no longer than a line and, if it ignores nulls,
/// the language is the second.
pub fn printed_lines_read_again()
    ensures { (p : Place) → ReadsStatements p × ReadsProcedures p }
{}
