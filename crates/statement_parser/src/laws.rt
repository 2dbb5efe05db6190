//! Laws of the definitions.

ghost use Rattle.map_words.specs.Bytes.{Text};
ghost use Rattle.statement_parser.specs.LineOf.{IsLineOf};
ghost use Rattle.statement_parser.specs.Lines.{Manner};
ghost use Rattle.statement_parser.specs.Worked.{Worked};
ghost use Rattle.statement_parser.specs.Texts.{IsSettledText};

/// All bytes are either one line, or refused in one way.
pub fn lines_are_settled()
    ensures { (m : Manner) (bytes : Text) → IsSettledText m bytes }
{}

/// The program of lines gives the one line that bytes are, or the one refusal.
pub fn lines_are_read()
    ensures { (m : Manner) (bytes : Text) → IsLineOf m bytes }
{}

/// Worked lines are what the definitions make of them.
pub fn worked_lines()
    ensures { Worked }
{}
