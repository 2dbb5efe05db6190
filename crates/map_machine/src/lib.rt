//! The map machine: what the program means, as definitions.
//!
//! The machine keeps sources, statements, procedures, labels, symbols, stamps, the number of edits, the language of the next line,
//! and the parts of up to 64 earlier states, and evaluates every statement on whole grids at each reply. `specs/` has it, from the lines of a session's bytes (`Lines`) to the text of a whole run (`Play`)
//! and what a run may read (`RunReads`). The engine and the top call are proved against it; nothing here runs.
#![tactic(auto)]

ghost use Rattle.map_machine.specs.BranchLaws.{ReplyAsLines, LeaveTheState};
ghost use Rattle.map_machine.specs.UndoLaws.{UndosLeadBack};

/// After at most 64 accepted edits as many undos lead back to the sources, statements, procedures, labels and symbols that there
/// were.
pub fn undo_law()
    ensures { UndosLeadBack }
{}

/// A branch replies what its items would as lines of a session from the state that stands, and the line leaves this state as it is.
pub fn branch_law()
    ensures replies { ReplyAsLines }
    ensures leaves { LeaveTheState }
{}

/// What became of a line.
#[derive(Clone, Copy, Debug, PartialEq, Eq)]
pub enum Kind {
    /// Nothing is replied.
    Silent,
    /// The line sets the language; nothing is replied.
    Model,
    /// The line is an edit, or takes one back, and was accepted.
    Accepted,
    /// The line is a request, and was answered.
    Shown,
    /// The line was refused, and changed nothing.
    Refused,
    /// The line ends the session.
    Quit,
}
