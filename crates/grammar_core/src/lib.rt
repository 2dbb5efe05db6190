//! Grammars as trees of rules over any type of words: what a line of such a grammar is, where and why other words are
//! refused, and that reading word by word finds the line or exactly that refusal.
//!
//! A [`Fault`] tells its [`Kind`] and its place by the number of words from it on. Its definition is a property of the
//! grammar alone: the first word that, after the words before it, goes on no line.
#![tactic(auto)]

/// Why words are refused.
#[derive(Clone, Copy, Debug, PartialEq, Eq)]
pub enum Kind {
    /// The word goes on no line, or the line ends too early.
    Syntax,
    /// A number that is due is outside the range of its place.
    Number,
    /// A word of a name's form that is no operation, where one is due.
    Operation,
}

/// A refusal, and how many words are left from the fault on: 0 where the line ends too early.
#[derive(Clone, Copy, Debug, PartialEq, Eq)]
pub struct Fault {
    pub kind: Kind,
    pub left: usize,
}
