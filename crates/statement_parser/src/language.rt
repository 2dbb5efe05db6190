//! Languages, and the places of a session where a line may set one.

/// A version of the map language.
#[derive(Clone, Copy, Debug, PartialEq, Eq)]
pub enum Language {
    /// A null operand of a Local statistic makes null.
    One,
    /// Local statistics may end in `ignoring nulls`.
    Two,
}

/// Where a line stands in a session.
#[derive(Clone, Copy, Debug, PartialEq, Eq)]
pub struct Place {
    /// The language that it is written in.
    pub language: Language,
    /// Whether a line `model` may still set the language: up to the first of them, and to the first edit that is accepted.
    pub early: bool,
}
