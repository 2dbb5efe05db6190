//! What an edit does to the names of a map, as definitions: the state after it, or the first refusal.
//!
//! A state keeps sources with their grids and statements as they were written; it keeps no grid of a statement, and
//! `specs/EngineStates` evaluates each on whole grids. The engine is proved against these. The whole state has procedures,
//! labels, symbols and stamps beside the names (`specs/WholeStates`), and `specs/Counted` says what all edits do to it,
//! what each counts, and why it is refused. The functions do nothing: the contract of each is a law, or worked sessions.
#![tactic(auto)]

mod laws;

ghost use Rattle.map_edits.specs.SessionRows.{SessionRows};

pub use laws::{
    allowance_law, depth_law, lawful_law, limit_law, listing_law, stamp_law, unchanged_law,
    value_law,
};

/// Worked sessions answer, count, stamp and read as the definitions say.
pub fn worked_sessions()
    ensures { SessionRows }
{}
