//! Procedures, and the flat statements that calls of them stand for.
//!
//! [`Procs`] holds procedures in order of definition; each calls earlier ones alone. [`expand`] gives the flat statements of a
//! written one: a plain operation gives itself, and a call gives the body of its procedure, with the given terms in place of the
//! parameters and with names that begin with the statement's.
#![tactic(auto)]

mod bindings;
mod checking;
mod expansion;
mod flat;
mod procs;
mod refusal;
mod worked;

pub use flat::Flat;
pub use procs::{Procs, expand};
pub use refusal::ExpandRefusal;
pub use worked::worked_procedures;
