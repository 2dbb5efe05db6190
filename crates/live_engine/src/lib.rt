//! A map whose statements stay up to date while it is edited.
//!
//! [`Engine`] is seen as the whole state of the map machine. [`Engine::edit`] repairs what an edit damages, counts it, and puts it in
//! place; a refused edit changes nothing. [`Engine::edit_kept`] answers what takes the edit back as well, and [`Engine::revert`] takes it back.
#![tactic(auto)]

mod adding;
mod counting;
mod defining;
mod drafts;
mod dropping;
mod edits;
mod engine;
mod expanding;
mod graphs;
mod halted;
mod inverses;
mod limits;
mod marks;
mod noting;
mod painting;
mod placing;
mod procedures;
mod repainting;
mod reverting;
mod settling;
mod statement_graphs;
mod statement_limits;

pub use drafts::{Change, Draft};
pub use edits::{Accepted, Edit, Refusal, Which};
pub use engine::{Engine, Entry};
pub use inverses::Inverse;
pub use noting::NoteBack;
pub use painting::Rectangle;
pub use repainting::Repaint;
