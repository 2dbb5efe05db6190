//! Edits that can be taken back.
//!
//! [`History`] keeps what takes back the newest 64 edits of an engine. [`History::apply`] makes an edit and keeps what takes it back;
//! [`History::undo`] takes back the newest.
#![tactic(auto)]

mod history;

pub use history::{History, UndoRefusal};
