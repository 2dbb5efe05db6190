//! What branches of edits tell, each tried on a copy of an engine.
//!
//! [`run_branches`] tries up to 16 lists of edits and looks on the state of an engine, which stays as it is. [`look`] tells the cell in
//! a row and a column of an engine's map.
#![tactic(auto)]

mod branches;
mod items;
mod looks;
mod trials;

pub use branches::run_branches;
pub use items::Told;
pub use looks::{Seen, look};
