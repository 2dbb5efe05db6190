//! Statements repaired after an edit, depth by depth.
//!
//! A [`Maker`] tells how one statement is cut into jobs. [`repair_all`] repairs all [`Step`]s over a [`Base`], which is what was
//! kept before the edit: those of one depth are at work together, and their jobs are one run of tickets for the workers. It gives
//! a [`Made`] for each statement that doesn't stay as it was. [`count_all`] counts what was done, and [`place_all`] puts it in place.
#![tactic(auto)]

mod begin;
mod counting;
mod finish;
mod gather;
mod halts;
mod jobs;
mod keeping;
mod laws;
mod operands;
mod parts;
mod phases;
mod placing;
mod plans;
mod refusals;
mod skips;
mod stops;
mod tasks;
mod tickets;

pub use counting::{Counts, count_all};
pub use halts::{NoJobs, Stop};
pub use jobs::{Jobs, Maker};
pub use keeping::{Aside, Kept, Made, Renewal};
pub use laws::{kept_law, placed_law, values_law};
pub use parts::all_found;
pub use phases::repair_all;
pub use placing::{place, place_all, renew_all};
pub use plans::{Base, Ref, Shift, Step};
pub use tickets::WORTH_A_WORKER;
