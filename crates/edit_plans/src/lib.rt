//! The plan that an edit makes, and the laws that what is made of the plan is what the map machine says.
#![tactic(auto)]

mod flats;
mod laws;
mod planning;

pub use flats::{Flat, FlatStatements};
pub use laws::{
    count_law, fault_law, kept_law, planned_law, read_law, stamp_law, touch_law, value_law,
};
pub use planning::{Planned, SourceNames, make_plan};
