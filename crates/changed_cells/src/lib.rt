//! The places at which operands changed, found from the touched tiles alone, so that the work follows the edit and not
//! the map.
#![tactic(auto)]

mod changes;
mod unions;

pub use changes::changed_places;
pub use unions::changed_places_of_both;
