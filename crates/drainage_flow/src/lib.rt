//! Drainage. `direction` tells which neighbour of a cell the steepest way down leads to, and `direction_tile` makes a tile of
//! such directions. The flow of a cell is the sum of the weights of all cells whose course down passes it: `flow_law` says
//! that it is the one function that gives each cell its own weight and the flow of what drains to it. `flow_repair` gives the
//! flow after an edit as a patch of the flow before, or all of it where there was none. That first flow may also be made in
//! parts: `flow_of_band` gives the flow within some rows, `pour` puts that of the map into all such bands, and `flow_tile` makes a tile of it.
#![tactic(auto)]

mod bands;
mod courses;
mod directions;
mod first;
mod flow_band;
mod laws;
mod neighbours;
mod pools;
mod pouring;
mod queue;
mod ranges;
mod repair;
mod repairs;
mod seed;
mod settle;
mod showing;
mod whole;
mod winners;

pub use directions::{direction, direction_tile};
pub use flow_band::FlowBand;
pub use laws::flow_law;
pub use pools::{flow_of_band, pour};
pub use repairs::{Repair, first_flow_work, flow_repair};
pub use whole::flow_tile;
