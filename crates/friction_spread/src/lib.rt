//! Least costs of spreading from sources over frictions, and their repair.
//!
//! `spread_repair` gives the tiles that change and the work that it took. The places that disagree with their equation stand in
//! a queue (`least_costs`), and are put right in the order of their keys. Where there are no costs yet, they only fall: cells and costs
//! are kept in lists then, and the tiles made of the costs at the end. The rows may also be dealt out: `costs_of_band` finds
//! the costs within a band of rows, and `spread_of_bands` those of the map from the bands', in a list whose tiles can be made one by one.
//!
//! What else goes over cells as frictions and costs has their numbers from here: `friction_of`, `cost_of`, `limit_of`, a `Spot`, what a step
//! weighs and what it costs at least.
#![tactic(auto)]

mod bands;
mod costs;
mod deals;
mod equations;
mod fills;
mod first;
mod flat;
mod ground;
mod lists;
mod looks;
mod offers;
mod raises;
mod reaches;
mod repair;
mod settle;
mod shows;

pub use bands::{CostBand, costs_of_band, spread_of_bands};
pub use costs::cost_of;
pub use equations::{least_step, weigh};
pub use first::Repair;
pub use ground::{Spot, friction_of, limit_of, spot_at_in, spot_in};
pub use lists::CostList;
pub use repair::spread_repair;
