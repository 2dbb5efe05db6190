//! The numbers of nearest sources: for each place the least number at which a path of least cost begins that leads to it.
//!
//! Costs come first, by `friction_spread`. The values follow the steps that least costs use: a source keeps its own number, and
//! any other place has the least of the values from where such a step leads to it. The sources pass their numbers on in
//! ascending order, so that the first number that reaches a place is its value. All cells are kept in lists meanwhile.
//!
//! Where there were values, the places near changed operands and near new costs stand in a queue (`least_costs`), and are given their
//! least values in the order of the costs, from those of lesser cost that are right by then.
//!
//! First values may also be made in parts: `nearest_of_band` finds the costs and numbers within a band of rows, and `nearest_of_bands` those of
//! the map from the bands', in a list whose tiles can be made one by one.
#![tactic(auto)]

mod bands;
mod fields;
mod first;
mod floods;
mod gathers;
mod joins;
mod laws;
mod list_gathers;
mod list_puts;
mod list_settle;
mod lists;
mod patches;
mod puts;
mod repair;
mod seeds;
mod settle;
mod shows;
mod values;
mod views;

pub use bands::{NearestBand, nearest_of_band};
pub use joins::nearest_of_bands;
pub use laws::nearest_law;
pub use lists::NearestList;
pub use repair::{Nearest, NearestRepair, neighbor_repair};
