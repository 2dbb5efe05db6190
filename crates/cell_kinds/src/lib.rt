//! The different cells of a layer with the number of their places, and the pairs of a zone and a value that stand at one place of
//! two layers. [`kinds_of`] gathers the runs of equal cells as they stand in the layer, sorts these and puts those of one cell
//! together; [`combinations_of`] sorts the pairs of all places and goes over their runs; [`push_row`] gathers a row of a layer from the
//! tiles that it crosses.
#![tactic(auto)]

mod combinations;
mod kinds;
mod order;
mod rows;

pub use combinations::{Combination, combinations_of};
pub use kinds::{Kind, kinds_of};
pub use rows::push_row;
