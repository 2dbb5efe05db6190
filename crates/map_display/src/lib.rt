//! Displays of layers: [`print_show`] writes a sign for each cell, [`print_legend`] a line for each different cell with its count,
//! [`print_table`] a line for each pair of a zone and a value, and [`print_stamps`] the stamps of the tiles. [`named`] and [`put_number`] write
//! names and numbers into replies.
#![tactic(auto)]

mod layer_marks;
mod legends;
mod shows;
mod signs;
mod stamps;
mod tables;
mod words;

pub use legends::print_legend;
pub use shows::print_show;
pub use stamps::print_stamps;
pub use tables::print_table;
pub use words::{named, put_number};
