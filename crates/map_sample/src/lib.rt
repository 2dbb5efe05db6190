//! The made-up map of the sample, in memory: four grids of as many rows as columns, and the lines that are played on them.
//!
//! ```text
//! for grid in SAMPLE_GRIDS { session.load_layer(name of grid.name(), sample_layer(&crew, side, grid, tally)?) }
//! for k in 0..SAMPLE_LINES { session.step(&sample_line(alloc, side, k)?) }
//! ```
#![tactic(auto)]

mod cells;
mod grids;
mod layers;
mod lines;
mod tile_rows;

pub use grids::{SAMPLE_GRIDS, SampleGrid};
pub use layers::sample_layer;
pub use lines::{SAMPLE_LINES, sample_line};
