//! Focal operations: each cell of a tile comes from the operand's cells round its place.
//!
//! `focal_tile` copies the tile's square, grown by the radius, once, and goes through a cell's offsets as pieces of the
//! square's rows: the greatest and the least by tables of pieces, sums and means by the sums of the square's first cells, the
//! other statistics by the numbers round each cell.
#![tactic(auto)]

mod extremes;
mod fronts;
mod kernel;
mod kinds;
mod masks;
mod numbers;
mod places;
mod tables;
mod totals;

pub use kernel::focal_tile;
