//! Local operations: each cell of a tile comes from the operands' cells at its place.
//!
//! `local_tile` makes the tile of a `LocalOp` over the state after an edit. It lends each operand's tile once, and goes
//! over them row by row.
#![tactic(auto)]

mod kernel;
mod ops;
mod pairs;
mod rows;
mod tiles;
mod values;

pub use kernel::local_tile;
pub use ops::{LocalOp, Rates};
