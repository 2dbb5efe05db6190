//! Incremental operations: each cell of a tile comes from the operand's cell at its place and its eight neighbours.
//! `shape_tile` copies the tile's square, grown by one, and makes the tile of a `Shape` from three of its rows at a time.
#![tactic(auto)]

mod kernel;
mod rings;
mod roots;
mod rows;
mod values;

pub use kernel::shape_tile;
pub use values::Shape;
