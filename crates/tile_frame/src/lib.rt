//! The frame of a kernel that makes a tile place by place. A `TileMaker` makes a tile row by row, a `RowMaker` a row cell by
//! cell; `make_tile` and `make_row` are their loops. `make_tile` gives the tile, or the least cell whose value is out of
//! range. A kernel says what it has at each row and column of the tile, and writes no loop over the tile's places.
#![tactic(auto)]

mod places;
mod rows;
mod tiles;

pub use places::put;
pub use rows::{RowMaker, make_row};
pub use tiles::{TileMaker, make_tile};
