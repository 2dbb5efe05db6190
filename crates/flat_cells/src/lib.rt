//! All cells of an operand in one list. `cells_of` looks at each tile once and copies its rows to their places.
#![tactic(auto)]

mod copies;

pub use copies::cells_of;
