//! The tiles that a change reaches.
//!
//! `damaged` finds the tiles whose square, grown by a reach, has a changed cell of an operand. It looks at the tiles that
//! the operands' patches hold, and at no others. `count_any` counts those of a set and of patches, each once.
#![tactic(auto)]

mod changed;
mod classes;
mod counts;
mod damage;
mod sets;

pub use classes::Class;
pub use counts::count_any;
pub use damage::damaged;
pub use map_nums::NoMemory;
pub use sets::TileSet;
