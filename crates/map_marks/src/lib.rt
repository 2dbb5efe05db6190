//! Labels and symbols: what stands for a value of a layer in its displays. [`Marks`] holds the labels of a map, or its symbols, the
//! latest first.
#![tactic(auto)]

mod mark;
mod marks;
mod taken;

pub use mark::Mark;
pub use marks::Marks;
pub use taken::Taken;
