//! Phases of two small works, and tests of them that start threads.
#![tactic(auto)]

mod doubles;
mod squares;
#[cfg(test)]
mod tests;

pub use doubles::{Doubles, doubled};
pub use squares::{OddTicket, Squares, squares_of_even};
