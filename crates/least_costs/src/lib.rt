//! Least costs of paths in a net, put right after a change.
//!
//! Each place of a net has an equation: its value is the least of its base and of its neighbours' values with their steps.
//! `Queue` holds the places that disagree with their equation, each under the lesser of its value and what the equation gives.
//! The entry with the least key is taken out: a value above its equation becomes it, and is the least cost; a value below
//! becomes none, since each path costs more than that value; and what this changes comes into the queue. A place is so dealt
//! with at most twice: its value rises at most once and falls at most once, and only where its least cost is another one than before.
//!
//! The theory is in `proofs/`: `Steps` for any start; `Fills` for a start with no costs, where values only fall, each to what a step
//! from a place that was taken out gives.
#![tactic(auto)]

mod outcome;
mod queue;

pub use outcome::Outcome;
pub use queue::Queue;
