//! Tests of what the public calls of the engine and of branches do, with values from another program, and of displays and the marks in them, whose
//! texts are worked by hand.
#![tactic(auto)]

#[cfg(test)]
mod alike;
#[cfg(test)]
mod branches;
#[cfg(test)]
mod calls;
#[cfg(test)]
mod displays;
#[cfg(test)]
mod drops;
#[cfg(test)]
mod edits;
#[cfg(test)]
mod limits;
#[cfg(test)]
mod marks;
#[cfg(test)]
mod memory;
#[cfg(test)]
mod reads;
#[cfg(test)]
mod stamps;
#[cfg(test)]
mod trials;
