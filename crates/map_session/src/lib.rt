//! A session: one line in, one reply out.
//!
//! [`Session::begin`] loads the first grid, [`Session::load`] a further one, and [`Session::step`] answers a line by a [`Reply`].
//! Each does what the map machine does with the same bytes. Where memory is wanted, the session is as before.
#![tactic(auto)]

mod answers;
mod branches;
mod causes;
mod displays;
mod lists;
mod loads;
mod replies;
mod rooms;
mod samples;
mod session;
mod values;

pub use replies::Reply;
pub use session::{Begun, Session};
