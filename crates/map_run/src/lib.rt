//! A run of the program: words, files and session bytes in, replies out.
//!
//! [`run`] does all that the program does, over any shelf, source, sink and tally, and answers how it ended by a [`Status`]. A run
//! loads the files that its words name and plays its model file (`words`, `workers`, `opening`, `loads`, `model`), and then
//! answers the session's lines (`session`, `lines`), of which `piece` keeps the one that no line feed has ended yet; a run
//! over the sample has grids and lines of its own (`sample`). Each part answers what it came to, or by a `Stop` why the run
//! stops. What is written is proved to be the text of the map machine, and the tally to rise by no more than the machine
//! allows for it.
#![tactic(auto)]

mod forms;
mod lines;
mod loads;
mod model;
mod opening;
mod piece;
mod sample;
mod session;
mod setup;
mod status;
mod steady;
mod stop;
mod top;
mod words;
mod workers;

pub use setup::{Limits, Means};
pub use status::Status;
pub use steady::run_steady;
pub use top::{run, run_within};
