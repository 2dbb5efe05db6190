//! Jobs with numbers, done by workers side by side.
//!
//! A [`Work`] has jobs, told by their numbers from 0. [`run_phase`] has them done by so many workers, and gives their answers in
//! the order of the jobs; [`run_by`] does so by a [`Crew`], which has the workers and what they need. Each worker has a [`Seat`] at a
//! [`Board`] and draws its next job from it: the board is one word, and a
//! draw adds 1 to it in one atomic step. So each job is done once, whatever the order in which the workers come. Nothing else
//! that changes is shared. A [`Gate`] is told of each job before it begins.
//!
//! ```text
//! let answers = run_phase(rt, alloc, jobs, workers, &NoGate, &mut tally, &work)?;
//! // answers[k] stands in the work's relation to k
//! ```
#![tactic(auto)]

mod board;
mod crew;
mod forks;
mod gate;
mod gather;
mod hiring;
mod laid;
mod laws;
mod lay;
mod phase;
mod run;
mod seat;
mod shift;
mod steps;
mod work;
mod worker;

pub use crew::Crew;
pub use gate::{Gate, NoGate};
pub use laws::{board_tickets_stand_once, each_ticket_stands_once};
pub use run::{run_by, run_phase};
pub use seat::{Board, Seat, View};
pub use work::Work;
