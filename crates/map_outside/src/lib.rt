//! What a run reads from and writes to.
//!
//! A [`Shelf`] gives files by name, a [`Source`] gives bytes in pieces, and a [`Sink`] takes bytes. Each has a count of
//! faults that never falls and stands still at its end: a call answers that it failed only where that count rose in it,
//! and every other answer leaves the count as it was. What each of them holds may be told to contracts or not.
//!
//! The forms in memory ([`MemoryShelf`], [`MemorySource`], [`MemorySink`]) tell it, and fail at the calls that they were
//! given. Others never fail ([`SteadyShelf`], [`SteadySource`], [`RepeatSource`], [`SteadySink`]). The adapters ([`FileShelf`],
//! [`ReadSource`], [`WriteSink`]) stand over any [`Opener`], reader and [`Outlet`], as those of the system are. What a real file,
//! reader or writer holds is known to nobody. [`Counts`] is the tally whose numbers can be read.
#![tactic(auto)]

mod calls;
mod counts;
mod file_shelf;
mod in_steps;
mod memory_shelf;
mod memory_sink;
mod memory_source;
mod openers;
mod outlets;
mod read_source;
mod repeat_source;
mod shelves;
mod sinks;
mod sources;
mod steady_shelf;
mod steady_sink;
mod steady_source;
mod taking;
mod write_sink;

pub use counts::Counts;
pub use file_shelf::FileShelf;
pub use memory_shelf::MemoryShelf;
pub use memory_sink::MemorySink;
pub use memory_source::MemorySource;
pub use openers::Opener;
pub use outlets::Outlet;
pub use read_source::ReadSource;
pub use repeat_source::RepeatSource;
pub use shelves::{FetchFault, Shelf};
pub use sinks::{PutFault, Sink};
pub use sources::{Failed, Source};
pub use steady_shelf::SteadyShelf;
pub use steady_sink::SteadySink;
pub use steady_source::SteadySource;
pub use taking::take_all;
pub use write_sink::WriteSink;
