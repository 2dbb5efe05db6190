//! What is kept of a map between edits, and what an edit makes of its statements.
//!
//! [`KeptMap`] holds the names, the layers of the sources, and the statements that are defined in the order in which they are
//! repaired, each with what is kept of it. [`prepare`] plans the statements after an edit and repairs them, and [`prepare_kept`]
//! repairs them where the plan stays; both take all the memory that is wanted. [`put_in_place`] takes none, and can't fail.
#![tactic(auto)]

mod copying;
mod flats;
mod halts;
mod maps;
mod placing;
mod preparing;
mod reads;
mod repairing;
mod room;
mod sources;

pub use flats::FlatsAfter;
pub use halts::Halt;
pub use maps::{Item, KeptMap, Sources};
pub use placing::put_in_place;
pub use preparing::{Replanned, prepare, prepare_kept};
pub use reads::Missing;
pub use repairing::{Prepared, repair};
pub use room::Room;
pub use sources::take_source;
