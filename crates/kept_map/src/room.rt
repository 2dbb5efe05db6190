//! Room for what is kept of statements, taken before an edit is put in place.

ghost use Rattle.std.specs.Prelude.{IfOk};
ghost use Rattle.kept_map.specs.Rooms.{HasRoom};

use map_nums::NoMemory;
use map_waves::Kept;
use op_jobs::Beside;
use std::alloc::Global;

/// Empty lists with room: for what was kept of each statement, and for what will be.
#[derive(Drop)]
pub struct Room {
    pub slots: Vec<Option<Kept<Beside>>>,
    pub next: Vec<Kept<Beside>>,
}

impl Room {
    /// Room for so many statements before, and after.
    ///
    /// # Errors
    ///
    /// `NoMemory` alone.
    pub fn of(alloc: Global, old: usize, new: usize) -> Result<Room, NoMemory>
        ensures { IfOk result (HasRoom old new) }
    {
        let slots = Vec::with_capacity(alloc, old)?;
        let next = Vec::with_capacity(alloc, new)?;
        Ok(Room { slots, next })
    }
}
