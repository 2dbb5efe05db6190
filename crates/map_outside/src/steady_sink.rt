//! The first bytes that were put, in memory that is there from the start.
ghost use Rattle.std.specs.Prelude.{◌≡◌, [], false, vec_len};
ghost use Rattle.map_outside.specs.Causes.{PutCounts};
ghost use Rattle.map_outside.specs.Contents.{PutGrows};
ghost use Rattle.map_outside.specs.Steady.{SteadyPuts, held_in_room};

use crate::{PutFault, Sink};
use std::marker::Model;

/// The first bytes that were put, in memory that is there from the start. No put fails: what goes past the room is
/// dropped, and then it ceases to tell what was put.
#[derive(Drop)]
pub struct SteadySink {
    room: Vec<u8>,
    len: usize,
    is_past: bool,
}

impl Model for SteadySink {
    ghost use Rattle.std.specs.Prelude.{◌≤◌, take, vec_len};
    ghost use Rattle.map_outside.specs.Steady.{RoomState};

    ghost Value = { RoomState };

    ghost view = { λ s. record { bytes = take s.len s.room.items; room = vec_len s.room; is_past = s.is_past } };

    ghost invariant = { λ s. s.len ≤ vec_len s.room };
}

impl SteadySink {
    /// An empty sink that writes over the bytes of `room`.
    pub fn new(room: Vec<u8>) -> SteadySink
        ensures { result ≡ record { bytes = []; room = vec_len room; is_past = false } }
    {
        SteadySink {
            room,
            len: 0,
            is_past: false,
        }
    }

    /// The bytes that were put, up to the room.
    pub fn bytes(&self) -> &[u8]
        ensures { result.now ≡ self.now.bytes }
    {
        &self.room[..self.len]
    }

    /// Whether bytes were put past the room.
    pub fn is_past(&self) -> bool
        ensures { result ≡ self.now.is_past }
    {
        self.is_past
    }
}

impl Sink for SteadySink {
    ghost held = { held_in_room };

    ghost faults = { λ _. 0 };

    /// Appends the bytes for which there is room.
    fn put(&mut self, bytes: &[u8]) -> Result<(), PutFault>
        ensures exact { SteadyPuts self.old bytes.now result self.new }
        ensures bytes { PutGrows (held_in_room self.old) (held_in_room self.new) result bytes.now }
        ensures cause { PutCounts 0 0 result }
    {
        let count = bytes.len().min(self.room.len() - self.len);
        self.room[self.len..self.len + count].copy_from_slice(&bytes[..count]);
        self.len += count;
        self.is_past |= count < bytes.len();
        Ok(())
    }
}
