//! Bytes in memory, as they were put.
ghost use Rattle.std.specs.Prelude.{◌≡◌, Some, []};
ghost use Rattle.map_outside.specs.Causes.{PutCounts};
ghost use Rattle.map_outside.specs.Contents.{PutGrows};
ghost use Rattle.map_outside.specs.Forms.{MemoryPuts};

use crate::calls::Calls;
use crate::{PutFault, Sink};
use std::alloc::Global;
use std::marker::Model;

/// Bytes in memory, as they were put.
#[derive(Drop)]
pub struct MemorySink {
    bytes: Vec<u8>,
    calls: Calls,
}

impl Model for MemorySink {
    ghost use Rattle.map_outside.specs.Forms.{SinkState};

    ghost Value = { SinkState };

    ghost view = { λ s. record { bytes = s.bytes.items; calls = s.calls } };
}

impl MemorySink {
    /// An empty sink, of which the calls with the numbers in `fails` fail, counted from 1.
    pub fn new(alloc: Global, fails: Vec<u64>) -> MemorySink
        ensures { result ≡ record { bytes = []; calls = record { made = 0; fails = fails.items; faults = 0 } } }
    {
        MemorySink {
            bytes: Vec::new(alloc),
            calls: Calls::new(fails),
        }
    }

    /// All bytes that were put.
    pub fn bytes(&self) -> &[u8]
        ensures { result.now ≡ self.now.bytes }
    {
        &self.bytes
    }
}

impl Sink for MemorySink {
    ghost held = { λ s. Some s.bytes };

    ghost faults = { λ s. s.calls.faults };

    /// Appends all of the bytes, or none of them.
    fn put(&mut self, bytes: &[u8]) -> Result<(), PutFault>
        ensures exact { MemoryPuts self.old bytes.now result self.new }
        ensures bytes { PutGrows (Some self.old.bytes) (Some self.new.bytes) result bytes.now }
        ensures cause { PutCounts self.old.calls.faults self.new.calls.faults result }
    {
        if self.calls.next_is_listed() {
            self.calls.raise_faults();
            return Err(PutFault::Failed);
        }
        match self.bytes.extend_from_slice(bytes) {
            Ok(()) => Ok(()),
            Err(_) => Err(PutFault::NoMemory),
        }
    }
}
