//! Bytes in memory, given in pieces.
ghost use Rattle.std.specs.Prelude.{◌≡◌, ◌<◌, Some, length};
ghost use Rattle.std.specs.Io.{ReadsAtMost};
ghost use Rattle.std.specs.Io.KnownBytes.{ReadConsumes};
ghost use Rattle.map_outside.specs.Causes.{TakeCounts};
ghost use Rattle.map_outside.specs.Forms.{MemoryTakes};

use crate::calls::Calls;
use crate::in_steps::InSteps;
use crate::{Failed, Source};
use std::marker::Model;

/// Bytes in memory, of which each call gives a piece.
#[derive(Drop)]
pub struct MemorySource {
    bytes: InSteps,
    calls: Calls,
}

impl Model for MemorySource {
    ghost use Rattle.map_outside.specs.Forms.{SourceState};

    ghost Value = { SourceState };

    ghost view = { λ s. record { left = s.bytes.left; step = s.bytes.step; calls = s.calls } };
}

impl MemorySource {
    /// A source of these bytes, of which a call gives at most `step`. The calls with the numbers in `fails` fail, counted
    /// from 1.
    pub fn new(bytes: Vec<u8>, step: usize, fails: Vec<u64>) -> MemorySource
        requires { 0 < step }
        ensures { result ≡ record { left = bytes.items; step = step; calls = record { made = 0; fails = fails.items; faults = 0 } } }
    {
        MemorySource {
            bytes: InSteps::new(bytes, step),
            calls: Calls::new(fails),
        }
    }
}

impl Source for MemorySource {
    ghost left = { λ s. Some s.left };

    ghost faults = { λ s. s.calls.faults };

    /// Gives as many bytes as there are, of at most `step` and of at most the slice's length.
    fn take(&mut self, into: &mut [u8]) -> Result<usize, Failed>
        ensures exact { MemoryTakes self.old (length into.old) result self.new }
        ensures bound { ReadsAtMost result into.new }
        ensures bytes { ReadConsumes (Some self.old.left) (Some self.new.left) result into.new }
        ensures cause { TakeCounts self.old.calls.faults self.new.calls.faults result }
    {
        if self.calls.next_is_listed() {
            self.calls.raise_faults();
            return Err(Failed);
        }
        Ok(self.bytes.take(into))
    }
}
