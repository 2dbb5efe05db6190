//! One byte, given many times.
ghost use Rattle.std.specs.Prelude.{◌≡◌, Some, length};
ghost use Rattle.std.specs.Io.{ReadsAtMost};
ghost use Rattle.std.specs.Io.KnownBytes.{ReadConsumes};
ghost use Rattle.map_outside.specs.Causes.{TakeCounts};
ghost use Rattle.map_outside.specs.Steady.{RepeatTakes, repeated};

use crate::{Failed, Source};
use std::marker::Model;

/// One byte, given so many times. It takes no memory, and no call fails.
#[derive(Drop)]
pub struct RepeatSource {
    byte: u8,
    left: u64,
}

impl Model for RepeatSource {
    ghost use Rattle.map_outside.specs.Steady.{RepeatState};

    ghost Value = { RepeatState };

    ghost view = { λ s. record { byte = s.byte; count = s.left } };
}

impl RepeatSource {
    /// A source of `left` times this byte.
    pub fn new(byte: u8, left: u64) -> RepeatSource
        ensures { result ≡ record { byte = byte; count = left } }
    {
        RepeatSource { byte, left }
    }
}

impl Source for RepeatSource {
    ghost left = { λ s. Some (repeated s) };

    ghost faults = { λ _. 0 };

    /// Gives as many bytes as are left, of at most the slice's length.
    fn take(&mut self, into: &mut [u8]) -> Result<usize, Failed>
        ensures exact { RepeatTakes self.old (length into.old) result self.new }
        ensures bound { ReadsAtMost result into.new }
        ensures bytes { ReadConsumes (Some (repeated self.old)) (Some (repeated self.new)) result into.new }
        ensures cause { TakeCounts 0 0 result }
    {
        let count = self.left.min(into.len() as u64);
        into[..count as usize].fill(self.byte);
        self.left -= count;
        Ok(count as usize)
    }
}
