//! Bytes in memory, given in pieces without a fault.
ghost use Rattle.std.specs.Prelude.{◌≡◌, ◌<◌, Some, length};
ghost use Rattle.std.specs.Io.{ReadsAtMost};
ghost use Rattle.std.specs.Io.KnownBytes.{ReadConsumes};
ghost use Rattle.map_outside.specs.Causes.{TakeCounts};
ghost use Rattle.map_outside.specs.Steady.{SteadyTakes};

use crate::in_steps::InSteps;
use crate::{Failed, Source};
use std::marker::Model;

/// Bytes in memory, of which each call gives a piece, and none fails.
#[derive(Drop)]
pub struct SteadySource {
    bytes: InSteps,
}

impl Model for SteadySource {
    ghost use Rattle.map_outside.specs.Steady.{StepState};

    ghost Value = { StepState };

    ghost view = { λ s. s.bytes };
}

impl SteadySource {
    /// A source of these bytes, of which a call gives at most `step`.
    pub fn new(bytes: Vec<u8>, step: usize) -> SteadySource
        requires { 0 < step }
        ensures { result ≡ record { left = bytes.items; step = step } }
    {
        SteadySource {
            bytes: InSteps::new(bytes, step),
        }
    }
}

impl Source for SteadySource {
    ghost left = { λ s. Some s.left };

    ghost faults = { λ _. 0 };

    /// Gives as many bytes as there are, of at most `step` and of at most the slice's length.
    fn take(&mut self, into: &mut [u8]) -> Result<usize, Failed>
        ensures exact { SteadyTakes self.old (length into.old) result self.new }
        ensures bound { ReadsAtMost result into.new }
        ensures bytes { ReadConsumes (Some self.old.left) (Some self.new.left) result into.new }
        ensures cause { TakeCounts 0 0 result }
    {
        Ok(self.bytes.take(into))
    }
}
