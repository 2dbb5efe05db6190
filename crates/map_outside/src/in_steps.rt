//! Bytes in memory that are given in steps.
ghost use Rattle.std.specs.Prelude.{◌≡◌, ◌<◌, ◌++◌, [], take, length};
ghost use Rattle.map_outside.specs.Steady.{step_count, stepped};

use std::marker::Model;

/// Bytes in memory, of which each call gives a piece.
#[derive(Drop)]
pub(crate) struct InSteps {
    bytes: Vec<u8>,
    at: usize,
    step: usize,
}

impl Model for InSteps {
    ghost use Rattle.std.specs.Prelude.{◌<◌, ◌≤◌, drop, vec_len};
    ghost use Rattle.map_outside.specs.Steady.{StepState};

    ghost Value = { StepState };

    ghost view = { λ s. record { left = drop s.at s.bytes.items; step = s.step } };

    ghost invariant = { λ s. (s.at ≤ vec_len s.bytes) × (0 < s.step) };
}

impl InSteps {
    pub(crate) fn new(bytes: Vec<u8>, step: usize) -> InSteps
        requires { 0 < step }
        ensures { result ≡ record { left = bytes.items; step = step } }
    {
        InSteps { bytes, at: 0, step }
    }

    /// Moves as many bytes as there are, of at most a step and of at most the slice's length, and says how many.
    pub(crate) fn take(&mut self, into: &mut [u8]) -> usize
        ensures count { result ≡ step_count self.old (length into.old) }
        ensures state { self.new ≡ stepped self.old (length into.old) }
        ensures len { length into.new ≡ length into.old }
        ensures bytes { self.old.left ≡ take result into.new ++ self.new.left }
        ensures end { result ≡ 0 → 0 < length into.new → self.new.left ≡ [] }
    {
        let count = into.len().min(self.step).min(self.bytes.len() - self.at);
        into[..count].copy_from_slice(&self.bytes[self.at..self.at + count]);
        self.at += count;
        count
    }
}
