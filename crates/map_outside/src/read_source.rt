//! A source over any reader.
ghost use Rattle.std.specs.Prelude.{◌≡◌};

use crate::{Failed, Source};
use std::io::Read;

/// A source over any reader. It tells what is left where the reader does. Each error of the reader is a fault.
#[derive(Drop)]
pub struct ReadSource<R> {
    inner: R,
    faults: u64,
}

impl<R: Read> ReadSource<R> {
    /// A source without faults so far.
    pub fn new(inner: R) -> ReadSource<R>
        ensures inner { result.inner ≡ inner }
        ensures faults { result.faults ≡ 0 }
    {
        ReadSource { inner, faults: 0 }
    }
}

impl<R: Read> Source for ReadSource<R> {
    ghost left = { λ s. R.remaining s.inner };

    ghost faults = { λ s. s.faults };

    /// Reads once.
    fn take(&mut self, into: &mut [u8]) -> Result<usize, Failed> {
        match self.inner.read(into) {
            Ok(count) => Ok(count),
            Err(_) => {
                self.faults = self.faults.saturating_add(1);
                Err(Failed)
            }
        }
    }
}
