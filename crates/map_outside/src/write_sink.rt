//! A sink over any writer.
ghost use Rattle.std.specs.Prelude.{◌≡◌, None, take, IfOk, MatchResult};
ghost use Rattle.std.specs.Io.KnownBytes.{Appends};
ghost use Rattle.map_outside.specs.Causes.{PutCounts};
ghost use Rattle.map_outside.specs.Writers.{WritesFlushed, WriterPuts};

use crate::{Outlet, PutFault, Sink};

/// A sink over any writer, which it flushes after each put. It doesn't tell what is held. Each error of the writer is a
/// fault, and so is a write that takes nothing of what is to be written.
#[derive(Drop)]
pub struct WriteSink<W> {
    inner: W,
    faults: u64,
}

impl<W: Outlet> WriteSink<W> {
    /// A sink without faults so far.
    pub fn new(inner: W) -> WriteSink<W>
        ensures inner { result.inner ≡ inner }
        ensures faults { result.faults ≡ 0 }
    {
        WriteSink { inner, faults: 0 }
    }
}

/// Writes all bytes. The error says how many were written before the fault.
fn write_bytes<W: Outlet>(inner: &mut W, bytes: &[u8]) -> Result<(), usize>
    ensures { MatchResult result
        (λ _. Appends (W.contents inner.old) (W.contents inner.new) bytes.now)
        (λ n. Appends (W.contents inner.old) (W.contents inner.new) (take n bytes.now)) }
{
    let mut at = 0;
    while at < bytes.len() {
        match inner.write_some(&bytes[at..]) {
            Ok(0) => return Err(at),
            Ok(count) => at += count,
            Err(_) => return Err(at),
        }
    }
    Ok(())
}

/// Writes all bytes and flushes. The error says how many bytes were written before the fault.
fn write_whole<W: Outlet>(inner: &mut W, bytes: &[u8]) -> Result<(), usize>
    ensures written { MatchResult result
        (λ _. Appends (W.contents inner.old) (W.contents inner.new) bytes.now)
        (λ n. Appends (W.contents inner.old) (W.contents inner.new) (take n bytes.now)) }
    ensures flushed { IfOk result (λ _. WritesFlushed W.contents W.flushes inner.old inner.new bytes.now) }
{
    write_bytes(inner, bytes)?;
    match inner.flush_all() {
        Ok(()) => Ok(()),
        Err(_) => Err(bytes.len()),
    }
}

impl<W: Outlet> Sink for WriteSink<W> {
    ghost held = { λ _. None };

    ghost faults = { λ s. s.faults };

    /// Writes all of the bytes and flushes, or stops at the first fault.
    fn put(&mut self, bytes: &[u8]) -> Result<(), PutFault>
        ensures writes { WriterPuts W.contents W.flushes self.old.inner self.new.inner result bytes.now }
        ensures cause { PutCounts self.old.faults self.new.faults result }
    {
        match write_whole(&mut self.inner, bytes) {
            Ok(()) => Ok(()),
            Err(_) => {
                self.faults = self.faults.saturating_add(1);
                Err(PutFault::Failed)
            }
        }
    }
}
