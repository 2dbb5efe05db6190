//! What bytes are written to and flushed through.
ghost use Rattle.std.specs.Prelude.{ℕ, List, Option, IfOk, ⊤};
ghost use Rattle.std.specs.Io.{WritesAtMost};
ghost use Rattle.std.specs.Io.KnownBytes.{Keeps, WriteAppends};

use std::io;
use std::io::Write;

/// What bytes are written to and flushed through.
pub trait Outlet {
    /// The bytes that are held, where they are told.
    ghost contents: { Self → Option (List ℕ) };

    /// Where a flush that goes well may lead.
    ghost flushes: { Self → Self → Type 0 };

    /// Writes some of the bytes, from the first on, and says how many.
    fn write_some(&mut self, bytes: &[u8]) -> io::Result<usize>
        ensures bound { WritesAtMost result bytes.now }
        ensures bytes { WriteAppends (contents self.old) (contents self.new) result bytes.now };

    /// Hands on what was written.
    fn flush_all(&mut self) -> io::Result<()>
        ensures bytes { Keeps (contents self.old) (contents self.new) }
        ensures flushed { IfOk result (λ _. flushes self.old self.new) };
}

/// Any writer. Nothing is told of its flushes.
impl<W: Write> Outlet for W {
    ghost contents = { W.contents };

    ghost flushes = { λ _ _. ⊤ };

    fn write_some(&mut self, bytes: &[u8]) -> io::Result<usize> {
        self.write(bytes)
    }

    fn flush_all(&mut self) -> io::Result<()> {
        self.flush()
    }
}
