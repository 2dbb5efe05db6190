//! Bytes that are read in pieces.
ghost use Rattle.std.specs.Prelude.{◌≡◌, ℕ, List, Option};
ghost use Rattle.std.specs.Io.{ReadsAtMost};
ghost use Rattle.std.specs.Io.KnownBytes.{ReadConsumes};

/// A source failed. Its count of faults rose.
#[derive(Clone, Copy, Debug, PartialEq, Eq)]
pub struct Failed;

/// Bytes that are read in pieces.
///
/// A run takes pieces until one is empty or it has read enough. It takes none after a fault: so is its code, and no clause says it.
/// After `Failed` the bytes that are left are as before, so that a caller may also go on.
pub trait Source {
    ghost use Rattle.map_outside.specs.Causes.{TakeCounts};

    /// The bytes that are left, where they are told.
    ghost left: { Self → Option (List ℕ) };

    /// The count of faults.
    ghost faults: { Self → ℕ };

    /// Moves the first bytes that are left into the front of the slice, and says how many. For a slice with room that is
    /// 0 exactly where nothing is left.
    fn take(&mut self, into: &mut [u8]) -> Result<usize, Failed>
        ensures bound { ReadsAtMost result into.new }
        ensures bytes { ReadConsumes (left self.old) (left self.new) result into.new }
        ensures cause { TakeCounts (faults self.old) (faults self.new) result };
}
