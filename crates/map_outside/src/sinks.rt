//! A place to write to.
ghost use Rattle.std.specs.Prelude.{◌≡◌, ℕ, List, Option};

/// Why bytes were not put whole.
#[derive(Clone, Copy, Debug, PartialEq, Eq)]
pub enum PutFault {
    /// The sink failed. Its count of faults rose.
    Failed,
    /// There is no memory for the bytes.
    NoMemory,
}

/// A place to write to.
///
/// A run puts each reply whole, in order. It puts nothing after a fault: so is its code, and no clause says it. After a fault a front of
/// the bytes was appended, maybe none of them. What a sink holds may cease to be told, and is then never told again.
pub trait Sink {
    ghost use Rattle.map_outside.specs.Causes.{PutCounts};
    ghost use Rattle.map_outside.specs.Contents.{PutGrows};

    /// The bytes that are held, where they are told.
    ghost held: { Self → Option (List ℕ) };

    /// The count of faults.
    ghost faults: { Self → ℕ };

    /// Appends the bytes.
    fn put(&mut self, bytes: &[u8]) -> Result<(), PutFault>
        ensures bytes { PutGrows (held self.old) (held self.new) result bytes.now }
        ensures cause { PutCounts (faults self.old) (faults self.new) result };
}
