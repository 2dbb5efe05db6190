//! The piece of a session that no line feed has ended yet. Of a long one only the first bytes are kept.
ghost use Rattle.std.specs.Prelude.{◌≡◌, ◌≤◌, ◌<◌, ◌+◌, ◌-◌, ◌^◌, ◌==◌, slice_index, ◌++◌, ◌∷◌, [], true, min, List, ℕ, OnOk, vec_len, length, if◌then◌else◌};
ghost use Rattle.map_machine.specs.Lines.{without_return};
ghost use Rattle.map_run.specs.Kept.{IsKept};

use map_nums::NoMemory;
use std::alloc::Global;

/// The most bytes of a line.
pub const LONGEST: u64 = 4096;

/// One byte more is kept than a line may have, so that a line of the greatest length is known also with a carriage return
/// after it.
const KEPT: usize = 4097;

/// Its first bytes, its length, and whether a carriage return stands at its end.
#[derive(Drop)]
pub struct Piece {
    pub kept: Vec<u8>,
    pub count: u64,
    pub returns: bool,
    ghost room: { vec_len kept ≡ min count 4097 },
    ghost some: { returns ≡ true → 0 < count },
}

/// Whether a carriage return stands at the end.
pub fn ends_with_return(bytes: &[u8]) -> bool
    ensures end { bytes.now ≡ without_return bytes.now ++ (if result then 13 ∷ [] else []) }
    ensures some { result ≡ true → 0 < length bytes.now }
    ensures last { 0 < length bytes.now → result ≡ (slice_index bytes.now (length bytes.now - 1) == 13) }
{
    if bytes.is_empty() {
        return false;
    }
    bytes[bytes.len() - 1] == b'\r'
}

/// A line without one carriage return at its end.
pub fn without_return(line: &[u8]) -> &[u8]
    ensures { result.now ≡ without_return line.now }
{
    if ends_with_return(line) {
        return &line[..line.len() - 1];
    }
    line
}

impl Piece {
    /// An empty piece.
    pub fn new(alloc: Global) -> Self
        ensures count { result.count ≡ 0 }
        ensures kept { IsKept [] result.kept.items result.count result.returns }
    {
        Piece {
            kept: Vec::new(alloc),
            count: 0,
            returns: false,
        }
    }

    /// Begins the next piece.
    pub fn clear(&mut self)
        ensures count { self.new.count ≡ 0 }
        ensures kept { IsKept [] self.new.kept.items self.new.count self.new.returns }
    {
        self.kept.clear();
        self.count = 0;
        self.returns = false;
    }

    /// Adds bytes.
    pub fn extend(&mut self, bytes: &[u8]) -> Result<(), NoMemory>
        requires { self.old.count + length bytes.now < 2 ^ 64 }
        ensures count { self.new.count ≤ self.old.count + length bytes.now }
        ensures kept { OnOk result ((piece : List ℕ) → IsKept piece self.old.kept.items self.old.count self.old.returns
            → IsKept (piece ++ bytes.now) self.new.kept.items self.new.count self.new.returns) }
    {
        if bytes.is_empty() {
            return Ok(());
        }
        let room = bytes.len().min(KEPT - self.kept.len());
        self.kept.extend_from_slice(&bytes[..room])?;
        self.count += bytes.len() as u64;
        self.returns = ends_with_return(bytes);
        Ok(())
    }
}
