//! Files by name.
ghost use Rattle.std.specs.Prelude.{◌≡◌, ◌≤◌, ℕ, Bool, List, Option, IsTrue, IfOk, vec_len};

use std::alloc::Global;

/// Why a file was not fetched.
#[derive(Clone, Copy, Debug, PartialEq, Eq)]
pub enum FetchFault {
    /// The shelf failed. Its count of faults rose.
    Failed,
    /// The file is longer than the limit.
    Long,
    /// There is no memory for the bytes.
    NoMemory,
}

/// Files by name, each fetched whole.
///
/// A run fetches each file just before it reads it, and none after a refused one: so is its code, and no clause says it. No fetch
/// changes what is held or which names are served, whatever it answers, so that a file may be fetched again after a fault.
pub trait Shelf {
    ghost use Rattle.map_outside.specs.Causes.{FetchCounts};
    ghost use Rattle.map_outside.specs.Contents.{Files, Fetches};

    /// What is held, where it is told.
    ghost files: { Self → Option Files };

    /// The names that may be asked for.
    ghost serves: { Self → List ℕ → Bool };

    /// The count of faults.
    ghost faults: { Self → ℕ };

    /// The bytes under a name, where they are at most `limit`.
    fn fetch(&mut self, alloc: Global, name: &str, limit: u64) -> Result<Vec<u8>, FetchFault>
        requires { IsTrue (serves self.old name.now) }
        ensures bytes { Fetches (files self.old) name.now limit result }
        ensures bound { IfOk result (λ v. vec_len v ≤ limit) }
        ensures same { files self.new ≡ files self.old }
        ensures names { serves self.new ≡ serves self.old }
        ensures cause { FetchCounts (faults self.old) (faults self.new) result };
}
