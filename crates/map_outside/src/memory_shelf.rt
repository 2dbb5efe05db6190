//! Files in memory.
ghost use Rattle.std.specs.Prelude.{◌≡◌, ◌≤◌, Some, None, true, IfOk, vec_len, MatchOption};
ghost use Rattle.map_outside.specs.Causes.{FetchCounts};
ghost use Rattle.map_outside.specs.Contents.{Fetches};
ghost use Rattle.map_outside.specs.Forms.{named_bytes, file_named, CopiesWithin, MemoryFetches};

use crate::calls::Calls;
use crate::{FetchFault, Shelf};
use std::alloc::Global;
use std::marker::Model;

/// Files in memory. It serves every name, and of two files of one name the first counts.
#[derive(Drop)]
pub struct MemoryShelf {
    files: Vec<(String, Vec<u8>)>,
    calls: Calls,
}

impl Model for MemoryShelf {
    ghost use Rattle.map_outside.specs.Forms.{ShelfState, named_bytes};

    ghost Value = { ShelfState };

    ghost view = { λ s. record { files = named_bytes s.files.items; calls = s.calls } };
}

impl MemoryShelf {
    /// A shelf of pairs of a name and its bytes, whose fetches with the numbers in `fails` fail, counted from 1.
    pub fn new(files: Vec<(String, Vec<u8>)>, fails: Vec<u64>) -> MemoryShelf
        ensures { result ≡ record { files = named_bytes files.items; calls = record { made = 0; fails = fails.items; faults = 0 } } }
    {
        MemoryShelf {
            files,
            calls: Calls::new(fails),
        }
    }
}

/// The bytes of the first file of a name.
pub(crate) fn find_file<'a>(files: &'a [(String, Vec<u8>)], name: &str) -> Option<&'a [u8]>
    ensures { MatchOption result (file_named (named_bytes files.now) name.now ≡ None)
        (λ bytes. file_named (named_bytes files.now) name.now ≡ Some bytes.now) }
{
    for file in files {
        if file.0.as_str() == name {
            return Some(&file.1);
        }
    }
    None
}

/// A copy of these bytes, where they are at most `limit`.
pub(crate) fn copy_within(alloc: Global, bytes: &[u8], limit: u64) -> Result<Vec<u8>, FetchFault>
    ensures { CopiesWithin bytes.now limit result }
{
    if bytes.len() as u64 > limit {
        return Err(FetchFault::Long);
    }
    match bytes.to_vec(alloc) {
        Ok(copy) => Ok(copy),
        Err(_) => Err(FetchFault::NoMemory),
    }
}

impl Shelf for MemoryShelf {
    ghost files = { λ s. Some (file_named s.files) };

    ghost serves = { λ _ _. true };

    ghost faults = { λ s. s.calls.faults };

    /// Fails where the call is listed and where nothing is held under the name.
    fn fetch(&mut self, alloc: Global, name: &str, limit: u64) -> Result<Vec<u8>, FetchFault>
        ensures exact { MemoryFetches self.old name.now limit result self.new }
        ensures bytes { Fetches (Some (file_named self.old.files)) name.now limit result }
        ensures bound { IfOk result (λ v. vec_len v ≤ limit) }
        ensures same { self.new.files ≡ self.old.files }
        ensures cause { FetchCounts self.old.calls.faults self.new.calls.faults result }
    {
        if self.calls.next_is_listed() {
            self.calls.raise_faults();
            return Err(FetchFault::Failed);
        }
        match find_file(&self.files, name) {
            None => {
                self.calls.raise_faults();
                Err(FetchFault::Failed)
            }
            Some(bytes) => copy_within(alloc, bytes, limit),
        }
    }
}
