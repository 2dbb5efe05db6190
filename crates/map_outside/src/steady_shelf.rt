//! Files in memory, of which each name has one.
ghost use Rattle.std.specs.Prelude.{◌≡◌, ◌≤◌, Some, true, IfOk, vec_len};
ghost use Rattle.map_outside.specs.Causes.{FetchCounts};
ghost use Rattle.map_outside.specs.Contents.{Fetches};
ghost use Rattle.map_outside.specs.Forms.{named_bytes, CopiesWithin};
ghost use Rattle.map_outside.specs.Steady.{bytes_named, steady_files};

use crate::memory_shelf::{copy_within, find_file};
use crate::{FetchFault, Shelf};
use std::alloc::Global;
use std::marker::Model;

/// Files in memory. A name that it lacks has an empty file, and of two files of one name the first counts. So no fetch fails.
#[derive(Drop)]
pub struct SteadyShelf {
    files: Vec<(String, Vec<u8>)>,
}

impl Model for SteadyShelf {
    ghost use Rattle.std.specs.Prelude.{ℕ, List};
    ghost use Rattle.map_outside.specs.Forms.{named_bytes};

    ghost Value = { List (List ℕ × List ℕ) };

    ghost view = { λ s. named_bytes s.files.items };
}

impl SteadyShelf {
    /// A shelf of pairs of a name and its bytes.
    pub fn new(files: Vec<(String, Vec<u8>)>) -> SteadyShelf
        ensures { result ≡ named_bytes files.items }
    {
        SteadyShelf { files }
    }
}

impl Shelf for SteadyShelf {
    ghost files = { λ s. Some (steady_files s) };

    ghost serves = { λ _ _. true };

    ghost faults = { λ _. 0 };

    /// The file's bytes, unless they are longer than the limit or there is no memory for them.
    fn fetch(&mut self, alloc: Global, name: &str, limit: u64) -> Result<Vec<u8>, FetchFault>
        ensures exact { CopiesWithin (bytes_named self.old name.now) limit result }
        ensures bytes { Fetches (Some (steady_files self.old)) name.now limit result }
        ensures bound { IfOk result (λ v. vec_len v ≤ limit) }
        ensures same { self.new ≡ self.old }
        ensures cause { FetchCounts 0 0 result }
    {
        copy_within(alloc, bytes_of(&self.files, name), limit)
    }
}

fn bytes_of<'a>(files: &'a [(String, Vec<u8>)], name: &str) -> &'a [u8]
    ensures { result.now ≡ bytes_named (named_bytes files.now) name.now }
{
    match find_file(files, name) {
        Some(bytes) => bytes,
        None => &[],
    }
}
