//! Files that are opened by name.
ghost use Rattle.std.specs.Prelude.{◌≡◌, ◌≤◌, Option, None, true, IfOk, vec_len};
ghost use Rattle.map_outside.specs.Causes.{FetchCounts};
ghost use Rattle.map_outside.specs.Openings.{FetchesOpened};

use crate::{FetchFault, Opener, Shelf, Source, take_all};
use std::alloc::Global;

/// Files that are opened by name, as those of the system are by their paths. It doesn't tell what is held. A file that can't be
/// opened or read to its end is a fault.
#[derive(Drop)]
pub struct FileShelf<O> {
    opener: O,
    faults: u64,
}

impl<O: Opener> FileShelf<O> {
    /// A shelf without faults so far.
    pub fn new(opener: O) -> FileShelf<O>
        ensures opener { result.opener ≡ opener }
        ensures faults { result.faults ≡ 0 }
    {
        FileShelf { opener, faults: 0 }
    }
}

// All bytes of what was opened, where it was and they are at most `limit`.
fn fetch_opened<S: Source + Drop>(
    opened: Option<S>,
    alloc: Global,
    limit: u64,
) -> Result<Vec<u8>, FetchFault>
    ensures exact { FetchesOpened S.left S.faults opened limit result }
    ensures bound { IfOk result (λ v. vec_len v ≤ limit) }
{
    match opened {
        Some(mut source) => take_all(&mut source, alloc, limit),
        None => Err(FetchFault::Failed),
    }
}

impl<O: Opener> Shelf for FileShelf<O> {
    ghost files = { λ _. None };

    ghost serves = { λ _ _. true };

    ghost faults = { λ s. s.faults };

    /// Opens the file of this very name, and takes all of its bytes, where they are at most `limit`.
    fn fetch(&mut self, alloc: Global, name: &str, limit: u64) -> Result<Vec<u8>, FetchFault>
        ensures exact { (opened : Option O.Opened) × O.opens self.old.opener name.now opened × FetchesOpened O.Opened.left O.Opened.faults opened limit result }
        ensures bound { IfOk result (λ v. vec_len v ≤ limit) }
        ensures opener { self.new.opener ≡ self.old.opener }
        ensures cause { FetchCounts self.old.faults self.new.faults result }
    {
        let fetched = fetch_opened(self.opener.open_named(name), alloc, limit);
        if let Err(FetchFault::Failed) = fetched {
            self.faults = self.faults.saturating_add(1);
        }
        fetched
    }
}
