//! What opens files.
ghost use Rattle.std.specs.Prelude.{ℕ, List, Option, ⊤};

use crate::{ReadSource, Source};
use std::fs;
use std::rt::Files;

/// What opens files by name.
pub trait Opener {
    /// What is read of an open file.
    type Opened: Source + Drop;

    /// What the opening of a name may come to: none where it can't be opened.
    ghost opens: { Self → List ℕ → Option Self.Opened → Type 0 };

    /// Opens the file of this very name.
    fn open_named(&self, name: &str) -> Option<Self::Opened>
        ensures { opens self.now name.now result };
}

/// The files of the system, by their paths. Nothing is told of them.
impl<R: Files> Opener for R {
    type Opened = ReadSource<R::File>;

    ghost opens = { λ _ _ _. ⊤ };

    fn open_named(&self, name: &str) -> Option<ReadSource<R::File>> {
        match fs::open(self, name) {
            Ok(file) => Some(ReadSource::new(file)),
            Err(_) => None,
        }
    }
}
