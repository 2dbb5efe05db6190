//! Why the statements of a map are not repaired.

ghost use Rattle.std.specs.Prelude.{◌≡◌};

use map_nums::NoMemory;
use map_words::Name;
use std::alloc::AllocError;

/// Why the statements are not repaired. Rows and columns count from 1.
#[derive(Debug, Drop)]
pub enum Halt {
    /// The first statement with a fault, where that is how many viewers it has.
    Viewers(Name, u64),
    /// The first statement with a fault, where that is a value that no cell may hold, and the row and column of its first such cell.
    Overflow(Name, u64, u64),
    NoMemory,
}

impl From<NoMemory> for Halt {
    ghost use Rattle.kept_map.specs.declared.halts.Halt.TheVariants.{NoMemory as no_memory};

    ghost from_gives = { λ _ e. e ≡ no_memory };

    fn from(_: NoMemory) -> Halt {
        Halt::NoMemory
    }
}

impl From<AllocError> for Halt {
    ghost use Rattle.kept_map.specs.declared.halts.Halt.TheVariants.{NoMemory as no_memory};

    ghost from_gives = { λ _ e. e ≡ no_memory };

    fn from(_: AllocError) -> Halt {
        Halt::NoMemory
    }
}
