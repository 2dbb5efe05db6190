//! Why statements are not repaired, as a refusal.

ghost use Rattle.std.specs.Prelude.{◌≡◌};
ghost use Rattle.live_engine.specs.Halted.{refusal_of};

use crate::edits::Refusal;
use kept_map::Halt;

/// The refusal that a halt is.
pub(crate) fn refused(halt: Halt) -> Refusal
    ensures { result ≡ refusal_of halt }
{
    match halt {
        Halt::Viewers(name, count) => Refusal::Viewers(name, count),
        Halt::Overflow(name, row, column) => Refusal::Overflow(name, row, column),
        Halt::NoMemory => Refusal::NoMemory,
    }
}
