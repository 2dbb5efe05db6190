//! Why a run stops.

use map_nums::NoMemory;
use map_outside::PutFault;

/// Why a run stops before the end of its session.
#[derive(Clone, Copy, Debug, PartialEq, Eq)]
pub enum Stop {
    /// A load was refused.
    Load,
    /// The shelf failed.
    ShelfFault,
    /// The source failed.
    SourceFault,
    /// The sink failed.
    SinkFault,
    /// Memory was wanted.
    NoMemory,
    /// As many bytes were taken as are too many.
    TooLong,
}

impl From<NoMemory> for Stop {
    ghost use Rattle.std.specs.Prelude.{◌≡◌};
    ghost use Rattle.map_run.specs.declared.stop.Stop.TheVariants.{NoMemory};

    ghost from_gives = { λ _ stop. stop ≡ NoMemory };

    fn from(_: NoMemory) -> Self {
        Stop::NoMemory
    }
}

impl From<PutFault> for Stop {
    ghost use Rattle.std.specs.Prelude.{◌≡◌};
    ghost use Rattle.map_run.specs.Stops.{put_stop};

    ghost from_gives = { λ fault stop. stop ≡ put_stop fault };

    fn from(fault: PutFault) -> Self {
        match fault {
            PutFault::Failed => Stop::SinkFault,
            PutFault::NoMemory => Stop::NoMemory,
        }
    }
}
