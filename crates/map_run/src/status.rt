//! How a run ends.

use crate::stop::Stop;

/// How a run ended.
#[derive(Clone, Copy, Debug, PartialEq, Eq)]
pub enum Status {
    /// The session was read to its end, or one of its lines ended it.
    Done,
    /// The words are not of the form of a run.
    Usage,
    /// A load was refused.
    Load,
    /// The shelf failed.
    ShelfFault,
    /// The source failed.
    SourceFault,
    /// The sink failed.
    SinkFault,
    /// There was no memory.
    NoMemory,
    /// The session is too long.
    TooLong,
}

impl Status {
    ghost use Rattle.std.specs.Prelude.{◌≡◌};
    ghost use Rattle.map_run.specs.Codes.{code_of};
    ghost use Rattle.map_run.specs.Stops.{status_of};

    /// How a run ended that came to this.
    pub(crate) fn of(came: Result<(), Stop>) -> Status
        ensures { result ≡ status_of came }
    {
        match came {
            Ok(()) => Status::Done,
            Err(Stop::Load) => Status::Load,
            Err(Stop::ShelfFault) => Status::ShelfFault,
            Err(Stop::SourceFault) => Status::SourceFault,
            Err(Stop::SinkFault) => Status::SinkFault,
            Err(Stop::NoMemory) => Status::NoMemory,
            Err(Stop::TooLong) => Status::TooLong,
        }
    }

    /// What the process ends with.
    pub fn code(&self) -> u8
        ensures { result ≡ code_of self.now }
    {
        match self {
            Status::Done => 0,
            Status::Usage => 2,
            Status::Load => 3,
            Status::ShelfFault => 4,
            Status::SourceFault => 5,
            Status::SinkFault => 6,
            Status::NoMemory => 7,
            Status::TooLong => 8,
        }
    }
}
