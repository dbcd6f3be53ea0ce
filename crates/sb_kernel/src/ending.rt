//! How a run ends.

ghost use Rattle.std.specs.Prelude.{◌≡◌};
ghost use Rattle.sb_kernel.specs.Ending.{EndsOrNot, status_of};

use sb_disk::Failed;
use sb_fold::Refusal;
use sb_plain::Reply;
use std::alloc::{AllocError, AllocFailed};

/// Why a run stops between two lines.
#[derive(Clone, Copy, Debug, PartialEq, Eq)]
pub enum Stop {
    SinkFailed,
    /// Memory was wanting to read a line or to print a reply.
    NoMemory,
    /// A command met a call that the disk failed.
    DiskFailed,
    /// A command met a damaged page.
    Damaged,
}

/// Whether a run goes on behind a reply.
pub(crate) fn goes_on(reply: &Reply) -> Result<(), Stop>
    ensures { EndsOrNot reply.now result }
{
    match reply {
        Reply::Refused(Refusal::Fault) => Err(Stop::DiskFailed),
        Reply::Refused(Refusal::Damaged { .. }) => Err(Stop::Damaged),
        _ => Ok(()),
    }
}

impl From<AllocError> for Stop {
    ghost use Rattle.sb_kernel.specs.declared.ending.Stop.TheVariants.{NoMemory};

    ghost from_gives = { λ _ stop. stop ≡ NoMemory };

    fn from(_error: AllocError) -> Stop {
        Stop::NoMemory
    }
}

impl<T: Drop> From<AllocFailed<T>> for Stop {
    ghost use Rattle.sb_kernel.specs.declared.ending.Stop.TheVariants.{NoMemory};

    ghost from_gives = { λ _ stop. stop ≡ NoMemory };

    fn from(_error: AllocFailed<T>) -> Stop {
        Stop::NoMemory
    }
}

impl From<Failed> for Stop {
    ghost use Rattle.sb_kernel.specs.declared.ending.Stop.TheVariants.{SinkFailed};

    ghost from_gives = { λ _ stop. stop ≡ SinkFailed };

    fn from(_error: Failed) -> Stop {
        Stop::SinkFailed
    }
}

/// The event that ended a run.
#[derive(Clone, Copy, Debug, PartialEq, Eq)]
pub enum Ending {
    /// The end of the source was seen, and every line was answered.
    InputEnded,
    SourceFailed,
    /// As many bytes as a run may take were taken, and the end of the source wasn't seen.
    MostTaken,
    Stopped(Stop),
}

impl Ending {
    /// The exit status of the program.
    pub fn status(self) -> u8
        ensures { result ≡ status_of self }
    {
        match self {
            Ending::InputEnded => 0,
            Ending::Stopped(Stop::DiskFailed) => 3,
            Ending::SourceFailed => 4,
            Ending::Stopped(Stop::SinkFailed) => 5,
            Ending::Stopped(Stop::Damaged) => 6,
            Ending::Stopped(Stop::NoMemory) => 7,
            Ending::MostTaken => 8,
        }
    }
}
