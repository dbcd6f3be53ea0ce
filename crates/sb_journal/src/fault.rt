//! What a call of a journal may answer.

ghost use Rattle.std.specs.Prelude.{◌≡◌};
ghost use Rattle.sb_journal.specs.declared.fault.JournalFault.TheVariants.{Fault, NoMemory};

use sb_disk::Failed;
use std::alloc::AllocError;
use thiserror::Error;

/// Why a call of a journal is refused.
#[derive(Clone, Copy, Debug, PartialEq, Eq, Drop, Error)]
pub enum JournalFault {
    #[error("a call on the disk has failed")]
    Fault,
    #[error("{used} of {total} bytes of the log are used, and {need} more are needed")]
    LogFull { used: u64, need: u64, total: u64 },
    #[error("{used} of {total} gates are used")]
    GatesFull { used: u32, total: u32 },
    #[error("chunk {chunk} is damaged at offset {offset}")]
    BadChunk { chunk: u32, offset: u32 },
    #[error("memory is wanting")]
    NoMemory,
}

impl From<Failed> for JournalFault {
    ghost from_gives = { λ _ e. e ≡ Fault };

    fn from(_: Failed) -> Self {
        JournalFault::Fault
    }
}

impl From<AllocError> for JournalFault {
    ghost from_gives = { λ _ e. e ≡ NoMemory };

    fn from(_: AllocError) -> Self {
        JournalFault::NoMemory
    }
}
