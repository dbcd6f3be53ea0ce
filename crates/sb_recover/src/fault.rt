//! Why a store isn't opened.

ghost use Rattle.std.specs.Prelude.{◌≡◌};
ghost use Rattle.sb_recover.specs.declared.fault.OpenFault.TheVariants.{Fault, NoMemory};
ghost use Rattle.sb_recover.specs.Faults.{fault_of};

use sb_disk::Failed;
use sb_journal::JournalFault;
use std::alloc::AllocError;
use thiserror::Error;

/// Why a disk isn't opened as a store, or no store is made on it.
#[derive(Debug, Drop, Error)]
pub enum OpenFault {
    #[error("a call on the disk has failed")]
    Fault,
    #[error("the disk has {have} bytes, and a store needs {need}")]
    TooSmall { have: u64, need: u64 },
    #[error("the disk holds no store")]
    NotStore,
    #[error("chunk {chunk} of the log is damaged at offset {offset}")]
    BadLog { chunk: u32, offset: u32 },
    #[error("extension {code} is missing")]
    MissingExtension { code: u16 },
    #[error("page {page} is damaged")]
    Damaged { page: u32 },
    #[error("two extensions have code {code}")]
    BadExtensions { code: u16 },
    #[error("the disk holds a store already")]
    AlreadyStore,
    #[error("memory is wanting")]
    NoMemory,
}

impl From<Failed> for OpenFault {
    ghost from_gives = { λ _ e. e ≡ Fault };

    fn from(_: Failed) -> Self {
        OpenFault::Fault
    }
}

impl From<AllocError> for OpenFault {
    ghost from_gives = { λ _ e. e ≡ NoMemory };

    fn from(_: AllocError) -> Self {
        OpenFault::NoMemory
    }
}

/// A journal that is only opened, read and closed is never full.
impl From<JournalFault> for OpenFault {
    ghost from_gives = { λ f e. e ≡ fault_of f };

    fn from(fault: JournalFault) -> Self {
        match fault {
            JournalFault::NoMemory => OpenFault::NoMemory,
            JournalFault::BadChunk { chunk, offset } => OpenFault::BadLog { chunk, offset },
            _ => OpenFault::Fault,
        }
    }
}
