//! What a call of a store may answer.

ghost use Rattle.std.specs.Prelude.{◌≡◌};
ghost use Rattle.sb_txn.specs.Faults.{of_pool, of_journal};
ghost use Rattle.sb_txn.specs.declared.fault.StoreFault.TheVariants.{NoMemory};

use sb_journal::JournalFault;
use sb_pool::PoolFault;
use std::alloc::AllocError;
use thiserror::Error;

/// Why a call of a store is refused.
#[derive(Clone, Copy, Debug, PartialEq, Eq, Drop, Error)]
pub enum StoreFault {
    #[error("a call on the disk has failed")]
    Fault,
    #[error("{used} of {total} bytes of the log are used, and {need} more are needed")]
    LogFull { used: u64, need: u64, total: u64 },
    #[error("{used} of {total} gates are used")]
    GatesFull { used: u32, total: u32 },
    #[error("an earlier call has failed")]
    Down,
    #[error("memory is wanting")]
    NoMemory,
}

impl From<AllocError> for StoreFault {
    ghost from_gives = { λ _ f. f ≡ NoMemory };

    fn from(_: AllocError) -> Self {
        StoreFault::NoMemory
    }
}

impl From<PoolFault> for StoreFault {
    ghost from_gives = { λ e f. f ≡ of_pool e };

    fn from(e: PoolFault) -> Self {
        match e {
            PoolFault::Fault => StoreFault::Fault,
            PoolFault::NoMemory => StoreFault::NoMemory,
        }
    }
}

impl From<JournalFault> for StoreFault {
    ghost from_gives = { λ e f. f ≡ of_journal e };

    fn from(e: JournalFault) -> Self {
        match e {
            JournalFault::LogFull { used, need, total } => StoreFault::LogFull {
                used,
                need,
                total,
            },
            JournalFault::GatesFull { used, total } => StoreFault::GatesFull { used, total },
            JournalFault::NoMemory => StoreFault::NoMemory,
            JournalFault::Fault | JournalFault::BadChunk { .. } => StoreFault::Fault,
        }
    }
}
