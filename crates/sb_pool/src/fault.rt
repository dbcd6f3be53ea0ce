//! What a call of a pool may answer.

ghost use Rattle.std.specs.Prelude.{◌≡◌};
ghost use Rattle.sb_pool.specs.declared.fault.PoolFault.TheVariants.{Fault, NoMemory};

use sb_disk::Failed;
use std::alloc::AllocError;
use thiserror::Error;

/// Why a call of a pool is refused.
#[derive(Clone, Copy, Debug, PartialEq, Eq, Drop, Error)]
pub enum PoolFault {
    #[error("a call on the disk has failed")]
    Fault,
    #[error("memory is wanting")]
    NoMemory,
}

impl From<Failed> for PoolFault {
    ghost from_gives = { λ _ e. e ≡ Fault };

    fn from(_: Failed) -> Self {
        PoolFault::Fault
    }
}

impl From<AllocError> for PoolFault {
    ghost from_gives = { λ _ e. e ≡ NoMemory };

    fn from(_: AllocError) -> Self {
        PoolFault::NoMemory
    }
}
