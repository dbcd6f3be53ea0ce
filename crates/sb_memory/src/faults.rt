//! Refusals of calls over a memory.

ghost use Rattle.std.specs.Prelude.{◌≡◌};
ghost use Rattle.sb_memory.specs.Faults.{in_memory};
ghost use Rattle.sb_memory.specs.declared.faults.DriveFault.TheVariants.{NoMemory};

use sb_drive::SpaceFault;
use std::alloc::AllocError;

/// Why a call over a memory didn't come to its end. Damaged names a page that the box called broken.
#[derive(Clone, Copy, Debug, PartialEq, Eq, Drop)]
pub enum DriveFault {
    Damaged { page: u32 },
    NoMemory,
}

impl From<AllocError> for DriveFault {
    ghost from_gives = { λ _ e. e ≡ NoMemory };

    fn from(_error: AllocError) -> DriveFault {
        DriveFault::NoMemory
    }
}

/// A memory is refused nothing by a disk: what isn't a damaged page is want of memory or of a page.
impl From<SpaceFault> for DriveFault {
    ghost from_gives = { λ fault e. e ≡ in_memory fault };

    fn from(fault: SpaceFault) -> DriveFault {
        match fault {
            SpaceFault::Damaged { page } => DriveFault::Damaged { page },
            _ => DriveFault::NoMemory,
        }
    }
}
