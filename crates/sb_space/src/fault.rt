//! Refusals of a store as refusals of a space.

ghost use Rattle.std.specs.Prelude.{◌≡◌};
ghost use Rattle.sb_space.specs.Faults.{fault_of};

use sb_drive::SpaceFault;
use sb_txn::StoreFault;

/// The same refusal.
pub fn fault_of(fault: StoreFault) -> SpaceFault
    ensures { result ≡ fault_of fault }
{
    match fault {
        StoreFault::Fault => SpaceFault::Fault,
        StoreFault::LogFull { used, need, total } => SpaceFault::LogFull { used, need, total },
        StoreFault::GatesFull { used, total } => SpaceFault::GatesFull { used, total },
        StoreFault::Down => SpaceFault::Down,
        StoreFault::NoMemory => SpaceFault::NoMemory,
    }
}
