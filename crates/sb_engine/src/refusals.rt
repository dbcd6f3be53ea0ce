//! Refusals of a space of pages, as commands are refused.

ghost use Rattle.std.specs.Prelude.{◌≡◌};
ghost use Rattle.sb_engine.specs.Refusals.{refusal_of};

use sb_drive::SpaceFault;
use sb_fold::{Refusal, Room};

/// The refusal of a command whose call of a space was refused so. A space that is down has met a fault.
pub fn refusal_of(fault: SpaceFault) -> Refusal
    ensures { result ≡ refusal_of fault }
{
    match fault {
        SpaceFault::Fault | SpaceFault::Down => Refusal::Fault,
        SpaceFault::DataFull { used, total } => Refusal::Room(Room::Data { used, total }),
        SpaceFault::TempFull { used, total } => Refusal::Room(Room::Temp { used, total }),
        SpaceFault::LogFull { used, need, total } => Refusal::Room(Room::Log { used, need, total }),
        SpaceFault::GatesFull { used, total } => Refusal::Room(Room::Gates { used, total }),
        SpaceFault::Damaged { page } => Refusal::Damaged { page },
        SpaceFault::NoMemory => Refusal::NoMemory,
    }
}
