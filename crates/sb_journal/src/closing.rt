//! The device calls that close gates.

ghost use Rattle.std.specs.Prelude.{◌≡◌, ◌+◌, ◌^◌, ◌<◌, ◌≤◌, OnOk, OnErr, replicate};
ghost use Rattle.sb_disk.specs.Causes.{HasCause};
ghost use Rattle.sb_disk.specs.Disk.{WhereTold, wrote, FailedWrite};
ghost use Rattle.sb_disk.specs.Moments.{LeavesOnly, LeavesTorn};
ghost use Rattle.sb_journal.specs.Closing.{Zeroed};

use crate::journal::MAX_GATES;
use sb_disk::{Disk, Failed};

/// Writes so many zeros at this place in one go, and syncs.
pub(crate) fn zero<D: Disk>(disk: &mut D, at: u64, count: u64) -> Result<(), Failed>
    requires few { count ≤ MAX_GATES }
    requires len { at + count ≤ D.len disk.old }

    ensures zeroed { OnOk result (WhereTold (D.told disk.old) (D.told disk.new) (Zeroed at count)) }

    // A crash anywhere in the call leaves what was there, but for these bytes.
    ensures any_moment { LeavesOnly (D.told disk.old) (D.told disk.new) (LeavesTorn at count (D.told disk.old)) }

    ensures len { D.len disk.new ≡ D.len disk.old }
    ensures cause { HasCause (D.faults disk.old) (D.faults disk.new) result }
{
    write_zeros(disk, at, count)?;
    disk.sync()
}

// Writes so many zeros in one call.
fn write_zeros<D: Disk>(disk: &mut D, at: u64, count: u64) -> Result<(), Failed>
    requires few { count ≤ MAX_GATES }
    requires len { at + count ≤ D.len disk.old }
    ensures ok { OnOk result (D.told disk.new ≡ wrote at (replicate count 0) (D.told disk.old)) }
    ensures err { OnErr result (FailedWrite at count (D.told disk.old) (D.told disk.new)) }
    ensures len { D.len disk.new ≡ D.len disk.old }
    ensures cause { HasCause (D.faults disk.old) (D.faults disk.new) result }
{
    let zeros = [0u8; MAX_GATES];
    disk.write_at(at, &zeros[..count as usize])
}
