//! The device calls that make a chunk count.

ghost use Rattle.std.specs.Prelude.{◌≡◌, ◌+◌, ◌≤◌, OnOk, OnErr};
ghost use Rattle.std.specs.Int.{to_be_bytes, w32};
ghost use Rattle.sb_disk.specs.Causes.{HasCause};
ghost use Rattle.sb_disk.specs.Moments.{RanOk, RanErr};
ghost use Rattle.sb_journal.specs.Sealing.{sealing};

use crate::reading::OPEN;
use sb_bytes::put_u32;
use sb_disk::{Disk, Failed};

/// Writes the length in front of the chunk, and then opens its gate.
pub(crate) fn seal<D: Disk>(disk: &mut D, at: u64, len: u32, gate: u64) -> Result<(), Failed>
    requires length { at + 4 ≤ D.len disk.old }
    requires gate { gate + 1 ≤ D.len disk.old }
    ensures ran { OnOk result (RanOk (sealing at len gate) (D.told disk.old) (D.told disk.new)) }
    ensures ran_err { OnErr result (RanErr (sealing at len gate) (D.told disk.old) (D.told disk.new)) }
    ensures len { D.len disk.new ≡ D.len disk.old }
    ensures cause { HasCause (D.faults disk.old) (D.faults disk.new) result }
{
    disk.write_at(at, &spelling(len))?;
    disk.sync()?;
    disk.write_at(gate, &[OPEN])?;
    disk.sync()
}

// The four bytes of a length, the highest first.
fn spelling(len: u32) -> [u8; 4]
    ensures { result ≡ to_be_bytes w32 len }
{
    let mut field = [0u8; 4];
    put_u32(&mut field, 0, len);
    field
}
