//! Opening a journal on what a disk holds.

ghost use Rattle.std.specs.Prelude.{◌≡◌, ◌+◌, ◌^◌, ◌<◌, ◌≤◌, [], IfOk, IfErr, IsErrOf, vec_capacity};
ghost use Rattle.sb_disk.specs.Causes.{Rose};
ghost use Rattle.sb_journal.specs.Calls.{OpenErr};
ghost use Rattle.sb_journal.specs.Opening.{Measured, OnlyReads};
ghost use Rattle.sb_journal.specs.State.{Lies};
ghost use Rattle.sb_journal.specs.View.{range_of};

use crate::JournalFault;
use crate::journal::Region;
use crate::reading::{count_open, length_at};
use sb_disk::Disk;

/// Reads the lengths of the chunks and their places in the log, and says how many bytes they take.
pub(crate) fn read_lens<D: Disk>(
    disk: &mut D,
    gates: Region,
    log: Region,
    lens: &mut Vec<u32>,
    places: &mut Vec<u32>,
) -> Result<u64, JournalFault>
    requires lies { Lies (D.len disk.old) (range_of gates) (range_of log) }
    requires gates_end { gates.start + gates.len < 2 ^ 64 }
    requires log_end { log.start + log.len < 2 ^ 64 }
    requires none { lens.old.items ≡ [] }
    requires memory { gates.len ≤ vec_capacity lens.old }
    requires no_place { places.old.items ≡ [] }
    requires place_memory { gates.len ≤ vec_capacity places.old }

    ensures ok { IfOk result (
        Measured (D.told disk.old) (range_of gates) (range_of log) lens.new.items places.new.items) }
    ensures refused { IfErr result (OpenErr (D.told disk.old) (range_of gates) (range_of log)) }
    ensures fault { IsErrOf result JournalFault.Fault → Rose (D.faults disk.old) (D.faults disk.new) }
    ensures reads { OnlyReads D.told D.len D.faults disk.old disk.new }
    ensures capacity { vec_capacity lens.old ≤ vec_capacity lens.new }
    ensures place_capacity { vec_capacity places.old ≤ vec_capacity places.new }
{
    let chunks = count_open(disk, gates.start, gates.start + gates.len)?;
    let mut used = 0u64;
    for count in 0..chunks {
        let bad = JournalFault::BadChunk {
            chunk: count as u32,
            offset: 0,
        };
        if log.len - used < 4 {
            return Err(bad);
        }
        let len = length_at(disk, log.start + used)?;
        if log.len - used - 4 < len as u64 {
            return Err(bad);
        }
        lens.push(len).unwrap();
        places.push(used as u32).unwrap();
        used += 4 + len as u64;
    }
    Ok(used)
}
