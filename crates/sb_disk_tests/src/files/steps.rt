//! Scripts of calls on a disk and on the files beside it, with what comes of each call.

use super::slow::Plan;
use sb_disk::Disk;
use std::fs;
use std::io::{self, Read, Seek, SeekFrom};

/// A call with what comes of it. A bool at the end says whether the call succeeds.
#[derive(Clone, Copy)]
pub enum Step {
    Mount(&'static [u8], Option<u64>, bool),
    Write(u64, &'static [u8], bool),
    Sync(bool),
    /// Reads four bytes from a place on, which are these. None where that fails.
    Read(u64, Option<[u8; 4]>),
    /// The length of the disk, its clock and its failures are these.
    Counts([u64; 3]),
    /// From now on slow files carry out so many calls of write and sync.
    Allow(u32),
    /// So many of the next reads and writes of slow files are interrupted.
    Interrupt(u32),
    /// So many interrupts are left.
    Interrupts(u32),
    /// So many syncs have reached slow files: all, and those of the bytes alone.
    Syncs([u32; 2]),
    /// A file gets these bytes, past the disk.
    Store(&'static str, &'static [u8]),
    /// A file holds just these bytes.
    Holds(&'static str, &'static [u8]),
    /// A file holds these bytes from a place on.
    HoldsAt(&'static str, u64, [u8; 3]),
    /// There is no such file.
    Absent(&'static str),
}

/// Whether there is room for the bytes, and their write succeeds or fails as is wanted.
fn is_written<D: Disk>(disk: &mut D, at: u64, bytes: &[u8], wanted: bool) -> bool {
    let len = disk.len();
    if at > len || bytes.len() as u64 > len - at {
        return false;
    }
    disk.write_at(at, bytes).is_ok() == wanted
}

/// Whether there are four bytes from the place on, and their read gives these, or fails where there are none.
fn is_read<D: Disk>(disk: &mut D, at: u64, wanted: Option<[u8; 4]>) -> bool {
    let len = disk.len();
    if at > len || len - at < 4 {
        return false;
    }
    let mut found = [9; 4];
    let read = disk.read_at(at, &mut found).is_ok();
    match wanted {
        Some(bytes) => read && found == bytes,
        None => !read,
    }
}

fn holds(rt: &HostRuntime, name: &str, bytes: &[u8]) -> bool {
    matches!(&fs::read(rt, name), Ok(found) if found.as_slice() == bytes)
}

/// Three bytes of the file from a place on, by the system's own call.
fn read_at(rt: &HostRuntime, name: &str, at: u64) -> io::Result<[u8; 3]> {
    let mut file = fs::open(rt, name)?;
    let _place = file.seek(SeekFrom::Start(at))?;
    let mut found = [9; 3];
    file.read_exact(&mut found)?;
    Ok(found)
}

/// Whether the call comes to what its step says.
fn is_so<D: Disk>(rt: &HostRuntime, plan: &Plan, disk: &mut D, step: Step) -> bool {
    match step {
        Step::Mount(name, size, wanted) => disk.mount(name, size).is_ok() == wanted,
        Step::Write(at, bytes, wanted) => is_written(disk, at, bytes, wanted),
        Step::Sync(wanted) => disk.sync().is_ok() == wanted,
        Step::Read(at, wanted) => is_read(disk, at, wanted),
        Step::Counts(counts) => counts == [disk.len(), disk.clock(), disk.faults()],
        Step::Allow(calls) => {
            plan.left.set(calls);
            true
        }
        Step::Interrupt(times) => {
            plan.interrupts.set(times);
            true
        }
        Step::Interrupts(left) => plan.interrupts.get() == left,
        Step::Syncs(counts) => counts == [plan.syncs.get(), plan.data_syncs.get()],
        Step::Store(name, bytes) => fs::write(rt, name, bytes).is_ok(),
        Step::Holds(name, bytes) => holds(rt, name, bytes),
        Step::HoldsAt(name, at, bytes) =>
            matches!(read_at(rt, name, at), Ok(found) if found == bytes),
        Step::Absent(name) => matches!(fs::exists(rt, name), Ok(false)),
    }
}

/// Whether each call comes to what its step says.
pub fn is_played<D: Disk>(rt: &HostRuntime, plan: &Plan, disk: &mut D, steps: &[Step]) -> bool {
    for step in steps {
        if !is_so(rt, plan, disk, *step) {
            return false;
        }
    }
    true
}
