//! What a memory disk keeps of its past, and where it stops.

ghost use Rattle.std.specs.Prelude.{◌≡◌, ◌||◌, ◌+◌, ◌-◌, ◌^◌, ◌<◌, ◌≤◌, List, ℕ, IsOk, IfOk, OnOk, OnErr, cond, true, false, length, take, drop, vec_capacity};
ghost use Rattle.sb_disk.specs.Disk.{Story, after_idle};
ghost use Rattle.sb_memdisk.specs.Failing.{has_stopped, torn_len};
ghost use Rattle.sb_memdisk.specs.Past.{after_lull, IsReady, IsStored};

use sb_bytes::splice;
use std::alloc::{AllocError, Global};
use std::mem;

/// The calls since the last write: some that changed nothing, and then syncs.
#[derive(Clone, Copy, Debug, PartialEq, Eq, Drop)]
pub struct Lull {
    pub idle: u64,
    pub synced: u64,
}

impl Lull {
    /// One call more that changed nothing. After a sync it is as good as another sync.
    pub fn with_idle(self) -> Lull
        requires { self.idle + self.synced < 2 ^ 64 - 1 }
        ensures more { result.idle + result.synced ≡ self.idle + self.synced + 1 }
        ensures same { (s : Story) → after_lull result s ≡ after_idle (after_lull self s) }
    {
        if self.synced == 0 {
            Lull {
                idle: self.idle + 1,
                synced: 0,
            }
        } else {
            Lull {
                idle: self.idle,
                synced: self.synced + 1,
            }
        }
    }
}

/// A write that was made, with what stood in its range before, and the calls between the write before it and this one.
#[derive(Drop)]
pub struct Entry {
    pub lull: Lull,
    pub at: usize,
    pub replaced: Vec<u8>,
}

/// The write or sync at which a disk stops, and how many bytes of it are stored.
#[derive(Clone, Copy, Debug, PartialEq, Eq, Drop)]
pub struct Stop {
    pub call: u64,
    pub torn: u32,
}

/// Whether the write or sync at which the disk stops is among the first so many.
pub fn is_stopped(stop: Option<Stop>, clock: u64) -> bool
    ensures { result ≡ has_stopped stop clock }
{
    match stop {
        Some(stop) => stop.call < clock,
        None => false,
    }
}

/// Whether the next write or sync fails: its call is named, or the disk has stopped or stops at it.
pub fn is_failing(named: bool, stop: Option<Stop>, clock: u64) -> bool
    requires { clock < 2 ^ 64 - 1 }
    ensures { result ≡ (named || has_stopped stop (clock + 1)) }
{
    named || is_stopped(stop, clock + 1)
}

/// How many bytes of a write are stored: none where its call is to fail.
pub fn stored(named: bool, stop: Option<Stop>, clock: u64, len: usize) -> usize
    ensures most { result ≤ len }
    ensures value { result ≡ cond named 0 (torn_len stop clock len) }
    ensures whole { named ≡ false → has_stopped stop (clock + 1) ≡ false → result ≡ len }
{
    if named {
        return 0;
    }
    match stop {
        Some(stop) => {
            if clock < stop.call {
                len
            } else if clock == stop.call {
                len.min(stop.torn as usize)
            } else {
                0
            }
        }
        None => len,
    }
}

/// The bytes of a range that a write is to replace, in memory of their own; where the write is to fail, in the memory that is held ready for it.
pub fn copied(
    alloc: Global,
    bytes: &[u8],
    spare: &mut Vec<u8>,
    past: &mut Vec<Entry>,
    fails: bool,
) -> Result<Vec<u8>, AllocError>
    requires ready { fails ≡ true → IsReady (length bytes.now) spare.old past.old }
    ensures copy { IfOk result (λ v. v.items ≡ bytes.now) }
    ensures always { fails ≡ true → IsOk result }
    ensures past { past.new.items ≡ past.old.items }
    ensures room { OnOk result (length past.old.items < vec_capacity past.new) }
    ensures spare { fails ≡ false → spare.new ≡ spare.old }
    ensures next { fails ≡ false → OnOk result (length past.old.items + 1 < vec_capacity past.new) }
    ensures kept { OnErr result (vec_capacity past.old ≤ vec_capacity past.new) }
{
    if fails {
        let mut copy = mem::replace(spare, Vec::new(alloc));
        copy.extend_from_slice(bytes).unwrap();
        return Ok(copy);
    }
    let copy = bytes.to_vec(alloc)?;
    past.reserve(2)?;
    Ok(copy)
}

/// Stores the first bytes of a write, and notes the write.
pub fn store(bytes: &mut [u8], past: &mut Vec<Entry>, entry: Entry, written: &[u8], kept: usize)
    requires at { entry.at + length written.now ≤ length bytes.old }
    requires kept { kept ≤ length written.now }
    requires replaced { entry.replaced.items ≡ take (length written.now) (drop entry.at bytes.old) }
    requires room { length past.old.items < vec_capacity past.old }
    ensures stored { IsStored entry.lull entry.at written.now kept bytes.old bytes.new past.old.items past.new.items }
    ensures more { length past.new.items ≡ length past.old.items + 1 }
    ensures room { vec_capacity past.old ≤ vec_capacity past.new }
{
    splice(bytes, entry.at, &written[..kept]);
    past.push(entry).unwrap();
}
