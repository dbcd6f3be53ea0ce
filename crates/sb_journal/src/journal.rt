//! The journal, and how its pending bytes become a chunk.

ghost use Rattle.std.specs.Prelude.{◌≡◌, ◌↔◌, IsTrue, ◌+◌, ◌-◌, ◌^◌, ◌<◌, ◌≤◌, true, false, length, slice_index, OnOk, IsErrOf, IfErr, IfOk};
ghost use Rattle.sb_disk.specs.Causes.{HasCause, Rose};
ghost use Rattle.sb_disk.specs.Disk.{WhereTold};
ghost use Rattle.sb_disk.specs.Moments.{LeavesOnly, IsSettled};
ghost use Rattle.sb_journal.specs.Calls.{KeepsJournal, IsDown, IsLogFull, IsGatesFull, log_full, gates_full, AppendErr, ForceErr, OnlyFault, ReadsChunk, OpenErr};
ghost use Rattle.sb_journal.specs.Opening.{Opened, OnlyReads};
ghost use Rattle.sb_journal.specs.State.{Lies, Sound, StandsOn, IsKeptOn, IsForcedOn, IsClosingOn, Appended, Forced, Closed, after_append, after_force, after_close, after_fault, room_of, need_of, used_of};
ghost use Rattle.sb_journal.specs.View.{range_of};

use crate::JournalFault;
use crate::closing::zero;
use crate::opening::read_lens;
use crate::reading::all_shut;
use crate::sealing::seal;
use sb_disk::{Disk, Failed};
use std::alloc::Global;
use std::marker::Model;

/// The most gates that a journal may have. A store, which stands above, has so many.
pub const MAX_GATES: usize = 65536;

/// So many bytes of a disk, from a place on.
#[derive(Clone, Copy, Debug, PartialEq, Eq, Drop)]
pub struct Region {
    pub start: u64,
    pub len: u64,
}

/// Chunks of bytes behind gates of one byte, and what is pending behind them.
///
/// It stands on two regions of a disk, which every call is given. After a call that failed every later one answers `Fault` and touches no device.
#[derive(Drop)]
pub struct Journal {
    gates: Region,
    log: Region,
    lens: Vec<u32>,
    /// Where each chunk begins in the log.
    places: Vec<u32>,
    used: u64,
    pending: u32,
    forces: u32,
    clean: bool,
    failed: bool,
}

impl Model for Journal {
    ghost use Rattle.sb_journal.specs.State.{State};

    ghost Value = { State };

    ghost use Rattle.sb_journal.specs.View.{state_of, Kept};

    ghost view = { state_of };

    ghost invariant = { Kept };
}

impl Journal {
    /// Reads what stands in the two regions. It takes the memory for 65,536 chunks, and no later call takes any.
    pub fn open<D: Disk>(
        alloc: Global,
        disk: &mut D,
        gates: Region,
        log: Region,
    ) -> Result<Journal, JournalFault>
        requires lies { Lies (D.len disk.old) (range_of gates) (range_of log) }

        ensures ok { IfOk result (Opened (D.told disk.old) (range_of gates) (range_of log)) }
        ensures stands { IfOk result (λ j. IsSettled (D.told disk.old) → StandsOn (D.told disk.new) j) }
        ensures sound { IfOk result Sound }

        ensures refused { IfErr result (OpenErr (D.told disk.old) (range_of gates) (range_of log)) }
        ensures fault { IsErrOf result JournalFault.Fault → Rose (D.faults disk.old) (D.faults disk.new) }
        ensures reads { OnlyReads D.told D.len D.faults disk.old disk.new }
    {
        let size = disk.len();
        prove!(gates.start <= size);
        let mut lens = Vec::with_capacity(alloc, MAX_GATES)?;
        let mut places = Vec::with_capacity(alloc, MAX_GATES)?;
        let used = read_lens(disk, gates, log, &mut lens, &mut places)?;
        let clean = all_shut(
            disk,
            gates.start + lens.len() as u64,
            gates.start + gates.len,
        )?;
        Ok(Journal {
            gates,
            log,
            lens,
            places,
            used,
            pending: 0,
            forces: 0,
            clean,
            failed: false,
        })
    }

    /// Adds bytes to those that are pending.
    pub fn append<D: Disk>(&mut self, disk: &mut D, bytes: &[u8]) -> Result<(), JournalFault>
        requires lies { Lies (D.len disk.old) self.old.gates self.old.log }
        requires stands { StandsOn (D.told disk.old) self.old }
        requires some { 0 < length bytes.now }
        requires few { length bytes.now ≤ 16384 }

        ensures done { OnOk result (self.new ≡ after_append (length bytes.now) self.old) }
        ensures appended { OnOk result (
            WhereTold (D.told disk.old) (D.told disk.new) (Appended bytes.now self.old self.new)) }

        // A crash anywhere in the call leaves the chunks.
        ensures any_moment { LeavesOnly (D.told disk.old) (D.told disk.new) (IsKeptOn (D.told disk.old) self.old) }

        ensures full { IsErrOf result (log_full (length bytes.now) self.old) ↔ IsLogFull (length bytes.now) self.old }
        ensures refused { IfErr result (λ e.
            AppendErr e (length bytes.now) disk.old disk.new self.old self.new) }
        ensures down { self.old.failed ≡ true → IsDown disk.old disk.new self.old self.new result }
        ensures keeps { KeepsJournal D.told D.len D.faults disk.old disk.new self.old self.new result }
    {
        if self.failed {
            return Err(JournalFault::Fault);
        }
        let used = self.used();
        let need = needed(self.pending, bytes.len() as u64);
        if used + need > self.log.len {
            return Err(JournalFault::LogFull {
                used,
                need,
                total: self.log.len,
            });
        }
        match disk.write_at(self.log.start + self.used + 4 + self.pending as u64, bytes) {
            Ok(()) => {
                self.pending += bytes.len() as u32;
                Ok(())
            }
            Err(_) => Err(self.fault()),
        }
    }

    /// Makes a chunk of the pending bytes, and opens its gate. Where nothing is pending it leaves the disk alone.
    pub fn force<D: Disk>(&mut self, disk: &mut D) -> Result<(), JournalFault>
        requires lies { Lies (D.len disk.old) self.old.gates self.old.log }
        requires stands { StandsOn (D.told disk.old) self.old }
        requires clean { self.old.clean ≡ true }

        ensures done { OnOk result (self.new ≡ after_force self.old) }
        ensures forced { OnOk result (
            WhereTold (D.told disk.old) (D.told disk.new) (Forced self.old self.new)) }

        // A crash anywhere in the call leaves the chunks, or the chunks and the pending one.
        ensures any_moment { LeavesOnly (D.told disk.old) (D.told disk.new) (IsForcedOn (D.told disk.old) self.old) }

        ensures full { IsErrOf result (gates_full self.old) ↔ IsGatesFull self.old }
        ensures refused { IfErr result (λ e. ForceErr e disk.old disk.new self.old self.new) }
        ensures down { self.old.failed ≡ true → IsDown disk.old disk.new self.old self.new result }
        ensures idle { self.old.pending ≡ 0 → disk.new ≡ disk.old }
        ensures keeps { KeepsJournal D.told D.len D.faults disk.old disk.new self.old self.new result }
    {
        if self.failed {
            return Err(JournalFault::Fault);
        }
        if self.pending == 0 {
            return Ok(());
        }
        let count = self.lens.len();
        if count as u64 >= self.gates.len {
            return Err(JournalFault::GatesFull {
                used: count as u32,
                total: self.gates.len as u32,
            });
        }
        let gate = self.gates.start + count as u64;
        match seal(disk, self.log.start + self.used, self.pending, gate) {
            Ok(()) => {
                self.lens.push(self.pending).unwrap();
                self.places.push(self.used as u32).unwrap();
                self.used += 4 + self.pending as u64;
                self.pending = 0;
                self.forces = self.forces.saturating_add(1);
                Ok(())
            }
            Err(_) => Err(self.fault()),
        }
    }

    /// Closes all gates, the first of them first. What is pending is dropped.
    pub fn close_all<D: Disk>(&mut self, disk: &mut D) -> Result<(), JournalFault>
        requires lies { Lies (D.len disk.old) self.old.gates self.old.log }
        requires stands { StandsOn (D.told disk.old) self.old }

        ensures done { OnOk result (self.new ≡ after_close self.old) }
        ensures closed { OnOk result (
            WhereTold (D.told disk.old) (D.told disk.new) (Closed self.old self.new)) }

        // A crash anywhere in the call leaves all chunks, or none.
        ensures any_moment { LeavesOnly (D.told disk.old) (D.told disk.new) (IsClosingOn (D.told disk.old) self.old) }

        ensures refused { IfErr result (λ e. OnlyFault e self.old self.new) }
        ensures down { self.old.failed ≡ true → IsDown disk.old disk.new self.old self.new result }
        ensures keeps { KeepsJournal D.told D.len D.faults disk.old disk.new self.old self.new result }
    {
        if self.failed {
            return Err(JournalFault::Fault);
        }
        match close_gates(self, disk) {
            Ok(()) => {
                self.lens.clear();
                self.places.clear();
                self.used = 0;
                self.pending = 0;
                self.clean = true;
                Ok(())
            }
            Err(_) => Err(self.fault()),
        }
    }

    /// Fills the buffer with the bytes of a chunk from a place on. After an error the buffer holds any bytes.
    pub fn read_chunk<D: Disk>(
        &mut self,
        disk: &mut D,
        i: u32,
        at: u32,
        buffer: &mut [u8],
    ) -> Result<(), JournalFault>
        requires lies { Lies (D.len disk.old) self.old.gates self.old.log }
        requires stands { StandsOn (D.told disk.old) self.old }
        requires chunk { i < length self.old.lens }
        requires within { at + length buffer.old ≤ slice_index self.old.lens i }

        ensures done { OnOk result (self.new ≡ self.old) }
        ensures read { OnOk result (ReadsChunk (D.told disk.old) self.old i at buffer.new) }
        ensures told { D.told disk.new ≡ D.told disk.old }

        ensures refused { IfErr result (λ e. OnlyFault e self.old self.new) }
        ensures down { self.old.failed ≡ true → IsDown disk.old disk.new self.old self.new result }
        ensures keeps { KeepsJournal D.told D.len D.faults disk.old disk.new self.old self.new result }
    {
        if self.failed {
            return Err(JournalFault::Fault);
        }
        let place = self.places[i as usize] as u64;
        match disk.read_at(self.log.start + place + 4 + at as u64, buffer) {
            Ok(()) => Ok(()),
            Err(_) => Err(self.fault()),
        }
    }

    /// The number of chunks.
    pub fn chunks(&self) -> u32
        ensures { result ≡ length self.now.lens }
    {
        self.lens.len() as u32
    }

    /// The number of bytes of a chunk.
    pub fn chunk_len(&self, i: u32) -> u32
        requires { i < length self.now.lens }
        ensures { result ≡ slice_index self.now.lens i }
    {
        self.lens[i as usize]
    }

    /// The bytes of the log that the chunks and the pending one take, with their length fields.
    pub fn used(&self) -> u64
        ensures { result ≡ used_of self.now }
    {
        self.used + room(self.pending)
    }

    /// How many forces have made a chunk since the journal was opened, up to the greatest u32.
    pub fn forces(&self) -> u32
        ensures { result ≡ self.now.forces }
    {
        self.forces
    }

    /// Whether bytes are pending.
    pub fn pending(&self) -> bool
        ensures { IsTrue result ↔ (0 < self.now.pending) }
    {
        self.pending > 0
    }

    /// Whether no gate behind those of the chunks is open.
    pub fn clean(&self) -> bool
        ensures { result ≡ self.now.clean }
    {
        self.clean
    }

    // From now on every call answers that one has failed.
    fn fault(&mut self) -> JournalFault
        ensures fault { result ≡ JournalFault.Fault }
        ensures kept { self.new ≡ after_fault self.old }
    {
        self.failed = true;
        JournalFault::Fault
    }
}

// Closes the first gate where it is open, and then the others.
fn close_gates<D: Disk>(journal: &Journal, disk: &mut D) -> Result<(), Failed>
    requires lies { Lies (D.len disk.old) journal.now.gates journal.now.log }
    requires stands { StandsOn (D.told disk.old) journal.now }
    requires up { journal.now.failed ≡ false }

    ensures closed { OnOk result (
        WhereTold (D.told disk.old) (D.told disk.new) (Closed journal.now (after_close journal.now))) }
    ensures any_moment { LeavesOnly (D.told disk.old) (D.told disk.new) (IsClosingOn (D.told disk.old) journal.now) }
    ensures len { D.len disk.new ≡ D.len disk.old }
    ensures cause { HasCause (D.faults disk.old) (D.faults disk.new) result }
{
    let gates = journal.gates;
    let first = gates.len.min(1);
    if journal.lens.is_empty() {
        return zero(disk, gates.start + first, gates.len - first);
    }
    zero(disk, gates.start, first)?;
    zero(disk, gates.start + first, gates.len - first)
}

// The bytes of the pending chunk, with its length field.
fn room(pending: u32) -> u64
    ensures { result ≡ room_of pending }
{
    if pending == 0 { 0 } else { 4 + pending as u64 }
}

// The bytes that so many more take.
fn needed(pending: u32, more: u64) -> u64
    requires { more < 2 ^ 32 }
    ensures { result ≡ need_of pending more }
{
    if pending == 0 { 4 + more } else { more }
}
