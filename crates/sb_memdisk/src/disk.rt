//! The memory disk and its calls.

ghost use Rattle.std.specs.Prelude.{◌≡◌, ◌+◌, ◌-◌, ◌^◌, ◌<◌, ◌≤◌, min, Some, None, [], length, replicate, refl, IsOk, IfOk, OnOk, OnErr};
ghost use Rattle.sb_disk.specs.Causes.{HasCause};
ghost use Rattle.sb_disk.specs.Disk.{wrote, synced, after_idle, WriteFault, SyncFault, Reads, Ticks};
ghost use Rattle.sb_disk.specs.Syncs.{last_synced};
ghost use Rattle.sb_memdisk.specs.Failing.{clock_of, is_failing_read, is_failing_on_clock, stopping, GoesToPlan, WritesToPlan};
ghost use Rattle.sb_memdisk.specs.View.{new_disk};

use crate::past::{Entry, Lull, Stop, copied, is_failing, is_stopped, store, stored};
use sb_disk::{Disk, Failed};
use sb_value::Bytes;
use std::alloc::{AllocError, Global};
use std::marker::Model;

/// A disk in memory. It tells its contents, and can be made to fail, to tear a write and to stop.
#[derive(Drop)]
pub struct MemDisk {
    alloc: Global,
    bytes: Vec<u8>,
    /// As at the last successful sync.
    kept: Vec<u8>,
    past: Vec<Entry>,
    /// Memory for what a torn write replaces, until the disk has stopped.
    spare: Vec<u8>,
    lull: Lull,
    clock: u64,
    calls: u64,
    faults: u64,
    fails: Vec<u64>,
    stop: Option<Stop>,
}

impl Model for MemDisk {
    ghost use Rattle.sb_memdisk.specs.State.{State};

    ghost Value = { State };

    ghost use Rattle.sb_memdisk.specs.View.{state_of, Holds};

    ghost view = { state_of };

    ghost invariant = { Holds };
}

impl MemDisk {
    /// A disk of so many bytes, all zero.
    pub fn new(alloc: Global, size: u64) -> Result<MemDisk, AllocError>
        ensures { IfOk result (λ d. d ≡ new_disk (replicate size 0)) }
    {
        let bytes = vec![in alloc; 0; size as usize]?;
        let kept = vec![in alloc; 0; size as usize]?;
        MemDisk::holding(alloc, bytes, kept)
    }

    /// A disk of these bytes, none of which is pending.
    pub fn from_image(alloc: Global, image: &[u8]) -> Result<MemDisk, AllocError>
        ensures { IfOk result (λ d. d ≡ new_disk image.now) }
    {
        let bytes = image.to_vec(alloc)?;
        let kept = image.to_vec(alloc)?;
        MemDisk::holding(alloc, bytes, kept)
    }

    fn holding(alloc: Global, bytes: Vec<u8>, kept: Vec<u8>) -> Result<MemDisk, AllocError>
        requires { kept.items ≡ bytes.items }
        ensures { IfOk result (λ d. d ≡ new_disk bytes.items) }
    {
        let past = Vec::with_capacity(alloc, 1)?;
        let spare = Vec::with_capacity(alloc, bytes.len())?;
        Ok(MemDisk {
            alloc,
            bytes,
            kept,
            past,
            spare,
            lull: Lull { idle: 0, synced: 0 },
            clock: 0,
            calls: 0,
            faults: 0,
            fails: Vec::new(alloc),
            stop: None,
        })
    }

    /// From now on the reads, writes and syncs with these numbers fail, and no others. The first call has the number 0.
    pub fn fail_at(&mut self, calls: &[u64]) -> Result<(), AllocError>
        ensures ok { OnOk result (self.new ≡ record self.old { fails = calls.now }) }
        ensures err { OnErr result (self.new ≡ self.old) }
    {
        self.fails = calls.to_vec(self.alloc)?;
        Ok(())
    }

    /// The write or sync before which the clock has this number fails, and so do all later calls. Of a write the first `torn` bytes are stored. A disk that has stopped stays so.
    pub fn stop_at(&mut self, call: u64, torn: u32)
        ensures { self.new ≡ stopping (record { call = call; torn = torn }) self.old }
    {
        if !is_stopped(self.stop, self.clock) {
            self.stop = Some(Stop { call, torn });
        }
    }

    /// How many reads, writes and syncs were called, whether they failed or not.
    pub fn calls(&self) -> u64
        ensures { result ≡ self.now.calls }
    {
        self.calls
    }

    // Counts a failure.
    fn fault(&mut self) -> Failed
        ensures later { self.old.faults ≤ self.new.faults }
        ensures counted { self.new ≡ record self.old { faults = min (self.old.faults + 1) (2 ^ 64 - 1) } }
    {
        self.faults = self.faults.saturating_add(1);
        Failed
    }

    // A call on the clock that fails and changes nothing.
    fn idle(&mut self) -> Failed
        requires { clock_of self.old < 2 ^ 64 - 1 }
        ensures later { self.old.faults ≤ self.new.faults }
        ensures idle { self.new ≡ record self.old {
          story = after_idle self.old.story;
          faults = min (self.old.faults + 1) (2 ^ 64 - 1);
        } }
    {
        self.clock += 1;
        self.lull = self.lull.with_idle();
        self.fault()
    }

    /// What the disk holds with all writes kept.
    pub fn image(&self) -> Result<Bytes, AllocError>
        ensures { IfOk result (λ b. b ≡ self.now.story.now.reads) }
    {
        Ok(Bytes::from_vec(self.bytes.to_vec(self.alloc)?))
    }

    /// What the disk held at the last successful sync, or at first.
    pub fn synced(&self) -> Result<Bytes, AllocError>
        ensures { IfOk result (λ b. b ≡ last_synced self.now.story) }
    {
        Ok(Bytes::from_vec(self.kept.to_vec(self.alloc)?))
    }
}

impl Disk for MemDisk {
    ghost told = { λ d. Some d.story };

    ghost len = { λ d. length d.story.now.reads };

    ghost clock = { λ d. length d.story.before };

    ghost faults = { λ d. d.faults };

    ghost fits = { λ d. record { bytes = refl; moments = refl } };

    /// Any name and any size will do, and nothing of the disk changes.
    fn mount(&mut self, name: &[u8], create_size: Option<u64>) -> Result<(), Failed>
        ensures ok { IsOk result }
        ensures same { self.new ≡ self.old }
    {
        Ok(())
    }

    fn len(&self) -> u64 {
        self.bytes.len() as u64
    }

    fn clock(&self) -> u64 {
        self.clock
    }

    fn faults(&self) -> u64 {
        self.faults
    }

    fn read_at(&mut self, at: u64, buffer: &mut [u8]) -> Result<(), Failed>
        requires { at + length buffer.old ≤ length self.old.story.now.reads }
        ensures ok { OnOk result (Reads (Some self.old.story) at buffer.new) }
        ensures story { self.new.story ≡ self.old.story }
        ensures cause { HasCause self.old.faults self.new.faults result }
        ensures plan { GoesToPlan self.old self.new (is_failing_read self.old) result }
    {
        let fails = self.fails.contains(&self.calls) || is_stopped(self.stop, self.clock);
        self.calls = self.calls.saturating_add(1);
        if fails {
            return Err(self.fault());
        }
        let at = at as usize;
        buffer.copy_from_slice(&self.bytes[at..at + buffer.len()]);
        Ok(())
    }

    fn write_at(&mut self, at: u64, bytes: &[u8]) -> Result<(), Failed>
        requires { at + length bytes.now ≤ length self.old.story.now.reads }
        ensures ok { OnOk result (Some self.new.story ≡ wrote at bytes.now (Some self.old.story)) }
        ensures err { OnErr result (WriteFault at (length bytes.now) self.old.story self.new.story) }
        ensures late { 2 ^ 64 - 1 ≤ clock_of self.old → self.new.story ≡ self.old.story }
        ensures clock { Ticks (clock_of self.old) (clock_of self.new) result }
        ensures len { length self.new.story.now.reads ≡ length self.old.story.now.reads }
        ensures cause { HasCause self.old.faults self.new.faults result }
        ensures plan { WritesToPlan self.old self.new at bytes.now result }
    {
        let named = self.fails.contains(&self.calls);
        self.calls = self.calls.saturating_add(1);
        if self.clock == u64::MAX {
            return Err(self.fault());
        }
        let fails = is_failing(named, self.stop, self.clock);
        let kept = stored(named, self.stop, self.clock, bytes.len());
        if fails && kept == 0 {
            return Err(self.idle());
        }
        let at = at as usize;
        let range = &self.bytes[at..at + bytes.len()];
        let Ok(replaced) = copied(self.alloc, range, &mut self.spare, &mut self.past, fails) else {
            return Err(self.idle());
        };
        let lull = self.lull;
        let entry = Entry { lull, at, replaced };
        store(&mut self.bytes, &mut self.past, entry, bytes, kept);
        self.clock += 1;
        self.lull = Lull { idle: 0, synced: 0 };
        if fails {
            return Err(self.fault());
        }
        Ok(())
    }

    fn sync(&mut self) -> Result<(), Failed>
        ensures ok { OnOk result (Some self.new.story ≡ synced (Some self.old.story)) }
        ensures err { OnErr result (SyncFault self.old.story self.new.story) }
        ensures late { 2 ^ 64 - 1 ≤ clock_of self.old → self.new.story ≡ self.old.story }
        ensures clock { Ticks (clock_of self.old) (clock_of self.new) result }
        ensures len { length self.new.story.now.reads ≡ length self.old.story.now.reads }
        ensures cause { HasCause self.old.faults self.new.faults result }
        ensures plan { GoesToPlan self.old self.new (is_failing_on_clock self.old) result }
    {
        let named = self.fails.contains(&self.calls);
        self.calls = self.calls.saturating_add(1);
        if self.clock == u64::MAX {
            return Err(self.fault());
        }
        if is_failing(named, self.stop, self.clock) {
            return Err(self.idle());
        }
        self.clock += 1;
        self.lull.synced += 1;
        self.kept.copy_from_slice(&self.bytes);
        Ok(())
    }
}
