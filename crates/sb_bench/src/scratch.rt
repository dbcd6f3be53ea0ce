//! A disk in memory that tells nothing of its past, so that a sync of it costs no time.

ghost use Rattle.std.specs.Prelude.{◌≡◌, None, vec_len};
ghost use Rattle.sb_disk.specs.Causes.{HasCause};
ghost use Rattle.sb_disk.specs.Disk.{Ticks};

use sb_disk::{Disk, Failed};
use std::alloc::{AllocError, Global};

/// Bytes in memory. Writes and syncs fail only at the clock's end.
#[derive(Drop)]
pub struct Scratch {
    bytes: Vec<u8>,
    clock: u64,
    faults: u64,
}

impl Scratch {
    /// A disk of so many zeros.
    pub fn new(alloc: Global, size: usize) -> Result<Scratch, AllocError> {
        Ok(Scratch {
            bytes: vec![in alloc; 0; size]?,
            clock: 0,
            faults: 0,
        })
    }

    /// Counts a write or a sync.
    fn tick(&mut self) -> Result<(), Failed>
        ensures clock { Ticks self.old.clock self.new.clock result }
        ensures cause { HasCause self.old.faults self.new.faults result }
        ensures bytes { self.new.bytes ≡ self.old.bytes }
    {
        if self.clock == u64::MAX {
            self.faults = self.faults.saturating_add(1);
            return Err(Failed);
        }
        self.clock += 1;
        Ok(())
    }
}

impl Disk for Scratch {
    ghost told = { λ _. None };

    ghost len = { λ d. vec_len d.bytes };

    ghost clock = { λ d. d.clock };

    ghost faults = { λ d. d.faults };

    ghost fits = { λ _. tt };

    /// Any name and any size will do, and nothing changes.
    fn mount(&mut self, _name: &[u8], _create_size: Option<u64>) -> Result<(), Failed> {
        Ok(())
    }

    fn len(&self) -> u64 {
        self.bytes.len() as u64
    }

    fn clock(&self) -> u64 {
        self.clock
    }

    fn faults(&self) -> u64 {
        self.faults
    }

    fn read_at(&mut self, at: u64, buffer: &mut [u8]) -> Result<(), Failed> {
        let at = at as usize;
        buffer.copy_from_slice(&self.bytes[at..at + buffer.len()]);
        Ok(())
    }

    fn write_at(&mut self, at: u64, bytes: &[u8]) -> Result<(), Failed> {
        self.tick()?;
        let at = at as usize;
        self.bytes[at..at + bytes.len()].copy_from_slice(bytes);
        Ok(())
    }

    fn sync(&mut self) -> Result<(), Failed> {
        self.tick()
    }
}
