//! The file disk and its calls.

ghost use Rattle.std.specs.Prelude.{◌≡◌, ◌||◌, ◌-◌, ◌^◌, ◌≤◌, true, None, IfSome, IsErr, OnOk, OnErr, is_err};
ghost use Rattle.sb_disk.specs.Causes.{HasCause};
ghost use Rattle.sb_disk.specs.Disk.{Ticks};
ghost use Rattle.sb_filedisk.specs.Counts.{Counts, IsLatched};

use crate::faults::Faults;
use crate::opening::open;
use sb_disk::{Disk, Failed};
use std::fs::OpenFile;
use std::io::{self, ErrorKind, Read, Seek, SeekFrom, Write};
use std::rt::Files;

/// A file as a disk. Before it is mounted it has no bytes, and each call but `mount` fails.
///
/// Once a write or a sync has failed, every later one fails too and leaves the file alone: what the system has dropped then isn't known.
#[derive(Drop)]
pub struct FileDisk<R: Files> {
    rt: R,
    file: Option<R::File>,
    len: u64,
    clock: u64,
    faults: Faults,
    /// Whether a write or a sync has failed.
    failed: bool,
}

impl<R: Files> FileDisk<R> {
    /// A disk that isn't mounted yet.
    pub fn new(rt: R) -> FileDisk<R>
        ensures len { ⟦<FileDisk<R> as Disk>⟧.len result ≡ 0 }
        ensures clock { ⟦<FileDisk<R> as Disk>⟧.clock result ≡ 0 }
        ensures faults { ⟦<FileDisk<R> as Disk>⟧.faults result ≡ 0 }
    {
        FileDisk {
            rt,
            file: None,
            len: 0,
            clock: 0,
            faults: Faults { count: 0 },
            failed: false,
        }
    }

    // Counts a write or a sync, which fails where one has failed before. At its end the clock stands still, and that is a failure too.
    fn tick(&mut self) -> io::Result<()>
        ensures clock { Ticks self.old.clock self.new.clock result }
        ensures latched { self.old.failed ≡ true → IsErr result }
        ensures rest { self.new ≡ record self.old { clock = self.new.clock } }
    {
        if self.clock == u64::MAX {
            return Err(ErrorKind::QuotaExceeded.into());
        }
        self.clock += 1;
        if self.failed {
            return Err(ErrorKind::BrokenPipe.into());
        }
        Ok(())
    }

    // What a write or a sync came to. A failure is counted, and kept.
    fn latch(&mut self, outcome: io::Result<()>) -> Result<(), Failed>
        ensures same { is_err result ≡ is_err outcome }
        ensures latch { self.new.failed ≡ (self.old.failed || is_err result) }
        ensures cause { HasCause self.old.faults.count self.new.faults.count result }
        ensures counted { Counts self.old.faults.count self.new.faults.count result }
        ensures rest { self.new ≡ record self.old { failed = self.new.failed; faults = self.new.faults } }
    {
        self.failed = self.failed || outcome.is_err();
        self.faults.note(outcome)
    }
}

impl<R: Files> Disk for FileDisk<R> {
    ghost told = { λ _. None };

    ghost len = { λ d. d.len };

    ghost clock = { λ d. d.clock };

    ghost faults = { λ d. d.faults.count };

    ghost fits = { λ _. tt };

    /// Opens the file of this name and syncs it. Where a size is given, a file that isn't there is made, and a shorter one gets zeros up to that size.
    ///
    /// It fails where the name isn't UTF-8, and where another file, or this one when it was longer, is mounted already.
    fn mount(&mut self, name: &[u8], create_size: Option<u64>) -> Result<(), Failed>
        ensures len { self.old.len ≤ self.new.len }
        ensures size { OnOk result (IfSome create_size (λ size. size ≤ self.new.len)) }
        ensures clock { self.new.clock ≡ self.old.clock }
        ensures latch { self.new.failed ≡ self.old.failed }
        ensures cause { HasCause self.old.faults.count self.new.faults.count result }
        ensures counted { Counts self.old.faults.count self.new.faults.count result }
        ensures err { OnErr result (self.new ≡ record self.old { faults = self.new.faults }) }
    {
        let outcome = open(&self.rt, &self.file, name, create_size);
        let opened = self.faults.note(outcome)?;
        if opened.len < self.len {
            return self.faults.note(Err(ErrorKind::UnexpectedEof.into()));
        }
        self.len = opened.len;
        self.file = Some(opened.file);
        Ok(())
    }

    fn len(&self) -> u64 {
        self.len
    }

    fn clock(&self) -> u64 {
        self.clock
    }

    fn faults(&self) -> u64 {
        self.faults.count
    }

    /// Reads on until the buffer is full. It fails where the file has become too short for that.
    fn read_at(&mut self, at: u64, buffer: &mut [u8]) -> Result<(), Failed>
        ensures rest { self.new ≡ record self.old { file = self.new.file; faults = self.new.faults } }
        ensures len { self.new.len ≡ self.old.len }
        ensures clock { self.new.clock ≡ self.old.clock }
        ensures cause { HasCause self.old.faults.count self.new.faults.count result }
        ensures counted { Counts self.old.faults.count self.new.faults.count result }
    {
        let outcome = fill(&mut self.file, at, buffer);
        self.faults.note(outcome)
    }

    /// Writes on until all bytes are taken. At the clock's end it leaves the file alone.
    fn write_at(&mut self, at: u64, bytes: &[u8]) -> Result<(), Failed>
        ensures late { 2 ^ 64 - 1 ≤ self.old.clock → self.new.file ≡ self.old.file }
        ensures clock { Ticks self.old.clock self.new.clock result }
        ensures latched { self.old.failed ≡ true → IsLatched self.old.file self.new.file result }
        ensures latch { self.new.failed ≡ (self.old.failed || is_err result) }
        ensures len { self.new.len ≡ self.old.len }
        ensures cause { HasCause self.old.faults.count self.new.faults.count result }
        ensures counted { Counts self.old.faults.count self.new.faults.count result }
    {
        let outcome = match self.tick() {
            Ok(()) => store(&mut self.file, at, bytes),
            late => late,
        };
        self.latch(outcome)
    }

    /// Syncs the bytes of the file. Its size and its name were synced when it was mounted.
    fn sync(&mut self) -> Result<(), Failed>
        ensures clock { Ticks self.old.clock self.new.clock result }
        ensures latched { self.old.failed ≡ true → IsLatched self.old.file self.new.file result }
        ensures latch { self.new.failed ≡ (self.old.failed || is_err result) }
        ensures len { self.new.len ≡ self.old.len }
        ensures cause { HasCause self.old.faults.count self.new.faults.count result }
        ensures counted { Counts self.old.faults.count self.new.faults.count result }
    {
        let outcome = match self.tick() {
            Ok(()) => settle(&self.file),
            late => late,
        };
        self.latch(outcome)
    }
}

// The error of a call before the mount.
fn unmounted() -> io::Error {
    ErrorKind::NotConnected.into()
}

fn fill<F: Read + Seek>(file: &mut Option<F>, at: u64, buffer: &mut [u8]) -> io::Result<()> {
    let Some(file) = file else {
        return Err(unmounted());
    };
    file.seek(SeekFrom::Start(at))?;
    file.read_exact(buffer)
}

fn store<F: Write + Seek>(file: &mut Option<F>, at: u64, bytes: &[u8]) -> io::Result<()> {
    let Some(file) = file else {
        return Err(unmounted());
    };
    file.seek(SeekFrom::Start(at))?;
    file.write_all(bytes)
}

fn settle<F: OpenFile>(file: &Option<F>) -> io::Result<()> {
    let Some(file) = file else {
        return Err(unmounted());
    };
    file.sync_data()
}
