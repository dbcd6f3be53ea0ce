//! The files of the system, made slow and unsure.

use std::alloc::Allocator;
use std::cell::Cell;
use std::fs::{File, Metadata, OpenFile, OpenOptions};
use std::io::{self, Read, Seek, SeekFrom, Write};
use std::rt::Files;

/// How many calls of write and sync the files still carry out, how many reads and writes are interrupted before that, and the syncs that have reached
/// them: all, and those of the bytes alone.
#[derive(Drop)]
pub struct Plan {
    pub left: Cell<u32>,
    pub interrupts: Cell<u32>,
    pub syncs: Cell<u32>,
    pub data_syncs: Cell<u32>,
}

impl Plan {
    pub fn new(left: u32) -> Plan {
        Plan {
            left: Cell::new(left),
            interrupts: Cell::new(0),
            syncs: Cell::new(0),
            data_syncs: Cell::new(0),
        }
    }

    fn interrupt(&self) -> io::Result<()> {
        let interrupts = self.interrupts.get();
        if interrupts == 0 {
            return Ok(());
        }
        self.interrupts.set(interrupts - 1);
        Err(io::ErrorKind::Interrupted.into())
    }

    fn count_call(&self) -> io::Result<()> {
        let left = self.left.get();
        if left == 0 {
            return Err(io::ErrorKind::Other.into());
        }
        self.left.set(left - 1);
        Ok(())
    }
}

/// Files of which each read and each write moves one byte at most, and which fail by a plan.
#[derive(Drop)]
pub struct Slow<'a> {
    pub rt: &'a HostRuntime,
    pub plan: &'a Plan,
}

#[derive(Drop)]
pub struct SlowFile<'a> {
    file: File,
    plan: &'a Plan,
}

impl<'a> Read for SlowFile<'a> {
    fn read(&mut self, buf: &mut [u8]) -> io::Result<usize> {
        self.plan.interrupt()?;
        let count = buf.len().min(1);
        self.file.read(&mut buf[..count])
    }
}

impl<'a> Write for SlowFile<'a> {
    fn write(&mut self, buf: &[u8]) -> io::Result<usize> {
        self.plan.interrupt()?;
        self.plan.count_call()?;
        self.file.write(&buf[..buf.len().min(1)])
    }

    fn flush(&mut self) -> io::Result<()> {
        Ok(())
    }
}

impl<'a> Seek for SlowFile<'a> {
    fn seek(&mut self, to: SeekFrom) -> io::Result<u64> {
        self.file.seek(to)
    }
}

impl<'a> OpenFile for SlowFile<'a> {
    fn metadata(&self) -> io::Result<Metadata> {
        self.file.metadata()
    }

    fn set_len(&self, size: u64) -> io::Result<()> {
        self.file.set_len(size)
    }

    fn sync_all(&self) -> io::Result<()> {
        self.plan.syncs.set(self.plan.syncs.get().saturating_add(1));
        self.plan.count_call()?;
        self.file.sync_all()
    }

    fn sync_data(&self) -> io::Result<()> {
        self.plan
            .data_syncs
            .set(self.plan.data_syncs.get().saturating_add(1));
        self.sync_all()
    }
}

impl<'a> Files for Slow<'a> {
    type File = SlowFile<'a>;

    type Dir = <HostRuntime as Files>::Dir;

    fn open_file(&self, how: &OpenOptions, path: &str) -> io::Result<SlowFile<'a>> {
        Ok(SlowFile {
            file: self.rt.open_file(how, path)?,
            plan: self.plan,
        })
    }

    fn open_dir(&self, path: &str) -> io::Result<Self::Dir> {
        self.rt.open_dir(path)
    }

    fn metadata(&self, path: &str) -> io::Result<Metadata> {
        self.rt.metadata(path)
    }

    fn symlink_metadata(&self, path: &str) -> io::Result<Metadata> {
        self.rt.symlink_metadata(path)
    }

    fn copy(&self, from: &str, to: &str) -> io::Result<u64> {
        self.rt.copy(from, to)
    }

    fn rename(&self, from: &str, to: &str) -> io::Result<()> {
        self.rt.rename(from, to)
    }

    fn remove_file(&self, path: &str) -> io::Result<()> {
        self.rt.remove_file(path)
    }

    fn create_dir(&self, path: &str) -> io::Result<()> {
        self.rt.create_dir(path)
    }

    fn remove_dir(&self, path: &str) -> io::Result<()> {
        self.rt.remove_dir(path)
    }

    fn remove_dir_all<B: Allocator>(&self, alloc: B, path: &str) -> io::Result<()> {
        self.rt.remove_dir_all(alloc, path)
    }
}
