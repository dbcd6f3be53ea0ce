//! A disk that counts what its calls cost.

ghost use Rattle.std.specs.Prelude.{◌≡◌, ◌+◌, ◌-◌, ◌^◌, ◌≤◌, length, min, OnOk, OnErr};
ghost use Rattle.sb_disk.specs.Causes.{HasCause};
ghost use Rattle.sb_disk.specs.Disk.{wrote, synced, FailedWrite, FailedSync, Reads, Mounted, Ticks};

use sb_disk::{Disk, Failed};

/// How many syncs succeeded, and how many bytes were written by writes that did.
#[derive(Clone, Copy, Debug, PartialEq, Eq)]
pub struct Cost {
    pub syncs: u64,
    pub written: u64,
}

/// A disk with counts of its syncs and of the bytes written, up to the greatest u64. A call that failed counts for nothing.
#[derive(Drop)]
pub struct Counted<D> {
    pub disk: D,
    pub syncs: u64,
    pub written: u64,
}

impl<D: Disk> Counted<D> {
    /// The counts so far. They begin at 0 again.
    pub fn take_cost(&mut self) -> Cost
        ensures cost { result ≡ record { syncs = self.old.syncs; written = self.old.written } }
        ensures rest { self.new ≡ record self.old { syncs = 0; written = 0 } }
    {
        let cost = Cost {
            syncs: self.syncs,
            written: self.written,
        };
        self.syncs = 0;
        self.written = 0;
        cost
    }
}

impl<D: Disk> Disk for Counted<D> {
    ghost told = { λ d. D.told d.disk };

    ghost len = { λ d. D.len d.disk };

    ghost clock = { λ d. D.clock d.disk };

    ghost faults = { λ d. D.faults d.disk };

    ghost fits = { λ d. D.fits d.disk };

    fn mount(&mut self, name: &[u8], create_size: Option<u64>) -> Result<(), Failed>
        ensures told { Mounted (D.told self.old.disk) (D.told self.new.disk) }
        ensures len { D.len self.old.disk ≤ D.len self.new.disk }
        ensures clock { D.clock self.new.disk ≡ D.clock self.old.disk }
        ensures cause { HasCause (D.faults self.old.disk) (D.faults self.new.disk) result }

        // It isn't counted.
        ensures syncs { self.new.syncs ≡ self.old.syncs }
        ensures written { self.new.written ≡ self.old.written }
    {
        self.disk.mount(name, create_size)
    }

    fn len(&self) -> u64 {
        self.disk.len()
    }

    fn clock(&self) -> u64 {
        self.disk.clock()
    }

    fn faults(&self) -> u64 {
        self.disk.faults()
    }

    fn read_at(&mut self, at: u64, buffer: &mut [u8]) -> Result<(), Failed>
        requires { at + length buffer.old ≤ D.len self.old.disk }
        ensures ok { OnOk result (Reads (D.told self.old.disk) at buffer.new) }
        ensures told { D.told self.new.disk ≡ D.told self.old.disk }
        ensures len { D.len self.new.disk ≡ D.len self.old.disk }
        ensures clock { D.clock self.new.disk ≡ D.clock self.old.disk }
        ensures cause { HasCause (D.faults self.old.disk) (D.faults self.new.disk) result }

        // It isn't counted.
        ensures syncs { self.new.syncs ≡ self.old.syncs }
        ensures written { self.new.written ≡ self.old.written }
    {
        self.disk.read_at(at, buffer)
    }

    fn write_at(&mut self, at: u64, bytes: &[u8]) -> Result<(), Failed>
        requires { at + length bytes.now ≤ D.len self.old.disk }
        ensures ok { OnOk result (D.told self.new.disk ≡ wrote at bytes.now (D.told self.old.disk)) }
        ensures err { OnErr result (FailedWrite at (length bytes.now) (D.told self.old.disk) (D.told self.new.disk)) }
        ensures late { 2 ^ 64 - 1 ≤ D.clock self.old.disk → D.told self.new.disk ≡ D.told self.old.disk }
        ensures clock { Ticks (D.clock self.old.disk) (D.clock self.new.disk) result }
        ensures len { D.len self.new.disk ≡ D.len self.old.disk }
        ensures cause { HasCause (D.faults self.old.disk) (D.faults self.new.disk) result }

        // Its bytes are counted once where it succeeds, and not where it fails.
        ensures counted { OnOk result (self.new.written ≡ min (self.old.written + length bytes.now) (2 ^ 64 - 1)) }
        ensures failed { OnErr result (self.new.written ≡ self.old.written) }
        ensures syncs { self.new.syncs ≡ self.old.syncs }
    {
        self.disk.write_at(at, bytes)?;
        self.written = self.written.saturating_add(bytes.len() as u64);
        Ok(())
    }

    fn sync(&mut self) -> Result<(), Failed>
        ensures ok { OnOk result (D.told self.new.disk ≡ synced (D.told self.old.disk)) }
        ensures err { OnErr result (FailedSync (D.told self.old.disk) (D.told self.new.disk)) }
        ensures late { 2 ^ 64 - 1 ≤ D.clock self.old.disk → D.told self.new.disk ≡ D.told self.old.disk }
        ensures clock { Ticks (D.clock self.old.disk) (D.clock self.new.disk) result }
        ensures len { D.len self.new.disk ≡ D.len self.old.disk }
        ensures cause { HasCause (D.faults self.old.disk) (D.faults self.new.disk) result }

        // It is counted once where it succeeds, and not where it fails.
        ensures counted { OnOk result (self.new.syncs ≡ min (self.old.syncs + 1) (2 ^ 64 - 1)) }
        ensures failed { OnErr result (self.new.syncs ≡ self.old.syncs) }
        ensures written { self.new.written ≡ self.old.written }
    {
        self.disk.sync()?;
        self.syncs = self.syncs.saturating_add(1);
        Ok(())
    }
}
