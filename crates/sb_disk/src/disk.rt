//! A disk, and what a crash may leave of it.

ghost use Rattle.std.specs.Prelude.{◌≡◌, ◌+◌, ◌-◌, ◌^◌, ◌≤◌, ℕ, Option, length, OnOk, OnErr};
ghost use Rattle.sb_disk.specs.Causes.{HasCause};
ghost use Rattle.sb_disk.specs.Disk.{Story, wrote, synced, FailedWrite, FailedSync, Reads, Mounted, Ticks, Fits};

use crate::Failed;

/// Bytes that outlast a crash once they are synced.
///
/// For a crash within a write the moment behind it counts; within a sync, the one before it or the one behind it.
pub trait Disk {
    /// The disk's bytes, what is pending of them, and all earlier moments, where the disk tells them.
    ghost told: { Self → Option Story };

    /// The number of its bytes.
    ghost len: { Self → ℕ };

    /// How many writes and syncs were called, whether they failed or not, up to the greatest u64.
    ghost clock: { Self → ℕ };

    /// How often the disk has failed, up to the greatest u64.
    ghost faults: { Self → ℕ };

    /// Opens the disk of this name, which is UTF-8. Where a size is given, a disk that isn't there is made, and one that is shorter is made longer if that can be done.
    fn mount(&mut self, name: &[u8], create_size: Option<u64>) -> Result<(), Failed>
        ensures told { Mounted (told self.old) (told self.new) }
        ensures len { len self.old ≤ len self.new }
        ensures clock { clock self.new ≡ clock self.old }
        ensures cause { HasCause (faults self.old) (faults self.new) result };

    fn len(&self) -> u64
        ensures { result ≡ len self.now };

    fn clock(&self) -> u64
        ensures { result ≡ clock self.now };

    fn faults(&self) -> u64
        ensures { result ≡ faults self.now };

    /// Fills the buffer with the bytes from a place on. After an error the buffer holds any bytes.
    fn read_at(&mut self, at: u64, buffer: &mut [u8]) -> Result<(), Failed>
        requires { at + length buffer.old ≤ len self.old }
        ensures ok { OnOk result (Reads (told self.old) at buffer.new) }
        ensures told { told self.new ≡ told self.old }
        ensures len { len self.new ≡ len self.old }
        ensures clock { clock self.new ≡ clock self.old }
        ensures cause { HasCause (faults self.old) (faults self.new) result };

    /// Writes the bytes from a place on. Until a sync succeeds, a crash may leave any bytes there.
    fn write_at(&mut self, at: u64, bytes: &[u8]) -> Result<(), Failed>
        requires { at + length bytes.now ≤ len self.old }
        ensures ok { OnOk result (told self.new ≡ wrote at bytes.now (told self.old)) }
        ensures err { OnErr result (FailedWrite at (length bytes.now) (told self.old) (told self.new)) }
        ensures late { 2 ^ 64 - 1 ≤ clock self.old → told self.new ≡ told self.old }
        ensures clock { Ticks (clock self.old) (clock self.new) result }
        ensures len { len self.new ≡ len self.old }
        ensures cause { HasCause (faults self.old) (faults self.new) result };

    /// Once it has succeeded, nothing is pending: a crash shows the same bytes as a read.
    fn sync(&mut self) -> Result<(), Failed>
        ensures ok { OnOk result (told self.new ≡ synced (told self.old)) }
        ensures err { OnErr result (FailedSync (told self.old) (told self.new)) }
        ensures late { 2 ^ 64 - 1 ≤ clock self.old → told self.new ≡ told self.old }
        ensures clock { Ticks (clock self.old) (clock self.new) result }
        ensures len { len self.new ≡ len self.old }
        ensures cause { HasCause (faults self.old) (faults self.new) result };

    /// A story has as many bytes as the disk, and an earlier moment for each call on the clock.
    ghost fits: { (d : Self) → Fits (len d) (clock d) (told d) };
}
