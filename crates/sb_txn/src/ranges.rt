//! Ranges of pages that are written.

ghost use Rattle.std.specs.Prelude.{◌≡◌, ◌+◌, ◌<◌, ◌≤◌, ℕ, List, false, length, IfErr, OnOk};
ghost use Rattle.sb_txn.specs.Ahead.{IsAhead, CatchesUp, LeavesAhead};
ghost use Rattle.sb_txn.specs.Clauses.{IsFaultOrDown, StaysReady};
ghost use Rattle.sb_txn.specs.Parts.{parts};

use crate::StoreFault;
use crate::store::Store;
use sb_disk::Disk;

impl Store {
    /// Writes the bytes that log and book have already.
    pub(crate) fn write_range<D: Disk>(
        &mut self,
        disk: &mut D,
        page: u32,
        offset: u16,
        bytes: &[u8],
    ) -> Result<(), StoreFault>
        requires ahead { (want now : ℕ → List ℕ) × IsAhead want now page offset bytes.now (parts D.told D.len disk.old self.old) }
        requires up { self.old.book.down ≡ false }
        requires page { page < self.old.pool.geometry.pages }
        requires range { offset + length bytes.now ≤ 4096 }

        ensures written { OnOk result (CatchesUp (parts D.told D.len disk.old self.old)
            (parts D.told D.len disk.new self.new) page offset bytes.now) }
        ensures any_moment { LeavesAhead (parts D.told D.len disk.old self.old) (parts D.told D.len disk.new self.new) page offset bytes.now }
        ensures err { IfErr result IsFaultOrDown }
        ensures keeps { StaysReady D.told D.len D.faults disk.old disk.new self.old self.new result }
    {
        match self
            .pool
            .write(disk, &mut self.journal, page, offset, bytes)
        {
            Ok(()) => Ok(()),
            Err(_) => {
                self.book.fail();
                Err(StoreFault::Fault)
            }
        }
    }
}
