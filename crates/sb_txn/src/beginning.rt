//! How a transaction begins, where need be behind a checkpoint.

ghost use Rattle.std.specs.Prelude.{◌≡◌, ◌^◌, ◌-◌, ◌<◌, true, false, length, IfErr, OnOk};
ghost use Rattle.sb_journal.specs.State.{used_of};
ghost use Rattle.sb_txn.specs.Book.{MayBegin};
ghost use Rattle.sb_txn.specs.Clauses.{IsReady, IsFaultOrDown, StaysReady, LeavesWanted, AsksNothing, MakesRoom};
ghost use Rattle.sb_txn.specs.Parts.{parts};
ghost use Rattle.sb_txn.specs.Steps.{HasHalf, TakesCheckpoint};

use crate::StoreFault;
use crate::store::Store;
use sb_disk::Disk;

/// Half of the gates of the chunks.
const HALF_OF_GATES: u32 = 32768;

/// Half of the numbers that transactions may have.
const HALF_OF_NUMBERS: u32 = 0x8000_0000;

impl Store {
    /// Takes a checkpoint where one is due.
    pub(crate) fn make_room<D: Disk>(&mut self, disk: &mut D) -> Result<(), StoreFault>
        requires ready { IsReady (parts D.told D.len disk.old self.old) }
        requires room { self.old.book.down ≡ false → MayBegin self.old.book }

        ensures few { OnOk result (length self.new.book.actives < 8) }
        ensures number { OnOk result (self.new.book.next < 2 ^ 32 - 1) }
        ensures up { OnOk result (self.new.book.down ≡ false) }
        ensures made { OnOk result (MakesRoom (parts D.told D.len disk.old self.old) (parts D.told D.len disk.new self.new)) }
        ensures quiet { AsksNothing disk.old disk.new self.old }
        ensures any_moment { LeavesWanted (parts D.told D.len disk.old self.old) (parts D.told D.len disk.new self.new) }
        ensures err { IfErr result IsFaultOrDown }
        ensures keeps { StaysReady D.told D.len D.faults disk.old disk.new self.old self.new result }
    {
        if self.book.is_down() {
            return Err(StoreFault::Down);
        }
        if self.takes_checkpoint() {
            return self.checkpoint(disk);
        }
        Ok(())
    }

    /// Whether no transaction is active and more than half of something is used.
    fn takes_checkpoint(&self) -> bool
        requires log { self.now.pool.geometry.log < 2 ^ 32 }
        requires used { used_of self.now.journal < 2 ^ 32 }
        requires same { self.now.pool.geometry.log ≡ self.now.journal.log.len }
        ensures due { result ≡ true → TakesCheckpoint self.now.journal self.now.book }
        ensures other { result ≡ false → TakesCheckpoint self.now.journal self.now.book → ⊥ }
        ensures number { result ≡ false → MayBegin self.now.book → self.now.book.next < 2 ^ 32 - 1 }
    {
        self.book.active_count() == 0 && self.is_over_half()
    }

    /// Whether more than half of the log is used, of its gates, or of the numbers of transactions.
    fn is_over_half(&self) -> bool
        requires log { self.now.pool.geometry.log < 2 ^ 32 }
        requires used { used_of self.now.journal < 2 ^ 32 }
        requires same { self.now.pool.geometry.log ≡ self.now.journal.log.len }
        ensures over { result ≡ true → HasHalf self.now.journal self.now.book → ⊥ }
        ensures half { result ≡ false → HasHalf self.now.journal self.now.book }
    {
        2 * self.journal.used() > self.pool.geometry().log
            || self.journal.chunks() > HALF_OF_GATES
            || self.book.next() >= HALF_OF_NUMBERS
    }
}
