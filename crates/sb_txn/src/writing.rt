//! How changes are undone.

ghost use Rattle.std.specs.Prelude.{◌≡◌, ◌<◌, ◌≤◌, Some, false, IfErr, OnOk};
ghost use Rattle.sb_txn.specs.Book.{ActiveTransaction, transaction_with, standing_of};
ghost use Rattle.sb_txn.specs.Clauses.{IsReady, IsFaultOrDown, StaysReady, LeavesWanted, UndoesLast, GoesBack};
ghost use Rattle.sb_txn.specs.Parts.{parts};

use crate::StoreFault;
use crate::store::Store;
use sb_disk::Disk;

impl Store {
    /// Undoes the last change of the transaction.
    fn undo_last<D: Disk>(&mut self, disk: &mut D, tx: u32) -> Result<(), StoreFault>
        requires up { self.old.book.down ≡ false }
        requires ready { IsReady (parts D.told D.len disk.old self.old) }
        requires some { 0 < standing_of tx self.old.book.actives }

        ensures undoes { OnOk result ((o : ActiveTransaction) → transaction_with tx self.old.book.actives ≡ Some o
            → UndoesLast (parts D.told D.len disk.old self.old) (parts D.told D.len disk.new self.new) o) }
        ensures any_moment { LeavesWanted (parts D.told D.len disk.old self.old) (parts D.told D.len disk.new self.new) }
        ensures err { IfErr result IsFaultOrDown }
        ensures keeps { StaysReady D.told D.len D.faults disk.old disk.new self.old self.new result }
    {
        let undo = self.book.pop(tx);
        self.write_range(disk, undo.page, undo.offset, &undo.before)
    }

    /// Undoes the changes of the transaction behind the first n of them, the last of them first.
    pub(crate) fn undo_behind<D: Disk>(
        &mut self,
        disk: &mut D,
        tx: u32,
        n: usize,
    ) -> Result<(), StoreFault>
        requires ready { IsReady (parts D.told D.len disk.old self.old) }
        requires up { self.old.book.down ≡ false }
        requires mark { n ≤ standing_of tx self.old.book.actives }

        ensures back { OnOk result ((o : ActiveTransaction) → transaction_with tx self.old.book.actives ≡ Some o
            → GoesBack (parts D.told D.len disk.old self.old) (parts D.told D.len disk.new self.new) o n) }
        ensures any_moment { LeavesWanted (parts D.told D.len disk.old self.old) (parts D.told D.len disk.new self.new) }
        ensures err { IfErr result IsFaultOrDown }
        ensures keeps { StaysReady D.told D.len D.faults disk.old disk.new self.old self.new result }
    {
        while self.book.standing_of(tx) > n {
            self.undo_last(disk, tx)?;
        }
        Ok(())
    }
}
