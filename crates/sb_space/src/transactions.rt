//! Transactions of a space of pages.

ghost use Rattle.std.specs.Prelude.{◌≡◌, ◌≤◌, [], false, ℕ, Some, OnOk, IfOk, IfErr};
ghost use Rattle.sb_disk.specs.Moments.{LeavesOnly};
ghost use Rattle.sb_drive.specs.Slots.{Slots};
ghost use Rattle.sb_drive.specs.Spaces.{UnlessDown, Wanted};
ghost use Rattle.sb_images.specs.Images.{IsOldOrNew};
ghost use Rattle.sb_journal.specs.State.{used_of};
ghost use Rattle.sb_txn.specs.Book.{ActiveTransaction, transaction_with, standing_of};
ghost use Rattle.sb_txn.specs.Clauses.{AsksNothing, Begins, Grows, CommitAsksNothing, IsReady, LeavesWanted};
ghost use Rattle.sb_txn.specs.Parts.{parts};
ghost use Rattle.sb_space.specs.Spent.{HasSpent};
ghost use Rattle.sb_space.specs.Table.{slots_in};
ghost use Rattle.sb_space.specs.Transactions.{AreFormed, KeepsSpace, WasAt};
ghost use Rattle.sb_space.specs.Works.{HasPages, MeansDown, Serves, StaysWanted};

use crate::fault::fault_of;
use sb_disk::Disk;
use sb_drive::SpaceFault;
use sb_txn::Store;

/// An active transaction, the only one of its space. It is spent by `commit` or `abort`; one that is let go stays active as long as its store is open.
#[derive(Drop)]
pub struct Tx {
    pub store: sb_txn::Tx,
}

/// A savepoint: how many changes of a transaction stood.
#[derive(Clone, Copy, Debug, PartialEq, Eq)]
pub struct Mark {
    store: sb_txn::Mark,
}

/// Pages of many owners in a store, with its transactions, one at a time. Calls of boxes are driven over `Durable::new(&mut space.store, disk, &tx.store)`.
#[derive(Drop)]
pub struct Space {
    pub store: Store,
}

impl Space {
    /// How many pages there are.
    pub fn pages(&self) -> u32
        ensures { result ≡ self.now.store.pool.geometry.pages }
    {
        self.store.pages()
    }

    /// Whether a call on the disk has failed. Every call fails then that wants the disk.
    pub fn is_down(&self) -> bool
        ensures { result ≡ self.now.store.book.down }
    {
        self.store.is_down()
    }

    /// Begins a transaction. A checkpoint is taken first where more than half of the log or of its gates is used, or of the numbers of transactions; else disk and journal stay as they were.
    pub fn begin<D: Disk>(&mut self, disk: &mut D) -> Result<Tx, SpaceFault>
        requires ready { IsReady (parts D.told D.len disk.old self.old.store) }
        requires none { self.old.store.book.down ≡ false → self.old.store.book.actives ≡ [] }
        requires few { self.old.store.pool.geometry.pages ≤ 65536 }

        ensures begun { IfOk result (λ tx. Serves tx.store.number (parts D.told D.len disk.new self.new.store)
            × (standing_of tx.store.number self.new.store.book.actives ≡ 0)) }
        ensures begins { IfOk result (λ tx. Begins (parts D.told D.len disk.old self.old.store) (parts D.told D.len disk.new self.new.store) tx.store.number) }
        ensures spent { OnOk result (HasSpent 0 self.new.store) }
        ensures pages { UnlessDown result ((want : Wanted) (s : Slots) → HasPages want s (parts D.told D.len disk.old self.old.store)
            → HasPages want s (parts D.told D.len disk.new self.new.store)) }
        ensures quiet { AsksNothing disk.old disk.new self.old.store }
        ensures any_moment { LeavesWanted (parts D.told D.len disk.old self.old.store) (parts D.told D.len disk.new self.new.store) }
        ensures err { IfErr result MeansDown }
        ensures keeps { KeepsSpace D.told D.len D.faults disk.old disk.new self.old.store self.new.store result }
    {
        match self.store.begin(disk) {
            Ok(store) => Ok(Tx { store }),
            Err(fault) => Err(fault_of(fault)),
        }
    }

    /// How many changes of the transaction stand now.
    pub fn mark(&self, tx: &Tx) -> Mark
        ensures { result.store.changes ≡ standing_of tx.now.store.number self.now.store.book.actives }
    {
        Mark {
            store: self.store.mark(&tx.store),
        }
    }

    /// Takes back the changes of the transaction that were made behind the savepoint, which must not have been passed on the way back before. The log gets no record of it.
    pub fn back_to<D: Disk>(&mut self, disk: &mut D, tx: &Tx, mark: Mark) -> Result<(), SpaceFault>
        requires ready { Serves tx.now.store.number (parts D.told D.len disk.old self.old.store) }
        requires mark { self.old.store.book.down ≡ false → mark.store.changes ≤ standing_of tx.now.store.number self.old.store.book.actives }

        ensures back { OnOk result ((want : Wanted) (s : Slots)
            → WasAt tx.now.store.number want s mark.store.changes (parts D.told D.len disk.old self.old.store)
            → HasPages want s (parts D.told D.len disk.new self.new.store)) }
        ensures earlier { OnOk result ((want : Wanted) (s : Slots) (n : ℕ) → n ≤ mark.store.changes
            → WasAt tx.now.store.number want s n (parts D.told D.len disk.old self.old.store)
            → WasAt tx.now.store.number want s n (parts D.told D.len disk.new self.new.store)) }
        ensures standing { OnOk result (standing_of tx.now.store.number self.new.store.book.actives ≡ mark.store.changes) }
        ensures wanted { OnOk result (StaysWanted (parts D.told D.len disk.old self.old.store) (parts D.told D.len disk.new self.new.store)) }
        ensures serves { Serves tx.now.store.number (parts D.told D.len disk.new self.new.store) }
        ensures grows { OnOk result (Grows self.old.store self.new.store 0 0) }
        ensures any_moment { LeavesWanted (parts D.told D.len disk.old self.old.store) (parts D.told D.len disk.new self.new.store) }
        ensures err { IfErr result MeansDown }
        ensures keeps { KeepsSpace D.told D.len D.faults disk.old disk.new self.old.store self.new.store result }
    {
        match self.store.back_to(disk, &tx.store, mark.store) {
            Ok(()) => Ok(()),
            Err(fault) => Err(fault_of(fault)),
        }
    }

    /// Undoes all changes of the transaction.
    pub fn abort<D: Disk>(&mut self, disk: &mut D, tx: Tx) -> Result<(), SpaceFault>
        requires ready { Serves tx.store.number (parts D.told D.len disk.old self.old.store) }

        ensures pages { OnOk result ((want : Wanted) (s : Slots) → WasAt tx.store.number want s 0 (parts D.told D.len disk.old self.old.store)
            → HasPages want s (parts D.told D.len disk.new self.new.store)) }

        // They are the pages wanted, which a crash would have left.
        ensures alone { OnOk result ((want : Wanted) (s : Slots) → HasPages want s (parts D.told D.len disk.old self.old.store)
            → AreFormed self.old.store.pool.geometry.pages want
            → HasPages want (slots_in self.old.store.pool.geometry.pages want) (parts D.told D.len disk.new self.new.store)) }

        ensures none { OnOk result (self.new.store.book.actives ≡ []) }
        ensures wanted { OnOk result (StaysWanted (parts D.told D.len disk.old self.old.store) (parts D.told D.len disk.new self.new.store)) }
        ensures grows { OnOk result (Grows self.old.store self.new.store 0 0) }
        ensures any_moment { LeavesWanted (parts D.told D.len disk.old self.old.store) (parts D.told D.len disk.new self.new.store) }
        ensures err { IfErr result MeansDown }
        ensures keeps { KeepsSpace D.told D.len D.faults disk.old disk.new self.old.store self.new.store result }
    {
        let Tx { store } = tx;
        match self.store.abort(disk, store) {
            Ok(()) => Ok(()),
            Err(fault) => Err(fault_of(fault)),
        }
    }

    /// Commits the transaction: when it answers Ok, the pages now are there after any crash. One that made no change makes no call on the disk.
    pub fn commit<D: Disk>(&mut self, disk: &mut D, tx: Tx) -> Result<(), SpaceFault>
        requires ready { Serves tx.store.number (parts D.told D.len disk.old self.old.store) }

        ensures commits { OnOk result ((want : Wanted) (s : Slots) (has : HasPages want s (parts D.told D.len disk.old self.old.store))
            → HasPages has.now s (parts D.told D.len disk.new self.new.store)) }
        ensures any_moment { (want : Wanted) (s : Slots) (has : HasPages want s (parts D.told D.len disk.old self.old.store))
            → LeavesOnly (D.told disk.old) (D.told disk.new) (IsOldOrNew self.old.store.pool.geometry want has.now) }
        ensures none { OnOk result (self.new.store.book.actives ≡ []) }
        ensures idle { (o : ActiveTransaction) → transaction_with tx.store.number self.old.store.book.actives ≡ Some o
            → CommitAsksNothing o disk.old disk.new self.old.store self.new.store }
        ensures grows { OnOk result (Grows self.old.store self.new.store 1024 1) }
        ensures err { IfErr result MeansDown }
        ensures keeps { KeepsSpace D.told D.len D.faults disk.old disk.new self.old.store self.new.store result }
    {
        let Tx { store } = tx;
        match self.store.commit(disk, store) {
            Ok(()) => Ok(()),
            Err(fault) => Err(fault_of(fault)),
        }
    }

    /// Writes the changed pages to the disk and empties the log.
    pub fn checkpoint<D: Disk>(&mut self, disk: &mut D) -> Result<(), SpaceFault>
        requires ready { IsReady (parts D.told D.len disk.old self.old.store) }
        requires none { self.old.store.book.down ≡ false → self.old.store.book.actives ≡ [] }

        ensures pages { UnlessDown result ((want : Wanted) (s : Slots) → HasPages want s (parts D.told D.len disk.old self.old.store)
            → HasPages want s (parts D.told D.len disk.new self.new.store)) }
        ensures empties { OnOk result (used_of self.new.store.journal ≡ 0) }
        ensures none { OnOk result (self.new.store.book.actives ≡ []) }
        ensures wanted { OnOk result (StaysWanted (parts D.told D.len disk.old self.old.store) (parts D.told D.len disk.new self.new.store)) }
        ensures any_moment { LeavesWanted (parts D.told D.len disk.old self.old.store) (parts D.told D.len disk.new self.new.store) }
        ensures err { IfErr result MeansDown }
        ensures keeps { KeepsSpace D.told D.len D.faults disk.old disk.new self.old.store self.new.store result }
    {
        match self.store.checkpoint(disk) {
            Ok(()) => Ok(()),
            Err(fault) => Err(fault_of(fault)),
        }
    }
}
