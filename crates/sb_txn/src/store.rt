//! The store and its calls.

ghost use Rattle.std.specs.Prelude.{◌≡◌, ◌<◌, ◌≤◌, ◌∷◌, [], true, false, ℕ, List, Some, length, IfOk, IfErr, IsErrOf, OnOk};
ghost use Rattle.sb_disk.specs.Causes.{Rose};
ghost use Rattle.sb_disk.specs.Moments.{LeavesOnly};
ghost use Rattle.sb_log.specs.declared.geometry.Geometry.{Geometry};
ghost use Rattle.sb_images.specs.Images.{Restores};
ghost use Rattle.sb_images.specs.Store.{IfTold, IsMounted};
ghost use Rattle.sb_pool.specs.Calls.{ReadsClean};
ghost use Rattle.sb_pool.specs.State.{held, IsHeld, is_dirty};
ghost use Rattle.sb_txn.specs.Book.{ActiveTransaction, MayBegin, IsAmong, transaction_with, others, standing_of};
ghost use Rattle.sb_txn.specs.Clauses.{IsReady, HoldsPages, StaysReady, IsFaultOrDown, LeavesWanted, Loads, IsPaged, Begins, AsksNothing, GoesBack, Aborts, Commits, LeavesCommit, LeavesOne, CommitAsksNothing, Checkpoints};
ghost use Rattle.sb_txn.specs.Parts.{parts};
ghost use Rattle.sb_txn.specs.Opened.{IsOpened, OpenErr};

use crate::book::Book;
use crate::opening::{new_pool, open_journal};
use crate::{StoreFault, steps};
use sb_disk::Disk;
use sb_journal::Journal;
use sb_pool::Pool;
use sb_recover::{OpenFault, restart};
use std::alloc::Global;

/// An active transaction. It is spent by `commit` or `abort`; one that is let go stays active as long as its store is open.
#[derive(Drop)]
pub struct Tx {
    pub(crate) number: u32,
}

impl Tx {
    /// Its number: from 1 on behind a checkpoint, and each begin's is one more than the last one's.
    pub fn number(&self) -> u32
        ensures { result ≡ self.now.number }
    {
        self.number
    }
}

/// A savepoint: its place in the undo list of its transaction, which is how many changes of the transaction stood there.
#[derive(Clone, Copy, Debug, PartialEq, Eq)]
pub struct Mark {
    changes: usize,
}

/// Pages that change by transactions, on a disk that every call is given.
///
/// A change is in memory and in the log at once, and in the disk's pages at a checkpoint (Härder and Reuter 1983). After a call that answered `Fault` every later one answers `Down` and touches no device.
#[derive(Drop)]
pub struct Store {
    pub(crate) journal: Journal,
    pub(crate) pool: Pool,
    pub(crate) book: Book,
}

impl Store {
    ghost use Rattle.std.specs.Prelude.{⊤};
    ghost use Rattle.std.specs.Borrow.{sem};
    ghost use Rattle.sb_txn.specs.contracts.store.Store.{the_row};
    ghost use mathlib.Core.Option.{none};
    ghost use denote.Follow.{follows_so};

    /// Restarts the store that the disk holds, and opens it. It takes all memory that the pages want. The number of frames has no effect yet.
    ///
    /// It refuses what `restart` refuses; `BadLog` of chunk 0 at offset 0 too where the disk doesn't give back what was written to it. Where memory is wanting the disk may be restarted all the same.
    pub fn open<D: Disk>(alloc: Global, disk: &mut D, frames: u32) -> Result<Store, OpenFault>
        requires frames { (8 ≤ frames) × (frames ≤ 65536) }

        ensures opened { IfOk result (λ store. IsOpened (parts D.told D.len disk.old store) (parts D.told D.len disk.new store)) }

        // A crash anywhere in the call leaves pages that are restored as before.
        ensures any_moment { (want : ℕ → List ℕ) (g : Geometry) → IsMounted want (D.told disk.old) g
            → LeavesOnly (D.told disk.old) (D.told disk.new) (Restores g want) }

        ensures refused { IfErr result (λ e. OpenErr e (D.told disk.old) (D.told disk.new)) }
        ensures fault { IsErrOf result OpenFault.Fault → Rose (D.faults disk.old) (D.faults disk.new) }
        ensures len { D.len disk.new ≡ D.len disk.old }
        ensures later { D.faults disk.old ≤ D.faults disk.new }
    {
        let sizes = restart(alloc, disk)?;
        let journal = open_journal(alloc, disk, &sizes)?;
        let pool = new_pool(alloc, frames, sizes)?;
        let book = Book::new(alloc, sizes.pages)?;
        Ok(Store {
            journal,
            pool,
            book,
        })
    }

    /// How many pages the store has.
    pub fn pages(&self) -> u32
        ensures { result ≡ self.now.pool.geometry.pages }
    {
        self.pool.pages()
    }

    /// Whether a call on the disk has failed. Every call fails then that wants the disk.
    pub fn is_down(&self) -> bool
        ensures { result ≡ self.now.book.down }
    {
        self.book.is_down()
    }

    /// Begins a transaction, beside up to seven others. With none active, a checkpoint is taken first where more than half of the log or of its gates is used, or of the numbers of transactions. Else disk and journal stay as they were.
    pub fn begin<D: Disk>(&mut self, disk: &mut D) -> Result<Tx, StoreFault>
        requires ready { IsReady (parts D.told D.len disk.old self.old) }
        requires room { self.old.book.down ≡ false → MayBegin self.old.book }

        ensures begins { IfOk result (λ tx. Begins (parts D.told D.len disk.old self.old) (parts D.told D.len disk.new self.new) tx.number) }
        ensures quiet { AsksNothing disk.old disk.new self.old }
        ensures any_moment { LeavesWanted (parts D.told D.len disk.old self.old) (parts D.told D.len disk.new self.new) }
        ensures err { IfErr result IsFaultOrDown }
        ensures keeps { StaysReady D.told D.len D.faults disk.old disk.new self.old self.new result }
    {
        self.make_room(disk)?;
        Ok(Tx {
            number: self.book.begin(),
        })
    }

    /// Whether a transaction may begin: fewer than eight are active, and a number is left.
    pub fn may_begin(&self) -> bool
        ensures yes { result ≡ true → MayBegin self.now.book }
        ensures no { result ≡ false → MayBegin self.now.book → ⊥ }
    {
        self.book.may_begin()
    }

    /// How many changes of the transaction stand now. A store that is down may be asked too.
    pub fn mark(&self, tx: &Tx) -> Mark
        ensures { result.changes ≡ standing_of tx.now.number self.now.book.actives }
    {
        Mark {
            changes: self.book.standing_of(tx.number),
        }
    }

    /// The bytes of a page as it is now, 4,096 of them.
    pub fn page<D: Disk>(&mut self, disk: &mut D, n: u32) -> Result<&[u8], StoreFault>
        requires ready { IsReady (parts D.told D.len disk.old self.old) }
        requires page { n < self.old.pool.geometry.pages }

        ensures page { IfOk result (λ bytes. (want now : ℕ → List ℕ) → HoldsPages want now (parts D.told D.len disk.old self.old)
            → IfTold (D.told disk.old) (bytes.now ≡ now n)) }
        ensures long { IfOk result (λ bytes. length bytes.now ≡ 4096) }

        // The store is left as it was, but for a call that failed.
        ensures* after { sem 𝓛 (follows_so the_row the_row self.entry.ghost_name none (λ _ _. ⊤) (λ store.
            IsPaged D.told D.len D.faults disk.old disk.new self.old store result)) }
    {
        self.load(disk, n)?;
        Ok(self.held(n))
    }

    /// Takes back the changes of the transaction that were made behind the savepoint. The savepoint must not have been rolled past. The log gets no record of it: the next change or the commit of the transaction writes a Back first.
    pub fn back_to<D: Disk>(&mut self, disk: &mut D, tx: &Tx, mark: Mark) -> Result<(), StoreFault>
        requires ready { IsReady (parts D.told D.len disk.old self.old) }
        requires among { self.old.book.down ≡ false → IsAmong tx.now.number self.old.book.actives }
        requires mark { self.old.book.down ≡ false → mark.changes ≤ standing_of tx.now.number self.old.book.actives }

        ensures back { OnOk result ((o : ActiveTransaction) → transaction_with tx.now.number self.old.book.actives ≡ Some o
            → GoesBack (parts D.told D.len disk.old self.old) (parts D.told D.len disk.new self.new) o mark.changes) }
        ensures any_moment { LeavesWanted (parts D.told D.len disk.old self.old) (parts D.told D.len disk.new self.new) }
        ensures err { IfErr result IsFaultOrDown }
        ensures keeps { StaysReady D.told D.len D.faults disk.old disk.new self.old self.new result }
    {
        if self.book.is_down() {
            return Err(StoreFault::Down);
        }
        self.undo_behind(disk, tx.number, mark.changes)
    }

    /// Commits the transaction: when it answers Ok, the changes that stand are there after any crash. One that made no change makes no call on the disk.
    pub fn commit<D: Disk>(&mut self, disk: &mut D, tx: Tx) -> Result<(), StoreFault>
        requires ready { IsReady (parts D.told D.len disk.old self.old) }
        requires among { self.old.book.down ≡ false → IsAmong tx.number self.old.book.actives }

        ensures commits { OnOk result ((o : ActiveTransaction) → transaction_with tx.number self.old.book.actives ≡ Some o
            → Commits (parts D.told D.len disk.old self.old) (parts D.told D.len disk.new self.new) o (others tx.number self.old.book.actives)) }
        ensures any_moment { (o : ActiveTransaction) → transaction_with tx.number self.old.book.actives ≡ Some o
            → LeavesCommit (parts D.told D.len disk.old self.old) (parts D.told D.len disk.new self.new) o }
        ensures alone { (o : ActiveTransaction) → self.old.book.actives ≡ o ∷ []
            → LeavesOne (parts D.told D.len disk.old self.old) (parts D.told D.len disk.new self.new) }
        ensures idle { (o : ActiveTransaction) → transaction_with tx.number self.old.book.actives ≡ Some o
            → CommitAsksNothing o disk.old disk.new self.old self.new }
        ensures err { IfErr result IsFaultOrDown }
        ensures keeps { StaysReady D.told D.len D.faults disk.old disk.new self.old self.new result }
    {
        let Tx { number } = tx;
        if self.book.is_down() {
            return Err(StoreFault::Down);
        }
        self.commit_active(disk, number)
    }

    /// Undoes the changes of the transaction.
    pub fn abort<D: Disk>(&mut self, disk: &mut D, tx: Tx) -> Result<(), StoreFault>
        requires ready { IsReady (parts D.told D.len disk.old self.old) }
        requires among { self.old.book.down ≡ false → IsAmong tx.number self.old.book.actives }

        ensures aborts { OnOk result ((o : ActiveTransaction) → transaction_with tx.number self.old.book.actives ≡ Some o
            → Aborts (parts D.told D.len disk.old self.old) (parts D.told D.len disk.new self.new) o (others tx.number self.old.book.actives)) }
        ensures any_moment { LeavesWanted (parts D.told D.len disk.old self.old) (parts D.told D.len disk.new self.new) }
        ensures err { IfErr result IsFaultOrDown }
        ensures keeps { StaysReady D.told D.len D.faults disk.old disk.new self.old self.new result }
    {
        let Tx { number } = tx;
        if self.book.is_down() {
            return Err(StoreFault::Down);
        }
        self.abort_active(disk, number)
    }

    /// Writes the changed pages to the disk and empties the log.
    pub fn checkpoint<D: Disk>(&mut self, disk: &mut D) -> Result<(), StoreFault>
        requires ready { IsReady (parts D.told D.len disk.old self.old) }
        requires none { self.old.book.down ≡ false → self.old.book.actives ≡ [] }

        ensures checkpoints { OnOk result (Checkpoints (parts D.told D.len disk.old self.old) (parts D.told D.len disk.new self.new)) }
        ensures any_moment { LeavesWanted (parts D.told D.len disk.old self.old) (parts D.told D.len disk.new self.new) }
        ensures err { IfErr result IsFaultOrDown }
        ensures keeps { StaysReady D.told D.len D.faults disk.old disk.new self.old self.new result }
    {
        if self.book.is_down() {
            return Err(StoreFault::Down);
        }
        match steps::checkpoint(disk, &mut self.journal, &mut self.pool) {
            Ok(()) => {
                self.book.empty();
                Ok(())
            }
            Err(_) => {
                self.book.fail();
                Err(StoreFault::Fault)
            }
        }
    }

    /// Brings a page into memory, where it isn't held yet, so that `held` can lend it.
    pub fn load<D: Disk>(&mut self, disk: &mut D, n: u32) -> Result<(), StoreFault>
        requires ready { IsReady (parts D.told D.len disk.old self.old) }
        requires page { n < self.old.pool.geometry.pages }

        ensures held { OnOk result (IsHeld self.new.pool n) }
        ensures loads { OnOk result (Loads (parts D.told D.len disk.old self.old) (parts D.told D.len disk.new self.new)) }
        ensures any_moment { LeavesWanted (parts D.told D.len disk.old self.old) (parts D.told D.len disk.new self.new) }

        // With no page dirty it only reads.
        ensures reads { ReadsClean self.old.pool self.old.journal self.new.journal (D.told disk.old) (D.told disk.new) }

        ensures err { IfErr result IsFaultOrDown }
        ensures keeps { StaysReady D.told D.len D.faults disk.old disk.new self.old self.new result }
    {
        if self.book.is_down() {
            return Err(StoreFault::Down);
        }
        match self.pool.load(disk, &mut self.journal, n) {
            Ok(()) => Ok(()),
            Err(_) => {
                self.book.fail();
                Err(StoreFault::Fault)
            }
        }
    }

    /// The bytes of a page that was loaded and is in memory still, 4,096 of them.
    pub fn held(&self, n: u32) -> &[u8]
        requires { IsHeld self.now.pool n }
        ensures bytes { held self.now.pool n ≡ Some (record { bytes = result.now; dirty = is_dirty (held self.now.pool n) }) }
        ensures long { length result.now ≡ 4096 }
    {
        self.pool.page(n)
    }
}
