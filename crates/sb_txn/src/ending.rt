//! How a transaction ends.

ghost use Rattle.std.specs.Prelude.{◌≡◌, ◌⊎◌, ◌+◌, ◌<◌, ◌≤◌, ◌∷◌, ◌++◌, [], true, false, cond, ℕ, List, Some, length, OnOk, IfErr, IsErrOf};
ghost use Rattle.sb_disk.specs.Causes.{Rose};
ghost use Rattle.sb_disk.specs.Moments.{LeavesOnly};
ghost use Rattle.sb_images.specs.Images.{IsOldOrNew};
ghost use Rattle.sb_images.specs.Store.{IsStoreOn, own_of, with_changes};
ghost use Rattle.sb_journal.specs.State.{Lies, StandsOn, after_append, after_force};
ghost use Rattle.sb_log.specs.declared.geometry.Geometry.{Geometry};
ghost use Rattle.sb_log.specs.Records.{Record, Back, Commit};
ghost use Rattle.sb_log.specs.Standing.{standing, count_of};
ghost use Rattle.sb_log.specs.Views.{Active, active_with};
ghost use Rattle.sb_txn.specs.Book.{ActiveTransaction, transaction_with, IsAmong, others};
ghost use Rattle.sb_txn.specs.Clauses.{IsReady, IsFaultOrDown, StaysReady, LeavesWanted, Commits, LeavesCommit, CommitAsksNothing, Aborts};
ghost use Rattle.sb_txn.specs.Parts.{parts};
ghost use Rattle.sb_txn.specs.Steps.{KeepsDisk, Stays, some, filled};

use crate::changing::append_if;
use crate::store::Store;
use crate::{StoreFault, steps};
use sb_disk::Disk;
use sb_journal::Journal;
use sb_log::Rec;

/// Makes a chunk of what is pending and a Commit of the transaction, behind a Back where changes of it were undone.
fn finish<D: Disk>(
    disk: &mut D,
    journal: &mut Journal,
    tx: u32,
    undone: bool,
    n: u32,
) -> Result<(), StoreFault>
    requires lies { Lies (D.len disk.old) journal.old.gates journal.old.log }
    requires stands { StandsOn (D.told disk.old) journal.old }
    requires clean { journal.old.clean ≡ true }

    ensures done { OnOk result (journal.new ≡ after_force (after_append (cond undone 9 0 + 5) journal.old)) }
    ensures pages { OnOk result (KeepsDisk journal.old (D.told disk.old) (D.told disk.new)) }
    ensures err { filled journal.old + 14 ≤ journal.old.log.len → length journal.old.lens < journal.old.gates.len
        → IfErr result (λ e. e ≡ StoreFault.Fault) }
    ensures cause { IsErrOf result StoreFault.Fault → (journal.old.failed ≡ true) ⊎ Rose (D.faults disk.old) (D.faults disk.new) }
    ensures stays { Stays D.told D.len D.faults disk.old disk.new journal.old journal.new }

    // After it the pages wanted have the changes of the transaction that stand, and the others are active still.
    ensures store { OnOk result ((want now : ℕ → List ℕ) (g : Geometry) (opened pending : List Record) (rest : List Active)
        → IsStoreOn want now (D.told disk.old) journal.old g opened pending (active_with tx n ∷ rest)
        → (undone ≡ false → count_of tx (standing (opened ++ pending)) ≤ n)
        → IsStoreOn (with_changes (own_of (opened ++ pending) (active_with tx n)) want) now (D.told disk.new) journal.new g
        (opened ++ ((pending ++ some undone (Back tx n)) ++ Commit tx ∷ [])) [] rest) }

    // A crash anywhere in the call leaves the old pages wanted or the new ones.
    ensures any_moment { (want now : ℕ → List ℕ) (g : Geometry) (opened pending : List Record) (rest : List Active)
        → IsStoreOn want now (D.told disk.old) journal.old g opened pending (active_with tx n ∷ rest)
        → (undone ≡ false → count_of tx (standing (opened ++ pending)) ≤ n)
        → LeavesOnly (D.told disk.old) (D.told disk.new)
        (IsOldOrNew g want (with_changes (own_of (opened ++ pending) (active_with tx n)) want)) }
{
    append_if(disk, journal, undone, &Rec::Back { tx, n })?;
    steps::commit(disk, journal, tx)?;
    Ok(())
}

impl Store {
    /// Commits an active transaction. One that has no record in the log ends without a call on the disk.
    pub(crate) fn commit_active<D: Disk>(&mut self, disk: &mut D, tx: u32) -> Result<(), StoreFault>
        requires ready { IsReady (parts D.told D.len disk.old self.old) }
        requires up { self.old.book.down ≡ false }
        requires among { IsAmong tx self.old.book.actives }

        ensures commits { OnOk result ((o : ActiveTransaction) → transaction_with tx self.old.book.actives ≡ Some o
            → Commits (parts D.told D.len disk.old self.old) (parts D.told D.len disk.new self.new) o (others tx self.old.book.actives)) }
        ensures any_moment { (o : ActiveTransaction) → transaction_with tx self.old.book.actives ≡ Some o
            → LeavesCommit (parts D.told D.len disk.old self.old) (parts D.told D.len disk.new self.new) o }
        ensures idle { (o : ActiveTransaction) → transaction_with tx self.old.book.actives ≡ Some o
            → CommitAsksNothing o disk.old disk.new self.old self.new }
        ensures err { IfErr result IsFaultOrDown }
        ensures keeps { StaysReady D.told D.len D.faults disk.old disk.new self.old self.new result }
    {
        if !self.book.is_begun(tx) {
            self.book.end(tx);
            return Ok(());
        }
        match finish(
            disk,
            &mut self.journal,
            tx,
            self.book.is_undone(tx),
            self.book.standing_of(tx) as u32,
        ) {
            Ok(()) => {
                self.book.end(tx);
                Ok(())
            }
            Err(_) => {
                self.book.fail();
                Err(StoreFault::Fault)
            }
        }
    }

    /// Undoes the changes of an active transaction, and ends it.
    pub(crate) fn abort_active<D: Disk>(&mut self, disk: &mut D, tx: u32) -> Result<(), StoreFault>
        requires ready { IsReady (parts D.told D.len disk.old self.old) }
        requires up { self.old.book.down ≡ false }
        requires among { IsAmong tx self.old.book.actives }

        ensures aborts { OnOk result ((o : ActiveTransaction) → transaction_with tx self.old.book.actives ≡ Some o
            → Aborts (parts D.told D.len disk.old self.old) (parts D.told D.len disk.new self.new) o (others tx self.old.book.actives)) }
        ensures any_moment { LeavesWanted (parts D.told D.len disk.old self.old) (parts D.told D.len disk.new self.new) }
        ensures err { IfErr result IsFaultOrDown }
        ensures keeps { StaysReady D.told D.len D.faults disk.old disk.new self.old self.new result }
    {
        self.undo_behind(disk, tx, 0)?;
        self.book.end(tx);
        Ok(())
    }
}
