//! Commits.

ghost use Rattle.std.specs.Prelude.{◌≡◌, [], All, true, false, is_some, ℕ, Some, IfErr, IfOk, IfSome, OnOk};
ghost use Rattle.sb_relation.specs.Db.{Db};
ghost use Rattle.sb_fold.specs.Outcome.{Going};
ghost use Rattle.sb_cascade.specs.Runs.{OnFault, is_room};
ghost use Rattle.sb_registry.specs.Boxes.{Meanings};
ghost use Rattle.sb_drive.specs.Spaces.{Wanted};
ghost use Rattle.sb_map.specs.declared.place.Place.{Place};
ghost use Rattle.sb_txn.specs.Book.{ActiveTransaction, transaction_with};
ghost use Rattle.sb_txn.specs.Clauses.{CommitAsksNothing};
ghost use Rattle.sb_txn.specs.Parts.{parts};
ghost use Rattle.sb_space.specs.Works.{Serves};
ghost use Rattle.sb_tables.specs.Opened.{IsOpen};
ghost use Rattle.sb_tables.specs.Refusals.{HasRefusalCause};
ghost use Rattle.sb_tables.specs.Working.{IsNoneGone};
ghost use Rattle.sb_transactions.specs.Calls.{IsOnlyFault, KeepsWanted, Remains};
ghost use Rattle.sb_transactions.specs.Commits.{by_refusal, FailsOn, Finishes, IsDone, IsEnded, LeavesEither, LeavesOldOrFinished, StaysOpen, StopsAt, is_wanting};
ghost use Rattle.sb_transactions.specs.Transactions.{HasNothingLeft, IsAt, IsFinished, IsPaidAt, IsUsable, Rests, WasBegun};

use crate::finishing::{finish_work, is_idle};
use crate::points::mark;
use crate::refusals::{Committed, Uncommitted, ended, stop};
use crate::transactions::Transaction;
use sb_disk::Disk;
use sb_fold::Refusal;
use sb_map::Place;
use sb_registry::Boxes;
use sb_space::Space;
use sb_tables::refusal_of;
use std::alloc::Global;

/// Commits the transaction: does what waits for it, gives back the pages of owners that are to go, and commits the pages. It gives the record keys that the work picked, and the relations that it has opened.
///
/// Where room or memory is wanting for that, the transaction goes on as it was. Any other refusal aborts it; or `Fault` is answered, where the disk fails then.
pub fn commit<B: Boxes, D: Disk>(
    boxes: &B,
    space: &mut Space,
    disk: &mut D,
    place: Place,
    mut transaction: Transaction,
    alloc: Global,
) -> Result<Committed, Uncommitted>
    requires usable { IsUsable (B.meanings boxes.now) place transaction.tx.store.number (parts D.told D.len disk.old space.old.store) transaction.work }

    ensures done { IfOk result (λ x. (want : Wanted) (g : Going)
        → IsAt (B.meanings boxes.now) place want transaction.tx.store.number g (parts D.told D.len disk.old space.old.store) transaction.work
        → IsPaidAt g (parts D.told D.len disk.old space.old.store)
        → Finishes (B.meanings boxes.now) g (IsDone (B.meanings boxes.now) place.root want x.picks.items x.opened.items (parts D.told D.len disk.old space.old.store))
        (parts D.told D.len disk.new space.new.store)) }
    ensures opened { IfOk result (λ x. All (IsOpen (B.meanings boxes.now)) x.opened.items) }
    ensures refused { IfErr result (λ e. (want : Wanted) (g : Going)
        → IsAt (B.meanings boxes.now) place want transaction.tx.store.number g (parts D.told D.len disk.old space.old.store) transaction.work
        → IsPaidAt g (parts D.told D.len disk.old space.old.store)
        → StopsAt D.told D.len D.faults (B.meanings boxes.now) transaction.tx.store.number g e.refusal
        (record { disk = disk.old; store = space.old.store }) (record { disk = disk.new; store = space.new.store })) }
    ensures fault { IfErr result (λ e. OnFault e.refusal (space.new.store.book.down ≡ true)) }

    // The transaction goes on exactly where room or memory is wanting.
    ensures wanting { IfErr result (λ e. is_some e.transaction ≡ is_wanting e.refusal) }
    ensures tx { IfErr result (λ e. IfSome e.transaction (λ t. t.tx ≡ transaction.tx)) }
    ensures stays { IfErr result (λ e. IfSome e.transaction (λ t. StaysOpen transaction.tx.store.number
        (parts D.told D.len disk.old space.old.store) (parts D.told D.len disk.new space.new.store) transaction.work t.work)) }
    ensures aborted { IfErr result (λ e. e.transaction ≡ None → space.new.store.book.down ≡ false → (m : Meanings) (root : ℕ) (want : Wanted) (db : Db)
        → WasBegun m root want db transaction.tx.store.number (parts D.told D.len disk.old space.old.store)
        → Rests m root want db (parts D.told D.len disk.new space.new.store)) }
    ensures none { IsEnded result → space.new.store.book.down ≡ false → space.new.store.book.actives ≡ [] }

    ensures any_moment { (want : Wanted) (g : Going)
        → IsAt (B.meanings boxes.now) place want transaction.tx.store.number g (parts D.told D.len disk.old space.old.store) transaction.work
        → IsPaidAt g (parts D.told D.len disk.old space.old.store)
        → LeavesOldOrFinished (B.meanings boxes.now) place.root want g (parts D.told D.len disk.old space.old.store) (parts D.told D.len disk.new space.new.store) }
    ensures kept { IfErr result (λ e. (e.refusal ≡ Refusal.Fault → ⊥)
        → KeepsWanted (parts D.told D.len disk.old space.old.store) (parts D.told D.len disk.new space.new.store)) }

    // Where no action waits and nothing is gone no room is wanting.
    ensures room { IfErr result (λ e. (want : Wanted) (g : Going)
        → IsAt (B.meanings boxes.now) place want transaction.tx.store.number g (parts D.told D.len disk.old space.old.store) transaction.work
        → IsPaidAt g (parts D.told D.len disk.old space.old.store)
        → g.queue.actions ≡ [] → IsNoneGone g.gone → is_room e.refusal ≡ false) }

    // Where nothing waits and no owner is to go it takes no memory, and makes no call on the disk where no page was changed.
    ensures quiet { HasNothingLeft transaction.work → IfErr result (λ e. IsOnlyFault e.refusal space.new.store) }
    ensures idle { HasNothingLeft transaction.work → (o : ActiveTransaction)
        → transaction_with transaction.tx.store.number space.old.store.book.actives ≡ Some o
        → CommitAsksNothing o disk.old disk.new space.old.store space.new.store }

    ensures remains { Remains D.told D.len D.faults disk.old disk.new space.old.store space.new.store (by_refusal result) }
{
    if is_idle(&transaction.work) {
        return ended(commit_pages(space, disk, transaction));
    }
    let point = mark(space, &transaction);
    match finish_work(boxes, space, disk, place, &mut transaction, alloc) {
        Ok(()) => ended(commit_pages(space, disk, transaction)),
        Err(refusal) => Err(stop(space, disk, transaction, point, refusal)),
    }
}

/// Commits a transaction of which nothing is left to be done, and gives the record keys that its work picked, and the relations that it has opened. One that made no change makes no call on the disk. It takes no memory.
pub fn commit_pages<D: Disk>(
    space: &mut Space,
    disk: &mut D,
    transaction: Transaction,
) -> Result<Committed, Refusal>
    requires serves { Serves transaction.tx.store.number (parts D.told D.len disk.old space.old.store) }

    ensures done { IfOk result (λ x. (m : Meanings) (place : Place) (want : Wanted) (g : Going)
        → IsAt m place want transaction.tx.store.number g (parts D.told D.len disk.old space.old.store) transaction.work
        → IsFinished m g transaction.work
        → IsDone m place.root want x.picks.items x.opened.items (parts D.told D.len disk.old space.old.store) g (parts D.told D.len disk.new space.new.store)) }
    ensures opened { IfOk result (λ x. x.opened.items ≡ transaction.work.opened.items) }
    ensures any_moment { (m : Meanings) (place : Place) (want : Wanted) (g : Going)
        → IsAt m place want transaction.tx.store.number g (parts D.told D.len disk.old space.old.store) transaction.work
        → IsFinished m g transaction.work
        → LeavesEither m place.root want (parts D.told D.len disk.old space.old.store) g (parts D.told D.len disk.new space.new.store) }
    ensures up { OnOk result (space.old.store.book.down ≡ false) }
    ensures none { OnOk result (space.new.store.book.actives ≡ []) }
    ensures idle { (o : ActiveTransaction) → transaction_with transaction.tx.store.number space.old.store.book.actives ≡ Some o
        → CommitAsksNothing o disk.old disk.new space.old.store space.new.store }
    ensures err { IfErr result (λ r. IsOnlyFault r space.new.store) }
    ensures cause { IfErr result (λ r. HasRefusalCause (FailsOn D.faults) r (record { disk = disk.new; store = space.new.store })) }
    ensures remains { Remains D.told D.len D.faults disk.old disk.new space.old.store space.new.store result }
{
    let Transaction { tx, work } = transaction;
    match space.commit(disk, tx) {
        Ok(()) => Ok(Committed {
            picks: work.picks,
            opened: work.opened,
        }),
        Err(fault) => Err(refusal_of(fault)),
    }
}
