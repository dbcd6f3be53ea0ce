//! Points in a transaction, and the way back to them.

ghost use Rattle.std.specs.Prelude.{◌≡◌, ◌≤◌, false, length, ℕ, Option, IfErr, OnOk};
ghost use Rattle.sb_disk.specs.Disk.{Story};
ghost use Rattle.sb_relation.specs.Db.{Db};
ghost use Rattle.sb_fold.specs.Outcome.{Going};
ghost use Rattle.sb_deferred.specs.Waiting.{IsWithin};
ghost use Rattle.sb_registry.specs.Boxes.{Meanings};
ghost use Rattle.sb_drive.specs.Spaces.{Wanted};
ghost use Rattle.sb_map.specs.declared.place.Place.{Place};
ghost use Rattle.sb_txn.specs.Clauses.{Grows};
ghost use Rattle.sb_txn.specs.Parts.{parts};
ghost use Rattle.sb_space.specs.Spent.{HasSpent};
ghost use Rattle.sb_space.specs.Works.{Serves};
ghost use Rattle.sb_tables.specs.Refusals.{HasRefusalCause};
ghost use Rattle.sb_transactions.specs.declared.transactions.Point.{Point};
ghost use Rattle.sb_transactions.specs.Calls.{IsOnlyFault, KeepsWanted, Remains};
ghost use Rattle.sb_transactions.specs.Commits.{FailsOn};
ghost use Rattle.sb_transactions.specs.Transactions.{IsAt, IsCutTo, IsNotBehind, IsPointOf, IsUsable, WasBegun, WasSo, unused};

use crate::transactions::{Point, Transaction};
use sb_disk::Disk;
use sb_fold::Refusal;
use sb_space::Space;
use sb_tables::{Work, refusal_of};

/// Where work in the transaction stands now.
pub fn mark(space: &Space, transaction: &Transaction) -> Point
    requires within { transaction.now.work.done ≤ length transaction.now.work.queue.actions }
    ensures of { (told : Option Story) (size : ℕ) → IsPointOf transaction.now.tx.store.number result
        (record { told = told; size = size; store = space.now.store }) transaction.now.work }
    ensures was { (m : Meanings) (place : Place) (want : Wanted) (g : Going) (told : Option Story) (size : ℕ)
        → IsAt m place want transaction.now.tx.store.number g (record { told = told; size = size; store = space.now.store }) transaction.now.work
        → WasSo m place want transaction.now.tx.store.number g result (record { told = told; size = size; store = space.now.store }) transaction.now.work }
    ensures latest { space.now.store.book.down ≡ false → (one : Point) (told : Option Story) (size : ℕ)
        → IsPointOf transaction.now.tx.store.number one (record { told = told; size = size; store = space.now.store }) transaction.now.work
        → IsNotBehind one result }
{
    Point {
        space: space.mark(&transaction.tx),
        queue: transaction.work.queue.mark(),
        done: transaction.work.done,
        gone: transaction.work.gone.len(),
    }
}

/// Goes back to a point, which must not have been passed on the way back before: the work is again what it was there, but for picks, which are none. It takes no memory.
pub fn back_to<D: Disk>(
    space: &mut Space,
    disk: &mut D,
    transaction: &mut Transaction,
    point: Point,
) -> Result<(), Refusal>
    requires serves { Serves transaction.old.tx.store.number (parts D.told D.len disk.old space.old.store) }
    requires point { IsPointOf transaction.old.tx.store.number point (parts D.told D.len disk.old space.old.store) transaction.old.work }

    ensures back { OnOk result ((m : Meanings) (place : Place) (want : Wanted) (g : Going) → place.owner ≡ 2
        → WasSo m place want transaction.old.tx.store.number g point (parts D.told D.len disk.old space.old.store) transaction.old.work
        → IsAt m place want transaction.old.tx.store.number (unused g) (parts D.told D.len disk.new space.new.store) transaction.new.work) }
    ensures earlier { OnOk result ((m : Meanings) (place : Place) (want : Wanted) (g : Going) (one : Point) → IsNotBehind one point
        → WasSo m place want transaction.old.tx.store.number g one (parts D.told D.len disk.old space.old.store) transaction.old.work
        → WasSo m place want transaction.old.tx.store.number g one (parts D.told D.len disk.new space.new.store) transaction.new.work) }
    ensures stand { OnOk result ((one : Point) → IsNotBehind one point
        → IsPointOf transaction.old.tx.store.number one (parts D.told D.len disk.old space.old.store) transaction.old.work
        → IsPointOf transaction.old.tx.store.number one (parts D.told D.len disk.new space.new.store) transaction.new.work) }
    ensures begun { OnOk result ((m : Meanings) (root : ℕ) (want : Wanted) (db : Db)
        → WasBegun m root want db transaction.old.tx.store.number (parts D.told D.len disk.old space.old.store)
        → WasBegun m root want db transaction.old.tx.store.number (parts D.told D.len disk.new space.new.store)) }
    ensures usable { OnOk result ((m : Meanings) (place : Place) → place.owner ≡ 2
        → IsUsable m place transaction.old.tx.store.number (parts D.told D.len disk.new space.new.store) transaction.new.work) }

    ensures within { OnOk result (transaction.new.work.done ≤ length transaction.new.work.queue.actions) }
    ensures cut { OnOk result (IsCutTo point transaction.old.work transaction.new.work) }
    ensures same { IfErr result (λ r. transaction.new.work ≡ transaction.old.work) }
    ensures tx { transaction.new.tx ≡ transaction.old.tx }
    ensures serves { Serves transaction.old.tx.store.number (parts D.told D.len disk.new space.new.store) }
    ensures grows { OnOk result (Grows space.old.store space.new.store 0 0) }
    ensures spent { OnOk result ((n : ℕ) → HasSpent n space.old.store → HasSpent n space.new.store) }
    ensures any_moment { KeepsWanted (parts D.told D.len disk.old space.old.store) (parts D.told D.len disk.new space.new.store) }
    ensures err { IfErr result (λ r. IsOnlyFault r space.new.store) }
    ensures cause { IfErr result (λ r. HasRefusalCause (FailsOn D.faults) r (record { disk = disk.new; store = space.new.store })) }
    ensures remains { Remains D.told D.len D.faults disk.old disk.new space.old.store space.new.store result }
{
    match space.back_to(disk, &transaction.tx, point.space) {
        Ok(()) => {
            cut_work(&mut transaction.work, point);
            Ok(())
        }
        Err(fault) => Err(refusal_of(fault)),
    }
}

/// What is kept beside the pages, back at a point.
fn cut_work(work: &mut Work, point: Point)
    requires { IsWithin point.queue work.old.queue }
    ensures { IsCutTo point work.old work.new }
{
    work.queue.cut_back(point.queue);
    work.done = point.done;
    work.gone.truncate(point.gone);
    work.opened.clear();
    work.picks.clear();
}
