//! What is done before the pages of a transaction are committed.

ghost use Rattle.std.specs.Prelude.{◌≡◌, ◌↔◌, [], true, false, ℕ, IfErr, IsTrue, OnOk};
ghost use Rattle.sb_relation.specs.Db.{Db};
ghost use Rattle.sb_fold.specs.Outcome.{Going};
ghost use Rattle.sb_cascade.specs.Runs.{MadeFrom, OnFault, StopsFrom, is_room};
ghost use Rattle.sb_registry.specs.Boxes.{Meanings};
ghost use Rattle.sb_drive.specs.Spaces.{LeadsOn, Wanted};
ghost use Rattle.sb_txn.specs.Parts.{parts};
ghost use Rattle.sb_tables.specs.Refusals.{HasFaultCause};
ghost use Rattle.sb_tables.specs.Working.{IsNoneGone, extensions_of};
ghost use Rattle.sb_tables.specs.Working as engine;
ghost use Rattle.sb_map.specs.declared.place.Place.{Place};
ghost use Rattle.sb_transactions.specs.declared.transactions.Point.{Point};
ghost use Rattle.sb_transactions.specs.Commits.{ComesTo, Finishes, IsLed, IsStoppedOn, finish_and_free};
ghost use Rattle.sb_transactions.specs.Driven.{WorksOn};
ghost use Rattle.sb_transactions.specs.Transactions.{HasNothingLeft, IsAt, IsPaidAt, IsPointOf, IsUsable, WasBegun, WasSo};

use crate::transactions::Transaction;
use sb_cascade::finish;
use sb_disk::Disk;
use sb_fold::Refusal;
use sb_map::Place;
use sb_registry::Boxes;
use sb_space::{Durable, Owners, Space};
use sb_tables::{Running, Work, free_gone};
use std::alloc::Global;

/// Whether nothing waits and no owner is to go.
pub(crate) fn is_idle(work: &Work) -> bool
    ensures { IsTrue result ↔ HasNothingLeft work.now }
{
    if !work.gone.is_empty() {
        return false;
    }
    if work.queue.action(work.done).is_some() {
        return false;
    }
    work.queue.check(0).is_none()
}

/// Does what waits to its end, and gives back the pages of all owners that are to go.
pub(crate) fn finish_work<B: Boxes, D: Disk>(
    boxes: &B,
    space: &mut Space,
    disk: &mut D,
    place: Place,
    transaction: &mut Transaction,
    alloc: Global,
) -> Result<(), Refusal>
    requires usable { IsUsable (B.meanings boxes.now) place transaction.old.tx.store.number (parts D.told D.len disk.old space.old.store) transaction.old.work }

    ensures finished { OnOk result ((want : Wanted) (g : Going)
        → IsAt (B.meanings boxes.now) place want transaction.old.tx.store.number g (parts D.told D.len disk.old space.old.store) transaction.old.work
        → IsPaidAt g (parts D.told D.len disk.old space.old.store)
        → Finishes (B.meanings boxes.now) g (ComesTo (B.meanings boxes.now) place want transaction.old.tx.store.number transaction.new.work)
        (parts D.told D.len disk.new space.new.store)) }
    ensures none { OnOk result (transaction.new.work.gone.items ≡ []) }
    ensures refused { IfErr result (λ r. (want : Wanted) (g : Going)
        → IsAt (B.meanings boxes.now) place want transaction.old.tx.store.number g (parts D.told D.len disk.old space.old.store) transaction.old.work
        → IsPaidAt g (parts D.told D.len disk.old space.old.store)
        → StopsFrom (IsStoppedOn D.faults (B.meanings boxes.now)) (finish_and_free (extensions_of (B.meanings boxes.now))) g r
        (record { disk = disk.new; store = space.new.store })) }
    ensures fault { IfErr result (λ r. OnFault r (space.new.store.book.down ≡ true)) }
    ensures room { IfErr result (λ r. (want : Wanted) (g : Going)
        → IsAt (B.meanings boxes.now) place want transaction.old.tx.store.number g (parts D.told D.len disk.old space.old.store) transaction.old.work
        → IsPaidAt g (parts D.told D.len disk.old space.old.store)
        → g.queue.actions ≡ [] → IsNoneGone g.gone → is_room r ≡ false) }
    ensures begun { space.new.store.book.down ≡ false → (m : Meanings) (root : ℕ) (want : Wanted) (db : Db)
        → WasBegun m root want db transaction.old.tx.store.number (parts D.told D.len disk.old space.old.store)
        → WasBegun m root want db transaction.old.tx.store.number (parts D.told D.len disk.new space.new.store) }
    ensures points { IfErr result (λ r. (one : Point)
        → IsPointOf transaction.old.tx.store.number one (parts D.told D.len disk.old space.old.store) transaction.old.work
        → IsPointOf transaction.old.tx.store.number one (parts D.told D.len disk.new space.new.store) transaction.new.work) }
    ensures was { IfErr result (λ r. space.new.store.book.down ≡ false → (m : Meanings) (place : Place) (want : Wanted) (g : Going) (one : Point)
        → WasSo m place want transaction.old.tx.store.number g one (parts D.told D.len disk.old space.old.store) transaction.old.work
        → WasSo m place want transaction.old.tx.store.number g one (parts D.told D.len disk.new space.new.store) transaction.new.work) }
    ensures led { IsLed D.told D.len D.faults transaction.old.tx.store.number (record { disk = disk.old; store = space.old.store })
        (record { disk = disk.new; store = space.new.store }) }
    ensures usable { IsUsable (B.meanings boxes.now) place transaction.old.tx.store.number (parts D.told D.len disk.new space.new.store) transaction.new.work }
    ensures tx { transaction.new.tx ≡ transaction.old.tx }
{
    let mut pages = Durable::new(&mut space.store, disk, &transaction.tx.store);
    finish_over(boxes, &mut pages, &mut transaction.work, place, alloc)
}

/// The same over any space of pages.
fn finish_over<B: Boxes, S: Owners>(
    boxes: &B,
    space: &mut S,
    work: &mut Work,
    place: Place,
    alloc: Global,
) -> Result<(), Refusal>
    requires ready { engine.Serves S.is_ready (B.meanings boxes.now) place space.old work.old }

    ensures made { OnOk result ((g : Going) → engine.Stands S.has S.spent (B.meanings boxes.now) place.root g space.old work.old
        → MadeFrom (λ h x. engine.Stands S.has S.spent (B.meanings boxes.now) place.root h x work.new) (finish_and_free (extensions_of (B.meanings boxes.now))) g tt space.new) }
    ensures none { OnOk result (work.new.gone.items ≡ []) }
    ensures refused { IfErr result (λ r. (g : Going) → engine.Stands S.has S.spent (B.meanings boxes.now) place.root g space.old work.old
        → StopsFrom (engine.IsStoppedIn S.has S.spent S.leads S.fails S.table (B.meanings boxes.now)) (finish_and_free (extensions_of (B.meanings boxes.now))) g r space.new) }
    ensures fault { IfErr result (λ r. HasFaultCause S.fails r space.new) }
    ensures room { IfErr result (λ r. (g : Going) → engine.Stands S.has S.spent (B.meanings boxes.now) place.root g space.old work.old
        → g.queue.actions ≡ [] → IsNoneGone g.gone → is_room r ≡ false) }
    ensures works { IfErr result (λ r. WorksOn S.leads space.old space.new work.old work.new) }
    ensures leads { LeadsOn S.leads space.old space.new }
    ensures ready { engine.Serves S.is_ready (B.meanings boxes.now) place space.new work.new }
{
    let mut running = Running::new(boxes, space, work, place);
    finish(&mut running, alloc)?;
    free_gone(&mut running, alloc)?;
    Ok(())
}
