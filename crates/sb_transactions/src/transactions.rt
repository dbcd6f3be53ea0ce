//! The transactions of an engine.

ghost use Rattle.std.specs.Prelude.{◌≡◌, ◌≤◌, [], All, false, length, ℕ, IfErr, IfOk, OnOk};
ghost use Rattle.sb_relation.specs.Db.{Db};
ghost use Rattle.sb_fold.specs.Outcome.{Going};
ghost use Rattle.sb_deferred.specs.Waiting.{nothing};
ghost use Rattle.sb_registry.specs.Boxes.{Meanings};
ghost use Rattle.sb_drive.specs.Spaces.{Wanted};
ghost use Rattle.sb_map.specs.declared.place.Place.{Place};
ghost use Rattle.sb_txn.specs.Clauses.{AsksNothing, Grows, IsReady, Leads};
ghost use Rattle.sb_txn.specs.Parts.{parts, Parts};
ghost use Rattle.sb_space.specs.Spent.{HasSpent};
ghost use Rattle.sb_space.specs.Works.{Serves};
ghost use Rattle.sb_tables.specs.Opened.{IsOpen};
ghost use Rattle.sb_tables.specs.Refusals.{HasRefusalCause};
ghost use Rattle.sb_transactions.specs.Calls.{IsOnlyFault, KeepsWanted, Remains};
ghost use Rattle.sb_transactions.specs.Commits.{FailsOn};
ghost use Rattle.sb_transactions.specs.Transactions.{IsAt, IsFirst, IsTrimmed, IsUsable, MayStayOpen, Rests, WasBegun, last_open, unused};

use sb_deferred::{Queue, QueueMark};
use sb_disk::Disk;
use sb_fold::Refusal;
use sb_space::{Mark, Space, Tx};
use sb_tables::{OpenRelation, Work, refusal_of};
use std::alloc::Global;

/// A transaction of the engine: that of the store, and what the engine keeps beside its pages. It is spent by `commit` or `abort`.
#[derive(Drop)]
pub struct Transaction {
    pub tx: Tx,
    pub work: Work,
}

/// Where work in a transaction stood: the changes of its pages, what waited and how much of it was taken out, and the owners that were to go.
#[derive(Clone, Copy)]
pub struct Point {
    pub(crate) space: Mark,
    pub(crate) queue: QueueMark,
    pub(crate) done: u64,
    pub(crate) gone: usize,
}

/// Begins a transaction, in which the last 64 of these relations are open. A checkpoint is taken first where more than half of the log or of its gates is used; else disk and journal stay as they were. It takes no memory.
pub fn begin<D: Disk>(
    space: &mut Space,
    disk: &mut D,
    opened: Vec<OpenRelation>,
    alloc: Global,
) -> Result<Transaction, Refusal>
    requires ready { IsReady (parts D.told D.len disk.old space.old.store) }
    requires none { space.old.store.book.down ≡ false → space.old.store.book.actives ≡ [] }
    requires few { space.old.store.pool.geometry.pages ≤ 65536 }

    ensures serves { IfOk result (λ t. Serves t.tx.store.number (parts D.told D.len disk.new space.new.store)) }
    ensures within { IfOk result (λ t. t.work.done ≤ length t.work.queue.actions) }
    ensures opened { IfOk result (λ t. t.work.opened.items ≡ last_open opened.items) }
    ensures usable { IfOk result (λ t. (m : Meanings) (place : Place) → place.owner ≡ 2 → All (IsOpen m) opened.items
        → IsUsable m place t.tx.store.number (parts D.told D.len disk.new space.new.store) t.work) }
    ensures begun { IfOk result (λ t. (m : Meanings) (root : ℕ) (want : Wanted) (db : Db)
        → Rests m root want db (parts D.told D.len disk.old space.old.store)
        → WasBegun m root want db t.tx.store.number (parts D.told D.len disk.new space.new.store)) }
    ensures at { IfOk result (λ t. (m : Meanings) (place : Place) (want : Wanted) (g : Going) → place.owner ≡ 2 → IsFirst g
        → Rests m place.root want g.db (parts D.told D.len disk.old space.old.store)
        → MayStayOpen m place.root space.old.store.pool.geometry.pages want opened.items
        → IsAt m place want t.tx.store.number g (parts D.told D.len disk.new space.new.store) t.work) }
    ensures spent { OnOk result (HasSpent 0 space.new.store) }
    ensures pages { IfOk result (λ t. Leads (parts D.told D.len disk.old space.old.store) (parts D.told D.len disk.new space.new.store) (λ now. now)) }
    ensures quiet { AsksNothing disk.old disk.new space.old.store }
    ensures any_moment { KeepsWanted (parts D.told D.len disk.old space.old.store) (parts D.told D.len disk.new space.new.store) }
    ensures err { IfErr result (λ r. IsOnlyFault r space.new.store) }
    ensures remains { Remains D.told D.len D.faults disk.old disk.new space.old.store space.new.store result }
{
    match space.begin(disk) {
        Ok(tx) => Ok(Transaction {
            tx,
            work: new_work(opened, alloc),
        }),
        Err(fault) => Err(refusal_of(fault)),
    }
}

/// What is kept of a transaction at its begin.
fn new_work(mut opened: Vec<OpenRelation>, alloc: Global) -> Work
    ensures queue { result.queue ≡ nothing }
    ensures done { result.done ≡ 0 }
    ensures gone { result.gone.items ≡ [] }
    ensures opened { result.opened.items ≡ last_open opened.items }
    ensures picks { result.picks.items ≡ [] }
{
    close_first(&mut opened);
    Work {
        opened,
        queue: Queue::new(alloc),
        done: 0,
        gone: Vec::new(alloc),
        picks: Vec::new(alloc),
    }
}

/// How many relations stay open from one command to the next.
const MOST_OPEN: usize = 64;

/// Closes all relations but the last 64 that were opened.
fn close_first(opened: &mut Vec<OpenRelation>)
    ensures { opened.new.items ≡ last_open opened.old.items }
{
    let more = opened.len().saturating_sub(MOST_OPEN);
    opened.drain(..more);
}

/// Before a command: at most 64 relations stay open, those that were opened last, so that their descriptors aren't read again; and no pick is noted.
pub fn settle(transaction: &mut Transaction)
    ensures trimmed { IsTrimmed transaction.old.work transaction.new.work }
    ensures tx { transaction.new.tx ≡ transaction.old.tx }
    ensures settled { (m : Meanings) (place : Place) (want : Wanted) (g : Going) (p : Parts)
        → IsAt m place want transaction.old.tx.store.number g p transaction.old.work
        → IsAt m place want transaction.old.tx.store.number (unused g) p transaction.new.work }
    ensures usable { (m : Meanings) (place : Place) (p : Parts)
        → IsUsable m place transaction.old.tx.store.number p transaction.old.work
        → IsUsable m place transaction.old.tx.store.number p transaction.new.work }
{
    close_first(&mut transaction.work.opened);
    transaction.work.picks.clear();
}

/// Ends the transaction without its changes.
pub fn abort<D: Disk>(
    space: &mut Space,
    disk: &mut D,
    transaction: Transaction,
) -> Result<(), Refusal>
    requires serves { Serves transaction.tx.store.number (parts D.told D.len disk.old space.old.store) }

    ensures rests { OnOk result ((m : Meanings) (root : ℕ) (want : Wanted) (db : Db)
        → WasBegun m root want db transaction.tx.store.number (parts D.told D.len disk.old space.old.store)
        → Rests m root want db (parts D.told D.len disk.new space.new.store)) }
    ensures none { OnOk result (space.new.store.book.actives ≡ []) }
    ensures grows { OnOk result (Grows space.old.store space.new.store 0 0) }
    ensures any_moment { KeepsWanted (parts D.told D.len disk.old space.old.store) (parts D.told D.len disk.new space.new.store) }
    ensures up { OnOk result (space.old.store.book.down ≡ false) }
    ensures err { IfErr result (λ r. IsOnlyFault r space.new.store) }
    ensures cause { IfErr result (λ r. HasRefusalCause (FailsOn D.faults) r (record { disk = disk.new; store = space.new.store })) }
    ensures remains { Remains D.told D.len D.faults disk.old disk.new space.old.store space.new.store result }
{
    let Transaction { tx, work: _ } = transaction;
    match space.abort(disk, tx) {
        Ok(()) => Ok(()),
        Err(fault) => Err(refusal_of(fault)),
    }
}
