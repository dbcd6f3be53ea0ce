//! What commits come to.

ghost use Rattle.std.specs.Prelude.{◌≡◌, [], false, is_some, ℕ, IfSome};
ghost use Rattle.sb_relation.specs.Db.{Db};
ghost use Rattle.sb_registry.specs.Boxes.{Meanings};
ghost use Rattle.sb_drive.specs.Spaces.{Wanted};
ghost use Rattle.sb_txn.specs.Parts.{parts};
ghost use Rattle.sb_space.specs.Works.{Serves};
ghost use Rattle.sb_transactions.specs.Calls.{KeepsWanted, Remains};
ghost use Rattle.sb_transactions.specs.Commits.{IsOrFaulted, ended, is_wanting};
ghost use Rattle.sb_transactions.specs.Transactions.{IsBack, IsPointOf, Rests, WasBegun};

use crate::points::back_to;
use crate::transactions::{Point, Transaction, abort};
use sb_disk::Disk;
use sb_fold::Refusal;
use sb_space::Space;
use sb_tables::OpenRelation;
use sb_value::RecKey;

/// What was committed: the record keys that the work picked, and the relations that it has opened, which may stay so.
#[derive(Drop)]
pub struct Committed {
    pub picks: Vec<RecKey>,
    pub opened: Vec<OpenRelation>,
}

/// Why a transaction wasn't committed: the refusal, and the transaction where it goes on.
#[derive(Drop)]
pub struct Uncommitted {
    pub refusal: Refusal,
    pub transaction: Option<Transaction>,
}

/// Whether room or memory is wanting.
fn is_wanting(refusal: &Refusal) -> bool
    ensures { result ≡ is_wanting refusal.now }
{
    matches!(refusal, Refusal::Room(_) | Refusal::NoMemory)
}

/// The answer of a call behind which the transaction is over.
pub(crate) fn ended(answer: Result<Committed, Refusal>) -> Result<Committed, Uncommitted>
    ensures { result ≡ ended answer }
{
    match answer {
        Ok(committed) => Ok(committed),
        Err(refusal) => Err(Uncommitted {
            refusal,
            transaction: None,
        }),
    }
}

/// Behind work that was refused: where room or memory is wanting the transaction goes back to the point, and goes on; else it is aborted. `Fault` is answered where the disk fails then.
pub(crate) fn stop<D: Disk>(
    space: &mut Space,
    disk: &mut D,
    mut transaction: Transaction,
    point: Point,
    refusal: Refusal,
) -> Uncommitted
    requires serves { Serves transaction.tx.store.number (parts D.told D.len disk.old space.old.store) }
    requires point { IsPointOf transaction.tx.store.number point (parts D.told D.len disk.old space.old.store) transaction.work }

    ensures refused { IsOrFaulted D.faults refusal result.refusal (record { disk = disk.new; store = space.new.store }) }
    ensures wanting { is_some result.transaction ≡ is_wanting result.refusal }
    ensures tx { IfSome result.transaction (λ t. t.tx ≡ transaction.tx) }
    ensures back { IfSome result.transaction (λ t. IsBack transaction.tx.store.number point
        (parts D.told D.len disk.old space.old.store) (parts D.told D.len disk.new space.new.store) transaction.work t.work) }
    ensures aborted { result.transaction ≡ None → space.new.store.book.down ≡ false → (m : Meanings) (root : ℕ) (want : Wanted) (db : Db)
        → WasBegun m root want db transaction.tx.store.number (parts D.told D.len disk.old space.old.store)
        → Rests m root want db (parts D.told D.len disk.new space.new.store) }
    ensures none { result.transaction ≡ None → space.new.store.book.down ≡ false → space.new.store.book.actives ≡ [] }
    ensures any_moment { KeepsWanted (parts D.told D.len disk.old space.old.store) (parts D.told D.len disk.new space.new.store) }
    ensures remains { Remains {T = Unit {0}} D.told D.len D.faults disk.old disk.new space.old.store space.new.store (Err result.refusal) }
{
    if is_wanting(&refusal) {
        match back_to(space, disk, &mut transaction, point) {
            Ok(()) => Uncommitted {
                refusal,
                transaction: Some(transaction),
            },
            Err(fault) => {
                drop(refusal);
                drop(transaction);
                Uncommitted {
                    refusal: fault,
                    transaction: None,
                }
            }
        }
    } else {
        match abort(space, disk, transaction) {
            Ok(()) => Uncommitted {
                refusal,
                transaction: None,
            },
            Err(fault) => {
                drop(refusal);
                Uncommitted {
                    refusal: fault,
                    transaction: None,
                }
            }
        }
    }
}
