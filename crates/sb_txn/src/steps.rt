//! Steps of a store that force its log.

ghost use Rattle.std.specs.Prelude.{◌≡◌, ◌⊎◌, ◌+◌, ◌<◌, ◌≤◌, ◌++◌, ◌∷◌, [], true, false, ℕ, List, length, OnOk, OnErr, IfErr, IsErrOf};
ghost use Rattle.sb_disk.specs.Causes.{Rose};
ghost use Rattle.sb_disk.specs.Moments.{LeavesOnly};
ghost use Rattle.sb_images.specs.Images.{Restores, IsOldOrNew};
ghost use Rattle.sb_images.specs.Store.{IsStoreOn, own_of, with_changes};
ghost use Rattle.sb_journal.specs.State.{Lies, StandsOn, after_append, after_force, after_close};
ghost use Rattle.sb_log.specs.declared.geometry.Geometry.{Geometry};
ghost use Rattle.sb_log.specs.Records.{Record, Commit};
ghost use Rattle.sb_log.specs.Standing.{standing, count_of};
ghost use Rattle.sb_log.specs.Views.{Active, active_with};
ghost use Rattle.sb_pool.specs.Calls.{moment, Serves, AreTied};
ghost use Rattle.sb_pool.specs.Pages.{AgreesOn, ArePagesOn, KeepsPages};
ghost use Rattle.sb_pool.specs.State.{flushed};
ghost use Rattle.sb_txn.specs.Steps.{KeepsSizes, KeepsDisk, Stays, filled};

use crate::StoreFault;
use crate::logging::append_rec;
use sb_disk::Disk;
use sb_journal::Journal;
use sb_log::Rec;
use sb_pool::Pool;

/// Writes each dirty page, and then closes the gates. No transaction is active.
pub(crate) fn checkpoint<D: Disk>(
    disk: &mut D,
    journal: &mut Journal,
    pool: &mut Pool,
) -> Result<(), StoreFault>
    requires serves { Serves (D.told disk.old) (D.len disk.old) journal.old pool.old.geometry }
    requires agrees { AgreesOn (D.told disk.old) journal.old pool.old }

    ensures pool { OnOk result (pool.new ≡ flushed pool.old) }
    ensures journal { OnOk result (journal.new ≡ after_close (after_force journal.old)) }
    ensures serves { OnOk result (Serves (D.told disk.new) (D.len disk.new) journal.new pool.new.geometry) }
    ensures agrees { OnOk result (AgreesOn (D.told disk.new) journal.new pool.new) }
    ensures pages { OnOk result ((now : ℕ → List ℕ) → ArePagesOn now (D.told disk.old) journal.old pool.old
        → ArePagesOn now (D.told disk.new) journal.new pool.new) }
    ensures keeps { KeepsSizes (moment D.told D.len D.faults disk.old journal.old pool.old)
        (moment D.told D.len D.faults disk.new journal.new pool.new) result }

    // After it the log is empty.
    ensures store { OnOk result ((want now : ℕ → List ℕ) (opened pending : List Record)
        → IsStoreOn want now (D.told disk.old) journal.old pool.old.geometry opened pending []
        → AreTied pool.old journal.old opened pending → ArePagesOn now (D.told disk.old) journal.old pool.old
        → IsStoreOn want now (D.told disk.new) journal.new pool.old.geometry [] [] []) }

    // A crash anywhere in the call leaves what the store restores.
    ensures any_moment { (want now : ℕ → List ℕ) (opened pending : List Record)
        → IsStoreOn want now (D.told disk.old) journal.old pool.old.geometry opened pending []
        → AreTied pool.old journal.old opened pending → ArePagesOn now (D.told disk.old) journal.old pool.old
        → LeavesOnly (D.told disk.old) (D.told disk.new) (Restores pool.old.geometry want) }
{
    pool.flush_all(disk, journal)?;
    journal.close_all(disk)?;
    Ok(())
}

/// Makes a chunk of what is pending and a Commit of the transaction.
pub(crate) fn commit<D: Disk>(
    disk: &mut D,
    journal: &mut Journal,
    tx: u32,
) -> Result<(), StoreFault>
    requires lies { Lies (D.len disk.old) journal.old.gates journal.old.log }
    requires stands { StandsOn (D.told disk.old) journal.old }
    requires clean { journal.old.clean ≡ true }

    ensures done { OnOk result (journal.new ≡ after_force (after_append 5 journal.old)) }
    ensures pages { OnOk result (KeepsDisk journal.old (D.told disk.old) (D.told disk.new)) }
    ensures err { filled journal.old + 5 ≤ journal.old.log.len → length journal.old.lens < journal.old.gates.len
        → IfErr result (λ e. e ≡ StoreFault.Fault) }
    ensures cause { IsErrOf result StoreFault.Fault → (journal.old.failed ≡ true) ⊎ Rose (D.faults disk.old) (D.faults disk.new) }
    ensures stays { Stays D.told D.len D.faults disk.old disk.new journal.old journal.new }

    // After it the pages wanted have the changes of the transaction that stand, and the others are active still.
    ensures store { OnOk result ((want now : ℕ → List ℕ) (g : Geometry) (opened pending : List Record) (n : ℕ) (rest : List Active)
        → IsStoreOn want now (D.told disk.old) journal.old g opened pending (active_with tx n ∷ rest)
        → count_of tx (standing (opened ++ pending)) ≤ n
        → IsStoreOn (with_changes (own_of (opened ++ pending) (active_with tx n)) want) now (D.told disk.new) journal.new g
        (opened ++ (pending ++ Commit tx ∷ [])) [] rest) }

    // A crash anywhere in the call leaves the old pages wanted or the new ones.
    ensures any_moment { (want now : ℕ → List ℕ) (g : Geometry) (opened pending : List Record) (n : ℕ) (rest : List Active)
        → IsStoreOn want now (D.told disk.old) journal.old g opened pending (active_with tx n ∷ rest)
        → count_of tx (standing (opened ++ pending)) ≤ n
        → LeavesOnly (D.told disk.old) (D.told disk.new)
        (IsOldOrNew g want (with_changes (own_of (opened ++ pending) (active_with tx n)) want)) }
{
    append_rec(disk, journal, &Rec::Commit { tx })?;
    journal.force(disk)?;
    Ok(())
}
