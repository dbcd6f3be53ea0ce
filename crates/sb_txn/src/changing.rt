//! The records of a change.

ghost use Rattle.std.specs.Prelude.{◌≡◌, ◌⊎◌, ◌<◌, ◌≤◌, ◌+◌, ◌++◌, ◌∷◌, [], suc, true, false, ℕ, Bool, List, cond, length, not, OnOk, IfErr};
ghost use Rattle.sb_disk.specs.Causes.{Rose};
ghost use Rattle.sb_disk.specs.Disk.{WhereTold};
ghost use Rattle.sb_disk.specs.Moments.{LeavesOnly};
ghost use Rattle.sb_images.specs.Images.{Restores};
ghost use Rattle.sb_images.specs.Store.{IsReadyOn, IsStoreOn};
ghost use Rattle.sb_journal.specs.State.{Lies, StandsOn, after_append};
ghost use Rattle.sb_log.specs.declared.geometry.Geometry.{Geometry};
ghost use Rattle.sb_log.specs.Records.{Change, Record, Changed, IsRecord, spelling};
ghost use Rattle.sb_log.specs.Rec.{record_of};
ghost use Rattle.sb_log.specs.Views.{Active, active_with};
ghost use Rattle.sb_log.specs.Whole.{with_range};
ghost use Rattle.sb_txn.specs.Book.{wants_len};
ghost use Rattle.sb_txn.specs.Changing.{before, IsNext, behind};
ghost use Rattle.sb_txn.specs.Faults.{of_journal};
ghost use Rattle.sb_txn.specs.declared.fault.StoreFault.TheVariants as StoreFault;
ghost use Rattle.sb_txn.specs.Logging.{LogsMore, records_len};
ghost use Rattle.sb_txn.specs.Steps.{Steps, Stays, KeepsDisk, some, filled};

use crate::logging::append_rec;
use sb_disk::Disk;
use sb_journal::{Journal, JournalFault};
use sb_log::Rec;

/// Adds a record to those that are pending, where it is wanted.
pub(crate) fn append_if<D: Disk>(
    disk: &mut D,
    journal: &mut Journal,
    wanted: bool,
    r: &Rec<'_>,
) -> Result<(), JournalFault>
    requires lies { Lies (D.len disk.old) journal.old.gates journal.old.log }
    requires stands { StandsOn (D.told disk.old) journal.old }
    requires sound { IsRecord (record_of r.now) }

    // After it the store has the record, which changes nothing that is restored.
    ensures store { OnOk result ((want now : ℕ → List ℕ) (g : Geometry) (opened pending : List Record) (active : List Active)
        → IsStoreOn want now (D.told disk.old) journal.old g opened pending active
        → (wanted ≡ true → Steps g now now opened pending (record_of r.now) active active)
        → IsStoreOn want now (D.told disk.new) journal.new g opened (pending ++ some wanted (record_of r.now)) active) }

    // A crash anywhere in the call leaves what the store restores.
    ensures any_moment { (want : ℕ → List ℕ) (g : Geometry) (opened pending : List Record)
        → IsReadyOn want (D.told disk.old) journal.old g opened pending → LeavesOnly (D.told disk.old) (D.told disk.new) (Restores g want) }

    // The pages are on the disk as they were.
    ensures pages { OnOk result (KeepsDisk journal.old (D.told disk.old) (D.told disk.new)) }

    ensures done { OnOk result (journal.new ≡ after_append (cond wanted (length (spelling (record_of r.now))) 0) journal.old) }
    ensures err { filled journal.old + cond wanted (length (spelling (record_of r.now))) 0 ≤ journal.old.log.len
        → IfErr result (λ e. e ≡ JournalFault.Fault) }
    ensures cause { IfErr result (λ e. of_journal e ≡ StoreFault.Fault
        → (journal.old.failed ≡ true) ⊎ Rose (D.faults disk.old) (D.faults disk.new)) }
    ensures logs { LogsMore D.told D.faults disk.old disk.new journal.old journal.new (cond wanted (length (spelling (record_of r.now))) 0) result }
    ensures stays { Stays D.told D.len D.faults disk.old disk.new journal.old journal.new }
{
    if !wanted {
        return Ok(());
    }
    append_rec(disk, journal, r)?;
    Ok(())
}

/// Which records are wanted before a change: that its transaction begins, how many of its changes stand, and how its page is.
#[derive(Clone, Copy, Debug, PartialEq, Eq)]
pub(crate) struct Wants {
    pub begin: bool,
    pub back: bool,
    pub image: bool,
}

/// Adds the records of a change, behind those that are wanted before it.
pub(crate) fn log_change<D: Disk>(
    disk: &mut D,
    journal: &mut Journal,
    wants: Wants,
    tx: u32,
    n: u32,
    page: u32,
    image: &[u8],
    change: &Rec<'_>,
) -> Result<(), JournalFault>
    requires lies { Lies (D.len disk.old) journal.old.gates journal.old.log }
    requires stands { StandsOn (D.told disk.old) journal.old }
    requires sound { IsRecord (record_of change.now) }
    requires image { length image.now ≡ 4096 }

    // The pages are on the disk as they were.
    ensures pages { OnOk result (KeepsDisk journal.old (D.told disk.old) (D.told disk.new)) }

    ensures done { OnOk result (journal.new ≡ after_append (wants_len wants + length (spelling (record_of change.now))) journal.old) }
    ensures err { filled journal.old + (wants_len wants + length (spelling (record_of change.now))) ≤ journal.old.log.len
        → IfErr result (λ e. e ≡ JournalFault.Fault) }
    ensures cause { IfErr result (λ e. of_journal e ≡ StoreFault.Fault
        → (journal.old.failed ≡ true) ⊎ Rose (D.faults disk.old) (D.faults disk.new)) }
    ensures logs { LogsMore D.told D.faults disk.old disk.new journal.old journal.new
        (records_len wants (length (spelling (record_of change.now)))) result }
    ensures stays { Stays D.told D.len D.faults disk.old disk.new journal.old journal.new }

    // After it the store has the change.
    ensures store { OnOk result ((want now : ℕ → List ℕ) (g : Geometry) (opened pending : List Record) (rest : List Active) (c : Change)
        → record_of change.now ≡ Changed c → IsNext (before wants tx n page image.now) now opened pending rest c
        → IsStoreOn want now (D.told disk.old) journal.old g opened pending (active_with tx n ∷ rest)
        → IsStoreOn want (with_range c c.after now) (D.told disk.new) journal.new g opened
        (behind pending (before wants tx n page image.now) ++ Changed c ∷ []) (active_with tx (suc n) ∷ rest)) }

    // A crash anywhere in the call leaves what the store restores.
    ensures any_moment { (want now : ℕ → List ℕ) (g : Geometry) (opened pending : List Record) (rest : List Active) (c : Change)
        → record_of change.now ≡ Changed c → IsNext (before wants tx n page image.now) now opened pending rest c
        → IsStoreOn want now (D.told disk.old) journal.old g opened pending (active_with tx n ∷ rest)
        → LeavesOnly (D.told disk.old) (D.told disk.new) (Restores g want) }
{
    append_if(disk, journal, wants.begin, &Rec::Begin { tx })?;
    append_if(disk, journal, wants.back, &Rec::Back { tx, n })?;
    append_if(
        disk,
        journal,
        wants.image,
        &Rec::Image { page, bytes: image },
    )?;
    append_rec(disk, journal, change)?;
    Ok(())
}
