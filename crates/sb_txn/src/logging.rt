//! Records in the log of a store.

ghost use Rattle.std.specs.Prelude.{◌≡◌, ◌↔◌, ◌+◌, ◌<◌, ◌≤◌, ◌++◌, ◌∷◌, [], ℕ, List, length, OnOk, IfErr, IsErrOf};
ghost use Rattle.sb_disk.specs.Disk.{WhereTold};
ghost use Rattle.sb_disk.specs.Moments.{LeavesOnly};
ghost use Rattle.sb_images.specs.Images.{Restores};
ghost use Rattle.sb_images.specs.Store.{IsReadyOn, IsStoreOn};
ghost use Rattle.sb_journal.specs.Calls.{KeepsJournal, IsLogFull, log_full, AppendErr};
ghost use Rattle.sb_journal.specs.State.{Lies, StandsOn, Appended, after_append};
ghost use Rattle.sb_log.specs.declared.geometry.Geometry.{Geometry};
ghost use Rattle.sb_log.specs.Records.{Record, IsRecord, spelling};
ghost use Rattle.sb_log.specs.Rec.{record_of};
ghost use Rattle.sb_log.specs.Views.{Active};
ghost use Rattle.sb_txn.specs.Logging.{LogsMore};
ghost use Rattle.sb_txn.specs.Steps.{Steps, KeepsDisk, filled};

use sb_disk::Disk;
use sb_journal::{Journal, JournalFault};
use sb_log::{Rec, rec_len, write_rec};

/// The most bytes of a record: those of a change of a whole page.
const MOST: usize = 8207;

/// Adds a record to those that are pending.
pub(crate) fn append_rec<D: Disk>(
    disk: &mut D,
    journal: &mut Journal,
    r: &Rec<'_>,
) -> Result<(), JournalFault>
    requires lies { Lies (D.len disk.old) journal.old.gates journal.old.log }
    requires stands { StandsOn (D.told disk.old) journal.old }
    requires sound { IsRecord (record_of r.now) }

    ensures done { OnOk result (journal.new ≡ after_append (length (spelling (record_of r.now))) journal.old) }
    ensures appended { OnOk result (
        WhereTold (D.told disk.old) (D.told disk.new) (Appended (spelling (record_of r.now)) journal.old journal.new)) }

    // After it the store has the record, which changes nothing that is restored.
    ensures store { OnOk result ((want now then : ℕ → List ℕ) (g : Geometry) (opened pending : List Record) (active after : List Active)
        → IsStoreOn want now (D.told disk.old) journal.old g opened pending active
        → Steps g now then opened pending (record_of r.now) active after
        → IsStoreOn want then (D.told disk.new) journal.new g opened (pending ++ record_of r.now ∷ []) after) }

    // A crash anywhere in the call leaves what the store restores.
    ensures any_moment { (want : ℕ → List ℕ) (g : Geometry) (opened pending : List Record)
        → IsReadyOn want (D.told disk.old) journal.old g opened pending → LeavesOnly (D.told disk.old) (D.told disk.new) (Restores g want) }

    // The pages are on the disk as they were.
    ensures pages { OnOk result (KeepsDisk journal.old (D.told disk.old) (D.told disk.new)) }

    ensures err { filled journal.old + length (spelling (record_of r.now)) ≤ journal.old.log.len → IfErr result (λ e. e ≡ JournalFault.Fault) }
    ensures full { IsErrOf result (log_full (length (spelling (record_of r.now))) journal.old)
        ↔ IsLogFull (length (spelling (record_of r.now))) journal.old }
    ensures refused { IfErr result (λ e.
        AppendErr e (length (spelling (record_of r.now))) disk.old disk.new journal.old journal.new) }
    ensures logs { LogsMore D.told D.faults disk.old disk.new journal.old journal.new (length (spelling (record_of r.now))) result }
    ensures keeps { KeepsJournal D.told D.len D.faults disk.old disk.new journal.old journal.new result }
{
    let mut bytes = [0u8; MOST];
    let out = &mut bytes[..len_of(r)];
    write_rec(r, out);
    journal.append(disk, out)
}

/// How many bytes the record takes.
fn len_of(r: &Rec<'_>) -> usize
    requires { IsRecord (record_of r.now) }
    ensures len { result ≡ length (spelling (record_of r.now)) }
    ensures some { 0 < result }
    ensures most { result ≤ 8207 }
{
    rec_len(r)
}
