//! Changes of the table and of pages.

ghost use Rattle.std.specs.Prelude.{◌≡◌, ◌≢◌, ◌+◌, ◌-◌, ◌<◌, ◌≤◌, ℕ, List, length, take, drop, slice_index_or, IfErr};
ghost use Rattle.sb_bytes.specs.Bytes.{splice};
ghost use Rattle.sb_drive.specs.Slots.{Slots, with_slot};
ghost use Rattle.sb_drive.specs.Spaces.{IsStoreFault, UnlessDown, Wanted};
ghost use Rattle.sb_pool.specs.Pages.{with_bytes};
ghost use Rattle.sb_space.specs.Durable.{Calls, parts_in};
ghost use Rattle.sb_space.specs.Exact.{IsExact};
ghost use Rattle.sb_space.specs.Instances.{rewritten};
ghost use Rattle.sb_space.specs.Stored.{if_ok};
ghost use Rattle.sb_space.specs.Table.{shown};
ghost use Rattle.sb_space.specs.View.{lent};
ghost use Rattle.sb_space.specs.Works.{HasPages, Serves, Stands};

use crate::durable::Durable;
use crate::fault::fault_of;
use crate::owners::ENTRIES;
use sb_disk::Disk;
use sb_drive::SpaceFault;

/// The owner of the table's own pages.
pub(crate) const TABLE: u16 = 1;

impl<D: Disk> Durable<'_, D> {
    /// Makes a page this owner's, or nobody's: the table has another entry.
    pub(crate) fn set_owner(&mut self, n: u32, owner: u16) -> Result<(), SpaceFault>
        requires ready { Serves (lent self.old).tx (parts_in D.told D.len (lent self.old)) }
        requires page { n < self.old.store.now.pool.geometry.pages }
        ensures pages { UnlessDown result ((want : Wanted) (s : Slots) → HasPages want s (parts_in D.told D.len (lent self.old))
            → ((s n).0 ≡ 1 → ⊥) → (owner ≡ 1 → ⊥)
            → (bytes : List ℕ) × HasPages want (if_ok result (with_slot n (shown owner bytes)) s) (parts_in D.told D.len (lent self.new))) }
        ensures bytes { UnlessDown result ((want : Wanted) (s : Slots) (has : HasPages want s (parts_in D.told D.len (lent self.old)))
            → ((s n).0 ≡ 1 → ⊥) → (owner ≡ 1 → ⊥)
            → HasPages want (if_ok result (with_slot n (shown owner (has.now n))) s) (parts_in D.told D.len (lent self.new))) }
        ensures err { IfErr result IsStoreFault }
        ensures calls { Calls D.told D.len D.faults 1 (lent self.old) (lent self.new) result }
    {
        let entry = owner.to_be_bytes();
        self.change(TABLE, n / ENTRIES, (2 * (n % ENTRIES)) as u16, &entry)
    }

    /// Makes these the bytes of an owner's page, by a change of the range that differs.
    pub(crate) fn set_bytes(&mut self, owner: u16, n: u32, bytes: &[u8]) -> Result<(), SpaceFault>
        requires ready { Serves (lent self.old).tx (parts_in D.told D.len (lent self.old)) }
        requires page { n < self.old.store.now.pool.geometry.pages }
        requires long { length bytes.now ≡ 4096 }
        ensures pages { UnlessDown result ((want : Wanted) (s : Slots) → HasPages want s (parts_in D.told D.len (lent self.old))
            → 1 < owner → (s n).0 ≡ owner
            → HasPages want (if_ok result (with_slot n (owner, bytes.now)) s) (parts_in D.told D.len (lent self.new))) }
        ensures stands { UnlessDown result ((want now : ℕ → List ℕ) → Stands want now (parts_in D.told D.len (lent self.old))
            → Stands want (if_ok result (rewritten n bytes.now) now) (parts_in D.told D.len (lent self.new))) }
        ensures err { IfErr result IsStoreFault }
        ensures calls { Calls D.told D.len D.faults 1 (lent self.old) (lent self.new) result }
    {
        self.load(n)?;
        let page = self.store.held(n);
        let from = first_difference(page, bytes);
        let to = behind_differences(page, bytes);
        if from >= to {
            return Ok(());
        }
        self.change(owner, n, from as u16, &bytes[from..to])
    }

    /// Changes a range of a page: an entry of the table, or the range that differs.
    fn change(&mut self, owner: u16, n: u32, offset: u16, bytes: &[u8]) -> Result<(), SpaceFault>
        requires ready { Serves (lent self.old).tx (parts_in D.told D.len (lent self.old)) }
        requires page { n < self.old.store.now.pool.geometry.pages }
        requires some { 0 < length bytes.now }
        requires range { offset + length bytes.now ≤ 4096 }
        requires exact { (want now : ℕ → List ℕ) → Stands want now (parts_in D.told D.len (lent self.old))
            → IsExact self.old.store.now.pool.geometry.pages n offset (length bytes.now) (now n) (splice offset bytes.now (now n)) }
        ensures pages { UnlessDown result ((want now : ℕ → List ℕ) → Stands want now (parts_in D.told D.len (lent self.old))
            → Stands want (if_ok result (with_bytes n offset bytes.now) now) (parts_in D.told D.len (lent self.new))) }
        ensures err { IfErr result IsStoreFault }
        ensures calls { Calls D.told D.len D.faults 1 (lent self.old) (lent self.new) result }
    {
        match self
            .store
            .change(self.disk, self.tx, owner, n, offset, bytes)
        {
            Ok(()) => Ok(()),
            Err(fault) => Err(fault_of(fault)),
        }
    }
}

/// Where two pages differ first, or their length.
fn first_difference(a: &[u8], b: &[u8]) -> usize
    requires { length a.now ≡ length b.now }
    ensures within { result ≤ length a.now }
    ensures same { take result a.now ≡ take result b.now }
    ensures differ { result < length a.now → slice_index_or a.now result 0 ≢ slice_index_or b.now result 0 }
{
    for i in 0..a.len() {
        if a[i] != b[i] {
            return i;
        }
    }
    a.len()
}

/// The place behind the last byte in which two pages differ, or 0.
fn behind_differences(a: &[u8], b: &[u8]) -> usize
    requires { length a.now ≡ length b.now }
    ensures within { result ≤ length a.now }
    ensures same { drop result a.now ≡ drop result b.now }
    ensures differ { 0 < result → slice_index_or a.now (result - 1) 0 ≢ slice_index_or b.now (result - 1) 0 }
{
    let mut end = a.len();
    while end > 0 && a[end - 1] == b[end - 1] {
        end -= 1;
    }
    end
}
