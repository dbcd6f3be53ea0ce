//! Instances: a new one gets an owner and a root, and of one that has ended each page is nobody's again.

ghost use Rattle.std.specs.Prelude.{◌≡◌, ◌<◌, ◌≤◌, ℕ, length, [], true, IfOk, IfErr, IfSome, OnOk, OnErr};
ghost use Rattle.sb_ctx.specs.View.{nothing};
ghost use Rattle.sb_drive.specs.Instances.{IsLeastFree, IsLeastOwner};
ghost use Rattle.sb_drive.specs.Slots.{Slots, with_slot};
ghost use Rattle.sb_drive.specs.Spaces.{IsFull, IsStoreFault, UnlessDown, Wanted};
ghost use Rattle.sb_drive.specs.declared.turns.Ask.TheVariants.{Fresh};
ghost use Rattle.sb_forms.specs.Pages.{zeros};
ghost use Rattle.sb_owners.specs.Instances.{without_owner};
ghost use Rattle.sb_space.specs.Durable.{Calls, parts_in};
ghost use Rattle.sb_space.specs.Instances.{AreCleared, AreMarked, free_next, IsFirstFree, IsNewFault, IsNewInstance, IsUnmarked, marks_set, unmarked, without_in};
ghost use Rattle.sb_space.specs.Stored.{Ends, if_ok};
ghost use Rattle.sb_space.specs.Table.{table_len};
ghost use Rattle.sb_space.specs.View.{lent};
ghost use Rattle.sb_space.specs.Works.{HasPages, MeansDown, Serves};

use crate::changing::TABLE;
use crate::durable::Durable;
use crate::entries::clear_owner;
use crate::owners::ENTRIES;
use sb_bytes::PAGE_LEN;
use sb_disk::Disk;
use sb_drive::SpaceFault;
use std::alloc::{AllocError, Global};

/// How many numbers of owners there are.
pub const OWNERS: usize = u16::MAX as usize + 1;

/// The least owner of an instance. Below it are nobody, the table and the catalogue.
pub const FIRST_INSTANCE: u16 = 3;

/// So many marks, none of which is set.
#[tactic(auto, unfolding(crate::specs::Instances::unmarked))]
pub fn new_marks(alloc: Global, count: usize) -> Result<Vec<bool>, AllocError>
    ensures { IfOk result (λ marks. marks.items ≡ unmarked count) }
{
    vec![in alloc; false; count]
}

/// The least owner of an instance that isn't marked.
fn unused_owner(marks: &[bool]) -> u16
    requires long { length marks.now ≡ 65536 }
    requires few { marks_set marks.now < 65532 }
    ensures { IsUnmarked marks.now result }
{
    for owner in FIRST_INSTANCE..u16::MAX {
        if !marks[owner as usize] {
            return owner;
        }
    }
    unreachable!()
}

/// The first page that is nobody's: this one, where none was found and it has no owner.
fn first_free(found: Option<u32>, owner: u16, n: u32) -> Option<u32>
    ensures { result ≡ free_next found owner n }
{
    match found {
        None if owner == 0 => Some(n),
        _ => found,
    }
}

impl<D: Disk> Durable<'_, D> {
    /// Makes an instance: its owner and its root, a page of zeros. Two changes.
    pub fn new_instance(&mut self, alloc: Global) -> Result<(u16, u32), SpaceFault>
        requires ready { Serves (lent self.old).tx (parts_in D.told D.len (lent self.old)) }
        ensures made { IfOk result (λ made. (want : Wanted) (s : Slots) → HasPages want s (parts_in D.told D.len (lent self.old))
            → IsNewInstance want s self.old.store.now.pool.geometry.pages made.0 made.1 (parts_in D.told D.len (lent self.new))) }
        ensures high { IfOk result (λ made. 2 < made.0) }
        ensures below { IfOk result (λ made. made.1 < self.old.store.now.pool.geometry.pages) }
        ensures same { UnlessDown result ((want : Wanted) (s : Slots) → HasPages want s (parts_in D.told D.len (lent self.old))
            → OnErr result (HasPages want s (parts_in D.told D.len (lent self.new)))) }
        ensures full { IfErr result (λ e. (want : Wanted) (s : Slots) → HasPages want s (parts_in D.told D.len (lent self.old))
            → IsFull true self.old.store.now.pool.geometry.pages s nothing Fresh e) }
        ensures err { IfErr result IsNewFault }
        ensures calls { Calls D.told D.len D.faults 2 (lent self.old) (lent self.new) result }
    {
        let (owner, root) = self.next_instance(alloc)?;
        self.make_root(owner, root)?;
        Ok((owner, root))
    }

    /// Every page of the owner becomes nobody's: one change for each page of the table in which something changes.
    pub fn free_owner(&mut self, owner: u16) -> Result<(), SpaceFault>
        requires ready { Serves (lent self.old).tx (parts_in D.told D.len (lent self.old)) }
        requires owner { 1 < owner }
        ensures pages { UnlessDown result ((want : Wanted) (s : Slots) → HasPages want s (parts_in D.told D.len (lent self.old))
            → Ends owner want s (parts_in D.told D.len (lent self.new)) (λ t. OnOk result (t ≡ without_owner owner s))) }
        ensures err { IfErr result IsStoreFault }
        ensures calls { Calls D.told D.len D.faults (table_len self.old.store.now.pool.geometry.pages) (lent self.old) (lent self.new) result }
    {
        for page in 0..self.table_pages() {
            self.free_entries(owner, page)?;
        }
        Ok(())
    }

    /// How many pages the table has.
    fn table_pages(&self) -> u32
        requires { self.now.store.now.pool.geometry.pages ≤ 65536 }
        ensures { result ≡ table_len self.now.store.now.pool.geometry.pages }
    {
        (self.store.pages() + (ENTRIES - 1)) / ENTRIES
    }

    /// The owner and the root that a new instance has.
    fn next_instance(&mut self, alloc: Global) -> Result<(u16, u32), SpaceFault>
        requires ready { Serves (lent self.old).tx (parts_in D.told D.len (lent self.old)) }
        ensures owner { IfOk result (λ next. (want : Wanted) (s : Slots) → HasPages want s (parts_in D.told D.len (lent self.old))
            → IsLeastOwner s [] next.0) }
        ensures root { IfOk result (λ next. (want : Wanted) (s : Slots) → HasPages want s (parts_in D.told D.len (lent self.old))
            → IsLeastFree s next.1) }
        ensures high { IfOk result (λ next. 2 < next.0) }
        ensures below { IfOk result (λ next. next.1 < self.old.store.now.pool.geometry.pages) }
        ensures full { IfErr result (λ e. (want : Wanted) (s : Slots) → HasPages want s (parts_in D.told D.len (lent self.old))
            → IsFull true self.old.store.now.pool.geometry.pages s nothing Fresh e) }
        ensures err { IfErr result IsNewFault }
        ensures calls { Calls D.told D.len D.faults 0 (lent self.old) (lent self.new) result }
    {
        let mut marks = new_marks(alloc, OWNERS)?;
        let Some(root) = self.mark_owners(&mut marks)? else {
            let total = self.store.pages();
            return Err(SpaceFault::DataFull { used: total, total });
        };
        Ok((unused_owner(&marks), root))
    }

    /// Marks the owners of all pages behind the table, and gives the least page that is nobody's.
    fn mark_owners(&mut self, marks: &mut [bool]) -> Result<Option<u32>, SpaceFault>
        requires ready { Serves (lent self.old).tx (parts_in D.told D.len (lent self.old)) }
        requires new { marks.old ≡ unmarked 65536 }
        ensures marks { OnOk result ((want : Wanted) (s : Slots) → HasPages want s (parts_in D.told D.len (lent self.old))
            → AreMarked self.old.store.now.pool.geometry.pages s marks.new) }
        ensures few { OnOk result (marks_set marks.new < 65532) }
        ensures free { IfOk result (λ free. (want : Wanted) (s : Slots) → HasPages want s (parts_in D.told D.len (lent self.old))
            → IsFirstFree self.old.store.now.pool.geometry.pages s free) }
        ensures below { IfOk result (λ free. IfSome free (λ n. n < self.old.store.now.pool.geometry.pages)) }
        ensures err { IfErr result MeansDown }
        ensures calls { Calls D.told D.len D.faults 0 (lent self.old) (lent self.new) result }
    {
        let mut free = None;
        for n in self.table_pages()..self.store.pages() {
            let owner = self.owner_of(n)?;
            marks[owner as usize] = true;
            free = first_free(free, owner, n);
        }
        Ok(free)
    }

    /// A page that is nobody's becomes the owner's, with zeros.
    fn make_root(&mut self, owner: u16, root: u32) -> Result<(), SpaceFault>
        requires ready { Serves (lent self.old).tx (parts_in D.told D.len (lent self.old)) }
        requires page { root < self.old.store.now.pool.geometry.pages }
        requires owner { 1 < owner }
        ensures pages { UnlessDown result ((want : Wanted) (s : Slots) → HasPages want s (parts_in D.told D.len (lent self.old))
            → (s root).0 ≡ 0
            → HasPages want (if_ok result (with_slot root (owner, zeros)) s) (parts_in D.told D.len (lent self.new))) }
        ensures err { IfErr result IsStoreFault }
        ensures calls { Calls D.told D.len D.faults 2 (lent self.old) (lent self.new) result }
    {
        self.set_bytes(owner, root, &[0; PAGE_LEN])?;
        self.set_owner(root, owner)
    }

    /// The owner's entries in a page of the table become nobody's, by a change of the range that differs.
    fn free_entries(&mut self, owner: u16, page: u32) -> Result<(), SpaceFault>
        requires ready { Serves (lent self.old).tx (parts_in D.told D.len (lent self.old)) }
        requires page { page < table_len self.old.store.now.pool.geometry.pages }
        requires owner { 1 < owner }
        ensures pages { UnlessDown result ((want : Wanted) (s : Slots) → HasPages want s (parts_in D.told D.len (lent self.old))
            → HasPages want (if_ok result (without_in owner page) s) (parts_in D.told D.len (lent self.new))) }
        ensures err { IfErr result IsStoreFault }
        ensures calls { Calls D.told D.len D.faults 1 (lent self.old) (lent self.new) result }
    {
        self.load(page)?;
        let mut table = [0; PAGE_LEN];
        table.copy_from_slice(self.store.held(page));
        clear_owner(&mut table, owner);
        self.set_bytes(TABLE, page, &table)
    }
}
