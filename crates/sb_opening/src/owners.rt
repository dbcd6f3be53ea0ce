//! A look for pages whose owner no relation of the catalogue names.

ghost use Rattle.std.specs.Prelude.{◌≡◌, ◌<◌, length, IfErr, OnOk};
ghost use Rattle.sb_drive.specs.Slots.{Slots};
ghost use Rattle.sb_drive.specs.Spaces.{Wanted};
ghost use Rattle.sb_space.specs.Instances.{unmarked};
ghost use Rattle.sb_space.specs.Works.{HasPages};
ghost use Rattle.sb_txn.specs.Clauses.{IsReady};
ghost use Rattle.sb_txn.specs.Parts.{parts};
ghost use Rattle.sb_opening.specs.Looking.{fault_of};
ghost use Rattle.sb_opening.specs.Owners.{AreMarks, HasNoStray, IsKnown, IsStrayAt, TellsStray, OnlyLooks, OverMarked, is_known};

use sb_disk::Disk;
use sb_drive::SpaceFault;
use sb_space::{ENTRIES, FIRST_INSTANCE, OWNERS, catalogue, new_marks, owner_of};
use sb_txn::Store;
use std::alloc::Global;

/// Asks each page behind the owner table for its owner. The first one whose owner is that of an instance, but none of these, is damage: of the
/// page of the table in which its entry stands.
pub(crate) fn check_owners<D: Disk>(
    store: &mut Store,
    alloc: Global,
    disk: &mut D,
    owners: &[u16],
) -> Result<(), SpaceFault>
    requires ready { IsReady (parts D.told D.len disk.old store.old) }

    ensures known { OnOk result ((want : Wanted) (s : Slots) → HasPages want s (parts D.told D.len disk.old store.old)
        → HasNoStray s owners.now) }
    ensures stray { IfErr result (λ e. (want : Wanted) (s : Slots) → HasPages want s (parts D.told D.len disk.old store.old)
        → TellsStray s owners.now (fault_of e)) }
    ensures looks { OnlyLooks D.told D.len D.faults disk.old disk.new store.old store.new result }
{
    let mut marks = new_marks(alloc, OWNERS)?;
    mark_owners(&mut marks, owners);
    check_pages(store, disk, marks.as_slice())
}

/// Marks these owners among all.
fn mark_owners(marks: &mut [bool], owners: &[u16])
    requires new { marks.old ≡ unmarked 65536 }
    ensures { AreMarks owners.now marks.new }
{
    for owner in owners {
        marks[*owner as usize] = true;
    }
}

/// The same of pages, with the owners marked.
fn check_pages<D: Disk>(store: &mut Store, disk: &mut D, marks: &[bool]) -> Result<(), SpaceFault>
    requires ready { IsReady (parts D.told D.len disk.old store.old) }
    requires long { length marks.now ≡ 65536 }

    ensures known { OnOk result (OverMarked marks.now (parts D.told D.len disk.old store.old) (λ owners s. HasNoStray s owners)) }
    ensures stray { IfErr result (λ e. OverMarked marks.now (parts D.told D.len disk.old store.old)
        (λ owners s. TellsStray s owners (fault_of e))) }
    ensures looks { OnlyLooks D.told D.len D.faults disk.old disk.new store.old store.new result }
{
    let (_, first) = catalogue(store);
    for n in first..store.pages() {
        check_page(store, disk, marks, n)?;
    }
    Ok(())
}

/// The same of one page.
fn check_page<D: Disk>(
    store: &mut Store,
    disk: &mut D,
    marks: &[bool],
    n: u32,
) -> Result<(), SpaceFault>
    requires ready { IsReady (parts D.told D.len disk.old store.old) }
    requires page { n < store.old.pool.geometry.pages }
    requires long { length marks.now ≡ 65536 }

    ensures known { OnOk result (OverMarked marks.now (parts D.told D.len disk.old store.old) (λ owners s. IsKnown owners (s n).0)) }
    ensures stray { IfErr result (λ e. OverMarked marks.now (parts D.told D.len disk.old store.old) (λ owners s. IsStrayAt owners s n e)) }
    ensures looks { OnlyLooks D.told D.len D.faults disk.old disk.new store.old store.new result }
{
    let owner = owner_of(store, disk, n)?;
    if !is_known(marks, owner) {
        return Err(SpaceFault::Damaged { page: n / ENTRIES });
    }
    Ok(())
}

/// Whether this is no owner of an instance, or one that is marked.
fn is_known(marks: &[bool], owner: u16) -> bool
    requires { length marks.now ≡ 65536 }
    ensures { result ≡ is_known marks.now owner }
{
    owner < FIRST_INSTANCE || marks[owner as usize]
}
