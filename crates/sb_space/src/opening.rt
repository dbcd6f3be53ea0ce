//! Opening a store of owned pages, and its owner table outside of transactions.

ghost use Rattle.std.specs.Prelude.{◌≡◌, ◌↔◌, ◌<◌, ◌≤◌, ℕ, List, IsTrue, length, IfOk, IfErr, IsErrOf, OnOk};
ghost use Rattle.sb_disk.specs.Causes.{Rose};
ghost use Rattle.sb_disk.specs.Moments.{LeavesOnly};
ghost use Rattle.sb_images.specs.Images.{Restores};
ghost use Rattle.sb_images.specs.Store.{IsMounted};
ghost use Rattle.sb_journal.specs.Opening.{OnlyReads};
ghost use Rattle.sb_log.specs.declared.geometry.Geometry.{Geometry};
ghost use Rattle.sb_pool.specs.State.{IsHeld};
ghost use Rattle.sb_recover.specs.declared.fault.OpenFault.TheVariants.{Fault};
ghost use Rattle.sb_space.specs.Opening.{AreEntries, AreTablePages, IsEntry, IsFresh, IsSpace, IsTablePage, Looks, NamesDamage, OnlyLoads, PageErr, SpaceErr, TableErr, WhereNow};
ghost use Rattle.sb_space.specs.Table.{owner_at, table_len};
ghost use Rattle.sb_space.specs.Works.{MeansDown, Stands};
ghost use Rattle.sb_txn.specs.Clauses.{IsReady};
ghost use Rattle.sb_txn.specs.Parts.{parts};
ghost use Rattle.sb_txn.specs.Opened.{IsOpened};

use crate::changing::TABLE;
use crate::fault::fault_of;
use crate::owners::ENTRIES;
use sb_bytes::get_u16;
use sb_disk::Disk;
use sb_drive::SpaceFault;
use sb_recover::OpenFault;
use sb_txn::{Store, StoreFault};
use std::alloc::Global;

/// The owner of the catalogue's pages.
const CATALOGUE: u16 = 2;

/// Opens the store that the disk holds, as `Store::open` does, and looks through its owner table.
///
/// It refuses what `Store::open` refuses, and then, as `Damaged`, the first page of the table in which an entry can't be: each page of the table is its own, and no other page is; pages that the store hasn't are nobody's.
pub fn open_store<D: Disk>(alloc: Global, disk: &mut D, frames: u32) -> Result<Store, OpenFault>
    requires frames { (8 ≤ frames) × (frames ≤ 65536) }

    ensures opened { IfOk result (λ store. IsOpened (parts D.told D.len disk.old store) (parts D.told D.len disk.new store)) }
    ensures space { IfOk result (λ store. IsSpace (parts D.told D.len disk.new store)) }

    // A crash anywhere in the call leaves pages that are restored as before.
    ensures any_moment { (want : ℕ → List ℕ) (g : Geometry) → IsMounted want (D.told disk.old) g
        → LeavesOnly (D.told disk.old) (D.told disk.new) (Restores g want) }

    ensures damaged { IfErr result (λ e. NamesDamage e (D.told disk.old)) }
    ensures refused { IfErr result (λ e. SpaceErr e (D.told disk.old) (D.told disk.new)) }
    ensures fault { IsErrOf result OpenFault.Fault → Rose (D.faults disk.old) (D.faults disk.new) }
    ensures len { D.len disk.new ≡ D.len disk.old }
    ensures later { D.faults disk.old ≤ D.faults disk.new }
{
    let mut store = Store::open(alloc, disk, frames)?;
    look_through(&mut store, disk)?;
    Ok(store)
}

/// The owner of the catalogue's root, and its page, which is the first one behind the table.
pub fn catalogue(store: &Store) -> (u16, u32)
    ensures { result ≡ (2, table_len store.now.pool.geometry.pages) }
{
    (CATALOGUE, table_pages(store.pages()))
}

/// The owner of a page: 0 nobody, 1 the table, 2 the catalogue. Within a transaction and outside of one.
pub fn owner_of<D: Disk>(store: &mut Store, disk: &mut D, n: u32) -> Result<u16, SpaceFault>
    requires ready { IsReady (parts D.told D.len disk.old store.old) }
    requires page { n < store.old.pool.geometry.pages }
    ensures owner { IfOk result (λ owner. (want now : ℕ → List ℕ) → Stands want now (parts D.told D.len disk.old store.old)
        → owner ≡ owner_at now n) }
    ensures err { IfErr result MeansDown }
    ensures looks { Looks D.told D.len D.faults disk.old disk.new store.old store.new result }
{
    match store.load(disk, n / ENTRIES) {
        Ok(()) => Ok(get_u16(store.held(n / ENTRIES), 2 * (n % ENTRIES) as usize)),
        Err(fault) => Err(fault_of(fault)),
    }
}

/// How many pages the table of so many pages has.
fn table_pages(pages: u32) -> u32
    ensures { result ≡ table_len pages }
{
    pages.div_ceil(ENTRIES)
}

/// Whether the entry of a page may be this owner.
fn is_entry(pages: u32, n: u32, owner: u16) -> bool
    ensures { IsTrue result ↔ IsEntry pages n owner }
{
    if n < table_pages(pages) {
        return owner == TABLE;
    }
    if n < pages {
        return owner != TABLE;
    }
    owner == 0
}

/// Whether each entry in a page of the table may be.
fn are_entries(pages: u32, p: u32, bytes: &[u8]) -> bool
    requires page { p < 65536 }
    requires long { length bytes.now ≡ 4096 }
    ensures { IsTrue result ↔ AreEntries pages p bytes.now }
{
    for k in 0..ENTRIES {
        if !is_entry(pages, ENTRIES * p + k, get_u16(bytes, 2 * k as usize)) {
            return false;
        }
    }
    true
}

/// Brings a page into memory, of a store that was just opened, which isn't down.
fn load_page<D: Disk>(store: &mut Store, disk: &mut D, p: u32) -> Result<(), OpenFault>
    requires fresh { IsFresh (parts D.told D.len disk.old store.old) }
    requires page { p < store.old.pool.geometry.pages }
    ensures held { OnOk result (IsHeld store.new.pool p) }
    ensures loads { OnOk result (OnlyLoads (parts D.told D.len disk.old store.old) (parts D.told D.len disk.new store.new)) }
    ensures err { IfErr result (λ e. (e ≡ Fault) × Rose (D.faults disk.old) (D.faults disk.new)) }
    ensures reads { OnlyReads D.told D.len D.faults disk.old disk.new }
{
    match store.load(disk, p) {
        Ok(()) => Ok(()),
        Err(StoreFault::Fault) => Err(OpenFault::Fault),
        Err(_) => unreachable!(),
    }
}

/// Looks through a page of the table.
fn look_at<D: Disk>(store: &mut Store, disk: &mut D, p: u32) -> Result<(), OpenFault>
    requires fresh { IsFresh (parts D.told D.len disk.old store.old) }
    requires page { p < table_len store.old.pool.geometry.pages }
    ensures formed { OnOk result (WhereNow (parts D.told D.len disk.old store.old)
        (λ now. IsTablePage store.old.pool.geometry.pages now p)) }
    ensures loads { OnOk result (OnlyLoads (parts D.told D.len disk.old store.old) (parts D.told D.len disk.new store.new)) }
    ensures err { IfErr result (PageErr p (parts D.told D.len disk.old store.old) (D.faults disk.old) (D.faults disk.new)) }
    ensures reads { OnlyReads D.told D.len D.faults disk.old disk.new }
{
    load_page(store, disk, p)?;
    if !are_entries(store.pages(), p, store.held(p)) {
        return Err(OpenFault::Damaged { page: p });
    }
    Ok(())
}

/// Looks through the table, up to its first page that hasn't the form.
fn look_through<D: Disk>(store: &mut Store, disk: &mut D) -> Result<(), OpenFault>
    requires { IsFresh (parts D.told D.len disk.old store.old) }
    ensures formed { OnOk result (WhereNow (parts D.told D.len disk.old store.old)
        (λ now. AreTablePages store.old.pool.geometry.pages now (table_len store.old.pool.geometry.pages))) }
    ensures loads { OnOk result (OnlyLoads (parts D.told D.len disk.old store.old) (parts D.told D.len disk.new store.new)) }
    ensures err { IfErr result (TableErr (parts D.told D.len disk.old store.old) (D.faults disk.old) (D.faults disk.new)) }
    ensures reads { OnlyReads D.told D.len D.faults disk.old disk.new }
{
    for p in 0..table_pages(store.pages()) {
        look_at(store, disk, p)?;
    }
    Ok(())
}
