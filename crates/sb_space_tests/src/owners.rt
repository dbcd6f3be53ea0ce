//! Pages that are taken in a store of 64 pages, and given back at a savepoint, at an abort, or not at all.

ghost use Rattle.std.specs.Prelude.{◌≡◌, ◌≤◌, [], OnOk, IfSome};
ghost use Rattle.sb_space.specs.Durable.{parts_in};
ghost use Rattle.sb_space.specs.Transactions.{KeepsChanges};
ghost use Rattle.sb_space.specs.View.{lent};
ghost use Rattle.sb_space.specs.Works.{Serves};
ghost use Rattle.sb_txn.specs.Clauses.{IsReady};
ghost use Rattle.sb_txn.specs.Parts.{parts};

use sb_ctx::Ctx;
use sb_disk::Disk;
use sb_drive::{Ask, PageSpace, SpaceFault};
use sb_memdisk::MemDisk;
use sb_recover::format;
use sb_space::{Durable, Space, Tx};
use sb_txn::Store;
use std::alloc::Global;

/// The smallest store, and the bytes that it takes of a disk.
const PAGES: u32 = 64;

const LOG: u64 = 2_097_152;

const SIZE: u64 = 2_428_928;

/// Whose pages are taken.
const OWNER: u16 = 3;

/// The first page of the owner, and the next one behind it.
type Found = (Option<u32>, Option<u32>);

/// Takes a fresh page for the owner.
fn take_page<D: Disk>(alloc: Global, pages: &mut Durable<'_, D>) -> Result<(), SpaceFault>
    requires { Serves (lent pages.old).tx (parts_in D.told D.len (lent pages.old)) }
    ensures ready { Serves (lent pages.old).tx (parts_in D.told D.len (lent pages.new)) }
    ensures same_store { pages.new.store.ghost_name ≡ pages.old.store.ghost_name }
    ensures same_disk { pages.new.disk.ghost_name ≡ pages.old.disk.ghost_name }
    ensures changes { KeepsChanges (lent pages.old).tx pages.old.store.now.book pages.new.store.now.book }
{
    let mut ctx = Ctx::new(alloc);
    if let Err(fault) = pages.answer(OWNER, &mut ctx, Ask::Fresh) {
        drop(ctx);
        return Err(fault);
    }
    let _page = ctx.fresh();
    let stored = pages.store(alloc, OWNER, &ctx);
    drop(ctx);
    stored
}

/// The owner's next page behind this one, or its first one.
fn next_page<D: Disk>(
    alloc: Global,
    pages: &mut Durable<'_, D>,
    low: Option<u32>,
) -> Result<Option<u32>, SpaceFault>
    requires { Serves (lent pages.old).tx (parts_in D.told D.len (lent pages.old)) }
    ensures ready { Serves (lent pages.old).tx (parts_in D.told D.len (lent pages.new)) }
    ensures same_store { pages.new.store.ghost_name ≡ pages.old.store.ghost_name }
    ensures same_disk { pages.new.disk.ghost_name ≡ pages.old.disk.ghost_name }
    ensures changes { KeepsChanges (lent pages.old).tx pages.old.store.now.book pages.new.store.now.book }
{
    let mut ctx = Ctx::new(alloc);
    if let Err(fault) = pages.answer(OWNER, &mut ctx, Ask::After(low)) {
        drop(ctx);
        return Err(fault);
    }
    let page = ctx.after(low).unwrap_or(None);
    drop(ctx);
    Ok(page)
}

/// Takes a page of the space.
fn take<D: Disk>(alloc: Global, space: &mut Space, disk: &mut D, tx: &Tx) -> Result<(), SpaceFault>
    requires { Serves tx.now.store.number (parts D.told D.len disk.old space.old.store) }
    ensures ready { Serves tx.now.store.number (parts D.told D.len disk.new space.new.store) }
    ensures changes { KeepsChanges tx.now.store.number space.old.store.book space.new.store.book }
{
    let mut pages = Durable::new(&mut space.store, disk, &tx.store);
    take_page(alloc, &mut pages)
}

/// What is found of the owner.
fn look<D: Disk>(
    alloc: Global,
    space: &mut Space,
    disk: &mut D,
    tx: &Tx,
) -> Result<Found, SpaceFault>
    requires { Serves tx.now.store.number (parts D.told D.len disk.old space.old.store) }
    ensures ready { Serves tx.now.store.number (parts D.told D.len disk.new space.new.store) }
    ensures changes { KeepsChanges tx.now.store.number space.old.store.book space.new.store.book }
{
    let first = next(alloc, space, disk, tx, None)?;
    let second = next(alloc, space, disk, tx, first)?;
    Ok((first, second))
}

/// The owner's next page in the space.
fn next<D: Disk>(
    alloc: Global,
    space: &mut Space,
    disk: &mut D,
    tx: &Tx,
    low: Option<u32>,
) -> Result<Option<u32>, SpaceFault>
    requires { Serves tx.now.store.number (parts D.told D.len disk.old space.old.store) }
    ensures ready { Serves tx.now.store.number (parts D.told D.len disk.new space.new.store) }
    ensures changes { KeepsChanges tx.now.store.number space.old.store.book space.new.store.book }
{
    let mut pages = Durable::new(&mut space.store, disk, &tx.store);
    next_page(alloc, &mut pages, low)
}

/// Takes a page, and another one behind a savepoint, and goes back to the savepoint: what is found before that and behind it.
fn take_back<D: Disk>(
    alloc: Global,
    space: &mut Space,
    disk: &mut D,
    tx: &Tx,
) -> Result<(Found, Found), SpaceFault>
    requires { Serves tx.now.store.number (parts D.told D.len disk.old space.old.store) }
    ensures ready { Serves tx.now.store.number (parts D.told D.len disk.new space.new.store) }
{
    take(alloc, space, disk, tx)?;
    let mark = space.mark(tx);
    take(alloc, space, disk, tx)?;
    let both = look(alloc, space, disk, tx)?;
    space.back_to(disk, tx, mark)?;
    let one = look(alloc, space, disk, tx)?;
    Ok((both, one))
}

/// Takes two pages: what is found before them.
fn take_two<D: Disk>(
    alloc: Global,
    space: &mut Space,
    disk: &mut D,
    tx: &Tx,
) -> Result<Found, SpaceFault>
    requires { Serves tx.now.store.number (parts D.told D.len disk.old space.old.store) }
    ensures ready { Serves tx.now.store.number (parts D.told D.len disk.new space.new.store) }
{
    let none = look(alloc, space, disk, tx)?;
    take(alloc, space, disk, tx)?;
    take(alloc, space, disk, tx)?;
    Ok(none)
}

/// The first transaction, which is aborted.
fn first<D: Disk>(
    alloc: Global,
    space: &mut Space,
    disk: &mut D,
) -> Result<(Found, Found), SpaceFault>
    requires ready { IsReady (parts D.told D.len disk.old space.old.store) }
    requires none { space.old.store.book.actives ≡ [] }
    requires few { space.old.store.pool.geometry.pages ≤ 65536 }
    ensures ready { IsReady (parts D.told D.len disk.new space.new.store) }
    ensures none { OnOk result (space.new.store.book.actives ≡ []) }
    ensures few { OnOk result (space.new.store.pool.geometry.pages ≤ 65536) }
{
    let tx = space.begin(disk)?;
    let found = take_back(alloc, space, disk, &tx);
    space.abort(disk, tx)?;
    found
}

/// The second one, which is committed.
fn second<D: Disk>(alloc: Global, space: &mut Space, disk: &mut D) -> Result<Found, SpaceFault>
    requires ready { IsReady (parts D.told D.len disk.old space.old.store) }
    requires none { space.old.store.book.actives ≡ [] }
    requires few { space.old.store.pool.geometry.pages ≤ 65536 }
    ensures ready { IsReady (parts D.told D.len disk.new space.new.store) }
    ensures none { OnOk result (space.new.store.book.actives ≡ []) }
    ensures few { OnOk result (space.new.store.pool.geometry.pages ≤ 65536) }
{
    let tx = space.begin(disk)?;
    let found = take_two(alloc, space, disk, &tx);
    space.commit(disk, tx)?;
    found
}

/// What is found in a space behind a checkpoint.
fn seen<D: Disk>(alloc: Global, space: &mut Space, disk: &mut D) -> Result<Found, SpaceFault>
    requires ready { IsReady (parts D.told D.len disk.old space.old.store) }
    requires none { space.old.store.book.actives ≡ [] }
    requires few { space.old.store.pool.geometry.pages ≤ 65536 }
{
    space.checkpoint(disk)?;
    let tx = space.begin(disk)?;
    let found = look(alloc, space, disk, &tx);
    space.abort(disk, tx)?;
    found
}

/// Opens a space of 64 pages.
fn opened<D: Disk>(alloc: Global, disk: &mut D) -> Option<Space>
    ensures ready { IfSome result (λ s. IsReady (parts D.told D.len disk.new s.store)) }
    ensures none { IfSome result (λ s. s.store.book.actives ≡ []) }
    ensures few { IfSome result (λ s. s.store.pool.geometry.pages ≤ 65536) }
{
    let store = match Store::open(alloc, disk, 8) {
        Ok(store) => store,
        Err(_) => return None,
    };
    let space = Space { store };
    if space.pages() != PAGES {
        drop(space);
        return None;
    }
    Some(space)
}

/// What is found in the two transactions.
fn transact<D: Disk>(
    alloc: Global,
    space: &mut Space,
    disk: &mut D,
) -> Result<(Found, Found, Found), SpaceFault>
    requires ready { IsReady (parts D.told D.len disk.old space.old.store) }
    requires none { space.old.store.book.actives ≡ [] }
    requires few { space.old.store.pool.geometry.pages ≤ 65536 }
{
    let (both, one) = first(alloc, space, disk)?;
    let none = second(alloc, space, disk)?;
    Ok((both, one, none))
}

/// What is found once the store is opened again.
fn seen_again(alloc: Global, disk: &mut MemDisk) -> Option<Found> {
    let mut space = opened(alloc, disk)?;
    let found = seen(alloc, &mut space, disk);
    drop(space);
    found.ok()
}

/// What is found in the two transactions, and once the store is opened again.
fn run(alloc: Global, disk: &mut MemDisk) -> Option<(Found, Found, Found, Found)> {
    let mut space = opened(alloc, disk)?;
    let found = transact(alloc, &mut space, disk);
    drop(space);
    let (both, one, none) = found.ok()?;
    let kept = seen_again(alloc, disk)?;
    Some((both, one, none, kept))
}

#[test]
fn what_is_behind_a_mark_goes_and_what_is_committed_stays(rt: HostRuntime) {
    let alloc = rt.alloc();
    let mut disk = MemDisk::new(alloc, SIZE).expect(&rt, "memory");
    let made = format(alloc, &mut disk, PAGES, LOG).is_ok();
    let found = run(alloc, &mut disk);
    drop(disk);
    assert!(rt; made);
    let both = (Some(2), Some(3));
    let one = (Some(2), None);
    let none = (None, None);
    assert!(rt; found == Some((both, one, none, both)));
}
