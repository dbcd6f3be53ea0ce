//! An instance in each half, with savepoints, an abort and a commit over both, and a store that is opened again.

ghost use Rattle.std.specs.Prelude.{◌≡◌, ◌≤◌, [], length, OnOk, IfSome};
ghost use Rattle.sb_space.specs.Durable.{parts_in};
ghost use Rattle.sb_space.specs.Transactions.{KeepsChanges};
ghost use Rattle.sb_space.specs.View.{lent};
ghost use Rattle.sb_space.specs.Works.{Serves};
ghost use Rattle.sb_txn.specs.Clauses.{IsReady};
ghost use Rattle.sb_txn.specs.Parts.{parts};

use sb_ctx::Ctx;
use sb_disk::Disk;
use sb_drive::{Ask, PageSpace, SpaceFault};
use sb_halves::{Halves, Tx};
use sb_memdisk::MemDisk;
use sb_memory::Memory;
use sb_recover::format;
use sb_space::{Durable, Space};
use sb_txn::Store;
use std::alloc::Global;
use std::test::*;

/// The smallest store, and the bytes that it takes of a disk.
const PAGES: u32 = 64;

const LOG: u64 = 2_097_152;

const SIZE: u64 = 2_428_928;

/// Whose pages are taken, in either half.
const OWNER: u16 = 3;

/// The first page of the owner in the store, and the next one behind it.
type Found = (Option<u32>, Option<u32>);

/// What is found in the store, and how many of the first two pages in memory are the owner's.
type Both = (Found, u32);

/// Takes a fresh page for the owner.
fn take_page<D: Disk>(alloc: Global, pages: &mut Durable<'_, D>) -> Result<(), SpaceFault>
    requires { Serves (lent pages.old).tx (parts_in D.told D.len (lent pages.old)) }
    ensures ready { Serves (lent pages.old).tx (parts_in D.told D.len (lent pages.new)) }
    ensures same_store { pages.new.store.ghost_name ≡ pages.old.store.ghost_name }
    ensures same_disk { pages.new.disk.ghost_name ≡ pages.old.disk.ghost_name }
    ensures changes { KeepsChanges (lent pages.old).tx pages.old.store.now.book pages.new.store.now.book }
{
    let mut ctx = Ctx::new(alloc);
    if let Err(fault) = pages.answer(OWNER, &mut ctx, Ask::Fresh) {
        drop(ctx);
        return Err(fault);
    }
    let _page = ctx.fresh();
    let stored = pages.store(alloc, OWNER, &ctx);
    drop(ctx);
    stored
}

/// The owner's next page behind this one, or its first one.
fn next_page<D: Disk>(
    alloc: Global,
    pages: &mut Durable<'_, D>,
    low: Option<u32>,
) -> Result<Option<u32>, SpaceFault>
    requires { Serves (lent pages.old).tx (parts_in D.told D.len (lent pages.old)) }
    ensures ready { Serves (lent pages.old).tx (parts_in D.told D.len (lent pages.new)) }
    ensures same_store { pages.new.store.ghost_name ≡ pages.old.store.ghost_name }
    ensures same_disk { pages.new.disk.ghost_name ≡ pages.old.disk.ghost_name }
    ensures changes { KeepsChanges (lent pages.old).tx pages.old.store.now.book pages.new.store.now.book }
{
    let mut ctx = Ctx::new(alloc);
    let answered = pages.answer(OWNER, &mut ctx, Ask::After(low));
    let after = ctx.after(low).unwrap_or(None);
    drop(ctx);
    match answered {
        Ok(()) => Ok(after),
        Err(fault) => Err(fault),
    }
}

/// Takes a page of the space.
fn take<D: Disk>(
    alloc: Global,
    space: &mut Space,
    disk: &mut D,
    tx: &sb_space::Tx,
) -> Result<(), SpaceFault>
    requires { Serves tx.now.store.number (parts D.told D.len disk.old space.old.store) }
    ensures ready { Serves tx.now.store.number (parts D.told D.len disk.new space.new.store) }
    ensures changes { KeepsChanges tx.now.store.number space.old.store.book space.new.store.book }
{
    let mut pages = Durable::new(&mut space.store, disk, &tx.store);
    take_page(alloc, &mut pages)
}

/// What is found of the owner.
fn look<D: Disk>(
    alloc: Global,
    space: &mut Space,
    disk: &mut D,
    tx: &sb_space::Tx,
) -> Result<Found, SpaceFault>
    requires { Serves tx.now.store.number (parts D.told D.len disk.old space.old.store) }
    ensures ready { Serves tx.now.store.number (parts D.told D.len disk.new space.new.store) }
    ensures changes { KeepsChanges tx.now.store.number space.old.store.book space.new.store.book }
{
    let first = next(alloc, space, disk, tx, None)?;
    let second = next(alloc, space, disk, tx, first)?;
    Ok((first, second))
}

/// The owner's next page in the space.
fn next<D: Disk>(
    alloc: Global,
    space: &mut Space,
    disk: &mut D,
    tx: &sb_space::Tx,
    low: Option<u32>,
) -> Result<Option<u32>, SpaceFault>
    requires { Serves tx.now.store.number (parts D.told D.len disk.old space.old.store) }
    ensures ready { Serves tx.now.store.number (parts D.told D.len disk.new space.new.store) }
    ensures changes { KeepsChanges tx.now.store.number space.old.store.book space.new.store.book }
{
    let mut pages = Durable::new(&mut space.store, disk, &tx.store);
    next_page(alloc, &mut pages, low)
}

/// Takes a fresh page in memory for the owner.
fn take_in_memory(alloc: Global, memory: &mut Memory) -> Result<(), SpaceFault>
    ensures { length memory.old.past ≤ length memory.new.past }
{
    let mut ctx = Ctx::new(alloc);
    if let Err(fault) = memory.answer(OWNER, &mut ctx, Ask::Fresh) {
        drop(ctx);
        return Err(fault);
    }
    let _page = ctx.fresh();
    let stored = memory.store(alloc, OWNER, &ctx);
    drop(ctx);
    stored
}

/// Takes a page in each half.
fn take_both<D: Disk>(
    alloc: Global,
    halves: &mut Halves,
    disk: &mut D,
    tx: &Tx,
) -> Result<(), SpaceFault>
    requires { Serves tx.now.durable.store.number (parts D.told D.len disk.old halves.old.durable.store) }
    ensures ready { Serves tx.now.durable.store.number (parts D.told D.len disk.new halves.new.durable.store) }
    ensures changes { KeepsChanges tx.now.durable.store.number halves.old.durable.store.book halves.new.durable.store.book }
    ensures writes { length halves.old.volatile.past ≤ length halves.new.volatile.past }
{
    take(alloc, &mut halves.durable, disk, &tx.durable)?;
    take_in_memory(alloc, &mut halves.volatile)
}

/// What is found in each half.
fn look_at_both<D: Disk>(
    alloc: Global,
    halves: &mut Halves,
    disk: &mut D,
    tx: &Tx,
) -> Result<Both, SpaceFault>
    requires { Serves tx.now.durable.store.number (parts D.told D.len disk.old halves.old.durable.store) }
    ensures ready { Serves tx.now.durable.store.number (parts D.told D.len disk.new halves.new.durable.store) }
    ensures changes { KeepsChanges tx.now.durable.store.number halves.old.durable.store.book halves.new.durable.store.book }
    ensures same { halves.new.volatile ≡ halves.old.volatile }
{
    let found = look(alloc, &mut halves.durable, disk, &tx.durable)?;
    let first = u32::from(halves.volatile.owner_of(0) == OWNER);
    let second = u32::from(halves.volatile.owner_of(1) == OWNER);
    Ok((found, first.saturating_add(second)))
}

/// Takes a page in each half, and another one behind a savepoint, and goes back to the savepoint: what is found before that and behind it.
fn take_back<D: Disk>(
    alloc: Global,
    halves: &mut Halves,
    disk: &mut D,
    tx: &Tx,
) -> Result<(Both, Both), SpaceFault>
    requires { Serves tx.now.durable.store.number (parts D.told D.len disk.old halves.old.durable.store) }
    ensures ready { Serves tx.now.durable.store.number (parts D.told D.len disk.new halves.new.durable.store) }
{
    take_both(alloc, halves, disk, tx)?;
    let mark = halves.mark(tx);
    take_both(alloc, halves, disk, tx)?;
    let two = look_at_both(alloc, halves, disk, tx)?;
    halves.back_to(disk, tx, mark)?;
    let one = look_at_both(alloc, halves, disk, tx)?;
    Ok((two, one))
}

/// Takes two pages in each half: what is found before them.
fn take_two<D: Disk>(
    alloc: Global,
    halves: &mut Halves,
    disk: &mut D,
    tx: &Tx,
) -> Result<Both, SpaceFault>
    requires { Serves tx.now.durable.store.number (parts D.told D.len disk.old halves.old.durable.store) }
    ensures ready { Serves tx.now.durable.store.number (parts D.told D.len disk.new halves.new.durable.store) }
{
    let none = look_at_both(alloc, halves, disk, tx)?;
    take_both(alloc, halves, disk, tx)?;
    take_both(alloc, halves, disk, tx)?;
    Ok(none)
}

/// The first transaction, which is aborted.
fn first<D: Disk>(
    alloc: Global,
    halves: &mut Halves,
    disk: &mut D,
) -> Result<(Both, Both), SpaceFault>
    requires ready { IsReady (parts D.told D.len disk.old halves.old.durable.store) }
    requires none { halves.old.durable.store.book.actives ≡ [] }
    requires few { halves.old.durable.store.pool.geometry.pages ≤ 65536 }
    ensures ready { IsReady (parts D.told D.len disk.new halves.new.durable.store) }
    ensures none { OnOk result (halves.new.durable.store.book.actives ≡ []) }
    ensures few { OnOk result (halves.new.durable.store.pool.geometry.pages ≤ 65536) }
{
    let tx = halves.begin(disk)?;
    let found = take_back(alloc, halves, disk, &tx);
    halves.abort(disk, tx)?;
    found
}

/// The second one, which is committed.
fn second<D: Disk>(alloc: Global, halves: &mut Halves, disk: &mut D) -> Result<Both, SpaceFault>
    requires ready { IsReady (parts D.told D.len disk.old halves.old.durable.store) }
    requires none { halves.old.durable.store.book.actives ≡ [] }
    requires few { halves.old.durable.store.pool.geometry.pages ≤ 65536 }
    ensures ready { IsReady (parts D.told D.len disk.new halves.new.durable.store) }
    ensures none { OnOk result (halves.new.durable.store.book.actives ≡ []) }
    ensures few { OnOk result (halves.new.durable.store.pool.geometry.pages ≤ 65536) }
{
    let tx = halves.begin(disk)?;
    let found = take_two(alloc, halves, disk, &tx);
    halves.commit(disk, tx)?;
    found
}

/// What is found behind a checkpoint.
fn seen<D: Disk>(alloc: Global, halves: &mut Halves, disk: &mut D) -> Result<Both, SpaceFault>
    requires ready { IsReady (parts D.told D.len disk.old halves.old.durable.store) }
    requires none { halves.old.durable.store.book.actives ≡ [] }
    requires few { halves.old.durable.store.pool.geometry.pages ≤ 65536 }
{
    halves.checkpoint(disk)?;
    let tx = halves.begin(disk)?;
    let found = look_at_both(alloc, halves, disk, &tx);
    halves.abort(disk, tx)?;
    found
}

/// Opens a store of 64 pages beside a memory without pages.
fn opened<D: Disk>(alloc: Global, disk: &mut D) -> Option<Halves>
    ensures ready { IfSome result (λ h. IsReady (parts D.told D.len disk.new h.durable.store)) }
    ensures none { IfSome result (λ h. h.durable.store.book.actives ≡ []) }
    ensures few { IfSome result (λ h. h.durable.store.pool.geometry.pages ≤ 65536) }
{
    let store = match Store::open(alloc, disk, 8) {
        Ok(store) => store,
        Err(_) => return None,
    };
    let durable = Space { store };
    if durable.pages() != PAGES {
        drop(durable);
        return None;
    }
    let volatile = Memory::new(alloc);
    Some(Halves { durable, volatile })
}

/// What is found in the two transactions, and behind them.
fn both<D: Disk>(
    alloc: Global,
    halves: &mut Halves,
    disk: &mut D,
) -> Result<((Both, Both), Both, Both), SpaceFault>
    requires ready { IsReady (parts D.told D.len disk.old halves.old.durable.store) }
    requires none { halves.old.durable.store.book.actives ≡ [] }
    requires few { halves.old.durable.store.pool.geometry.pages ≤ 65536 }
{
    let two = first(alloc, halves, disk)?;
    let none = second(alloc, halves, disk)?;
    let kept = seen(alloc, halves, disk)?;
    Ok((two, none, kept))
}

/// The same by a store that is opened.
fn run<D: Disk>(alloc: Global, disk: &mut D) -> Option<((Both, Both), Both, Both)> {
    let mut halves = opened(alloc, disk)?;
    let found = both(alloc, &mut halves, disk);
    drop(halves);
    found.ok()
}

/// What is found once the store is opened again over a new memory.
fn again<D: Disk>(alloc: Global, disk: &mut D) -> Option<Both> {
    let mut halves = opened(alloc, disk)?;
    let found = seen(alloc, &mut halves, disk);
    drop(halves);
    found.ok()
}

#[test]
fn both_halves_go_back_and_the_store_stays(rt: HostRuntime) {
    let alloc = rt.alloc();
    let mut disk = MemDisk::new(alloc, SIZE).expect(&rt, "memory");
    let made = format(alloc, &mut disk, PAGES, LOG).is_ok();
    let ran = run(alloc, &mut disk);
    let durable = again(alloc, &mut disk);
    drop(disk);
    let pages = (Some(2), Some(3));
    let two = (pages, 2);
    let one = ((Some(2), None), 1);
    let none = ((None, None), 0);
    let is_so = ran == Some(((two, one), none, two));
    assert!(rt; made && is_so && durable == Some((pages, 0)));
}
