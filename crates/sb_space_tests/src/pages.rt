//! A store of 64 pages that fills: each page that a call takes becomes its owner's, until all are used.

ghost use Rattle.std.specs.Prelude.{◌≡◌};
ghost use Rattle.sb_space.specs.Durable.{parts_in};
ghost use Rattle.sb_space.specs.View.{lent};
ghost use Rattle.sb_txn.specs.Parts.{parts};
ghost use Rattle.sb_space.specs.Works.{Serves};

mod instances;
mod opening;

use crate::{LOG, PAGES, SIZE, opened};
use sb_ctx::Ctx;
use sb_disk::Disk;
use sb_drive::{Ask, PageSpace, SpaceFault};
use sb_memdisk::MemDisk;
use sb_recover::format;
use sb_space::Durable;
use sb_txn::{Store, Tx};
use std::alloc::Global;

/// Takes a fresh page for owner 3.
fn take_one<D: Disk>(alloc: Global, space: &mut Durable<'_, D>) -> Result<(), SpaceFault>
    requires { Serves (lent space.old).tx (parts_in D.told D.len (lent space.old)) }
    ensures ready { Serves (lent space.new).tx (parts_in D.told D.len (lent space.new)) }
    ensures same_store { space.new.store.ghost_name ≡ space.old.store.ghost_name }
    ensures same_disk { space.new.disk.ghost_name ≡ space.old.disk.ghost_name }
    ensures same_tx { (lent space.new).tx ≡ (lent space.old).tx }
{
    let mut ctx = Ctx::new(alloc);
    if let Err(fault) = space.answer(3, &mut ctx, Ask::Fresh) {
        drop(ctx);
        return Err(fault);
    }
    let _page = ctx.fresh();
    let stored = space.store(alloc, 3, &ctx);
    drop(ctx);
    stored
}

/// How many pages can be taken, and why no more.
fn fill<D: Disk>(alloc: Global, space: &mut Durable<'_, D>) -> (u32, Option<SpaceFault>)
    requires { Serves (lent space.old).tx (parts_in D.told D.len (lent space.old)) }
    ensures ready { Serves (lent space.old).tx (parts_in D.told D.len (lent space.new)) }
    ensures same_store { space.new.store.ghost_name ≡ space.old.store.ghost_name }
    ensures same_disk { space.new.disk.ghost_name ≡ space.old.disk.ghost_name }
{
    for taken in 0..PAGES {
        if let Err(fault) = take_one(alloc, space) {
            return (taken, Some(fault));
        }
    }
    (PAGES, None)
}

/// The same of a store within a transaction, which is the only one.
fn fill_store<D: Disk>(
    alloc: Global,
    store: &mut Store,
    disk: &mut D,
    tx: &Tx,
) -> (u32, Option<SpaceFault>)
    requires { Serves tx.now.number (parts D.told D.len disk.old store.old) }
    ensures { Serves tx.now.number (parts D.told D.len disk.new store.new) }
{
    let mut space = Durable::new(store, disk, tx);
    fill(alloc, &mut space)
}

/// How many pages of a new store can be taken, and why no more. Then they are given back.
fn filled(alloc: Global, disk: &mut MemDisk) -> Option<(u32, Option<SpaceFault>)> {
    let mut store = opened(alloc, disk)?;
    let Ok(tx) = store.begin(disk) else {
        drop(store);
        return None;
    };
    let found = fill_store(alloc, &mut store, disk, &tx);
    let ended = store.abort(disk, tx);
    drop(store);
    match ended {
        Ok(()) => Some(found),
        Err(_) => None,
    }
}

#[test]
fn all_pages_but_the_table_and_the_catalogue_can_be_taken(rt: HostRuntime) {
    let alloc = rt.alloc();
    let mut disk = MemDisk::new(alloc, SIZE).expect(&rt, "memory");
    let made = format(alloc, &mut disk, PAGES, LOG).is_ok();
    let found = filled(alloc, &mut disk);
    drop(disk);
    assert!(rt; made);
    let full = SpaceFault::DataFull {
        used: 64,
        total: 64,
    };
    assert!(rt; found == Some((62, Some(full))));
}
