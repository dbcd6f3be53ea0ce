//! Instances in a store of 64 pages, of which the table has the first and the catalogue the second.

ghost use Rattle.std.specs.Prelude.{◌≡◌};
ghost use Rattle.sb_space.specs.Durable.{parts_in};
ghost use Rattle.sb_space.specs.View.{lent};
ghost use Rattle.sb_space.specs.Works.{Serves};
ghost use Rattle.sb_txn.specs.Parts.{parts};

use crate::{LOG, PAGES, SIZE, opened};
use sb_disk::Disk;
use sb_drive::SpaceFault;
use sb_memdisk::MemDisk;
use sb_recover::format;
use sb_space::Durable;
use sb_txn::{Store, Tx};
use std::alloc::Global;

/// Two instances, and a third one when the first has ended.
type Three = ((u16, u32), (u16, u32), (u16, u32));

/// How many more there are then, and why no more.
type Rest = (u32, Option<SpaceFault>);

fn make_three<D: Disk>(alloc: Global, space: &mut Durable<'_, D>) -> Result<Three, SpaceFault>
    requires { Serves (lent space.old).tx (parts_in D.told D.len (lent space.old)) }
    ensures ready { Serves (lent space.old).tx (parts_in D.told D.len (lent space.new)) }
    ensures same_store { space.new.store.ghost_name ≡ space.old.store.ghost_name }
    ensures same_disk { space.new.disk.ghost_name ≡ space.old.disk.ghost_name }
    ensures same_tx { (lent space.new).tx ≡ (lent space.old).tx }
{
    let first = space.new_instance(alloc)?;
    let second = space.new_instance(alloc)?;
    space.free_owner(3)?;
    let third = space.new_instance(alloc)?;
    Ok((first, second, third))
}

fn fill<D: Disk>(alloc: Global, space: &mut Durable<'_, D>) -> Rest
    requires { Serves (lent space.old).tx (parts_in D.told D.len (lent space.old)) }
    ensures ready { Serves (lent space.old).tx (parts_in D.told D.len (lent space.new)) }
    ensures same_store { space.new.store.ghost_name ≡ space.old.store.ghost_name }
    ensures same_disk { space.new.disk.ghost_name ≡ space.old.disk.ghost_name }
{
    for made in 0..PAGES {
        if let Err(fault) = space.new_instance(alloc) {
            return (made, Some(fault));
        }
    }
    (PAGES, None)
}

/// The same of a store within a transaction, which is the only one.
fn in_store<D: Disk>(
    alloc: Global,
    store: &mut Store,
    disk: &mut D,
    tx: &Tx,
) -> Result<(Three, Rest), SpaceFault>
    requires { Serves tx.now.number (parts D.told D.len disk.old store.old) }
    ensures { Serves tx.now.number (parts D.told D.len disk.new store.new) }
{
    let mut space = Durable::new(store, disk, tx);
    let three = make_three(alloc, &mut space)?;
    Ok((three, fill(alloc, &mut space)))
}

/// The same in a transaction that is aborted then.
fn tried(alloc: Global, disk: &mut MemDisk) -> Option<(Three, Rest)> {
    let mut store = opened(alloc, disk)?;
    let Ok(tx) = store.begin(disk) else {
        drop(store);
        return None;
    };
    let found = in_store(alloc, &mut store, disk, &tx);
    let ended = store.abort(disk, tx);
    drop(store);
    match ended {
        Ok(()) => found.ok(),
        Err(_) => None,
    }
}

#[test]
fn a_new_instance_gets_the_least_owner_and_page(rt: HostRuntime) {
    let alloc = rt.alloc();
    let mut disk = MemDisk::new(alloc, SIZE).expect(&rt, "memory");
    let made = format(alloc, &mut disk, PAGES, LOG).is_ok();
    let first = tried(alloc, &mut disk);
    let again = tried(alloc, &mut disk);
    drop(disk);
    assert!(rt; made);
    let full = SpaceFault::DataFull {
        used: 64,
        total: 64,
    };
    let three = ((3, 2), (4, 3), (3, 2));
    let expected = Some((three, (60, Some(full))));
    assert!(rt; first == expected);
    assert!(rt; again == expected, "behind an abort");
}
