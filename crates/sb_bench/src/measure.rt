//! What the loads cost over a disk in memory.

ghost use Rattle.std.specs.Prelude.{IfSome};
ghost use Rattle.sb_txn.specs.Parts.{parts};
ghost use Rattle.sb_bench.specs.Load.{IsAtRest};

use crate::counted::{Cost, Counted};
use crate::load::{PAGES, checkpoint, commit_all, commit_each};
use sb_disk::Disk;
use sb_memdisk::MemDisk;
use sb_recover::format;
use sb_txn::{Store, StoreFault};
use std::alloc::Global;

/// The bytes of the log.
const LOG: u64 = 2_097_152;

/// The bytes that such a store takes of a disk.
const SIZE: u64 = 2_428_928;

/// What 1,000 commits of one change cost, a checkpoint, and one commit of 1,000 changes.
#[derive(Clone, Copy, Debug, PartialEq, Eq)]
pub struct Costs {
    pub each: Cost,
    pub checkpoint: Cost,
    pub all: Cost,
}

/// Makes a store on the disk, and opens it.
fn new_store<D: Disk>(alloc: Global, disk: &mut D) -> Option<Store>
    ensures { IfSome result (λ store. IsAtRest (parts D.told D.len disk.new store)) }
{
    format(alloc, disk, PAGES, LOG).ok()?;
    let store = Store::open(alloc, disk, 8).ok()?;
    if store.pages() < PAGES {
        return None;
    }
    Some(store)
}

/// Runs the three loads, one after the other, and counts what each costs.
fn run_loads<D: Disk + Drop>(store: &mut Store, disk: D) -> Result<Costs, StoreFault>
    requires { IsAtRest (parts D.told D.len disk store.old) }
{
    let mut disk = Counted {
        disk,
        syncs: 0,
        written: 0,
    };
    commit_each(store, &mut disk)?;
    let each = disk.take_cost();
    checkpoint(store, &mut disk)?;
    let checkpoint = disk.take_cost();
    commit_all(store, &mut disk)?;
    let all = disk.take_cost();
    Ok(Costs {
        each,
        checkpoint,
        all,
    })
}

/// The costs over a new store on a disk in memory.
pub fn measure(alloc: Global) -> Option<Costs> {
    let mut disk = MemDisk::new(alloc, SIZE).ok()?;
    let mut store = new_store(alloc, &mut disk)?;
    run_loads(&mut store, disk).ok()
}
