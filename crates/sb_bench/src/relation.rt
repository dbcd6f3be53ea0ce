//! What inserts into a relation cost, over a disk in memory.

ghost use Rattle.std.specs.Prelude.{IfSome};
ghost use Rattle.sb_txn.specs.Parts.{parts};
ghost use Rattle.sb_bench.specs.Inserts.{IsVacant};
ghost use Rattle.sb_bench.specs.Rows.{KeepsShortRows};

use crate::counted::{Cost, Counted};
use crate::inserts::{commit_all, commit_each, commit_first};
use crate::scratch::Scratch;
use crate::watched::Totals;
use sb_ctx::{Instance, StorageMethod};
use sb_disk::Disk;
use sb_drive::SpaceFault;
use sb_recover::format;
use sb_space::Space;
use sb_txn::Store;
use std::alloc::Global;

/// The pages of the store.
const PAGES: u32 = 64;

/// The bytes of its log, the most that one may have, so that no checkpoint comes.
const LOG: u64 = 16_777_216;

/// The bytes that such a store takes of a disk.
const SIZE: usize = 17_108_992;

/// What 1,000 inserts cost and came to.
#[derive(Clone, Copy, Debug, PartialEq, Eq)]
pub struct Inserts {
    pub cost: Cost,
    pub totals: Totals,
}

/// Makes a store on the disk, and opens it.
fn new_space<D: Disk>(alloc: Global, disk: &mut D) -> Option<Space>
    ensures { IfSome result (λ space. IsVacant (parts D.told D.len disk.new space.store)) }
{
    format(alloc, disk, PAGES, LOG).ok()?;
    let store = Store::open(alloc, disk, 8).ok()?;
    if store.pages() != PAGES {
        return None;
    }
    Some(Space { store })
}

/// Makes the relation, and counts what its rows cost, with a commit for each or one for all.
fn run_inserts<D: Disk + Drop>(
    alloc: Global,
    space: &mut Space,
    disk: D,
    boxed: &dyn StorageMethod,
    inst: &Instance,
    each: bool,
) -> Result<Inserts, SpaceFault>
    requires vacant { IsVacant (parts D.told D.len disk space.old.store) }
    requires keeps { KeepsShortRows (method boxed.now) inst.now }
{
    let mut disk = Counted {
        disk,
        syncs: 0,
        written: 0,
    };
    commit_first(alloc, space, &mut disk, boxed, inst)?;
    let _first = disk.take_cost();
    let totals = if each {
        commit_each(alloc, space, &mut disk, boxed, inst)?
    } else {
        commit_all(alloc, space, &mut disk, boxed, inst)?
    };
    let cost = disk.take_cost();
    Ok(Inserts { cost, totals })
}

/// The costs in a new store.
pub fn measure_inserts(
    alloc: Global,
    boxed: &dyn StorageMethod,
    inst: &Instance,
    each: bool,
) -> Option<Inserts>
    requires { KeepsShortRows (method boxed.now) inst.now }
{
    let mut disk = Scratch::new(alloc, SIZE).ok()?;
    let mut space = new_space(alloc, &mut disk)?;
    run_inserts(alloc, &mut space, disk, boxed, inst, each).ok()
}
