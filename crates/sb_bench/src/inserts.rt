//! Rows put into a relation in a store, a commit for each of them or one for all.

ghost use Rattle.std.specs.Prelude.{◌≡◌, OnOk};
ghost use Rattle.sb_ctx.specs.Method.{IsInstance};
ghost use Rattle.sb_drive.specs.MethodCalls.{Fits};
ghost use Rattle.sb_space.specs.Durable.{parts_in};
ghost use Rattle.sb_space.specs.View.{lent};
ghost use Rattle.sb_space.specs.Works.{Serves};
ghost use Rattle.sb_txn.specs.Parts.{parts};
ghost use Rattle.sb_bench.specs.Inserts.{IsVacant};
ghost use Rattle.sb_bench.specs.Rows.{KeepsShortRows};

use crate::rows::{FIRST, row};
use crate::watched::{Totals, watch};
use sb_ctx::{Instance, MethodCall, StorageMethod};
use sb_disk::Disk;
use sb_drive::SpaceFault;
use sb_space::{Durable, Space, Tx};
use std::alloc::Global;

/// How many rows are put in.
const ROWS: u32 = 1000;

/// The text of each of them.
const TEXT: &str = "xxxxxxxxxxxxxxxxxxxx";

/// A driven call.
fn drive<D: Disk>(
    alloc: Global,
    pages: &mut Durable<'_, D>,
    boxed: &dyn StorageMethod,
    inst: &Instance,
    call: &MethodCall,
) -> Result<Totals, SpaceFault>
    requires ready { Serves (lent pages.old).tx (parts_in D.told D.len (lent pages.old)) }
    requires inst { IsInstance (method boxed.now) inst.now }
    requires fits { Fits (method boxed.now) inst.now call.now }
    ensures ready { Serves (lent pages.old).tx (parts_in D.told D.len (lent pages.new)) }
    ensures same_store { pages.new.store.ghost_name ≡ pages.old.store.ghost_name }
    ensures same_disk { pages.new.disk.ghost_name ≡ pages.old.disk.ghost_name }
{
    watch(pages, alloc, boxed, inst, call)
}

/// The same within the space.
fn drive_in<D: Disk>(
    alloc: Global,
    space: &mut Space,
    disk: &mut D,
    tx: &Tx,
    boxed: &dyn StorageMethod,
    inst: &Instance,
    call: &MethodCall,
) -> Result<Totals, SpaceFault>
    requires ready { Serves tx.now.store.number (parts D.told D.len disk.old space.old.store) }
    requires inst { IsInstance (method boxed.now) inst.now }
    requires fits { Fits (method boxed.now) inst.now call.now }
    ensures { Serves tx.now.store.number (parts D.told D.len disk.new space.new.store) }
{
    let mut pages = Durable::new(&mut space.store, disk, &tx.store);
    drive(alloc, &mut pages, boxed, inst, call)
}

/// Makes an instance: whether it is the first one.
fn make_first<D: Disk>(
    alloc: Global,
    space: &mut Space,
    disk: &mut D,
    tx: &Tx,
) -> Result<bool, SpaceFault>
    requires { Serves tx.now.store.number (parts D.told D.len disk.old space.old.store) }
    ensures { Serves tx.now.store.number (parts D.told D.len disk.new space.new.store) }
{
    let mut pages = Durable::new(&mut space.store, disk, &tx.store);
    let first = pages.new_instance(alloc)?;
    Ok(first == FIRST)
}

/// Makes the first instance, and prepares it. Another one isn't prepared.
fn make<D: Disk>(
    alloc: Global,
    space: &mut Space,
    disk: &mut D,
    tx: &Tx,
    boxed: &dyn StorageMethod,
    inst: &Instance,
) -> Result<Totals, SpaceFault>
    requires ready { Serves tx.now.store.number (parts D.told D.len disk.old space.old.store) }
    requires inst { IsInstance (method boxed.now) inst.now }
    ensures { Serves tx.now.store.number (parts D.told D.len disk.new space.new.store) }
{
    if make_first(alloc, space, disk, tx)? {
        drive_in(alloc, space, disk, tx, boxed, inst, &MethodCall::Prepare)
    } else {
        Ok(Totals::none())
    }
}

/// Puts a row in.
fn put<D: Disk>(
    alloc: Global,
    space: &mut Space,
    disk: &mut D,
    tx: &Tx,
    boxed: &dyn StorageMethod,
    inst: &Instance,
    number: u32,
) -> Result<Totals, SpaceFault>
    requires ready { Serves tx.now.store.number (parts D.told D.len disk.old space.old.store) }
    requires keeps { KeepsShortRows (method boxed.now) inst.now }
    ensures { Serves tx.now.store.number (parts D.told D.len disk.new space.new.store) }
{
    let row = row(alloc, i64::from(number), TEXT)?;
    let call = MethodCall::Insert(row);
    drive_in(alloc, space, disk, tx, boxed, inst, &call)
}

/// Puts the rows with these numbers in.
fn put_all<D: Disk>(
    alloc: Global,
    space: &mut Space,
    disk: &mut D,
    tx: &Tx,
    boxed: &dyn StorageMethod,
    inst: &Instance,
    from: u32,
    to: u32,
) -> Result<Totals, SpaceFault>
    requires ready { Serves tx.now.store.number (parts D.told D.len disk.old space.old.store) }
    requires keeps { KeepsShortRows (method boxed.now) inst.now }
    ensures { Serves tx.now.store.number (parts D.told D.len disk.new space.new.store) }
{
    let mut totals = Totals::none();
    for number in from..to {
        let more = put(alloc, space, disk, tx, boxed, inst, number)?;
        totals = totals.with(more);
    }
    Ok(totals)
}

/// Commits what was done, or undoes it.
fn finish<D: Disk>(
    space: &mut Space,
    disk: &mut D,
    tx: Tx,
    done: Result<Totals, SpaceFault>,
) -> Result<Totals, SpaceFault>
    requires { Serves tx.store.number (parts D.told D.len disk.old space.old.store) }
    ensures { OnOk result (IsVacant (parts D.told D.len disk.new space.new.store)) }
{
    if done.is_ok() {
        space.commit(disk, tx)?;
    } else {
        space.abort(disk, tx)?;
    }
    done
}

/// Commits a transaction that makes the relation.
pub fn commit_first<D: Disk>(
    alloc: Global,
    space: &mut Space,
    disk: &mut D,
    boxed: &dyn StorageMethod,
    inst: &Instance,
) -> Result<Totals, SpaceFault>
    requires vacant { IsVacant (parts D.told D.len disk.old space.old.store) }
    requires inst { IsInstance (method boxed.now) inst.now }
    ensures { OnOk result (IsVacant (parts D.told D.len disk.new space.new.store)) }
{
    let tx = space.begin(disk)?;
    let done = make(alloc, space, disk, &tx, boxed, inst);
    finish(space, disk, tx, done)
}

/// Commits a transaction of the rows with these numbers.
fn commit_rows<D: Disk>(
    alloc: Global,
    space: &mut Space,
    disk: &mut D,
    boxed: &dyn StorageMethod,
    inst: &Instance,
    from: u32,
    to: u32,
) -> Result<Totals, SpaceFault>
    requires vacant { IsVacant (parts D.told D.len disk.old space.old.store) }
    requires keeps { KeepsShortRows (method boxed.now) inst.now }
    ensures { OnOk result (IsVacant (parts D.told D.len disk.new space.new.store)) }
{
    let tx = space.begin(disk)?;
    let done = put_all(alloc, space, disk, &tx, boxed, inst, from, to);
    finish(space, disk, tx, done)
}

/// Commits each of 1,000 rows by itself.
pub fn commit_each<D: Disk>(
    alloc: Global,
    space: &mut Space,
    disk: &mut D,
    boxed: &dyn StorageMethod,
    inst: &Instance,
) -> Result<Totals, SpaceFault>
    requires vacant { IsVacant (parts D.told D.len disk.old space.old.store) }
    requires keeps { KeepsShortRows (method boxed.now) inst.now }
    ensures { OnOk result (IsVacant (parts D.told D.len disk.new space.new.store)) }
{
    let mut totals = Totals::none();
    for number in 0..ROWS {
        let more = commit_rows(alloc, space, disk, boxed, inst, number, number + 1)?;
        totals = totals.with(more);
    }
    Ok(totals)
}

/// Commits 1,000 rows together.
pub fn commit_all<D: Disk>(
    alloc: Global,
    space: &mut Space,
    disk: &mut D,
    boxed: &dyn StorageMethod,
    inst: &Instance,
) -> Result<Totals, SpaceFault>
    requires vacant { IsVacant (parts D.told D.len disk.old space.old.store) }
    requires keeps { KeepsShortRows (method boxed.now) inst.now }
    ensures { OnOk result (IsVacant (parts D.told D.len disk.new space.new.store)) }
{
    commit_rows(alloc, space, disk, boxed, inst, 0, ROWS)
}
