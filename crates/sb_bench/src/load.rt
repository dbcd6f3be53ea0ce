//! Transactions over the first pages of a store.

ghost use Rattle.std.specs.Prelude.{OnOk};
ghost use Rattle.sb_txn.specs.Parts.{parts};
ghost use Rattle.sb_bench.specs.Load.{IsAtRest, IsBusy};

use sb_disk::Disk;
use sb_txn::{Store, StoreFault, Tx};

/// How many pages are changed.
pub const PAGES: u32 = 64;

/// How many changes a load makes.
const CHANGES: u32 = 1000;

/// Makes the change with this number, of 8 bytes in front of its page.
fn change<D: Disk>(store: &mut Store, disk: &mut D, tx: &Tx, number: u32) -> Result<(), StoreFault>
    requires { IsBusy tx.now.number (parts D.told D.len disk.old store.old) }
    ensures { IsBusy tx.now.number (parts D.told D.len disk.new store.new) }
{
    let bytes = u64::from(number).to_be_bytes();
    store.change(disk, tx, 1, number % PAGES, 0, &bytes)
}

/// Makes the changes with these numbers.
fn change_all<D: Disk>(
    store: &mut Store,
    disk: &mut D,
    tx: &Tx,
    from: u32,
    to: u32,
) -> Result<(), StoreFault>
    requires { IsBusy tx.now.number (parts D.told D.len disk.old store.old) }
    ensures { IsBusy tx.now.number (parts D.told D.len disk.new store.new) }
{
    for number in from..to {
        change(store, disk, tx, number)?;
    }
    Ok(())
}

/// Commits what was done, or undoes it.
fn finish<D: Disk>(
    store: &mut Store,
    disk: &mut D,
    tx: Tx,
    done: Result<(), StoreFault>,
) -> Result<(), StoreFault>
    requires { IsBusy tx.number (parts D.told D.len disk.old store.old) }
    ensures { OnOk result (IsAtRest (parts D.told D.len disk.new store.new)) }
{
    if let Err(fault) = done {
        let _ended = store.abort(disk, tx).is_ok();
        return Err(fault);
    }
    store.commit(disk, tx)?;
    Ok(())
}

/// Commits a transaction of the changes with these numbers.
fn commit_changes<D: Disk>(
    store: &mut Store,
    disk: &mut D,
    from: u32,
    to: u32,
) -> Result<(), StoreFault>
    requires { IsAtRest (parts D.told D.len disk.old store.old) }
    ensures { OnOk result (IsAtRest (parts D.told D.len disk.new store.new)) }
{
    let tx = store.begin(disk)?;
    let done = change_all(store, disk, &tx, from, to);
    finish(store, disk, tx, done)
}

/// Commits each of 1,000 changes by itself.
pub fn commit_each<D: Disk>(store: &mut Store, disk: &mut D) -> Result<(), StoreFault>
    requires { IsAtRest (parts D.told D.len disk.old store.old) }
    ensures { OnOk result (IsAtRest (parts D.told D.len disk.new store.new)) }
{
    for number in 0..CHANGES {
        commit_changes(store, disk, number, number + 1)?;
    }
    Ok(())
}

/// Takes a checkpoint.
pub fn checkpoint<D: Disk>(store: &mut Store, disk: &mut D) -> Result<(), StoreFault>
    requires { IsAtRest (parts D.told D.len disk.old store.old) }
    ensures { OnOk result (IsAtRest (parts D.told D.len disk.new store.new)) }
{
    store.checkpoint(disk)
}

/// Commits 1,000 changes together.
pub fn commit_all<D: Disk>(store: &mut Store, disk: &mut D) -> Result<(), StoreFault>
    requires { IsAtRest (parts D.told D.len disk.old store.old) }
    ensures { OnOk result (IsAtRest (parts D.told D.len disk.new store.new)) }
{
    commit_changes(store, disk, 0, CHANGES)
}
