//! A store of 64 pages that fills behind a savepoint.

ghost use Rattle.std.specs.Prelude.{OnOk};
ghost use Rattle.sb_space.specs.Transactions.{KeepsChanges};
ghost use Rattle.sb_space.specs.Works.{Serves};
ghost use Rattle.sb_turns_tests.specs.Turns.{IsAtRest};
ghost use Rattle.sb_txn.specs.Parts.{parts};

use super::{Seen, finish, formatted, look, make, seen_in, tell};
use sb_disk::Disk;
use sb_drive::SpaceFault;
use sb_space::{Space, Tx};
use sb_space_tests::{PAGES, opened};
use std::alloc::Global;

/// What is seen once other calls are driven over the full store, once it has gone back to the savepoint, and behind the call that comes then.
const FULL: Seen = [*b"..0..xxx", *b"...yz..."];

const BACK: Seen = [*b"..0.....", *b"...0...."];

const THEN: Seen = [*b"..0.....", *b"...0b..."];

const SEEN: [Seen; 3] = [FULL, BACK, THEN];

/// How many pages were taken, why no more, and whether all was seen that should be.
type Filled = (u32, Option<SpaceFault>, bool);

/// The first box takes fresh pages until one is refused.
fn fill<D: Disk>(
    alloc: Global,
    space: &mut Space,
    disk: &mut D,
    tx: &Tx,
) -> (u32, Option<SpaceFault>)
    requires { Serves tx.now.store.number (parts D.told D.len disk.old space.old.store) }
    ensures ready { Serves tx.now.store.number (parts D.told D.len disk.new space.new.store) }
    ensures changes { KeepsChanges tx.now.store.number space.old.store.book space.new.store.book }
{
    for taken in 0..PAGES {
        if let Err(fault) = tell(alloc, space, disk, tx, 0, *b"t-x") {
            return (taken, Some(fault));
        }
    }
    (PAGES, None)
}

/// A call that asks for no fresh page, one that frees a page, and one that takes it.
fn go_on<D: Disk>(
    alloc: Global,
    space: &mut Space,
    disk: &mut D,
    tx: &Tx,
) -> Result<Seen, SpaceFault>
    requires { Serves tx.now.store.number (parts D.told D.len disk.old space.old.store) }
    ensures ready { Serves tx.now.store.number (parts D.told D.len disk.new space.new.store) }
    ensures changes { KeepsChanges tx.now.store.number space.old.store.book space.new.store.book }
{
    tell(alloc, space, disk, tx, 1, *b"w3y")?;
    tell(alloc, space, disk, tx, 0, *b"f4-")?;
    tell(alloc, space, disk, tx, 1, *b"t-z")?;
    look(alloc, space, disk, tx)
}

/// Fills the store behind a savepoint, and goes back.
fn fill_and_go_back<D: Disk>(
    alloc: Global,
    space: &mut Space,
    disk: &mut D,
    tx: &Tx,
) -> Result<Filled, SpaceFault>
    requires { Serves tx.now.store.number (parts D.told D.len disk.old space.old.store) }
    ensures { Serves tx.now.store.number (parts D.told D.len disk.new space.new.store) }
{
    let mark = space.mark(tx);
    let (taken, fault) = fill(alloc, space, disk, tx);
    let full = go_on(alloc, space, disk, tx)?;
    space.back_to(disk, tx, mark)?;
    let back = look(alloc, space, disk, tx)?;
    tell(alloc, space, disk, tx, 1, *b"t-b")?;
    let then = look(alloc, space, disk, tx)?;
    Ok((taken, fault, [full, back, then] == SEEN))
}

/// The same in a transaction that is committed, behind the one that makes the instances.
fn transact<D: Disk>(alloc: Global, space: &mut Space, disk: &mut D) -> Result<Filled, SpaceFault>
    requires { IsAtRest (parts D.told D.len disk.old space.old.store) }
{
    let _made = make(alloc, space, disk)?;
    let tx = space.begin(disk)?;
    let filled = fill_and_go_back(alloc, space, disk, &tx);
    finish(space, disk, tx, true)?;
    filled
}

/// The same over a store that is opened.
fn filled<D: Disk>(alloc: Global, disk: &mut D) -> Option<Filled> {
    let store = opened(alloc, disk)?;
    let mut space = Space { store };
    let filled = transact(alloc, &mut space, disk);
    drop(space);
    filled.ok()
}

#[test]
fn a_full_store_gives_its_pages_back_at_a_savepoint(rt: HostRuntime) {
    let alloc = rt.alloc();
    let mut disk = formatted(alloc).expect(&rt, "memory");
    let filled = filled(alloc, &mut disk);
    let seen = seen_in(alloc, &mut disk);
    drop(disk);
    // The table, the catalogue and two roots have four of the pages.
    let full = SpaceFault::DataFull {
        used: 64,
        total: 64,
    };
    assert!(rt; filled == Some((60, Some(full), true)));
    assert!(rt; seen == Some(THEN));
}
