//! Pages that a box asks for by their numbers.

ghost use Rattle.std.specs.Prelude.{OnOk};
ghost use Rattle.sb_space.specs.Works.{Serves};
ghost use Rattle.sb_turns_tests.specs.Turns.{IsAtRest};
ghost use Rattle.sb_txn.specs.Parts.{parts};

use super::{finish, formatted, make, seen_in, tell};
use sb_disk::Disk;
use sb_drive::SpaceFault;
use sb_space::{Space, Tx};
use sb_space_tests::opened;
use std::alloc::Global;

/// What a box is told, by its number, and the page that it calls broken then, since it gets no bytes of it.
const ORDERS: [(u8, [u8; 3], Option<u32>); 9] = [
    // The other one's root, the table's page, the catalogue's, and nobody's.
    (1, *b"w2x", Some(2)),
    (0, *b"w3x", Some(3)),
    (1, *b"f2-", Some(2)),
    (0, *b"w0x", Some(0)),
    (0, *b"w1x", Some(1)),
    (1, *b"w9x", Some(9)),
    // A page that was asked for by its number while it was nobody's, and is the least one, is the next fresh page.
    (0, *b"a4p", None),
    // One that isn't the least one isn't, nor is the other one's.
    (1, *b"a7q", None),
    (1, *b"a4r", None),
];

/// Tells the boxes one after another what to do, up to the first that ends otherwise: whether there is none.
fn tell_all<D: Disk>(alloc: Global, space: &mut Space, disk: &mut D, tx: &Tx) -> bool
    requires { Serves tx.now.store.number (parts D.told D.len disk.old space.old.store) }
    ensures { Serves tx.now.store.number (parts D.told D.len disk.new space.new.store) }
{
    for (number, order, broken) in ORDERS.iter() {
        let expected = match *broken {
            Some(page) => Err(SpaceFault::Damaged { page }),
            None => Ok(()),
        };
        if tell(alloc, space, disk, tx, *number, *order) != expected {
            return false;
        }
    }
    true
}

/// The same in a transaction that is committed, behind the one that makes the instances.
fn transact<D: Disk>(alloc: Global, space: &mut Space, disk: &mut D) -> Result<bool, SpaceFault>
    requires { IsAtRest (parts D.told D.len disk.old space.old.store) }
{
    let _made = make(alloc, space, disk)?;
    let tx = space.begin(disk)?;
    let told = tell_all(alloc, space, disk, &tx);
    finish(space, disk, tx, true)?;
    Ok(told)
}

/// The same over a store that is opened.
fn told<D: Disk>(alloc: Global, disk: &mut D) -> Option<bool> {
    let store = opened(alloc, disk)?;
    let mut space = Space { store };
    let told = transact(alloc, &mut space, disk);
    drop(space);
    told.ok()
}

#[test]
fn a_page_of_another_owner_has_no_bytes_and_a_free_one_is_fresh(rt: HostRuntime) {
    let alloc = rt.alloc();
    let mut disk = formatted(alloc).expect(&rt, "memory");
    let told = told(alloc, &mut disk);
    let seen = seen_in(alloc, &mut disk);
    drop(disk);
    assert!(rt; told == Some(true));
    assert!(rt; seen == Some([*b"..0.p...", *b"...0.qr."]));
}
