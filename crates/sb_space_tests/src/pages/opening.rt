//! What no clause says: that a store opens where memory lasts. And entries of its table that are turned.

use crate::{LOG, PAGES, SIZE};
use sb_disk::Disk;
use sb_memdisk::MemDisk;
use sb_recover::{OpenFault, format};
use sb_space::{catalogue, open_store, owner_of};
use std::alloc::{AllocError, Global};

/// Where the first page of the table begins.
const TABLE_AT: u64 = 2_166_784;

/// A disk with a new store, or without one where that can't be made.
fn formatted(alloc: Global) -> Result<MemDisk, AllocError> {
    let mut disk = MemDisk::new(alloc, SIZE)?;
    let _made = format(alloc, &mut disk, PAGES, LOG).is_ok();
    Ok(disk)
}

/// The owner of a page, of a store that is opened for it.
fn owner_in<D: Disk>(alloc: Global, disk: &mut D, n: u32) -> Option<u16> {
    let mut store = open_store(alloc, disk, 8).ok()?;
    if n >= store.pages() {
        drop(store);
        return None;
    }
    let owner = owner_of(&mut store, disk, n);
    drop(store);
    owner.ok()
}

/// Where the catalogue is.
fn catalogue_in<D: Disk>(alloc: Global, disk: &mut D) -> Option<(u16, u32)> {
    let store = open_store(alloc, disk, 8).ok()?;
    let found = catalogue(&store);
    drop(store);
    Some(found)
}

/// Pages, and whose they are.
const OWNERS: [(u32, u16); 3] = [(0, 1), (1, 2), (2, 0)];

#[test]
fn owners_in_a_new_store(rt: HostRuntime) {
    let alloc = rt.alloc();
    let mut disk = formatted(alloc).expect(&rt, "memory");
    for (page, owner) in OWNERS.iter() {
        assert!(rt; owner_in(alloc, &mut disk, *page) == Some(*owner));
    }
    let found = catalogue_in(alloc, &mut disk);
    drop(disk);
    assert!(rt; found == Some((2, 1)));
}

/// The page that is called damaged where an entry is turned, if one is.
fn damaged_by<D: Disk>(alloc: Global, disk: &mut D, entry: u16, owner: u8) -> Option<u32> {
    let at = TABLE_AT + 2 * u64::from(entry) + 1;
    if disk.len() <= at || disk.write_at(at, &[owner]).is_err() || disk.sync().is_err() {
        return None;
    }
    match open_store(alloc, disk, 8) {
        Ok(store) => {
            drop(store);
            None
        }
        Err(OpenFault::Damaged { page }) => Some(page),
        Err(_) => None,
    }
}

/// Entries, the owners to which they are turned, and the page that is called damaged then.
const TURNED: [(u16, u8, Option<u32>); 4] = [
    (0, 2, Some(0)),
    (5, 1, Some(0)),
    (64, 3, Some(0)),
    (63, 3, None),
];

#[test]
fn turned_entries(rt: HostRuntime) {
    let alloc = rt.alloc();
    for (entry, owner, page) in TURNED.iter() {
        let mut disk = formatted(alloc).expect(&rt, "memory");
        let found = damaged_by(alloc, &mut disk, *entry, *owner);
        drop(disk);
        assert!(rt; found == *page);
    }
}
