//! What no clause says: that a store is made where memory lasts. And the refusals with their numbers.

use sb_disk::Disk;
use sb_images::need;
use sb_memdisk::MemDisk;
use sb_recover::{OpenFault, format, owners_stand, restart};
use std::alloc::{AllocError, Global};
use std::test::Fail;

const PAGES: u32 = 64;

const LOG: u64 = 2_097_152;

/// The bytes that such a store takes.
const NEED: u64 = 2_428_928;

// A disk of so many zeros, but for its first byte.
fn disk_of(alloc: Global, size: u64, first: u8) -> Result<MemDisk, AllocError> {
    let mut disk = MemDisk::new(alloc, size)?;
    if disk.len() > 0 && disk.write_at(0, &[first]).is_err() {
        return Err(AllocError);
    }
    Ok(disk)
}

// What making a store answers, in words.
fn answer<D: Disk>(alloc: Global, disk: &mut D) -> &'static str {
    match format(alloc, disk, PAGES, LOG) {
        Ok(g) if g.pages == PAGES && g.log == LOG && g.version == 1 => "a store",
        Ok(_) => "another store",
        Err(OpenFault::TooSmall { have, need }) if have == NEED - 1 && need == NEED => "too small",
        Err(OpenFault::AlreadyStore) => "already a store",
        Err(_) => "another refusal",
    }
}

#[test]
fn needs(rt: HostRuntime) {
    owners_stand();
    assert_eq!(rt; need(PAGES, LOG), NEED);
}

#[test]
fn a_disk_too_small(rt: HostRuntime) -> Result<(), Fail> {
    let mut small = disk_of(rt.alloc(), NEED - 1, 0)?;
    assert_eq!(rt; answer(rt.alloc(), &mut small), "too small");
    Ok(())
}

#[test]
fn a_new_store(rt: HostRuntime) -> Result<(), Fail> {
    let mut disk = disk_of(rt.alloc(), NEED, 0)?;
    assert_eq!(rt; answer(rt.alloc(), &mut disk), "a store");
    assert_eq!(rt; answer(rt.alloc(), &mut disk), "already a store");
    Ok(())
}

// The sizes that a restart finds, and the version.
fn restarted<D: Disk>(alloc: Global, disk: &mut D) -> Option<(u32, u64, u16)> {
    let g = restart(alloc, disk).ok()?;
    Some((g.pages, g.log, g.version))
}

#[test]
fn a_new_store_restarts(rt: HostRuntime) -> Result<(), Fail> {
    let mut disk = disk_of(rt.alloc(), NEED, 0)?;
    assert_eq!(rt; answer(rt.alloc(), &mut disk), "a store");
    assert_eq!(rt; restarted(rt.alloc(), &mut disk), Some((PAGES, LOG, 1)));
    Ok(())
}

#[test]
fn an_open_gate_alone(rt: HostRuntime) -> Result<(), Fail> {
    let mut disk = disk_of(rt.alloc(), NEED, 0xA5)?;
    assert_eq!(rt; answer(rt.alloc(), &mut disk), "a store");
    Ok(())
}
