//! What no clause says: that calls succeed while memory lasts, and where the pages stand. And each call that fails, with the same call made again.

ghost use Rattle.std.specs.Prelude.{◌≡◌, Some, IfOk};
ghost use Rattle.sb_disk.specs.Moments.{IsSettled};
ghost use Rattle.sb_pool.specs.Calls.{Serves};
ghost use Rattle.sb_pool.specs.Pages.{AgreesOn};

use sb_disk::Disk;
use sb_journal::{Journal, Region};
use sb_log::Geometry;
use sb_memdisk::MemDisk;
use sb_pool::{Pool, PoolFault};
use std::alloc::{AllocError, Global};
use std::test::Fail;

/// The smallest store.
const SIZES: Geometry = Geometry {
    pages: 64,
    log: 2_097_152,
    version: 1,
};

/// The bytes that it takes of a disk.
const SIZE: u64 = 2_428_928;

/// Where the changed bytes of page 3 stand.
const PLACE: usize = 2_179_077;

/// The reads that open an empty journal: a piece of the gates for the chunks, and then all sixteen.
const OPENING: u64 = 17;

/// A call that isn't made.
const NEVER: u64 = 1_000_000;

// A journal in the regions of an empty store.
fn journal_on<D: Disk>(alloc: Global, disk: &mut D) -> Result<Journal, PoolFault>
    requires settled { IsSettled (D.told disk.old) }
    ensures serves { IfOk result (λ j. Serves (D.told disk.new) (D.len disk.new) j SIZES) }
{
    if disk.len() < SIZE {
        return Err(PoolFault::Fault);
    }
    let gates = Region {
        start: 4096,
        len: 65536,
    };
    let log = Region {
        start: 69632,
        len: SIZES.log,
    };
    match Journal::open(alloc, disk, gates, log) {
        Ok(journal) if journal.clean() => Ok(journal),
        _ => Err(PoolFault::Fault),
    }
}

// Puts three bytes into page 3.
fn put<D: Disk>(pool: &mut Pool, disk: &mut D, journal: &mut Journal) -> bool
    requires serves { Serves (D.told disk.old) (D.len disk.old) journal.old pool.old.geometry }
    requires agrees { AgreesOn (D.told disk.old) journal.old pool.old }
    requires sizes { pool.old.geometry ≡ SIZES }
    ensures serves { Serves (D.told disk.new) (D.len disk.new) journal.new pool.new.geometry }
    ensures agrees { AgreesOn (D.told disk.new) journal.new pool.new }
    ensures sizes { pool.new.geometry ≡ SIZES }
{
    pool.write(disk, journal, 3, 5, b"abc").is_ok()
}

// Writes what is dirty.
fn flush<D: Disk>(pool: &mut Pool, disk: &mut D, journal: &mut Journal) -> bool
    requires serves { Serves (D.told disk.old) (D.len disk.old) journal.old pool.old.geometry }
    requires agrees { AgreesOn (D.told disk.old) journal.old pool.old }
    requires sizes { pool.old.geometry ≡ SIZES }
    ensures serves { Serves (D.told disk.new) (D.len disk.new) journal.new pool.new.geometry }
    ensures sizes { pool.new.geometry ≡ SIZES }
{
    pool.flush_all(disk, journal).is_ok()
}

// Three bytes of page 3 as the pool has them, behind a `load` and a `read`.
fn got<D: Disk>(pool: &mut Pool, disk: &mut D, journal: &mut Journal) -> Result<[u8; 3], PoolFault>
    requires serves { Serves (D.told disk.old) (D.len disk.old) journal.old pool.old.geometry }
    requires agrees { AgreesOn (D.told disk.old) journal.old pool.old }
    requires sizes { pool.old.geometry ≡ SIZES }
    ensures serves { Serves (D.told disk.new) (D.len disk.new) journal.new SIZES }
{
    pool.load(disk, journal, 3)?;
    let first = pool.page(3)[5];
    let page = pool.read(disk, journal, 3)?;
    Ok([first, page[6], page[7]])
}

// How many calls failed, each of which is made twice then, a flush by a pool that begins, and what is read of the page in the end.
fn run<D: Disk>(alloc: Global, disk: &mut D) -> Result<(u32, [u8; 3]), PoolFault>
    requires settled { IsSettled (D.told disk.old) }
{
    let mut journal = journal_on(alloc, disk)?;
    let mut pool = Pool::new(alloc, 8, SIZES)?;
    let first = put(&mut pool, disk, &mut journal);
    let second = put(&mut pool, disk, &mut journal);
    let third = flush(&mut pool, disk, &mut journal);
    let mut other = Pool::new(alloc, 8, SIZES)?;
    let fourth = put(&mut other, disk, &mut journal) && flush(&mut other, disk, &mut journal);
    let failed = u32::from(!first) + u32::from(!second) + u32::from(!third) + u32::from(!fourth);
    let mut last = Pool::new(alloc, 8, SIZES)?;
    let from_disk = got(&mut last, disk, &mut journal)?;
    Ok((failed, from_disk))
}

// A disk on which the call of this number fails.
fn failing(alloc: Global, size: u64, call: u64) -> Result<MemDisk, AllocError>
    ensures settled { IfOk result (λ d. IsSettled (Some d.story)) }
{
    let mut disk = MemDisk::new(alloc, size)?;
    disk.fail_at(&[call])?;
    Ok(disk)
}

#[test]
fn a_failed_call_may_be_made_again(rt: HostRuntime) -> Result<(), Fail> {
    let alloc = rt.alloc();
    for (call, failed) in [(NEVER, 0), (OPENING, 1), (OPENING + 1, 1), (OPENING + 2, 1)] {
        let mut disk = failing(alloc, SIZE, call)?;
        assert!(rt;
            run(alloc, &mut disk) == Ok((failed, *b"abc")),
            "call {call}"
        );
        let image = disk.image()?;
        assert!(rt; image.as_slice().get(PLACE..PLACE + 3) == Some(b"abc".as_slice()));
    }
    Ok(())
}
