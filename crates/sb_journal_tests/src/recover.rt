//! Stores with records in their logs, restarted on a disk in memory. The bytes are spelled by hand.

mod formatting;

use sb_disk::Disk;
use sb_memdisk::MemDisk;
use sb_recover::{OpenFault, restart};
use std::alloc::{AllocError, Global};
use std::test::Fail;

/// Where the pages begin behind a log of 2,097,152 bytes.
const PAGES: usize = 69632 + 2097152;

/// A store of 64 pages has so many bytes.
const SIZE: usize = PAGES + 64 * 4096;

/// The super page up to its sizes: an open gate, the name, version 1, 64 pages, 2,097,152 bytes of log.
const SUPER: [u8; 32] = [
    0xa5, 0, 0, 0, 0, 0, 0, 0, 83, 84, 65, 82, 66, 82, 83, 84, 0, 1, 0, 0, 0, 0, 0, 64, 0, 0, 0, 0,
    0, 32, 0, 0,
];

/// Of page 3 bytes 2 and 3 become 7 and 8, by transaction 1.
const CHANGE: [u8; 19] = [3, 0, 0, 0, 1, 0, 9, 0, 0, 0, 3, 0, 2, 0, 2, 1, 1, 7, 8];

/// Of page 3 byte 1 becomes 6, by transaction 1.
const SECOND: [u8; 17] = [3, 0, 0, 0, 1, 0, 9, 0, 0, 0, 3, 0, 1, 0, 1, 1, 6];

/// Of page 3 byte 0 becomes 5, by transaction 2.
const OTHER: [u8; 17] = [3, 0, 0, 0, 2, 0, 9, 0, 0, 0, 3, 0, 0, 0, 1, 1, 5];

/// Of page 64, which the store lacks, byte 0 becomes 9, by transaction 1.
const LACKED: [u8; 17] = [3, 0, 0, 0, 1, 0, 9, 0, 0, 0, 64, 0, 0, 0, 1, 0, 9];

/// Of the changes of transaction 1 the first stands.
const BACK: [u8; 9] = [4, 0, 0, 0, 1, 0, 0, 0, 1];

const COMMIT: [u8; 5] = [5, 0, 0, 0, 1];

// Puts the bytes there.
fn put(image: &mut Vec<u8>, at: usize, bytes: &[u8]) {
    if at <= image.len() && bytes.len() <= image.len() - at {
        image[at..at + bytes.len()].copy_from_slice(bytes);
    }
}

// So many zeros. A size that proofs can compute with would be a list of two million items to them.
fn zeros(alloc: Global, size: usize) -> Result<Vec<u8>, AllocError> {
    vec![in alloc; 0u8; size]
}

// A store with these chunks in its log. Page 3 has ones on the disk.
fn store(alloc: Global, chunks: &[&[u8]]) -> Result<Vec<u8>, AllocError> {
    let mut image = zeros(alloc, SIZE)?;
    put(&mut image, 0, &SUPER);
    put(&mut image, PAGES + 3 * 4096, &[1; 4]);
    let mut gate = 4096usize;
    let mut at = 69632usize;
    for chunk in chunks {
        put(&mut image, gate, &[0xa5]);
        let len = chunk.len().min(65535) as u32;
        put(&mut image, at, &len.to_be_bytes());
        put(&mut image, at.saturating_add(4), chunk);
        gate = gate.saturating_add(1);
        at = at.saturating_add(4).saturating_add(chunk.len());
    }
    Ok(image)
}

// The spelling of an Image of page 3 with these bytes.
fn image_record(alloc: Global, byte: u8) -> Result<Vec<u8>, AllocError> {
    let mut record = vec![in alloc; byte; 4101]?;
    put(&mut record, 0, &[2, 0, 0, 0, 3]);
    Ok(record)
}

// The first bytes of page 3, and the first gate, after a restart that succeeded.
fn page_after(alloc: Global, chunks: &[&[u8]]) -> Result<Option<[u8; 5]>, AllocError> {
    let image = store(alloc, chunks)?;
    let mut disk = MemDisk::from_image(alloc, image.as_slice())?;
    if restart(alloc, &mut disk).is_err() || disk.len() != SIZE as u64 {
        return Ok(None);
    }
    let after = disk.synced()?;
    let mut bytes = [0; 5];
    for i in 0..4 {
        bytes[i] = byte_at(after.as_slice(), PAGES + 3 * 4096 + i);
    }
    bytes[4] = byte_at(after.as_slice(), 4096);
    Ok(Some(bytes))
}

fn byte_at(bytes: &[u8], at: usize) -> u8 {
    if at < bytes.len() { bytes[at] } else { 0 }
}

#[test]
fn pages_are_as_committed_transactions_left_them(rt: HostRuntime) -> Result<(), Fail> {
    let alloc = rt.alloc();
    let twos = image_record(alloc, 2)?;
    let fours = image_record(alloc, 4)?;
    let first: [&[u8]; 2] = [&CHANGE, &COMMIT];
    let uncommitted: [&[u8]; 2] = [&CHANGE, &OTHER];
    let cut: [&[u8]; 5] = [&CHANGE, &SECOND, &BACK, &OTHER, &COMMIT];
    let imaged: [&[u8]; 5] = [&twos, &CHANGE, &fours, &LACKED, &COMMIT];
    assert_eq!(rt; page_after(alloc, &first)?, Some([1, 1, 7, 8, 0]));
    assert_eq!(rt; page_after(alloc, &uncommitted)?, Some([1, 1, 1, 1, 0]));
    assert_eq!(rt; page_after(alloc, &cut)?, Some([1, 1, 7, 8, 0]));
    assert_eq!(rt; page_after(alloc, &imaged)?, Some([2, 2, 7, 8, 0]));
    Ok(())
}

// What a restart of this image is refused with.
fn refusal(alloc: Global, image: &[u8]) -> Result<Option<OpenFault>, AllocError> {
    let mut disk = MemDisk::from_image(alloc, image)?;
    Ok(restart(alloc, &mut disk).err())
}

// The chunk and the offset of a bad log.
fn bad_log(alloc: Global, chunks: &[&[u8]], past: bool) -> Result<Option<(u32, u32)>, AllocError> {
    let mut image = store(alloc, chunks)?;
    if past {
        put(&mut image, 4096 + chunks.len(), &[0xa5]);
        put(&mut image, 69632 + 4 + COMMIT.len(), &[0, 0x20, 0, 0]);
    }
    match refusal(alloc, image.as_slice())? {
        Some(OpenFault::BadLog { chunk, offset }) => Ok(Some((chunk, offset))),
        _ => Ok(None),
    }
}

#[test]
fn the_first_bad_chunk_is_named(rt: HostRuntime) -> Result<(), Fail> {
    let alloc = rt.alloc();
    let bad: [&[u8]; 3] = [&COMMIT, &[5, 0, 0, 0, 1, 9], &[9]];
    let whole: [&[u8]; 1] = [&COMMIT];
    assert_eq!(rt; bad_log(alloc, &bad, false)?, Some((1, 5)));
    assert_eq!(rt; bad_log(alloc, &whole, false)?, None);
    assert_eq!(rt; bad_log(alloc, &whole, true)?, Some((1, 0)));
    let before: [&[u8]; 1] = [&[7, 0, 0, 0, 9]];
    assert_eq!(rt; bad_log(alloc, &before, true)?, Some((0, 0)));
    Ok(())
}

#[test]
fn other_disks_are_no_stores(rt: HostRuntime) -> Result<(), Fail> {
    let alloc = rt.alloc();
    for (at, byte) in [(0usize, 0u8), (8, 84), (17, 2), (23, 63), (29, 31)] {
        let mut image = store(alloc, &[])?;
        put(&mut image, at, &[byte]);
        let fault = refusal(alloc, image.as_slice())?;
        assert!(rt; matches!(fault, Some(OpenFault::NotStore)), "byte {at}");
    }
    let image = store(alloc, &[])?;
    for size in [0, 4095, 4096, SIZE - 1] {
        let fault = refusal(alloc, &image[..image.len().min(size)])?;
        assert!(rt; matches!(fault, Some(OpenFault::NotStore)), "{size} bytes");
    }
    Ok(())
}
