//! What no clause says: that calls succeed while memory lasts. And rows with their numbers, through the traits.

use super::streams::{gives, takes};
use sb_disk::{Disk, Failed, Sink, Source};
use sb_memdisk::{MemDisk, MemSink, MemSource};
use std::alloc::Global;
use std::process::Abort;
use std::test::*;

/// What a disk of 16 zeros does with one write of 1, 2, 3, 4 at 0, and holds then.
struct Row {
    fails: &'static [u64],
    stop: Option<(u64, u32)>,
    synced_before: bool,
    synced_after: bool,
    written: bool,
    image: [u8; 4],
    synced: [u8; 4],
    faults: u64,
    clock: u64,
}

const PLAIN: Row = Row {
    fails: &[],
    stop: None,
    synced_before: false,
    synced_after: false,
    written: true,
    image: [1, 2, 3, 4],
    synced: [0; 4],
    faults: 0,
    clock: 1,
};

const ROWS: [Row; 9] = [
    PLAIN,
    Row {
        synced_after: true,
        synced: [1, 2, 3, 4],
        clock: 2,
        ..PLAIN
    },
    Row {
        fails: &[0],
        written: false,
        image: [0; 4],
        faults: 1,
        ..PLAIN
    },
    Row {
        fails: &[1],
        synced_after: true,
        faults: 1,
        clock: 2,
        ..PLAIN
    },
    Row {
        fails: &[0],
        synced_before: true,
        synced_after: true,
        synced: [1, 2, 3, 4],
        faults: 1,
        clock: 3,
        ..PLAIN
    },
    Row {
        stop: Some((0, 2)),
        written: false,
        image: [1, 2, 0, 0],
        faults: 1,
        ..PLAIN
    },
    Row {
        stop: Some((0, 9)),
        synced_after: true,
        written: false,
        faults: 2,
        clock: 2,
        ..PLAIN
    },
    Row {
        stop: Some((0, 2)),
        synced_before: true,
        written: false,
        image: [0; 4],
        faults: 2,
        clock: 2,
        ..PLAIN
    },
    Row {
        stop: Some((1, 2)),
        synced_after: true,
        faults: 1,
        clock: 2,
        ..PLAIN
    },
];

fn write_some<D: Disk>(disk: &mut D, row: &Row) -> bool {
    if disk.mount(b"any", Some(99)).is_err() || disk.len() < 4 {
        return false;
    }
    if row.synced_before {
        let _done = disk.sync().is_ok();
    }
    let written = disk.write_at(0, &[1, 2, 3, 4]).is_ok();
    if row.synced_after {
        let _done = disk.sync().is_ok();
    }
    written
}

/// Whether the disk does with the write what the row says.
fn is_so(rt: &impl Abort, alloc: Global, row: &Row) -> bool {
    let mut disk = MemDisk::new(alloc, 16).expect(rt, "memory");
    disk.fail_at(row.fails).expect(rt, "memory");
    if let Some((call, torn)) = row.stop {
        disk.stop_at(call, torn);
    }
    let written = write_some(&mut disk, row);
    let image = disk.image().expect(rt, "memory");
    let is_stored = image.as_slice().starts_with(&row.image);
    drop(image);
    let synced = disk.synced().expect(rt, "memory");
    let is_synced = synced.as_slice().starts_with(&row.synced);
    drop(synced);
    let counts = (disk.faults(), disk.clock(), disk.calls(), disk.len());
    drop(disk);
    let is_counted = counts == (row.faults, row.clock, row.clock, 16);
    written == row.written && is_stored && is_synced && is_counted
}

#[test]
fn writes_are_stored_torn_and_lost(rt: HostRuntime) {
    let alloc = rt.alloc();
    for (number, row) in ROWS.iter().enumerate() {
        assert!(rt; is_so(&rt, alloc, row), "row {number}");
    }
}

fn read_back<D: Disk>(disk: &mut D) -> Option<[u8; 2]> {
    if disk.len() < 3 {
        return None;
    }
    let mut buffer = [0; 2];
    match disk.read_at(1, &mut buffer) {
        Ok(()) => Some(buffer),
        Err(Failed) => None,
    }
}

/// Whether the second of three reads of 8, 9 fails, and is counted.
fn fails_once<D: Disk>(disk: &mut D) -> bool {
    let first = read_back(disk) == Some([8, 9]);
    let second = read_back(disk).is_none();
    let third = read_back(disk) == Some([8, 9]);
    first && second && third && disk.clock() == 0 && disk.faults() == 1
}

#[test]
fn an_image_is_read(rt: HostRuntime) {
    let mut disk = MemDisk::from_image(rt.alloc(), &[7, 8, 9]).expect(&rt, "memory");
    disk.fail_at(&[1]).expect(&rt, "memory");
    assert!(rt; fails_once(&mut disk));
    assert!(rt; disk.calls() == 3);
    drop(disk);
}

/// Whether a read of 8, 9 succeeds, and a sync fails and then a read.
fn stops_at_a_sync<D: Disk>(disk: &mut D) -> bool {
    let before = read_back(disk) == Some([8, 9]);
    let synced = disk.sync().is_ok();
    let behind = read_back(disk).is_none();
    before && !synced && behind && disk.faults() == 2
}

#[test]
fn reads_fail_behind_the_stop(rt: HostRuntime) {
    let mut disk = MemDisk::from_image(rt.alloc(), &[7, 8, 9]).expect(&rt, "memory");
    disk.stop_at(0, 0);
    assert!(rt; stops_at_a_sync(&mut disk));
    drop(disk);
}

/// Whether a source of `abcde` gives three bytes at most, and its second read fails.
fn gives_abcde<S: Source>(source: &mut S) -> bool {
    let first = gives(source, Some((3, b"abc\0")), 0);
    let failed = gives(source, None, 1);
    let last = gives(source, Some((2, b"de\0\0")), 1);
    first && failed && last && gives(source, Some((0, &[0; 4])), 1)
}

#[test]
fn a_source_gives_its_bytes_piece_by_piece(rt: HostRuntime) {
    let mut source = MemSource::new(rt.alloc(), b"abcde", 3, Some(1)).expect(&rt, "memory");
    assert!(rt; gives_abcde(&mut source));
    drop(source);
}

/// Whether a sink takes three bytes at most, and its second write fails.
fn takes_abcde<K: Sink>(sink: &mut K) -> bool {
    let first = takes(sink, b"abcd", Some(3), 0);
    let failed = takes(sink, b"d", None, 1);
    first && failed && takes(sink, b"de", Some(2), 1)
}

#[test]
fn a_sink_takes_piece_by_piece(rt: HostRuntime) {
    let mut sink = MemSink::new(rt.alloc(), 3, Some(1));
    assert!(rt; takes_abcde(&mut sink));
    assert!(rt; sink.held() == b"abcde".as_slice());
    drop(sink);
}
