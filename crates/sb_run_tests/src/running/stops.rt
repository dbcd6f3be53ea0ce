//! Runs that stop at each write and sync in turn, and what the next run finds.

use super::{holds, new_disk, output_of, run_row};
use sb_disk::Disk;
use sb_memdisk::MemDisk;
use sb_run::Report;
use sb_scripts::{MAKING, OPENED, Row, SIZE};
use sb_value::Bytes;
use std::alloc::Global;
use std::process::Abort;
use std::test::*;

/// Four commits: the second of a transaction with two inserts and one that is rolled back, the last of one whose deferred trigger puts in a row. Between
/// them a transaction is aborted, and one ends since a deferred check doesn't hold.
static CHANGING: Row<'static> = Row {
    words: &["--store", "s", "--frames", "8"],
    script: b"create r using tree (k int) key (k)\n\
        attach check small on r k < 9 deferred\n\
        attach trigger more on r after insert when new.k = 3 do insert r values (4) deferred\n\
        begin\n\
        insert r values (2)\n\
        savepoint s\n\
        insert r values (7)\n\
        rollback s\n\
        insert r values (1)\n\
        commit\n\
        begin\n\
        delete r where k = 2\n\
        abort\n\
        insert r values (9)\n\
        delete r where k = 1\n\
        insert r values (3)\n\
        scan r\n",
    output: b"ok\n\
        ok\n\
        ok\n\
        ok\n\
        ok @8000000000000002\n\
        ok\n\
        ok @8000000000000007\n\
        ok\n\
        ok @8000000000000001\n\
        ok\n\
        ok\n\
        ok 1\n\
        ok\n\
        ! veto r small\n\
        ok 1\n\
        ok @8000000000000003\n\
        @8000000000000002 (2)\n@8000000000000003 (3)\n@8000000000000004 (4)\nok 3\n",
    ..OPENED
};

static LOOKING: Row<'static> = Row {
    script: b"scan r\n",
    ..OPENED
};

/// What the script has committed.
struct Commit {
    /// How many items there are up to it. It is acknowledged once another one begins.
    items: usize,
    /// The reply to `scan r` over it.
    scan: &'static [u8],
}

const COMMITS: [Commit; 5] = [
    Commit {
        items: 0,
        scan: b"! norelation r\n",
    },
    Commit {
        items: 1,
        scan: b"ok 0\n",
    },
    Commit {
        items: 10,
        scan: b"@8000000000000001 (1)\n@8000000000000002 (2)\nok 2\n",
    },
    Commit {
        items: 15,
        scan: b"@8000000000000002 (2)\nok 1\n",
    },
    Commit {
        items: 16,
        scan: b"@8000000000000002 (2)\n@8000000000000003 (3)\n@8000000000000004 (4)\nok 3\n",
    },
];

/// How many bytes are stored of the write at which the disk stops.
const TORN: [u32; 3] = [0, 1, u32::MAX];

/// The last commit that was acknowledged when the disk got its call of this number.
fn last_acknowledged(starts: &[u64], call: u64) -> usize {
    let mut last = 0;
    for (number, commit) in COMMITS.iter().enumerate() {
        if matches!(starts.get(commit.items), Some(start) if *start <= call) {
            last = number;
        }
    }
    last
}

fn disk_of(rt: &impl Abort, alloc: Global, image: &[u8]) -> MemDisk {
    MemDisk::from_image(alloc, image).expect(rt, "memory")
}

/// Whether a look over these bytes writes one of these.
fn finds(rt: &impl Abort, alloc: Global, image: &[u8], outputs: &[&'static [u8]; 2]) -> bool {
    let mut disk = disk_of(rt, alloc, image);
    let (sink, report) = run_row(rt, alloc, &LOOKING, &mut disk);
    drop(report);
    drop(disk);
    let finds = sink.held() == outputs[0] || sink.held() == outputs[1];
    drop(sink);
    finds
}

/// What a disk holds: all that was stored, and what was synced.
#[derive(Drop)]
struct Left {
    stored: Bytes,
    synced: Bytes,
}

/// Whether a look over each of the two writes one of these.
fn is_found(rt: &impl Abort, alloc: Global, left: &Left, outputs: &[&'static [u8]; 2]) -> bool {
    finds(rt, alloc, left.stored.as_slice(), outputs)
        && finds(rt, alloc, left.synced.as_slice(), outputs)
}

/// What a disk of these bytes holds once the run over it has stopped at this call, and says that the disk failed.
fn stopped(rt: &impl Abort, alloc: Global, image: &[u8], row: &Row, call: u64, torn: u32) -> Left {
    let mut disk = disk_of(rt, alloc, image);
    disk.stop_at(call, torn);
    let (sink, report) = run_row(rt, alloc, row, &mut disk);
    assert!(rt; report.status == 3, "a run that stopped ends well");
    drop(report);
    drop(sink);
    let left = Left {
        stored: disk.image().expect(rt, "memory"),
        synced: disk.synced().expect(rt, "memory"),
    };
    drop(disk);
    left
}

/// Stops the run over these bytes at a call, with each part of its write. A look over what is left writes one of these.
fn stop(
    rt: &impl Abort,
    alloc: Global,
    image: &[u8],
    row: &Row,
    call: u64,
    outputs: &[&'static [u8]; 2],
) {
    for torn in TORN.iter() {
        let left = stopped(rt, alloc, image, row, call, *torn);
        assert!(rt;
            is_found(rt, alloc, &left, outputs),
            "call {call}, {torn} bytes"
        );
        drop(left);
    }
}

/// Over this commit, or the next one.
fn scans(last: usize) -> [&'static [u8]; 2] {
    let next = last.saturating_add(1);
    match (COMMITS.get(last), COMMITS.get(next)) {
        (Some(one), Some(other)) => [one.scan, other.scan],
        (Some(one), None) => [one.scan, one.scan],
        (None, _) => [b"", b""],
    }
}

/// The bytes of a new store.
fn made(rt: &impl Abort, alloc: Global) -> Bytes {
    let mut disk = new_disk(rt, alloc, SIZE);
    let (sink, report) = run_row(rt, alloc, &MAKING, &mut disk);
    drop(report);
    drop(sink);
    let image = disk.image().expect(rt, "memory");
    drop(disk);
    image
}

/// What the changes report, and the disk's clock after them.
fn changed(rt: &impl Abort, alloc: Global, image: &[u8]) -> (Report, u64) {
    let mut disk = disk_of(rt, alloc, image);
    let (sink, report) = run_row(rt, alloc, &CHANGING, &mut disk);
    assert!(rt; holds(sink, CHANGING.output));
    let clock = disk.clock();
    drop(disk);
    (report, clock)
}

#[test]
fn each_stop_leaves_the_acknowledged_commits(rt: HostRuntime) {
    let alloc = rt.alloc();
    let image = made(&rt, alloc);
    let (report, to) = changed(&rt, alloc, image.as_slice());
    let starts = report.starts.as_slice();
    let from = *starts.first().expect(&rt, "an item");
    // Two writes and two syncs for each commit.
    assert!(rt; to.saturating_sub(from) >= 16, "{from} and {to}");
    for call in from..to {
        let outputs = scans(last_acknowledged(starts, call));
        stop(&rt, alloc, image.as_slice(), &CHANGING, call, &outputs);
    }
    drop(report);
    drop(image);
}

/// What a run finds over what a stopped `--create` left: no store, or a new one.
static FRESH: [&[u8]; 2] = [b"? notstore\n", b"! norelation r\n"];

#[test]
fn each_stop_of_a_create_leaves_no_store_or_a_new_one(rt: HostRuntime) {
    let alloc = rt.alloc();
    let mut disk = new_disk(&rt, alloc, SIZE);
    let zeros = disk.image().expect(&rt, "memory");
    let ended = run_row(&rt, alloc, &MAKING, &mut disk);
    drop(output_of(&rt, ended));
    let calls = disk.clock();
    drop(disk);
    for call in 0..calls {
        stop(&rt, alloc, zeros.as_slice(), &MAKING, call, &FRESH);
    }
    drop(zeros);
}

/// How many calls a look over these bytes makes.
fn calls_of_a_look(rt: &impl Abort, alloc: Global, image: &[u8]) -> u64 {
    let mut disk = disk_of(rt, alloc, image);
    let (sink, report) = run_row(rt, alloc, &LOOKING, &mut disk);
    drop(report);
    drop(sink);
    let calls = disk.clock();
    drop(disk);
    calls
}

/// The restart of what a stopped run left is stopped at each of its calls, and the next one goes on.
#[test]
fn a_restart_may_be_stopped(rt: HostRuntime) {
    let alloc = rt.alloc();
    let image = made(&rt, alloc);
    let (report, _) = changed(&rt, alloc, image.as_slice());
    let starts = report.starts.as_slice();
    // Within the last commit: it is that of the last item but one.
    let start = *starts.get(15).expect(&rt, "more items");
    let call = start.saturating_add(2);
    let outputs = scans(last_acknowledged(starts, call));
    drop(report);
    let left = stopped(&rt, alloc, image.as_slice(), &CHANGING, call, 1);
    drop(image);
    let calls = calls_of_a_look(&rt, alloc, left.stored.as_slice());
    // A page and its sync, and four calls that close the gates.
    assert!(rt; calls >= 6, "{calls} calls");
    for call in 0..calls {
        stop(&rt, alloc, left.stored.as_slice(), &LOOKING, call, &outputs);
    }
    drop(left);
}
