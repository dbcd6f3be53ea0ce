//! How a run ends whose source, sink or disk fails, or of which no more is taken.

use super::{has_come, new_disk, run_row};
use sb_disk::Disk;
use sb_memdisk::{MemDisk, MemSink};
use sb_run::Report;
use sb_scripts::{OPENED, Row, SIZE, SMALLEST};
use std::alloc::Global;
use std::process::Abort;
use std::test::*;

const NEW: Row<'static> = Row {
    words: &SMALLEST,
    disk: Some(SIZE),
    ..OPENED
};

const ROWS: [Row<'static>; 6] = [
    Row {
        source_fails: Some(0),
        script: b"tables\n",
        status: 4,
        ..NEW
    },
    // The line that was given at the first call is answered, and not the one that has begun.
    Row {
        source_fails: Some(1),
        script: b"tables\n# a comment that goes on behind the first 50 bytes\n",
        output: b"ok 0\n",
        status: 4,
        begun: 1,
        ..NEW
    },
    Row {
        sink_fails: Some(0),
        script: b"tables\ntables\n",
        status: 5,
        begun: 1,
        ..NEW
    },
    Row {
        sink_fails: Some(1),
        script: b"tables\ntables\n",
        output: b"ok 0\n",
        status: 5,
        begun: 2,
        ..NEW
    },
    Row {
        most: 10,
        script: b"create r using tree (k int) key (k)\n",
        status: 8,
        ..NEW
    },
    // Of the whole lines among the bytes taken each is answered.
    Row {
        most: 16,
        script: b"tables\ntables\ntables\n",
        output: b"ok 0\nok 0\n",
        status: 8,
        begun: 2,
        ..NEW
    },
];

/// Whether a run over a new disk comes to what the row says.
fn is_ended(rt: &impl Abort, alloc: Global, row: &Row) -> bool {
    let mut disk = new_disk(rt, alloc, SIZE);
    let is_ended = has_come(row, run_row(rt, alloc, row, &mut disk));
    drop(disk);
    is_ended
}

#[test]
fn runs_end_where_a_call_fails(rt: HostRuntime) {
    for (number, row) in ROWS.iter().enumerate() {
        assert!(rt; is_ended(&rt, rt.alloc(), row), "row {number}");
    }
}

static INSERTING: Row<'static> = Row {
    script: b"create t using heap (a int, b text)\n\
        insert t values (3, 'c')\n\
        insert t values (1, 'it''s')\n\
        insert t values (2, '')\n\
        scan t\n",
    ..NEW
};

/// More calls than the run makes.
const MANY: u64 = 4000;

/// Whether a run comes to what it should whose call of this number fails.
fn is_right(sink: &MemSink, report: &Report, disk: &MemDisk, call: u64) -> bool {
    if report.status == 0 {
        // The call that fails is behind the last one.
        return disk.calls() == call;
    }
    // No call follows the one that failed, and the last reply says so where an item had begun.
    let is_said = sink.held().ends_with(b"! fault\n");
    report.status == 3
        && disk.calls() == call.saturating_add(1)
        && disk.faults() == 1
        && is_said != report.starts.as_slice().is_empty()
}

/// Whether a run ends well whose call of this number fails: since there is no such call.
fn ends_well(rt: &impl Abort, alloc: Global, call: u64) -> bool {
    let mut disk = new_disk(rt, alloc, SIZE);
    disk.fail_at(&[call]).expect(rt, "memory");
    let (sink, report) = run_row(rt, alloc, &INSERTING, &mut disk);
    assert!(rt; is_right(&sink, &report, &disk, call), "call {call}");
    let is_well = report.status == 0;
    drop(report);
    drop(sink);
    drop(disk);
    is_well
}

#[test]
fn each_call_on_the_disk_may_fail(rt: HostRuntime) {
    for call in 0..MANY {
        if ends_well(&rt, rt.alloc(), call) {
            assert!(rt; call > 50, "{call} calls");
            return;
        }
    }
    panic!(rt; "the run makes more calls than are tried");
}
