//! Runs with boxes of another author beside those of the program.

use super::{boxes_of, has_come, new_disk, output_of, run_given, run_row, script_of, scripted};
use sb_foreign::{Count, Legend, Limit, Once, Strip};
use sb_memdisk::{MemDisk, MemSink};
use sb_registry::Extensions;
use sb_run::Report;
use sb_scripts::foreign::{AGAIN, COUNTING, LACKING, ROWS};
use sb_scripts::{MAKING, Row, SIZE};
use std::alloc::Global;
use std::process::Abort;
use std::test::*;

/// The program's boxes, and those of another author as spare ones.
fn boxes_of_another_author(rt: &impl Abort, alloc: Global) -> Extensions {
    let mut exts = boxes_of(rt, alloc, 1, 1);
    let strip = Box::new(alloc, Strip {}).expect(rt, "memory");
    exts.spare_methods.push(strip).expect(rt, "memory");
    let limit = Box::new(alloc, Limit {}).expect(rt, "memory");
    exts.spare_attachments.push(limit).expect(rt, "memory");
    let once = Box::new(alloc, Once {}).expect(rt, "memory");
    exts.spare_attachments.push(once).expect(rt, "memory");
    let count = Box::new(alloc, Count {}).expect(rt, "memory");
    exts.spare_attachments.push(count).expect(rt, "memory");
    let legend = Box::new(alloc, Legend {}).expect(rt, "memory");
    exts.spare_attachments.push(legend).expect(rt, "memory");
    exts
}

/// Runs what a row says, with spare boxes of another author beside those of the program.
fn run_foreign(rt: &impl Abort, alloc: Global, row: &Row, disk: &mut MemDisk) -> (MemSink, Report) {
    let exts = boxes_of_another_author(rt, alloc);
    run_given(rt, alloc, row, exts, disk)
}

#[test]
fn boxes_of_another_author_serve(rt: HostRuntime) {
    let alloc = rt.alloc();
    let mut disk = new_disk(&rt, alloc, SIZE);
    for (number, row) in ROWS.iter().enumerate() {
        assert!(rt;
            has_come(row, run_foreign(&rt, alloc, row, &mut disk)),
            "row {number}"
        );
    }
    assert!(rt; has_come(&LACKING, run_row(&rt, alloc, &LACKING, &mut disk)));
    drop(disk);
}

/// An attachment is built over a thousand rows that stand, and its page is there in the next run.
#[test]
fn a_thousand_rows_are_counted(rt: HostRuntime) {
    let alloc = rt.alloc();
    let script = script_of(&rt, alloc, &COUNTING);
    let row = scripted(&MAKING, &script);
    let mut disk = new_disk(&rt, alloc, SIZE);
    let ended = run_foreign(&rt, alloc, &row, &mut disk);
    drop(script);
    let sink = output_of(&rt, ended);
    assert!(rt;
        sink.held().ends_with(
            b"ok @80000000000003e7\nok\nsum 1000\nok 0\nok @7fffffffffffffff\n! duplicate r\nsum 1001\nok 0\n"
        )
    );
    drop(sink);
    assert!(rt; has_come(&AGAIN, run_foreign(&rt, alloc, &AGAIN, &mut disk)));
    drop(disk);
}
