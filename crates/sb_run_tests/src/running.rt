//! Runs over a disk, a source and a sink in memory.

mod damage;
mod endings;
mod filling;
mod foreign;
mod lines;
mod stops;

use sb_disk::{Sink, Source};
use sb_heap::Heap;
use sb_memdisk::{MemDisk, MemSink, MemSource};
use sb_registry::{Extensions, Registry};
use sb_rules::{Check, Trigger};
use sb_run::{Report, run_boxes};
use sb_scripts::{Numbered, Row, SIZE, rows};
use sb_treemethod::TreeMethod;
use sb_value::Str;
use std::alloc::Global;
use std::process::Abort;
use std::test::*;

/// How many bytes the source gives, and the sink takes, a call.
const PIECE: usize = 50;

// Want of memory ends a test at once: where a test went on to an `Err`, each value that it has would be dropped on the way,
// which is dear to prove. A value that goes by a call of `drop` is far cheaper than one that goes at its scope's end.

fn words_of(rt: &impl Abort, alloc: Global, texts: &[&str]) -> Vec<Str> {
    let mut words = Vec::new(alloc);
    for text in texts {
        let word = Str::from_string(String::from_str(alloc, text).expect(rt, "memory"));
        words.push(word).expect(rt, "memory");
    }
    words
}

/// The row with another script.
fn scripted<'a>(row: &Row<'static>, script: &'a str) -> Row<'a> {
    Row {
        script: script.as_bytes(),
        ..*row
    }
}

fn script_of(rt: &impl Abort, alloc: Global, lines: &Numbered) -> String {
    let mut script = String::from_str(alloc, lines.front).expect(rt, "memory");
    for number in 0..lines.count {
        let digits = number.to_string(alloc).expect(rt, "memory");
        script.push_str(lines.before).expect(rt, "memory");
        script.push_str(&digits).expect(rt, "memory");
        script.push_str(lines.after).expect(rt, "memory");
        drop(digits);
    }
    script.push_str(lines.behind).expect(rt, "memory");
    script
}

/// The heap and the tree as storage methods.
fn methods_of(rt: &impl Abort, alloc: Global) -> Extensions {
    let mut exts = Extensions {
        methods: Vec::new(alloc),
        attachments: Vec::new(alloc),
        spare_methods: Vec::new(alloc),
        spare_attachments: Vec::new(alloc),
    };
    let heap = Box::new(alloc, Heap::new()).expect(rt, "memory");
    exts.methods.push(heap).expect(rt, "memory");
    let tree = Box::new(alloc, TreeMethod::new()).expect(rt, "memory");
    exts.methods.push(tree).expect(rt, "memory");
    exts
}

/// The heap and the tree, and so many boxes for checks and triggers.
fn boxes_of(rt: &impl Abort, alloc: Global, checks: usize, triggers: usize) -> Extensions {
    let mut exts = methods_of(rt, alloc);
    for _ in 0..checks {
        let check = Box::new(alloc, Check::new()).expect(rt, "memory");
        exts.attachments.push(check).expect(rt, "memory");
    }
    for _ in 0..triggers {
        let trigger = Box::new(alloc, Trigger::new()).expect(rt, "memory");
        exts.attachments.push(trigger).expect(rt, "memory");
    }
    exts
}

/// Runs with these boxes, unless a code repeats among them.
fn run_to<S: Source, K: Sink>(
    alloc: Global,
    words: &[Str],
    exts: Extensions,
    source: &mut S,
    sink: &mut K,
    disk: &mut MemDisk,
    most: u64,
) -> Report {
    match Registry::take(exts) {
        Ok(boxes) => run_boxes(alloc, words, Ok(boxes), source, sink, disk, most),
        Err((code, _)) => {
            run_boxes::<Registry, S, K, MemDisk>(alloc, words, Err(code), source, sink, disk, most)
        }
    }
}

/// Runs what a row says with these boxes. What was written, and the report.
fn run_given(
    rt: &impl Abort,
    alloc: Global,
    row: &Row,
    exts: Extensions,
    disk: &mut MemDisk,
) -> (MemSink, Report) {
    let words = words_of(rt, alloc, row.words);
    let made = MemSource::new(alloc, row.script, PIECE, row.source_fails);
    let mut source = made.expect(rt, "memory");
    let mut sink = MemSink::new(alloc, PIECE, row.sink_fails);
    let report = run_to(alloc, &words, exts, &mut source, &mut sink, disk, row.most);
    drop(source);
    drop(words);
    (sink, report)
}

fn run_row(rt: &impl Abort, alloc: Global, row: &Row, disk: &mut MemDisk) -> (MemSink, Report) {
    let exts = boxes_of(rt, alloc, row.checks, row.triggers);
    run_given(rt, alloc, row, exts, disk)
}

/// Whether a run wrote this, and reports this status and so many items.
fn comes_to(ended: (MemSink, Report), output: &[u8], status: u8, begun: usize) -> bool {
    let (sink, report) = ended;
    let is_reported = report.status == status && report.starts.as_slice().len() == begun;
    drop(report);
    holds(sink, output) && is_reported
}

/// Whether the run came to what the row says.
fn has_come(row: &Row, ended: (MemSink, Report)) -> bool {
    comes_to(ended, row.output, row.status, row.begun)
}

/// Whether this was written.
fn holds(sink: MemSink, output: &[u8]) -> bool {
    let is_written = sink.held() == output;
    drop(sink);
    is_written
}

/// What was written by a run that ended at its script's end.
fn output_of(rt: &impl Abort, ended: (MemSink, Report)) -> MemSink {
    let (sink, report) = ended;
    assert!(rt; report.status == 0);
    drop(report);
    sink
}

/// Runs the row with a script over a new disk, to the script's end. What was written.
fn written(
    rt: &impl Abort,
    alloc: Global,
    row: &Row<'static>,
    script: String,
    size: u64,
) -> MemSink {
    let mut disk = new_disk(rt, alloc, size);
    let ended = run_row(rt, alloc, &scripted(row, &script), &mut disk);
    drop(disk);
    drop(script);
    output_of(rt, ended)
}

fn new_disk(rt: &impl Abort, alloc: Global, size: u64) -> MemDisk {
    MemDisk::new(alloc, size).expect(rt, "memory")
}

#[test]
fn runs_answer_their_scripts(rt: HostRuntime) {
    let alloc = rt.alloc();
    let mut disk = new_disk(&rt, alloc, SIZE);
    for (number, row) in rows::ROWS.iter().enumerate() {
        if let Some(size) = row.disk {
            disk = new_disk(&rt, alloc, size);
        }
        assert!(rt;
            has_come(row, run_row(&rt, alloc, row, &mut disk)),
            "row {number}"
        );
    }
    drop(disk);
}
