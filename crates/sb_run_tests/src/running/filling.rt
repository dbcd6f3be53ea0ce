//! Rows of the greatest length, and stores that they fill.

use super::{holds, script_of, written};
use sb_scripts::{MAKING, Numbered, OPENED, Row, SIZE};
use std::alloc::Global;
use std::process::Abort;
use std::test::*;

const CREATE: &str = "create t using heap (k int, a text, b text, c text, d text)\n";

/// How many bytes the replies have to the creation, 3, and to 248 accepted rows, 17 each.
const ACCEPTED: usize = 4219;

/// The lengths of a row's texts with which it has 1,000 bytes.
static GREATEST: [usize; 4] = [255, 255, 255, 217];

/// Whether the bytes in front of a place end with the one text, and from it on there is the other one.
fn is_parted(bytes: &[u8], at: usize, front: &[u8], behind: &[u8]) -> bool {
    match (bytes.get(..at), bytes.get(at..)) {
        (Some(before), Some(rest)) => before.ends_with(front) && rest == behind,
        _ => false,
    }
}

/// Adds an insert with texts of these lengths.
fn add_insert(rt: &impl Abort, script: &mut String, lengths: &[usize; 4]) {
    script.push_str("insert t values (1").expect(rt, "memory");
    for length in lengths.iter() {
        script.push_str(", '").expect(rt, "memory");
        for _ in 0..*length {
            script.push('x').expect(rt, "memory");
        }
        script.push('\'').expect(rt, "memory");
    }
    script.push_str(")\n").expect(rt, "memory");
}

/// The lines in front, so many inserts of rows of 1,000 bytes, and the lines behind them.
fn filling(rt: &impl Abort, alloc: Global, front: &str, inserts: usize, behind: &str) -> String {
    let mut script = String::from_str(alloc, front).expect(rt, "memory");
    for _ in 0..inserts {
        add_insert(rt, &mut script, &GREATEST);
    }
    script.push_str(behind).expect(rt, "memory");
    script
}

/// The lengths of three rows' texts: only the first row isn't too long.
static LENGTHS: [[usize; 4]; 3] = [[255, 255, 255, 217], [255, 255, 255, 218], [256, 1, 1, 1]];

#[test]
fn longer_rows_are_refused(rt: HostRuntime) {
    let alloc = rt.alloc();
    let mut script = String::from_str(alloc, CREATE).expect(&rt, "memory");
    for lengths in LENGTHS.iter() {
        add_insert(&rt, &mut script, lengths);
    }
    let sink = written(&rt, alloc, &MAKING, script, SIZE);
    assert!(rt; holds(sink, b"ok\nok @000000020000\n! toolong t\n! toolong t\n"));
}

/// A new relation wants a page; a check wants none, and one that goes wants none. What is dropped gives its pages back.
const FULL: &str = "create u using heap (k int)\n\
    attach check pos on t k >= 0\n\
    detach pos on t\n\
    drop t\n\
    create u using heap (k int)\n";

/// 62 pages are left to the heap, with four rows in each.
#[test]
fn pages_run_out(rt: HostRuntime) {
    let alloc = rt.alloc();
    let mut script = filling(&rt, alloc, CREATE, 249, "delete t @000000020000\n");
    add_insert(&rt, &mut script, &GREATEST);
    script.push_str(FULL).expect(&rt, "memory");
    let sink = written(&rt, alloc, &MAKING, script, SIZE);
    assert!(rt;
        is_parted(
            sink.held(),
            ACCEPTED,
            b"ok @0000003f0003\n",
            b"! room data 64 64\nok\nok @000000020000\n! room data 64 64\nok\nok\nok\nok\n"
        )
    );
    drop(sink);
}

/// The first line of the output that says that the log is full, and the two numbers in front of the log's length.
fn log_full(output: &[u8]) -> Option<(u64, u64)> {
    let line = str::from_utf8(output)
        .ok()?
        .lines()
        .find_map(|line| line.strip_prefix("! room log "))?;
    let (numbers, total) = line.rsplit_once(' ')?;
    let (used, need) = numbers.split_once(' ')?;
    if total != "2097152" {
        return None;
    }
    Some((used.parse().ok()?, need.parse().ok()?))
}

static LOGGING: Row<'static> = Row {
    words: &["--store", "s", "--create", "--log", "2097152"],
    ..OPENED
};

#[test]
fn the_log_runs_out(rt: HostRuntime) {
    let alloc = rt.alloc();
    let front = "create t using heap (k int, a text, b text, c text, d text)\nbegin\n";
    let script = filling(&rt, alloc, front, 1500, "abort\nscan t\n");
    let sink = written(&rt, alloc, &LOGGING, script, 8 << 20);
    assert!(rt; sink.held().ends_with(b" 2097152\nok\nok 0\n"));
    let (used, need) = log_full(sink.held()).expect(&rt, "a row that finds the log full");
    drop(sink);
    assert!(rt; used <= 2_097_152 && used.saturating_add(need) > 2_097_152);
}

static SAVEPOINTS: Numbered = Numbered {
    front: "begin\n",
    before: "savepoint s",
    after: "\n",
    count: 65,
    behind: "rollback s63\nabort\n",
};

#[test]
fn a_transaction_has_64_savepoints(rt: HostRuntime) {
    let alloc = rt.alloc();
    let script = script_of(&rt, alloc, &SAVEPOINTS);
    let sink = written(&rt, alloc, &MAKING, script, SIZE);
    // The replies to `begin` and to 64 savepoints.
    assert!(rt; is_parted(sink.held(), 195, b"ok\nok\n", b"! limit\nok\nok\n"));
    drop(sink);
}
