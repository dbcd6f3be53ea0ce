//! What no clause says of a disk over files: what files and streams hold, and that what fails there fails here.

use super::streams::{gives, takes};
use sb_disk::Source;
use sb_filedisk::{FileDisk, ReadSource, WriteSink};
use slow::{Plan, Slow};
use std::test::*;
use std::{fs, io};
use steps::{Step, is_played};
use unsure::Unsure;

mod slow;
mod steps;
mod unsure;

/// Makes an empty folder of this name.
fn make_folder(rt: &HostRuntime, folder: &str) -> io::Result<()> {
    if fs::exists(rt, folder)? {
        fs::remove_dir_all(rt, folder)?;
    }
    fs::create_dir(rt, folder)
}

/// What disks do one behind the other in one folder, which is empty before the first.
struct Row {
    says: &'static str,
    /// Whether the disks are over slow files, of which 99 calls succeed.
    is_slow: bool,
    disks: &'static [&'static [Step]],
}

/// The file of the rows, as a disk takes its name, and as the system does.
const NAME: &'static [u8] = b"sb_filedisk_rows/disk";

const FILE: &'static str = "sb_filedisk_rows/disk";

static ROWS: [Row; 13] = [
    Row {
        says: "a file is found as it was",
        is_slow: false,
        disks: &[
            &[
                Step::Mount(NAME, Some(8), true),
                Step::Write(3, b"abc", true),
                Step::Sync(true),
                Step::Read(2, Some(*b"\0abc")),
                Step::Counts([8, 2, 0]),
            ],
            &[
                Step::Mount(NAME, Some(8), true),
                Step::Read(4, Some(*b"bc\0\0")),
                Step::Counts([8, 0, 0]),
            ],
        ],
    },
    Row {
        says: "a file that isn't there is made",
        is_slow: false,
        disks: &[&[
            Step::Mount(NAME, Some(2), true),
            Step::Counts([2, 0, 0]),
            Step::Holds(FILE, b"\0\0"),
        ]],
    },
    Row {
        says: "a file is as long as it was",
        is_slow: false,
        disks: &[&[
            Step::Store(FILE, b"abcd"),
            Step::Mount(NAME, None, true),
            Step::Counts([4, 0, 0]),
            Step::Holds(FILE, b"abcd"),
        ]],
    },
    Row {
        says: "a shorter file grows",
        is_slow: false,
        disks: &[&[
            Step::Store(FILE, b"abcd"),
            Step::Mount(NAME, Some(6), true),
            Step::Counts([6, 0, 0]),
            Step::Holds(FILE, b"abcd\0\0"),
        ]],
    },
    Row {
        says: "a longer file stays",
        is_slow: false,
        disks: &[&[
            Step::Store(FILE, b"abcd"),
            Step::Mount(NAME, Some(2), true),
            Step::Counts([4, 0, 0]),
            Step::Holds(FILE, b"abcd"),
        ]],
    },
    Row {
        says: "a name that cannot be opened fails and counts",
        is_slow: false,
        disks: &[
            &[
                Step::Mount(b"sb_filedisk_none", None, false),
                Step::Counts([0, 0, 1]),
                Step::Mount(b"sb_filedisk_none/disk", Some(8), false),
                Step::Counts([0, 0, 2]),
                Step::Mount(b"sb_filedisk_\xff", Some(8), false),
                Step::Counts([0, 0, 3]),
                Step::Mount(b"sb_filedisk_\0", Some(8), false),
                Step::Counts([0, 0, 4]),
                Step::Mount(b"", Some(8), false),
                Step::Counts([0, 0, 5]),
            ],
            &[Step::Sync(false), Step::Counts([0, 1, 1])],
        ],
    },
    Row {
        says: "a mounted file stays",
        is_slow: false,
        disks: &[&[
            Step::Store("sb_filedisk_rows/other", b"abcdef"),
            Step::Mount(NAME, Some(4), true),
            Step::Mount(b"sb_filedisk_rows/other", None, false),
            Step::Mount(b"sb_filedisk_rows/none", Some(8), false),
            Step::Mount(NAME, Some(6), true),
            Step::Counts([6, 0, 2]),
            Step::Absent("sb_filedisk_rows/none"),
        ]],
    },
    Row {
        says: "a file cut short is refused",
        is_slow: false,
        disks: &[&[
            Step::Mount(NAME, Some(6), true),
            Step::Store(FILE, b"abc"),
            Step::Read(0, None),
            Step::Mount(NAME, None, false),
            Step::Counts([6, 0, 2]),
        ]],
    },
    Row {
        says: "a slow file is read and written whole",
        is_slow: true,
        disks: &[
            &[
                Step::Mount(NAME, Some(4), true),
                Step::Interrupt(1),
                Step::Write(1, b"abc", true),
                Step::Interrupt(1),
                Step::Read(0, Some(*b"\0abc")),
                Step::Interrupts(0),
            ],
            &[Step::Allow(0), Step::Mount(NAME, Some(4), false)],
        ],
    },
    // A mount that may make the file syncs it and its folder, another one the file; a sync is one of the bytes.
    Row {
        says: "a mount syncs what it makes",
        is_slow: true,
        disks: &[
            &[
                Step::Mount(NAME, Some(4), true),
                Step::Syncs([2, 0]),
                Step::Sync(true),
                Step::Syncs([3, 1]),
            ],
            &[
                Step::Mount(NAME, None, true),
                Step::Syncs([1, 0]),
                Step::Sync(true),
                Step::Syncs([2, 1]),
            ],
        ],
    },
    Row {
        says: "after a failed sync the file is left alone",
        is_slow: true,
        disks: &[&[
            Step::Mount(NAME, Some(4), true),
            Step::Allow(4),
            Step::Write(0, b"abc", true),
            Step::Sync(true),
            Step::Syncs([3, 1]),
            Step::Sync(false),
            Step::Syncs([4, 2]),
            Step::Allow(99),
            Step::Write(1, b"xyz", false),
            Step::Sync(false),
            Step::Syncs([4, 2]),
            Step::Read(0, Some(*b"abc\0")),
            Step::Counts([4, 5, 3]),
            Step::Holds(FILE, b"abc\0"),
        ]],
    },
    Row {
        says: "after a failed write the file is left alone",
        is_slow: true,
        disks: &[&[
            Step::Mount(NAME, Some(4), true),
            Step::Syncs([2, 0]),
            Step::Allow(1),
            Step::Write(0, b"abc", false),
            Step::Allow(99),
            Step::Write(1, b"xyz", false),
            Step::Sync(false),
            Step::Syncs([2, 0]),
            Step::Counts([4, 3, 3]),
            Step::Holds(FILE, b"a\0\0\0"),
        ]],
    },
    Row {
        says: "a place behind four gigabytes is kept",
        is_slow: false,
        disks: &[&[
            Step::Mount(NAME, Some(4_294_967_304), true),
            Step::Write(4_294_967_297, b"abc", true),
            Step::Read(4_294_967_296, Some(*b"\0abc")),
            Step::HoldsAt(FILE, 4_294_967_297, *b"abc"),
        ]],
    },
];

/// Whether a disk over the system's own files, which heed no plan, does as the steps say.
fn is_usual(rt: &HostRuntime, steps: &[Step]) -> bool {
    let plan = Plan::new(0);
    is_played(rt, &plan, &mut FileDisk::new(rt), steps)
}

/// Whether a disk over slow files does as the steps say.
fn is_slow(rt: &HostRuntime, steps: &[Step]) -> bool {
    let plan = Plan::new(99);
    let mut disk = FileDisk::new(Slow { rt, plan: &plan });
    is_played(rt, &plan, &mut disk, steps)
}

/// Whether each disk of the row does as its steps say.
fn is_row(rt: &HostRuntime, row: &Row) -> bool {
    if make_folder(rt, "sb_filedisk_rows").is_err() {
        return false;
    }
    for steps in row.disks {
        let done = match row.is_slow {
            true => is_slow(rt, steps),
            false => is_usual(rt, steps),
        };
        if !done {
            return false;
        }
    }
    true
}

/// What the first row says of which it isn't so.
fn first_other(rt: &HostRuntime) -> Option<&'static str> {
    for row in ROWS.iter() {
        if !is_row(rt, row) {
            return Some(row.says);
        }
    }
    None
}

#[test]
fn disks_over_files(rt: HostRuntime) {
    assert_eq!(rt; first_other(&rt), None);
    assert!(rt; fs::remove_dir_all(&rt, "sb_filedisk_rows").is_ok());
}

#[test]
fn an_interrupted_call_is_made_again(rt: HostRuntime) {
    let mut source = ReadSource::new(Unsure { interrupts: 1 });
    assert!(rt; gives(&mut source, Some((2, b"ab\0\0")), 0));
    let mut sink = WriteSink::new(Unsure { interrupts: 1 });
    assert!(rt; takes(&mut sink, b"abc", Some(3), 0));
}

/// Whether the source gives `abc` and then ends, with no failure counted.
fn ends_behind_abc<S: Source>(source: &mut S) -> bool {
    gives(source, Some((3, b"abc\0")), 0) && gives(source, Some((0, &[0; 4])), 0)
}

#[test]
fn a_pipe_gives_what_it_took_and_ends(rt: HostRuntime) {
    let (reader, writer) = io::pipe(&rt).expect(&rt, "a pipe");
    assert!(rt; takes(&mut WriteSink::new(writer), b"abc", Some(3), 0));
    assert!(rt; ends_behind_abc(&mut ReadSource::new(reader)));
}

#[test]
fn a_refused_read_or_write_counts(rt: HostRuntime) {
    let name = "sb_filedisk_streams";
    let made = fs::create(&rt, name).expect(&rt, "a file");
    assert!(rt; gives(&mut ReadSource::new(made), None, 1));
    let found = fs::open(&rt, name).expect(&rt, "a file");
    assert!(rt; takes(&mut WriteSink::new(found), b"abc", None, 1));
    assert!(rt; fs::remove_file(&rt, name).is_ok());
}
