//! Lines that are too long, and when replies are written.

ghost use Rattle.std.specs.Prelude.{None};

use super::{boxes_of, holds, new_disk, run_to, words_of, written};
use sb_disk::{Failed, Sink, Source};
use sb_scripts::{MAKING, SIZE, SMALLEST};
use std::alloc::Global;
use std::cell::Cell;
use std::fs;
use std::process::Abort;
use std::test::*;

/// The front of a line, what follows it so many times, its end, and the replies to it and to what stands behind it.
struct Long {
    front: &'static str,
    part: &'static str,
    times: usize,
    end: &'static str,
    output: &'static [u8],
}

const LONG: [Long; 7] = [
    Long {
        front: "",
        part: "x",
        times: 4096,
        end: "\n",
        output: b"! syntax 1\nok 0\n",
    },
    Long {
        front: "",
        part: "x",
        times: 4097,
        end: "\n",
        output: b"! syntax 4097\nok 0\n",
    },
    Long {
        front: "#",
        part: "x",
        times: 4095,
        end: "\r\n",
        output: b"ok 0\n",
    },
    Long {
        front: "#",
        part: "x",
        times: 4096,
        end: "\r\n",
        output: b"! syntax 4097\nok 0\n",
    },
    Long {
        front: "",
        part: " ",
        times: 4097,
        end: "\n",
        output: b"! syntax 4097\nok 0\n",
    },
    Long {
        front: " ",
        part: "\t",
        times: 17,
        end: "\n",
        output: b"ok 0\n",
    },
    Long {
        front: "attach check c on r ",
        part: "k = 1 or ",
        times: 60_000,
        end: "k = 1\n",
        output: b"! syntax 4097\nok 0\n",
    },
];

/// The line, and one behind it.
fn with_line(rt: &impl Abort, alloc: Global, long: &Long) -> String {
    let mut script = String::from_str(alloc, long.front).expect(rt, "memory");
    for _ in 0..long.times {
        script.push_str(long.part).expect(rt, "memory");
    }
    script.push_str(long.end).expect(rt, "memory");
    script.push_str("tables\n").expect(rt, "memory");
    script
}

/// Whether the replies to the line and to the one behind it are written.
fn is_answered(rt: &impl Abort, alloc: Global, long: &Long) -> bool {
    let script = with_line(rt, alloc, long);
    holds(written(rt, alloc, &MAKING, script, SIZE), long.output)
}

#[test]
fn long_lines_are_refused(rt: HostRuntime) {
    for (number, long) in LONG.iter().enumerate() {
        assert!(rt; is_answered(&rt, rt.alloc(), long), "line {number}");
    }
}

/// Counts the bytes that it takes.
#[derive(Drop)]
struct CountingSink<'a> {
    written: &'a Cell<usize>,
}

impl<'a> Sink for CountingSink<'a> {
    ghost held = { λ _. None };

    ghost faults = { λ _. 0 };

    fn write(&mut self, piece: &[u8]) -> Result<usize, Failed> {
        self.written
            .set(self.written.get().saturating_add(piece.len()));
        Ok(piece.len())
    }

    fn faults(&self) -> u64 {
        0
    }
}

/// Gives a piece a call, and counts the calls at which the sink doesn't hold what it should.
#[derive(Drop)]
struct WatchingSource<'a> {
    /// Each piece with the number of bytes that are to be written when it is asked for.
    pieces: &'a [(&'static [u8], usize)],
    given: usize,
    written: &'a Cell<usize>,
    untimely: u64,
}

impl<'a> Source for WatchingSource<'a> {
    ghost left = { λ _. None };

    ghost faults = { λ _. 0 };

    fn read(&mut self, buffer: &mut [u8]) -> Result<usize, Failed> {
        let Some((piece, written)) = self.pieces.get(self.given) else {
            return Ok(0);
        };
        if self.written.get() != *written {
            self.untimely = self.untimely.saturating_add(1);
        }
        let count = piece.len().min(buffer.len());
        let (front, _) = piece.split_at(count);
        buffer[..count].copy_from_slice(front);
        self.given = self.given.saturating_add(1);
        Ok(count)
    }

    fn faults(&self) -> u64 {
        0
    }
}

/// Runs over a new store, without a box for rules. The status.
fn run_watched<S: Source>(
    rt: &impl Abort,
    alloc: Global,
    source: &mut S,
    sink: &mut CountingSink,
) -> u8 {
    let words = words_of(rt, alloc, &SMALLEST);
    let exts = boxes_of(rt, alloc, 0, 0);
    let mut disk = new_disk(rt, alloc, SIZE);
    let report = run_to(alloc, &words, exts, source, sink, &mut disk, 1 << 32);
    let status = report.status;
    drop(report);
    drop(disk);
    drop(words);
    status
}

const TALK: [(&[u8], usize); 8] = [
    (b"create r using tree (k int) key (k)\n", 0),
    (b"# a comment\n", 3),
    (b"insert r values (5)\n", 3),
    (b"insert r", 24),
    (b" 5\n", 24),
    (b"insert r values (6)\ninsert r values (7)\n", 36),
    (b"insert r values (6)", 78),
    (b"", 78),
];

#[test]
fn replies_are_written_before_more_is_read(rt: HostRuntime) {
    let alloc = rt.alloc();
    let written = Cell::new(0);
    let mut source = WatchingSource {
        pieces: &TALK,
        given: 0,
        written: &written,
        untimely: 0,
    };
    let mut sink = CountingSink { written: &written };
    assert!(rt; run_watched(&rt, alloc, &mut source, &mut sink) == 0);
    assert!(rt; source.untimely == 0 && source.given == TALK.len());
    // `ok` and three keys, a wrong line, and a key that is there.
    assert!(rt; written.get() == 92);
}

/// The most kilobytes of memory that a process has held so far, by what the system tells of it.
fn peak_of(status: &str) -> Option<u64> {
    let peak = status.lines().find_map(|line| line.strip_prefix("VmHWM:"))?;
    peak.trim().strip_suffix(" kB")?.parse().ok()
}

/// That of this process, where the system tells it.
fn peak_memory(rt: &HostRuntime) -> Option<u64> {
    let status = fs::read_to_string(rt, "/proc/self/status").ok()?;
    let peak = peak_of(&status);
    drop(status);
    peak
}

/// Gives the same piece at each of so many calls.
#[derive(Drop)]
struct RepeatingSource {
    piece: &'static [u8],
    left: u64,
}

impl Source for RepeatingSource {
    ghost left = { λ _. None };

    ghost faults = { λ _. 0 };

    fn read(&mut self, buffer: &mut [u8]) -> Result<usize, Failed> {
        if self.left == 0 {
            return Ok(0);
        }
        self.left -= 1;
        let count = self.piece.len().min(buffer.len());
        let (front, _) = self.piece.split_at(count);
        buffer[..count].copy_from_slice(front);
        Ok(count)
    }

    fn faults(&self) -> u64 {
        0
    }
}

/// Pieces of 64 bytes, and how many bytes are written in all where they are repeated.
const PASSED: [(&[u8], usize); 2] = [
    (
        b"# a comment that asks for no reply and has no need to be kept..\n",
        0,
    ),
    (
        b"a line that goes on and on, and of which no more is kept than 4K",
        14,
    ),
];

/// Whether a run over so many of the piece ends well, and so many bytes are written.
fn passes_over(
    rt: &impl Abort,
    alloc: Global,
    piece: &'static [u8],
    times: u64,
    replied: usize,
) -> bool {
    let written = Cell::new(0);
    let mut source = RepeatingSource { piece, left: times };
    let mut sink = CountingSink { written: &written };
    run_watched(rt, alloc, &mut source, &mut sink) == 0 && written.get() == replied
}

#[test]
fn passed_input_is_not_kept(rt: HostRuntime) {
    let alloc = rt.alloc();
    for (piece, replied) in PASSED.iter() {
        // What a run takes for its disk and its pages. 65 pieces are a line that is too long.
        assert!(rt; passes_over(&rt, alloc, piece, 65, *replied));
        let before = peak_memory(&rt);
        assert!(rt; passes_over(&rt, alloc, piece, 1 << 18, *replied));
        if let (Some(before), Some(after)) = (before, peak_memory(&rt)) {
            assert!(rt;
                after.saturating_sub(before) < 12_288,
                "{before} to {after} kB"
            );
        }
    }
}
