//! What no clause says: that calls succeed while memory lasts. And every stop of a run, with the journal that is found after it.

ghost use Rattle.std.specs.Prelude.{◌≡◌, ◌<◌, ◌≤◌, Some, true, length, IfOk};
ghost use Rattle.sb_disk.specs.Moments.{IsSettled};
ghost use Rattle.sb_journal.specs.State.{Lies, StandsOn};

use sb_disk::{Disk, Failed, no_bytes_leave_none_pending};
use sb_journal::{Journal, JournalFault, Region, one_reading, past_is_one, past_is_unread};
use sb_memdisk::MemDisk;
use sb_value::Bytes;
use std::alloc::Global;
use std::process::Abort;
use std::test::*;

const GATES: Region = Region { start: 0, len: 4 };

const LOG: Region = Region { start: 4, len: 60 };

/// The chunks that a run makes.
const MADE: [&'static [u8]; 3] = [b"onetwo", b"three", b"fourfive"];

// A journal on a disk of 64 bytes on which nothing is pending.
fn open_on<D: Disk>(alloc: Global, disk: &mut D) -> Result<Journal, JournalFault>
    requires settled { IsSettled (D.told disk.old) }
    ensures lies { IfOk result (λ j. Lies (D.len disk.new) j.gates j.log) }
    ensures stands { IfOk result (StandsOn (D.told disk.new)) }
{
    if disk.len() < 64 {
        return Err(JournalFault::Fault);
    }
    Journal::open(alloc, disk, GATES, LOG)
}

// One append, and perhaps a force.
fn add<D: Disk>(
    journal: &mut Journal,
    disk: &mut D,
    bytes: &[u8],
    forced: bool,
) -> Result<(), JournalFault>
    requires lies { Lies (D.len disk.old) journal.old.gates journal.old.log }
    requires stands { StandsOn (D.told disk.old) journal.old }
    requires some { 0 < length bytes.now }
    requires few { length bytes.now ≤ 16384 }
    ensures lies { Lies (D.len disk.new) journal.new.gates journal.new.log }
    ensures stands { StandsOn (D.told disk.new) journal.new }
{
    journal.append(disk, bytes)?;
    if forced && journal.clean() {
        journal.force(disk)?;
    }
    Ok(())
}

// Five appends and three forces.
fn run<D: Disk>(journal: &mut Journal, disk: &mut D) -> Result<(), JournalFault>
    requires lies { Lies (D.len disk.old) journal.old.gates journal.old.log }
    requires stands { StandsOn (D.told disk.old) journal.old }
    ensures lies { Lies (D.len disk.new) journal.new.gates journal.new.log }
    ensures stands { StandsOn (D.told disk.new) journal.new }
{
    add(journal, disk, b"one", false)?;
    add(journal, disk, b"two", true)?;
    add(journal, disk, b"three", true)?;
    add(journal, disk, b"four", false)?;
    add(journal, disk, b"five", true)
}

// Whether the chunk of this number has these bytes.
fn holds<D: Disk>(journal: &mut Journal, disk: &mut D, i: u32, bytes: &[u8]) -> bool
    requires lies { Lies (D.len disk.old) journal.old.gates journal.old.log }
    requires stands { StandsOn (D.told disk.old) journal.old }
    ensures lies { Lies (D.len disk.new) journal.new.gates journal.new.log }
    ensures stands { StandsOn (D.told disk.new) journal.new }
{
    let mut buffer = [0; 8];
    if bytes.len() > 8 || i >= journal.chunks() || journal.chunk_len(i) != bytes.len() as u32 {
        return false;
    }
    let held = &mut buffer[..bytes.len()];
    journal.read_chunk(disk, i, 0, held).is_ok() && &*held == bytes
}

// A write of no bytes.
fn write_nothing<D: Disk>(disk: &mut D) -> Result<(), Failed>
    requires settled { IsSettled (D.told disk.old) }
    ensures settled { IsSettled (D.told disk.new) }
{
    no_bytes_leave_none_pending();
    disk.write_at(0, b"")
}

// The number of chunks, where these are the first that a run makes.
fn found<D: Disk>(alloc: Global, disk: &mut D) -> Option<u32>
    requires settled { IsSettled (D.told disk.old) }
{
    let mut journal = open_on(alloc, disk).ok()?;
    let chunks = journal.chunks();
    let first = holds(&mut journal, disk, 0, MADE[0]);
    let second = holds(&mut journal, disk, 1, MADE[1]);
    let third = holds(&mut journal, disk, 2, MADE[2]);
    match (chunks, first, second, third) {
        (0, _, _, _) | (1, true, _, _) | (2, true, true, _) | (3, true, true, true) => Some(chunks),
        _ => None,
    }
}

// How many forces of the run were answered Ok before the stop.
fn stopped<D: Disk>(alloc: Global, disk: &mut D) -> Option<u32>
    requires settled { IsSettled (D.told disk.old) }
{
    let mut journal = open_on(alloc, disk).ok()?;
    let _done = run(&mut journal, disk).is_ok();
    Some(journal.forces())
}

// A disk that holds these bytes.
fn disk_of(rt: &impl Abort, alloc: Global, bytes: Bytes) -> MemDisk
    ensures settled { IsSettled (Some result.story) }
{
    let disk = MemDisk::from_image(alloc, bytes.as_slice()).expect(rt, "memory");
    drop(bytes);
    disk
}

// The number of chunks over these bytes, where they are the first that a run makes.
fn found_in(rt: &impl Abort, alloc: Global, bytes: Bytes) -> Option<u32> {
    let mut disk = disk_of(rt, alloc, bytes);
    let chunks = found(alloc, &mut disk);
    drop(disk);
    chunks
}

// Whether a run that is stopped leaves a prefix of its chunks, with all that was forced.
fn leaves_a_prefix(rt: &impl Abort, alloc: Global, call: u64, torn: u32) -> bool {
    let mut disk = MemDisk::new(alloc, 64).expect(rt, "memory");
    disk.stop_at(call, torn);
    let forced = stopped(alloc, &mut disk);
    let image = disk.image().expect(rt, "memory");
    let synced = disk.synced().expect(rt, "memory");
    drop(disk);
    let left = found_in(rt, alloc, image);
    let kept = found_in(rt, alloc, synced);
    forced.is_some() && left >= forced && kept >= forced
}

#[test]
fn a_stop_leaves_a_prefix_with_all_that_was_forced(rt: HostRuntime) {
    let alloc = rt.alloc();
    for call in 0..18 {
        for torn in [0, 1, 9] {
            assert!(rt;
                leaves_a_prefix(&rt, alloc, call, torn),
                "call {call}, {torn} bytes"
            );
        }
    }
}

#[test]
fn a_journal_opens_behind_a_write_of_no_bytes(rt: HostRuntime) -> Result<(), Fail> {
    let alloc = rt.alloc();
    for (failing, written) in [(9, true), (0, false)] {
        let mut disk = MemDisk::new(alloc, 64)?;
        disk.fail_at(&[failing])?;
        let done = write_nothing(&mut disk).is_ok();
        let opened = open_on(alloc, &mut disk).is_ok();
        assert!(rt; done == written && opened, "call {failing} fails");
    }
    Ok(())
}

// A run, and then a closing of all gates.
fn closed<D: Disk>(alloc: Global, disk: &mut D) -> bool
    requires settled { IsSettled (D.told disk.old) }
{
    let Ok(mut journal) = open_on(alloc, disk) else {
        return false;
    };
    if run(&mut journal, disk).is_err() {
        return false;
    }
    journal.close_all(disk).is_ok() && journal.clean() && !journal.pending() && journal.used() == 0
}

fn is_all_or_none(chunks: Option<u32>) -> bool {
    chunks == Some(0) || chunks == Some(3)
}

// Whether a closing that is stopped leaves all chunks or none, and none once it is done.
fn closes_all_or_none(rt: &impl Abort, alloc: Global, call: u64, torn: u32) -> bool {
    let mut disk = MemDisk::new(alloc, 64).expect(rt, "memory");
    disk.stop_at(call, torn);
    let is_closed = closed(alloc, &mut disk);
    let image = disk.image().expect(rt, "memory");
    let synced = disk.synced().expect(rt, "memory");
    drop(disk);
    let left = found_in(rt, alloc, image);
    let kept = found_in(rt, alloc, synced);
    let is_done = call == 21;
    is_closed == is_done
        && is_all_or_none(left)
        && is_all_or_none(kept)
        && (!is_done || kept == Some(0))
}

#[test]
fn a_stop_of_a_closing_leaves_all_chunks_or_none(rt: HostRuntime) {
    let alloc = rt.alloc();
    for call in 17..22 {
        for torn in [0, 1, 9] {
            assert!(rt;
                closes_all_or_none(&rt, alloc, call, torn),
                "call {call}, {torn} bytes"
            );
        }
    }
}

#[test]
fn five_bytes_on_zeros_are_one_chunk(rt: HostRuntime) {
    let alloc = rt.alloc();
    let mut disk = MemDisk::new(alloc, 64).expect(&rt, "memory");
    let made = made(alloc, &mut disk, &[1, 0, 0, 0, 1]);
    assert!(rt; made.is_ok());
    drop(made);
    let image = disk.image().expect(&rt, "memory");
    drop(disk);
    let front = [0xa5, 0, 0, 0, 0, 0, 0, 5, 1, 0, 0, 0, 1];
    assert!(rt; image.as_slice().starts_with(&front));
    let mut disk = disk_of(&rt, alloc, image);
    let journal = open_on(alloc, &mut disk).expect(&rt, "a journal");
    assert_eq!(rt; journal.chunks(), 1);
    assert_eq!(rt; sizes(&journal), (Some(5), 9));
    assert!(rt; !journal.pending());
    drop(journal);
    drop(disk);
}

// Makes one chunk of these bytes.
fn made<D: Disk>(alloc: Global, disk: &mut D, bytes: &[u8]) -> Result<Journal, JournalFault>
    requires settled { IsSettled (D.told disk.old) }
    requires some { 0 < length bytes.now }
    requires few { length bytes.now ≤ 16384 }
    ensures lies { IfOk result (λ j. Lies (D.len disk.new) j.gates j.log) }
    ensures stands { IfOk result (StandsOn (D.told disk.new)) }
{
    let mut journal = open_on(alloc, disk)?;
    add(&mut journal, disk, bytes, true)?;
    Ok(journal)
}

// The length of the first chunk, and what is used.
fn sizes(journal: &Journal) -> (Option<u32>, u64) {
    let first = if journal.chunks() > 0 {
        Some(journal.chunk_len(0))
    } else {
        None
    };
    (first, journal.used())
}

/// What is found where the first two gates and the length in front of the first chunk are these.
struct Content {
    gates: [u8; 2],
    len: u8,
    chunks: Result<u32, JournalFault>,
    clean: bool,
}

const CONTENTS: [Content; 8] = [
    Content {
        gates: [0, 0],
        len: 5,
        chunks: Ok(0),
        clean: true,
    },
    Content {
        gates: [0x5a, 0],
        len: 5,
        chunks: Ok(0),
        clean: true,
    },
    Content {
        gates: [0, 0xa5],
        len: 5,
        chunks: Ok(0),
        clean: false,
    },
    Content {
        gates: [0xa5, 0],
        len: 56,
        chunks: Ok(1),
        clean: true,
    },
    Content {
        gates: [0xa5, 0],
        len: 57,
        chunks: Err(JournalFault::BadChunk {
            chunk: 0,
            offset: 0,
        }),
        clean: false,
    },
    Content {
        gates: [0xa5, 0xa5],
        len: 52,
        chunks: Ok(2),
        clean: true,
    },
    Content {
        gates: [0xa5, 0xa5],
        len: 53,
        chunks: Err(JournalFault::BadChunk {
            chunk: 1,
            offset: 0,
        }),
        clean: false,
    },
    Content {
        gates: [0xa5, 0xa5],
        len: 56,
        chunks: Err(JournalFault::BadChunk {
            chunk: 1,
            offset: 0,
        }),
        clean: false,
    },
];

#[test]
fn opening_finds_the_chunks_or_the_bad_one(rt: HostRuntime) -> Result<(), Fail> {
    let alloc = rt.alloc();
    for row in &CONTENTS {
        let mut image = [0; 64];
        image[0] = row.gates[0];
        image[1] = row.gates[1];
        image[7] = row.len;
        let mut disk = MemDisk::from_image(alloc, &image)?;
        let opened = open_on(alloc, &mut disk).map(|j| (j.chunks(), j.clean()));
        assert_eq!(rt; opened, row.chunks.map(|chunks| (chunks, row.clean)));
    }
    Ok(())
}

// A chunk of 40 bytes, which takes 44 of 60, and then appends of these lengths.
fn filled<D: Disk>(
    journal: &mut Journal,
    disk: &mut D,
    first: usize,
    second: usize,
) -> Result<(), JournalFault>
    requires lies { Lies (D.len disk.old) journal.old.gates journal.old.log }
    requires stands { StandsOn (D.told disk.old) journal.old }
{
    if first == 0 || first > 40 || second == 0 || second > 40 {
        return Err(JournalFault::Fault);
    }
    let bytes = [7; 40];
    add(journal, disk, &bytes, true)?;
    add(journal, disk, &bytes[..first], false)?;
    add(journal, disk, &bytes[..second], false)
}

#[test]
fn a_full_log_is_refused_with_its_numbers(rt: HostRuntime) -> Result<(), Fail> {
    let alloc = rt.alloc();
    let rows = [
        (11, 1, None),
        (12, 1, Some((60, 1))),
        (11, 2, Some((59, 2))),
        (13, 1, Some((44, 17))),
    ];
    for (first, second, full) in rows {
        let mut disk = MemDisk::new(alloc, 64)?;
        let mut journal = open_on(alloc, &mut disk)?;
        let result = filled(&mut journal, &mut disk, first, second);
        let wanted = match full {
            Some((used, need)) => Err(JournalFault::LogFull {
                used,
                need,
                total: 60,
            }),
            None => Ok(()),
        };
        assert_eq!(rt; result, wanted);
    }
    Ok(())
}

// A chunk for each of the four gates, and one more.
fn overfilled<D: Disk>(journal: &mut Journal, disk: &mut D) -> Result<(), JournalFault>
    requires lies { Lies (D.len disk.old) journal.old.gates journal.old.log }
    requires stands { StandsOn (D.told disk.old) journal.old }
{
    run(journal, disk)?;
    add(journal, disk, b"six", true)?;
    add(journal, disk, b"seven", true)
}

#[test]
fn full_gates_are_refused_with_their_numbers(rt: HostRuntime) -> Result<(), Fail> {
    let alloc = rt.alloc();
    let mut disk = MemDisk::new(alloc, 64)?;
    let mut journal = open_on(alloc, &mut disk)?;
    let full = JournalFault::GatesFull { used: 4, total: 4 };
    assert_eq!(rt; overfilled(&mut journal, &mut disk), Err(full));
    assert_eq!(rt;
        (journal.chunks(), journal.forces(), journal.pending()),
        (4, 4, true)
    );
    Ok(())
}

// Each call once.
fn each<D: Disk>(journal: &mut Journal, disk: &mut D) -> Result<(), JournalFault>
    requires lies { Lies (D.len disk.old) journal.old.gates journal.old.log }
    requires stands { StandsOn (D.told disk.old) journal.old }
    ensures lies { Lies (D.len disk.new) journal.new.gates journal.new.log }
    ensures stands { StandsOn (D.told disk.new) journal.new }
{
    add(journal, disk, b"one", true)?;
    read_first(journal, disk)?;
    journal.close_all(disk)
}

// Reads the first byte of the first chunk.
fn read_first<D: Disk>(journal: &mut Journal, disk: &mut D) -> Result<(), JournalFault>
    requires lies { Lies (D.len disk.old) journal.old.gates journal.old.log }
    requires stands { StandsOn (D.told disk.old) journal.old }
    ensures lies { Lies (D.len disk.new) journal.new.gates journal.new.log }
    ensures stands { StandsOn (D.told disk.new) journal.new }
{
    if journal.chunks() == 0 || journal.chunk_len(0) == 0 {
        return Err(JournalFault::Fault);
    }
    journal.read_chunk(disk, 0, 0, &mut [0])
}

// Whether each call answers that one has failed.
fn is_down<D: Disk>(journal: &mut Journal, disk: &mut D) -> bool
    requires lies { Lies (D.len disk.old) journal.old.gates journal.old.log }
    requires stands { StandsOn (D.told disk.old) journal.old }
{
    let down = Err(JournalFault::Fault);
    let appended = journal.append(disk, b"one") == down;
    let forced = !journal.clean() || journal.force(disk) == down;
    let read = read_first(journal, disk) == down;
    appended && forced && read && journal.close_all(disk) == down
}

#[test]
fn after_a_fault_the_device_is_left_alone(rt: HostRuntime) -> Result<(), Fail> {
    let alloc = rt.alloc();
    for call in 2..12 {
        let mut disk = MemDisk::new(alloc, 64)?;
        let mut journal = open_on(alloc, &mut disk)?;
        disk.fail_at(&[call])?;
        let result = each(&mut journal, &mut disk);
        assert_eq!(rt; result, Err(JournalFault::Fault), "call {call}");
        let down = is_down(&mut journal, &mut disk);
        assert!(rt; down && disk.calls() == call + 1, "call {call}");
    }
    Ok(())
}

// How many gates are open of so many that begin a disk, with a log of 64 bytes behind them.
fn chunks_behind<D: Disk>(alloc: Global, disk: &mut D, gates: u64) -> Result<u32, JournalFault>
    requires settled { IsSettled (D.told disk.old) }
{
    if gates > 65536 || disk.len() < gates + 64 {
        return Err(JournalFault::Fault);
    }
    let log = Region {
        start: gates,
        len: 64,
    };
    let journal = Journal::open(
        alloc,
        disk,
        Region {
            start: 0,
            len: gates,
        },
        log,
    )?;
    Ok(journal.chunks())
}

#[test]
fn gates_are_read_in_pieces(rt: HostRuntime) -> Result<(), Fail> {
    let alloc = rt.alloc();
    let mut disk = MemDisk::new(alloc, 65600)?;
    assert_eq!(rt; chunks_behind(alloc, &mut disk, 65536), Ok(0));
    assert!(rt; disk.calls() <= 40);
    Ok(())
}

#[test]
fn the_laws_of_reading_are_there(_: HostRuntime) {
    one_reading();
    past_is_unread();
    past_is_one();
}
