//! Four transactions over four pages, the last two of them in turns, stopped at each call and restarted, and with each call failing in turn. And a log that fills, and the numbers of transactions.

ghost use Rattle.std.specs.Prelude.{◌≡◌, ◌<◌, ◌≤◌, [], true, false, length, IfSome, OnOk, OnErr};
ghost use Rattle.sb_txn.specs.Beside.{IsOne, AreTwo};
ghost use Rattle.sb_txn.specs.Book.{IsAmong, IsOnly, standing_of};
ghost use Rattle.sb_txn.specs.Clauses.{IsReady};
ghost use Rattle.sb_txn.specs.Parts.{parts};

use sb_disk::Disk;
use sb_memdisk::MemDisk;
use sb_recover::{format, restart};
use sb_txn::{Mark, Store, StoreFault, Tx};
use std::alloc::Global;
use std::process::Abort;
use std::test::*;

/// The smallest store.
const PAGES: u32 = 64;

const LOG: u64 = 2_097_152;

/// The bytes that it takes of a disk.
const SIZE: u64 = 2_428_928;

/// Where a transaction writes in a page, and where the one beside it does.
const LOW: u16 = 5;

const HIGH: u16 = 105;

/// Three bytes of each of four pages, and three others of the first one.
type Found = [[u8; 3]; 5];

/// They are so before the first commit, behind it, behind the second, and behind the third.
const STATES: [Found; 4] = [
    [[0; 3]; 5],
    [*b"aaa", *b"bbb", [0; 3], [0; 3], [0; 3]],
    [*b"aaa", *b"ccc", [0; 3], *b"eee", [0; 3]],
    [*b"aaa", *b"ccc", [0; 3], *b"eee", *b"hhh"],
];

/// How many bytes of a write are stored at a stop: none, one, half of a change or of an Image, all.
const TORN: [u32; 5] = [0, 1, 11, 2050, 100_000];

// A disk of so many zeros, on which a store is made.
fn made(rt: &impl Abort, alloc: Global, size: u64) -> MemDisk {
    let mut disk = MemDisk::new(alloc, size).expect(rt, "memory");
    let _made = format(alloc, &mut disk, PAGES, LOG).is_ok();
    disk
}

// Opens a store of at least 64 pages.
fn opened<D: Disk>(alloc: Global, disk: &mut D) -> Option<Store>
    ensures ready { IfSome result (λ s. IsReady (parts D.told D.len disk.new s)) }
    ensures none { IfSome result (λ s. s.book.actives ≡ []) }
    ensures pages { IfSome result (λ s. 64 ≤ s.pool.geometry.pages) }
{
    let store = match Store::open(alloc, disk, 8) {
        Ok(store) => store,
        Err(_) => return None,
    };
    if store.pages() < PAGES {
        drop(store);
        return None;
    }
    Some(store)
}

// Three bytes of a page.
fn three<D: Disk>(store: &mut Store, disk: &mut D, n: u32, at: usize) -> Result<[u8; 3], StoreFault>
    requires ready { IsReady (parts D.told D.len disk.old store.old) }
    requires pages { 64 ≤ store.old.pool.geometry.pages }
    requires page { n < 64 }
    requires place { at < 4000 }
    ensures ready { IsReady (parts D.told D.len disk.new store.new) }
    ensures actives { OnOk result (store.new.book.actives ≡ store.old.book.actives) }
    ensures pages { 64 ≤ store.new.pool.geometry.pages }
{
    let page = store.page(disk, n)?;
    Ok([page[at], page[at + 1], page[at + 2]])
}

// Those of the first four pages, and the others.
fn found<D: Disk>(store: &mut Store, disk: &mut D) -> Result<Found, StoreFault>
    requires ready { IsReady (parts D.told D.len disk.old store.old) }
    requires pages { 64 ≤ store.old.pool.geometry.pages }
{
    let mut found = [[0; 3]; 5];
    for n in 0..4u32 {
        found[n as usize] = three(store, disk, n, LOW as usize)?;
    }
    found[4] = three(store, disk, 0, HIGH as usize)?;
    Ok(found)
}

// What a store that is opened finds.
fn look<D: Disk>(alloc: Global, disk: &mut D) -> Option<Found> {
    let mut store = opened(alloc, disk)?;
    let found = found(&mut store, disk);
    drop(store);
    found.ok()
}

// Over these bytes.
fn look_in(rt: &impl Abort, alloc: Global, image: &[u8]) -> Option<Found> {
    let mut disk = MemDisk::from_image(alloc, image).expect(rt, "memory");
    let found = look(alloc, &mut disk);
    drop(disk);
    found
}

// Over what a disk holds.
fn look_at(rt: &impl Abort, alloc: Global, disk: MemDisk) -> Option<Found> {
    let image = disk.image().expect(rt, "memory");
    drop(disk);
    let found = look_in(rt, alloc, image.as_slice());
    drop(image);
    found
}

// Puts bytes into a page, behind its first five.
fn put<D: Disk>(
    store: &mut Store,
    disk: &mut D,
    tx: &Tx,
    page: u32,
    bytes: &[u8],
) -> Result<(), StoreFault>
    requires ready { IsReady (parts D.told D.len disk.old store.old) }
    requires only { store.old.book.down ≡ false → IsOnly tx.now.number store.old.book.actives }
    requires pages { 64 ≤ store.old.pool.geometry.pages }
    requires page { page < 64 }
    requires some { 0 < length bytes.now }
    requires few { length bytes.now ≤ 4000 }
    ensures ready { IsReady (parts D.told D.len disk.new store.new) }
    ensures only { store.new.book.down ≡ false → IsOnly tx.now.number store.new.book.actives }
    ensures standing { OnOk result (standing_of tx.now.number store.old.book.actives ≤ standing_of tx.now.number store.new.book.actives) }
    ensures pages { 64 ≤ store.new.pool.geometry.pages }
{
    store.change(disk, tx, 1, page, LOW, bytes)
}

// Takes the changes behind the savepoint back.
fn take_back<D: Disk>(
    store: &mut Store,
    disk: &mut D,
    tx: &Tx,
    mark: Mark,
) -> Result<(), StoreFault>
    requires ready { IsReady (parts D.told D.len disk.old store.old) }
    requires only { store.old.book.down ≡ false → IsOnly tx.now.number store.old.book.actives }
    requires mark { store.old.book.down ≡ false → mark.changes ≤ standing_of tx.now.number store.old.book.actives }
    requires pages { 64 ≤ store.old.pool.geometry.pages }
    ensures ready { IsReady (parts D.told D.len disk.new store.new) }
    ensures only { store.new.book.down ≡ false → IsOnly tx.now.number store.new.book.actives }
    ensures pages { 64 ≤ store.new.pool.geometry.pages }
{
    store.back_to(disk, tx, mark)
}

// Commits what was done, or undoes it.
fn finish<D: Disk>(
    store: &mut Store,
    disk: &mut D,
    tx: Tx,
    done: Result<(), StoreFault>,
) -> Result<(), StoreFault>
    requires ready { IsReady (parts D.told D.len disk.old store.old) }
    requires only { store.old.book.down ≡ false → IsOnly tx.number store.old.book.actives }
    requires pages { 64 ≤ store.old.pool.geometry.pages }
    ensures ready { IsReady (parts D.told D.len disk.new store.new) }
    ensures none { OnOk result (store.new.book.actives ≡ []) }
    ensures pages { 64 ≤ store.new.pool.geometry.pages }
{
    match done {
        Ok(()) => store.commit(disk, tx),
        Err(fault) => {
            let _left = store.abort(disk, tx).is_ok();
            Err(fault)
        }
    }
}

// What the first transaction does.
fn change_two<D: Disk>(store: &mut Store, disk: &mut D, tx: &Tx) -> Result<(), StoreFault>
    requires ready { IsReady (parts D.told D.len disk.old store.old) }
    requires only { store.old.book.down ≡ false → IsOnly tx.now.number store.old.book.actives }
    requires pages { 64 ≤ store.old.pool.geometry.pages }
    ensures ready { IsReady (parts D.told D.len disk.new store.new) }
    ensures only { store.new.book.down ≡ false → IsOnly tx.now.number store.new.book.actives }
    ensures pages { 64 ≤ store.new.pool.geometry.pages }
{
    put(store, disk, tx, 0, b"aaa")?;
    put(store, disk, tx, 1, b"bbb")
}

// What is taken back again.
fn change_twice<D: Disk>(store: &mut Store, disk: &mut D, tx: &Tx) -> Result<(), StoreFault>
    requires ready { IsReady (parts D.told D.len disk.old store.old) }
    requires only { store.old.book.down ≡ false → IsOnly tx.now.number store.old.book.actives }
    requires some { IsOnly tx.now.number store.old.book.actives }
    requires pages { 64 ≤ store.old.pool.geometry.pages }
    ensures ready { IsReady (parts D.told D.len disk.new store.new) }
    ensures only { store.new.book.down ≡ false → IsOnly tx.now.number store.new.book.actives }
    ensures pages { 64 ≤ store.new.pool.geometry.pages }
{
    let mark = store.mark(tx);
    put(store, disk, tx, 2, b"ddd")?;
    put(store, disk, tx, 1, b"xx")?;
    take_back(store, disk, tx, mark)
}

// What the second transaction does.
fn change_three<D: Disk>(store: &mut Store, disk: &mut D, tx: &Tx) -> Result<(), StoreFault>
    requires ready { IsReady (parts D.told D.len disk.old store.old) }
    requires only { store.old.book.down ≡ false → IsOnly tx.now.number store.old.book.actives }
    requires some { IsOnly tx.now.number store.old.book.actives }
    requires pages { 64 ≤ store.old.pool.geometry.pages }
    ensures ready { IsReady (parts D.told D.len disk.new store.new) }
    ensures only { store.new.book.down ≡ false → IsOnly tx.now.number store.new.book.actives }
    ensures pages { 64 ≤ store.new.pool.geometry.pages }
{
    change_twice(store, disk, tx)?;
    put(store, disk, tx, 1, b"ccc")?;
    put(store, disk, tx, 3, b"eee")
}

// The first transaction, which is committed.
fn first<D: Disk>(store: &mut Store, disk: &mut D) -> Result<(), StoreFault>
    requires ready { IsReady (parts D.told D.len disk.old store.old) }
    requires none { store.old.book.actives ≡ [] }
    requires pages { 64 ≤ store.old.pool.geometry.pages }
    ensures ready { IsReady (parts D.told D.len disk.new store.new) }
    ensures none { OnOk result (store.new.book.actives ≡ []) }
    ensures pages { 64 ≤ store.new.pool.geometry.pages }
{
    let tx = store.begin(disk)?;
    let done = change_two(store, disk, &tx);
    finish(store, disk, tx, done)
}

// The second, which is committed too.
fn second<D: Disk>(store: &mut Store, disk: &mut D) -> Result<(), StoreFault>
    requires ready { IsReady (parts D.told D.len disk.old store.old) }
    requires none { store.old.book.actives ≡ [] }
    requires pages { 64 ≤ store.old.pool.geometry.pages }
    ensures ready { IsReady (parts D.told D.len disk.new store.new) }
    ensures none { OnOk result (store.new.book.actives ≡ []) }
    ensures pages { 64 ≤ store.new.pool.geometry.pages }
{
    let tx = store.begin(disk)?;
    let done = change_three(store, disk, &tx);
    finish(store, disk, tx, done)
}

// Puts bytes into a page by the first of two active transactions.
fn put_low<D: Disk>(
    store: &mut Store,
    disk: &mut D,
    low: &Tx,
    high: &Tx,
    page: u32,
    bytes: &[u8],
) -> Result<(), StoreFault>
    requires ready { IsReady (parts D.told D.len disk.old store.old) }
    requires two { store.old.book.down ≡ false → AreTwo true low.now.number high.now.number store.old.book.actives }
    requires pages { 64 ≤ store.old.pool.geometry.pages }
    requires page { page < 64 }
    requires some { 0 < length bytes.now }
    requires few { length bytes.now ≤ 90 }
    ensures ready { IsReady (parts D.told D.len disk.new store.new) }
    ensures two { store.new.book.down ≡ false → AreTwo true low.now.number high.now.number store.new.book.actives }
    ensures pages { 64 ≤ store.new.pool.geometry.pages }
{
    store.change(disk, low, 1, page, LOW, bytes)
}

// Puts bytes into a page by the second one.
fn put_high<D: Disk>(
    store: &mut Store,
    disk: &mut D,
    low: &Tx,
    high: &Tx,
    page: u32,
    bytes: &[u8],
) -> Result<(), StoreFault>
    requires ready { IsReady (parts D.told D.len disk.old store.old) }
    requires two { store.old.book.down ≡ false → AreTwo true low.now.number high.now.number store.old.book.actives }
    requires pages { 64 ≤ store.old.pool.geometry.pages }
    requires page { page < 64 }
    requires some { 0 < length bytes.now }
    requires few { length bytes.now ≤ 90 }
    ensures ready { IsReady (parts D.told D.len disk.new store.new) }
    ensures two { store.new.book.down ≡ false → AreTwo true low.now.number high.now.number store.new.book.actives }
    ensures pages { 64 ≤ store.new.pool.geometry.pages }
{
    store.change(disk, high, 1, page, HIGH, bytes)
}

// The two change a page in turns.
fn take_turns<D: Disk>(
    store: &mut Store,
    disk: &mut D,
    low: &Tx,
    high: &Tx,
) -> Result<(), StoreFault>
    requires ready { IsReady (parts D.told D.len disk.old store.old) }
    requires two { store.old.book.down ≡ false → AreTwo true low.now.number high.now.number store.old.book.actives }
    requires pages { 64 ≤ store.old.pool.geometry.pages }
    ensures ready { IsReady (parts D.told D.len disk.new store.new) }
    ensures two { store.new.book.down ≡ false → AreTwo true low.now.number high.now.number store.new.book.actives }
    ensures pages { 64 ≤ store.new.pool.geometry.pages }
{
    put_low(store, disk, low, high, 0, b"fff")?;
    put_high(store, disk, low, high, 0, b"hhh")?;
    put_low(store, disk, low, high, 2, b"ggg")
}

// Commits the second one, or takes it out again. The first is active still.
fn finish_high<D: Disk>(
    store: &mut Store,
    disk: &mut D,
    low: &Tx,
    high: Tx,
    done: Result<(), StoreFault>,
) -> Result<(), StoreFault>
    requires ready { IsReady (parts D.told D.len disk.old store.old) }
    requires two { store.old.book.down ≡ false → AreTwo true low.now.number high.number store.old.book.actives }
    requires pages { 64 ≤ store.old.pool.geometry.pages }
    ensures ready { IsReady (parts D.told D.len disk.new store.new) }
    ensures only { store.new.book.down ≡ false → IsOnly low.now.number store.new.book.actives }
    ensures pages { 64 ≤ store.new.pool.geometry.pages }
{
    match done {
        Ok(()) => store.commit(disk, high),
        Err(fault) => {
            let _left = store.abort(disk, high).is_ok();
            Err(fault)
        }
    }
}

// What a transaction does beside another one.
fn beside<D: Disk>(store: &mut Store, disk: &mut D, low: &Tx) -> Result<(), StoreFault>
    requires ready { IsReady (parts D.told D.len disk.old store.old) }
    requires one { store.old.book.down ≡ false → IsOne true low.now.number store.old.book.actives }
    requires pages { 64 ≤ store.old.pool.geometry.pages }
    ensures ready { IsReady (parts D.told D.len disk.new store.new) }
    ensures only { store.new.book.down ≡ false → IsOnly low.now.number store.new.book.actives }
    ensures pages { 64 ≤ store.new.pool.geometry.pages }
{
    if !store.may_begin() {
        return Ok(());
    }
    let high = store.begin(disk)?;
    let done = take_turns(store, disk, low, &high);
    finish_high(store, disk, low, high, done)
}

// The third, which isn't committed, and the fourth beside it, which is. The end of the third makes no call on the disk.
fn third<D: Disk>(store: &mut Store, disk: &mut D) -> Result<(), StoreFault>
    requires ready { IsReady (parts D.told D.len disk.old store.old) }
    requires none { store.old.book.actives ≡ [] }
    requires pages { 64 ≤ store.old.pool.geometry.pages }
    ensures ready { IsReady (parts D.told D.len disk.new store.new) }
    ensures pages { 64 ≤ store.new.pool.geometry.pages }
{
    let low = store.begin(disk)?;
    let done = beside(store, disk, &low);
    let ended = store.abort(disk, low);
    match done {
        Ok(()) => ended,
        Err(fault) => Err(fault),
    }
}

// All four, with the number of commits that were answered Ok, and whether no call failed.
fn run<D: Disk>(store: &mut Store, disk: &mut D) -> (u32, bool)
    requires ready { IsReady (parts D.told D.len disk.old store.old) }
    requires none { store.old.book.actives ≡ [] }
    requires pages { 64 ≤ store.old.pool.geometry.pages }
    ensures ready { IsReady (parts D.told D.len disk.new store.new) }
    ensures pages { 64 ≤ store.new.pool.geometry.pages }
{
    match first(store, disk) {
        Ok(()) => match second(store, disk) {
            Ok(()) => match third(store, disk) {
                Ok(()) => (3, true),
                Err(_) => (2, false),
            },
            Err(_) => (1, false),
        },
        Err(_) => (0, false),
    }
}

// A run by a store that is opened.
fn stopped<D: Disk>(alloc: Global, disk: &mut D) -> Option<(u32, bool)> {
    let mut store = opened(alloc, disk)?;
    let ran = run(&mut store, disk);
    drop(store);
    Some(ran)
}

// How many commits make the first pages so.
fn commits_of(found: Option<Found>) -> Option<u32> {
    match found {
        Some(found) if found == STATES[0] => Some(0),
        Some(found) if found == STATES[1] => Some(1),
        Some(found) if found == STATES[2] => Some(2),
        Some(found) if found == STATES[3] => Some(3),
        _ => None,
    }
}

// Whether it is so with the acknowledged commits, and perhaps the one that was going on.
fn is_kept(found: Option<Found>, committed: u32) -> bool {
    match commits_of(found) {
        Some(commits) => commits >= committed && commits - committed <= 1,
        None => false,
    }
}

// Whether a restart of the image, stopped at a call, is done, and what it leaves.
fn restarted(
    rt: &impl Abort,
    alloc: Global,
    image: &[u8],
    call: u64,
    torn: u32,
) -> (bool, Option<Found>) {
    let mut disk = MemDisk::from_image(alloc, image).expect(rt, "memory");
    disk.stop_at(call, torn);
    let done = restart(alloc, &mut disk).is_ok();
    (done, look_at(rt, alloc, disk))
}

// Whether a restart of the image, stopped at any call, leaves pages that are kept; a call that comes after the last one stops nothing.
fn survives(rt: &impl Abort, alloc: Global, image: &[u8], torn: u32, committed: u32) -> bool {
    for call in 0..12u64 {
        let (done, left) = restarted(rt, alloc, image, call, torn);
        if !is_kept(left, committed) || (call == 11 && !done) {
            return false;
        }
    }
    true
}

// Tests what the image of a disk leaves, and what was synced.
fn test_left(rt: &impl Abort, alloc: Global, disk: &MemDisk, torn: u32, committed: u32) -> bool {
    let synced = disk.synced().expect(rt, "memory");
    let found = look_in(rt, alloc, synced.as_slice());
    drop(synced);
    let image = disk.image().expect(rt, "memory");
    let survived = survives(rt, alloc, image.as_slice(), torn, committed);
    drop(image);
    is_kept(found, committed) && survived
}

// Stops a run at a call, and tests what is left.
fn test_stop(rt: &impl Abort, alloc: Global, image: &[u8], call: u64, torn: u32) -> bool {
    let mut disk = MemDisk::from_image(alloc, image).expect(rt, "memory");
    disk.stop_at(call, torn);
    let is_left = match stopped(alloc, &mut disk) {
        Some((committed, _)) => test_left(rt, alloc, &disk, torn, committed),
        None => false,
    };
    drop(disk);
    is_left
}

// The clock and the calls behind the opening, reads among these.
fn behind_opening(rt: &impl Abort, alloc: Global, image: &[u8]) -> (u64, u64) {
    let mut disk = MemDisk::from_image(alloc, image).expect(rt, "memory");
    drop(opened(alloc, &mut disk));
    let counts = (disk.clock(), disk.calls());
    drop(disk);
    counts
}

// The same behind the run.
fn behind_run(rt: &impl Abort, alloc: Global, image: &[u8]) -> (u64, u64) {
    let mut disk = MemDisk::from_image(alloc, image).expect(rt, "memory");
    let _run = stopped(alloc, &mut disk);
    let counts = (disk.clock(), disk.calls());
    drop(disk);
    counts
}

// The first stop of a call that leaves something else.
fn first_lost(
    rt: &impl Abort,
    alloc: Global,
    image: &[u8],
    from: u64,
    to: u64,
) -> Option<(u64, u32)> {
    for call in from..to {
        for torn in TORN.iter() {
            if !test_stop(rt, alloc, image, call, *torn) {
                return Some((call, *torn));
            }
        }
    }
    None
}

#[test]
fn a_stop_leaves_a_prefix_with_each_acknowledged_commit(rt: HostRuntime) {
    let alloc = rt.alloc();
    let disk = made(&rt, alloc, SIZE);
    let image = disk.image().expect(&rt, "memory");
    drop(disk);
    let (from, _) = behind_opening(&rt, alloc, image.as_slice());
    let (to, _) = behind_run(&rt, alloc, image.as_slice());
    let lost = first_lost(&rt, alloc, image.as_slice(), from, to);
    drop(image);
    assert_eq!(rt; (to.saturating_sub(from), lost), (33, None));
}

// Fails a call of a run: how many commits were acknowledged, and whether the run then ends, and the store answers Down without a call.
fn failed(rt: &impl Abort, alloc: Global, disk: &mut MemDisk, call: u64) -> Option<(u32, bool)> {
    let mut store = opened(alloc, disk)?;
    disk.fail_at(&[call]).expect(rt, "memory");
    let (committed, done) = run(&mut store, disk);
    let calls = disk.calls();
    let answer = three(&mut store, disk, 0, LOW as usize);
    drop(store);
    let down = matches!(answer, Err(StoreFault::Down));
    Some((committed, !done && down && disk.calls() == calls))
}

// Fails a call of a run. The run then ends, the store answers Down without a call, and the image has each acknowledged commit.
fn test_fault(rt: &impl Abort, alloc: Global, image: &[u8], call: u64) -> bool {
    let mut disk = MemDisk::from_image(alloc, image).expect(rt, "memory");
    let failed = failed(rt, alloc, &mut disk, call);
    let found = look_at(rt, alloc, disk);
    match failed {
        Some((committed, is_down)) => is_down && is_kept(found, committed),
        None => false,
    }
}

// The first failing call that leaves something else.
fn first_up(rt: &impl Abort, alloc: Global, image: &[u8], from: u64, to: u64) -> Option<u64> {
    for call in from..to {
        if !test_fault(rt, alloc, image, call) {
            return Some(call);
        }
    }
    None
}

#[test]
fn after_a_failed_call_the_store_is_down(rt: HostRuntime) {
    let alloc = rt.alloc();
    let disk = made(&rt, alloc, SIZE);
    let image = disk.image().expect(&rt, "memory");
    drop(disk);
    let (_, from) = behind_opening(&rt, alloc, image.as_slice());
    let (_, to) = behind_run(&rt, alloc, image.as_slice());
    let up = first_up(&rt, alloc, image.as_slice(), from, to);
    drop(image);
    assert_eq!(rt; (to.saturating_sub(from), up), (37, None));
}

// Changes of 4,000 bytes until one is refused: how many were made, and why no more.
fn fill<D: Disk>(store: &mut Store, disk: &mut D, tx: &Tx) -> (u32, Option<StoreFault>)
    requires ready { IsReady (parts D.told D.len disk.old store.old) }
    requires only { store.old.book.down ≡ false → IsOnly tx.now.number store.old.book.actives }
    requires pages { 64 ≤ store.old.pool.geometry.pages }
    ensures ready { IsReady (parts D.told D.len disk.new store.new) }
    ensures only { store.new.book.down ≡ false → IsOnly tx.now.number store.new.book.actives }
    ensures pages { 64 ≤ store.new.pool.geometry.pages }
{
    let bytes = [7u8; 4000];
    for i in 0..300u32 {
        if let Err(fault) = put(store, disk, tx, i % 4, &bytes) {
            return (i, Some(fault));
        }
    }
    (300, None)
}

// Takes all changes out again.
fn leave<D: Disk>(store: &mut Store, disk: &mut D, tx: Tx) -> Result<(), StoreFault>
    requires ready { IsReady (parts D.told D.len disk.old store.old) }
    requires only { store.old.book.down ≡ false → IsOnly tx.number store.old.book.actives }
    requires pages { 64 ≤ store.old.pool.geometry.pages }
    ensures ready { IsReady (parts D.told D.len disk.new store.new) }
    ensures none { OnOk result (store.new.book.actives ≡ []) }
    ensures pages { 64 ≤ store.new.pool.geometry.pages }
{
    store.abort(disk, tx)
}

// Fills the log, and takes all out again.
fn filled_once<D: Disk>(
    store: &mut Store,
    disk: &mut D,
) -> Result<(u32, Option<StoreFault>), StoreFault>
    requires ready { IsReady (parts D.told D.len disk.old store.old) }
    requires none { store.old.book.actives ≡ [] }
    requires pages { 64 ≤ store.old.pool.geometry.pages }
    ensures ready { IsReady (parts D.told D.len disk.new store.new) }
    ensures none { OnOk result (store.new.book.actives ≡ []) }
    ensures pages { 64 ≤ store.new.pool.geometry.pages }
{
    let tx = store.begin(disk)?;
    let filled = fill(store, disk, &tx);
    leave(store, disk, tx)?;
    Ok(filled)
}

// Commits something behind a checkpoint: what stood in page 0 before that.
fn emptied<D: Disk>(store: &mut Store, disk: &mut D) -> Result<[u8; 3], StoreFault>
    requires ready { IsReady (parts D.told D.len disk.old store.old) }
    requires none { store.old.book.actives ≡ [] }
    requires pages { 64 ≤ store.old.pool.geometry.pages }
{
    let back = three(store, disk, 0, LOW as usize)?;
    store.checkpoint(disk)?;
    first(store, disk)?;
    Ok(back)
}

// Fills the log, takes all out again, and commits something behind a checkpoint. What stood in page 0 behind the abort comes third.
fn full<D: Disk>(
    store: &mut Store,
    disk: &mut D,
) -> Result<(u32, Option<StoreFault>, [u8; 3]), StoreFault>
    requires ready { IsReady (parts D.told D.len disk.old store.old) }
    requires none { store.old.book.actives ≡ [] }
    requires pages { 64 ≤ store.old.pool.geometry.pages }
{
    let (changes, fault) = filled_once(store, disk)?;
    let back = emptied(store, disk)?;
    Ok((changes, fault, back))
}

// By a store that is opened.
fn filled<D: Disk>(alloc: Global, disk: &mut D) -> Option<(u32, Option<StoreFault>, [u8; 3])> {
    let mut store = opened(alloc, disk)?;
    let filled = full(&mut store, disk);
    drop(store);
    filled.ok()
}

#[test]
fn a_full_log_is_emptied_by_a_checkpoint(rt: HostRuntime) {
    let alloc = rt.alloc();
    let mut disk = made(&rt, alloc, SIZE);
    let filled = filled(alloc, &mut disk);
    let found = look_at(&rt, alloc, disk);
    // Four Images of 4,101 bytes, 259 changes of 8,015, a Begin of 5 and a length field of 4 are used. One more change wants a length field and the reserve of 1,024.
    let refused = StoreFault::LogFull {
        used: 2_092_298,
        need: 9_043,
        total: LOG,
    };
    assert!(rt; filled == Some((259, Some(refused), [0; 3])));
    assert!(rt; commits_of(found) == Some(1));
}

// The number of a transaction that changes nothing.
fn number_of_one<D: Disk>(store: &mut Store, disk: &mut D) -> Result<u32, StoreFault>
    requires ready { IsReady (parts D.told D.len disk.old store.old) }
    requires none { store.old.book.actives ≡ [] }
    requires pages { 64 ≤ store.old.pool.geometry.pages }
    ensures ready { IsReady (parts D.told D.len disk.new store.new) }
    ensures none { OnOk result (store.new.book.actives ≡ []) }
    ensures pages { 64 ≤ store.new.pool.geometry.pages }
{
    let tx = store.begin(disk)?;
    let number = tx.number();
    leave(store, disk, tx)?;
    Ok(number)
}

// The numbers of two transactions, and of one behind a checkpoint.
fn numbers<D: Disk>(store: &mut Store, disk: &mut D) -> Result<[u32; 3], StoreFault>
    requires ready { IsReady (parts D.told D.len disk.old store.old) }
    requires none { store.old.book.actives ≡ [] }
    requires pages { 64 ≤ store.old.pool.geometry.pages }
{
    let first = number_of_one(store, disk)?;
    let second = number_of_one(store, disk)?;
    store.checkpoint(disk)?;
    let third = number_of_one(store, disk)?;
    Ok([first, second, third])
}

// By a store that is opened.
fn counted<D: Disk>(alloc: Global, disk: &mut D) -> Option<[u32; 3]> {
    let mut store = opened(alloc, disk)?;
    let numbers = numbers(&mut store, disk);
    drop(store);
    numbers.ok()
}

#[test]
fn numbers_begin_anew_behind_a_checkpoint(rt: HostRuntime) {
    let alloc = rt.alloc();
    let mut disk = made(&rt, alloc, SIZE);
    let counted = counted(alloc, &mut disk);
    drop(disk);
    assert_eq!(rt; counted, Some([1, 2, 1]));
}
