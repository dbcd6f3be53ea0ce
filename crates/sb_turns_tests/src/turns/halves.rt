//! The same two boxes over instances of both halves: of the durable one and of the volatile one.

ghost use Rattle.std.specs.Prelude.{◌≡◌, ◌≤◌, length, OnOk};
ghost use Rattle.sb_ctx.specs.Method.{IsInstance};
ghost use Rattle.sb_space.specs.Transactions.{KeepsChanges};
ghost use Rattle.sb_space.specs.Works.{Serves};
ghost use Rattle.sb_turns_tests.specs.Turns.{IsAtRest};
ghost use Rattle.sb_txn.specs.Parts.{parts};

use super::{Seen, ended, formatted, is_left, look, shown, tell};
use sb_ctx::{Instance, MethodCall, StorageMethod};
use sb_disk::Disk;
use sb_drive::{SpaceFault, run_method};
use sb_halves::{Halves, Tx};
use sb_memdisk::MemDisk;
use sb_memory::Memory;
use sb_space::Space;
use sb_space_tests::{Clerk, FIRST, Scribe, instance, opened};
use sb_value::RecKey;
use std::alloc::{AllocError, Global};

/// The two halves. Each numbers owners and pages for itself: the first instances have the same owners in both, and their roots are 2 and 3 in the store,
/// 0 and 1 in memory.
const STORE: bool = true;

const MEMORY: bool = false;

/// What is seen of the durable half, and of the volatile one.
type Both = (Seen, Seen);

/// What a box is told, by its number, over its instance in which half, and what is seen of that half then. The other half stays.
type Turn = (u8, bool, [u8; 3], Seen);

/// A transaction: its turns, with those behind a savepoint to which it goes back. It is committed or aborted.
#[derive(Clone, Copy)]
struct Work {
    before: &'static [Turn],
    behind: &'static [Turn],
    after: &'static [Turn],
    commits: bool,
}

const WORKS: [Work; 3] = [
    // The first box in the one half, the second in the other.
    Work {
        before: &[
            (0, STORE, *b"t-a", [*b"..0.a...", *b"...0...."]),
            (1, MEMORY, *b"t-b", [*b"0.......", *b".0b....."]),
            (0, STORE, *b"w2c", [*b"..c.a...", *b"...0...."]),
            (1, MEMORY, *b"w1d", [*b"0.......", *b".db....."]),
        ],
        behind: &[
            (1, MEMORY, *b"f2-", [*b"0.......", *b".d......"]),
            (0, STORE, *b"f4-", [*b"..c.....", *b"...0...."]),
            (1, MEMORY, *b"w1e", [*b"0.......", *b".e......"]),
            (0, STORE, *b"t-f", [*b"..c.f...", *b"...0...."]),
        ],
        after: &[
            (0, STORE, *b"t-g", [*b"..c.ag..", *b"...0...."]),
            (1, MEMORY, *b"t-h", [*b"0.......", *b".dbh...."]),
        ],
        commits: true,
    },
    // Each of the two in each half.
    Work {
        before: &[
            (1, STORE, *b"w3i", [*b"..c.ag..", *b"...i...."]),
            (0, MEMORY, *b"t-j", [*b"0...j...", *b".dbh...."]),
            (0, STORE, *b"f4-", [*b"..c..g..", *b"...i...."]),
            (1, MEMORY, *b"f2-", [*b"0...j...", *b".d.h...."]),
        ],
        behind: &[
            (1, STORE, *b"t-k", [*b"..c..g..", *b"...ik..."]),
            (0, MEMORY, *b"t-l", [*b"0.l.j...", *b".d.h...."]),
        ],
        after: &[
            (0, MEMORY, *b"w0m", [*b"m...j...", *b".d.h...."]),
            (1, STORE, *b"t-n", [*b"..c..g..", *b"...in..."]),
        ],
        commits: false,
    },
    Work {
        before: &[
            (0, MEMORY, *b"t-o", [*b"0...o...", *b".dbh...."]),
            (1, STORE, *b"w3p", [*b"..c.ag..", *b"...p...."]),
            (1, MEMORY, *b"f1-", [*b"0...o...", *b"..bh...."]),
            (0, STORE, *b"f2-", [*b"....ag..", *b"...p...."]),
        ],
        behind: &[
            (1, STORE, *b"t-q", [*b"....ag..", *b"..qp...."]),
            (0, MEMORY, *b"t-r", [*b"0r..o...", *b"..bh...."]),
        ],
        after: &[
            (1, STORE, *b"t-s", [*b"....ag..", *b"..sp...."]),
            (0, MEMORY, *b"f0-", [*b"....o...", *b"..bh...."]),
        ],
        commits: true,
    },
];

/// What is seen of a new store, and of the durable half behind each commit: the first makes the instances, the last frees two of them.
const COMMITS: [Seen; 5] = [
    [*b"........", *b"........"],
    [*b"..0.....", *b"...0...."],
    [*b"..c.ag..", *b"...0...."],
    [*b"....ag..", *b"..sp...."],
    [*b"........", *b"..sp...."],
];

/// What is seen of a new memory, behind the first commit, and behind the last one.
const NEW: Seen = [*b"........", *b"........"];

const FIRST_MADE: Seen = [*b"0.......", *b".0......"];

const LAST: Seen = [*b"....o...", *b"........"];

/// How many bytes are stored of the write at which the disk stops.
const TORN: [u32; 2] = [0, u32::MAX];

/// A driven call over the pages in memory.
fn drive_in_memory(
    alloc: Global,
    memory: &mut Memory,
    boxed: &dyn StorageMethod,
    inst: &Instance,
    order: RecKey,
) -> Result<(), SpaceFault>
    requires { IsInstance (method boxed.now) inst.now }
    ensures { length memory.old.past ≤ length memory.new.past }
{
    let call = MethodCall::Delete(order);
    let end = run_method(memory, alloc, boxed, inst, &call);
    drop(call);
    ended(end)
}

/// Tells the first box what to do in memory.
fn tell_first_in_memory(alloc: Global, memory: &mut Memory, order: RecKey) -> Result<(), SpaceFault>
    ensures { length memory.old.past ≤ length memory.new.past }
{
    let inst = instance(alloc, 0, 0)?;
    let told = drive_in_memory(alloc, memory, &Scribe {}, &inst, order);
    drop(inst);
    told
}

/// Tells the second box what to do in memory.
fn tell_second_in_memory(
    alloc: Global,
    memory: &mut Memory,
    order: RecKey,
) -> Result<(), SpaceFault>
    ensures { length memory.old.past ≤ length memory.new.past }
{
    let inst = instance(alloc, 1, 1)?;
    let told = drive_in_memory(alloc, memory, &Clerk {}, &inst, order);
    drop(inst);
    told
}

/// Tells the one or the other, by its number.
fn tell_in_memory(
    alloc: Global,
    memory: &mut Memory,
    number: u8,
    order: [u8; 3],
) -> Result<(), SpaceFault>
    ensures { length memory.old.past ≤ length memory.new.past }
{
    let key = RecKey::from_vec(order.to_vec(alloc)?);
    match number {
        0 => tell_first_in_memory(alloc, memory, key),
        _ => tell_second_in_memory(alloc, memory, key),
    }
}

/// Tells a box over its instance in a half.
fn tell_in<D: Disk>(
    alloc: Global,
    halves: &mut Halves,
    disk: &mut D,
    tx: &Tx,
    durable: bool,
    number: u8,
    order: [u8; 3],
) -> Result<(), SpaceFault>
    requires { Serves tx.now.durable.store.number (parts D.told D.len disk.old halves.old.durable.store) }
    ensures ready { Serves tx.now.durable.store.number (parts D.told D.len disk.new halves.new.durable.store) }
    ensures changes { KeepsChanges tx.now.durable.store.number halves.old.durable.store.book halves.new.durable.store.book }
    ensures writes { length halves.old.volatile.past ≤ length halves.new.volatile.past }
{
    if durable {
        tell(alloc, &mut halves.durable, disk, &tx.durable, number, order)
    } else {
        tell_in_memory(alloc, &mut halves.volatile, number, order)
    }
}

/// What an owner sees of the first eight pages in memory.
fn look_in_memory(memory: &Memory, owner: u16) -> [u8; 8] {
    let mut seen = [b'.'; 8];
    for n in 0..8u32 {
        seen[n as usize] = shown(Some(memory.page(owner, n)));
    }
    seen
}

/// What the two see of both halves.
fn look_at_both<D: Disk>(
    alloc: Global,
    halves: &mut Halves,
    disk: &mut D,
    tx: &Tx,
) -> Result<Both, SpaceFault>
    requires { Serves tx.now.durable.store.number (parts D.told D.len disk.old halves.old.durable.store) }
    ensures ready { Serves tx.now.durable.store.number (parts D.told D.len disk.new halves.new.durable.store) }
    ensures changes { KeepsChanges tx.now.durable.store.number halves.old.durable.store.book halves.new.durable.store.book }
    ensures same { halves.new.volatile ≡ halves.old.volatile }
{
    let durable = look(alloc, &mut halves.durable, disk, &tx.durable)?;
    let first = look_in_memory(&halves.volatile, FIRST.0);
    let second = look_in_memory(&halves.volatile, FIRST.0 + 1);
    Ok((durable, [first, second]))
}

/// What is seen of both where this is seen of one, and the other stays.
fn with_half(both: Both, durable: bool, seen: Seen) -> Both {
    let (store, memory) = both;
    if durable {
        (seen, memory)
    } else {
        (store, seen)
    }
}

/// Tells the boxes one after another what to do, up to the first turn behind which something else is seen: whether there is none.
fn take_turns<D: Disk>(
    alloc: Global,
    halves: &mut Halves,
    disk: &mut D,
    tx: &Tx,
    seen: &mut Both,
    turns: &[Turn],
) -> Result<bool, SpaceFault>
    requires { Serves tx.now.durable.store.number (parts D.told D.len disk.old halves.old.durable.store) }
    ensures ready { Serves tx.now.durable.store.number (parts D.told D.len disk.new halves.new.durable.store) }
    ensures changes { KeepsChanges tx.now.durable.store.number halves.old.durable.store.book halves.new.durable.store.book }
    ensures writes { length halves.old.volatile.past ≤ length halves.new.volatile.past }
{
    for turn in turns {
        let (number, durable, order, told) = *turn;
        tell_in(alloc, halves, disk, tx, durable, number, order)?;
        *seen = with_half(*seen, durable, told);
        if look_at_both(alloc, halves, disk, tx)? != *seen {
            return Ok(false);
        }
    }
    Ok(true)
}

/// The turns of a transaction, from what is seen before it.
fn carry_out<D: Disk>(
    alloc: Global,
    halves: &mut Halves,
    disk: &mut D,
    tx: &Tx,
    seen: &mut Both,
    work: &Work,
) -> Result<bool, SpaceFault>
    requires { Serves tx.now.durable.store.number (parts D.told D.len disk.old halves.old.durable.store) }
    ensures { Serves tx.now.durable.store.number (parts D.told D.len disk.new halves.new.durable.store) }
{
    let before = take_turns(alloc, halves, disk, tx, seen, work.before)?;
    let mark = halves.mark(tx);
    let stood = *seen;
    let behind = take_turns(alloc, halves, disk, tx, seen, work.behind)?;
    halves.back_to(disk, tx, mark)?;
    *seen = stood;
    let after = take_turns(alloc, halves, disk, tx, seen, work.after)?;
    Ok(before && behind && after)
}

/// Commits a transaction, or aborts it.
fn finish<D: Disk>(
    halves: &mut Halves,
    disk: &mut D,
    tx: Tx,
    commits: bool,
) -> Result<(), SpaceFault>
    requires { Serves tx.durable.store.number (parts D.told D.len disk.old halves.old.durable.store) }
    ensures { OnOk result (IsAtRest (parts D.told D.len disk.new halves.new.durable.store)) }
{
    if commits {
        halves.commit(disk, tx)
    } else {
        halves.abort(disk, tx)
    }
}

/// A whole transaction, from what is seen before it.
fn transact<D: Disk>(
    alloc: Global,
    halves: &mut Halves,
    disk: &mut D,
    seen: &mut Both,
    next: &Work,
) -> Result<bool, SpaceFault>
    requires { IsAtRest (parts D.told D.len disk.old halves.old.durable.store) }
    ensures { OnOk result (IsAtRest (parts D.told D.len disk.new halves.new.durable.store)) }
{
    let begun = *seen;
    let tx = halves.begin(disk)?;
    let done = carry_out(alloc, halves, disk, &tx, seen, next);
    finish(halves, disk, tx, next.commits)?;
    if !next.commits {
        *seen = begun;
    }
    done
}

/// Makes an instance of each half behind a savepoint, and goes back.
fn make_in_vain<D: Disk>(
    alloc: Global,
    halves: &mut Halves,
    disk: &mut D,
    tx: &Tx,
) -> Result<(), SpaceFault>
    requires { Serves tx.now.durable.store.number (parts D.told D.len disk.old halves.old.durable.store) }
    ensures { Serves tx.now.durable.store.number (parts D.told D.len disk.new halves.new.durable.store) }
{
    let mark = halves.mark(tx);
    let _durable = halves.new_instance(alloc, disk, tx, STORE)?;
    let _volatile = halves.new_instance(alloc, disk, tx, MEMORY)?;
    halves.back_to(disk, tx, mark)
}

/// Makes two instances of a half, the second one with the next owner and the next root: whether they are those that they should be.
fn make_two<D: Disk>(
    alloc: Global,
    halves: &mut Halves,
    disk: &mut D,
    tx: &Tx,
    durable: bool,
    root: u32,
) -> Result<bool, SpaceFault>
    requires { Serves tx.now.durable.store.number (parts D.told D.len disk.old halves.old.durable.store) }
    ensures { Serves tx.now.durable.store.number (parts D.told D.len disk.new halves.new.durable.store) }
{
    let first = halves.new_instance(alloc, disk, tx, durable)?;
    let second = halves.new_instance(alloc, disk, tx, durable)?;
    Ok(first == (FIRST.0, root) && second == (FIRST.0 + 1, root.saturating_add(1)))
}

/// The transaction that makes the instances.
fn make<D: Disk>(alloc: Global, halves: &mut Halves, disk: &mut D) -> Result<bool, SpaceFault>
    requires { IsAtRest (parts D.told D.len disk.old halves.old.durable.store) }
    ensures { OnOk result (IsAtRest (parts D.told D.len disk.new halves.new.durable.store)) }
{
    let tx = halves.begin(disk)?;
    let gone = make_in_vain(alloc, halves, disk, &tx);
    let durable = make_two(alloc, halves, disk, &tx, STORE, FIRST.1);
    let volatile = make_two(alloc, halves, disk, &tx, MEMORY, 0);
    finish(halves, disk, tx, true)?;
    gone?;
    Ok(durable? && volatile?)
}

/// Frees an instance of each half: whether all is seen that should be.
fn free_two<D: Disk>(
    alloc: Global,
    halves: &mut Halves,
    disk: &mut D,
    tx: &Tx,
) -> Result<bool, SpaceFault>
    requires { Serves tx.now.durable.store.number (parts D.told D.len disk.old halves.old.durable.store) }
    ensures { Serves tx.now.durable.store.number (parts D.told D.len disk.new halves.new.durable.store) }
{
    halves.free_owner(alloc, disk, tx, FIRST.0, STORE)?;
    halves.free_owner(alloc, disk, tx, FIRST.0 + 1, MEMORY)?;
    Ok(look_at_both(alloc, halves, disk, tx)? == (COMMITS[4], LAST))
}

/// The transaction that frees them.
fn free<D: Disk>(alloc: Global, halves: &mut Halves, disk: &mut D) -> Result<bool, SpaceFault>
    requires { IsAtRest (parts D.told D.len disk.old halves.old.durable.store) }
{
    let tx = halves.begin(disk)?;
    let freed = free_two(alloc, halves, disk, &tx);
    finish(halves, disk, tx, true)?;
    freed
}

/// All transactions, up to one that is refused: how many commits were answered Ok, and whether all was seen that should be.
fn run<D: Disk>(alloc: Global, halves: &mut Halves, disk: &mut D) -> (u32, bool)
    requires { IsAtRest (parts D.told D.len disk.old halves.old.durable.store) }
{
    let Ok(mut good) = make(alloc, halves, disk) else {
        return (0, false);
    };
    let mut commits: u32 = 1;
    let mut seen = (COMMITS[1], FIRST_MADE);
    for next in &WORKS {
        let Ok(done) = transact(alloc, halves, disk, &mut seen, next) else {
            return (commits, false);
        };
        good = good && done;
        commits = commits.saturating_add(u32::from(next.commits));
    }
    match free(alloc, halves, disk) {
        Ok(freed) => (commits.saturating_add(1), good && freed),
        Err(_) => (commits, false),
    }
}

/// The same over a store that is opened beside a new memory.
fn ran<D: Disk>(alloc: Global, disk: &mut D) -> Option<(u32, bool)> {
    let store = opened(alloc, disk)?;
    let mut halves = Halves {
        durable: Space { store },
        volatile: Memory::new(alloc),
    };
    let ran = run(alloc, &mut halves, disk);
    drop(halves);
    Some(ran)
}

/// What is seen of both halves of such a store.
fn found<D: Disk>(alloc: Global, disk: &mut D) -> Option<Both> {
    let store = opened(alloc, disk)?;
    let mut halves = Halves {
        durable: Space { store },
        volatile: Memory::new(alloc),
    };
    let Ok(tx) = halves.begin(disk) else {
        drop(halves);
        return None;
    };
    let found = look_at_both(alloc, &mut halves, disk, &tx);
    let ended = halves.abort(disk, tx);
    drop(halves);
    match ended {
        Ok(()) => found.ok(),
        Err(_) => None,
    }
}

#[test]
fn each_box_has_its_own_pages_in_each_half(rt: HostRuntime) {
    let alloc = rt.alloc();
    let mut disk = formatted(alloc).expect(&rt, "memory");
    let ran = ran(alloc, &mut disk);
    let found = found(alloc, &mut disk);
    drop(disk);
    assert!(rt; ran == Some((4, true)));
    assert!(rt; found == Some((COMMITS[4], NEW)));
}

/// Whether a run that stops at this call leaves what was acknowledged of the durable half.
fn survives(alloc: Global, image: &[u8], call: u64, torn: u32) -> Result<bool, AllocError> {
    let mut disk = MemDisk::from_image(alloc, image)?;
    disk.stop_at(call, torn);
    let ran = ran(alloc, &mut disk);
    let left = is_left(alloc, &disk, ran, &COMMITS);
    drop(disk);
    left
}

/// The first of so many calls, with how many bytes are stored of it, at which a stop loses something.
fn first_lost(alloc: Global, image: &[u8], calls: u64) -> Result<Option<(u64, u32)>, AllocError> {
    for call in 0..calls {
        for torn in TORN.iter() {
            if !survives(alloc, image, call, *torn)? {
                return Ok(Some((call, *torn)));
            }
        }
    }
    Ok(None)
}

#[test]
fn each_stop_leaves_the_durable_pages_of_the_acknowledged_commits(rt: HostRuntime) {
    let alloc = rt.alloc();
    let mut disk = formatted(alloc).expect(&rt, "memory");
    let image = disk.image().expect(&rt, "memory");
    let from = disk.clock();
    let _run = ran(alloc, &mut disk);
    let calls = disk.clock().saturating_sub(from);
    drop(disk);
    let lost = first_lost(alloc, image.as_slice(), calls);
    drop(image);
    // A write and two syncs, and a write of the gates, for each commit.
    assert!(rt; calls >= 16);
    assert_eq!(rt; lost.expect(&rt, "memory"), None);
}
