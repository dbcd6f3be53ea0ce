//! Two boxes that take turns on one store, each over an instance of its own, by driven calls within transactions that are committed, aborted, or taken back
//! to a savepoint; and the same stopped at each write and sync. A box is seen to get no bytes of the other one's pages.

ghost use Rattle.std.specs.Prelude.{◌≡◌, OnOk};
ghost use Rattle.sb_ctx.specs.Method.{IsInstance};
ghost use Rattle.sb_space.specs.Durable.{parts_in};
ghost use Rattle.sb_space.specs.Transactions.{KeepsChanges};
ghost use Rattle.sb_space.specs.View.{lent};
ghost use Rattle.sb_space.specs.Works.{Serves};
ghost use Rattle.sb_turns_tests.specs.Turns.{IsAtRest};
ghost use Rattle.sb_txn.specs.Parts.{parts};

mod filling;
mod halves;
mod numbers;

use sb_ctx::{Ctx, Instance, MethodCall, Move, StorageMethod};
use sb_disk::Disk;
use sb_drive::{Ask, PageSpace, SpaceFault, run_method};
use sb_memdisk::MemDisk;
use sb_recover::format;
use sb_space::{Durable, Space, Tx};
use sb_space_tests::{Clerk, FIRST, LOG, PAGES, SIZE, Scribe, instance, opened};
use sb_value::RecKey;
use std::alloc::{AllocError, Global};

/// The first eight pages as the one box has them and as the other: a dot for a page without bytes, a 0 for one of zeros, else its first byte, behind which
/// all are zeros.
type Seen = [[u8; 8]; 2];

/// What a box is told, by its number, and what is seen then.
type Turn = (u8, [u8; 3], Seen);

/// A transaction: its turns, with those behind a savepoint to which it goes back. It is committed or aborted.
#[derive(Clone, Copy)]
struct Work {
    before: &'static [Turn],
    behind: &'static [Turn],
    after: &'static [Turn],
    commits: bool,
}

const WORKS: [Work; 4] = [
    Work {
        before: &[
            (0, *b"t-a", [*b"..0.a...", *b"...0...."]),
            (1, *b"t-b", [*b"..0.a...", *b"...0.b.."]),
            (0, *b"w2c", [*b"..c.a...", *b"...0.b.."]),
            (1, *b"w3d", [*b"..c.a...", *b"...d.b.."]),
        ],
        behind: &[],
        after: &[],
        commits: true,
    },
    Work {
        before: &[
            (1, *b"f5-", [*b"..c.a...", *b"...d...."]),
            (0, *b"t-e", [*b"..c.ae..", *b"...d...."]),
        ],
        behind: &[
            (0, *b"f4-", [*b"..c..e..", *b"...d...."]),
            (1, *b"t-f", [*b"..c..e..", *b"...df..."]),
            (1, *b"w3g", [*b"..c..e..", *b"...gf..."]),
        ],
        after: &[(1, *b"t-h", [*b"..c.ae..", *b"...d..h."])],
        commits: true,
    },
    Work {
        before: &[
            (0, *b"f2-", [*b"....ae..", *b"...d..h."]),
            (1, *b"t-i", [*b"....ae..", *b"..id..h."]),
        ],
        behind: &[(0, *b"w4j", [*b"....je..", *b"..id..h."])],
        after: &[(1, *b"w2k", [*b"....ae..", *b"..kd..h."])],
        commits: false,
    },
    Work {
        before: &[
            (0, *b"f4-", [*b"..c..e..", *b"...d..h."]),
            (1, *b"t-l", [*b"..c..e..", *b"...dl.h."]),
            (1, *b"f3-", [*b"..c..e..", *b"....l.h."]),
            (0, *b"t-m", [*b"..cm.e..", *b"....l.h."]),
        ],
        behind: &[(1, *b"w4n", [*b"..cm.e..", *b"....n.h."])],
        after: &[(0, *b"f5-", [*b"..cm....", *b"....l.h."])],
        commits: true,
    },
];

/// What is seen of a new store, and behind each commit: the first makes the two instances.
const COMMITS: [Seen; 5] = [
    [*b"........", *b"........"],
    [*b"..0.....", *b"...0...."],
    [*b"..c.a...", *b"...d.b.."],
    [*b"..c.ae..", *b"...d..h."],
    [*b"..cm....", *b"....l.h."],
];

/// How many bytes are stored of the write at which the disk stops.
const TORN: [u32; 3] = [0, 1, u32::MAX];

/// How a driven call ended.
fn ended(end: Result<Move, SpaceFault>) -> Result<(), SpaceFault> {
    match end {
        Ok(last) => {
            drop(last);
            Ok(())
        }
        Err(fault) => Err(fault),
    }
}

/// A driven call.
fn drive<D: Disk>(
    alloc: Global,
    pages: &mut Durable<'_, D>,
    boxed: &dyn StorageMethod,
    inst: &Instance,
    order: RecKey,
) -> Result<(), SpaceFault>
    requires ready { Serves (lent pages.old).tx (parts_in D.told D.len (lent pages.old)) }
    requires inst { IsInstance (method boxed.now) inst.now }
    ensures ready { Serves (lent pages.old).tx (parts_in D.told D.len (lent pages.new)) }
    ensures same_store { pages.new.store.ghost_name ≡ pages.old.store.ghost_name }
    ensures same_disk { pages.new.disk.ghost_name ≡ pages.old.disk.ghost_name }
    ensures changes { KeepsChanges (lent pages.old).tx pages.old.store.now.book pages.new.store.now.book }
{
    let call = MethodCall::Delete(order);
    let end = run_method(pages, alloc, boxed, inst, &call);
    drop(call);
    ended(end)
}

/// Tells the first box what to do.
fn tell_first<D: Disk>(
    alloc: Global,
    space: &mut Space,
    disk: &mut D,
    tx: &Tx,
    order: RecKey,
) -> Result<(), SpaceFault>
    requires { Serves tx.now.store.number (parts D.told D.len disk.old space.old.store) }
    ensures ready { Serves tx.now.store.number (parts D.told D.len disk.new space.new.store) }
    ensures changes { KeepsChanges tx.now.store.number space.old.store.book space.new.store.book }
{
    let inst = instance(alloc, 0, FIRST.1)?;
    let mut pages = Durable::new(&mut space.store, disk, &tx.store);
    let told = drive(alloc, &mut pages, &Scribe {}, &inst, order);
    drop(inst);
    told
}

/// Tells the second box what to do.
fn tell_second<D: Disk>(
    alloc: Global,
    space: &mut Space,
    disk: &mut D,
    tx: &Tx,
    order: RecKey,
) -> Result<(), SpaceFault>
    requires { Serves tx.now.store.number (parts D.told D.len disk.old space.old.store) }
    ensures ready { Serves tx.now.store.number (parts D.told D.len disk.new space.new.store) }
    ensures changes { KeepsChanges tx.now.store.number space.old.store.book space.new.store.book }
{
    let inst = instance(alloc, 1, FIRST.1 + 1)?;
    let mut pages = Durable::new(&mut space.store, disk, &tx.store);
    let told = drive(alloc, &mut pages, &Clerk {}, &inst, order);
    drop(inst);
    told
}

/// Tells the one or the other, by its number.
fn tell<D: Disk>(
    alloc: Global,
    space: &mut Space,
    disk: &mut D,
    tx: &Tx,
    number: u8,
    order: [u8; 3],
) -> Result<(), SpaceFault>
    requires { Serves tx.now.store.number (parts D.told D.len disk.old space.old.store) }
    ensures ready { Serves tx.now.store.number (parts D.told D.len disk.new space.new.store) }
    ensures changes { KeepsChanges tx.now.store.number space.old.store.book space.new.store.book }
{
    let key = RecKey::from_vec(order.to_vec(alloc)?);
    match number {
        0 => tell_first(alloc, space, disk, tx, key),
        _ => tell_second(alloc, space, disk, tx, key),
    }
}

/// A page as it is seen.
fn shown(bytes: Option<&[u8]>) -> u8 {
    match bytes {
        None | Some([]) => b'.',
        Some([first, rest @ ..]) => {
            if !rest.iter().all(|byte| *byte == 0) {
                b'!'
            } else if *first == 0 {
                b'0'
            } else {
                *first
            }
        }
    }
}

/// A page as its owner sees it, or another one.
fn peek_at<D: Disk>(
    alloc: Global,
    pages: &mut Durable<'_, D>,
    owner: u16,
    n: u32,
) -> Result<u8, SpaceFault>
    requires { Serves (lent pages.old).tx (parts_in D.told D.len (lent pages.old)) }
    ensures ready { Serves (lent pages.old).tx (parts_in D.told D.len (lent pages.new)) }
    ensures same_store { pages.new.store.ghost_name ≡ pages.old.store.ghost_name }
    ensures same_disk { pages.new.disk.ghost_name ≡ pages.old.disk.ghost_name }
    ensures changes { KeepsChanges (lent pages.old).tx pages.old.store.now.book pages.new.store.now.book }
{
    let mut ctx = Ctx::new(alloc);
    if let Err(fault) = pages.answer(owner, &mut ctx, Ask::Page(n)) {
        drop(ctx);
        return Err(fault);
    }
    let byte = shown(ctx.page(n));
    drop(ctx);
    Ok(byte)
}

/// The same within the space.
fn peek<D: Disk>(
    alloc: Global,
    space: &mut Space,
    disk: &mut D,
    tx: &Tx,
    owner: u16,
    n: u32,
) -> Result<u8, SpaceFault>
    requires { Serves tx.now.store.number (parts D.told D.len disk.old space.old.store) }
    ensures ready { Serves tx.now.store.number (parts D.told D.len disk.new space.new.store) }
    ensures changes { KeepsChanges tx.now.store.number space.old.store.book space.new.store.book }
{
    let mut pages = Durable::new(&mut space.store, disk, &tx.store);
    peek_at(alloc, &mut pages, owner, n)
}

/// What an owner sees of the first eight pages.
fn look_as<D: Disk>(
    alloc: Global,
    space: &mut Space,
    disk: &mut D,
    tx: &Tx,
    owner: u16,
) -> Result<[u8; 8], SpaceFault>
    requires { Serves tx.now.store.number (parts D.told D.len disk.old space.old.store) }
    ensures ready { Serves tx.now.store.number (parts D.told D.len disk.new space.new.store) }
    ensures changes { KeepsChanges tx.now.store.number space.old.store.book space.new.store.book }
{
    let mut seen = [b'.'; 8];
    for n in 0..8u32 {
        seen[n as usize] = peek(alloc, space, disk, tx, owner, n)?;
    }
    Ok(seen)
}

/// What the two see.
fn look<D: Disk>(
    alloc: Global,
    space: &mut Space,
    disk: &mut D,
    tx: &Tx,
) -> Result<Seen, SpaceFault>
    requires { Serves tx.now.store.number (parts D.told D.len disk.old space.old.store) }
    ensures ready { Serves tx.now.store.number (parts D.told D.len disk.new space.new.store) }
    ensures changes { KeepsChanges tx.now.store.number space.old.store.book space.new.store.book }
{
    let first = look_as(alloc, space, disk, tx, FIRST.0)?;
    let second = look_as(alloc, space, disk, tx, FIRST.0 + 1)?;
    Ok([first, second])
}

/// Tells the boxes one after another what to do, up to the first turn behind which something else is seen: whether there is none.
fn take_turns<D: Disk>(
    alloc: Global,
    space: &mut Space,
    disk: &mut D,
    tx: &Tx,
    turns: &[Turn],
) -> Result<bool, SpaceFault>
    requires { Serves tx.now.store.number (parts D.told D.len disk.old space.old.store) }
    ensures ready { Serves tx.now.store.number (parts D.told D.len disk.new space.new.store) }
    ensures changes { KeepsChanges tx.now.store.number space.old.store.book space.new.store.book }
{
    for turn in turns {
        let (number, order, seen) = *turn;
        tell(alloc, space, disk, tx, number, order)?;
        if look(alloc, space, disk, tx)? != seen {
            return Ok(false);
        }
    }
    Ok(true)
}

/// The turns of a transaction.
fn carry_out<D: Disk>(
    alloc: Global,
    space: &mut Space,
    disk: &mut D,
    tx: &Tx,
    work: &Work,
) -> Result<bool, SpaceFault>
    requires { Serves tx.now.store.number (parts D.told D.len disk.old space.old.store) }
    ensures { Serves tx.now.store.number (parts D.told D.len disk.new space.new.store) }
{
    let before = take_turns(alloc, space, disk, tx, work.before)?;
    let mark = space.mark(tx);
    let behind = take_turns(alloc, space, disk, tx, work.behind)?;
    space.back_to(disk, tx, mark)?;
    let after = take_turns(alloc, space, disk, tx, work.after)?;
    Ok(before && behind && after)
}

/// Commits a transaction, or aborts it.
fn finish<D: Disk>(space: &mut Space, disk: &mut D, tx: Tx, commits: bool) -> Result<(), SpaceFault>
    requires { Serves tx.store.number (parts D.told D.len disk.old space.old.store) }
    ensures { OnOk result (IsAtRest (parts D.told D.len disk.new space.new.store)) }
{
    if commits {
        space.commit(disk, tx)
    } else {
        space.abort(disk, tx)
    }
}

/// A whole transaction.
fn transact<D: Disk>(
    alloc: Global,
    space: &mut Space,
    disk: &mut D,
    next: &Work,
) -> Result<bool, SpaceFault>
    requires { IsAtRest (parts D.told D.len disk.old space.old.store) }
    ensures { OnOk result (IsAtRest (parts D.told D.len disk.new space.new.store)) }
{
    let tx = space.begin(disk)?;
    let done = carry_out(alloc, space, disk, &tx, next);
    finish(space, disk, tx, next.commits)?;
    done
}

/// Makes the two instances.
fn make_two<D: Disk>(
    alloc: Global,
    space: &mut Space,
    disk: &mut D,
    tx: &Tx,
) -> Result<bool, SpaceFault>
    requires { Serves tx.now.store.number (parts D.told D.len disk.old space.old.store) }
    ensures { Serves tx.now.store.number (parts D.told D.len disk.new space.new.store) }
{
    let mut pages = Durable::new(&mut space.store, disk, &tx.store);
    let first = pages.new_instance(alloc)?;
    let second = pages.new_instance(alloc)?;
    Ok(first == FIRST && second == (FIRST.0 + 1, FIRST.1 + 1))
}

/// The transaction that makes them: whether they are those that they should be.
fn make<D: Disk>(alloc: Global, space: &mut Space, disk: &mut D) -> Result<bool, SpaceFault>
    requires { IsAtRest (parts D.told D.len disk.old space.old.store) }
    ensures { OnOk result (IsAtRest (parts D.told D.len disk.new space.new.store)) }
{
    let tx = space.begin(disk)?;
    let made = make_two(alloc, space, disk, &tx);
    finish(space, disk, tx, true)?;
    made
}

/// All transactions, up to one that is refused: how many commits were answered Ok, and whether all was seen that should be.
fn run<D: Disk>(alloc: Global, space: &mut Space, disk: &mut D) -> (u32, bool)
    requires { IsAtRest (parts D.told D.len disk.old space.old.store) }
{
    let Ok(mut good) = make(alloc, space, disk) else {
        return (0, false);
    };
    let mut commits: u32 = 1;
    for next in &WORKS {
        let Ok(done) = transact(alloc, space, disk, next) else {
            return (commits, false);
        };
        good = good && done;
        commits = commits.saturating_add(u32::from(next.commits));
    }
    (commits, good)
}

/// The same over a store that is opened.
fn ran<D: Disk>(alloc: Global, disk: &mut D) -> Option<(u32, bool)> {
    let store = opened(alloc, disk)?;
    let mut space = Space { store };
    let ran = run(alloc, &mut space, disk);
    drop(space);
    Some(ran)
}

/// What is seen of a store that is opened.
fn seen_in<D: Disk>(alloc: Global, disk: &mut D) -> Option<Seen> {
    let store = opened(alloc, disk)?;
    let mut space = Space { store };
    let Ok(tx) = space.begin(disk) else {
        drop(space);
        return None;
    };
    let found = look(alloc, &mut space, disk, &tx);
    let ended = space.abort(disk, tx);
    drop(space);
    match ended {
        Ok(()) => found.ok(),
        Err(_) => None,
    }
}

/// A disk with a new store, or without one where that can't be made.
fn formatted(alloc: Global) -> Result<MemDisk, AllocError> {
    let mut disk = MemDisk::new(alloc, SIZE)?;
    let _made = format(alloc, &mut disk, PAGES, LOG).is_ok();
    Ok(disk)
}

#[test]
fn each_box_has_its_own_pages(rt: HostRuntime) {
    let alloc = rt.alloc();
    let mut disk = formatted(alloc).expect(&rt, "memory");
    let first = seen_in(alloc, &mut disk);
    let ran = ran(alloc, &mut disk);
    let last = seen_in(alloc, &mut disk);
    drop(disk);
    assert!(rt; first == Some(COMMITS[0]));
    assert!(rt; ran == Some((4, true)));
    assert!(rt; last == Some(COMMITS[4]));
}

/// Whether these bytes have so many commits, or one more, where this is what is seen behind each.
fn is_kept(alloc: Global, image: &[u8], commits: u32, states: &[Seen]) -> Result<bool, AllocError> {
    let mut disk = MemDisk::from_image(alloc, image)?;
    let seen = seen_in(alloc, &mut disk);
    drop(disk);
    let Some(found) = seen else {
        return Ok(false);
    };
    Ok(
        states
            .iter()
            .skip(commits as usize)
            .take(2)
            .any(|state| *state == found),
    )
}

/// Whether a run that was stopped left what was acknowledged, in the bytes that were stored and in those that were synced. One that stopped before the store
/// was opened has acknowledged nothing.
fn is_left(
    alloc: Global,
    disk: &MemDisk,
    ran: Option<(u32, bool)>,
    states: &[Seen],
) -> Result<bool, AllocError> {
    let commits = match ran {
        Some((_, true)) => return Ok(false),
        Some((commits, false)) => commits,
        None => 0,
    };
    let bytes = disk.image()?;
    let stored = is_kept(alloc, bytes.as_slice(), commits, states);
    drop(bytes);
    let bytes = disk.synced()?;
    let synced = is_kept(alloc, bytes.as_slice(), commits, states);
    drop(bytes);
    Ok(stored? && synced?)
}

/// The same of a run that stops at this call.
fn survives(alloc: Global, image: &[u8], call: u64, torn: u32) -> Result<bool, AllocError> {
    let mut disk = MemDisk::from_image(alloc, image)?;
    disk.stop_at(call, torn);
    let ran = ran(alloc, &mut disk);
    let left = is_left(alloc, &disk, ran, &COMMITS);
    drop(disk);
    left
}

/// The first of so many calls, with how many bytes are stored of it, at which a stop loses something.
fn first_lost(alloc: Global, image: &[u8], calls: u64) -> Result<Option<(u64, u32)>, AllocError> {
    for call in 0..calls {
        for torn in TORN.iter() {
            if !survives(alloc, image, call, *torn)? {
                return Ok(Some((call, *torn)));
            }
        }
    }
    Ok(None)
}

#[test]
fn each_stop_leaves_the_pages_of_the_acknowledged_commits(rt: HostRuntime) {
    let alloc = rt.alloc();
    let mut disk = formatted(alloc).expect(&rt, "memory");
    let image = disk.image().expect(&rt, "memory");
    let from = disk.clock();
    let _run = ran(alloc, &mut disk);
    let calls = disk.clock().saturating_sub(from);
    drop(disk);
    let lost = first_lost(alloc, image.as_slice(), calls);
    drop(image);
    // Two writes and two syncs for each commit.
    assert!(rt; calls >= 16);
    assert_eq!(rt; lost.expect(&rt, "memory"), None);
}
