//! Walks over pages made by hand.

ghost use Rattle.std.specs.Prelude.{◌≤◌, ◌+◌, IsTrue, length};

use sb_btree::{
    LeafEntry, Walk, find, insert, leaves_are_whole, next, reads_trees, remove, replace,
    trees_are_small, trees_are_whole, ways_are_short,
};
use sb_ctx::Ctx;
use std::alloc::Global;
use std::ops::Range;
use std::process::Abort;
use std::test::*;

/// A leaf without entries.
const EMPTY: [u8; 6] = [2, 0, 0, 0, 0, 0];

/// A leaf with one entry, "b" to "two".
const LEAF: [u8; 32] = [
    2, 0, 0, 1, 0, 8, 0, 0, 0, 0, 0, 0, 0, 0, 0, 0, 0, 0, 0, 0, 0, 0, 0, 0, 0, 1, 0, 3, b'b', b't',
    b'w', b'o',
];

/// A leaf with one entry, "n" to "z".
const NEXT: [u8; 30] = [
    2, 0, 0, 1, 0, 6, 0, 0, 0, 0, 0, 0, 0, 0, 0, 0, 0, 0, 0, 0, 0, 0, 0, 0, 0, 1, 0, 1, b'n', b'z',
];

/// An inner page of level 1: the page 8 up to "m", and from there on the page 9.
const ROOT: [u8; 33] = [
    3, 1, 0, 1, 0, 9, 0, 0, 0, 8, 0, 0, 0, 0, 0, 0, 0, 0, 0, 0, 0, 0, 0, 0, 0, 1, 0, 4, b'm', 0, 0,
    0, 9,
];

// Want of memory ends a test at once: where a test went on to an `Err`, each value that it has would be dropped on the way,
// which is dear to prove. A value that goes by a call of `drop` is far cheaper than one that goes at its scope's end.

/// Gives a page that begins with these bytes.
fn gives(ctx: &mut Ctx, n: u32, front: &[u8]) -> bool
    requires { length front.now ≤ 4096 }
{
    let mut page = [0; 4096];
    page[..front.len()].copy_from_slice(front);
    ctx.give_page(n, &page).is_ok()
}

/// How a walk ends.
#[derive(Clone, Copy, PartialEq, Eq)]
enum End<'a> {
    /// This entry of this leaf is found.
    Found(u32, &'a [u8], &'a [u8]),
    NotFound,
    Changed,
    Unchanged,
    Need(u32),
    Fresh,
    Broken(u32),
    NoMemory,
}

fn end_of_lookup<'a>(walk: &'a Walk<Option<LeafEntry>>) -> End<'a> {
    match walk {
        Walk::Ready(Some(found)) => {
            End::Found(found.leaf, found.key.as_slice(), found.value.as_slice())
        }
        Walk::Ready(None) => End::NotFound,
        Walk::Need(n) => End::Need(*n),
        Walk::Fresh => End::Fresh,
        Walk::Broken(n) => End::Broken(*n),
        Walk::NoMemory => End::NoMemory,
    }
}

fn looks_up(walk: Walk<Option<LeafEntry>>, wanted: End) -> bool {
    let ends = end_of_lookup(&walk) == wanted;
    drop(walk);
    ends
}

fn changes(walk: Walk<bool>, wanted: End) -> bool {
    let end = match walk {
        Walk::Ready(true) => End::Changed,
        Walk::Ready(false) => End::Unchanged,
        Walk::Need(n) => End::Need(n),
        Walk::Fresh => End::Fresh,
        Walk::Broken(n) => End::Broken(n),
        Walk::NoMemory => End::NoMemory,
    };
    end == wanted
}

/// Something that is given, a walk and how it ends, or what is so of a page then. A tree has its root at page 7 where no other is
/// named.
#[derive(Clone, Copy)]
enum Step {
    /// A page that begins with these bytes is given.
    Page(u32, &'static [u8]),
    /// It is said that nobody has the page.
    Nobodys(u32),
    /// A page that nobody has is given, to be taken.
    Fresh(u32),
    DropEdits,
    /// The key is looked up below this root.
    Find(u32, &'static [u8], End<'static>),
    Next(Option<&'static [u8]>, End<'static>),
    Insert(&'static [u8], &'static [u8], End<'static>),
    Replace(&'static [u8], &'static [u8], End<'static>),
    Remove(&'static [u8], End<'static>),
    /// An entry of the greatest size is put in, its key this byte 602 times.
    Put(u8, End<'static>),
    /// That entry is in the tree.
    Has(u8),
    /// The page is held and begins with these bytes.
    Begins(u32, &'static [u8]),
    /// The page is held and has no bytes.
    Free(u32),
}

/// Puts an entry of the greatest size into the tree at page 7: its key is this byte 602 times.
fn put(alloc: Global, ctx: &mut Ctx, key: u8) -> Walk<bool> {
    insert(alloc, ctx, 7, &[key; 602], &[key; 1430])
}

/// Whether that entry is in the tree.
fn has(alloc: Global, ctx: &Ctx, key: u8) -> bool {
    let walk = find(alloc, ctx, 7, &[key; 602]);
    let has = match &walk {
        Walk::Ready(Some(found)) => found.value.as_slice() == [key; 1430].as_slice(),
        _ => false,
    };
    drop(walk);
    has
}

/// Whether a page is held and begins with these bytes.
fn begins(ctx: &Ctx, n: u32, front: &[u8]) -> bool {
    matches!(ctx.page(n), Some(bytes) if bytes.starts_with(front))
}

/// Whether a page is held and has no bytes.
fn is_free(ctx: &Ctx, n: u32) -> bool {
    matches!(ctx.page(n), Some([]))
}

/// Whether a key and a value may be put into a tree.
fn may_be_put(key: &[u8], value: &[u8]) -> bool
    ensures { IsTrue result → (length key.now ≤ 602) × (length key.now + length value.now ≤ 2032) }
{
    key.len() <= 602 && value.len() <= 1430
}

/// Whether the step goes as it says.
fn goes(alloc: Global, ctx: &mut Ctx, step: Step) -> bool {
    match step {
        Step::Page(n, front) => front.len() <= 4096 && gives(ctx, n, front),
        Step::Nobodys(n) => ctx.give_page(n, &[]).is_ok(),
        Step::Fresh(n) => ctx.give_fresh(n).is_ok(),
        Step::DropEdits => {
            ctx.drop_edits();
            true
        }
        Step::Find(root, key, end) => looks_up(find(alloc, ctx, root, key), end),
        Step::Next(after, end) => looks_up(next(alloc, ctx, 7, after), end),
        Step::Insert(key, value, end) => {
            may_be_put(key, value) && changes(insert(alloc, ctx, 7, key, value), end)
        }
        Step::Replace(key, value, end) => {
            may_be_put(key, value) && changes(replace(alloc, ctx, 7, key, value), end)
        }
        Step::Remove(key, end) => changes(remove(alloc, ctx, 7, key), end),
        Step::Put(key, end) => changes(put(alloc, ctx, key), end),
        Step::Has(key) => has(alloc, ctx, key),
        Step::Begins(n, front) => begins(ctx, n, front),
        Step::Free(n) => is_free(ctx, n),
    }
}

/// Takes the steps one after the other, over no page at first.
fn walk(rt: &impl Abort, alloc: Global, name: &str, steps: &[Step]) {
    let mut ctx = Ctx::new(alloc);
    for (number, step) in steps.iter().enumerate() {
        assert!(rt; goes(alloc, &mut ctx, *step), "{name}: step {number}");
    }
    drop(ctx);
}

/// Walks, one step after the other, over no page at first.
static WALKS: [(&'static str, &'static [Step]); 9] = [
    (
        "a page that lacks is asked for",
        &[
            Step::Find(7, b"b", End::Need(7)),
            Step::Next(None, End::Need(7)),
        ],
    ),
    (
        "the child of the key is looked up",
        &[
            Step::Page(7, &ROOT),
            Step::Find(7, b"b", End::Need(8)),
            Step::Find(7, b"m", End::Need(9)),
            Step::Page(8, &LEAF),
            Step::Find(7, b"b", End::Found(8, b"b", b"two")),
            Step::Find(7, b"c", End::NotFound),
        ],
    ),
    (
        "the next entry may be in the next child",
        &[
            Step::Page(7, &ROOT),
            Step::Page(8, &LEAF),
            Step::Next(Some(b"a"), End::Found(8, b"b", b"two")),
            Step::Next(Some(b"b"), End::Need(9)),
            Step::Page(9, &NEXT),
            Step::Next(Some(b"b"), End::Found(9, b"n", b"z")),
            Step::Next(Some(b"n"), End::NotFound),
        ],
    ),
    (
        "a page of another level is broken",
        &[
            Step::Page(7, &ROOT),
            Step::Page(8, &ROOT),
            Step::Nobodys(9),
            Step::Find(7, b"b", End::Broken(8)),
            Step::Next(Some(b"m"), End::Broken(9)),
            Step::Find(9, b"b", End::Broken(9)),
        ],
    ),
    (
        "an entry is put into an empty leaf",
        &[
            Step::Insert(b"b", b"two", End::Need(7)),
            Step::Page(7, &EMPTY),
            Step::Insert(b"b", b"two", End::Changed),
            Step::Find(7, b"b", End::Found(7, b"b", b"two")),
            Step::Insert(b"b", b"three", End::Unchanged),
            Step::Begins(7, &LEAF),
        ],
    ),
    (
        "a value is replaced below the root",
        &[
            Step::Page(7, &ROOT),
            Step::Page(8, &LEAF),
            Step::Replace(b"c", b"six", End::Unchanged),
            Step::Replace(b"b", b"six", End::Changed),
            Step::Find(7, b"b", End::Found(8, b"b", b"six")),
        ],
    ),
    (
        "a full leaf is split",
        &[
            Step::Page(7, &EMPTY),
            Step::Put(1, End::Changed),
            Step::Put(3, End::Changed),
            Step::Put(0, End::Fresh),
            Step::Fresh(8),
            Step::Fresh(9),
            Step::Put(0, End::Changed),
            Step::Begins(7, &[3, 1]),
            Step::Begins(8, &[2, 0]),
            Step::Begins(9, &[2, 0]),
            Step::Fresh(10),
            Step::Put(2, End::Changed),
            Step::Begins(10, &[2, 0]),
            Step::Has(0),
            Step::Has(1),
            Step::Has(2),
            Step::Has(3),
        ],
    ),
    (
        "an entry is taken out of a leaf",
        &[
            Step::Remove(b"b", End::Need(7)),
            Step::Page(7, &LEAF),
            Step::Remove(b"c", End::Unchanged),
            Step::Begins(7, &LEAF),
            Step::Remove(b"b", End::Changed),
            Step::Begins(7, &EMPTY),
        ],
    ),
    (
        "an emptied leaf is given back",
        &[
            Step::Page(7, &ROOT),
            Step::Page(9, &NEXT),
            Step::Remove(b"n", End::Need(8)),
            Step::DropEdits,
            Step::Page(8, &LEAF),
            Step::Remove(b"n", End::Changed),
            Step::Begins(7, &LEAF),
            Step::Free(8),
            Step::Free(9),
        ],
    ),
];

#[test]
fn walks_end_as_they_say(rt: HostRuntime) {
    for (name, steps) in WALKS.iter() {
        walk(&rt, rt.alloc(), name, steps);
    }
}

#[test]
fn the_laws_of_trees_are_there(_: HostRuntime) {
    leaves_are_whole();
    reads_trees();
    trees_are_small();
    trees_are_whole();
    ways_are_short();
}

/// A tree without entries at a page, and fresh pages.
fn empty_tree(rt: &impl Abort, alloc: Global, root: u32, fresh: Range<u32>) -> Ctx {
    let mut ctx = Ctx::new(alloc);
    assert!(rt; gives(&mut ctx, root, &EMPTY));
    for n in fresh {
        assert!(rt; ctx.give_fresh(n).is_ok());
    }
    ctx
}

/// Takes the entry of the greatest size with this key out of the tree at page 7, and says how that must end.
fn takes(alloc: Global, ctx: &mut Ctx, key: u8, end: End) -> bool {
    changes(remove(alloc, ctx, 7, &[key; 602]), end)
}

/// Puts twenty entries of the greatest size in, so that inner pages and the root are split.
fn put_rising(rt: &impl Abort, alloc: Global, ctx: &mut Ctx) {
    for key in 0..20 {
        assert!(rt; changes(put(alloc, ctx, key), End::Changed));
    }
    assert!(rt; begins(ctx, 7, &[3, 2]));
    for key in 0..20 {
        assert!(rt; has(alloc, ctx, key), "{key}");
    }
}

/// Takes the entries of the lower ten keys out, rising: each goes, and the one behind it is there.
fn take_rising(rt: &impl Abort, alloc: Global, ctx: &mut Ctx) {
    for key in 0..10 {
        assert!(rt; takes(alloc, ctx, key, End::Changed));
        assert!(rt; !has(alloc, ctx, key) && has(alloc, ctx, key + 1));
    }
}

/// Takes the upper ten out, falling: each goes, and goes once, and the tenth stays till the last.
fn take_falling(rt: &impl Abort, alloc: Global, ctx: &mut Ctx) {
    for key in (10..20).rev() {
        assert!(rt; takes(alloc, ctx, key, End::Changed));
        assert!(rt; takes(alloc, ctx, key, End::Unchanged));
        assert!(rt; !has(alloc, ctx, key) && (key == 10 || has(alloc, ctx, 10)));
    }
}

#[test]
fn inner_pages_are_split_and_give_their_last_children_away(rt: HostRuntime) {
    let mut ctx = empty_tree(&rt, rt.alloc(), 7, 8..40);
    put_rising(&rt, rt.alloc(), &mut ctx);
    take_rising(&rt, rt.alloc(), &mut ctx);
    take_falling(&rt, rt.alloc(), &mut ctx);
    assert!(rt; begins(&ctx, 7, &[2, 0]));
    for n in 8..40 {
        assert!(rt; is_free(&ctx, n), "{n}");
    }
    drop(ctx);
}

/// How long the keys of a run are at most, and how long each key is with its value.
#[derive(Clone, Copy)]
struct Sizes {
    key: usize,
    entry: usize,
}

/// The length of a key: from 2 bytes up to the greatest.
fn key_len(sizes: Sizes, key: u16) -> usize
    requires { 2 ≤ sizes.key }
    ensures { (2 ≤ result) × (result ≤ sizes.key) }
{
    2 + key as usize % (sizes.key - 1)
}

/// Puts an entry in whose key begins with this number.
fn put_number(alloc: Global, ctx: &mut Ctx, sizes: Sizes, key: u16) -> bool
    requires key { (2 ≤ sizes.key) × (sizes.key ≤ 602) }
    requires entry { (sizes.key ≤ sizes.entry) × (sizes.entry ≤ 2032) }
{
    let mut bytes = [0; 602];
    bytes[..2].copy_from_slice(&key.to_be_bytes());
    let len = key_len(sizes, key);
    let value = &[7; 2032][..sizes.entry - len];
    changes(insert(alloc, ctx, 0, &bytes[..len], value), End::Changed)
}

/// Takes that entry out.
fn take_number(alloc: Global, ctx: &mut Ctx, sizes: Sizes, key: u16) -> bool
    requires { (2 ≤ sizes.key) × (sizes.key ≤ 602) }
{
    let mut bytes = [0; 602];
    bytes[..2].copy_from_slice(&key.to_be_bytes());
    let len = key_len(sizes, key);
    changes(remove(alloc, ctx, 0, &bytes[..len]), End::Changed)
}

/// Puts 3,000 entries in, by steps of 1,009.
fn put_all(alloc: Global, ctx: &mut Ctx, sizes: Sizes) -> bool
    requires key { (2 ≤ sizes.key) × (sizes.key ≤ 602) }
    requires entry { (sizes.key ≤ sizes.entry) × (sizes.entry ≤ 2032) }
{
    for i in 0..3000_u32 {
        if !put_number(alloc, ctx, sizes, (i * 1009 % 3000) as u16) {
            return false;
        }
    }
    true
}

/// Takes 3,000 entries out, rising.
fn take_all(alloc: Global, ctx: &mut Ctx, sizes: Sizes) -> bool
    requires { (2 ≤ sizes.key) × (sizes.key ≤ 602) }
{
    for key in 0..3000 {
        if !take_number(alloc, ctx, sizes, key) {
            return false;
        }
    }
    true
}

/// The number of the last page that has bytes.
fn last_page(ctx: &Ctx) -> u32 {
    let mut last = 0;
    for n in 0..=6000 {
        if matches!(ctx.page(n), Some([_, ..])) {
            last = n;
        }
    }
    last
}

/// Whether an empty leaf is left at page 0.
fn is_empty_tree(alloc: Global, ctx: &Ctx) -> bool {
    begins(ctx, 0, &[2, 0])
        && last_page(ctx) == 0
        && looks_up(next(alloc, ctx, 0, None), End::NotFound)
}

/// Whether 3,000 entries are put in, and are all taken out.
fn come_and_go(rt: &impl Abort, alloc: Global, sizes: Sizes) -> bool
    requires key { (2 ≤ sizes.key) × (sizes.key ≤ 602) }
    requires entry { (sizes.key ≤ sizes.entry) × (sizes.entry ≤ 2032) }
{
    let mut ctx = empty_tree(rt, alloc, 0, 1..6001);
    let have_come = put_all(alloc, &mut ctx, sizes) && last_page(&ctx) > 0;
    let have_gone = take_all(alloc, &mut ctx, sizes) && is_empty_tree(alloc, &ctx);
    drop(ctx);
    have_come && have_gone
}

#[test]
fn three_thousand_entries_come_and_go(rt: HostRuntime) {
    assert!(rt; come_and_go(&rt, rt.alloc(), Sizes { key: 2, entry: 2 }));
    let short = Sizes {
        key: 602,
        entry: 602,
    };
    assert!(rt; come_and_go(&rt, rt.alloc(), short));
    let long = Sizes {
        key: 602,
        entry: 2032,
    };
    assert!(rt; come_and_go(&rt, rt.alloc(), long));
}
