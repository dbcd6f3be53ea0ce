//! What no clause says of trees: that calls succeed while memory and fresh pages last. Entries come and go at random, beside
//! a sorted list of them; after each step the pages are read whole, and compared with the list.

ghost use Rattle.std.specs.Prelude.{◌≤◌, ◌<◌, IsTrue, length};

use crate::random::Random;
use crate::{
    held_tree, next_walks_are_short, removals_are_short, walks_are_as_long_as_the_tree_is_high,
};
use sb_btree::{LeafEntry, Walk, find, insert, next, remove};
use sb_ctx::Ctx;
use std::alloc::Global;
use std::process::Abort;
use std::test::*;

/// A leaf without entries.
const EMPTY: [u8; 6] = [2, 0, 0, 0, 0, 0];

/// How many keys there are. With 2 * n + 3 pages, the root among them, a tree of n entries lacks none.
const KEYS: u16 = 120;

/// The pages beside the root, at page 0.
const PAGES: u32 = 242;

/// An entry by the number of its key and that of its value's length. Its value is one byte so many times.
#[derive(Clone, Copy)]
struct Item {
    key: u16,
    size: u16,
    byte: u8,
}

/// How long the key of a number is. Keys of six numbers in a row have the same bytes, so each begins with the one before it,
/// and keys rise as their numbers do.
fn key_len(key: u16) -> usize
    ensures { result ≤ 602 }
{
    match key % 6 {
        0 => 1,
        1 => 2,
        2 => 40,
        3 => 200,
        4 => 601,
        _ => 602,
    }
}

/// All bytes of which the key of a number has some.
fn key_bytes(key: u16) -> [u8; 602] {
    [(key / 6 % 256) as u8; 602]
}

fn value_len(size: u16) -> usize
    ensures { result ≤ 1430 }
{
    match size % 4 {
        0 => 0,
        1 => 7,
        2 => 300,
        _ => 1430,
    }
}

fn is_entry(entry: (&[u8], &[u8]), item: Item) -> bool {
    let key = key_bytes(item.key);
    let value = [item.byte; 1430];
    entry.0 == &key[..key_len(item.key)] && entry.1 == &value[..value_len(item.size)]
}

/// How many items at the front have lesser keys.
fn place_of(items: &[Item], key: u16) -> usize
    ensures { result ≤ length items.now }
{
    items.iter().take_while(|item| item.key < key).count()
}

/// Whether the item at a place has this key.
fn has_at(items: &[Item], place: usize, key: u16) -> bool
    ensures { IsTrue result → place < length items.now }
{
    match items.get(place) {
        Some(item) => item.key == key,
        None => false,
    }
}

/// Puts an item to its place. False where the key stands.
fn put(rt: &impl Abort, items: &mut Vec<Item>, item: Item) -> bool {
    let place = place_of(items, item.key);
    if has_at(items, place, item.key) {
        return false;
    }
    items.insert(place, item).expect(rt, "memory");
    true
}

/// Takes the item of a key out. False where there is none.
fn take(items: &mut Vec<Item>, key: u16) -> bool {
    let place = place_of(items, key);
    if !has_at(items, place, key) {
        return false;
    }
    items.remove(place);
    true
}

fn insert_item(alloc: Global, ctx: &mut Ctx, item: Item) -> Walk<bool> {
    let key = key_bytes(item.key);
    let value = [item.byte; 1430];
    insert(
        alloc,
        ctx,
        0,
        &key[..key_len(item.key)],
        &value[..value_len(item.size)],
    )
}

fn remove_item(alloc: Global, ctx: &mut Ctx, key: u16) -> Walk<bool> {
    let bytes = key_bytes(key);
    remove(alloc, ctx, 0, &bytes[..key_len(key)])
}

fn is_answer(walk: &Walk<bool>, wanted: bool) -> bool {
    matches!(walk, Walk::Ready(answer) if *answer == wanted)
}

/// Puts an item in or takes it out, and says whether the tree answered as the list.
fn is_changed(
    rt: &impl Abort,
    alloc: Global,
    ctx: &mut Ctx,
    items: &mut Vec<Item>,
    item: Item,
    puts: bool,
) -> bool {
    if puts {
        let walk = insert_item(alloc, ctx, item);
        is_answer(&walk, put(rt, items, item))
    } else {
        let walk = remove_item(alloc, ctx, item.key);
        is_answer(&walk, take(items, item.key))
    }
}

fn is_found(walk: Walk<Option<LeafEntry>>, item: Option<&Item>) -> bool {
    let is_found = match (&walk, item) {
        (Walk::Ready(Some(found)), Some(item)) => {
            is_entry((found.key.as_slice(), found.value.as_slice()), *item)
        }
        (Walk::Ready(None), None) => true,
        _ => false,
    };
    drop(walk);
    is_found
}

/// Whether the entry of a key and the first one behind it are those of the list.
fn is_looked_up(alloc: Global, ctx: &Ctx, items: &[Item], key: u16) -> bool {
    let bytes = key_bytes(key);
    let bytes = &bytes[..key_len(key)];
    let place = place_of(items, key);
    let (here, behind) = if has_at(items, place, key) {
        (items.get(place), items.get(place.saturating_add(1)))
    } else {
        (None, items.get(place))
    };
    is_found(find(alloc, ctx, 0, bytes), here) && is_found(next(alloc, ctx, 0, Some(bytes)), behind)
}

/// How many pages have bytes.
fn used_pages(ctx: &Ctx) -> usize {
    let mut used = 0usize;
    for n in 0..=PAGES {
        if matches!(ctx.page(n), Some([_, ..])) {
            used = used.saturating_add(1);
        }
    }
    used
}

fn are_entries(entries: &[(&[u8], &[u8])], items: &[Item]) -> bool {
    if entries.len() != items.len() {
        return false;
    }
    for (entry, item) in entries.iter().zip(items) {
        if !is_entry(*entry, *item) {
            return false;
        }
    }
    true
}

/// How many pages the tree has, where the pages with bytes are a tree with just these entries.
fn pages_of_tree(rt: &impl Abort, alloc: Global, ctx: &Ctx, items: &[Item]) -> Option<usize> {
    let tree = held_tree(alloc, ctx, 0).expect(rt, "memory")?;
    let pages = tree.pages.len();
    let is_whole = are_entries(&tree.entries, items) && pages == used_pages(ctx);
    drop(tree);
    if is_whole { Some(pages) } else { None }
}

/// 200 steps, of four of which so many put an item in. How many pages the tree has then.
fn pages_after_steps(
    rt: &impl Abort,
    alloc: Global,
    ctx: &mut Ctx,
    items: &mut Vec<Item>,
    random: &mut Random,
    puts: u16,
) -> usize {
    let mut pages = None;
    for step in 0..200 {
        let item = Item {
            key: random.below(KEYS),
            size: random.below(4),
            byte: random.below(256) as u8,
        };
        let puts = random.below(4) < puts;
        assert!(rt; is_changed(rt, alloc, ctx, items, item, puts), "{step}");
        pages = pages_of_tree(rt, alloc, ctx, items);
        assert!(rt; pages.is_some(), "{step}");
        assert!(rt;
            is_looked_up(alloc, ctx, items, random.below(KEYS)),
            "{step}"
        );
    }
    pages.unwrap_or(0)
}

/// Takes out what is left, by its number.
fn take_all(rt: &impl Abort, alloc: Global, ctx: &mut Ctx, items: &mut Vec<Item>) {
    for key in 0..KEYS {
        let walk = remove_item(alloc, ctx, key);
        assert!(rt; is_answer(&walk, take(items, key)), "{key}");
        assert!(rt; pages_of_tree(rt, alloc, ctx, items).is_some(), "{key}");
    }
    assert!(rt; items.is_empty() && used_pages(ctx) == 1);
}

/// Gives a page that begins with these bytes.
fn give(rt: &impl Abort, ctx: &mut Ctx, n: u32, front: &[u8])
    requires { length front.now ≤ 4096 }
{
    let mut page = [0; 4096];
    page[..front.len()].copy_from_slice(front);
    ctx.give_page(n, &page).expect(rt, "memory");
}

/// A tree at page 0 without entries, and fresh pages.
fn empty_tree(rt: &impl Abort, alloc: Global) -> Ctx {
    let mut ctx = Ctx::new(alloc);
    give(rt, &mut ctx, 0, &EMPTY);
    for n in 1..=PAGES {
        ctx.give_fresh(n).expect(rt, "memory");
    }
    ctx
}

/// 200 steps of which most put an entry in, and 200 of which most take one out.
#[test]
fn random_entries_come_and_go(rt: HostRuntime) {
    let alloc = rt.alloc();
    let mut ctx = empty_tree(&rt, alloc);
    let mut items = Vec::new(alloc);
    let mut random = Random::new(16);
    assert!(rt; pages_after_steps(&rt, alloc, &mut ctx, &mut items, &mut random, 3) > 10);
    pages_after_steps(&rt, alloc, &mut ctx, &mut items, &mut random, 1);
    take_all(&rt, alloc, &mut ctx, &mut items);
    drop(items);
    drop(ctx);
}

/// A leaf with one entry, "b" to "two".
const LEAF: [u8; 32] = [
    2, 0, 0, 1, 0, 8, 0, 0, 0, 0, 0, 0, 0, 0, 0, 0, 0, 0, 0, 0, 0, 0, 0, 0, 0, 1, 0, 3, b'b', b't',
    b'w', b'o',
];

/// A leaf with one entry, "n" to "z".
const NEXT: [u8; 30] = [
    2, 0, 0, 1, 0, 6, 0, 0, 0, 0, 0, 0, 0, 0, 0, 0, 0, 0, 0, 0, 0, 0, 0, 0, 0, 1, 0, 1, b'n', b'z',
];

/// An inner page of level 1: the page 8 up to "m", and from there on the page 9.
const ROOT: [u8; 33] = [
    3, 1, 0, 1, 0, 9, 0, 0, 0, 8, 0, 0, 0, 0, 0, 0, 0, 0, 0, 0, 0, 0, 0, 0, 0, 1, 0, 4, b'm', 0, 0,
    0, 9,
];

/// The same over the page 8 twice.
const TWICE: [u8; 33] = [
    3, 1, 0, 1, 0, 9, 0, 0, 0, 8, 0, 0, 0, 0, 0, 0, 0, 0, 0, 0, 0, 0, 0, 0, 0, 1, 0, 4, b'm', 0, 0,
    0, 8,
];

/// The pages of a tree at page 7 and its children 8 and 9, and how many entries it has, where it is one: with both leaves in
/// their places, with them changed over, with an empty leaf, with a leaf of another level, and with one leaf met twice.
static TREES: [(&'static [u8], &'static [u8], &'static [u8], Option<usize>); 6] = [
    (&ROOT, &LEAF, &NEXT, Some(2)),
    (&ROOT, &NEXT, &LEAF, None),
    (&ROOT, &LEAF, &EMPTY, None),
    (&ROOT, &LEAF, &ROOT, None),
    (&TWICE, &LEAF, &NEXT, None),
    (&LEAF, &NEXT, &NEXT, Some(1)),
];

/// How many entries the tree at page 7 has, where it is one.
fn entries_held(rt: &impl Abort, alloc: Global, ctx: &Ctx) -> Option<usize> {
    let tree = held_tree(alloc, ctx, 7).expect(rt, "memory")?;
    let count = tree.entries.len();
    drop(tree);
    Some(count)
}

#[test]
fn pages_are_a_tree_or_none(rt: HostRuntime) {
    let alloc = rt.alloc();
    for (root, left, right, wanted) in TREES.iter() {
        let mut ctx = Ctx::new(alloc);
        assert!(rt; entries_held(&rt, alloc, &ctx).is_none());
        for (n, front) in [(7, root), (8, left), (9, right)] {
            assert!(rt; front.len() <= 4096);
            give(&rt, &mut ctx, n, front);
        }
        assert!(rt; entries_held(&rt, alloc, &ctx) == *wanted);
        drop(ctx);
    }
}

#[test]
fn the_laws_of_walks_are_there(_: HostRuntime) {
    walks_are_as_long_as_the_tree_is_high();
    next_walks_are_short();
    removals_are_short();
}
