//! What no clause says of heaps: that calls succeed while memory lasts. Rows come, change and go at random, beside a map of
//! them; after each step they are gone over from the first one on and compared with the map, and so are the pages: which of
//! them have room for any row, and the list of these.

ghost use Rattle.sb_ctx.specs.Method.{IsInstance};
ghost use Rattle.sb_heap.specs.Examples.{IsExample};
ghost use Rattle.sb_heap.specs.Heap.{heap_method};

use crate::random::Random;
use crate::rows::{Change, Content, End, OWNER, Texts, changed, letters, next, prepared};
use sb_ctx::Instance;
use sb_memory::Memory;
use sb_node::{Head, form, kind, room};
use std::alloc::Global;
use std::collections::BTreeMap;
use std::process::Abort;
use std::test::*;

/// The rows by the numbers of their keys.
type Rows = BTreeMap<u64, Content>;

/// The key at a place of the map, or one that no row has.
fn key_at(rows: &Rows, place: usize) -> u64 {
    match rows.keys().nth(place) {
        Some(key) => *key,
        None => 0x0000_c800_0000,
    }
}

/// Puts a row under its key. False where another stood there.
fn is_put(rt: &impl Abort, rows: &mut Rows, key: u64, content: Content) -> bool {
    let old: Result<_, _> = rows.insert(key, content);
    old.expect(rt, "memory").is_none()
}

/// Changes the map as the heap was changed. False where the heap's answer isn't as the map says.
fn is_matched(rt: &impl Abort, rows: &mut Rows, change: Change, end: End) -> bool {
    match (change, end) {
        (Change::Insert(number, texts), End::Key(key)) => {
            let content = Content::new(number, texts.first());
            is_put(rt, rows, key, content)
        }
        (Change::Update(key, number, texts), End::Key(now)) => {
            let content = Content::new(number, texts.first());
            let stood = rows.remove(&key).is_some();
            is_put(rt, rows, now, content) && stood
        }
        (Change::Delete(key), End::Done) => rows.remove(&key).is_some(),
        (Change::Update(key, _, _) | Change::Delete(key), End::NoRecord) => !rows.contains_key(
            &key,
        ),
        _ => false,
    }
}

/// Whether the rows that are found from the first one on are those of the map.
fn are_found(
    rt: &impl Abort,
    alloc: Global,
    memory: &mut Memory,
    inst: &Instance,
    rows: &Rows,
) -> bool
    requires { IsInstance heap_method inst.now }
{
    let mut low = None;
    for (key, content) in rows {
        if next(rt, alloc, memory, inst, low) != End::Row(*key, *content) {
            return false;
        }
        low = Some(*key);
    }
    next(rt, alloc, memory, inst, low) == End::Behind
}

/// The head of a page of the heap, and how many bytes it has free.
fn head_at(memory: &Memory, n: u32) -> Option<(Head, u16)> {
    let page = memory.page(OWNER, n);
    let head = form(page)?;
    Some((head, room(page)))
}

/// Whether a page is one of a heap, of level 1 just where it has room for any row, and with a row but at the root.
fn is_heap_page(n: u32, head: Head, room: u16) -> bool {
    let level = if room >= 1006 { 1 } else { 0 };
    head.kind == kind::HEAP && head.level == level && (head.count > 0 || n == 2)
}

/// How many pages have room for any row, where each page of the owner is one of a heap.
fn pages_with_room(memory: &Memory) -> Option<u32> {
    let mut count = 0u32;
    let mut low = None;
    for _page in 0..65536 {
        let Some(n) = memory.next_page(OWNER, low) else {
            return Some(count);
        };
        let (head, room) = head_at(memory, n)?;
        if !is_heap_page(n, head, room) {
            return None;
        }
        count = count.saturating_add(u32::from(head.level));
        low = Some(n);
    }
    None
}

/// How many pages the list has from the root on, where each has room and names the one before it.
fn listed_pages(memory: &Memory) -> Option<u32> {
    let (root, _) = head_at(memory, 2)?;
    let mut before = 0;
    let mut page = root.c;
    for count in 0..65536 {
        if page == 0 {
            return Some(count);
        }
        let (head, _) = head_at(memory, page)?;
        if head.level != 1 || head.b != before {
            return None;
        }
        before = page;
        page = head.a;
    }
    None
}

/// Whether the list has just the pages that have room.
fn is_listed(memory: &Memory) -> bool {
    match (pages_with_room(memory), listed_pages(memory)) {
        (Some(pages), Some(listed)) => pages == listed,
        _ => false,
    }
}

/// A change: of eight, so many put a row in, and of the others every second takes one out.
fn random_change(random: &mut Random, rows: &Rows, puts: u16) -> Change {
    let number = i64::from(random.below(1000));
    let texts = if random.below(3) > 0 {
        Texts::Long
    } else {
        Texts::None
    };
    let key = key_at(rows, usize::from(random.below(64)));
    let choice = random.below(8);
    if choice < puts {
        Change::Insert(number, texts)
    } else if choice % 2 == 0 {
        Change::Delete(key)
    } else {
        Change::Update(key, number, texts)
    }
}

/// 150 changes, after each of which the heap is compared with the map.
fn change_rows(
    rt: &impl Abort,
    alloc: Global,
    memory: &mut Memory,
    inst: &Instance,
    rows: &mut Rows,
    random: &mut Random,
    puts: u16,
)
    requires { IsExample inst.now }
{
    for step in 0..150 {
        let change = random_change(random, rows, puts);
        let end = changed(rt, alloc, memory, inst, change);
        assert!(rt; is_matched(rt, rows, change, end), "{step}");
        assert!(rt;
            are_found(rt, alloc, memory, inst, rows) && is_listed(memory),
            "{step}"
        );
    }
}

/// Three runs of changes, of which most put rows in at first and take them out at last.
#[test]
fn random_rows_come_and_go(rt: HostRuntime) {
    let alloc = rt.alloc();
    let inst = letters(&rt, alloc);
    let mut memory = prepared(&rt, alloc, &inst);
    let mut rows = BTreeMap::new(alloc);
    let mut random = Random::new(20);
    change_rows(&rt, alloc, &mut memory, &inst, &mut rows, &mut random, 5);
    change_rows(&rt, alloc, &mut memory, &inst, &mut rows, &mut random, 3);
    assert!(rt; rows.len() > 30);
    change_rows(&rt, alloc, &mut memory, &inst, &mut rows, &mut random, 1);
    drop(rows);
    drop(memory);
    drop(inst);
}
