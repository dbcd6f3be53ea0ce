//! What no clause says: that calls succeed while memory lasts. And each call once with examples.

use sb_ctx::{Actions, Checks, Ctx, Keys};
use sb_relation::{Action, Pairs};
use sb_value::{Bytes, Names, RecKey, Str, Tuple, Value};
use std::alloc::{AllocError, Global};
use std::process::Abort;
use std::test::*;

// Want of memory ends a test at once: where a test went on to an `Err`, each value that it has would be dropped on the way,
// which is dear to prove. A value that goes by a call of `drop` is far cheaper than one that goes at its scope's end.

/// Pages 3 and 7 of four bytes, a page 4 that isn't the instance's, and the fresh pages 9 and 5.
fn given(rt: &impl Abort, alloc: Global) -> Ctx {
    let mut ctx = Ctx::new(alloc);
    ctx.give_page(7, b"efgh").expect(rt, "memory");
    ctx.give_fresh(9).expect(rt, "memory");
    ctx.give_page(3, b"abcd").expect(rt, "memory");
    ctx.give_page(4, b"").expect(rt, "memory");
    ctx.give_fresh(5).expect(rt, "memory");
    ctx
}

/// Writes over a page that is held and has room.
fn write(ctx: &mut Ctx, n: u32, offset: u16, bytes: &[u8]) -> bool {
    let room = match ctx.page(n) {
        Some(page) => page.len(),
        None => return false,
    };
    usize::from(offset) + bytes.len() <= room && ctx.edit(n, offset, bytes).is_ok()
}

/// Gives a page back that has bytes.
fn give_back(ctx: &mut Ctx, n: u32) -> bool {
    match ctx.page(n) {
        Some([_, ..]) => {}
        _ => return false,
    }
    ctx.free(n).is_ok()
}

/// Numbers with the bytes that the pages are given with.
static GIVEN: [(u32, Option<&'static [u8]>); 6] = [
    (3, Some(b"abcd")),
    (4, Some(b"")),
    (5, Some(b"")),
    (6, None),
    (7, Some(b"efgh")),
    (9, Some(b"")),
];

/// Whether the pages are those that are given.
fn is_given(ctx: &Ctx) -> bool {
    let mut is_given = true;
    for (n, bytes) in GIVEN.iter() {
        is_given = is_given && ctx.page(*n) == *bytes;
    }
    is_given
}

#[test]
fn pages_are_given(rt: HostRuntime) {
    let ctx = given(&rt, rt.alloc());
    assert!(rt; is_given(&ctx));
    assert!(rt; ctx.asks() == 5);
    drop(ctx);
}

/// Writes to page 3, each with the page after it.
static WRITES: [(u16, &[u8], &[u8]); 4] = [
    (1, b"x", b"axcd"),
    (2, b"yz", b"axyz"),
    (0, b"pqrs", b"pqrs"),
    (4, b"", b"pqrs"),
];

#[test]
fn pages_are_edited(rt: HostRuntime) {
    let mut ctx = given(&rt, rt.alloc());
    for (offset, bytes, page) in WRITES.iter() {
        assert!(rt; write(&mut ctx, 3, *offset, bytes), "at {offset}");
        assert!(rt; ctx.page(3) == Some(*page), "at {offset}");
    }
    assert!(rt; ctx.page(7) == Some(b"efgh".as_slice()));
    drop(ctx);
}

#[test]
fn fresh_pages_are_taken(rt: HostRuntime) {
    let mut ctx = given(&rt, rt.alloc());
    assert!(rt; ctx.fresh() == Some(5));
    assert!(rt; ctx.fresh() == Some(9));
    assert!(rt; ctx.fresh().is_none());
    assert!(rt; ctx.page(5) == Some([0; 4096].as_slice()));
    drop(ctx);
}

/// Page 3 edited, 5 taken and written to, 7 freed, and 4 left as it is.
fn changed(rt: &impl Abort, alloc: Global) -> Ctx {
    let mut ctx = given(rt, alloc);
    let n = ctx.fresh().expect(rt, "a fresh page");
    assert!(rt; write(&mut ctx, 3, 0, b"z") && write(&mut ctx, n, 4095, b"z"));
    assert!(rt; give_back(&mut ctx, 7));
    ctx
}

#[test]
fn changes_are_listed(rt: HostRuntime) {
    let ctx = changed(&rt, rt.alloc());
    assert!(rt; ctx.edited(0) == Some(3) && ctx.edited(1) == Some(5) && ctx.edited(2).is_none());
    assert!(rt; ctx.freed(0) == Some(7) && ctx.freed(1).is_none());
    drop(ctx);
}

#[test]
fn fresh_pages_are_listed(rt: HostRuntime) {
    let ctx = changed(&rt, rt.alloc());
    assert!(rt; ctx.fresh_given(0) == Some((5, true)));
    assert!(rt; ctx.fresh_given(1) == Some((9, false)));
    assert!(rt; ctx.fresh_given(2).is_none());
    drop(ctx);
}

#[test]
fn edits_are_dropped(rt: HostRuntime) {
    let mut ctx = changed(&rt, rt.alloc());
    ctx.drop_edits();
    assert!(rt; is_given(&ctx));
    assert!(rt; ctx.fresh() == Some(5));
    drop(ctx);
}

#[test]
fn a_freed_page_is_gone(rt: HostRuntime) {
    let mut ctx = given(&rt, rt.alloc());
    assert!(rt; give_back(&mut ctx, 7));
    assert!(rt; ctx.page(7) == Some(b"".as_slice()));
    assert!(rt; ctx.fresh() == Some(5));
    assert!(rt; give_back(&mut ctx, 5));
    assert!(rt; ctx.fresh() == Some(5));
    drop(ctx);
}

/// What is asked, and what is known after three answers.
static NEXT: [(Option<u32>, Option<Option<u32>>); 4] = [
    (None, Some(Some(3))),
    (Some(3), Some(Some(7))),
    (Some(7), Some(None)),
    (Some(4), None),
];

#[test]
fn next_pages_are_known(rt: HostRuntime) {
    let mut ctx = Ctx::new(rt.alloc());
    ctx.give_after(None, Some(3)).expect(&rt, "memory");
    ctx.give_after(Some(3), Some(7)).expect(&rt, "memory");
    ctx.give_after(Some(7), None).expect(&rt, "memory");
    for (number, (n, next)) in NEXT.iter().enumerate() {
        assert!(rt; ctx.after(*n) == *next, "row {number}");
    }
    assert!(rt; ctx.asks() == 3);
    drop(ctx);
}

fn text(alloc: Global, text: &str) -> Result<Str, AllocError> {
    Ok(Str::from_string(String::from_str(alloc, text)?))
}

fn names(alloc: Global, name: &str) -> Result<Names, AllocError> {
    let name = text(alloc, name)?;
    Ok(Names::from_vec(vec![in alloc; name]?))
}

fn row(alloc: Global, number: i64) -> Result<Tuple, AllocError> {
    Ok(Tuple::from_vec(vec![in alloc; Value::Int(number)]?))
}

fn key(rt: &impl Abort, alloc: Global, bytes: &[u8]) -> RecKey {
    RecKey::from_vec(Vec::from_slice(alloc, bytes).expect(rt, "memory"))
}

/// The keys `ab` and `c`.
fn two_keys(rt: &impl Abort, alloc: Global) -> Keys {
    let first = key(rt, alloc, b"ab");
    let second = key(rt, alloc, b"c");
    Keys::from_vec(vec![in alloc; first, second].expect(rt, "memory"))
}

/// A relation, one column of it and a number there.
type Find = (&'static str, &'static str, i64);

/// What a find asks for.
#[derive(Drop)]
struct Asked {
    relation: Str,
    columns: Names,
    values: Tuple,
}

fn wanted(rt: &impl Abort, alloc: Global, find: &Find) -> Asked {
    let (relation, column, number) = *find;
    Asked {
        relation: text(alloc, relation).expect(rt, "memory"),
        columns: names(alloc, column).expect(rt, "memory"),
        values: row(alloc, number).expect(rt, "memory"),
    }
}

static OF_FIVE: Find = ("r", "a", 5);

/// The rows of 5 in column `a` of the relation `r` are those of two keys.
fn knowing(rt: &impl Abort, alloc: Global) -> Ctx {
    let mut ctx = Ctx::new(alloc);
    let wanted = wanted(rt, alloc, &OF_FIVE);
    let keys = two_keys(rt, alloc);
    let given = ctx.give_found(&wanted.relation, &wanted.columns, &wanted.values, &keys);
    given.expect(rt, "memory");
    drop(keys);
    drop(wanted);
    ctx
}

fn is_known(rt: &impl Abort, alloc: Global, ctx: &Ctx, find: &Find) -> bool {
    let wanted = wanted(rt, alloc, find);
    let found = ctx.found(&wanted.relation, &wanted.columns, &wanted.values);
    let is_known = found.is_some();
    drop(wanted);
    is_known
}

/// Finds, and whether the answer is known.
static FINDS: [(Find, bool); 4] = [
    (("r", "a", 5), true),
    (("r", "a", 6), false),
    (("r", "b", 5), false),
    (("s", "a", 5), false),
];

#[test]
fn finds_are_answered(rt: HostRuntime) {
    let ctx = knowing(&rt, rt.alloc());
    for (number, (find, known)) in FINDS.iter().enumerate() {
        assert!(rt;
            is_known(&rt, rt.alloc(), &ctx, find) == *known,
            "row {number}"
        );
    }
    drop(ctx);
}

/// Whether these are the two keys.
fn are_two(keys: &Keys) -> bool {
    match keys.as_slice() {
        [first, second] => first.as_slice() == b"ab".as_slice()
            && second.as_slice() == b"c".as_slice(),
        _ => false,
    }
}

#[test]
fn found_keys(rt: HostRuntime) {
    let ctx = knowing(&rt, rt.alloc());
    let wanted = wanted(&rt, rt.alloc(), &OF_FIVE);
    let found = ctx.found(&wanted.relation, &wanted.columns, &wanted.values);
    assert!(rt; are_two(found.expect(&rt, "an answer")));
    drop(wanted);
    assert!(rt; ctx.asks() == 1);
    assert!(rt; ctx.finds() == 1);
    drop(ctx);
}

#[test]
fn lists_of_keys(rt: HostRuntime) {
    let keys = two_keys(&rt, rt.alloc());
    let copy = keys.copy().expect(&rt, "memory");
    assert!(rt; copy.as_slice().len() == 2);
    drop(copy);
    let mut items = keys.into_vec();
    let last = items.pop().expect(&rt, "a key");
    drop(items);
    assert!(rt; last.as_slice() == b"c".as_slice());
    drop(last);
    let none = Keys::new(rt.alloc());
    assert!(rt; none.as_slice().is_empty());
    drop(none);
}

#[test]
fn lists_of_checks(rt: HostRuntime) {
    let alloc = rt.alloc();
    let entry = Bytes::from_vec(Vec::from_slice(alloc, b"ab").expect(&rt, "memory"));
    let checks = Checks::from_vec(vec![in alloc; entry].expect(&rt, "memory"));
    assert!(rt; checks.as_slice().len() == 1);
    let entries = checks.into_vec();
    assert!(rt; entries.len() == 1);
    drop(entries);
    let none = Checks::new(alloc);
    assert!(rt; none.as_slice().is_empty());
    drop(none);
}

#[test]
fn lists_of_actions(rt: HostRuntime) {
    let alloc = rt.alloc();
    let action = Action::Delete {
        relation: text(alloc, "r").expect(&rt, "memory"),
        pairs: Pairs::from_vec(Vec::new(alloc)),
    };
    let actions = Actions::from_vec(vec![in alloc; action].expect(&rt, "memory"));
    assert!(rt; actions.as_slice().len() == 1);
    let items = actions.into_vec();
    assert!(rt; items.len() == 1);
    drop(items);
    let none = Actions::new(alloc);
    assert!(rt; none.as_slice().is_empty());
    drop(none);
}
