//! What no clause says: which slots rows get, and that calls succeed while memory lasts. Each call over pages 2 and 3, which
//! are given again as the call before left them.

ghost use Rattle.std.specs.Prelude.{◌≡◌, ◌≤◌, length};
ghost use Rattle.sb_ctx.specs.View.{IsClean};
ghost use Rattle.sb_heap.specs.Examples.{IsExample, MayBeHeld, text_column};

use crate::text::text;
use sb_ctx::{Ctx, Instance, Move, StorageMethod};
use sb_heap::Heap;
use sb_value::{Bytes, Column, Kind, Names, RecKey, Schema, Tuple, Value};
use std::alloc::Global;
use std::process::Abort;
use std::test::*;

/// 255 letters, the most of a text, and 217: with a number and three texts of the first length a row takes the 1,000 bytes
/// that one may.
const X: &str =
    "xxxxxxxxxxxxxxxxxxxxxxxxxxxxxxxxxxxxxxxxxxxxxxxxxxxxxxxxxxxxxxxxxxxxxxxxxxxxxxxxxxxxxxxxxxxxxxxxxxxxxxxxxxxxxxxxxxxxxxxxxxxxxxxxxxxxxxxxxxxxxxxxxxxxxxxxxxxxxxxxxxxxxxxxxxxxxxxxxxxxxxxxxxxxxxxxxxxxxxxxxxxxxxxxxxxxxxxxxxxxxxxxxxxxxxxxxxxxxxxxxxxxxxxxxxxxxxx";

const Y: &str =
    "xxxxxxxxxxxxxxxxxxxxxxxxxxxxxxxxxxxxxxxxxxxxxxxxxxxxxxxxxxxxxxxxxxxxxxxxxxxxxxxxxxxxxxxxxxxxxxxxxxxxxxxxxxxxxxxxxxxxxxxxxxxxxxxxxxxxxxxxxxxxxxxxxxxxxxxxxxxxxxxxxxxxxxxxxxxxxxxxxxxxxxxxxxxxxxxxxxxxxxxxxxxxxxxxxxxxxxxxx";

// Want of memory ends a test at once: where a test went on to an `Err`, each value that it has would be dropped on the way,
// which is dear to prove. A value that goes by a call of `drop` is far cheaper than one that goes at its scope's end.

fn words(rt: &impl Abort, alloc: Global, name: &str) -> Column
    ensures { result ≡ text_column name.now }
{
    Column {
        name: text(rt, alloc, name),
        kind: Kind::Text,
        limit: 255,
    }
}

/// The relation `t` of a number and four texts.
fn instance(rt: &impl Abort, alloc: Global) -> Instance
    ensures { IsExample result }
{
    let number = Column {
        name: text(rt, alloc, "k"),
        kind: Kind::Int,
        limit: 0,
    };
    let a = words(rt, alloc, "a");
    let b = words(rt, alloc, "b");
    let c = words(rt, alloc, "c");
    let d = words(rt, alloc, "d");
    let columns = vec![in alloc; number, a, b, c, d].expect(rt, "memory");
    Instance {
        relation: text(rt, alloc, "t"),
        owner: 1,
        root: 2,
        durable: true,
        code: 1,
        desc: Bytes::new(alloc),
        schema: Schema::from_vec(columns),
        key: Names::from_vec(Vec::new(alloc)),
    }
}

/// A number, a text three times and another text.
fn row(rt: &impl Abort, alloc: Global, number: i64, x: &str, y: &str) -> Tuple
    requires first { length x.now ≤ 255 }
    requires last { length y.now ≤ 217 }
    ensures { MayBeHeld result }
{
    let a = Value::Text(text(rt, alloc, x));
    let b = Value::Text(text(rt, alloc, x));
    let c = Value::Text(text(rt, alloc, x));
    let d = Value::Text(text(rt, alloc, y));
    let values = vec![in alloc; Value::Int(number), a, b, c, d].expect(rt, "memory");
    Tuple::from_vec(values)
}

fn key(rt: &impl Abort, alloc: Global, page: u8, slot: u8) -> RecKey {
    RecKey::from_vec(vec![in alloc; 0, 0, 0, page, 0, slot].expect(rt, "memory"))
}

/// Pages 2 and 3 as a call left them; page 3 is fresh where it isn't the heap's.
fn again(rt: &impl Abort, alloc: Global, ctx: &Ctx) -> Ctx
    ensures { IsClean result }
{
    let mut next = Ctx::new(alloc);
    next.give_after(None, Some(2)).expect(rt, "memory");
    if let Some(page) = ctx.page(2) {
        next.give_page(2, page).expect(rt, "memory");
    }
    match ctx.page(3) {
        Some(page) if !page.is_empty() => {
            next.give_page(3, page).expect(rt, "memory");
            next.give_after(Some(2), Some(3)).expect(rt, "memory");
            next.give_after(Some(3), None).expect(rt, "memory");
        }
        _ => {
            next.give_fresh(3).expect(rt, "memory");
            next.give_after(Some(2), None).expect(rt, "memory");
        }
    }
    next
}

/// The pages as a call left them that has ended.
fn after(rt: &impl Abort, alloc: Global, ctx: Ctx) -> Ctx
    ensures { IsClean result }
{
    let next = again(rt, alloc, &ctx);
    drop(ctx);
    next
}

/// What a call answers, in short.
#[derive(Clone, Copy, PartialEq, Eq)]
enum Answer {
    Done,
    /// The page and the slot of the key that a row got.
    Key(u8, u8),
    /// The number of a row.
    Row(i64),
    Other,
}

fn answer_of(answer: Move) -> Answer {
    let short = match &answer {
        Move::Done => Answer::Done,
        Move::Key(key) => slot_of(key),
        Move::Row(_, row) => Answer::Row(number_of(row)),
        _ => Answer::Other,
    };
    drop(answer);
    short
}

fn slot_of(key: &RecKey) -> Answer {
    match key.as_slice() {
        [0, 0, 0, page, 0, slot] => Answer::Key(*page, *slot),
        _ => Answer::Other,
    }
}

fn number_of(row: &Tuple) -> i64 {
    match row.as_slice() {
        [Value::Int(number), ..] => *number,
        _ => 0,
    }
}

/// A new heap.
fn prepared(rt: &impl Abort, alloc: Global, inst: &Instance) -> Ctx
    requires { IsExample inst.now }
    ensures { IsClean result }
{
    let mut ctx = Ctx::new(alloc);
    ctx.give_page(2, &[0; 4096]).expect(rt, "memory");
    let answer = Heap::new().prepare(alloc, &mut ctx, inst);
    assert!(rt; answer_of(answer) == Answer::Done);
    after(rt, alloc, ctx)
}

/// The row behind this key, or the first one: its key and its number.
fn next_row(
    rt: &impl Abort,
    alloc: Global,
    ctx: &Ctx,
    inst: &Instance,
    low: Option<RecKey>,
) -> Option<(RecKey, i64)>
    requires { IsExample inst.now }
{
    let mut ctx = again(rt, alloc, ctx);
    let answer = Heap::new().next(alloc, &mut ctx, inst, low.as_ref());
    drop(ctx);
    drop(low);
    match answer {
        Move::Row(key, row) => {
            let number = number_of(&row);
            drop(row);
            Some((key, number))
        }
        other => {
            drop(other);
            None
        }
    }
}

/// Whether these are the numbers of the rows, one after the other.
fn are_numbers(rt: &impl Abort, alloc: Global, ctx: &Ctx, inst: &Instance, numbers: &[i64]) -> bool
    requires { IsExample inst.now }
{
    let mut low = None;
    for number in numbers {
        let Some((key, found)) = next_row(rt, alloc, ctx, inst, low) else {
            return false;
        };
        low = Some(key);
        if found != *number {
            drop(low);
            return false;
        }
    }
    next_row(rt, alloc, ctx, inst, low).is_none()
}

/// A row that takes the 1,000 bytes that one may, or as few as it may.
fn row_of(rt: &impl Abort, alloc: Global, number: i64, is_long: bool) -> Tuple
    ensures { MayBeHeld result }
{
    if is_long {
        row(rt, alloc, number, X, Y)
    } else {
        row(rt, alloc, number, "", "")
    }
}

/// A call. A row is long or short, and its key names a slot of page 2.
#[derive(Clone, Copy)]
enum Call {
    Insert(i64, bool),
    Update(u8, i64, bool),
    Delete(u8),
    Get(u8),
}

/// What the heap answers to the call.
fn answered(rt: &impl Abort, alloc: Global, ctx: &mut Ctx, inst: &Instance, call: Call) -> Answer
    requires inst { IsExample inst.now }
    requires clean { IsClean ctx.old }
{
    match call {
        Call::Insert(number, is_long) => {
            let row = row_of(rt, alloc, number, is_long);
            let answer = Heap::new().insert(alloc, ctx, inst, &row);
            drop(row);
            answer_of(answer)
        }
        Call::Update(slot, number, is_long) => {
            let key = key(rt, alloc, 2, slot);
            let row = row_of(rt, alloc, number, is_long);
            let answer = Heap::new().update(alloc, ctx, inst, &key, &row);
            drop(row);
            drop(key);
            answer_of(answer)
        }
        Call::Delete(slot) => {
            let key = key(rt, alloc, 2, slot);
            let answer = Heap::new().delete(alloc, ctx, inst, &key);
            drop(key);
            answer_of(answer)
        }
        Call::Get(slot) => {
            let key = key(rt, alloc, 2, slot);
            let answer = Heap::new().get(alloc, ctx, inst, &key);
            drop(key);
            answer_of(answer)
        }
    }
}

/// A new heap after these calls, each of which is answered so.
fn called(rt: &impl Abort, alloc: Global, inst: &Instance, calls: &[(Call, Answer)]) -> Ctx
    requires { IsExample inst.now }
{
    let mut ctx = prepared(rt, alloc, inst);
    for (number, (call, wanted)) in calls.iter().enumerate() {
        let answer = answered(rt, alloc, &mut ctx, inst, *call);
        assert!(rt; answer == *wanted, "call {number}");
        ctx = after(rt, alloc, ctx);
    }
    ctx
}

/// Five rows fill page 2. The fourth of them is short, and a long one in its place goes to page 3.
static GROWN: [(Call, Answer); 6] = [
    (Call::Insert(1, true), Answer::Key(2, 0)),
    (Call::Insert(2, true), Answer::Key(2, 1)),
    (Call::Insert(3, true), Answer::Key(2, 2)),
    (Call::Insert(4, false), Answer::Key(2, 3)),
    (Call::Insert(5, true), Answer::Key(2, 4)),
    (Call::Update(3, 4, true), Answer::Key(3, 0)),
];

#[test]
fn a_row_that_grows_moves(rt: HostRuntime) {
    let alloc = rt.alloc();
    let inst = instance(&rt, alloc);
    let ctx = called(&rt, alloc, &inst, &GROWN);
    assert!(rt; are_numbers(&rt, alloc, &ctx, &inst, &[1, 2, 3, 5, 4]));
    drop(ctx);
    drop(inst);
}

/// Five rows fill page 2, the second goes, and another has its slot.
static REPLACED: [(Call, Answer); 8] = [
    (Call::Insert(1, true), Answer::Key(2, 0)),
    (Call::Insert(2, true), Answer::Key(2, 1)),
    (Call::Insert(3, true), Answer::Key(2, 2)),
    (Call::Insert(4, false), Answer::Key(2, 3)),
    (Call::Insert(5, true), Answer::Key(2, 4)),
    (Call::Delete(1), Answer::Done),
    (Call::Insert(6, true), Answer::Key(2, 1)),
    (Call::Get(1), Answer::Row(6)),
];

#[test]
fn a_free_slot_is_used_again(rt: HostRuntime) {
    let alloc = rt.alloc();
    let inst = instance(&rt, alloc);
    let ctx = called(&rt, alloc, &inst, &REPLACED);
    drop(ctx);
    drop(inst);
}
