//! What no clause says: that calls succeed while memory lasts. Each call over one page, which is given again as the call
//! before left it.

ghost use Rattle.std.specs.Prelude.{◌≡◌, ◌≤◌, ◌∷◌, [], codes, length, IfOk, OnOk};
ghost use Rattle.sb_ctx.specs.View.{IsClean};
ghost use Rattle.sb_ctx.specs.Method.{IsInstance, MayHold};
ghost use Rattle.sb_treemethod.specs.Examples.{IsExample, MayBeHeld};

use sb_ctx::{Ctx, Instance, Move, StorageMethod};
use sb_treemethod::TreeMethod;
use sb_value::{Bytes, Column, Kind, Names, RecKey, Schema, Str, Tuple, Value};
use std::alloc::{AllocError, Global};
use std::process::Abort;
use std::test::*;

fn text(alloc: Global, text: &str) -> Result<Str, AllocError>
    ensures { IfOk result (λ s. s ≡ text.now) }
{
    Ok(Str::from_string(String::from_str(alloc, text)?))
}

/// The relation `r` of a number `k`, its key, and a text `v`.
fn instance(alloc: Global) -> Result<Instance, AllocError>
    ensures { IfOk result IsExample }
{
    let number = Column {
        name: text(alloc, "k")?,
        kind: Kind::Int,
        limit: 0,
    };
    let words = Column {
        name: text(alloc, "v")?,
        kind: Kind::Text,
        limit: 20,
    };
    Ok(Instance {
        relation: text(alloc, "r")?,
        owner: 1,
        root: 3,
        durable: true,
        code: 2,
        desc: Bytes::new(alloc),
        schema: Schema::from_vec(vec![in alloc; number, words]?),
        key: Names::from_vec(vec![in alloc; text(alloc, "k")?]?),
    })
}

fn row(alloc: Global, number: i64, words: &str) -> Result<Tuple, AllocError>
    requires { length words.now ≤ 20 }
    ensures { IfOk result MayBeHeld }
{
    let words = Value::Text(text(alloc, words)?);
    Ok(Tuple::from_vec(vec![in alloc; Value::Int(number), words]?))
}

/// The bytes of the key of a small number.
fn key(alloc: Global, number: u8) -> Result<RecKey, AllocError> {
    Ok(RecKey::from_vec(vec![in alloc; 128, 0, 0, 0, 0, 0, 0, number]?))
}

/// A Ctx that holds page 3 alone, with these bytes.
fn given(alloc: Global, page: &[u8]) -> Result<Ctx, AllocError>
    ensures { IfOk result IsClean }
{
    let mut ctx = Ctx::new(alloc);
    ctx.give_page(3, page)?;
    Ok(ctx)
}

/// Page 3 as a call left it.
fn again(alloc: Global, ctx: &Ctx) -> Result<Ctx, AllocError>
    ensures { IfOk result IsClean }
{
    match ctx.page(3) {
        Some(page) => given(alloc, page),
        None => given(alloc, &[]),
    }
}

#[derive(Clone, Copy, PartialEq, Eq)]
enum Answer {
    Done,
    Key,
    /// A row of this number, with its key.
    Row(i64),
    End,
    NoRecord,
    Duplicate,
    Broken(u32),
    Other,
}

fn row_of(key: &RecKey, row: &Tuple) -> Answer {
    match row.as_slice() {
        [Value::Int(number), Value::Text(_)] if key.len() == 8 => Answer::Row(*number),
        _ => Answer::Other,
    }
}

fn answer_of(made: &Move) -> Answer {
    match made {
        Move::Done => Answer::Done,
        Move::Key(_) => Answer::Key,
        Move::Row(key, row) => row_of(key, row),
        Move::End => Answer::End,
        Move::NoRecord => Answer::NoRecord,
        Move::Duplicate => Answer::Duplicate,
        Move::Broken(n) => Answer::Broken(*n),
        _ => Answer::Other,
    }
}

/// A call with a key and a row, of which some calls make no use.
#[derive(Clone, Copy)]
enum Call {
    Prepare,
    Insert,
    Delete,
    Update,
    Get,
    /// The first row.
    First,
    /// The row behind the key.
    Next,
}

fn made<M: StorageMethod>(
    method: &M,
    alloc: Global,
    ctx: &mut Ctx,
    inst: &Instance,
    call: Call,
    key: &RecKey,
    row: &Tuple,
) -> Move
    requires clean { IsClean ctx.old }
    requires inst { IsInstance (M.method method.now) inst.now }
    requires row { MayHold (M.method method.now) inst.now row.now }
{
    match call {
        Call::Prepare => method.prepare(alloc, ctx, inst),
        Call::Insert => method.insert(alloc, ctx, inst, row),
        Call::Delete => method.delete(alloc, ctx, inst, key),
        Call::Update => method.update(alloc, ctx, inst, key, row),
        Call::Get => method.get(alloc, ctx, inst, key),
        Call::First => method.next(alloc, ctx, inst, None),
        Call::Next => method.next(alloc, ctx, inst, Some(key)),
    }
}

fn answered(
    alloc: Global,
    ctx: &mut Ctx,
    inst: &Instance,
    call: Call,
    key: &RecKey,
    row: &Tuple,
) -> Answer
    requires clean { IsClean ctx.old }
    requires inst { IsExample inst.now }
    requires row { MayBeHeld row.now }
{
    let made = made(&TreeMethod::new(), alloc, ctx, inst, call, key, row);
    let answer = answer_of(&made);
    drop(made);
    answer
}

/// A call, the number of its key, that of its row, and the answer.
type Step = (Call, u8, i64, Answer);

/// Whether the step is answered so.
fn is_so(rt: &impl Abort, alloc: Global, ctx: &mut Ctx, inst: &Instance, step: &Step) -> bool
    requires clean { IsClean ctx.old }
    requires inst { IsExample inst.now }
{
    let (call, old, number, wanted) = *step;
    let key = key(alloc, old).expect(rt, "memory");
    let row = row(alloc, number, "a").expect(rt, "memory");
    let answer = answered(alloc, ctx, inst, call, &key, &row);
    drop(row);
    drop(key);
    answer == wanted
}

/// Whether it is a box of code 2 that lasts, and fits the instance.
fn is_tree<M: StorageMethod>(method: &M, inst: &Instance) -> bool {
    method.code() == 2 && method.durable() && method.fits(&inst.schema, &inst.key)
}

/// The page as the step leaves it, which is answered so.
fn stepped(rt: &impl Abort, alloc: Global, inst: &Instance, page: Ctx, step: &Step) -> Ctx
    requires { IsExample inst.now }
{
    let mut ctx = again(alloc, &page).expect(rt, "memory");
    drop(page);
    assert!(rt; is_so(rt, alloc, &mut ctx, inst, step));
    ctx
}

/// The page as the steps leave it, each of which is answered so.
fn played(rt: &impl Abort, alloc: Global, inst: &Instance, page: Ctx, steps: &[Step]) -> Ctx
    requires { IsExample inst.now }
{
    let mut page = page;
    for step in steps {
        page = stepped(rt, alloc, inst, page, step);
    }
    page
}

/// A new tree with the rows 7, 2 and 9.
const THREE: [Step; 4] = [
    (Call::Prepare, 0, 0, Answer::Done),
    (Call::Insert, 0, 7, Answer::Key),
    (Call::Insert, 0, 2, Answer::Key),
    (Call::Insert, 0, 9, Answer::Key),
];

/// Each step is answered so, after these.
fn play(rt: &impl Abort, alloc: Global, steps: &[Step]) {
    let inst = instance(alloc).expect(rt, "memory");
    assert!(rt; is_tree(&TreeMethod::new(), &inst));
    let page = given(alloc, &[0; 4096]).expect(rt, "memory");
    let page = played(rt, alloc, &inst, page, &THREE);
    drop(played(rt, alloc, &inst, page, steps));
    drop(inst);
}

/// Rows stand in the order of their keys, and each key once. A row is deleted, and replaced under its key.
const KEPT: [Step; 14] = [
    (Call::Next, 0, 0, Answer::Row(2)),
    (Call::Next, 2, 0, Answer::Row(7)),
    (Call::Next, 7, 0, Answer::Row(9)),
    (Call::Next, 9, 0, Answer::End),
    (Call::Get, 2, 0, Answer::Row(2)),
    (Call::Get, 8, 0, Answer::NoRecord),
    (Call::Get, 9, 0, Answer::Row(9)),
    (Call::Insert, 0, 9, Answer::Duplicate),
    (Call::Update, 2, 9, Answer::Duplicate),
    (Call::Update, 2, 2, Answer::Key),
    (Call::Next, 2, 0, Answer::Row(7)),
    (Call::Delete, 7, 0, Answer::Done),
    (Call::Next, 2, 0, Answer::Row(9)),
    (Call::Delete, 7, 0, Answer::NoRecord),
];

#[test]
fn a_tree_is_kept(rt: HostRuntime) {
    play(&rt, rt.alloc(), &KEPT);
}

/// A row moves to another key.
const MOVED: [Step; 3] = [
    (Call::Update, 2, 8, Answer::Key),
    (Call::First, 0, 0, Answer::Row(7)),
    (Call::Update, 2, 8, Answer::NoRecord),
];

#[test]
fn a_row_moves(rt: HostRuntime) {
    play(&rt, rt.alloc(), &MOVED);
}

/// Over the pages 4 and 5, which has the keys from 20 on.
const TOP: [u8; 40] = [
    3, 2, 0, 1, 0, 16, 0, 0, 0, 4, 0, 0, 0, 0, 0, 0, 0, 0, 0, 0, 0, 0, 0, 0, 0, 8, 0, 4, 128, 0, 0,
    0, 0, 0, 0, 20, 0, 0, 0, 5,
];

/// Over the pages 8 and 9, which has the keys from 5 on.
const INNER: [u8; 40] = [
    3, 1, 0, 1, 0, 16, 0, 0, 0, 8, 0, 0, 0, 0, 0, 0, 0, 0, 0, 0, 0, 0, 0, 0, 0, 8, 0, 4, 128, 0, 0,
    0, 0, 0, 0, 5, 0, 0, 0, 9,
];

/// A leaf with the row 2.
const LEAF: [u8; 49] = [
    2, 0, 0, 1, 0, 25, 0, 0, 0, 0, 0, 0, 0, 0, 0, 0, 0, 0, 0, 0, 0, 0, 0, 0, 0, 8, 0, 13, 128, 0,
    0, 0, 0, 0, 0, 2, 2, 1, 0, 0, 0, 0, 0, 0, 0, 2, 2, 1, b'a',
];

/// A leaf with the row 7, under the key of 9 a value that spells none, and under the key of 10 the row 7 again.
const DAMAGED: [u8; 87] = [
    2, 0, 0, 3, 0, 63, 0, 0, 0, 0, 0, 0, 0, 0, 0, 0, 0, 0, 0, 0, 0, 0, 0, 0, 0, 8, 0, 13, 128, 0,
    0, 0, 0, 0, 0, 7, 2, 1, 0, 0, 0, 0, 0, 0, 0, 7, 2, 1, b'b', 0, 8, 0, 1, 128, 0, 0, 0, 0, 0, 0,
    9, b'x', 0, 8, 0, 13, 128, 0, 0, 0, 0, 0, 0, 10, 2, 1, 0, 0, 0, 0, 0, 0, 0, 7, 2, 1, b'b',
];

/// Gives a page that begins with these bytes.
fn give(ctx: &mut Ctx, n: u32, front: &[u8]) -> Result<(), AllocError>
    requires size { length front.now ≤ 4096 }
    requires clean { IsClean ctx.old }
    ensures { OnOk result (IsClean ctx.new) }
{
    let mut page = [0; 4096];
    page[..front.len()].copy_from_slice(front);
    ctx.give_page(n, &page)?;
    Ok(())
}

/// A Ctx that holds nothing.
fn no_pages(alloc: Global) -> Ctx
    ensures { IsClean result }
{
    Ctx::new(alloc)
}

/// A tree of two levels of inner pages, whose page 5 is a leaf, and whose page 9 has entries that are none of rows.
fn damaged(alloc: Global) -> Result<Ctx, AllocError>
    ensures { IfOk result IsClean }
{
    let mut ctx = no_pages(alloc);
    give(&mut ctx, 3, &TOP)?;
    give(&mut ctx, 4, &INNER)?;
    give(&mut ctx, 5, &LEAF)?;
    give(&mut ctx, 8, &LEAF)?;
    give(&mut ctx, 9, &DAMAGED)?;
    Ok(ctx)
}

/// A leaf with an entry of no row is broken: a look-up and a scan name it, and so does an update that removes a row there.
const OVER_DAMAGE: [Step; 11] = [
    (Call::Get, 2, 0, Answer::Row(2)),
    (Call::Get, 7, 0, Answer::Row(7)),
    (Call::Get, 9, 0, Answer::Broken(9)),
    (Call::Get, 10, 0, Answer::Broken(9)),
    (Call::Get, 21, 0, Answer::Broken(5)),
    (Call::Next, 0, 0, Answer::Row(2)),
    (Call::Next, 2, 0, Answer::Row(7)),
    (Call::Next, 7, 0, Answer::Broken(9)),
    (Call::Next, 9, 0, Answer::Broken(9)),
    (Call::Next, 10, 0, Answer::Broken(5)),
    (Call::Update, 2, 8, Answer::Broken(5)),
];

/// Whether the step is answered so over that tree.
fn is_so_over_damage(rt: &impl Abort, alloc: Global, inst: &Instance, step: &Step) -> bool
    requires { IsExample inst.now }
{
    let mut ctx = damaged(alloc).expect(rt, "memory");
    let is_so = is_so(rt, alloc, &mut ctx, inst, step);
    drop(ctx);
    is_so
}

#[test]
fn damage_is_named(rt: HostRuntime) {
    let inst = instance(rt.alloc()).expect(&rt, "memory");
    for (number, step) in OVER_DAMAGE.iter().enumerate() {
        assert!(rt;
            is_so_over_damage(&rt, rt.alloc(), &inst, step),
            "step {number}"
        );
    }
    drop(inst);
}
