//! What no clause says: that calls succeed while memory lasts. And each call once, through its bound, over a page given by
//! hand.

ghost use Rattle.std.specs.Prelude.{◌≡◌, true, All};
ghost use Rattle.sb_relation.specs.Keys.{is_record_key};
ghost use Rattle.sb_ctx.specs.Attachment.{IsQuery};
ghost use Rattle.sb_ctx.specs.View.{IsClean};
ghost use Rattle.sb_foreign.specs.Counts.{count};
ghost use Rattle.sb_foreign.specs.Examples.{IsExample, Keeps, Watches, MayBeHeld, MayBeMet};
ghost use Rattle.sb_foreign.specs.Legends.{legend};
ghost use Rattle.sb_foreign.specs.Limits.{limit};
ghost use Rattle.sb_foreign.specs.Onces.{once};
ghost use Rattle.sb_foreign.specs.Strips.{strip};

mod legends;

use sb_ctx::{Attachment, Ctx, Instance, Keys, Move, StorageMethod};
use sb_foreign::{Count, Limit, Once, Strip};
use sb_relation::Change;
use sb_value::{Bytes, Column, Kind, Names, RecKey, Schema, Str, Tuple, Value};
use std::alloc::Global;
use std::process::Abort;
use std::test::*;

fn text(rt: &impl Abort, alloc: Global, text: &str) -> Str {
    Str::from_string(String::from_str(alloc, text).expect(rt, "memory"))
}

fn bytes(rt: &impl Abort, alloc: Global, bytes: &[u8]) -> Vec<u8>
    ensures { result.items ≡ bytes.now }
{
    bytes.to_vec(alloc).expect(rt, "memory")
}

/// An instance on the relation `r` of one number.
fn instance(rt: &impl Abort, alloc: Global, code: u16, desc: &[u8]) -> Instance
    ensures { IsExample code desc.now result }
{
    let column = Column {
        name: text(rt, alloc, "k"),
        kind: Kind::Int,
        limit: 0,
    };
    let columns = vec![in alloc; column].expect(rt, "memory");
    Instance {
        relation: text(rt, alloc, "r"),
        owner: 4,
        root: 3,
        durable: true,
        code,
        desc: Bytes::from_vec(bytes(rt, alloc, desc)),
        schema: Schema::from_vec(columns),
        key: Names::from_vec(Vec::new(alloc)),
    }
}

fn key(alloc: Global) -> RecKey
    ensures { is_record_key result ≡ true }
{
    RecKey::from_vec(Vec::new(alloc))
}

fn row(rt: &impl Abort, alloc: Global, number: u8) -> Tuple
    ensures { MayBeHeld result }
{
    let values = vec![in alloc; Value::Int(i64::from(number))].expect(rt, "memory");
    Tuple::from_vec(values)
}

/// A Ctx with page 3, which begins with these bytes.
fn page(rt: &impl Abort, alloc: Global, front: &[u8]) -> Ctx
    ensures { IsClean result }
{
    let mut page = bytes(rt, alloc, front);
    page.resize(4096, 0).expect(rt, "memory");
    let mut ctx = Ctx::new(alloc);
    ctx.give_page(3, &page).expect(rt, "memory");
    drop(page);
    ctx
}

/// Whether page 3 begins with these bytes.
fn begins(ctx: &Ctx, front: &[u8]) -> bool {
    match ctx.page(3) {
        Some(page) => page.starts_with(front),
        None => false,
    }
}

/// What a call answers, in short.
#[derive(Clone, Copy, PartialEq, Eq)]
enum Reply {
    Done,
    Veto,
    End,
    Needs(u32),
    Broken(u32),
    Place(Option<u8>),
    Number(Option<i64>),
    Asks(Option<i64>),
    Entry(Option<u8>, usize),
    Sum(Option<i128>),
    Hits(usize),
    Other,
}

fn number_in(row: &Tuple) -> Option<i64> {
    match row.as_slice() {
        [Value::Int(number)] => Some(*number),
        _ => None,
    }
}

fn reply_to(answer: &Move) -> Reply {
    match answer {
        Move::Done => Reply::Done,
        Move::Veto => Reply::Veto,
        Move::End => Reply::End,
        Move::Need(n) => Reply::Needs(*n),
        Move::Broken(n) => Reply::Broken(*n),
        Move::Key(key) => Reply::Place(key.as_slice().first().copied()),
        Move::Row(_, row) => Reply::Number(number_in(row)),
        Move::Find { values, .. } => Reply::Asks(number_in(values)),
        Move::Entry(first, second) => Reply::Entry(first.as_slice().first().copied(), second.len()),
        Move::Sums(sums) => Reply::Sum(sums.as_slice().first().copied()),
        Move::Hits(keys) => Reply::Hits(keys.as_slice().len()),
        _ => Reply::Other,
    }
}

fn reply_of(answer: Move) -> Reply {
    let reply = reply_to(&answer);
    drop(answer);
    reply
}

// ---- the strip

fn strip_instance(rt: &impl Abort, alloc: Global) -> Instance
    ensures { Keeps strip result }
{
    instance(rt, alloc, 1000, &[])
}

/// What an insert of a row of this number answers.
fn insert<M: StorageMethod>(
    rt: &impl Abort,
    method: &M,
    alloc: Global,
    ctx: &mut Ctx,
    inst: &Instance,
    number: u8,
) -> Reply
    requires clean { IsClean ctx.old }
    requires inst { Keeps (M.method method.now) inst.now }
{
    let row = row(rt, alloc, number);
    let answer = method.insert(alloc, ctx, inst, &row);
    drop(row);
    reply_of(answer)
}

/// What an insert of 9 into these bytes answers, and whether it leaves those.
fn inserted<M: StorageMethod>(
    rt: &impl Abort,
    method: &M,
    alloc: Global,
    inst: &Instance,
    before: &[u8],
    after: &[u8],
) -> (Reply, bool)
    requires { Keeps (M.method method.now) inst.now }
{
    let mut ctx = page(rt, alloc, before);
    let answer = insert(rt, method, alloc, &mut ctx, inst, 9);
    let is_left = begins(&ctx, after);
    drop(ctx);
    (answer, is_left)
}

/// Whether prepare is done, and an insert asks for the root.
fn starts<M: StorageMethod>(rt: &impl Abort, method: &M, alloc: Global, inst: &Instance) -> bool
    requires { Keeps (M.method method.now) inst.now }
{
    let mut ctx = Ctx::new(alloc);
    let made = reply_of(method.prepare(alloc, &mut ctx, inst));
    drop(ctx);
    let mut ctx = Ctx::new(alloc);
    let asked = insert(rt, method, alloc, &mut ctx, inst, 9);
    drop(ctx);
    made == Reply::Done && asked == Reply::Needs(3)
}

#[test]
fn a_row_gets_the_first_free_place(rt: HostRuntime) {
    let alloc = rt.alloc();
    let inst = strip_instance(&rt, alloc);
    let starts = starts(&rt, &Strip {}, alloc, &inst);
    let answer = inserted(&rt, &Strip {}, alloc, &inst, &[5, 0, 7], &[5, 9, 7, 0]);
    drop(inst);
    assert!(rt; starts);
    assert!(rt; answer == (Reply::Place(Some(1)), true));
}

/// What is answered for the row behind this record key in a strip of 5 and 7.
fn next_row<M: StorageMethod>(
    rt: &impl Abort,
    method: &M,
    alloc: Global,
    inst: &Instance,
    low: &[u8],
) -> Reply
    requires { Keeps (M.method method.now) inst.now }
{
    let low = RecKey::from_vec(bytes(rt, alloc, low));
    let mut ctx = page(rt, alloc, &[5, 0, 7]);
    let answer = method.next(alloc, &mut ctx, inst, Some(&low));
    drop(ctx);
    drop(low);
    reply_of(answer)
}

/// The place of the first record key that has another row behind it.
fn first_other_row<M: StorageMethod>(
    rt: &impl Abort,
    method: &M,
    alloc: Global,
    inst: &Instance,
    rows: &[(&[u8], Reply)],
) -> Option<usize>
    requires { Keeps (M.method method.now) inst.now }
{
    for (i, (low, wanted)) in rows.iter().enumerate() {
        if next_row(rt, method, alloc, inst, low) != *wanted {
            return Some(i);
        }
    }
    None
}

/// Record keys, and the row behind each.
const ROWS: [(&[u8], Reply); 4] = [
    (&[], Reply::Number(Some(5))),
    (&[0], Reply::Number(Some(7))),
    (&[1], Reply::Number(Some(7))),
    (&[2], Reply::End),
];

#[test]
fn rows_follow(rt: HostRuntime) {
    let alloc = rt.alloc();
    let inst = strip_instance(&rt, alloc);
    let other = first_other_row(&rt, &Strip {}, alloc, &inst, &ROWS);
    drop(inst);
    assert_eq!(rt; other, None);
}

// ---- attachments

fn limit_instance(rt: &impl Abort, alloc: Global) -> Instance
    ensures { Watches limit result }
{
    instance(rt, alloc, 1000, &[7])
}

fn once_instance(rt: &impl Abort, alloc: Global) -> Instance
    ensures { Watches once result }
{
    instance(rt, alloc, 1001, &[1, 2, 3, 4, 5, 6, 7])
}

fn count_instance(rt: &impl Abort, alloc: Global) -> Instance
    ensures { Watches count result }
{
    instance(rt, alloc, 1002, &[])
}

fn legend_instance(rt: &impl Abort, alloc: Global) -> Instance
    ensures { Watches legend result }
{
    instance(rt, alloc, 1003, &[])
}

/// What becomes of a row: it stands already, comes, gets another number, or goes.
#[derive(Clone, Copy)]
enum Event {
    Stands,
    Comes,
    Changes,
    Goes,
}

/// The change of a row that gets this number, comes with it or goes with it.
fn change(rt: &impl Abort, alloc: Global, event: Event, number: u8) -> Change
    ensures { MayBeMet result }
{
    match event {
        Event::Changes => Change::Update {
            from: key(alloc),
            old: row(rt, alloc, 1),
            to: key(alloc),
            new: row(rt, alloc, number),
        },
        Event::Goes => Change::Delete {
            key: key(alloc),
            old: row(rt, alloc, number),
        },
        Event::Stands | Event::Comes => Change::Insert {
            key: key(alloc),
            new: row(rt, alloc, number),
        },
    }
}

/// What an attachment answers when a row of the number stands already.
fn built<A: Attachment>(
    rt: &impl Abort,
    attachment: &A,
    alloc: Global,
    ctx: &mut Ctx,
    inst: &Instance,
    number: u8,
) -> Reply
    requires clean { IsClean ctx.old }
    requires inst { Watches (A.attachment attachment.now) inst.now }
{
    let row = row(rt, alloc, number);
    let key = key(alloc);
    let answer = attachment.on_build(alloc, ctx, inst, &key, &row);
    drop(key);
    drop(row);
    reply_of(answer)
}

/// What an attachment answers when this becomes of a row of the number.
fn answered<A: Attachment>(
    rt: &impl Abort,
    attachment: &A,
    alloc: Global,
    ctx: &mut Ctx,
    inst: &Instance,
    event: Event,
    number: u8,
) -> Reply
    requires clean { IsClean ctx.old }
    requires inst { Watches (A.attachment attachment.now) inst.now }
{
    if let Event::Stands = event {
        return built(rt, attachment, alloc, ctx, inst, number);
    }
    let change = change(rt, alloc, event, number);
    let answer = attachment.on_change(alloc, ctx, inst, &change);
    drop(change);
    reply_of(answer)
}

/// One record key, or two.
fn keys(rt: &impl Abort, alloc: Global, two: bool) -> Keys
    ensures { All (λ key. is_record_key key ≡ true) result }
{
    if two {
        Keys::from_vec(vec![in alloc; key(alloc), key(alloc)].expect(rt, "memory"))
    } else {
        Keys::from_vec(vec![in alloc; key(alloc)].expect(rt, "memory"))
    }
}

/// One row has this number, or two have it.
fn answer(rt: &impl Abort, alloc: Global, ctx: &mut Ctx, number: u8, two: bool)
    requires { IsClean ctx.old }
    ensures { IsClean ctx.new }
{
    let relation = text(rt, alloc, "r");
    let names = vec![in alloc; text(rt, alloc, "k")].expect(rt, "memory");
    let columns = Names::from_vec(names);
    let values = row(rt, alloc, number);
    let keys = keys(rt, alloc, two);
    ctx.give_found(&relation, &columns, &values, &keys)
        .expect(rt, "memory");
    drop(relation);
    drop(columns);
    drop(values);
    drop(keys);
}

/// A Ctx in which one row has each of these numbers, or two have it.
fn known(rt: &impl Abort, alloc: Global, numbers: &[u8], two: bool) -> Ctx
    ensures { IsClean result }
{
    let mut ctx = Ctx::new(alloc);
    for number in numbers {
        answer(rt, alloc, &mut ctx, *number, two);
    }
    ctx
}

/// What becomes of a row, its number, the numbers that are known, whether two rows have each of them, and the answer.
type Case = (Event, u8, &'static [u8], bool, Reply);

/// What is answered in a case.
fn reply_in<A: Attachment>(
    rt: &impl Abort,
    attachment: &A,
    alloc: Global,
    inst: &Instance,
    case: &Case,
) -> Reply
    requires { Watches (A.attachment attachment.now) inst.now }
{
    let (event, number, numbers, two, _) = case;
    let mut ctx = known(rt, alloc, numbers, *two);
    let answer = answered(rt, attachment, alloc, &mut ctx, inst, *event, *number);
    drop(ctx);
    answer
}

/// The place of the first case that is answered otherwise.
fn first_other<A: Attachment>(
    rt: &impl Abort,
    attachment: &A,
    alloc: Global,
    inst: &Instance,
    cases: &[Case],
) -> Option<usize>
    requires { Watches (A.attachment attachment.now) inst.now }
{
    for (i, case) in cases.iter().enumerate() {
        if reply_in(rt, attachment, alloc, inst, case) != case.4 {
            return Some(i);
        }
    }
    None
}

fn sums<A: Attachment>(attachment: &A, alloc: Global, ctx: &mut Ctx, inst: &Instance) -> Reply
    requires clean { IsClean ctx.old }
    requires inst { Watches (A.attachment attachment.now) inst.now }
{
    reply_of(attachment.sums(alloc, ctx, inst))
}

/// The sums of an empty Ctx.
fn sums_of_none<A: Attachment>(attachment: &A, alloc: Global, inst: &Instance) -> Reply
    requires { Watches (A.attachment attachment.now) inst.now }
{
    let mut ctx = Ctx::new(alloc);
    let answer = sums(attachment, alloc, &mut ctx, inst);
    drop(ctx);
    answer
}

/// Four numbers.
fn query(rt: &impl Abort, alloc: Global) -> Tuple
    ensures { IsQuery result }
{
    let numbers = vec![in alloc; Value::Int(1), Value::Int(1), Value::Int(5), Value::Int(5)];
    Tuple::from_vec(numbers.expect(rt, "memory"))
}

/// What a search over page 3 with these bytes answers.
fn hits<A: Attachment>(
    rt: &impl Abort,
    attachment: &A,
    alloc: Global,
    inst: &Instance,
    front: &[u8],
) -> Reply
    requires { Watches (A.attachment attachment.now) inst.now }
{
    let query = query(rt, alloc);
    let mut ctx = page(rt, alloc, front);
    let answer = attachment.seek(alloc, &mut ctx, inst, &query);
    drop(ctx);
    drop(query);
    reply_of(answer)
}

/// What is answered for the least entry from a key on.
fn entry_from<A: Attachment>(attachment: &A, alloc: Global, inst: &Instance, low: &RecKey) -> Reply
    requires { Watches (A.attachment attachment.now) inst.now }
{
    let mut ctx = Ctx::new(alloc);
    let answer = attachment.next_entry(alloc, &mut ctx, inst, low, None);
    drop(ctx);
    reply_of(answer)
}

/// What is answered for the least entry.
fn first_entry<A: Attachment>(attachment: &A, alloc: Global, inst: &Instance) -> Reply
    requires { Watches (A.attachment attachment.now) inst.now }
{
    let low = key(alloc);
    let answer = entry_from(attachment, alloc, inst, &low);
    drop(low);
    answer
}

/// What prepare answers.
fn prepared<A: Attachment>(attachment: &A, alloc: Global, inst: &Instance) -> Reply
    requires { Watches (A.attachment attachment.now) inst.now }
{
    let mut ctx = Ctx::new(alloc);
    let answer = attachment.prepare(alloc, &mut ctx, inst);
    drop(ctx);
    reply_of(answer)
}

/// What late_check answers.
fn checked<A: Attachment>(attachment: &A, alloc: Global, inst: &Instance) -> Reply
    requires { Watches (A.attachment attachment.now) inst.now }
{
    let late = Bytes::new(alloc);
    let mut ctx = Ctx::new(alloc);
    let answer = attachment.late_check(alloc, &mut ctx, inst, &late);
    drop(ctx);
    drop(late);
    reply_of(answer)
}

/// Whether prepare and late_check are done with, and the least entry is this one.
fn begins_with<A: Attachment>(attachment: &A, alloc: Global, inst: &Instance, entry: Reply) -> bool
    requires { Watches (A.attachment attachment.now) inst.now }
{
    let made = prepared(attachment, alloc, inst);
    let checked = checked(attachment, alloc, inst);
    let first = first_entry(attachment, alloc, inst);
    (made, checked, first) == (Reply::Done, Reply::Done, entry)
}

/// Whether there is no entry, and the sums of an empty Ctx are these.
fn keeps<A: Attachment>(attachment: &A, alloc: Global, inst: &Instance, wanted: Reply) -> bool
    requires { Watches (A.attachment attachment.now) inst.now }
{
    begins_with(attachment, alloc, inst, Reply::End)
        && sums_of_none(attachment, alloc, inst) == wanted
}

// ---- the limit

const LIMITED: [Case; 7] = [
    (Event::Stands, 7, &[], false, Reply::Done),
    (Event::Stands, 8, &[], false, Reply::Veto),
    (Event::Comes, 7, &[], false, Reply::Done),
    (Event::Comes, 8, &[], false, Reply::Veto),
    (Event::Changes, 7, &[], false, Reply::Done),
    (Event::Changes, 8, &[], false, Reply::Veto),
    (Event::Goes, 8, &[], false, Reply::Done),
];

#[test]
fn rows_above_the_limit_are_vetoed(rt: HostRuntime) {
    let alloc = rt.alloc();
    let inst = limit_instance(&rt, alloc);
    let keeps = keeps(&Limit {}, alloc, &inst, Reply::Sum(None));
    let hits = hits(&rt, &Limit {}, alloc, &inst, &[]);
    let other = first_other(&rt, &Limit {}, alloc, &inst, &LIMITED);
    drop(inst);
    let is_so = keeps && hits == Reply::Hits(0);
    assert_eq!(rt; (is_so, other), (true, None));
}

// ---- the row that stands once

/// Nine, and the numbers of the desc.
const ALL: &[u8] = &[9, 1, 2, 3, 4, 5, 6, 7];

const KNOWN: [Case; 8] = [
    (Event::Stands, 9, &[], false, Reply::Asks(Some(9))),
    (Event::Stands, 9, &[9], false, Reply::Asks(Some(1))),
    (Event::Comes, 9, &[9, 1, 2, 4], false, Reply::Asks(Some(3))),
    (Event::Stands, 9, ALL, false, Reply::Done),
    (Event::Stands, 9, &[9], true, Reply::Veto),
    (Event::Comes, 9, &[9], true, Reply::Veto),
    (Event::Changes, 9, &[9], true, Reply::Veto),
    (Event::Goes, 9, &[9], true, Reply::Done),
];

#[test]
fn eight_numbers_stand_once(rt: HostRuntime) {
    let alloc = rt.alloc();
    let inst = once_instance(&rt, alloc);
    let keeps = keeps(&Once {}, alloc, &inst, Reply::Sum(None));
    let hits = hits(&rt, &Once {}, alloc, &inst, &[]);
    let other = first_other(&rt, &Once {}, alloc, &inst, &KNOWN);
    drop(inst);
    let is_so = keeps && hits == Reply::Hits(0);
    assert_eq!(rt; (is_so, other), (true, None));
}

// ---- the count

/// The count of 2.
const TWO: &[u8] = &[0, 0, 0, 0, 0, 0, 0, 2];

/// Whether so many rows are counted once this became of one, where there were two.
fn is_counted<A: Attachment>(
    rt: &impl Abort,
    attachment: &A,
    alloc: Global,
    inst: &Instance,
    event: Event,
    rows: u8,
) -> bool
    requires { Watches (A.attachment attachment.now) inst.now }
{
    let mut ctx = page(rt, alloc, TWO);
    let answer = answered(rt, attachment, alloc, &mut ctx, inst, event, 9);
    let is_left = begins(&ctx, &[0, 0, 0, 0, 0, 0, 0, rows, 0]);
    drop(ctx);
    answer == Reply::Done && is_left
}

/// The place of the first event that leaves another number of rows.
fn first_miscounted<A: Attachment>(
    rt: &impl Abort,
    attachment: &A,
    alloc: Global,
    inst: &Instance,
    events: &[(Event, u8)],
) -> Option<usize>
    requires { Watches (A.attachment attachment.now) inst.now }
{
    for (i, (event, rows)) in events.iter().enumerate() {
        if !is_counted(rt, attachment, alloc, inst, *event, *rows) {
            return Some(i);
        }
    }
    None
}

const COUNTED: [(Event, u8); 4] = [
    (Event::Stands, 3),
    (Event::Comes, 3),
    (Event::Changes, 2),
    (Event::Goes, 1),
];

#[test]
fn rows_are_counted(rt: HostRuntime) {
    let alloc = rt.alloc();
    let inst = count_instance(&rt, alloc);
    let keeps = keeps(&Count {}, alloc, &inst, Reply::Needs(3));
    let other = first_miscounted(&rt, &Count {}, alloc, &inst, &COUNTED);
    drop(inst);
    assert_eq!(rt; (keeps, other), (true, None));
}

/// The sum of page 3 with these bytes.
fn sum_of<A: Attachment>(
    rt: &impl Abort,
    attachment: &A,
    alloc: Global,
    inst: &Instance,
    front: &[u8],
) -> Reply
    requires { Watches (A.attachment attachment.now) inst.now }
{
    let mut ctx = page(rt, alloc, front);
    let sum = sums(attachment, alloc, &mut ctx, inst);
    drop(ctx);
    sum
}

/// The place of the first page that has another sum.
fn first_other_sum<A: Attachment>(
    rt: &impl Abort,
    attachment: &A,
    alloc: Global,
    inst: &Instance,
    pages: &[(&[u8], Reply)],
) -> Option<usize>
    requires { Watches (A.attachment attachment.now) inst.now }
{
    for (i, (front, wanted)) in pages.iter().enumerate() {
        if sum_of(rt, attachment, alloc, inst, front) != *wanted {
            return Some(i);
        }
    }
    None
}

/// Pages, and their counts.
const COUNTS: [(&[u8], Reply); 4] = [
    (&[], Reply::Sum(Some(0))),
    (TWO, Reply::Sum(Some(2))),
    (
        &[0, 1, 0, 0, 0, 0, 0, 0],
        Reply::Sum(Some(281_474_976_710_656)),
    ),
    (&[0, 1, 0, 0, 0, 0, 0, 1], Reply::Broken(3)),
];

#[test]
fn a_count_is_summed(rt: HostRuntime) {
    let alloc = rt.alloc();
    let inst = count_instance(&rt, alloc);
    let other = first_other_sum(&rt, &Count {}, alloc, &inst, &COUNTS);
    let two = hits(&rt, &Count {}, alloc, &inst, TWO);
    let broken = hits(&rt, &Count {}, alloc, &inst, &[1]);
    drop(inst);
    let is_so = two == Reply::Hits(0) && broken == Reply::Broken(3);
    assert_eq!(rt; (is_so, other), (true, None));
}

// ---- the legend
