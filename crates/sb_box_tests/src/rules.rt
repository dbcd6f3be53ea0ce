//! What no clause says: that calls succeed while memory lasts. And each call once, through its bound, with the check
//! `k >= 0` over rows of one number.

mod triggers;

ghost use Rattle.std.specs.Prelude.{◌≡◌, ◌∷◌, []};
ghost use Rattle.sb_rule.specs.Spelling.{rule_spelling, IsStorableRule};
ghost use Rattle.sb_ctx.specs.declared.instance.Instance.{Instance as Seen};
ghost use Rattle.sb_ctx.specs.View.{IsClean};
ghost use Rattle.sb_ctx.specs.Attachment.{IsInstance, IsQuery, MayHold, MayMeet};
ghost use Rattle.sb_rules.specs.Checks.{check};
ghost use Rattle.sb_rules.specs.Examples.{numbers, not_negative};

use crate::text::text;
use sb_codec::encode_tuple;
use sb_ctx::{Attachment, Ctx, Instance, Keys, Move};
use sb_pred::{Op, Pred, Term};
use sb_relation::{Action, Change, Rule, write_rule};
use sb_rules::Check;
use sb_value::{Bytes, Column, Kind, Names, RecKey, Schema, Str, Tuple, Value};
use std::alloc::Global;
use std::process::Abort;
use std::test::*;

// Want of memory ends a test at once: where a test went on to an `Err`, each value that it has would be dropped on the way,
// which is dear to prove. A value that goes by a call of `drop` is far cheaper than one that goes at its scope's end.

fn columns(rt: &impl Abort, alloc: Global) -> Schema
    ensures { result ≡ numbers }
{
    let column = Column {
        name: text(rt, alloc, "k"),
        kind: Kind::Int,
        limit: 0,
    };
    Schema::from_vec(vec![in alloc; column].expect(rt, "memory"))
}

/// The bytes of the check `k >= 0`.
fn desc(rt: &impl Abort, alloc: Global, deferred: bool) -> Bytes
    ensures spelled { result ≡ rule_spelling (Rule.Check not_negative deferred) }
    ensures storable { IsStorableRule (Rule.Check not_negative deferred) }
{
    let zero = Term::Const(Value::Int(0));
    let pred = Pred::cmp(Op::Ge, Term::New(text(rt, alloc, "k")), zero);
    let rule = Rule::Check { pred, deferred };
    let mut desc = Bytes::new(alloc);
    write_rule(&rule, &mut desc).expect(rt, "memory");
    drop(rule);
    desc
}

/// The check on the relation `r`.
fn instance(rt: &impl Abort, alloc: Global, deferred: bool) -> Instance
    ensures check { IsInstance check result }
    ensures columns { result.schema ≡ numbers }
{
    Instance {
        relation: text(rt, alloc, "r"),
        owner: 0,
        root: 0,
        durable: true,
        code: 5,
        desc: desc(rt, alloc, deferred),
        schema: columns(rt, alloc),
        key: Names::from_vec(Vec::new(alloc)),
    }
}

fn row(rt: &impl Abort, alloc: Global, number: i64) -> Tuple
    ensures { result ≡ Value.Int number ∷ [] }
{
    Tuple::from_vec(vec![in alloc; Value::Int(number)].expect(rt, "memory"))
}

fn key(alloc: Global) -> RecKey
    ensures { result ≡ [] }
{
    RecKey::from_vec(Vec::new(alloc))
}

/// What a call answers, in short.
#[derive(Clone, Copy, PartialEq, Eq)]
enum Reply {
    Done,
    Veto,
    End,
    NoSums,
    NoHits,
    /// The rows of `r` whose `k` is -1 are asked for.
    Find,
    /// The row of -1 is left for the commit, alone.
    Entry,
    /// 150 is added to the total of department 7, and nothing else is to be done.
    AtOnce,
    AtTheCommit,
    Other,
}

/// Whether the rows of `r` whose `k` is -1 are asked for.
fn is_find(relation: &Str, columns: &Names, values: &Tuple) -> bool {
    match (columns.as_slice(), values.as_slice()) {
        ([column], [Value::Int(number)]) => {
            relation.as_str() == "r" && column.as_str() == "k" && *number == -1
        }
        _ => false,
    }
}

/// The bytes of the row of -1.
const ENTRY: &[u8] = b"\x01\x01\xff\xff\xff\xff\xff\xff\xff\xff";

fn is_entry(checks: &[Bytes]) -> bool {
    match checks {
        [entry] => entry.as_slice() == ENTRY,
        _ => false,
    }
}

fn reply_of_acts(now: &[Action], late: &[Action], checks: &[Bytes]) -> Reply {
    if now.is_empty() && late.is_empty() && is_entry(checks) {
        Reply::Entry
    } else if !checks.is_empty() {
        Reply::Other
    } else if triggers::is_one_raise(now) && late.is_empty() {
        Reply::AtOnce
    } else if triggers::is_one_raise(late) && now.is_empty() {
        Reply::AtTheCommit
    } else {
        Reply::Other
    }
}

fn reply_of(made: Move) -> Reply {
    let reply = in_short(&made);
    drop(made);
    reply
}

/// This where the list is empty.
fn if_none(is_empty: bool, reply: Reply) -> Reply {
    if is_empty { reply } else { Reply::Other }
}

fn in_short(made: &Move) -> Reply {
    match made {
        Move::Done => Reply::Done,
        Move::Veto => Reply::Veto,
        Move::End => Reply::End,
        Move::Sums(sums) => if_none(sums.as_slice().is_empty(), Reply::NoSums),
        Move::Hits(keys) => if_none(keys.as_slice().is_empty(), Reply::NoHits),
        Move::Find {
            relation,
            columns,
            values,
        } => {
            if is_find(relation, columns, values) {
                Reply::Find
            } else {
                Reply::Other
            }
        }
        Move::Acts { now, late, checks } => {
            reply_of_acts(now.as_slice(), late.as_slice(), checks.as_slice())
        }
        _ => Reply::Other,
    }
}

/// Four numbers.
fn query(rt: &impl Abort, alloc: Global) -> Tuple
    ensures { IsQuery result }
{
    let numbers = vec![in alloc; Value::Int(1), Value::Int(1), Value::Int(5), Value::Int(5)];
    Tuple::from_vec(numbers.expect(rt, "memory"))
}

/// What an attachment is asked that has nothing of its own.
#[derive(Clone, Copy)]
enum Call {
    Prepare,
    FirstEntry,
    Sums,
    Seek,
}

fn asked<A: Attachment>(
    rt: &impl Abort,
    attachment: &A,
    alloc: Global,
    inst: &Instance,
    call: Call,
) -> Reply
    requires { IsInstance (A.attachment attachment.now) inst.now }
{
    let low = key(alloc);
    let query = query(rt, alloc);
    let mut ctx = Ctx::new(alloc);
    let made = match call {
        Call::Prepare => attachment.prepare(alloc, &mut ctx, inst),
        Call::FirstEntry => attachment.next_entry(alloc, &mut ctx, inst, &low, None),
        Call::Sums => attachment.sums(alloc, &mut ctx, inst),
        Call::Seek => attachment.seek(alloc, &mut ctx, inst, &query),
    };
    drop(ctx);
    drop(query);
    drop(low);
    reply_of(made)
}

/// The answers of one that is prepared without a page, and has no entry, no sums and no hits.
static NOTHING: [(Call, Reply); 4] = [
    (Call::Prepare, Reply::Done),
    (Call::FirstEntry, Reply::End),
    (Call::Sums, Reply::NoSums),
    (Call::Seek, Reply::NoHits),
];

/// Whether it answers so.
fn keeps_nothing<A: Attachment>(
    rt: &impl Abort,
    attachment: &A,
    alloc: Global,
    inst: &Instance,
) -> bool
    requires { IsInstance (A.attachment attachment.now) inst.now }
{
    for (call, wanted) in NOTHING.iter() {
        if asked(rt, attachment, alloc, inst, *call) != *wanted {
            return false;
        }
    }
    true
}

/// Whether it has the code, and fits the instance.
fn is_of<A: Attachment>(attachment: &A, inst: &Instance, code: u16) -> bool {
    attachment.code() == code && attachment.fits(&inst.schema, &inst.desc)
}

#[test]
fn without_pages(rt: HostRuntime) {
    let inst = instance(&rt, rt.alloc(), false);
    let check = Check::new();
    assert!(rt; is_of(&check, &inst, 5));
    assert!(rt; keeps_nothing(&rt, &check, rt.alloc(), &inst));
    drop(inst);
}

fn built<A: Attachment>(attachment: &A, alloc: Global, inst: &Instance, row: &Tuple) -> Reply
    requires inst { IsInstance (A.attachment attachment.now) inst.now }
    requires row { MayHold (A.attachment attachment.now) inst.now row.now }
{
    let key = key(alloc);
    let mut ctx = Ctx::new(alloc);
    let made = attachment.on_build(alloc, &mut ctx, inst, &key, row);
    drop(ctx);
    drop(key);
    reply_of(made)
}

/// What the check answers to a row that stands when it is attached.
fn build(rt: &impl Abort, alloc: Global, number: i64) -> Reply {
    let inst = instance(rt, alloc, true);
    let row = row(rt, alloc, number);
    let reply = built(&Check::new(), alloc, &inst, &row);
    drop(row);
    drop(inst);
    reply
}

/// Numbers, and whether a row of them is admitted.
static BUILT: [(i64, Reply); 4] = [
    (0, Reply::Done),
    (5, Reply::Done),
    (-1, Reply::Veto),
    (i64::MIN, Reply::Veto),
];

#[test]
fn rows_are_built(rt: HostRuntime) {
    for (number, wanted) in BUILT.iter() {
        let reply = build(&rt, rt.alloc(), *number);
        assert!(rt; reply == *wanted, "{number}");
    }
}

fn change(rt: &impl Abort, alloc: Global, old: Option<i64>, new: Option<i64>) -> Change
    ensures { (inst : Seen) → inst.schema ≡ numbers → MayMeet check inst result }
{
    match (old, new) {
        (Some(old), Some(new)) => Change::Update {
            from: key(alloc),
            old: row(rt, alloc, old),
            to: key(alloc),
            new: row(rt, alloc, new),
        },
        (None, Some(new)) => Change::Insert {
            key: key(alloc),
            new: row(rt, alloc, new),
        },
        (old, None) => Change::Delete {
            key: key(alloc),
            old: row(rt, alloc, old.unwrap_or(0)),
        },
    }
}

fn changed<A: Attachment>(attachment: &A, alloc: Global, inst: &Instance, change: &Change) -> Reply
    requires inst { IsInstance (A.attachment attachment.now) inst.now }
    requires change { MayMeet (A.attachment attachment.now) inst.now change.now }
{
    let mut ctx = Ctx::new(alloc);
    let made = attachment.on_change(alloc, &mut ctx, inst, change);
    drop(ctx);
    reply_of(made)
}

/// What the check, deferred or not, answers to the change.
fn test(
    rt: &impl Abort,
    alloc: Global,
    deferred: bool,
    old: Option<i64>,
    new: Option<i64>,
) -> Reply {
    let inst = instance(rt, alloc, deferred);
    let change = change(rt, alloc, old, new);
    let reply = changed(&Check::new(), alloc, &inst, &change);
    drop(change);
    drop(inst);
    reply
}

/// Whether the check is deferred, the number of the row that goes, that of the row that comes, and the answer.
static CHANGES: [(bool, Option<i64>, Option<i64>, Reply); 9] = [
    (false, None, Some(0), Reply::Done),
    (false, None, Some(-1), Reply::Veto),
    (false, Some(-1), None, Reply::Done),
    (false, Some(7), None, Reply::Done),
    (false, Some(-1), Some(2), Reply::Done),
    (false, Some(2), Some(-1), Reply::Veto),
    (false, Some(-2), Some(-1), Reply::Veto),
    (true, Some(2), Some(-1), Reply::Entry),
    (true, Some(-1), None, Reply::Done),
];

#[test]
fn changes_are_tested(rt: HostRuntime) {
    for (number, (deferred, old, new, wanted)) in CHANGES.iter().enumerate() {
        let reply = test(&rt, rt.alloc(), *deferred, *old, *new);
        assert!(rt; reply == *wanted, "row {number}");
    }
}

/// What a commit knows of the rows of -1.
#[derive(Clone, Copy)]
enum Known {
    Nothing,
    NoRow,
    ARow,
}

fn knowing(rt: &impl Abort, alloc: Global, known: Known) -> Ctx
    ensures { IsClean result }
{
    let mut ctx = Ctx::new(alloc);
    let mut keys = Vec::new(alloc);
    match known {
        Known::Nothing => {
            drop(keys);
            return ctx;
        }
        Known::NoRow => {}
        Known::ARow => keys.push(key(alloc)).expect(rt, "memory"),
    }
    let relation = text(rt, alloc, "r");
    let columns = Names::from_vec(vec![in alloc; text(rt, alloc, "k")].expect(rt, "memory"));
    let row = row(rt, alloc, -1);
    let keys = Keys::from_vec(keys);
    let given = ctx.give_found(&relation, &columns, &row, &keys);
    given.expect(rt, "memory");
    drop(keys);
    drop(row);
    drop(columns);
    drop(relation);
    ctx
}

fn late<A: Attachment>(
    attachment: &A,
    alloc: Global,
    ctx: &mut Ctx,
    inst: &Instance,
    entry: &Bytes,
) -> Reply
    requires clean { IsClean ctx.old }
    requires inst { IsInstance (A.attachment attachment.now) inst.now }
{
    reply_of(attachment.late_check(alloc, ctx, inst, entry))
}

/// The bytes of a row of the number.
fn encoded(rt: &impl Abort, alloc: Global, number: i64) -> Bytes {
    let row = row(rt, alloc, number);
    let bytes = encode_tuple(alloc, &row);
    drop(row);
    bytes.expect(rt, "memory")
}

/// What the check answers at the commit to an entry of the number.
fn test_late(rt: &impl Abort, alloc: Global, number: i64, known: Known) -> Reply {
    let inst = instance(rt, alloc, true);
    let entry = encoded(rt, alloc, number);
    let mut ctx = knowing(rt, alloc, known);
    let reply = late(&Check::new(), alloc, &mut ctx, &inst, &entry);
    drop(ctx);
    drop(entry);
    drop(inst);
    reply
}

/// The number of the entry, what is known, and the answer.
static LATE: [(i64, Known, Reply); 4] = [
    (3, Known::Nothing, Reply::Done),
    (-1, Known::Nothing, Reply::Find),
    (-1, Known::NoRow, Reply::Done),
    (-1, Known::ARow, Reply::Veto),
];

#[test]
fn entries_are_tested(rt: HostRuntime) {
    for (row, (number, known, wanted)) in LATE.iter().enumerate() {
        let reply = test_late(&rt, rt.alloc(), *number, *known);
        assert!(rt; reply == *wanted, "row {row}");
    }
}
