//! A trigger on the relation `e` of salaries and departments: whoever comes with more than 100 adds that to the total of
//! the department in `d`.

ghost use Rattle.std.specs.Prelude.{◌≡◌, ◌∷◌, [], pos};
ghost use Rattle.sb_pred.specs.Spelling.{IsShortTerm};
ghost use Rattle.sb_rule.specs.Spelling.{rule_spelling, IsStorableRule, IsShortAction};
ghost use Rattle.sb_ctx.specs.View.{IsClean};
ghost use Rattle.sb_ctx.specs.declared.instance.Instance.{Instance as Seen};
ghost use Rattle.sb_ctx.specs.Attachment.{IsInstance, MayHold, MayMeet};
ghost use Rattle.sb_rules.specs.Triggers.{trigger};
ghost use Rattle.sb_rules.specs.Examples.{staff, well_paid, adds_salary, hires};

use super::{Reply, built, changed, is_of, keeps_nothing, key, late};
use crate::text::text;
use sb_ctx::{Ctx, Instance};
use sb_pred::{Op, Pred, Term};
use sb_relation::{Action, Change, Event, Pairs, Rule, write_rule};
use sb_rules::Trigger;
use sb_value::{Bytes, Column, Kind, Names, Schema, Tuple, Value};
use std::alloc::Global;
use std::process::Abort;
use std::test::*;

fn columns(rt: &impl Abort, alloc: Global) -> Schema
    ensures { result ≡ staff }
{
    let first = Column {
        name: text(rt, alloc, "salary"),
        kind: Kind::Int,
        limit: 0,
    };
    let second = Column {
        name: text(rt, alloc, "dept"),
        kind: Kind::Int,
        limit: 0,
    };
    Schema::from_vec(vec![in alloc; first, second].expect(rt, "memory"))
}

fn predicate(rt: &impl Abort, alloc: Global) -> Pred
    ensures { result ≡ well_paid }
{
    let hundred = Term::Const(Value::Int(100));
    Pred::cmp(Op::Gt, Term::New(text(rt, alloc, "salary")), hundred)
}

fn action(rt: &impl Abort, alloc: Global) -> Action
    ensures { result ≡ adds_salary }
{
    let id = text(rt, alloc, "id");
    let pair = (id, Term::New(text(rt, alloc, "dept")));
    Action::Add {
        relation: text(rt, alloc, "d"),
        column: text(rt, alloc, "total"),
        term: Term::New(text(rt, alloc, "salary")),
        pairs: Pairs::from_vec(vec![in alloc; pair].expect(rt, "memory")),
    }
}

fn desc(rt: &impl Abort, alloc: Global, deferred: bool) -> Bytes
    ensures spelled { result ≡ rule_spelling (hires deferred) }
    ensures storable { IsStorableRule (hires deferred) }
{
    let rule = Rule::Trigger {
        event: Event::Insert,
        pred: predicate(rt, alloc),
        action: action(rt, alloc),
        deferred,
    };
    let mut desc = Bytes::new(alloc);
    write_rule(&rule, &mut desc).expect(rt, "memory");
    drop(rule);
    desc
}

fn instance(rt: &impl Abort, alloc: Global, deferred: bool) -> Instance
    ensures trigger { IsInstance trigger result }
    ensures columns { result.schema ≡ staff }
{
    Instance {
        relation: text(rt, alloc, "e"),
        owner: 0,
        root: 0,
        durable: true,
        code: 7,
        desc: desc(rt, alloc, deferred),
        schema: columns(rt, alloc),
        key: Names::from_vec(Vec::new(alloc)),
    }
}

fn row(rt: &impl Abort, alloc: Global, salary: i64) -> Tuple
    ensures { result ≡ Value.Int salary ∷ Value.Int (pos 7) ∷ [] }
{
    let numbers = vec![in alloc; Value::Int(salary), Value::Int(7)];
    Tuple::from_vec(numbers.expect(rt, "memory"))
}

fn built_row(rt: &impl Abort, alloc: Global, inst: &Instance, salary: i64) -> Reply
    requires trigger { IsInstance trigger inst.now }
    requires columns { inst.now.schema ≡ staff }
{
    let row = row(rt, alloc, salary);
    let reply = built(&Trigger::new(), alloc, inst, &row);
    drop(row);
    reply
}

fn late_of_nothing(alloc: Global, inst: &Instance) -> Reply
    requires { IsInstance trigger inst.now }
{
    let entry = Bytes::new(alloc);
    let mut ctx = Ctx::new(alloc);
    let reply = late(&Trigger::new(), alloc, &mut ctx, inst, &entry);
    drop(ctx);
    drop(entry);
    reply
}

#[test]
fn nothing_is_made(rt: HostRuntime) {
    let alloc = rt.alloc();
    let inst = instance(&rt, alloc, false);
    let trigger = Trigger::new();
    assert!(rt; is_of(&trigger, &inst, 7));
    assert!(rt; keeps_nothing(&rt, &trigger, alloc, &inst));
    assert!(rt; built_row(&rt, alloc, &inst, 150) == Reply::Done);
    assert!(rt; late_of_nothing(alloc, &inst) == Reply::Done);
    drop(inst);
}

fn change(rt: &impl Abort, alloc: Global, old: Option<i64>, new: Option<i64>) -> Change
    ensures { (inst : Seen) → inst.schema ≡ staff → MayMeet trigger inst result }
{
    match (old, new) {
        (Some(old), Some(new)) => Change::Update {
            from: key(alloc),
            old: row(rt, alloc, old),
            to: key(alloc),
            new: row(rt, alloc, new),
        },
        (None, Some(new)) => Change::Insert {
            key: key(alloc),
            new: row(rt, alloc, new),
        },
        (old, None) => Change::Delete {
            key: key(alloc),
            old: row(rt, alloc, old.unwrap_or(0)),
        },
    }
}

fn constant(term: &Term) -> Option<i64> {
    match term {
        Term::Const(value) => match value {
            Value::Int(number) => Some(*number),
            Value::Text(_) => None,
        },
        _ => None,
    }
}

fn is_of_dept_7(pairs: &Pairs) -> bool {
    match pairs.as_slice() {
        [pair] => pair.0.as_str() == "id" && constant(&pair.1) == Some(7),
        _ => false,
    }
}

/// Whether this adds 150 to the total of department 7.
fn is_raise(action: &Action) -> bool {
    match action {
        Action::Add {
            relation,
            column,
            term,
            pairs,
        } => {
            relation.as_str() == "d"
                && column.as_str() == "total"
                && constant(term) == Some(150)
                && is_of_dept_7(pairs)
        }
        _ => false,
    }
}

pub(super) fn is_one_raise(actions: &[Action]) -> bool {
    match actions {
        [action] => is_raise(action),
        _ => false,
    }
}

/// What the trigger, deferred or not, answers to the change.
fn follow(
    rt: &impl Abort,
    alloc: Global,
    deferred: bool,
    old: Option<i64>,
    new: Option<i64>,
) -> Reply {
    let inst = instance(rt, alloc, deferred);
    let change = change(rt, alloc, old, new);
    let reply = changed(&Trigger::new(), alloc, &inst, &change);
    drop(change);
    drop(inst);
    reply
}

/// Whether the trigger is deferred, the salary of the row that goes, that of the row that comes, and what follows.
static CHANGES: [(bool, Option<i64>, Option<i64>, Reply); 7] = [
    (false, None, Some(150), Reply::AtOnce),
    (false, None, Some(100), Reply::Done),
    (false, Some(50), Some(150), Reply::Done),
    (false, Some(150), None, Reply::Done),
    (true, None, Some(150), Reply::AtTheCommit),
    (true, None, Some(-150), Reply::Done),
    (true, Some(150), None, Reply::Done),
];

#[test]
fn actions_follow(rt: HostRuntime) {
    for (number, (deferred, old, new, wanted)) in CHANGES.iter().enumerate() {
        let reply = follow(&rt, rt.alloc(), *deferred, *old, *new);
        assert!(rt; reply == *wanted, "row {number}");
    }
}
