//! A rule of each kind that may stand on a relation `(a int, b text(10))`, and one that may not; the second relation is `s` of `(c int)`.
//! What is expected follows from the definitions by hand.

use sb_kinds::{may_keep, may_stand, other_relation};
use sb_pred::{Op, Pred, Term};
use sb_rule::{Action, Event, Mode, Rule, Side, Terms};
use sb_value::{Bytes, Column, Kind, Names, Schema, Str, Value};
use std::alloc::Global;
use std::process::Abort;
use std::test::*;

fn name(rt: &impl Abort, alloc: Global, text: &str) -> Str {
    Str::from_string(String::from_str(alloc, text).expect(rt, "memory"))
}

fn names(rt: &impl Abort, alloc: Global, text: &str) -> Names {
    let name = name(rt, alloc, text);
    Names::from_vec(vec![in alloc; name].expect(rt, "memory"))
}

fn column(rt: &impl Abort, alloc: Global, text: &str, kind: Kind, limit: u8) -> Column {
    let name = name(rt, alloc, text);
    Column { name, kind, limit }
}

fn own(rt: &impl Abort, alloc: Global) -> Schema {
    let number = column(rt, alloc, "a", Kind::Int, 0);
    let text = column(rt, alloc, "b", Kind::Text, 10);
    Schema::from_vec(vec![in alloc; number, text].expect(rt, "memory"))
}

fn second(rt: &impl Abort, alloc: Global) -> Schema {
    let number = column(rt, alloc, "c", Kind::Int, 0);
    Schema::from_vec(vec![in alloc; number].expect(rt, "memory"))
}

fn tree(rt: &impl Abort, alloc: Global, column: &str) -> Rule {
    let columns = names(rt, alloc, column);
    Rule::TreeIndex {
        columns,
        unique: false,
    }
}

fn hash(rt: &impl Abort, alloc: Global, column: &str) -> Rule {
    let columns = names(rt, alloc, column);
    Rule::HashIndex { columns }
}

fn stats(rt: &impl Abort, alloc: Global, column: &str) -> Rule {
    let column = name(rt, alloc, column);
    Rule::Stats {
        column,
        low: 0,
        width: 1,
    }
}

/// That the new row's column is 1.
fn check(rt: &impl Abort, alloc: Global, column: &str) -> Rule {
    let term = Term::New(name(rt, alloc, column));
    Rule::Check {
        pred: Pred::cmp(Op::Eq, term, Term::Const(Value::Int(1))),
        deferred: false,
    }
}

fn join(rt: &impl Abort, alloc: Global, column: &str, other: &str) -> Rule {
    let columns = names(rt, alloc, column);
    let others = names(rt, alloc, other);
    let other = name(rt, alloc, "s");
    Rule::JoinIndex {
        side: Side::Main,
        columns,
        other,
        others,
    }
}

fn refers(rt: &impl Abort, alloc: Global, column: &str, other: &str) -> Rule {
    let columns = names(rt, alloc, column);
    let others = names(rt, alloc, other);
    let other = name(rt, alloc, "s");
    Rule::Refers {
        side: Side::Main,
        columns,
        other,
        others,
        mode: Mode::Restrict,
        deferred: false,
    }
}

/// Inserts the new row's column into `s`.
fn trigger(rt: &impl Abort, alloc: Global, column: &str) -> Rule {
    let term = Term::New(name(rt, alloc, column));
    let terms = Terms::from_vec(vec![in alloc; term].expect(rt, "memory"));
    let relation = name(rt, alloc, "s");
    Rule::Trigger {
        event: Event::Insert,
        pred: Pred::always(),
        action: Action::Insert { relation, terms },
        deferred: false,
    }
}

/// A rule of this code on a column of its own relation and, where it is tied, on one of the other.
fn rule(rt: &impl Abort, alloc: Global, code: u16, column: &str, other: &str) -> Rule {
    match code {
        1 => tree(rt, alloc, column),
        2 => hash(rt, alloc, column),
        3 => join(rt, alloc, column, other),
        4 => stats(rt, alloc, column),
        5 => check(rt, alloc, column),
        6 => refers(rt, alloc, column, other),
        _ => trigger(rt, alloc, column),
    }
}

/// Rules by their codes and columns, and whether they may stand.
const ROWS: [(u16, &str, &str, bool); 14] = [
    (1, "b", "", true),
    (1, "c", "", false),
    (2, "a", "", true),
    (2, "z", "", false),
    (3, "a", "c", true),
    (3, "b", "c", false),
    (4, "a", "", true),
    (4, "b", "", false),
    (5, "a", "", true),
    (5, "b", "", false),
    (6, "a", "c", true),
    (6, "a", "a", false),
    (7, "a", "", true),
    (7, "b", "", false),
];

/// Whether the rule may stand on its relation, beside the other where there is one.
fn stands(own: &Schema, other: Option<&Schema>, rule: Rule, fits: bool) -> bool {
    let stands = may_stand(own, other, &rule, fits);
    drop(rule);
    stands
}

#[test]
fn rules_of_each_kind(rt: HostRuntime) {
    let alloc = rt.alloc();
    let own = own(&rt, alloc);
    let other = second(&rt, alloc);
    for (code, column, others, wanted) in ROWS {
        let rule = rule(&rt, alloc, code, column, others);
        assert_eq!(rt; stands(&own, Some(&other), rule, false), wanted);
    }
    drop(other);
    drop(own);
}

fn foreign(alloc: Global) -> Rule {
    Rule::Foreign {
        code: 1000,
        desc: Bytes::new(alloc),
    }
}

#[test]
fn rules_of_others(rt: HostRuntime) {
    let alloc = rt.alloc();
    let own = own(&rt, alloc);
    assert!(rt; stands(&own, None, foreign(alloc), true));
    assert!(rt; !stands(&own, None, foreign(alloc), false));
    drop(own);
}

#[test]
fn second_relations(rt: HostRuntime) {
    let alloc = rt.alloc();
    let own = own(&rt, alloc);
    let rule = join(&rt, alloc, "a", "c");
    assert!(rt; other_relation(&rule).is_some());
    assert!(rt; !stands(&own, None, rule, false));
    drop(own);
}

/// Heap 1, tree 2 and another's method 1000: a key of this column, what the method itself says, and whether it keeps the relation.
const METHODS: [(u16, &str, bool, bool); 5] = [
    (1, "a", true, false),
    (2, "a", false, true),
    (2, "c", false, false),
    (1000, "a", true, true),
    (1000, "a", false, false),
];

#[test]
fn methods(rt: HostRuntime) {
    let alloc = rt.alloc();
    let own = own(&rt, alloc);
    for (method, column, fits, wanted) in METHODS {
        let key = names(&rt, alloc, column);
        let keeps = may_keep(&own, &key, method, fits);
        drop(key);
        assert_eq!(rt; keeps, wanted);
    }
    drop(own);
}
