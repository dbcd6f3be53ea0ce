//! What no clause says: that calls succeed while memory lasts. And each call once.

ghost use Rattle.sb_deferred.specs.Waiting.{IsFront};

use sb_deferred::Queue;
use sb_deferred::laws::cutting_back_gives_what_waited;
use sb_relation::Action;
use sb_rule::Pairs;
use sb_value::{Bytes, Str};
use std::alloc::Global;
use std::process::Abort;
use std::test::*;

fn text(rt: &impl Abort, alloc: Global, text: &str) -> Str {
    Str::from_string(String::from_str(alloc, text).expect(rt, "memory"))
}

/// What deletes all rows of this relation.
fn deletion(rt: &impl Abort, alloc: Global, relation: &str) -> Action {
    let relation = text(rt, alloc, relation);
    Action::Delete {
        relation,
        pairs: Pairs::from_vec(Vec::new(alloc)),
    }
}

/// Relation, name and entry.
type Check = (&'static str, &'static str, &'static [u8]);

fn put_off(rt: &impl Abort, queue: &mut Queue, alloc: Global, check: Check)
    ensures { IsFront queue.old queue.new }
{
    let (relation, name, entry) = check;
    cutting_back_gives_what_waited();
    let relation = text(rt, alloc, relation);
    let name = text(rt, alloc, name);
    let entry = Bytes::from_vec(Vec::from_slice(alloc, entry).expect(rt, "memory"));
    queue.push_check(relation, name, entry).expect(rt, "memory");
}

fn is_check(queue: &Queue, i: u64, wanted: Check) -> bool {
    let (relation, name, entry) = wanted;
    match queue.check(i) {
        Some((r, n, e)) => { r.as_str() == relation && n.as_str() == name && e.as_slice() == entry }
        None => false,
    }
}

#[test]
fn what_came_after_a_mark_is_cut(rt: HostRuntime) {
    let alloc = rt.alloc();
    let mut queue = Queue::new(alloc);
    assert!(rt; !queue.queued());
    let deletion = deletion(&rt, alloc, "r");
    queue.push_action(deletion).expect(&rt, "memory");
    let mark = queue.mark();
    put_off(&rt, &mut queue, alloc, ("r", "c", b"ab"));
    put_off(&rt, &mut queue, alloc, ("r", "c", b"ab"));
    assert!(rt; is_check(&queue, 0, ("r", "c", b"ab")));
    assert!(rt; queue.check(1).is_none());
    cutting_back_gives_what_waited();
    queue.cut_back(mark);
    assert!(rt; queue.check(0).is_none() && queue.queued());
    assert!(rt; matches!(queue.action(0), Some(Action::Delete { .. })));
    assert!(rt; queue.action(1).is_none());
    queue.clear();
    assert!(rt; queue.action(0).is_none());
    drop(queue);
}

/// Entries of which no two are one.
const CHECKS: [Check; 5] = [
    ("r", "c", b"x"),
    ("s", "c", b"x"),
    ("r", "d", b"x"),
    ("r", "c", b"y"),
    ("r", "c", b""),
];

#[test]
fn entries_keep_their_order(rt: HostRuntime) {
    let alloc = rt.alloc();
    let mut queue = Queue::new(alloc);
    for check in CHECKS {
        put_off(&rt, &mut queue, alloc, check);
    }
    put_off(&rt, &mut queue, alloc, CHECKS[2]);
    for (i, check) in CHECKS.iter().enumerate() {
        assert!(rt; is_check(&queue, i as u64, *check), "at {i}");
    }
    assert!(rt; queue.check(5).is_none());
    assert_eq!(rt; queue.checks(), 5);
    drop(queue);
}
