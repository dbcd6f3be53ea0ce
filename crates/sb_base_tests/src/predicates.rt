ghost use Rattle.std.specs.Prelude.{◌≤◌, length};
ghost use Rattle.sb_pred.specs.Spelling.{IsShortPred};

use sb_pred::{
    Node, Op, Pred, Term, append_name, append_term, column_value, eval, find_column,
    kind_of_column, kind_of_term, name_of, nodes, read_pred, term_of, value_in, well_typed,
    write_pred,
};
use sb_value::{Bytes, Column, Kind, Schema, Str, Tuple, Value};
use std::alloc::Global;
use std::process::Abort;
use std::test::*;

// Want of memory ends a test at once: where a test went on to an `Err`, each value that it has would be dropped on the way,
// which is dear to prove.

fn text(rt: &impl Abort, alloc: Global, text: &str) -> Str
    requires { length text.now ≤ 255 }
    ensures { length result ≤ 255 }
{
    Str::from_string(String::from_str(alloc, text).expect(rt, "memory"))
}

/// `salary >= least`
fn paid(rt: &impl Abort, alloc: Global, least: i64) -> Pred
    ensures { IsShortPred result }
{
    let salary = Term::New(text(rt, alloc, "salary"));
    Pred::cmp(Op::Ge, salary, Term::Const(Value::Int(least)))
}

/// `old.name = 'ab'`
fn named(rt: &impl Abort, alloc: Global) -> Pred
    ensures { IsShortPred result }
{
    let name = Term::Old(text(rt, alloc, "name"));
    Pred::cmp(
        Op::Eq,
        name,
        Term::Const(Value::Text(text(rt, alloc, "ab"))),
    )
}

/// `always and not old.name = 'ab'`
fn renamed(rt: &impl Abort, alloc: Global) -> Pred
    ensures { IsShortPred result }
{
    let other = Pred::not(alloc, named(rt, alloc)).expect(rt, "memory");
    Pred::and(alloc, Pred::always(), other).expect(rt, "memory")
}

fn is_written(rt: &impl Abort, alloc: Global, pred: &Pred, spelling: &[u8]) -> bool
    requires { IsShortPred pred.now }
{
    let mut out = Bytes::new(alloc);
    write_pred(pred, &mut out).expect(rt, "memory");
    out.as_slice() == spelling
}

/// Whether the predicate is written as these bytes, and they are read again as what is written so.
#[tactic(auto, using(sb_pred::proofs::Storable::IsShortPred_from_storable))]
fn is_spelled(rt: &impl Abort, alloc: Global, pred: &Pred, spelling: &[u8]) -> bool
    requires { IsShortPred pred.now }
{
    let read = read_pred(alloc, spelling, 0).expect(rt, "memory");
    let (again, end) = read.expect(rt, "a predicate");
    let written = is_written(rt, alloc, pred, spelling) && is_written(rt, alloc, &again, spelling);
    written && end == spelling.len()
}

#[test]
fn spellings(rt: HostRuntime) {
    let alloc = rt.alloc();
    let spelling = b"\x01\x06\x01\x06salary\x00\x01\x00\x00\x00\x00\x00\x00\x00\x00";
    assert!(rt; is_spelled(&rt, alloc, &paid(&rt, alloc, 0), spelling));
    let spelling = b"\x02\x00\x04\x01\x01\x02\x04name\x00\x02\x02ab";
    assert!(rt; is_spelled(&rt, alloc, &renamed(&rt, alloc), spelling));
    let either = Pred::or(alloc, Pred::always(), Pred::always()).expect(&rt, "memory");
    assert!(rt; is_spelled(&rt, alloc, &either, b"\x03\x00\x00"));
    let behind = read_pred(alloc, b"\x00", 2).expect(&rt, "memory");
    assert!(rt; behind.is_none());
}

fn column(rt: &impl Abort, alloc: Global, name: &str, kind: Kind, limit: u8) -> Column
    requires { length name.now ≤ 255 }
{
    Column {
        name: text(rt, alloc, name),
        kind,
        limit,
    }
}

fn schema(rt: &impl Abort, alloc: Global) -> Schema {
    let name = column(rt, alloc, "name", Kind::Text, 255);
    let salary = column(rt, alloc, "salary", Kind::Int, 0);
    Schema::from_vec(vec![in alloc; name, salary].expect(rt, "memory"))
}

fn row(rt: &impl Abort, alloc: Global, name: &str, salary: i64) -> Tuple
    requires { length name.now ≤ 255 }
{
    let name = Value::Text(text(rt, alloc, name));
    Tuple::from_vec(vec![in alloc; name, Value::Int(salary)].expect(rt, "memory"))
}

/// Whether the old row is named so, or the new one is paid.
fn holds(rt: &impl Abort, alloc: Global, name: &str, salary: i64) -> bool
    requires { length name.now ≤ 255 }
{
    let pred = Pred::or(alloc, paid(rt, alloc, 0), named(rt, alloc)).expect(rt, "memory");
    let schema = schema(rt, alloc);
    let old = row(rt, alloc, name, 7);
    let new = row(rt, alloc, "cd", salary);
    well_typed(&pred, &schema, true, true) && eval(&pred, &schema, Some(&old), Some(&new))
}

#[test]
fn truth_of_rows(rt: HostRuntime) {
    let alloc = rt.alloc();
    assert!(rt; holds(&rt, alloc, "ab", -1));
    assert!(rt; holds(&rt, alloc, "cd", 0));
    assert!(rt; !holds(&rt, alloc, "cd", -1));
}

#[test]
fn columns_by_name(rt: HostRuntime) {
    let alloc = rt.alloc();
    let schema = schema(&rt, alloc);
    let row = row(&rt, alloc, "ab", 7);
    let salary = text(&rt, alloc, "salary");
    assert!(rt; matches!(find_column(&schema, &salary), Some(1)));
    assert!(rt; matches!(kind_of_column(&schema, &salary), Some(Kind::Int)));
    assert!(rt; matches!(column_value(&schema, &row, &salary), Some(Value::Int(7))));
    assert!(rt; matches!(value_in(Some(&row), &schema, &salary), Some(Value::Int(7))));
    assert!(rt; value_in(None, &schema, &salary).is_none());
}

#[test]
fn terms_by_name(rt: HostRuntime) {
    let alloc = rt.alloc();
    let schema = schema(&rt, alloc);
    let term = Term::New(text(&rt, alloc, "salary"));
    assert!(rt; matches!(kind_of_term(&term, &schema, false, true), Some(Kind::Int)));
    assert!(rt; kind_of_term(&term, &schema, true, false).is_none());
}

#[test]
fn copies(rt: HostRuntime) {
    let alloc = rt.alloc();
    let term = Term::Const(Value::Int(5)).copy().expect(&rt, "memory");
    assert!(rt; matches!(&term, Term::Const(Value::Int(5))));
    let pred = renamed(&rt, alloc).copy().expect(&rt, "memory");
    assert!(rt; nodes(&pred) == 4);
    assert!(rt; matches!(pred.node(), Node::And(_, _)));
}

/// The spelling of the column `ab` of the old row, and the name `c` behind it.
fn spelled(rt: &impl Abort, alloc: Global) -> Bytes {
    let mut out = Bytes::new(alloc);
    append_term(&Term::Old(text(rt, alloc, "ab")), &mut out).expect(rt, "memory");
    append_name(&text(rt, alloc, "c"), &mut out).expect(rt, "memory");
    out
}

#[test]
fn terms_one_by_one(rt: HostRuntime) {
    let alloc = rt.alloc();
    let out = spelled(&rt, alloc);
    assert!(rt; out.as_slice() == b"\x02\x02ab\x01c".as_slice());
    let read = term_of(alloc, out.as_slice()).expect(&rt, "memory");
    let (term, rest) = read.expect(&rt, "a term");
    assert!(rt; matches!(&term, Term::Old(old) if old.as_str() == "ab"));
    let read = name_of(alloc, rest).expect(&rt, "memory");
    let (name, rest) = read.expect(&rt, "a name");
    assert!(rt; name.as_str() == "c" && rest.is_empty());
}
