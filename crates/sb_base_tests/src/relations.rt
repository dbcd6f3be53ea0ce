//! Columns' values, entries and sums.

use sb_relation::{Entries, Sums, values_of};
use sb_value::{Column, Kind, Names, RecKey, Schema, Str, Tuple, Value};
use std::alloc::Global;
use std::process::Abort;
use std::test::Fail;

fn text(rt: &impl Abort, alloc: Global, text: &str) -> Str {
    Str::from_string(String::from_str(alloc, text).expect(rt, "memory"))
}

/// A column of numbers.
fn column(rt: &impl Abort, alloc: Global, name: &str) -> Column {
    Column {
        name: text(rt, alloc, name),
        kind: Kind::Int,
        limit: 0,
    }
}

fn row(rt: &impl Abort, alloc: Global, first: i64, second: i64) -> Tuple {
    let values = vec![in alloc; Value::Int(first), Value::Int(second)];
    Tuple::from_vec(values.expect(rt, "memory"))
}

#[test]
fn values_in_the_order_of_the_names(rt: HostRuntime) {
    let alloc = rt.alloc();
    let a = column(&rt, alloc, "a");
    let b = column(&rt, alloc, "b");
    let schema = Schema::from_vec(vec![in alloc; a, b].expect(&rt, "memory"));
    let b = text(&rt, alloc, "b");
    let c = text(&rt, alloc, "c");
    let a = text(&rt, alloc, "a");
    let names = Names::from_vec(vec![in alloc; b, c, a].expect(&rt, "memory"));
    let values = values_of(alloc, &schema, &row(&rt, alloc, 7, 8), &names);
    assert!(rt; values.expect(&rt, "memory") == row(&rt, alloc, 8, 7));
}

#[test]
fn entries(rt: HostRuntime) -> Result<(), Fail> {
    let alloc = rt.alloc();
    let first = RecKey::from_vec(vec![in alloc; 1]?);
    let second = RecKey::from_vec(vec![in alloc; 2]?);
    let entries = Entries::from_vec(vec![in alloc; (first, second)]?);
    assert!(rt; entries.len() == 1 && !entries.is_empty());
    assert_eq!(rt; entries.as_slice().len(), 1);
    assert_eq!(rt; entries.into_vec().len(), 1);
    Ok(())
}

#[test]
fn sums(rt: HostRuntime) -> Result<(), Fail> {
    let sums = Sums::from_vec(vec![in rt.alloc(); 3, -4]?);
    assert!(rt; sums.len() == 2 && !sums.is_empty());
    assert_eq!(rt; sums.as_slice(), [3, -4].as_slice());
    assert_eq!(rt; sums.into_vec().len(), 2);
    Ok(())
}
