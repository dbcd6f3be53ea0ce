ghost use Rattle.std.specs.Prelude.{◌≡◌, ◌≤◌, length};
ghost use Rattle.sb_value.specs.Spelling.{IsShort};

use sb_value::{
    Bytes, Column, Kind, Names, RecKey, Schema, Str, Tuple, TypeFault, Value, int_of, put_value,
    take_value,
};
use std::alloc::Global;
use std::collections::{BTreeMap, HashMap};
use std::process::Abort;
use std::test::*;

// Want of memory ends a test at once: where a test went on to an `Err`, each value that it has would be dropped on the way,
// which is dear to prove.

fn text(rt: &impl Abort, alloc: Global, text: &str) -> Str
    ensures { result ≡ text.now }
{
    Str::from_string(String::from_str(alloc, text).expect(rt, "memory"))
}

fn key(rt: &impl Abort, alloc: Global, items: &[u8]) -> RecKey {
    RecKey::from_vec(Vec::from_slice(alloc, items).expect(rt, "memory"))
}

/// A row of a number and some texts.
fn row(rt: &impl Abort, alloc: Global, number: i64, texts: &[&str]) -> Tuple {
    let mut values = Vec::new(alloc);
    values.push(Value::Int(number)).expect(rt, "memory");
    for short in texts {
        values
            .push(Value::Text(text(rt, alloc, short)))
            .expect(rt, "memory");
    }
    Tuple::from_vec(values)
}

fn column(rt: &impl Abort, alloc: Global, name: &str, kind: Kind, limit: u8) -> Column {
    Column {
        name: text(rt, alloc, name),
        kind,
        limit,
    }
}

/// A number and a text of at most two bytes.
fn schema(rt: &impl Abort, alloc: Global) -> Schema {
    let id = column(rt, alloc, "id", Kind::Int, 0);
    let name = column(rt, alloc, "name", Kind::Text, 2);
    Schema::from_vec(vec![in alloc; id, name].expect(rt, "memory"))
}

fn is_written(rt: &impl Abort, alloc: Global, value: &Value, spelling: &[u8]) -> bool
    requires { IsShort value.now }
{
    let mut out = Bytes::new(alloc);
    put_value(value, &mut out).expect(rt, "memory");
    out.as_slice() == spelling
}

/// Whether the bytes between two places are read as the value.
fn is_read(
    rt: &impl Abort,
    alloc: Global,
    bytes: &[u8],
    start: usize,
    value: Value,
    end: usize,
) -> bool
    requires { start ≤ length bytes.now }
{
    take_value(alloc, bytes, start).expect(rt, "memory") == Some((value, end))
}

const NUMBERS: [(i64, [u8; 9]); 3] = [
    (5, [1, 0, 0, 0, 0, 0, 0, 0, 5]),
    (-2, [1, 255, 255, 255, 255, 255, 255, 255, 254]),
    (i64::MIN, [1, 128, 0, 0, 0, 0, 0, 0, 0]),
];

#[test]
fn spells_numbers(rt: HostRuntime) {
    let alloc = rt.alloc();
    for (number, spelling) in NUMBERS.iter() {
        assert!(rt; is_written(&rt, alloc, &Value::Int(*number), spelling));
        assert!(rt; is_read(&rt, alloc, spelling, 0, Value::Int(*number), 9));
        assert!(rt; int_of(&spelling[1..]) == Some(*number));
    }
    assert!(rt; int_of(&[0, 0, 0, 0, 0, 0, 0]).is_none());
}

#[test]
fn spells_texts(rt: HostRuntime) {
    let alloc = rt.alloc();
    let ab = Value::Text(text(&rt, alloc, "ab"));
    assert!(rt; is_written(&rt, alloc, &ab, &[2, 2, 0x61, 0x62]));
    assert!(rt; is_read(&rt, alloc, &[9, 2, 2, 0x61, 0x62, 7], 1, ab, 5));
    assert!(rt; is_written(&rt, alloc, &Value::Text(text(&rt, alloc, "")), &[2, 0]));
}

const NO_VALUES: [&'static [u8]; 8] = [
    &[],
    &[0, 0],
    &[3, 1, 0x61],
    &[1, 0, 0, 0, 0, 0, 0, 0],
    &[2],
    &[2, 2, 0x61],
    &[2, 1, 0xff],
    &[2, 2, 0xc0, 0x80],
];

fn is_no_value(rt: &impl Abort, alloc: Global, bytes: &[u8]) -> bool {
    take_value(alloc, bytes, 0).expect(rt, "memory").is_none()
}

#[test]
fn reads_only_values(rt: HostRuntime) {
    let alloc = rt.alloc();
    for bytes in NO_VALUES.iter() {
        assert!(rt; is_no_value(&rt, alloc, bytes));
    }
    let text = Str::from_utf8(alloc, &[0xff]);
    assert!(rt; text.expect(&rt, "memory").is_none());
}

const FITS: [(&'static [&'static str], Result<(), TypeFault>); 3] = [
    (&[], Err(TypeFault { column: 1 })),
    (&["ab"], Ok(())),
    (&["ab", "ab"], Err(TypeFault { column: 2 })),
];

#[test]
fn finds_the_first_misfit(rt: HostRuntime) {
    let alloc = rt.alloc();
    let columns = schema(&rt, alloc);
    for (texts, answer) in FITS.iter() {
        assert!(rt; columns.fits(&row(&rt, alloc, 5, texts)) == *answer);
    }
    assert!(rt; columns.short_enough(&row(&rt, alloc, 5, &["ab"])));
    assert!(rt; !columns.short_enough(&row(&rt, alloc, 5, &["abc"])));
}

#[test]
fn keeps_texts(rt: HostRuntime) {
    let alloc = rt.alloc();
    let ab = text(&rt, alloc, "ab").copy().expect(&rt, "memory");
    assert!(rt; ab.len() == 2 && !ab.is_empty());
    assert!(rt; ab.as_str() == "ab" && ab.as_bytes() == [0x61, 0x62].as_slice());
    assert!(rt; ab.into_string().as_str() == "ab");
}

#[test]
fn keeps_bytes(rt: HostRuntime) {
    let alloc = rt.alloc();
    let mut bytes = Bytes::new(alloc);
    bytes.push(1).expect(&rt, "memory");
    bytes.extend(&[2, 3]).expect(&rt, "memory");
    bytes.truncate(2);
    assert!(rt; bytes.len() == 2 && !bytes.is_empty());
    let copy = Bytes::from_vec(bytes.copy().expect(&rt, "memory").into_vec());
    assert!(rt; copy.as_slice() == [1, 2].as_slice());
}

#[test]
fn keeps_keys(rt: HostRuntime) {
    let alloc = rt.alloc();
    let stored = key(&rt, alloc, &[1, 2]).copy().expect(&rt, "memory");
    assert!(rt; stored.len() == 2 && !stored.is_empty());
    assert!(rt; stored.as_slice() == [1, 2].as_slice());
    assert!(rt; stored.into_vec().as_slice() == [1, 2].as_slice());
}

#[test]
fn keeps_tuples(rt: HostRuntime) {
    let alloc = rt.alloc();
    let pair = row(&rt, alloc, 5, &["ab"]);
    assert!(rt; pair.len() == 2 && !pair.is_empty());
    assert!(rt; pair.copy().expect(&rt, "memory") == pair);
    assert!(rt; matches!(pair.as_slice().first(), Some(Value::Int(5))));
    assert!(rt; pair.into_vec().len() == 2);
}

#[test]
fn keeps_names(rt: HostRuntime) {
    let alloc = rt.alloc();
    let one = vec![in alloc; text(&rt, alloc, "ab")].expect(&rt, "memory");
    let names = Names::from_vec(one).copy().expect(&rt, "memory");
    assert!(rt; names.len() == 1 && !names.is_empty());
    assert!(rt; matches!(names.as_slice().first(), Some(name) if name.as_str() == "ab"));
    assert!(rt; names.into_vec().len() == 1);
}

#[test]
fn keeps_columns(rt: HostRuntime) {
    let alloc = rt.alloc();
    let columns = schema(&rt, alloc).copy().expect(&rt, "memory");
    assert!(rt; columns.len() == 2 && !columns.is_empty());
    let first = columns.as_slice().first();
    assert!(rt; matches!(first, Some(first) if first.kind == Kind::Int));
    assert!(rt; columns.into_vec().len() == 2);
}

#[test]
fn serves_as_a_key(rt: HostRuntime) {
    let alloc = rt.alloc();
    let mut rows = BTreeMap::new(alloc);
    let added: Result<_, _> = rows.insert(key(&rt, alloc, &[2]), 20);
    added.expect(&rt, "memory");
    let added: Result<_, _> = rows.insert(key(&rt, alloc, &[1, 0]), 10);
    added.expect(&rt, "memory");
    assert!(rt; rows.get(&key(&rt, alloc, &[1, 0])) == Some(&10));
}

#[test]
fn serves_as_a_name(rt: HostRuntime) {
    let alloc = rt.alloc();
    let mut names = HashMap::new(alloc);
    let added: Result<_, _> = names.insert(text(&rt, alloc, "ab"), 1);
    added.expect(&rt, "memory");
    assert!(rt; names.get(&text(&rt, alloc, "ab")) == Some(&1));
}
