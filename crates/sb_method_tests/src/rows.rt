//! Rows of two relations, each in a heap at page 2 of a memory.

ghost use Rattle.std.specs.Prelude.{◌≡◌, ◌≤◌, length};
ghost use Rattle.sb_ctx.specs.Method.{IsInstance};
ghost use Rattle.sb_drive.specs.MethodCalls.{Fits};
ghost use Rattle.sb_heap.specs.Examples.{IsExample, MayBeHeld, example_columns, text_column};
ghost use Rattle.sb_heap.specs.Heap.{heap_method};
ghost use Rattle.sb_method_tests.specs.Pairs.{ArePairs, MayBePair, pair_columns};
ghost use Rattle.sb_relation.specs.Db.{int_column};

use sb_ctx::{Instance, MethodCall, Move};
use sb_heap::Heap;
use sb_memory::{Memory, drive_method};
use sb_value::{Bytes, Column, Kind, Names, RecKey, Schema, Str, Tuple, Value};
use std::alloc::Global;
use std::process::Abort;
use std::test::*;

/// 255 letters, the most of a text, and 217: with a number and three texts of the first length a row takes the 1,000 bytes
/// that one may.
const X: &str =
    "xxxxxxxxxxxxxxxxxxxxxxxxxxxxxxxxxxxxxxxxxxxxxxxxxxxxxxxxxxxxxxxxxxxxxxxxxxxxxxxxxxxxxxxxxxxxxxxxxxxxxxxxxxxxxxxxxxxxxxxxxxxxxxxxxxxxxxxxxxxxxxxxxxxxxxxxxxxxxxxxxxxxxxxxxxxxxxxxxxxxxxxxxxxxxxxxxxxxxxxxxxxxxxxxxxxxxxxxxxxxxxxxxxxxxxxxxxxxxxxxxxxxxxxxxxxxxxx";

const Y: &str =
    "xxxxxxxxxxxxxxxxxxxxxxxxxxxxxxxxxxxxxxxxxxxxxxxxxxxxxxxxxxxxxxxxxxxxxxxxxxxxxxxxxxxxxxxxxxxxxxxxxxxxxxxxxxxxxxxxxxxxxxxxxxxxxxxxxxxxxxxxxxxxxxxxxxxxxxxxxxxxxxxxxxxxxxxxxxxxxxxxxxxxxxxxxxxxxxxxxxxxxxxxxxxxxxxxxxxxxxxxx";

/// The owner of the heaps.
pub const OWNER: u16 = 5;

// Want of memory ends a test at once: where a test went on to an `Err`, each value that it has would be dropped on the way,
// which is dear to prove. A value that goes by a call of `drop` is far cheaper than one that goes at its scope's end.

/// The texts of a row: three that are the same, and another.
#[derive(Clone, Copy)]
pub enum Texts {
    None,
    /// Of a letter each.
    Short,
    /// So long that the row takes the 1,000 bytes that one may.
    Long,
}

impl Texts {
    /// The first three.
    pub fn first(self) -> &'static str
        ensures { length result.now ≤ 255 }
    {
        match self {
            Texts::None => "",
            Texts::Short => "x",
            Texts::Long => X,
        }
    }

    fn last(self) -> &'static str
        ensures { length result.now ≤ 217 }
    {
        match self {
            Texts::None => "",
            Texts::Short => "y",
            Texts::Long => Y,
        }
    }
}

fn text(rt: &impl Abort, alloc: Global, text: &str) -> Str
    ensures { result ≡ text.now }
{
    Str::from_string(String::from_str(alloc, text).expect(rt, "memory"))
}

fn words(rt: &impl Abort, alloc: Global, name: &str) -> Column
    ensures { result ≡ text_column name.now }
{
    Column {
        name: text(rt, alloc, name),
        kind: Kind::Text,
        limit: 255,
    }
}

fn number(rt: &impl Abort, alloc: Global, name: &str) -> Column
    ensures { result ≡ int_column name.now }
{
    Column {
        name: text(rt, alloc, name),
        kind: Kind::Int,
        limit: 0,
    }
}

/// The relation `t` of these columns in a heap.
fn instance(rt: &impl Abort, alloc: Global, schema: Schema) -> Instance
    ensures heap { IsInstance heap_method result }
    ensures columns { result.schema ≡ schema }
{
    Instance {
        relation: text(rt, alloc, "t"),
        owner: OWNER,
        root: 2,
        durable: true,
        code: 1,
        desc: Bytes::new(alloc),
        schema,
        key: Names::from_vec(Vec::new(alloc)),
    }
}

/// A relation of a number and a text.
pub fn pairs(rt: &impl Abort, alloc: Global) -> Instance
    ensures { ArePairs result }
{
    let a = number(rt, alloc, "a");
    let b = words(rt, alloc, "b");
    let columns = vec![in alloc; a, b].expect(rt, "memory");
    instance(rt, alloc, Schema::from_vec(columns))
}

/// A relation of a number and four texts.
pub fn letters(rt: &impl Abort, alloc: Global) -> Instance
    ensures { IsExample result }
{
    let k = number(rt, alloc, "k");
    let a = words(rt, alloc, "a");
    let b = words(rt, alloc, "b");
    let c = words(rt, alloc, "c");
    let d = words(rt, alloc, "d");
    let columns = vec![in alloc; k, a, b, c, d].expect(rt, "memory");
    instance(rt, alloc, Schema::from_vec(columns))
}

/// A number and a text.
pub fn pair(rt: &impl Abort, alloc: Global, number: i64, word: &str) -> Tuple
    requires { length word.now ≤ 255 }
    ensures { MayBePair result }
{
    let b = Value::Text(text(rt, alloc, word));
    let values = vec![in alloc; Value::Int(number), b].expect(rt, "memory");
    Tuple::from_vec(values)
}

/// A number, and a text three times and another one.
pub fn row(rt: &impl Abort, alloc: Global, number: i64, texts: Texts) -> Tuple
    ensures { MayBeHeld result }
{
    let x = texts.first();
    let a = Value::Text(text(rt, alloc, x));
    let b = Value::Text(text(rt, alloc, x));
    let c = Value::Text(text(rt, alloc, x));
    let d = Value::Text(text(rt, alloc, texts.last()));
    let values = vec![in alloc; Value::Int(number), a, b, c, d].expect(rt, "memory");
    Tuple::from_vec(values)
}

/// A row's number, and the length and the first four bytes of its first text.
#[derive(Clone, Copy, PartialEq, Eq)]
pub struct Content {
    pub number: i64,
    pub len: usize,
    pub front: [u8; 4],
}

/// How a call ends. A record key is the number in its six bytes, the highest first: a page, and its slot in the last two.
#[derive(Clone, Copy, PartialEq, Eq)]
pub enum End {
    Done,
    Key(u64),
    Row(u64, Content),
    /// No row is left.
    Behind,
    NoRecord,
    Other,
}

/// The number of a record key, or the greatest one where the key hasn't six bytes.
fn number_of(key: &RecKey) -> u64 {
    match key.as_slice() {
        [a, b, c, d, e, f] => u64::from_be_bytes([0, 0, *a, *b, *c, *d, *e, *f]),
        _ => u64::MAX,
    }
}

fn key_of(rt: &impl Abort, alloc: Global, number: u64) -> RecKey {
    let bytes = number.to_be_bytes();
    RecKey::from_vec(bytes[2..].to_vec(alloc).expect(rt, "memory"))
}

/// The first four bytes, and zeros where there are fewer.
fn front_of(bytes: &[u8]) -> [u8; 4] {
    match bytes {
        [] => [0; 4],
        [a] => [*a, 0, 0, 0],
        [a, b] => [*a, *b, 0, 0],
        [a, b, c] => [*a, *b, *c, 0],
        [a, b, c, d, ..] => [*a, *b, *c, *d],
    }
}

impl Content {
    /// That of a row of this number and first text.
    pub fn new(number: i64, text: &str) -> Content {
        Content {
            number,
            len: text.len(),
            front: front_of(text.as_bytes()),
        }
    }
}

fn content_of(row: &Tuple) -> Content {
    match row.as_slice() {
        [Value::Int(number), Value::Text(text), ..] => Content::new(*number, text.as_str()),
        _ => Content::new(0, ""),
    }
}

fn end_of(made: &Move) -> End {
    match made {
        Move::Done => End::Done,
        Move::Key(key) => End::Key(number_of(key)),
        Move::Row(key, row) => End::Row(number_of(key), content_of(row)),
        Move::End => End::Behind,
        Move::NoRecord => End::NoRecord,
        _ => End::Other,
    }
}

/// Makes a call to its end, for good.
fn made(memory: &mut Memory, alloc: Global, inst: &Instance, call: MethodCall) -> End
    requires inst { IsInstance heap_method inst.now }
    requires fits { Fits heap_method inst.now call }
{
    let made = drive_method(memory, alloc, &Heap::new(), inst, &call);
    let end = match &made {
        Ok(end) => end_of(end),
        Err(_) => End::Other,
    };
    drop(made);
    drop(call);
    memory.keep();
    end
}

/// A memory with a new heap at page 2. Its pages 0, 1 and 3 are the roots of other owners.
pub fn prepared(rt: &impl Abort, alloc: Global, inst: &Instance) -> Memory
    requires { IsInstance heap_method inst.now }
{
    let mut memory = Memory::new(alloc);
    for _ in 0..4 {
        memory.new_instance(&[]).expect(rt, "memory");
    }
    let end = made(&mut memory, alloc, inst, MethodCall::Prepare);
    assert!(rt; end == End::Done && memory.owner_of(2) == OWNER);
    memory
}

/// A change of a heap of numbers and four texts.
#[derive(Clone, Copy)]
pub enum Change {
    /// A row is put in.
    Insert(i64, Texts),
    /// A row is put in place of that of a key.
    Update(u64, i64, Texts),
    /// The row of a key is taken out.
    Delete(u64),
}

/// How a change ends.
pub fn changed(
    rt: &impl Abort,
    alloc: Global,
    memory: &mut Memory,
    inst: &Instance,
    change: Change,
) -> End
    requires { IsExample inst.now }
{
    let call = match change {
        Change::Insert(number, texts) => MethodCall::Insert(row(rt, alloc, number, texts)),
        Change::Update(key, number, texts) => {
            let key = key_of(rt, alloc, key);
            MethodCall::Update(key, row(rt, alloc, number, texts))
        }
        Change::Delete(key) => MethodCall::Delete(key_of(rt, alloc, key)),
    };
    made(memory, alloc, inst, call)
}

/// Puts a pair in.
pub fn insert_pair(
    rt: &impl Abort,
    alloc: Global,
    memory: &mut Memory,
    inst: &Instance,
    number: i64,
    word: &str,
) -> End
    requires inst { ArePairs inst.now }
    requires word { length word.now ≤ 255 }
{
    let call = MethodCall::Insert(pair(rt, alloc, number, word));
    made(memory, alloc, inst, call)
}

/// The row behind a key, or the first one.
pub fn next(
    rt: &impl Abort,
    alloc: Global,
    memory: &mut Memory,
    inst: &Instance,
    low: Option<u64>,
) -> End
    requires { IsInstance heap_method inst.now }
{
    let low = match low {
        Some(number) => Some(key_of(rt, alloc, number)),
        None => None,
    };
    made(memory, alloc, inst, MethodCall::Next(low))
}
