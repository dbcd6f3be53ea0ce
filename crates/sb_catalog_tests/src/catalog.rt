ghost use Rattle.std.specs.Prelude.{◌≤◌, length, IfOk};
ghost use Rattle.sb_pred.specs.Spelling.{IsShortPred, pred_spelling};
ghost use Rattle.sb_rule.specs.Spelling.{IsShortList, IsShortName, IsShortRule};
ghost use Rattle.sb_catalog.specs.Descriptors.{IsShortAttached, IsShortDescriptor};

use sb_catalog::{
    Attached, AttachedList, Cache, Descriptor, descriptor_len, read_descriptor, write_descriptor,
};
use sb_pred::{Op, Pred, Term};
use sb_rule::{Rule, read_rule, write_rule};
use sb_value::{Bytes, Column, Kind, Names, Schema, Str, Value};
use std::alloc::{AllocError, Global};
use std::process::Abort;
use std::test::*;

fn text(alloc: Global, text: &str) -> Result<Str, AllocError>
    requires { length text.now ≤ 255 }
    ensures { IfOk result IsShortName }
{
    Ok(Str::from_string(String::from_str(alloc, text)?))
}

/// `salary >= 0`
fn paid(alloc: Global) -> Result<Pred, AllocError>
    ensures { IfOk result (λ p. IsShortPred p × (length (pred_spelling p) ≤ 300)) }
{
    let salary = Term::New(text(alloc, "salary")?);
    Ok(Pred::cmp(Op::Ge, salary, Term::Const(Value::Int(0))))
}

fn positive(alloc: Global) -> Result<Attached, AllocError>
    ensures { IfOk result IsShortAttached }
{
    let rule = Rule::Check {
        pred: paid(alloc)?,
        deferred: false,
    };
    let name = text(alloc, "pos")?;
    Ok(Attached {
        code: 5,
        owner: 0,
        root: 0,
        name,
        rule,
    })
}

fn attachments(alloc: Global) -> Result<AttachedList, AllocError>
    ensures { IfOk result (IsShortList IsShortAttached) }
{
    let attached = positive(alloc)?;
    Ok(AttachedList::from_vec(vec![in alloc; attached]?))
}

/// The columns `id INT` and `name TEXT(20)`.
fn columns(alloc: Global) -> Result<Schema, AllocError>
    ensures { IfOk result (IsShortList (λ c. IsShortName c.name)) }
{
    let number = Column {
        name: text(alloc, "id")?,
        kind: Kind::Int,
        limit: 0,
    };
    let word = Column {
        name: text(alloc, "name")?,
        kind: Kind::Text,
        limit: 20,
    };
    Ok(Schema::from_vec(vec![in alloc; number, word]?))
}

fn key(alloc: Global) -> Result<Names, AllocError>
    ensures { IfOk result (IsShortList IsShortName) }
{
    let name = text(alloc, "id")?;
    Ok(Names::from_vec(vec![in alloc; name]?))
}

fn employees(alloc: Global) -> Result<Descriptor, AllocError>
    ensures { IfOk result IsShortDescriptor }
{
    Ok(Descriptor {
        method: 2,
        owner: 3,
        root: 2,
        schema: columns(alloc)?,
        key: key(alloc)?,
        attachments: attachments(alloc)?,
    })
}

const EMPLOYEES: &[u8] = b"\x00\x02\x00\x03\x00\x00\x00\x02\
    \x02\x02id\x01\x00\x04name\x02\x14\
    \x01\x02id\
    \x01\x00\x05\x00\x00\x00\x00\x00\x00\x03pos\
    \x00\x15\x00\x01\x06\x01\x06salary\x00\x01\x00\x00\x00\x00\x00\x00\x00\x00";

#[test]
fn employees_written(rt: HostRuntime) {
    let alloc = rt.alloc();
    let descriptor = employees(alloc).expect(&rt, "memory");
    let written = write_descriptor(alloc, &descriptor).expect(&rt, "memory");
    assert!(rt; written.as_slice() == EMPLOYEES);
    assert!(rt; descriptor_len(&descriptor) == EMPLOYEES.len());
    drop(written);
    drop(descriptor);
}

/// The bytes are read as a descriptor whose copy is written as them.
#[tactic(auto, using(sb_catalog::proofs::Storable::IsShortDescriptor_from_storable))]
fn is_read(rt: &impl Abort, alloc: Global, spelling: &[u8]) -> bool {
    let found = read_descriptor(alloc, spelling).expect(rt, "memory");
    let descriptor = found.expect(rt, "a descriptor");
    let copy = descriptor.copy(alloc).expect(rt, "memory");
    let written = write_descriptor(alloc, &copy).expect(rt, "memory");
    drop(copy);
    drop(descriptor);
    written.as_slice() == spelling
}

#[test]
fn employees_read(rt: HostRuntime) {
    let alloc = rt.alloc();
    assert!(rt; is_read(&rt, alloc, EMPLOYEES));
    let found = read_descriptor(alloc, EMPLOYEES).expect(&rt, "memory");
    let descriptor = found.expect(&rt, "a descriptor");
    assert!(rt; descriptor.method == 2 && descriptor.owner == 3 && descriptor.root == 2);
    let [number, word] = descriptor.schema.as_slice() else {
        panic!(rt; "other columns");
    };
    assert!(rt; number.name.as_str() == "id" && number.kind == Kind::Int);
    assert!(rt; word.name.as_str() == "name" && word.kind == Kind::Text && word.limit == 20);
    let [attached] = descriptor.attachments.as_slice() else {
        panic!(rt; "other attachments");
    };
    assert!(rt; attached.code == 5 && attached.name.as_str() == "pos");
    drop(descriptor);
}

/// Bytes that spell no descriptor: with one byte more, with one less, with a column of kind 3, with an int column of limit 1,
/// and with a rule of code 6.
const NO_DESCRIPTORS: [&[u8]; 5] = [
    b"\x00\x02\x00\x03\x00\x00\x00\x02\
    \x02\x02id\x01\x00\x04name\x02\x14\
    \x01\x02id\
    \x01\x00\x05\x00\x00\x00\x00\x00\x00\x03pos\
    \x00\x15\x00\x01\x06\x01\x06salary\x00\x01\x00\x00\x00\x00\x00\x00\x00\x00\x00",
    b"\x00\x02\x00\x03\x00\x00\x00\x02\
    \x02\x02id\x01\x00\x04name\x02\x14\
    \x01\x02id\
    \x01\x00\x05\x00\x00\x00\x00\x00\x00\x03pos\
    \x00\x15\x00\x01\x06\x01\x06salary\x00\x01\x00\x00\x00\x00\x00\x00\x00",
    b"\x00\x02\x00\x03\x00\x00\x00\x02\
    \x02\x02id\x01\x00\x04name\x03\x14\
    \x01\x02id\
    \x01\x00\x05\x00\x00\x00\x00\x00\x00\x03pos\
    \x00\x15\x00\x01\x06\x01\x06salary\x00\x01\x00\x00\x00\x00\x00\x00\x00\x00",
    b"\x00\x02\x00\x03\x00\x00\x00\x02\
    \x02\x02id\x01\x01\x04name\x02\x14\
    \x01\x02id\
    \x01\x00\x05\x00\x00\x00\x00\x00\x00\x03pos\
    \x00\x15\x00\x01\x06\x01\x06salary\x00\x01\x00\x00\x00\x00\x00\x00\x00\x00",
    b"\x00\x02\x00\x03\x00\x00\x00\x02\
    \x02\x02id\x01\x00\x04name\x02\x14\
    \x01\x02id\
    \x01\x00\x06\x00\x00\x00\x00\x00\x00\x03pos\
    \x00\x15\x00\x01\x06\x01\x06salary\x00\x01\x00\x00\x00\x00\x00\x00\x00\x00",
];

#[test]
fn no_descriptors_read(rt: HostRuntime) {
    for spelling in NO_DESCRIPTORS.iter() {
        let found = read_descriptor(rt.alloc(), spelling).expect(&rt, "memory");
        assert!(rt; found.is_none());
        drop(found);
    }
}

/// The attachment's copy has a rule that is written as these bytes.
fn is_copied(alloc: Global, attached: &Attached, spelling: &[u8]) -> Result<bool, AllocError>
    requires { IsShortRule attached.now.rule }
{
    let copy = attached.copy(alloc)?;
    let mut out = Bytes::new(alloc);
    let is_done = write_rule(&copy.rule, &mut out).is_ok();
    drop(copy);
    Ok(is_done && out.as_slice() == spelling)
}

/// The rule that is read from these bytes is copied.
fn is_rule_copied(alloc: Global, code: u16, spelling: &[u8]) -> Result<bool, AllocError> {
    let name = text(alloc, "a")?;
    match read_rule(alloc, code, spelling)? {
        Some(rule) => {
            let attached = Attached {
                code,
                owner: 1,
                root: 2,
                name,
                rule,
            };
            let is_copied = is_copied(alloc, &attached, spelling);
            drop(attached);
            is_copied
        }
        None => Ok(false),
    }
}

/// Codes with the bytes of a rule of theirs, and triggers of each action.
const RULES: [(u16, &[u8]); 11] = [
    (1, b"\x01\x01\x01a"),
    (2, b"\x02\x04dept\x02id"),
    (3, b"\x01\x01\x04dept\x03emp\x01\x02id"),
    (
        4,
        b"\x01n\x00\x00\x00\x00\x00\x00\x00\x05\x00\x00\x00\x00\x00\x00\x00\x02",
    ),
    (5, b"\x01\x00"),
    (6, b"\x00\x01\x01\x01\x04dept\x04unit\x01\x02id"),
    (7, b"\x03\x01\x00\x01\x03log\x02\x00\x02\x02ab\x01\x02id"),
    (7, b"\x02\x00\x00\x02\x01r\x01\x01k\x02\x01n"),
    (
        7,
        b"\x01\x00\x00\x03\x04unit\x01n\x01\x01m\x01\x02id\x01\x04dept",
    ),
    (7, b"\x02\x00\x00\x04\x04unit\x01n\x01\x01m\x00"),
    (1000, b"\x07\x08"),
];

#[test]
fn attachments_copied(rt: HostRuntime) {
    for (code, spelling) in RULES.iter() {
        let copied = is_rule_copied(rt.alloc(), *code, spelling);
        assert!(rt; matches!(copied, Ok(true)), "at {code}");
    }
}

#[test]
fn attached_list(rt: HostRuntime) {
    let list = attachments(rt.alloc()).expect(&rt, "memory");
    assert!(rt; list.len() == 1 && !list.is_empty());
    let attachments = list.into_vec();
    assert!(rt; attachments.len() == 1);
    drop(attachments);
}

/// A descriptor with no column, known by its method.
fn bare(alloc: Global, method: u8) -> Descriptor {
    Descriptor {
        method: method as u16,
        owner: 0,
        root: 0,
        schema: Schema::from_vec(Vec::new(alloc)),
        key: Names::from_vec(Vec::new(alloc)),
        attachments: AttachedList::from_vec(Vec::new(alloc)),
    }
}

/// The name of one byte.
fn named(rt: &impl Abort, alloc: Global, byte: u8) -> Str {
    let text = Str::from_utf8(alloc, &[byte]).expect(rt, "memory");
    text.expect(rt, "a text")
}

fn put(rt: &impl Abort, alloc: Global, cache: &mut Cache, byte: u8, method: u8) {
    let name = named(rt, alloc, byte);
    cache.put(name, bare(alloc, method)).expect(rt, "memory");
}

/// Whether the cache has the name's descriptor, known by its method; or none.
fn has(rt: &impl Abort, alloc: Global, cache: &Cache, byte: u8, method: Option<u16>) -> bool {
    let name = named(rt, alloc, byte);
    let found = match cache.peek(&name) {
        Some(descriptor) => Some(descriptor.method),
        None => None,
    };
    drop(name);
    found == method
}

fn promotes(rt: &impl Abort, alloc: Global, cache: &mut Cache, byte: u8) -> bool {
    let name = named(rt, alloc, byte);
    let is_there = cache.promote(&name);
    drop(name);
    is_there
}

#[test]
fn the_least_recently_used_goes(rt: HostRuntime) {
    let alloc = rt.alloc();
    let mut cache = Cache::new(alloc).expect(&rt, "memory");
    for byte in 0..65 {
        put(&rt, alloc, &mut cache, byte, byte);
    }
    assert!(rt; has(&rt, alloc, &cache, 0, None) && has(&rt, alloc, &cache, 1, Some(1)));
    assert!(rt; promotes(&rt, alloc, &mut cache, 1) && !promotes(&rt, alloc, &mut cache, 0));
    put(&rt, alloc, &mut cache, 65, 65);
    assert!(rt; has(&rt, alloc, &cache, 2, None) && has(&rt, alloc, &cache, 1, Some(1)));
    drop(cache);
}

#[test]
fn one_descriptor_a_name(rt: HostRuntime) {
    let alloc = rt.alloc();
    let mut cache = Cache::new(alloc).expect(&rt, "memory");
    put(&rt, alloc, &mut cache, 1, 1);
    put(&rt, alloc, &mut cache, 1, 2);
    assert!(rt; has(&rt, alloc, &cache, 1, Some(2)));
    cache.empty();
    assert!(rt; has(&rt, alloc, &cache, 1, None));
    drop(cache);
}
