//! What no clause says: that relations are opened while memory lasts, over a catalogue whose entries are bytes by hand.

ghost use Rattle.std.specs.Prelude.{◌≡◌};

use crate::stores::{catalogue, enter, registry, text};
use sb_ctx::Attachment;
use sb_drive::SpaceFault;
use sb_foreign::{Limit, Strip};
use sb_map::Place;
use sb_memory::Memory;
use sb_opened::{OpenRelation, next_relation, open_relation};
use sb_registry::Registry;
use std::alloc::Global;
use std::process::Abort;
use std::test::*;

/// Relations of one number under the storage method of code 1000: the first with the live attachment of code 1000, the
/// second with one of code 1001, which is none's, and the third with none.
const ENTRIES: [(&'static [u8], &'static [u8]); 3] = [
    (
        b"birds",
        b"\x03\xe8\x00\x03\x00\x00\x00\x07\x01\x01k\x01\x00\x00\
        \x01\x03\xe8\x00\x04\x00\x00\x00\x08\x01l\x00\x01\x07",
    ),
    (
        b"cats",
        b"\x03\xe8\x00\x05\x00\x00\x00\x09\x01\x01k\x01\x00\x00\
        \x01\x03\xe9\x00\x06\x00\x00\x00\x0a\x01l\x00\x01\x07",
    ),
    (
        b"dogs",
        b"\x03\xe8\x00\x07\x00\x00\x00\x0b\x01\x01k\x01\x00\x00\x00",
    ),
];

/// A relation of this name with so many attachments, none, or the catalogue's root as a damaged page.
#[derive(Clone, Copy, Drop)]
enum Reply {
    Opened(&'static str, usize),
    Missing,
    Damaged,
}

/// What comes of opening the relation of a name.
const NAMED: [(&'static str, Reply); 4] = [
    ("birds", Reply::Opened("birds", 1)),
    ("cats", Reply::Damaged),
    ("crows", Reply::Missing),
    ("dogs", Reply::Opened("dogs", 0)),
];

/// The same of the first one behind a name.
const BEHIND: [(Option<&'static str>, Reply); 4] = [
    (None, Reply::Opened("birds", 1)),
    (Some("birds"), Reply::Damaged),
    (Some("cats"), Reply::Opened("dogs", 0)),
    (Some("dogs"), Reply::Missing),
];

/// Whether this came of it.
fn came(opened: &Result<Option<OpenRelation>, SpaceFault>, place: Place, wanted: Reply) -> bool {
    match (opened, wanted) {
        (Ok(Some(open)), Reply::Opened(name, rules)) => {
            open.name.as_str() == name && open.rules.len() == rules
        }
        (Ok(None), Reply::Missing) => true,
        (Err(SpaceFault::Damaged { page }), Reply::Damaged) => *page == place.root,
        _ => false,
    }
}

/// Whether this comes of opening the relation of a name.
fn is_opened(
    rt: &impl Abort,
    memory: &mut Memory,
    registry: &Registry,
    place: Place,
    alloc: Global,
    name: &str,
    wanted: Reply,
) -> bool
    requires { place.owner ≡ 2 }
{
    let name = text(rt, alloc, name);
    let opened = open_relation(memory, alloc, registry, place, &name);
    let came = came(&opened, place, wanted);
    drop(opened);
    drop(name);
    came
}

/// Whether this comes of opening the first relation behind a name.
fn is_behind(
    rt: &impl Abort,
    memory: &mut Memory,
    registry: &Registry,
    place: Place,
    alloc: Global,
    low: Option<&str>,
    wanted: Reply,
) -> bool
    requires { place.owner ≡ 2 }
{
    let low = match low {
        Some(name) => Some(text(rt, alloc, name)),
        None => None,
    };
    let opened = next_relation(memory, alloc, registry, place, low.as_ref());
    let came = came(&opened, place, wanted);
    drop(opened);
    drop(low);
    came
}

/// A catalogue with the entries.
fn filled(rt: &impl Abort, memory: &mut Memory, alloc: Global) -> Place
    ensures { result.owner ≡ 2 }
{
    let place = catalogue(rt, memory, alloc);
    for (name, bytes) in ENTRIES.iter() {
        enter(rt, memory, alloc, place, name, bytes);
    }
    place
}

/// Opens the relations one behind the other.
fn go_on(rt: &impl Abort, memory: &mut Memory, registry: &Registry, place: Place, alloc: Global)
    requires { place.owner ≡ 2 }
{
    for (low, wanted) in BEHIND.iter() {
        assert!(rt; is_behind(rt, memory, registry, place, alloc, *low, *wanted));
    }
}

#[test]
fn relations_are_opened(rt: HostRuntime) {
    let alloc = rt.alloc();
    let mut attachments: Vec<Box<dyn Attachment>> = Vec::new(alloc);
    let limit = Box::new(alloc, Limit {}).expect(&rt, "memory");
    attachments.push(limit).expect(&rt, "memory");
    let strip = Box::new(alloc, Strip {}).expect(&rt, "memory");
    let registry = registry(&rt, alloc, strip, attachments);
    let mut memory = Memory::new(alloc);
    let place = filled(&rt, &mut memory, alloc);
    for (number, (name, wanted)) in NAMED.iter().enumerate() {
        assert!(rt;
            is_opened(&rt, &mut memory, &registry, place, alloc, name, *wanted),
            "name {number}"
        );
    }
    go_on(&rt, &mut memory, &registry, place, alloc);
    drop(memory);
    drop(registry);
}
