//! Stores in memory, and what serves them.

ghost use Rattle.std.specs.Prelude.{◌≡◌};

use sb_ctx::{Attachment, Ctx, StorageMethod};
use sb_drive::{Ask, PageSpace};
use sb_map::{Place, make, put};
use sb_memory::Memory;
use sb_registry::{Extensions, Registry};
use sb_value::Str;
use std::alloc::Global;
use std::process::Abort;
use std::test::*;

// Want of memory ends a test at once: where a test went on to an `Err`, each value that it has would be dropped on the way,
// which is dear to prove. A value that goes by a call of `drop` is far cheaper than one that goes at its scope's end.

pub fn text(rt: &impl Abort, alloc: Global, text: &str) -> Str {
    Str::from_string(String::from_str(alloc, text).expect(rt, "memory"))
}

/// The registry of a storage method and of attachments.
pub fn registry(
    rt: &impl Abort,
    alloc: Global,
    method: Box<dyn StorageMethod>,
    attachments: Vec<Box<dyn Attachment>>,
) -> Registry {
    let taken = Registry::take(Extensions {
        methods: vec![in alloc; method].expect(rt, "memory"),
        attachments,
        spare_methods: Vec::new(alloc),
        spare_attachments: Vec::new(alloc),
    });
    let Ok(registry) = taken else {
        panic!(rt; "not taken");
    };
    registry
}

/// An empty catalogue.
pub fn catalogue(rt: &impl Abort, memory: &mut Memory, alloc: Global) -> Place
    ensures { result.owner ≡ 2 }
{
    let mut ctx = Ctx::new(alloc);
    memory
        .answer(2, &mut ctx, Ask::Fresh)
        .expect(rt, "a fresh page");
    let root = ctx.fresh().expect(rt, "a fresh page");
    memory.store(alloc, 2, &ctx).expect(rt, "memory");
    let place = Place { owner: 2, root };
    make(memory, alloc, place).expect(rt, "a catalogue");
    drop(ctx);
    place
}

/// Puts an entry into the catalogue.
pub fn enter(
    rt: &impl Abort,
    memory: &mut Memory,
    alloc: Global,
    place: Place,
    name: &[u8],
    bytes: &[u8],
)
    requires { place.owner ≡ 2 }
{
    assert!(rt; name.len() <= 602 && bytes.len() <= 1000);
    put(memory, alloc, place, name, bytes).expect(rt, "an entry");
}
