//! Instances in a memory, and what is taken back.

ghost use Rattle.std.specs.Prelude.{◌<◌};
ghost use Rattle.sb_memory.specs.Writes.{AreAmong, ArePagesTo};

use sb_ctx::Ctx;
use sb_drive::{Ask, SpaceFault};
use sb_memory::{Memory, MemoryMark, Slot, Write, answer, catalogue};
use sb_owners::Owners;
use std::alloc::Global;
use std::process::Abort;
use std::test::*;

/// The pages that a memory has.
const PAGES: u32 = 16384;

/// A new instance, in whatever space.
fn come<S: Owners>(space: &mut S, alloc: Global) -> Result<(u16, u32), SpaceFault>
    requires { S.is_ready space.old }
    ensures { S.is_ready space.new }
{
    space.new_instance(alloc)
}

/// An owner that goes.
fn go<S: Owners>(space: &mut S, alloc: Global, owner: u16) -> Result<(), SpaceFault>
    requires ready { S.is_ready space.old }
    requires owner { 1 < owner }
    ensures { S.is_ready space.new }
{
    space.free_owner(alloc, owner)
}

/// Whether an instance comes as this one.
fn comes(memory: &mut Memory, alloc: Global, wanted: (u16, u32)) -> bool {
    matches!(come(memory, alloc), Ok(made) if made == wanted)
}

/// Whether this page of the owner is one of zeros.
fn is_zeros(memory: &Memory, owner: u16, page: u32) -> bool {
    memory.page(owner, page) == [0; 4096].as_slice()
}

/// Whether two instances come, the first of them with a page of zeros.
fn two_come(memory: &mut Memory, alloc: Global) -> bool {
    comes(memory, alloc, (3, 0)) && comes(memory, alloc, (4, 1)) && is_zeros(memory, 3, 0)
}

/// Whether the first of the two goes, and the page of the other stays.
fn one_goes(memory: &mut Memory, alloc: Global) -> bool {
    go(memory, alloc, 3).is_ok()
        && memory.page(3, 0).is_empty()
        && memory.owner_of(0) == 0
        && is_zeros(memory, 4, 1)
}

#[test]
fn instances_come_and_go(rt: HostRuntime) {
    let alloc = rt.alloc();
    let mut memory = Memory::new(alloc);
    assert!(rt; two_come(&mut memory, alloc));
    assert!(rt; one_goes(&mut memory, alloc));
    assert!(rt; comes(&mut memory, alloc, (3, 0)));
    drop(memory);
}

/// Back to a mark, where it isn't passed yet.
fn back(memory: &mut Memory, mark: MemoryMark) -> bool {
    if memory.mark().writes < mark.writes {
        return false;
    }
    memory.back_to(mark);
    true
}

/// The owners of the first two pages.
fn owners(memory: &Memory) -> (u16, u16) {
    (memory.owner_of(0), memory.owner_of(1))
}

/// Whether these are the owners of the first two pages behind the mark.
fn had(memory: &mut Memory, mark: MemoryMark, wanted: (u16, u16)) -> bool {
    back(memory, mark) && owners(memory) == wanted
}

/// Whether two instances come and the first one goes, each behind a mark, and what stood at the marks comes back.
fn are_nested(memory: &mut Memory, alloc: Global) -> bool {
    let none = memory.mark();
    let is_first = comes(memory, alloc, (3, 0));
    let one = memory.mark();
    let is_second = comes(memory, alloc, (4, 1));
    let two = memory.mark();
    let is_gone = go(memory, alloc, 3).is_ok() && owners(memory) == (0, 4);
    is_first
        && is_second
        && is_gone
        && had(memory, two, (3, 4))
        && had(memory, one, (3, 0))
        && had(memory, none, (0, 0))
}

#[test]
fn marks_are_nested(rt: HostRuntime) {
    let alloc = rt.alloc();
    let mut memory = Memory::new(alloc);
    assert!(rt; are_nested(&mut memory, alloc));
    drop(memory);
}

/// A write for each number that gives its page an owner, and no bytes.
fn filling(rt: &impl Abort, alloc: Global, owner: u16) -> Vec<Write>
    ensures among { AreAmong 16384 result.items }
    ensures whole { ArePagesTo result.items }
{
    let mut writes = Vec::new(alloc);
    for number in 0..PAGES {
        let slot = Slot::new(owner, Vec::new(alloc));
        writes.push(Write { number, slot }).expect(rt, "memory");
    }
    writes
}

/// Whether one more page and one more instance are refused, as all pages are somebody's.
fn is_full(memory: &mut Memory, alloc: Global) -> bool {
    let full = SpaceFault::TempFull {
        used: 16384,
        total: 16384,
    };
    let mut ctx = Ctx::new(alloc);
    let answered = answer(memory, 3, &mut ctx, Ask::Fresh);
    drop(ctx);
    answered == Err(full) && come(memory, alloc) == Err(full)
}

/// Once all pages are somebody's, one more is refused; behind the mark there is room again.
#[test]
fn pages_run_out_and_come_back(rt: HostRuntime) {
    let alloc = rt.alloc();
    let mut memory = Memory::new(alloc);
    let mark = memory.mark();
    let writes = filling(&rt, alloc, 3);
    memory.write(writes).expect(&rt, "memory");
    let is_full = is_full(&mut memory, alloc);
    let is_back = back(&mut memory, mark) && comes(&mut memory, alloc, (3, 0));
    drop(memory);
    assert!(rt; is_full && is_back);
}

/// Whether the catalogue has a page of zeros, and keeps it where an instance comes.
fn has_catalogue(memory: &mut Memory, alloc: Global) -> bool {
    let (owner, root) = catalogue();
    let is_first = is_zeros(memory, owner, root) && comes(memory, alloc, (3, 1));
    memory.keep();
    is_first && memory.mark().writes == 0 && owners(memory) == (2, 3)
}

#[test]
fn the_catalogue_has_a_page_of_zeros(rt: HostRuntime) {
    let alloc = rt.alloc();
    let mut memory = Memory::with_catalogue(alloc).expect(&rt, "memory");
    let is_so = has_catalogue(&mut memory, alloc);
    drop(memory);
    assert!(rt; is_so);
}
