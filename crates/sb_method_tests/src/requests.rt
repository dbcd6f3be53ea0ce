//! What no clause says by a number: an insert asks for as many pages in a large heap as in a small one.

ghost use Rattle.std.specs.Prelude.{IsTrue};
ghost use Rattle.sb_ctx.specs.View.{IsClean};
ghost use Rattle.sb_heap.specs.Examples.{IsExample, MayBeHeld};

use crate::rows::{Change, End, OWNER, Texts, changed, letters, prepared, row};
use sb_ctx::{Ctx, Instance, StorageMethod};
use sb_drive::{Turn, turn_of};
use sb_heap::Heap;
use sb_memory::{Memory, answer};
use sb_value::Tuple;
use std::alloc::Global;
use std::process::Abort;
use std::test::*;

/// Begins an insert, and gives it what it asks for. False where it asks for nothing.
fn is_asked(
    rt: &impl Abort,
    alloc: Global,
    memory: &Memory,
    ctx: &mut Ctx,
    inst: &Instance,
    row: &Tuple,
) -> bool
    requires inst { IsExample inst.now }
    requires row { MayBeHeld row.now }
    requires clean { IsClean ctx.old }
    ensures { IsTrue result → IsClean ctx.new }
{
    let made = Heap::new().insert(alloc, ctx, inst, row);
    let Turn::Give(ask) = turn_of(made) else {
        return false;
    };
    answer(memory, OWNER, ctx, ask).expect(rt, "a gift");
    true
}

/// How often an insert of a row of 1,000 bytes asks for something.
fn asks_of_insert(rt: &impl Abort, alloc: Global, memory: &Memory, inst: &Instance) -> u32
    requires { IsExample inst.now }
{
    let row = row(rt, alloc, 1, Texts::Long);
    let mut ctx = Ctx::new(alloc);
    for _turn in 0..20 {
        if !is_asked(rt, alloc, memory, &mut ctx, inst, &row) {
            break;
        }
    }
    let asks = ctx.asks();
    drop(ctx);
    drop(row);
    asks
}

/// Puts in rows of 1,000 bytes, of which four go on a page, till so many pages are full.
fn fill(rt: &impl Abort, alloc: Global, memory: &mut Memory, inst: &Instance, pages: u32)
    requires { IsExample inst.now }
{
    for _page in 0..pages {
        for number in 0..4 {
            let change = Change::Insert(number, Texts::Long);
            let end = changed(rt, alloc, memory, inst, change);
            assert!(rt; matches!(end, End::Key(_)));
        }
    }
}

/// Takes the first row of each page out, so that each has room for another. How many pages that is.
fn pages_cleared(rt: &impl Abort, alloc: Global, memory: &mut Memory, inst: &Instance) -> u32
    requires { IsExample inst.now }
{
    let mut low = None;
    for count in 0..65536 {
        let Some(n) = memory.next_page(OWNER, low) else {
            return count;
        };
        let change = Change::Delete(u64::from(n) * 65536);
        assert!(rt; changed(rt, alloc, memory, inst, change) == End::Done);
        low = Some(n);
    }
    0
}

/// How often an insert asks where so many pages are full; how many pages these are; and how often it asks where each has lost a
/// row.
fn asked(rt: &impl Abort, alloc: Global, inst: &Instance, pages: u32) -> [u32; 3]
    requires { IsExample inst.now }
{
    let mut memory = prepared(rt, alloc, inst);
    fill(rt, alloc, &mut memory, inst, pages);
    let full = asks_of_insert(rt, alloc, &memory, inst);
    let cleared = pages_cleared(rt, alloc, &mut memory, inst);
    let listed = asks_of_insert(rt, alloc, &memory, inst);
    drop(memory);
    [full, cleared, listed]
}

/// Where all pages are full an insert asks for the root and a fresh page; where all have room, for the root, the first page
/// of the list, which it fills, and the next one.
#[test]
fn inserts_ask_for_as_many_pages(rt: HostRuntime) {
    let inst = letters(&rt, rt.alloc());
    for pages in [10, 100, 1000] {
        assert!(rt;
            asked(&rt, rt.alloc(), &inst, pages) == [2, pages, 3],
            "{pages}"
        );
    }
    drop(inst);
}
