//! Storing what a call made of the pages.

ghost use Rattle.std.specs.Prelude.{◌≡◌, ◌↔◌, IsTrue, OnOk, OnErr, IfOk};
ghost use Rattle.sb_ctx.specs.View.{HoldsPart, edited_pages, edits_of, freed_pages, stored};
ghost use Rattle.sb_memory.specs.Contents.{Keeps, slots, pages_of};
ghost use Rattle.sb_drive.specs.Stores.{bytes_in};
ghost use Rattle.sb_memory.specs.Stores.{Adds, IsPageIn, MayWrite, slot_of};

use crate::memory::{MOST_PAGES, Memory};
use crate::slots::{Slot, Write};
use sb_bytes::PAGE_LEN;
use sb_ctx::Ctx;
use std::alloc::{AllocError, Global};

/// Stores the edits: taken pages become the owner's, and freed ones nobody's. Refused, with all as it was, where
/// memory runs out, and where a page is another owner's or isn't a whole page.
pub fn store(memory: &mut Memory, alloc: Global, owner: u16, ctx: &Ctx) -> Result<(), AllocError>
    ensures pages { OnOk result (HoldsPart ctx.now (pages_of memory.old.now owner)
        → pages_of memory.new.now owner ≡ stored ctx.now (pages_of memory.old.now owner)) }
    ensures others { Keeps owner memory.old memory.new }
    ensures none { edits_of ctx.now ≡ 0 → memory.new ≡ memory.old }
    ensures err { OnErr result (memory.new ≡ memory.old) }
{
    let mut writes = Vec::new(alloc);
    add_edited(memory, alloc, owner, ctx, &mut writes)?;
    add_freed(memory, alloc, owner, ctx, &mut writes)?;
    ctx.is_ctx();
    if writes.is_empty() {
        return Ok(());
    }
    memory.write(writes)?;
    Ok(())
}

/// Adds a write for each edited page.
fn add_edited(
    memory: &Memory,
    alloc: Global,
    owner: u16,
    ctx: &Ctx,
    writes: &mut Vec<Write>,
) -> Result<(), AllocError>
    ensures { OnOk result (Adds (slots memory.now.now) owner ctx.now (edited_pages ctx.now) writes.old.items writes.new.items) }
{
    for i in 0..=MOST_PAGES {
        let Some(n) = ctx.edited(i) else {
            return Ok(());
        };
        writes.push(write_to(memory, alloc, owner, ctx, n)?)?;
    }
    Err(AllocError)
}

/// Adds a write for each freed page.
fn add_freed(
    memory: &Memory,
    alloc: Global,
    owner: u16,
    ctx: &Ctx,
    writes: &mut Vec<Write>,
) -> Result<(), AllocError>
    ensures { OnOk result (Adds (slots memory.now.now) owner ctx.now (freed_pages ctx.now) writes.old.items writes.new.items) }
{
    for i in 0..=MOST_PAGES {
        let Some(n) = ctx.freed(i) else {
            return Ok(());
        };
        writes.push(write_to(memory, alloc, owner, ctx, n)?)?;
    }
    Err(AllocError)
}

/// The write of a page as it is now.
fn write_to(
    memory: &Memory,
    alloc: Global,
    owner: u16,
    ctx: &Ctx,
    n: u32,
) -> Result<Write, AllocError>
    ensures write { IfOk result (λ w. w ≡ record { number = n; slot = slot_of owner (bytes_in ctx.now n) }) }
    ensures may { OnOk result (MayWrite (slots memory.now.now) owner n) }
    ensures whole { OnOk result (IsPageIn ctx.now n) }
{
    ctx.is_ctx();
    if !may_write(memory, owner, n) {
        return Err(AllocError);
    }
    let slot = match ctx.page(n) {
        Some([]) | None => Slot::nobodys(alloc),
        Some(bytes) if bytes.len() == PAGE_LEN => Slot::new(owner, bytes.to_vec(alloc)?),
        Some(_) => return Err(AllocError),
    };
    Ok(Write { number: n, slot })
}

/// Whether a page is this owner's or nobody's.
fn may_write(memory: &Memory, owner: u16, n: u32) -> bool
    ensures { IsTrue result ↔ MayWrite (slots memory.now.now) owner n }
{
    let has = memory.owner_of(n);
    owner != 0 && n < MOST_PAGES && (has == 0 || has == owner)
}
