//! The list of the pages with room.

ghost use Rattle.std.specs.Prelude.{◌≡◌, ◌≢◌, ◌<◌, true, Some, IfOk, IfErr, option_map};
ghost use Rattle.sb_node.specs.Page.{has_form, with_head};
ghost use Rattle.sb_ctx.specs.View.{page_of};
ghost use Rattle.sb_heap.specs.Broken.{held_node};
ghost use Rattle.sb_heap.specs.Held.{Amiss, IsHeadAt, LacksOne, turn_pages};
ghost use Rattle.sb_heap.specs.Links.{IsReadyFor, IsTurn, Made, StayReady, if_page, is_ready, joined, left, linked_before, placed, turned, with_after, with_before, with_first, with_node};
ghost use Rattle.sb_heap.specs.declared.list.Turn.TheVariants.{Joins, Leaves};

use crate::page::{ANY_ROW, copied, heap_page, put_page};
use crate::stop::Stop;
use sb_ctx::Ctx;
use sb_node::{Head, form, set_head};
use std::alloc::Global;

/// What becomes of a page's place in the list: it keeps it, joins in front of the first page, or leaves from between two.
/// A page 0 is none.
#[derive(Clone, Copy)]
pub enum Turn {
    Stays,
    Joins(u32),
    Leaves(u32, u32),
}

/// The turn of a page that comes to have so much room. The pages that it changes are held.
pub fn turn_of(ctx: &Ctx, root: u32, page: u32, head: Head, room: u16) -> Result<Turn, Stop>
    requires root { (root ≢ 0) × (root < 65536) }
    requires page { page < 65536 }
    requires head { IsHeadAt ctx.now page head }
    ensures turn { IfOk result (IsTurn (held_node (page_of ctx.now root)) head room) }
    ensures ready { IfOk result (IsReadyFor ctx.now root) }
    ensures stops { IfErr result (LacksOne ctx.now root (turn_pages ctx.now root head)) }
{
    if head.level == 1 {
        if room >= ANY_ROW {
            return Ok(Turn::Stays);
        }
        return leaving(ctx, root, page, head);
    }
    if room < ANY_ROW {
        return Ok(Turn::Stays);
    }
    let (_, first) = heap_page(ctx, root)?;
    check(ctx, first.c)?;
    Ok(Turn::Joins(first.c))
}

/// The turn of a page that leaves the list.
pub fn leaving(ctx: &Ctx, root: u32, page: u32, head: Head) -> Result<Turn, Stop>
    requires root { (root ≢ 0) × (root < 65536) }
    requires page { page < 65536 }
    requires head { IsHeadAt ctx.now page head }
    requires listed { head.level ≡ 1 }
    ensures turn { IfOk result (λ turn. turn ≡ Leaves head.b head.a) }
    ensures ready { IfOk result (IsReadyFor ctx.now root) }
    ensures stops { IfErr result (LacksOne ctx.now root (turn_pages ctx.now root head)) }
{
    if head.b == 0 {
        check(ctx, root)?;
    } else {
        check(ctx, head.b)?;
    }
    check(ctx, head.a)?;
    Ok(Turn::Leaves(head.b, head.a))
}

/// Sees that a page of the list is held, where there is one.
fn check(ctx: &Ctx, page: u32) -> Result<(), Stop>
    ensures ready { IfOk result (λ done. page ≢ 0 → is_ready (page_of ctx.now page) ≡ true) }
    ensures stops { IfErr result (λ stop. (page ≢ 0) × Amiss ctx.now page stop) }
{
    if page != 0 {
        heap_page(ctx, page)?;
    }
    Ok(())
}

/// Gives a page its place in the list.
pub fn take_turn(alloc: Global, ctx: &mut Ctx, root: u32, page: u32, turn: Turn) -> Result<(), Stop>
    requires page { is_ready (page_of ctx.old page) ≡ true }
    requires turn { IsReadyFor ctx.old root turn }
    ensures made { Made (turned root page turn) 3 ctx.old ctx.new result }
    ensures ready { StayReady ctx.old ctx.new }
{
    match turn {
        Turn::Stays => Ok(()),
        Turn::Joins(first) => join(alloc, ctx, root, page, first),
        Turn::Leaves(before, after) => leave(alloc, ctx, root, page, before, after),
    }
}

fn join(alloc: Global, ctx: &mut Ctx, root: u32, page: u32, first: u32) -> Result<(), Stop>
    requires page { is_ready (page_of ctx.old page) ≡ true }
    requires turn { IsReadyFor ctx.old root (Joins first) }
    ensures made { Made (joined root page first) 3 ctx.old ctx.new result }
    ensures ready { StayReady ctx.old ctx.new }
{
    set_place(alloc, ctx, page, 1, first)?;
    set_before(alloc, ctx, first, page)?;
    set_first(alloc, ctx, root, page)
}

fn leave(
    alloc: Global,
    ctx: &mut Ctx,
    root: u32,
    page: u32,
    before: u32,
    after: u32,
) -> Result<(), Stop>
    requires page { is_ready (page_of ctx.old page) ≡ true }
    requires turn { IsReadyFor ctx.old root (Leaves before after) }
    ensures made { Made (left root page before after) 3 ctx.old ctx.new result }
    ensures ready { StayReady ctx.old ctx.new }
{
    set_place(alloc, ctx, page, 0, 0)?;
    set_after(alloc, ctx, root, before, after)?;
    set_before(alloc, ctx, after, before)
}

/// Gives a page a level and a next page, and none before it.
fn set_place(alloc: Global, ctx: &mut Ctx, page: u32, level: u8, after: u32) -> Result<(), Stop>
    requires { is_ready (page_of ctx.old page) ≡ true }
    ensures made { Made (with_node page (placed level after)) 1 ctx.old ctx.new result }
    ensures ready { StayReady ctx.old ctx.new }
{
    let head = head_of(ctx, page);
    write_head(
        alloc,
        ctx,
        page,
        Head {
            level,
            a: after,
            b: 0,
            ..head
        },
    )
}

/// Gives a page another next page, or the root another first one where the page is 0.
fn set_after(alloc: Global, ctx: &mut Ctx, root: u32, page: u32, after: u32) -> Result<(), Stop>
    requires root { page ≡ 0 → is_ready (page_of ctx.old root) ≡ true }
    requires page { page ≢ 0 → is_ready (page_of ctx.old page) ≡ true }
    ensures made { Made (linked_before root page after) 1 ctx.old ctx.new result }
    ensures ready { StayReady ctx.old ctx.new }
{
    if page == 0 {
        return set_first(alloc, ctx, root, after);
    }
    let head = head_of(ctx, page);
    write_head(alloc, ctx, page, Head { a: after, ..head })
}

/// Gives a page another one before it, where it isn't 0.
fn set_before(alloc: Global, ctx: &mut Ctx, page: u32, before: u32) -> Result<(), Stop>
    requires { page ≢ 0 → is_ready (page_of ctx.old page) ≡ true }
    ensures made { Made (if_page page (with_node page (with_before before))) 1 ctx.old ctx.new result }
    ensures ready { StayReady ctx.old ctx.new }
{
    if page == 0 {
        return Ok(());
    }
    let head = head_of(ctx, page);
    write_head(alloc, ctx, page, Head { b: before, ..head })
}

fn set_first(alloc: Global, ctx: &mut Ctx, root: u32, first: u32) -> Result<(), Stop>
    requires { is_ready (page_of ctx.old root) ≡ true }
    ensures made { Made (with_node root (with_first first)) 1 ctx.old ctx.new result }
    ensures ready { StayReady ctx.old ctx.new }
{
    let head = head_of(ctx, root);
    write_head(alloc, ctx, root, Head { c: first, ..head })
}

fn head_of(ctx: &Ctx, page: u32) -> Head
    requires { is_ready (page_of ctx.now page) ≡ true }
    ensures { IsHeadAt ctx.now page result }
{
    let Some(bytes) = ctx.page(page) else {
        unreachable!();
    };
    match form(bytes) {
        Some(head) => head,
        None => unreachable!(),
    }
}

fn write_head(alloc: Global, ctx: &mut Ctx, page: u32, head: Head) -> Result<(), Stop>
    requires { is_ready (page_of ctx.old page) ≡ true }
    ensures made { Made (with_node page (with_head head)) 1 ctx.old ctx.new result }
    ensures ready { StayReady ctx.old ctx.new }
{
    let Some(bytes) = ctx.page(page) else {
        unreachable!();
    };
    let mut copy = copied(alloc, bytes)?;
    write_copy(ctx, page, &mut copy, head)
}

/// Writes the copy of a page with another head.
fn write_copy(ctx: &mut Ctx, page: u32, copy: &mut [u8], head: Head) -> Result<(), Stop>
    requires same { page_of ctx.old page ≡ Some copy.old }
    requires form { has_form copy.old ≡ true }
    ensures made { Made (with_node page (with_head head)) 1 ctx.old ctx.new result }
    ensures ready { StayReady ctx.old ctx.new }
{
    set_head(copy, head);
    put_page(ctx, page, copy)
}
