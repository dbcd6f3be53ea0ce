//! Rows taken out of a heap.

ghost use Rattle.std.specs.Prelude.{◌≡◌, ◌≢◌, ◌<◌, true, Some, None};
ghost use Rattle.sb_node.specs.Entries.{without};
ghost use Rattle.sb_node.specs.Page.{has_form, node_in, with_entries};
ghost use Rattle.sb_ctx.specs.View.{IsClean, page_of, room_of};
ghost use Rattle.sb_ctx.specs.MethodAnswers.{Changes};
ghost use Rattle.sb_ctx.specs.declared.calls.MethodCall.TheVariants.{Delete};
ghost use Rattle.sb_heap.specs.Answered.{delete_move};
ghost use Rattle.sb_heap.specs.Heap.{heap_method};
ghost use Rattle.sb_heap.specs.Held.{IsHeadAt};
ghost use Rattle.sb_heap.specs.Links.{IsReadyFor, Made, is_ready, put_node, turned};
ghost use Rattle.sb_heap.specs.Spots.{Drops, Rewrites};

use crate::insertion::write_page;
use crate::keys::parts_of;
use crate::list::{Turn, leaving, take_turn};
use crate::page::{copied, is_page, own_page};
use crate::stop::Stop;
use sb_ctx::{Ctx, Instance};
use sb_node::{Head, cut, place};
use sb_value::RecKey;
use std::alloc::Global;

/// Takes the row of a key out. False where there is none.
pub fn delete_row(alloc: Global, ctx: &mut Ctx, inst: &Instance, key: &RecKey) -> Result<bool, Stop>
    requires clean { IsClean ctx.old }
    ensures { Changes heap_method inst.now (Delete key.now) ctx.old ctx.new (delete_move result) }
{
    let root = inst.root;
    if !is_page(root) {
        return Err(Stop::NoMemory);
    }
    let Some((page, slot)) = parts_of(key) else {
        return Ok(false);
    };
    let Some((bytes, head)) = own_page(ctx, page)? else {
        return Ok(false);
    };
    let Ok(i) = place(bytes, slot) else {
        return Ok(false);
    };
    if head.count == 1 && page != root {
        drop_page(alloc, ctx, root, page, head)?;
    } else {
        let mut copy = copied(alloc, bytes)?;
        cut_row(alloc, ctx, root, page, head, &mut copy, i)?;
    }
    Ok(true)
}

/// Writes the copy of a page without the entry at a place.
fn cut_row(
    alloc: Global,
    ctx: &mut Ctx,
    root: u32,
    page: u32,
    head: Head,
    copy: &mut [u8],
    i: u16,
) -> Result<(), Stop>
    requires root { (root ≢ 0) × (root < 65536) }
    requires page { page < 65536 }
    requires same { page_of ctx.old page ≡ Some copy.old }
    requires form { has_form copy.old ≡ true }
    requires head { head ≡ (node_in copy.old).head }
    requires within { i < (node_in copy.old).head.count }
    ensures { Rewrites ctx.old ctx.new root page (node_in copy.old) (with_entries (without i (node_in copy.old).entries) (node_in copy.old)) result }
{
    cut(copy, i);
    write_page(alloc, ctx, root, page, head, copy)
}

/// Gives a page back.
fn drop_page(alloc: Global, ctx: &mut Ctx, root: u32, page: u32, head: Head) -> Result<(), Stop>
    requires root { (root ≢ 0) × (root < 65536) }
    requires page { page < 65536 }
    requires head { IsHeadAt ctx.old page head }
    requires room { room_of ctx.old page ≡ 4096 }
    ensures { Drops ctx.old ctx.new root page head result }
{
    let turn = if head.level == 1 {
        leaving(ctx, root, page, head)?
    } else {
        Turn::Stays
    };
    free_turned(alloc, ctx, root, page, turn)
}

/// Takes a page off the list and gives it back.
fn free_turned(alloc: Global, ctx: &mut Ctx, root: u32, page: u32, turn: Turn) -> Result<(), Stop>
    requires page { is_ready (page_of ctx.old page) ≡ true }
    requires turn { IsReadyFor ctx.old root turn }
    ensures { Made (λ N. put_node page None (turned root page turn N)) 4 ctx.old ctx.new result }
{
    take_turn(alloc, ctx, root, page, turn)?;
    ctx.free(page)?;
    Ok(())
}
