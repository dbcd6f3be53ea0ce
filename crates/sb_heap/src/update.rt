//! Rows put in place of others.

ghost use Rattle.std.specs.Prelude.{◌≡◌, ◌≢◌, ◌<◌, ◌≤◌, length, true, Some, Ok};
ghost use Rattle.sb_node.specs.Entries.{place_of};
ghost use Rattle.sb_node.specs.Page.{has_form, node_in};
ghost use Rattle.sb_ctx.specs.View.{IsClean, page_of, room_of};
ghost use Rattle.sb_ctx.specs.Method.{MayHold};
ghost use Rattle.sb_ctx.specs.MethodAnswers.{Changes};
ghost use Rattle.sb_ctx.specs.declared.calls.MethodCall.TheVariants.{Update};
ghost use Rattle.sb_heap.specs.Answered.{update_move};
ghost use Rattle.sb_heap.specs.Heap.{heap_method};
ghost use Rattle.sb_heap.specs.Links.{is_ready};
ghost use Rattle.sb_heap.specs.Spots.{Moves, Replaces};

use crate::insertion::{fill, spot_for, write_page};
use crate::keys::{key_of, parts_of};
use crate::page::{copied, is_page, own_page, put_page, put_row};
use crate::stop::Stop;
use sb_codec::encode_tuple;
use sb_ctx::{Ctx, Instance};
use sb_node::{Head, cut, place, room};
use sb_value::{RecKey, Tuple};
use std::alloc::Global;

/// Puts a row in place of that of a key: its record key then. None where there is none.
pub fn update_row(
    alloc: Global,
    ctx: &mut Ctx,
    inst: &Instance,
    key: &RecKey,
    tuple: &Tuple,
) -> Result<Option<RecKey>, Stop>
    requires clean { IsClean ctx.old }
    requires row { MayHold heap_method inst.now tuple.now }
    ensures { Changes heap_method inst.now (Update key.now tuple.now) ctx.old ctx.new (update_move result) }
{
    let root = inst.root;
    if !is_page(root) {
        return Err(Stop::NoMemory);
    }
    let Some((page, slot)) = parts_of(key) else {
        return Ok(None);
    };
    let Some((bytes, head)) = own_page(ctx, page)? else {
        return Ok(None);
    };
    let Ok(i) = place(bytes, slot) else {
        return Ok(None);
    };
    let row = encode_tuple(alloc, tuple)?;
    let mut copy = copied(alloc, bytes)?;
    let at = At {
        root,
        page,
        head,
        i,
    };
    let now = replace_row(alloc, ctx, at, &mut copy, key, slot, row.as_slice())?;
    Ok(Some(now))
}

/// Where a row stands: the root of its heap, its page with the head of that, and its place there.
#[derive(Clone, Copy)]
struct At {
    root: u32,
    page: u32,
    head: Head,
    i: u16,
}

/// Writes the copy of a page with a row in place of that at a place, or puts the row elsewhere where the page has no room
/// for it: the row's key then.
fn replace_row(
    alloc: Global,
    ctx: &mut Ctx,
    at: At,
    copy: &mut [u8],
    key: &RecKey,
    slot: &[u8],
    row: &[u8],
) -> Result<RecKey, Stop>
    requires root { (at.root ≢ 0) × (at.root < 65536) }
    requires page { at.page < 65536 }
    requires same { page_of ctx.old at.page ≡ Some copy.old }
    requires form { has_form copy.old ≡ true }
    requires head { at.head ≡ (node_in copy.old).head }
    requires place { place_of slot.now (node_in copy.old).entries ≡ Ok at.i }
    requires short { length row.now ≤ 1000 }
    requires slot { length slot.now ≡ 2 }
    ensures { Replaces ctx.old ctx.new at.root at.page (node_in copy.old) at.i slot.now row.now key.now result }
{
    cut(copy, at.i);
    if 4 + slot.len() + row.len() > room(copy) as usize {
        return move_row(alloc, ctx, at.root, at.page, copy, row);
    }
    put_row(copy, slot, row);
    let key = key.copy()?;
    write_page(alloc, ctx, at.root, at.page, at.head, copy)?;
    Ok(key)
}

/// Puts a row where an insert puts it, and writes the page that the old one was taken out of.
fn move_row(
    alloc: Global,
    ctx: &mut Ctx,
    root: u32,
    page: u32,
    bytes: &[u8],
    row: &[u8],
) -> Result<RecKey, Stop>
    requires room { room_of ctx.old page ≡ 4096 }
    requires ready { is_ready (page_of ctx.old page) ≡ true }
    requires form { has_form bytes.now ≡ true }
    requires short { length row.now ≤ 1000 }
    ensures { Moves ctx.old ctx.new root page (node_in bytes.now) row.now result }
{
    let spot = spot_for(alloc, ctx, root, row)?;
    let key = key_of(alloc, spot.page, &spot.slot)?;
    put_page(ctx, page, bytes)?;
    fill(alloc, ctx, root, &spot)?;
    Ok(key)
}
