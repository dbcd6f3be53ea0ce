//! Rows put into a heap.

ghost use Rattle.std.specs.Prelude.{◌≡◌, ◌≢◌, ◌+◌, ◌<◌, ◌≤◌, length, true, None, IfOk, IfErr};
ghost use Rattle.std.specs.FinMap.Entries.{find};
ghost use Rattle.sb_node.specs.Entries.{key_cmp};
ghost use Rattle.sb_node.specs.Page.{Becomes, has_form, node_in, node_of};
ghost use Rattle.sb_ctx.specs.View.{IsClean, dropped, edits_of, page_of, room_of};
ghost use Rattle.sb_ctx.specs.Method.{MayHold};
ghost use Rattle.sb_ctx.specs.MethodAnswers.{Changes};
ghost use Rattle.sb_ctx.specs.declared.calls.MethodCall.TheVariants.{Insert};
ghost use Rattle.sb_heap.specs.Answered.{insert_move};
ghost use Rattle.sb_heap.specs.Broken.{held_node};
ghost use Rattle.sb_heap.specs.Heap.{heap_method};
ghost use Rattle.sb_heap.specs.Held.{HasFirst, IsHeadAt};
ghost use Rattle.sb_heap.specs.Links.{IsReadyFor, Made, put_node, turned};
ghost use Rattle.sb_heap.specs.Spots.{IsSpot, RewritesAt, SpotStops, with_row_in};

use crate::keys::{key_of, slot_bytes};
use crate::list::{Turn, take_turn, turn_of};
use crate::page::{copied, free_slot, heap_page, is_page, put_page, put_row, start_page};
use crate::stop::Stop;
use sb_bytes::PAGE_LEN;
use sb_codec::encode_tuple;
use sb_ctx::{Ctx, Instance};
use sb_node::{Head, room};
use sb_value::{RecKey, Tuple};
use std::alloc::Global;

/// A page with a row more, that isn't written yet, and the row's slot.
#[derive(Drop)]
pub struct Spot {
    pub page: u32,
    pub bytes: Vec<u8>,
    pub slot: [u8; 2],
    pub turn: Turn,
}

/// Adds a row: its record key.
pub fn insert_row(
    alloc: Global,
    ctx: &mut Ctx,
    inst: &Instance,
    tuple: &Tuple,
) -> Result<RecKey, Stop>
    requires clean { IsClean ctx.old }
    requires row { MayHold heap_method inst.now tuple.now }
    ensures { Changes heap_method inst.now (Insert tuple.now) ctx.old ctx.new (insert_move result) }
{
    let row = encode_tuple(alloc, tuple)?;
    let spot = spot_for(alloc, ctx, inst.root, row.as_slice())?;
    let key = key_of(alloc, spot.page, &spot.slot)?;
    fill(alloc, ctx, inst.root, &spot)?;
    Ok(key)
}

/// Where a row goes: the first page of the list, or a fresh page where there is none.
pub fn spot_for(alloc: Global, ctx: &mut Ctx, root: u32, row: &[u8]) -> Result<Spot, Stop>
    requires short { length row.now ≤ 1000 }
    ensures spot { IfOk result (IsSpot ctx.old ctx.new root row.now) }
    ensures stops { IfErr result (SpotStops ctx.old ctx.new root) }
    ensures given { dropped ctx.new ≡ dropped ctx.old }
    ensures edits { edits_of ctx.new ≤ edits_of ctx.old + 2 }
{
    if !is_page(root) {
        return Err(Stop::NoMemory);
    }
    let (_, head) = heap_page(ctx, root)?;
    if head.c == 0 {
        fresh_spot(alloc, ctx, root, row)
    } else {
        listed_spot(alloc, ctx, root, head.c, row)
    }
}

fn listed_spot(alloc: Global, ctx: &Ctx, root: u32, page: u32, row: &[u8]) -> Result<Spot, Stop>
    requires root { (root ≢ 0) × (root < 65536) }
    requires held { HasFirst ctx.now root page }
    requires some { page ≢ 0 }
    requires short { length row.now ≤ 1000 }
    ensures spot { IfOk result (IsSpot ctx.now ctx.now root row.now) }
    ensures stops { IfErr result (SpotStops ctx.now ctx.now root) }
{
    let (bytes, head) = heap_page(ctx, page)?;
    if head.level != 1 || !is_page(page) {
        return Err(Stop::NoMemory);
    }
    let mut bytes = copied(alloc, bytes)?;
    let slot = add_row(&mut bytes, row);
    let turn = turn_of(ctx, root, page, head, room(&bytes))?;
    Ok(Spot {
        page,
        bytes,
        slot,
        turn,
    })
}

/// Adds a row under the least free slot.
fn add_row(page: &mut [u8], row: &[u8]) -> [u8; 2]
    requires form { has_form page.old ≡ true }
    requires fits { (node_in page.old).head.used + (6 + length row.now) ≤ 4072 }
    ensures free { find key_cmp result (node_in page.old).entries ≡ None }
    ensures added { Becomes page.old page.new (with_row_in result row.now (node_in page.old)) }
    ensures long { length result ≡ 2 }
{
    let slot = free_slot(page);
    put_row(page, &slot, row);
    slot
}

fn fresh_spot(alloc: Global, ctx: &mut Ctx, root: u32, row: &[u8]) -> Result<Spot, Stop>
    requires held { HasFirst ctx.old root 0 }
    requires short { length row.now ≤ 1000 }
    ensures spot { IfOk result (IsSpot ctx.old ctx.new root row.now) }
    ensures stops { IfErr result (SpotStops ctx.old ctx.new root) }
    ensures given { dropped ctx.new ≡ dropped ctx.old }
    ensures edits { edits_of ctx.new ≤ edits_of ctx.old + 2 }
{
    let mut bytes = [0; PAGE_LEN];
    start_page(&mut bytes, row);
    let bytes = copied(alloc, &bytes)?;
    match ctx.fresh() {
        None => Err(Stop::Fresh),
        Some(0) => Err(Stop::NoMemory),
        Some(page) => Ok(Spot {
            page,
            bytes,
            slot: slot_bytes(0),
            turn: Turn::Joins(0),
        }),
    }
}

/// Writes the page of a spot, and gives it its place in the list.
pub fn fill(alloc: Global, ctx: &mut Ctx, root: u32, spot: &Spot) -> Result<(), Stop>
    requires room { room_of ctx.old spot.now.page ≡ 4096 }
    requires form { has_form spot.now.bytes.items ≡ true }
    requires turn { IsReadyFor ctx.old root spot.now.turn }
    ensures { Made (λ N. turned root spot.now.page spot.now.turn (put_node spot.now.page (node_of spot.now.bytes.items) N)) 4 ctx.old ctx.new result }
{
    write_turned(alloc, ctx, root, spot.page, &spot.bytes, spot.turn)
}

/// Writes a page whole, and gives it its place in the list.
pub fn write_turned(
    alloc: Global,
    ctx: &mut Ctx,
    root: u32,
    page: u32,
    bytes: &[u8],
    turn: Turn,
) -> Result<(), Stop>
    requires room { room_of ctx.old page ≡ 4096 }
    requires form { has_form bytes.now ≡ true }
    requires turn { IsReadyFor ctx.old root turn }
    ensures { Made (λ N. turned root page turn (put_node page (node_of bytes.now) N)) 4 ctx.old ctx.new result }
{
    put_page(ctx, page, bytes)?;
    take_turn(alloc, ctx, root, page, turn)
}

/// Writes a page of a heap whole, and gives it its place in the list by the room that it has then.
pub fn write_page(
    alloc: Global,
    ctx: &mut Ctx,
    root: u32,
    page: u32,
    head: Head,
    bytes: &[u8],
) -> Result<(), Stop>
    requires root { (root ≢ 0) × (root < 65536) }
    requires page { page < 65536 }
    requires head { IsHeadAt ctx.old page head }
    requires room { room_of ctx.old page ≡ 4096 }
    requires form { has_form bytes.now ≡ true }
    ensures { RewritesAt ctx.old ctx.new root page (held_node (page_of ctx.old page)) (node_in bytes.now) result }
{
    let turn = turn_of(ctx, root, page, head, room(bytes))?;
    write_turned(alloc, ctx, root, page, bytes, turn)
}
