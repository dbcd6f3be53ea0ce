//! Pages of a heap.

ghost use Rattle.std.specs.Prelude.{◌≡◌, ◌≢◌, ◌+◌, ◌-◌, ◌≤◌, ◌<◌, ◌&&◌, not, nat_eq, nat_le, nat_lt, cond, length, true, Some, None, IfOk, IfErr, MatchOption};
ghost use Rattle.std.specs.Int.{bytes_high_first};
ghost use Rattle.std.specs.FinMap.Entries.{find};
ghost use Rattle.sb_node.specs.Entries.{key_cmp};
ghost use Rattle.sb_node.specs.Page.{Becomes, empty_node, has_form, node_in, node_of};
ghost use Rattle.sb_ctx.specs.View.{page_of, room_of};
ghost use Rattle.sb_heap.specs.Held.{Amiss, IsBare, IsHeapPage, OwnAmiss, is_heap_head};
ghost use Rattle.sb_heap.specs.Links.{Made, StayReady, StayWhole, put_node};
ghost use Rattle.sb_heap.specs.Prepared.{Prepares};
ghost use Rattle.sb_heap.specs.Spots.{with_row_in};

use crate::keys::slot_bytes;
use crate::stop::Stop;
use sb_bytes::{MOST_PAGES, PAGE_LEN};
use sb_ctx::Ctx;
use sb_node::{Entries, Head, add, clear, form, kind, place, room, set_head};
use std::alloc::{AllocError, Global};

/// The bytes that any row has room in with its slot: 1,000 of its spelling at most, and 6 of the entry around it.
pub const ANY_ROW: u16 = 1006;

/// A held page of a heap, and its head.
pub fn heap_page(ctx: &Ctx, n: u32) -> Result<(&[u8], Head), Stop>
    ensures ok { IfOk result (λ found. IsHeapPage (page_of ctx.now n) found.0.now found.1) }
    ensures stops { IfErr result (Amiss ctx.now n) }
{
    let Some(bytes) = ctx.page(n) else {
        return Err(Stop::Need(n));
    };
    match form(bytes) {
        Some(head) if has_place(head, room(bytes)) => Ok((bytes, head)),
        _ => Err(Stop::Broken(n)),
    }
}

/// A page that the heap may have or not: None where it hasn't.
pub fn own_page(ctx: &Ctx, n: u32) -> Result<Option<(&[u8], Head)>, Stop>
    ensures ok { IfOk result (λ page. MatchOption page (IsBare ctx.now n) (λ found. (n ≢ 0) × (n < 65536) × IsHeapPage (page_of ctx.now n) found.0.now found.1)) }
    ensures stops { IfErr result (OwnAmiss ctx.now n) }
{
    if !is_page(n) {
        return Ok(None);
    }
    match ctx.page(n) {
        Some(bytes) if bytes.is_empty() => Ok(None),
        _ => Ok(Some(heap_page(ctx, n)?)),
    }
}

/// Whether a heap may have a page of this number: the links can't name page 0, and there are 65,536 pages.
pub fn is_page(n: u32) -> bool
    ensures { result ≡ (not (nat_eq n 0) && nat_lt n 65536) }
{
    n != 0 && n < MOST_PAGES
}

/// Whether a page is of a heap, and of level 1 just where it has room for any row.
fn has_place(head: Head, room: u16) -> bool
    requires { room ≡ 4072 - head.used }
    ensures { result ≡ is_heap_head head }
{
    head.kind == kind::HEAP && head.level == level_of(room)
}

/// The level of a page with so many free bytes.
fn level_of(room: u16) -> u8
    ensures { result ≡ cond (nat_le 1006 room) 1 0 }
{
    if room >= ANY_ROW { 1 } else { 0 }
}

/// The least slot that a page has no entry of.
pub fn free_slot(page: &[u8]) -> [u8; 2]
    requires { has_form page.now ≡ true }
    ensures { find key_cmp result (node_in page.now).entries ≡ None }
{
    let mut slot = 0;
    for (key, _) in Entries::new(page) {
        if key == slot_bytes(slot).as_slice() {
            slot += 1;
        }
    }
    slot_bytes(slot)
}

/// Puts a row under a slot that the page hasn't.
pub fn put_row(page: &mut [u8], slot: &[u8], row: &[u8])
    requires form { has_form page.old ≡ true }
    requires free { find key_cmp slot.now (node_in page.old).entries ≡ None }
    requires fits { (node_in page.old).head.used + (4 + length slot.now + length row.now) ≤ 4072 }
    ensures { Becomes page.old page.new (with_row_in slot.now row.now (node_in page.old)) }
{
    match place(page, slot) {
        Err(i) => add(page, i, slot, row),
        Ok(_) => unreachable!(),
    }
}

/// Makes a page one of a heap, that isn't on the list yet, with one row, under slot 0.
pub fn start_page(page: &mut [u8], row: &[u8])
    requires size { length page.old ≡ 4096 }
    requires short { length row.now ≤ 1000 }
    ensures form { has_form page.new ≡ true }
    ensures node { node_in page.new ≡ with_row_in (bytes_high_first 2 0) row.now (empty_node 1 0) }
{
    clear(page, kind::HEAP, 0);
    put_row(page, &slot_bytes(0), row);
}

/// Writes a held page whole.
pub fn put_page(ctx: &mut Ctx, n: u32, bytes: &[u8]) -> Result<(), Stop>
    requires room { room_of ctx.old n ≡ 4096 }
    requires form { has_form bytes.now ≡ true }
    ensures made { Made (put_node n (node_of bytes.now)) 1 ctx.old ctx.new result }
    ensures ready { StayReady ctx.old ctx.new }
    ensures whole { StayWhole ctx.old ctx.new }
    ensures there { IfOk result (λ done. page_of ctx.new n ≡ Some bytes.now) }
{
    ctx.edit(n, 0, bytes)?;
    Ok(())
}

/// A copy of bytes.
pub fn copied(alloc: Global, bytes: &[u8]) -> Result<Vec<u8>, AllocError>
    ensures { IfOk result (λ copy. copy.items ≡ bytes.now) }
{
    bytes.to_vec(alloc)
}

/// Makes the root a page without rows, which is alone on the list.
pub fn prepare_root(ctx: &mut Ctx, root: u32) -> Result<(), Stop>
    ensures { Prepares ctx.old ctx.new root result }
{
    if !is_page(root) {
        return Err(Stop::NoMemory);
    }
    let Some(page) = ctx.page(root) else {
        return Err(Stop::Need(root));
    };
    if page.len() != PAGE_LEN {
        return Err(Stop::Broken(root));
    }
    let mut bytes = [0; PAGE_LEN];
    clear(&mut bytes, kind::HEAP, 1);
    let head = Head {
        kind: kind::HEAP,
        level: 1,
        count: 0,
        used: 0,
        a: 0,
        b: 0,
        c: root,
    };
    set_head(&mut bytes, head);
    put_page(ctx, root, &bytes)
}
