//! Rows by their keys, and one after the other.

ghost use Rattle.std.specs.Prelude.{◌≡◌, Option, option_map};
ghost use Rattle.std.specs.Ordering.{is_lt};
ghost use Rattle.sb_value.specs.Order.{bytes_cmp};
ghost use Rattle.sb_relation.specs.Db.{Key};
ghost use Rattle.sb_ctx.specs.View.{IsClean, next_of};
ghost use Rattle.sb_ctx.specs.MethodAnswers.{Looks, is_above};
ghost use Rattle.sb_ctx.specs.declared.calls.MethodCall.TheVariants.{Get, Next};
ghost use Rattle.sb_heap.specs.Answered.{get_move, next_move};
ghost use Rattle.sb_heap.specs.Heap.{heap_method};
ghost use Rattle.sb_heap.specs.Scans.{IsAfter, IsPassedLow, ScansFrom};

use crate::keys::{SLOT_SIZE, key_of, page_at, parts_of};
use crate::page::own_page;
use crate::stop::Stop;
use sb_ctx::{Ctx, Instance};
use sb_forms::row_from;
use sb_node::{Entries, entry, place};
use sb_value::{RecKey, Tuple};
use std::alloc::Global;

/// The row of a key.
pub fn get_row(
    alloc: Global,
    ctx: &Ctx,
    inst: &Instance,
    key: &RecKey,
) -> Result<Option<Tuple>, Stop>
    requires { IsClean ctx.now }
    ensures { Looks heap_method inst.now (Get key.now) ctx.now ctx.now (get_move key.now result) }
{
    let Some((page, slot)) = parts_of(key) else {
        return Ok(None);
    };
    let Some((bytes, _head)) = own_page(ctx, page)? else {
        return Ok(None);
    };
    let Ok(i) = place(bytes, slot) else {
        return Ok(None);
    };
    let (_, value) = entry(bytes, i);
    match row_from(alloc, &inst.schema, value)? {
        Some(row) => Ok(Some(row)),
        None => Err(Stop::Broken(page)),
    }
}

/// The row of the least key above this one, or of the least key.
pub fn next_row(
    alloc: Global,
    ctx: &Ctx,
    inst: &Instance,
    low: Option<&RecKey>,
) -> Result<Option<(RecKey, Tuple)>, Stop>
    requires { IsClean ctx.now }
    ensures { Looks heap_method inst.now (Next (option_map (λ key. key.now) low.entry)) ctx.now ctx.now (next_move result) }
{
    let Some(low) = low else {
        return row_behind(alloc, ctx, inst, None);
    };
    let page = page_at(low);
    match first_on(alloc, ctx, inst, page, Some(low))? {
        Some(found) => Ok(Some(found)),
        None => row_behind(alloc, ctx, inst, Some(page)),
    }
}

/// The first row on the pages behind one, or on all pages. The root alone may be without rows, so it is on one of the next
/// two.
fn row_behind(
    alloc: Global,
    ctx: &Ctx,
    inst: &Instance,
    page: Option<u32>,
) -> Result<Option<(RecKey, Tuple)>, Stop>
    requires { IsClean ctx.now }
    ensures { (low : Option Key) → IsPassedLow ctx.now low page → Looks heap_method inst.now (Next low) ctx.now ctx.now (next_move result) }
{
    let Some(next) = page_after(ctx, page)? else {
        return Ok(None);
    };
    if let Some(found) = first_on(alloc, ctx, inst, next, None)? {
        return Ok(Some(found));
    }
    let Some(last) = page_after(ctx, Some(next))? else {
        return Ok(None);
    };
    match first_on(alloc, ctx, inst, last, None)? {
        Some(found) => Ok(Some(found)),
        None => Err(Stop::NoMemory),
    }
}

/// The number of the instance's next page.
fn page_after(ctx: &Ctx, low: Option<u32>) -> Result<Option<u32>, Stop>
    ensures { IsAfter ctx.now low result }
{
    match ctx.after(low) {
        Some(next) => Ok(next),
        None => Err(Stop::After(low)),
    }
}

/// The first row of a page whose key is above this one.
fn first_on(
    alloc: Global,
    ctx: &Ctx,
    inst: &Instance,
    page: u32,
    low: Option<&RecKey>,
) -> Result<Option<(RecKey, Tuple)>, Stop>
    ensures { ScansFrom ctx.now inst.now.schema page (option_map (λ key. key.now) low.entry) result }
{
    let Some((bytes, _head)) = own_page(ctx, page)? else {
        return Ok(None);
    };
    for (slot, value) in Entries::new(bytes) {
        let key = key_of(alloc, page, slot)?;
        if is_behind(&key, low) {
            if slot.len() != SLOT_SIZE {
                return Err(Stop::Broken(page));
            }
            return match row_from(alloc, &inst.schema, value)? {
                Some(row) => Ok(Some((key, row))),
                None => Err(Stop::Broken(page)),
            };
        }
    }
    Ok(None)
}

fn is_behind(key: &RecKey, low: Option<&RecKey>) -> bool
    ensures { result ≡ is_above (option_map (λ low. low.now) low.entry) key.now }
{
    match low {
        None => true,
        Some(low) => *low < *key,
    }
}
