//! Entries put into a tree.

ghost use Rattle.std.specs.Prelude.{◌≡◌, ◌≢◌, ◌+◌, ◌-◌, ◌*◌, ◌<◌, ◌≤◌, ◌⊎◌, length, true, false, Some, None, IfOk, IfErr, OnOk, MatchOption};
ghost use Rattle.sb_ctx.specs.View.{dropped, edits_of, free_page, page_of, room_of, stored, with_page};
ghost use Rattle.sb_ctx.specs.Costs.{tree_cost};
ghost use Rattle.std.specs.FinMap.Entries.{find};
ghost use Rattle.sb_node.specs.Entries.{key_cmp, size_of};
ghost use Rattle.sb_node.specs.Page.{has_form, node_in, node_of};
ghost use Rattle.sb_btree.specs.Broken.{breaks, breaks_below, held_node, is_of_level};
ghost use Rattle.sb_btree.specs.Held.{IsRootPage};
ghost use Rattle.sb_btree.specs.Inserts.{GivesBound, GrowsAt, Inserts, Puts, Replaces, IsSplit, IsTop, KeepsHigher, LacksBound, MayAsk, OverPlaces, OverTrees, PutAt, PutChildAt, PutsAt, StoresHalves, is_tree_page};
ghost use Rattle.sb_btree.specs.Spending.{AsksWithin, PutsWithin, TakesAt, TakesOne, written};
ghost use Rattle.sb_forms.specs.Read.{has};
ghost use Rattle.sb_forms.specs.TreePages.{tree_met};
ghost use Rattle.sb_btree.specs.Walks.{Breaks, Needs, OnTree, OverNodes, as_walk};
ghost use Rattle.sb_btree.specs.Ways.{is_on_way, way};

use crate::halves::{put_in, split};
use crate::lookup::copied;
use crate::page::{MOST_LEVEL, child_at, count_upto, root_level, tree_page};
use crate::walk::{Stop, Walk, answer};
use sb_bytes::{PAGE_LEN, put_u32};
use sb_ctx::Ctx;
use sb_node::{Head, add, clear, cut, entry, form, kind, place, set_head};
use sb_value::RecKey;
use std::alloc::{AllocError, Global};

/// The bytes that a key has at most.
pub const MOST_KEY: usize = 602;

/// What a put makes of a page. `Kept`: it has the key where it isn't to have it, or hasn't it where it is, and nothing has
/// changed. `Split`: its greater keys, from a bound on, are in a fresh page now.
#[derive(Drop)]
pub enum Put {
    Kept,
    Done,
    Split(RecKey, u32),
}

/// Puts an entry into the tree. False where the key stands.
pub fn insert(alloc: Global, ctx: &mut Ctx, root: u32, key: &[u8], value: &[u8]) -> Walk<bool>
    requires key { length key.now ≤ 602 }
    requires both { length key.now + length value.now ≤ 2032 }
    ensures given { dropped ctx.new ≡ dropped ctx.old }
    ensures asks { MayAsk ctx.new result }
    ensures broken { Breaks (breaks root (page_of ctx.old)) result }

    // over pages that are a tree
    ensures inserts { OverTrees ctx.old root (λ P es. Inserts ctx.old ctx.new root key.now value.now P es result) }
    ensures way { OnTree ctx.old root (λ P. Needs (is_on_way root P (Some key.now)) result) }

    // what it takes of such pages
    ensures edits { OverTrees ctx.old root (λ P es. edits_of ctx.new ≤ edits_of ctx.old + tree_cost (length es)) }
    ensures room { OverTrees ctx.old root (λ P es. AsksWithin (2 * length es) (length (tree_met root (stored ctx.old P))) ctx.old ctx.new result) }
{
    put_entry(alloc, ctx, root, key, value, false)
}

/// Puts another value under a key of the tree. False where the tree hasn't the key.
pub fn replace(alloc: Global, ctx: &mut Ctx, root: u32, key: &[u8], value: &[u8]) -> Walk<bool>
    requires key { length key.now ≤ 602 }
    requires both { length key.now + length value.now ≤ 2032 }
    ensures given { dropped ctx.new ≡ dropped ctx.old }
    ensures asks { MayAsk ctx.new result }
    ensures broken { Breaks (breaks root (page_of ctx.old)) result }

    // over pages that are a tree
    ensures replaces { OverTrees ctx.old root (λ P es. Replaces ctx.old ctx.new root key.now value.now P es result) }
    ensures way { OnTree ctx.old root (λ P. Needs (is_on_way root P (Some key.now)) result) }

    // what it takes of such pages
    ensures edits { OverTrees ctx.old root (λ P es. edits_of ctx.new ≤ edits_of ctx.old + tree_cost (length es)) }
    ensures room { OverTrees ctx.old root (λ P es. AsksWithin (2 * length es) (length (tree_met root (stored ctx.old P))) ctx.old ctx.new result) }
{
    put_entry(alloc, ctx, root, key, value, true)
}

/// Puts a value under a key of the tree. False where the key stands and isn't to, or is to and doesn't.
fn put_entry(
    alloc: Global,
    ctx: &mut Ctx,
    root: u32,
    key: &[u8],
    value: &[u8],
    stands: bool,
) -> Walk<bool>
    requires key { length key.now ≤ 602 }
    requires both { length key.now + length value.now ≤ 2032 }
    ensures given { dropped ctx.new ≡ dropped ctx.old }
    ensures asks { MayAsk ctx.new result }
    ensures broken { Breaks (breaks root (page_of ctx.old)) result }
    ensures puts { OverTrees ctx.old root (λ P es. Puts stands ctx.old ctx.new root key.now value.now P es result) }
    ensures way { OnTree ctx.old root (λ P. Needs (is_on_way root P (Some key.now)) result) }
    ensures edits { OverTrees ctx.old root (λ P es. edits_of ctx.new ≤ edits_of ctx.old + tree_cost (length es)) }
    ensures room { OverTrees ctx.old root (λ P es. AsksWithin (2 * length es) (length (tree_met root (stored ctx.old P))) ctx.old ctx.new result) }
{
    match root_level(ctx, root) {
        Ok(level) => answer(put_at_root(alloc, ctx, root, level, key, value, stands)),
        Err(stop) => answer(Err(stop)),
    }
}

fn put_at_root(
    alloc: Global,
    ctx: &mut Ctx,
    root: u32,
    level: u8,
    key: &[u8],
    value: &[u8],
    stands: bool,
) -> Result<bool, Stop>
    requires key { length key.now ≤ 602 }
    requires both { length key.now + length value.now ≤ 2032 }
    requires root { IsRootPage (page_of ctx.old root) level }
    ensures given { dropped ctx.new ≡ dropped ctx.old }
    ensures asks { MayAsk ctx.new (as_walk result) }
    ensures broken { Breaks (breaks_below level (page_of ctx.old) root) (as_walk result) }
    ensures puts { OverTrees ctx.old root (λ P es. Puts stands ctx.old ctx.new root key.now value.now P es (as_walk result)) }
    ensures way { OnTree ctx.old root (λ P. Needs (is_on_way root P (Some key.now)) (as_walk result)) }
    ensures edits { edits_of ctx.new ≤ edits_of ctx.old + 3 * (level + 2) }
    ensures room { OverTrees ctx.old root (λ P es. AsksWithin (2 * length es) (length (tree_met root (stored ctx.old P))) ctx.old ctx.new (as_walk result)) }
{
    match put_below(alloc, ctx, root, level, key, value, stands)? {
        Put::Kept => Ok(false),
        Put::Done => Ok(true),
        Put::Split(bound, next) => {
            grow(alloc, ctx, root, level, bound.as_slice(), next)?;
            Ok(true)
        }
    }
}

/// Puts a value under a key of the tree of a level at a page.
fn put_below(
    alloc: Global,
    ctx: &mut Ctx,
    page: u32,
    level: u8,
    key: &[u8],
    value: &[u8],
    stands: bool,
) -> Result<Put, Stop>
    requires key { length key.now ≤ 602 }
    requires both { length key.now + length value.now ≤ 2032 }
    ensures given { dropped ctx.new ≡ dropped ctx.old }
    ensures asks { MayAsk ctx.new (as_walk result) }
    ensures broken { Breaks (breaks_below level (page_of ctx.old) page) (as_walk result) }
    ensures higher { IfOk result (λ put. KeepsHigher ctx.old ctx.new level) }
    ensures splits { IfOk result (IsSplit ctx.new level page) }
    ensures puts { OverPlaces ctx.old level page key.now (λ P low high. PutsAt stands ctx.old ctx.new level page key.now value.now P low high result) }
    ensures way { OverNodes ctx.old level page (λ N. Needs (λ n. has n (way level N (Some key.now) page)) (as_walk result)) }
    ensures edits { edits_of ctx.new ≤ edits_of ctx.old + 3 * (level + 1) }
    ensures room { OverNodes ctx.old level page (λ N. PutsWithin level N page ctx.old ctx.new result) }
{
    let (bytes, head) = tree_page(ctx, page, level)?;
    if level == 0 {
        return put_in_leaf(alloc, ctx, page, level, key, value, stands);
    }
    let Some(child) = child_at(bytes, head.a, count_upto(bytes, Some(key))) else {
        return Err(Stop::Broken(page));
    };
    match put_below(alloc, ctx, child, level - 1, key, value, stands)? {
        Put::Split(bound, next) => put_child(alloc, ctx, page, level, bound.as_slice(), next),
        done => Ok(done),
    }
}

/// Puts an entry into a page that hasn't its key, or another value under a key that it has.
fn put_in_leaf(
    alloc: Global,
    ctx: &mut Ctx,
    page: u32,
    level: u8,
    key: &[u8],
    value: &[u8],
    stands: bool,
) -> Result<Put, Stop>
    requires held { is_tree_page level (held_node (page_of ctx.old page)) ≡ true }
    requires key { length key.now ≤ 602 }
    requires both { length key.now + length value.now ≤ 2032 }
    requires spelled { 0 < level → length value.now ≡ 4 }
    ensures given { dropped ctx.new ≡ dropped ctx.old }
    ensures put { PutAt stands ctx.old ctx.new level page (held_node (page_of ctx.old page)) key.now value.now result }
    ensures edits { edits_of ctx.new ≤ edits_of ctx.old + (3 - written ctx.old page) }
    ensures room { TakesAt ctx.old ctx.new (size_of (key.now, value.now)) (held_node (page_of ctx.old page)) result }
{
    if stands {
        replace_at(alloc, ctx, page, level, key, value)
    } else {
        put_at(alloc, ctx, page, level, key, value)
    }
}

/// Puts a child into an inner page, in an entry of at most 610 bytes. Where its bound stands already, the pages are no tree.
pub fn put_child(
    alloc: Global,
    ctx: &mut Ctx,
    page: u32,
    level: u8,
    bound: &[u8],
    child: u32,
) -> Result<Put, Stop>
    requires held { is_tree_page level (held_node (page_of ctx.old page)) ≡ true }
    requires inner { 0 < level }
    requires bound { length bound.now ≤ 602 }
    ensures given { dropped ctx.new ≡ dropped ctx.old }
    ensures put { PutChildAt ctx.old ctx.new level page (held_node (page_of ctx.old page)) bound.now child result }
    ensures edits { edits_of ctx.new ≤ edits_of ctx.old + (3 - written ctx.old page) }
    ensures room { TakesAt ctx.old ctx.new 610 (held_node (page_of ctx.old page)) result }
{
    let mut number = [0; 4];
    put_u32(&mut number, 0, child);
    match put_at(alloc, ctx, page, level, bound, &number)? {
        Put::Kept => Err(Stop::NoMemory),
        done => Ok(done),
    }
}

/// Puts an entry into a page of a level, which is split where it has no room.
fn put_at(
    alloc: Global,
    ctx: &mut Ctx,
    page: u32,
    level: u8,
    key: &[u8],
    value: &[u8],
) -> Result<Put, Stop>
    requires held { is_tree_page level (held_node (page_of ctx.old page)) ≡ true }
    requires key { length key.now ≤ 602 }
    requires both { length key.now + length value.now ≤ 2032 }
    requires spelled { 0 < level → length value.now ≡ 4 }
    ensures given { dropped ctx.new ≡ dropped ctx.old }
    ensures put { PutAt false ctx.old ctx.new level page (held_node (page_of ctx.old page)) key.now value.now result }
    ensures edits { edits_of ctx.new ≤ edits_of ctx.old + (3 - written ctx.old page) }
    ensures room { TakesAt ctx.old ctx.new (size_of (key.now, value.now)) (held_node (page_of ctx.old page)) result }
{
    let Some(bytes) = ctx.page(page) else {
        unreachable!();
    };
    if place(bytes, key).is_ok() {
        return Ok(Put::Kept);
    }
    let mut copy = copied(alloc, bytes)?;
    put_copy(alloc, ctx, page, level, &mut copy, key, value)
}

/// Puts another value under a key of a page of a level, which is split where it has no room.
fn replace_at(
    alloc: Global,
    ctx: &mut Ctx,
    page: u32,
    level: u8,
    key: &[u8],
    value: &[u8],
) -> Result<Put, Stop>
    requires held { is_tree_page level (held_node (page_of ctx.old page)) ≡ true }
    requires key { length key.now ≤ 602 }
    requires both { length key.now + length value.now ≤ 2032 }
    requires spelled { 0 < level → length value.now ≡ 4 }
    ensures given { dropped ctx.new ≡ dropped ctx.old }
    ensures put { PutAt true ctx.old ctx.new level page (held_node (page_of ctx.old page)) key.now value.now result }
    ensures edits { edits_of ctx.new ≤ edits_of ctx.old + (3 - written ctx.old page) }
    ensures room { TakesAt ctx.old ctx.new (size_of (key.now, value.now)) (held_node (page_of ctx.old page)) result }
{
    let Some(bytes) = ctx.page(page) else {
        unreachable!();
    };
    let Ok(i) = place(bytes, key) else {
        return Ok(Put::Kept);
    };
    let mut copy = copied(alloc, bytes)?;
    let copy = copy.as_mut_slice();
    cut(copy, i);
    put_copy(alloc, ctx, page, level, copy, key, value)
}

/// Puts an entry into a copy of a page, which hasn't its key, and stores that, or its halves where it has no room.
fn put_copy(
    alloc: Global,
    ctx: &mut Ctx,
    page: u32,
    level: u8,
    copy: &mut [u8],
    key: &[u8],
    value: &[u8],
) -> Result<Put, Stop>
    requires room { room_of ctx.old page ≡ 4096 }
    requires form { has_form copy.old ≡ true }
    requires level { is_of_level level (node_in copy.old).head ≡ true }
    requires lacks { find key_cmp key.now (node_in copy.old).entries ≡ None }
    requires key { length key.now ≤ 602 }
    requires both { length key.now + length value.now ≤ 2032 }
    requires spelled { 0 < level → length value.now ≡ 4 }
    ensures given { dropped ctx.new ≡ dropped ctx.old }
    ensures put { PutAt false ctx.old ctx.new level page (Some (node_in copy.old)) key.now value.now result }
    ensures edits { edits_of ctx.new ≤ edits_of ctx.old + (3 - written ctx.old page) }
    ensures room { TakesAt ctx.old ctx.new (size_of (key.now, value.now)) (Some (node_in copy.old)) result }
{
    if put_in(copy, key, value) {
        ctx.edit(page, 0, copy)?;
        Ok(Put::Done)
    } else {
        split_copy(alloc, ctx, page, level, copy, key, value)
    }
}

/// Splits a copy of a page over two, with an entry for which it has no room in one of both, and stores them.
fn split_copy(
    alloc: Global,
    ctx: &mut Ctx,
    page: u32,
    level: u8,
    copy: &mut [u8],
    key: &[u8],
    value: &[u8],
) -> Result<Put, Stop>
    requires room { room_of ctx.old page ≡ 4096 }
    requires form { has_form copy.old ≡ true }
    requires level { is_of_level level (node_in copy.old).head ≡ true }
    requires lacks { find key_cmp key.now (node_in copy.old).entries ≡ None }
    requires full { 4072 < (node_in copy.old).head.used + size_of (key.now, value.now) }
    requires key { length key.now ≤ 602 }
    requires both { length key.now + length value.now ≤ 2032 }
    requires spelled { 0 < level → length value.now ≡ 4 }
    ensures given { dropped ctx.new ≡ dropped ctx.old }
    ensures put { PutAt false ctx.old ctx.new level page (Some (node_in copy.old)) key.now value.now result }
    ensures edits { edits_of ctx.new ≤ edits_of ctx.old + (3 - written ctx.old page) }
    ensures room { TakesAt ctx.old ctx.new (size_of (key.now, value.now)) (Some (node_in copy.old)) result }
{
    let mut right = [0; PAGE_LEN];
    clear(&mut right, copy[0], level);
    split(copy, &mut right, key, value);
    match first_bound(alloc, &mut right, level)? {
        None => Err(Stop::Broken(page)),
        Some(bound) => store_halves(ctx, page, copy, &right, bound),
    }
}

/// The least key of the second half. An inner page gives its first entry up, and has its child as the leftmost one.
fn first_bound(alloc: Global, right: &mut [u8], level: u8) -> Result<Option<RecKey>, AllocError>
    requires form { has_form right.old ≡ true }
    requires some { 0 < length (node_in right.old).entries }
    ensures bound { IfOk result (λ found. MatchOption found (LacksBound level (node_in right.old)) (λ bound. GivesBound level (node_in right.old) (node_of right.new) bound)) }
{
    let (key, _) = entry(right, 0);
    if key.len() > MOST_KEY {
        return Ok(None);
    }
    let bound = RecKey::from_vec(key.to_vec(alloc)?);
    if level == 0 {
        return Ok(Some(bound));
    }
    let Some(child) = child_at(right, 0, 1) else {
        return Ok(None);
    };
    cut(right, 0);
    match form(right) {
        Some(head) if head.count > 0 => {
            set_head(right, Head { a: child, ..head });
            Ok(Some(bound))
        }
        _ => Ok(None),
    }
}

fn store_halves(
    ctx: &mut Ctx,
    page: u32,
    left: &[u8],
    right: &[u8],
    bound: RecKey,
) -> Result<Put, Stop>
    requires page { room_of ctx.old page ≡ 4096 }
    requires left { length left.now ≡ 4096 }
    requires right { length right.now ≡ 4096 }
    ensures given { dropped ctx.new ≡ dropped ctx.old }
    ensures stored { IfOk result (StoresHalves ctx.old ctx.new page left.now right.now bound) }
    ensures stops { IfErr result (λ stop. (stop ≡ Stop.NoMemory) ⊎ ((stop ≡ Stop.Fresh) × (free_page ctx.new ≡ None))) }
    ensures edits { edits_of ctx.new ≤ edits_of ctx.old + (3 - written ctx.old page) }
    ensures takes { TakesOne ctx.old ctx.new result }
{
    let Some(next) = ctx.fresh() else {
        return Err(Stop::Fresh);
    };
    write_both(ctx, page, left, next, right)?;
    Ok(Put::Split(bound, next))
}

/// Writes two pages whole.
fn write_both(
    ctx: &mut Ctx,
    first: u32,
    one: &[u8],
    second: u32,
    two: &[u8],
) -> Result<(), AllocError>
    requires apart { first ≢ second }
    requires rooms { (room_of ctx.old first ≡ 4096) × (room_of ctx.old second ≡ 4096) }
    requires long { (length one.now ≡ 4096) × (length two.now ≡ 4096) }
    ensures given { dropped ctx.new ≡ dropped ctx.old }
    ensures written { IfOk result (λ done. ctx.new ≡ with_page second two.now (with_page first one.now ctx.old)) }
    ensures stopped { IfErr result (λ error. (ctx.new ≡ ctx.old) ⊎ (ctx.new ≡ with_page first one.now ctx.old)) }
{
    ctx.edit(first, 0, one)?;
    ctx.edit(second, 0, two)?;
    Ok(())
}

/// Moves the root's content to a fresh page, and makes the root an inner page over that and another one. A tree of the
/// greatest height has more pages than there are.
pub fn grow(
    alloc: Global,
    ctx: &mut Ctx,
    root: u32,
    level: u8,
    bound: &[u8],
    next: u32,
) -> Result<(), Stop>
    requires held { is_tree_page level (held_node (page_of ctx.old root)) ≡ true }
    requires bound { length bound.now ≤ 602 }
    ensures given { dropped ctx.new ≡ dropped ctx.old }
    ensures grows { GrowsAt ctx.old ctx.new root level bound.now next result }
    ensures edits { edits_of ctx.new ≤ edits_of ctx.old + 3 }
    ensures takes { TakesOne ctx.old ctx.new result }
{
    if level >= MOST_LEVEL {
        return Err(Stop::NoMemory);
    }
    let Some(bytes) = ctx.page(root) else {
        unreachable!();
    };
    let content = copied(alloc, bytes)?;
    let Some(first) = ctx.fresh() else {
        return Err(Stop::Fresh);
    };
    let mut top = [0; PAGE_LEN];
    make_top(&mut top, level + 1, first, bound, next);
    write_both(ctx, first, &content, root, &top)?;
    Ok(())
}

/// Makes a page an inner page with two children.
fn make_top(page: &mut [u8], level: u8, first: u32, bound: &[u8], next: u32)
    requires size { length page.old ≡ 4096 }
    requires bound { length bound.now ≤ 602 }
    ensures { IsTop (node_of page.new) level first bound.now next }
{
    clear(page, kind::TREE_INNER, level);
    let head = Head {
        kind: kind::TREE_INNER,
        level,
        count: 0,
        used: 0,
        a: first,
        b: 0,
        c: 0,
    };
    set_head(page, head);
    let mut number = [0; 4];
    put_u32(&mut number, 0, next);
    add(page, 0, bound, &number);
}
