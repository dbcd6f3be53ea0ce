//! Entries taken out of a tree.

ghost use Rattle.std.specs.Prelude.{◌≡◌, ◌<◌, ◌≤◌, ◌+◌, ◌-◌, ◌*◌, length, true, Some, IsSome, IfOk, IfErr};
ghost use Rattle.sb_ctx.specs.View.{dropped, edits_of, page_of, room_of, stored};
ghost use Rattle.sb_ctx.specs.Costs.{digits};
ghost use Rattle.sb_node.specs.Page.{has_form, node_in};
ghost use Rattle.sb_btree.specs.Broken.{breaks, breaks_below, held_node};
ghost use Rattle.sb_btree.specs.Held.{IsRootPage};
ghost use Rattle.sb_btree.specs.Inserts.{MayAsk, OverPlaces, OverTrees, is_tree_page};
ghost use Rattle.sb_forms.specs.Read.{has};
ghost use Rattle.sb_btree.specs.Removes.{CutsEntry, DropsChild, GivesChild, IsOther, KeepsAbove, LeavesPage, MayBreak, MergesChild, RaisesChild, Removes, TakesAt, TakesChild, TakesContent, TakesEntry, Wrote, is_on_removal_way, removal_way, taker};
ghost use Rattle.sb_btree.specs.Spending.{AsksWithin, MergesWithin, RaisesAt, TakesBeside, TakesWithin, spared, written};
ghost use Rattle.sb_forms.specs.Tree.{IsInner, entries_of};
ghost use Rattle.sb_forms.specs.TreePages.{tree_met};
ghost use Rattle.sb_btree.specs.Walks.{Breaks, Needs, OnTree, OverNodes, as_walk};

use crate::insertion::{MOST_KEY, Put, grow, put_child};
use crate::lookup::copied;
use crate::page::{child_at, count_upto, root_level, tree_page};
use crate::walk::{Stop, Walk, answer};
use sb_bytes::PAGE_LEN;
use sb_ctx::Ctx;
use sb_node::{Head, clear, cut, entry, form, kind, place, set_head};
use sb_value::RecKey;
use std::alloc::Global;

/// What a removal makes of a page. `Lacks`: it hasn't the key, and nothing has changed. `Empty`: it is a leaf with that
/// entry alone, and is as it was. `Single`: it is an inner page that has one child left. `Split`: it is an inner page whose
/// greater keys, from a bound on, are in a fresh page now.
#[derive(Drop)]
enum Taken {
    Lacks,
    Done,
    Empty,
    Single(u32),
    Split(RecKey, u32),
}

/// Takes the entry of a key out of the tree. False where the tree hasn't the key.
///
/// A leaf goes with its last entry, unless it is the root. An inner page needs two children: where only one is left, that
/// one moves to a neighbour, which may have to be split for it, and the page goes. A root takes the place of an only child.
pub fn remove(alloc: Global, ctx: &mut Ctx, root: u32, key: &[u8]) -> Walk<bool>
    ensures given { dropped ctx.new ≡ dropped ctx.old }
    ensures asks { MayAsk ctx.new result }
    ensures broken { Breaks (breaks root (page_of ctx.old)) result }

    // over pages that are a tree
    ensures removes { OverTrees ctx.old root (λ P es. Removes ctx.old ctx.new root key.now P es result) }
    ensures way { OnTree ctx.old root (λ P. Needs (is_on_removal_way root P key.now) result) }

    // what it takes of such pages
    ensures edits { OverTrees ctx.old root (λ P es. edits_of ctx.new < edits_of ctx.old + 5 * digits (length es + 1)) }
    ensures room { OverTrees ctx.old root (λ P es. AsksWithin (2 * length es) (length (tree_met root (stored ctx.old P))) ctx.old ctx.new result) }
{
    match root_level(ctx, root) {
        Ok(level) => answer(remove_at_root(alloc, ctx, root, level, key)),
        Err(stop) => answer(Err(stop)),
    }
}

fn remove_at_root(
    alloc: Global,
    ctx: &mut Ctx,
    root: u32,
    level: u8,
    key: &[u8],
) -> Result<bool, Stop>
    requires root { IsRootPage (page_of ctx.old root) level }
    ensures given { dropped ctx.new ≡ dropped ctx.old }
    ensures asks { MayAsk ctx.new (as_walk result) }
    ensures broken { Breaks (breaks_below level (page_of ctx.old) root) (as_walk result) }
    ensures removes { OverTrees ctx.old root (λ P es. Removes ctx.old ctx.new root key.now P es (as_walk result)) }
    ensures way { OnTree ctx.old root (λ P. Needs (is_on_removal_way root P key.now) (as_walk result)) }
    ensures edits { edits_of ctx.new ≤ edits_of ctx.old + (5 * level + 4) }
    ensures room { OverTrees ctx.old root (λ P es. AsksWithin (2 * length es) (length (tree_met root (stored ctx.old P))) ctx.old ctx.new (as_walk result)) }
{
    match remove_below(alloc, ctx, root, level, key)? {
        Taken::Lacks => Ok(false),
        Taken::Done => Ok(true),
        Taken::Empty => {
            let mut leaf = [0; PAGE_LEN];
            clear(&mut leaf, kind::TREE_LEAF, 0);
            ctx.edit(root, 0, &leaf)?;
            Ok(true)
        }
        Taken::Single(child) => {
            take_content(alloc, ctx, root, child, level - 1)?;
            Ok(true)
        }
        Taken::Split(bound, next) => {
            grow(alloc, ctx, root, level, bound.as_slice(), next)?;
            Ok(true)
        }
    }
}

/// Takes an entry out of the tree of a level at a page.
fn remove_below(
    alloc: Global,
    ctx: &mut Ctx,
    page: u32,
    level: u8,
    key: &[u8],
) -> Result<Taken, Stop>
    ensures given { dropped ctx.new ≡ dropped ctx.old }
    ensures asks { MayAsk ctx.new (as_walk result) }
    ensures broken { Breaks (breaks_below level (page_of ctx.old) page) (as_walk result) }
    ensures higher { IfOk result (λ taken. KeepsAbove ctx.old ctx.new level page) }
    ensures leaves { IfOk result (LeavesPage ctx.new level page) }
    ensures single { IfOk result (MayBreak ctx.old ctx.new level page) }
    ensures takes { OverPlaces ctx.old level page key.now (λ P low high. TakesAt ctx.old ctx.new level page key.now P low high result) }
    ensures way { OverNodes ctx.old level page (λ N. Needs (λ n. has n (removal_way level N key.now page)) (as_walk result)) }
    ensures edits { edits_of ctx.new + spared result ≤ edits_of ctx.old + (5 * level + 1) }
    ensures room { OverNodes ctx.old level page (λ N. TakesWithin level N page ctx.old ctx.new result) }
{
    let (bytes, head) = tree_page(ctx, page, level)?;
    if level == 0 {
        return take_entry(alloc, ctx, page, key);
    }
    let i = count_upto(bytes, Some(key));
    let Some(child) = child_at(bytes, head.a, i) else {
        return Err(Stop::Broken(page));
    };
    match remove_below(alloc, ctx, child, level - 1, key)? {
        Taken::Empty => {
            ctx.free(child)?;
            drop_child(alloc, ctx, page, i, child)
        }
        Taken::Single(left) => merge(alloc, ctx, page, level, i, child, left),
        Taken::Split(bound, next) => raise(alloc, ctx, page, level, bound, next),
        done => Ok(done),
    }
}

/// Takes an entry out of a leaf, unless it is the only one.
fn take_entry(alloc: Global, ctx: &mut Ctx, page: u32, key: &[u8]) -> Result<Taken, Stop>
    requires { is_tree_page 0 (held_node (page_of ctx.old page)) ≡ true }
    ensures given { dropped ctx.new ≡ dropped ctx.old }
    ensures takes { TakesEntry ctx.old ctx.new page (held_node (page_of ctx.old page)) key.now result }
    ensures edits { edits_of ctx.new ≤ edits_of ctx.old + 1 }
{
    let Some(bytes) = ctx.page(page) else {
        unreachable!();
    };
    let Ok(i) = place(bytes, key) else {
        return Ok(Taken::Lacks);
    };
    let mut copy = copied(alloc, bytes)?;
    cut_entry(ctx, page, &mut copy, i)
}

/// Takes the entry at a place out of the copy of a leaf, and stores that where it has others.
fn cut_entry(ctx: &mut Ctx, page: u32, copy: &mut [u8], i: u16) -> Result<Taken, Stop>
    requires same { page_of ctx.old page ≡ Some copy.old }
    requires form { has_form copy.old ≡ true }
    requires within { i < (node_in copy.old).head.count }
    ensures given { dropped ctx.new ≡ dropped ctx.old }
    ensures cuts { CutsEntry ctx.old ctx.new page (node_in copy.old) i result }
    ensures edits { edits_of ctx.new ≤ edits_of ctx.old + 1 }
{
    cut(copy, i);
    let Some(head) = form(copy) else {
        unreachable!();
    };
    if head.count == 0 {
        return Ok(Taken::Empty);
    }
    ctx.edit(page, 0, copy)?;
    Ok(Taken::Done)
}

/// Takes a child, which is at a place, out of an inner page. The page is broken where it has no other.
fn drop_child(alloc: Global, ctx: &mut Ctx, page: u32, i: u16, child: u32) -> Result<Taken, Stop>
    requires held { IsSome (held_node (page_of ctx.old page)) }
    requires within { i ≤ length (entries_of (held_node (page_of ctx.old page))) }
    ensures given { dropped ctx.new ≡ dropped ctx.old }
    ensures drops { DropsChild ctx.old ctx.new page (held_node (page_of ctx.old page)) i result }
    ensures edits { edits_of ctx.new + written ctx.old page ≤ edits_of ctx.old + written ctx.new page }
    ensures other { IfOk result (IsOther child) }
{
    let Some(bytes) = ctx.page(page) else {
        unreachable!();
    };
    let mut copy = copied(alloc, bytes)?;
    cut_child(ctx, page, &mut copy, i, child)
}

/// Takes a child, which is at a place, out of the copy of an inner page, and stores that. A page that has the child twice
/// is no page of a tree.
fn cut_child(ctx: &mut Ctx, page: u32, copy: &mut [u8], i: u16, child: u32) -> Result<Taken, Stop>
    requires same { page_of ctx.old page ≡ Some copy.old }
    requires form { has_form copy.old ≡ true }
    requires within { i ≤ length (node_in copy.old).entries }
    ensures given { dropped ctx.new ≡ dropped ctx.old }
    ensures drops { DropsChild ctx.old ctx.new page (Some (node_in copy.old)) i result }
    ensures edits { edits_of ctx.new + written ctx.old page ≤ edits_of ctx.old + written ctx.new page }
    ensures other { IfOk result (IsOther child) }
{
    let Some(head) = form(copy) else {
        unreachable!();
    };
    if head.count == 0 {
        return Err(Stop::Broken(page));
    }
    let first = if i == 0 { 1 } else { 0 };
    let Some(first) = child_at(copy, head.a, first) else {
        return Err(Stop::Broken(page));
    };
    if first == child {
        return Err(Stop::NoMemory);
    }
    cut(copy, i.saturating_sub(1));
    set_head(copy, Head { a: first, ..head });
    ctx.edit(page, 0, copy)?;
    if head.count == 1 {
        Ok(Taken::Single(first))
    } else {
        Ok(Taken::Done)
    }
}

/// Takes the child at a place out of an inner page. The child's last child goes to the page beside, which may be split.
fn merge(
    alloc: Global,
    ctx: &mut Ctx,
    page: u32,
    level: u8,
    i: u16,
    child: u32,
    left: u32,
) -> Result<Taken, Stop>
    requires held { is_tree_page level (held_node (page_of ctx.old page)) ≡ true }
    requires inner { 1 < level }
    requires within { i ≤ length (entries_of (held_node (page_of ctx.old page))) }
    requires child { is_tree_page (level - 1) (held_node (page_of ctx.old child)) ≡ true }
    ensures given { dropped ctx.new ≡ dropped ctx.old }
    ensures merges { MergesChild ctx.old ctx.new level page (held_node (page_of ctx.old page)) i child left result }
    ensures edits { edits_of ctx.new + spared result ≤ edits_of ctx.old + 7 }
    ensures room { IsInner level (held_node (page_of ctx.old page)) → MergesWithin ctx.old ctx.new (held_node (page_of ctx.old page)) result }
    ensures other { IfOk result (IsOther child) }
{
    let put = give_away(alloc, ctx, page, level, i, child, left)?;
    let taken = drop_child(alloc, ctx, page, i, child)?;
    match put {
        Put::Split(bound, next) => raise(alloc, ctx, page, level, bound, next),
        _ => Ok(taken),
    }
}

/// Gives the last child of a child to the page beside that one, under the bound between both, and the child back.
fn give_away(
    alloc: Global,
    ctx: &mut Ctx,
    page: u32,
    level: u8,
    i: u16,
    child: u32,
    left: u32,
) -> Result<Put, Stop>
    requires held { is_tree_page level (held_node (page_of ctx.old page)) ≡ true }
    requires inner { 1 < level }
    requires within { i ≤ length (entries_of (held_node (page_of ctx.old page))) }
    requires child { is_tree_page (level - 1) (held_node (page_of ctx.old child)) ≡ true }
    ensures given { dropped ctx.new ≡ dropped ctx.old }
    ensures gives { GivesChild ctx.old ctx.new level page (held_node (page_of ctx.old page)) i child left result }
    ensures edits { edits_of ctx.new ≤ edits_of ctx.old + 4 }
    ensures room { TakesBeside ctx.old ctx.new result }
{
    let Some(bytes) = ctx.page(page) else {
        unreachable!();
    };
    let Some(head) = form(bytes) else {
        unreachable!();
    };
    if head.count == 0 {
        return Err(Stop::Broken(page));
    }
    let (bound, _) = entry(bytes, i.saturating_sub(1));
    if bound.len() > MOST_KEY {
        return Err(Stop::Broken(page));
    }
    let bound = RecKey::from_vec(copied(alloc, bound)?);
    let beside = if i == 0 { 1 } else { i - 1 };
    let Some(beside) = child_at(bytes, head.a, beside) else {
        return Err(Stop::Broken(page));
    };
    let put = take_child(
        alloc,
        ctx,
        beside,
        level - 1,
        bound.as_slice(),
        left,
        i == 0,
    )?;
    ctx.free(child)?;
    Ok(put)
}

/// Puts a child into an inner page, behind all that it has or before them.
fn take_child(
    alloc: Global,
    ctx: &mut Ctx,
    page: u32,
    level: u8,
    bound: &[u8],
    child: u32,
    in_front: bool,
) -> Result<Put, Stop>
    requires inner { 0 < level }
    requires bound { length bound.now ≤ 602 }
    ensures given { dropped ctx.new ≡ dropped ctx.old }
    ensures takes { TakesChild ctx.old ctx.new level page (held_node (page_of ctx.old page)) bound.now child in_front result }
    ensures edits { edits_of ctx.new ≤ edits_of ctx.old + 3 }
    ensures room { TakesBeside ctx.old ctx.new result }
{
    let (bytes, head) = tree_page(ctx, page, level)?;
    if !in_front {
        return put_child(alloc, ctx, page, level, bound, child);
    }
    let mut copy = copied(alloc, bytes)?;
    set_first(ctx, page, &mut copy, child)?;
    put_child(alloc, ctx, page, level, bound, head.a)
}

/// Makes a child the leftmost one of the copy of an inner page, and stores that.
fn set_first(ctx: &mut Ctx, page: u32, copy: &mut [u8], child: u32) -> Result<(), Stop>
    requires same { page_of ctx.old page ≡ Some copy.old }
    requires form { has_form copy.old ≡ true }
    ensures given { dropped ctx.new ≡ dropped ctx.old }
    ensures set { IfOk result (λ done. Wrote ctx.old ctx.new page (taker true child (node_in copy.old))) }
    ensures edits { edits_of ctx.new + written ctx.old page ≤ edits_of ctx.old + written ctx.new page }
    ensures stops { IfErr result (λ stop. stop ≡ Stop.NoMemory) }
{
    let Some(head) = form(copy) else {
        unreachable!();
    };
    set_head(copy, Head { a: child, ..head });
    ctx.edit(page, 0, copy)?;
    Ok(())
}

/// Puts the second half of a child into the page above.
fn raise(
    alloc: Global,
    ctx: &mut Ctx,
    page: u32,
    level: u8,
    bound: RecKey,
    next: u32,
) -> Result<Taken, Stop>
    requires held { is_tree_page level (held_node (page_of ctx.old page)) ≡ true }
    requires inner { 0 < level }
    requires bound { length bound ≤ 602 }
    ensures given { dropped ctx.new ≡ dropped ctx.old }
    ensures raises { RaisesChild ctx.old ctx.new level page (held_node (page_of ctx.old page)) bound next result }
    ensures edits { edits_of ctx.new ≤ edits_of ctx.old + (3 - written ctx.old page) }
    ensures room { RaisesAt ctx.old ctx.new (held_node (page_of ctx.old page)) result }
{
    match put_child(alloc, ctx, page, level, bound.as_slice(), next)? {
        Put::Split(bound, next) => Ok(Taken::Split(bound, next)),
        _ => Ok(Taken::Done),
    }
}

/// The root takes the content of its only child, which is given back.
fn take_content(alloc: Global, ctx: &mut Ctx, root: u32, only: u32, level: u8) -> Result<(), Stop>
    requires { room_of ctx.old root ≡ 4096 }
    ensures given { dropped ctx.new ≡ dropped ctx.old }
    ensures takes { TakesContent ctx.old ctx.new root only level result }
    ensures edits { edits_of ctx.new ≤ edits_of ctx.old + 2 }
{
    let (bytes, _) = tree_page(ctx, only, level)?;
    let content = copied(alloc, bytes)?;
    ctx.edit(root, 0, &content)?;
    ctx.free(only)?;
    Ok(())
}
