//! Look-ups: the value of a key, and the entry behind a key.

ghost use Rattle.std.specs.Prelude.{◌≡◌, IfOk, option_map, true, Some};
ghost use Rattle.std.specs.List.{find as first};
ghost use Rattle.sb_node.specs.Page.{has_form, node_in};
ghost use Rattle.sb_ctx.specs.View.{page_of};
ghost use Rattle.sb_btree.specs.Broken.{breaks, breaks_below};
ghost use Rattle.sb_btree.specs.Leaves.{Finds, IsInLeaf, entry_at, entry_in, in_leaf, leads_below, leads_to};
ghost use Rattle.sb_forms.specs.Read.{has};
ghost use Rattle.sb_forms.specs.Tree.{items};
ghost use Rattle.sb_btree.specs.Walks.{AsksFor, Breaks, Gives, Leads, Needs, OnTree, OverNodes, OverTree, as_walk};
ghost use Rattle.sb_btree.specs.Ways.{is_behind, is_on_next_ways, is_on_way, next_ways, way};

use crate::page::{child_at, count_upto, root_level, tree_page};
use crate::walk::{Stop, Walk, answer};
use sb_ctx::Ctx;
use sb_node::{entry, place};
use sb_value::{Bytes, RecKey};
use std::alloc::{AllocError, Global};

/// An entry, and the page of the leaf that has it.
#[derive(Drop)]
pub struct LeafEntry {
    pub leaf: u32,
    pub key: RecKey,
    pub value: Bytes,
}

/// The entry of a key.
pub fn find(alloc: Global, ctx: &Ctx, root: u32, key: &[u8]) -> Walk<Option<LeafEntry>>
    ensures asks { AsksFor ctx.now result }
    ensures broken { Breaks (breaks root (page_of ctx.now)) result }
    ensures stands { Finds (IsInLeaf (leads_to root (page_of ctx.now)) (page_of ctx.now)) result }

    // over pages that are a tree
    ensures gives { OverTree ctx.now root (λ es. Gives (λ found. option_map entry_in found ≡ entry_at key.now es) result) }
    ensures way { OnTree ctx.now root (λ P. Needs (is_on_way root P (Some key.now)) result) }
{
    match root_level(ctx, root) {
        Ok(level) => answer(find_below(alloc, ctx, root, level, key)),
        Err(stop) => answer(Err(stop)),
    }
}

/// The first entry whose key is above a key, or the first of all.
pub fn next(alloc: Global, ctx: &Ctx, root: u32, after: Option<&[u8]>) -> Walk<Option<LeafEntry>>
    ensures asks { AsksFor ctx.now result }
    ensures broken { Breaks (breaks root (page_of ctx.now)) result }
    ensures stands { Finds (IsInLeaf (leads_to root (page_of ctx.now)) (page_of ctx.now)) result }

    // over pages that are a tree
    ensures gives { OverTree ctx.now root (λ es. Gives (λ next. option_map entry_in next ≡ first (is_behind (option_map (λ key. key.now) after.entry)) es) result) }
    ensures way { OnTree ctx.now root (λ P. Needs (is_on_next_ways root P (option_map (λ key. key.now) after.entry)) result) }
{
    match root_level(ctx, root) {
        Ok(level) => answer(next_below(alloc, ctx, root, level, after)),
        Err(stop) => answer(Err(stop)),
    }
}

fn find_below(
    alloc: Global,
    ctx: &Ctx,
    page: u32,
    level: u8,
    key: &[u8],
) -> Result<Option<LeafEntry>, Stop>
    ensures asks { AsksFor ctx.now (as_walk result) }
    ensures broken { Breaks (breaks_below level (page_of ctx.now) page) (as_walk result) }
    ensures stands { Finds (IsInLeaf (leads_below level (page_of ctx.now) page) (page_of ctx.now)) (as_walk result) }
    ensures leads { OverNodes ctx.now level page (λ N. Leads (λ found. option_map entry_in found ≡ entry_at key.now (items level N page)) (λ n. has n (way level N (Some key.now) page)) (as_walk result)) }
{
    let (bytes, head) = tree_page(ctx, page, level)?;
    if level == 0 {
        return Ok(leaf_value(alloc, page, bytes, key)?);
    }
    match child_at(bytes, head.a, count_upto(bytes, Some(key))) {
        None => Err(Stop::Broken(page)),
        Some(child) => find_below(alloc, ctx, child, level - 1, key),
    }
}

fn next_below(
    alloc: Global,
    ctx: &Ctx,
    page: u32,
    level: u8,
    after: Option<&[u8]>,
) -> Result<Option<LeafEntry>, Stop>
    ensures asks { AsksFor ctx.now (as_walk result) }
    ensures broken { Breaks (breaks_below level (page_of ctx.now) page) (as_walk result) }
    ensures stands { Finds (IsInLeaf (leads_below level (page_of ctx.now) page) (page_of ctx.now)) (as_walk result) }
    ensures leads { OverNodes ctx.now level page (λ N. Leads (λ next. option_map entry_in next ≡ first (is_behind (option_map (λ key. key.now) after.entry)) (items level N page)) (λ n. has n (next_ways level N (option_map (λ key. key.now) after.entry) page)) (as_walk result)) }
{
    let (bytes, head) = tree_page(ctx, page, level)?;
    if level == 0 {
        return Ok(leaf_next(alloc, page, bytes, head.count, after)?);
    }
    let i = count_upto(bytes, after);
    let Some(child) = child_at(bytes, head.a, i) else {
        return Err(Stop::Broken(page));
    };
    let found = next_below(alloc, ctx, child, level - 1, after)?;
    if found.is_some() || i == head.count {
        return Ok(found);
    }
    let Some(child) = child_at(bytes, head.a, i + 1) else {
        return Err(Stop::Broken(page));
    };
    next_below(alloc, ctx, child, level - 1, None)
}

fn leaf_value(
    alloc: Global,
    leaf: u32,
    page: &[u8],
    key: &[u8],
) -> Result<Option<LeafEntry>, AllocError>
    requires { has_form page.now ≡ true }
    ensures { IfOk result (λ found. found ≡ option_map (in_leaf leaf) (entry_at key.now (node_in page.now).entries)) }
{
    let Ok(i) = place(page, key) else {
        return Ok(None);
    };
    let (_, value) = entry(page, i);
    let key = RecKey::from_vec(copied(alloc, key)?);
    let value = Bytes::from_vec(copied(alloc, value)?);
    Ok(Some(LeafEntry { leaf, key, value }))
}

fn leaf_next(
    alloc: Global,
    leaf: u32,
    page: &[u8],
    count: u16,
    after: Option<&[u8]>,
) -> Result<Option<LeafEntry>, AllocError>
    requires form { has_form page.now ≡ true }
    requires count { count ≡ (node_in page.now).head.count }
    ensures { IfOk result (λ next. next ≡ option_map (in_leaf leaf) (first (is_behind (option_map (λ key. key.now) after.entry)) (node_in page.now).entries)) }
{
    let i = count_upto(page, after);
    if i == count {
        return Ok(None);
    }
    let (key, value) = entry(page, i);
    let key = RecKey::from_vec(copied(alloc, key)?);
    let value = Bytes::from_vec(copied(alloc, value)?);
    Ok(Some(LeafEntry { leaf, key, value }))
}

/// A copy of bytes.
pub fn copied(alloc: Global, bytes: &[u8]) -> Result<Vec<u8>, AllocError>
    ensures { IfOk result (λ copy. copy.items ≡ bytes.now) }
{
    bytes.to_vec(alloc)
}
