//! A tree of entry pages, read whole out of the pages that a Ctx holds.

ghost use Rattle.std.specs.Prelude.{◌≡◌, ◌∷◌, [], ◌≤◌, ◌↔◌, IfOk, IfSome, IsSome, MatchOption, None, Some, ◌&&◌, cond, length, map, nat_eq, nat_lt, option_map, true};
ghost use Rattle.sb_node.specs.Entries.{is_below};
ghost use Rattle.sb_node.specs.Page.{has_form, node_in};
ghost use Rattle.sb_node.specs.Walk.{entry_read};
ghost use Rattle.sb_forms.specs.Read.{all_by, goes_to, is_apart, is_full, is_leaf, is_small, is_under, is_within, read_tree};
ghost use Rattle.sb_forms.specs.Tree.{IsRoot, next_low};
ghost use Rattle.sb_forms.specs.TreePages.{tree_met};
ghost use Rattle.sb_method_tests.specs.Checker.{IsNodeAt, child_read, entries_in, found_in, held_nodes, held_pages};
ghost use Rattle.sb_method_tests.specs.Found.{HasChildren, IsRootLevel, child_found, children_found, is_child, root_found, tree_found};

use sb_bytes::get_u32;
use sb_ctx::Ctx;
use sb_node::{Entries, Head, form, kind};
use std::alloc::{AllocError, Global};

/// The level of a root at most.
const MOST_LEVEL: u8 = 16;

/// The bytes that a key has at most.
const MOST_KEY: usize = 602;

/// The bytes that a key has at most with its value.
const MOST_ENTRY: usize = 2032;

/// The entries of a tree, rising, as pairs of key and value, and the pages that it meets.
#[derive(Drop)]
pub struct Tree<'a> {
    pub entries: Vec<(&'a [u8], &'a [u8])>,
    pub pages: Vec<u32>,
}

/// The tree at a root, where the pages that are held are one. None where they aren't: a page of the tree isn't held or has
/// another form, a key is out of its bounds, or a page is met twice. Pages that are met from several others are gone over
/// as often.
pub fn held_tree<'a>(alloc: Global, ctx: &'a Ctx, root: u32) -> Result<Option<Tree<'a>>, AllocError>
    ensures entries { IfOk result (λ tree. option_map entries_in tree ≡ read_tree root (held_pages ctx.now)) }
    ensures pages { IfOk result (λ tree. IfSome tree (λ tree. tree.pages.items ≡ tree_met root (held_pages ctx.now))) }
    ensures exactly { IfOk result (λ tree. IsSome tree ↔ IsRoot (held_nodes ctx.now) root) }
{
    tree_at_root(alloc, ctx, root)
}

fn tree_at_root<'a>(alloc: Global, ctx: &'a Ctx, root: u32) -> Result<Option<Tree<'a>>, AllocError>
    ensures { IfOk result (λ tree. option_map found_in tree ≡ root_found root (held_pages ctx.now)) }
{
    let Some(level) = root_level(ctx, root) else {
        return Ok(None);
    };
    let Some(tree) = tree_below(alloc, ctx, root, level)? else {
        return Ok(None);
    };
    if is_apart(&tree.pages) {
        Ok(Some(tree))
    } else {
        Ok(None)
    }
}

/// The level of a root, where that is one that a root may have.
fn root_level(ctx: &Ctx, root: u32) -> Option<u8>
    ensures { IsRootLevel (held_nodes ctx.now root) result }
{
    match node_at(ctx, root) {
        Some((_, head)) if head.level <= MOST_LEVEL => Some(head.level),
        _ => None,
    }
}

/// The tree of a level at a page.
#[cycle(tree)]
fn tree_below<'a>(
    alloc: Global,
    ctx: &'a Ctx,
    page: u32,
    level: u8,
) -> Result<Option<Tree<'a>>, AllocError>
    ensures { IfOk result (λ tree. option_map found_in tree ≡ tree_found level (held_nodes ctx.now) page) }
{
    let Some((bytes, head)) = node_at(ctx, page) else {
        return Ok(None);
    };
    if level == 0 {
        return leaf_of(alloc, page, bytes, head);
    }
    let Some(children) = children_on(alloc, bytes, head, level)? else {
        return Ok(None);
    };
    let Some(mut tree) = children_below(alloc, ctx, &children, level - 1)? else {
        return Ok(None);
    };
    tree.pages.insert(0, page)?;
    Ok(Some(tree))
}

/// The trees of neighbours, each a child of a level with its bound, as one.
#[cycle(tree)]
fn children_below<'a>(
    alloc: Global,
    ctx: &'a Ctx,
    children: &[(&'a [u8], u32)],
    level: u8,
) -> Result<Option<Tree<'a>>, AllocError>
    requires { length children.now ≤ 65536 }
    ensures { IfOk result (λ tree. option_map found_in tree ≡ children_found level (held_nodes ctx.now) (map child_read children.now)) }
{
    let Some((child, later)) = children.split_first() else {
        return Ok(Some(Tree {
            entries: Vec::new(alloc),
            pages: Vec::new(alloc),
        }));
    };
    let Some(mut tree) = child_below(alloc, ctx, *child, next_bound(later), level)? else {
        return Ok(None);
    };
    let Some(mut others) = children_below(alloc, ctx, later, level)? else {
        return Ok(None);
    };
    tree.entries.append(&mut others.entries)?;
    tree.pages.append(&mut others.pages)?;
    Ok(Some(tree))
}

/// The tree of a child, whose keys are to lie between its bound and the next one.
#[cycle(tree)]
fn child_below<'a>(
    alloc: Global,
    ctx: &'a Ctx,
    child: (&'a [u8], u32),
    high: Option<&[u8]>,
    level: u8,
) -> Result<Option<Tree<'a>>, AllocError>
    ensures { IfOk result (λ tree. option_map found_in tree ≡ child_found level (held_nodes ctx.now) (child_read child.entry) (option_map (λ key. key.now) high.entry)) }
{
    let Some(tree) = tree_below(alloc, ctx, child.1, level)? else {
        return Ok(None);
    };
    if is_child(ctx, child, high, &tree.entries) {
        Ok(Some(tree))
    } else {
        Ok(None)
    }
}

/// Whether a child's page has an entry, and its keys lie between its bound and the next one.
fn is_child(ctx: &Ctx, child: (&[u8], u32), high: Option<&[u8]>, entries: &[(&[u8], &[u8])]) -> bool
    ensures { result ≡ is_child (held_nodes ctx.now) (child_read child.entry) (option_map (λ key. key.now) high.entry) (map entry_read entries.now) }
{
    is_full(ctx, child.1) && are_within(child.0, high, entries) && goes_to(child.0, high)
}

/// The bytes and the head of a page that is held and is an entry page.
fn node_at(ctx: &Ctx, page: u32) -> Option<(&[u8], Head)>
    ensures { MatchOption result (held_nodes ctx.now page ≡ None) (λ found. IsNodeAt ctx.now page found.0.now found.1) }
{
    let Some(bytes) = ctx.page(page) else {
        return None;
    };
    match form(bytes) {
        Some(head) => Some((bytes, head)),
        None => None,
    }
}

/// Whether a page has an entry.
fn is_full(ctx: &Ctx, page: u32) -> bool
    ensures { result ≡ is_full (held_nodes ctx.now) page }
{
    match node_at(ctx, page) {
        Some((_, head)) => head.count > 0,
        None => false,
    }
}

/// The entries of a page.
fn entries_on<'a>(alloc: Global, bytes: &'a [u8]) -> Result<Vec<(&'a [u8], &'a [u8])>, AllocError>
    requires { has_form bytes.now ≡ true }
    ensures { IfOk result (λ entries. map entry_read entries.items ≡ (node_in bytes.now).entries) }
{
    Entries::new(bytes).collect(alloc)
}

/// A tree of one page, where that is a leaf.
fn leaf_of<'a>(
    alloc: Global,
    page: u32,
    bytes: &'a [u8],
    head: Head,
) -> Result<Option<Tree<'a>>, AllocError>
    requires form { has_form bytes.now ≡ true }
    requires head { head ≡ (node_in bytes.now).head }
    ensures { IfOk result (λ tree. option_map found_in tree ≡ cond (is_leaf (Some (node_in bytes.now))) (Some ((node_in bytes.now).entries, page ∷ [])) None) }
{
    if !is_leaf_head(head) {
        return Ok(None);
    }
    let entries = entries_on(alloc, bytes)?;
    if !are_small(&entries) {
        return Ok(None);
    }
    Ok(Some(Tree {
        entries,
        pages: vec![in alloc; page]?,
    }))
}

fn is_leaf_head(head: Head) -> bool
    ensures { result ≡ (nat_eq head.kind 2 && nat_eq head.level 0) }
{
    head.kind == kind::TREE_LEAF && head.level == 0
}

fn are_small(entries: &[(&[u8], &[u8])]) -> bool
    ensures { result ≡ all_by is_small (map entry_read entries.now) }
{
    entries.iter().all(|entry| is_small(entry.0, entry.1))
}

fn is_small(key: &[u8], value: &[u8]) -> bool
    ensures { result ≡ is_small (key.now, value.now) }
{
    key.len() <= MOST_KEY && value.len() <= MOST_ENTRY - key.len()
}

/// The children of an inner page of a level, each with the least key allowed in it, where the page is one and has an entry.
fn children_on<'a>(
    alloc: Global,
    bytes: &'a [u8],
    head: Head,
    level: u8,
) -> Result<Option<Vec<(&'a [u8], u32)>>, AllocError>
    requires form { has_form bytes.now ≡ true }
    requires head { head ≡ (node_in bytes.now).head }
    ensures { IfOk result (λ children. HasChildren level (node_in bytes.now) (option_map (λ all. map child_read all.items) children)) }
{
    if !is_inner_head(head, level) {
        return Ok(None);
    }
    let mut children = Vec::new(alloc);
    children.push((b"".as_slice(), head.a))?;
    for (key, value) in Entries::new(bytes) {
        if value.len() != 4 || key.len() > MOST_KEY {
            return Ok(None);
        }
        children.push((key, get_u32(value, 0)))?;
    }
    Ok(Some(children))
}

/// Whether a head is that of an inner page of a level with an entry.
fn is_inner_head(head: Head, level: u8) -> bool
    ensures { result ≡ ((nat_eq head.kind 3 && nat_eq head.level level) && nat_lt 0 head.count) }
{
    head.kind == kind::TREE_INNER && head.level == level && head.count > 0
}

/// The bound of the first of these children.
fn next_bound<'a>(children: &[(&'a [u8], u32)]) -> Option<&'a [u8]>
    ensures { option_map (λ key. key.now) result ≡ next_low None (map child_read children.now) }
{
    match children.split_first() {
        Some((child, _)) => Some(child.0),
        None => None,
    }
}

/// Whether all keys lie between two bounds.
fn are_within(low: &[u8], high: Option<&[u8]>, entries: &[(&[u8], &[u8])]) -> bool
    ensures { result ≡ is_within low.now (option_map (λ key. key.now) high.entry) (map entry_read entries.now) }
{
    entries
        .iter()
        .all(|entry| !is_below(entry.0, low) && is_under(high, entry.0))
}

fn is_under(high: Option<&[u8]>, key: &[u8]) -> bool
    ensures { result ≡ is_under (option_map (λ key. key.now) high.entry) key.now }
{
    match high {
        None => true,
        Some(high) => is_below(key, high),
    }
}

/// Whether a bound isn't above the next one.
fn goes_to(low: &[u8], high: Option<&[u8]>) -> bool
    ensures { result ≡ goes_to low.now (option_map (λ key. key.now) high.entry) }
{
    match high {
        None => true,
        Some(high) => !is_below(high, low),
    }
}

#[tactic(auto, unfolding(sb_node::specs::Entries::is_below))]
fn is_below(x: &[u8], y: &[u8]) -> bool
    ensures { result ≡ is_below x.now y.now }
{
    x.cmp(&y).is_lt()
}

/// Whether no number stands twice.
fn is_apart(pages: &[u32]) -> bool
    ensures { result ≡ is_apart pages.now }
{
    let mut rest = pages;
    while let Some((page, others)) = rest.split_first() {
        if others.contains(page) {
            return false;
        }
        rest = others;
    }
    true
}
