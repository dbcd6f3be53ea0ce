//! Held pages that are to be pages of a tree.

ghost use Rattle.std.specs.Prelude.{◌≡◌, ◌≤◌, MatchOption, IfOk, IfErr, option_map, false, true};
ghost use Rattle.sb_node.specs.Page.{has_form, node_in};
ghost use Rattle.sb_ctx.specs.View.{page_of};
ghost use Rattle.sb_btree.specs.Broken.{is_amiss, is_no_root, is_of_level, is_unlike};
ghost use Rattle.sb_btree.specs.Held.{IsRootPage, IsTreePage, Lacks, nth_child, passed};
ghost use Rattle.sb_forms.specs.Read.{all_by, is_bound};

use crate::walk::Stop;
use sb_bytes::get_u32;
use sb_ctx::Ctx;
use sb_node::{Head, entry, form, kind, place};

/// The level of a root at most.
pub const MOST_LEVEL: u8 = 16;

/// The level of the page at the root.
pub fn root_level(ctx: &Ctx, root: u32) -> Result<u8, Stop>
    ensures ok { IfOk result (IsRootPage (page_of ctx.now root)) }
    ensures stops { IfErr result (Lacks (page_of ctx.now root) (is_no_root (page_of ctx.now root)) root) }
{
    let Some(page) = ctx.page(root) else {
        return Err(Stop::Need(root));
    };
    match form(page) {
        Some(head) if head.level <= MOST_LEVEL => Ok(head.level),
        _ => Err(Stop::Broken(root)),
    }
}

/// A page on a way down, which should be one of a level, and its head.
pub fn tree_page(ctx: &Ctx, page: u32, level: u8) -> Result<(&[u8], Head), Stop>
    ensures ok { IfOk result (λ found. IsTreePage (page_of ctx.now page) level found.0.now found.1) }
    ensures stops { IfErr result (Lacks (page_of ctx.now page) (is_amiss level (page_of ctx.now page)) page) }
    ensures unlike { IfErr result (Lacks (page_of ctx.now page) (is_unlike level (page_of ctx.now page)) page) }
{
    let Some(bytes) = ctx.page(page) else {
        return Err(Stop::Need(page));
    };
    match form(bytes) {
        Some(head) if has_level(head, level) => Ok((bytes, head)),
        _ => Err(Stop::Broken(page)),
    }
}

fn has_level(head: Head, level: u8) -> bool
    ensures { result ≡ is_of_level level head }
{
    let wanted = if level == 0 {
        kind::TREE_LEAF
    } else {
        kind::TREE_INNER
    };
    head.kind == wanted && head.level == level
}

/// How many entries at the front have keys that aren't above this one.
pub fn count_upto(page: &[u8], key: Option<&[u8]>) -> u16
    requires { has_form page.now ≡ true }
    ensures passed { result ≡ passed (option_map (λ key. key.now) key.entry) (node_in page.now).entries }
    ensures within { result ≤ (node_in page.now).head.count }
{
    let Some(key) = key else {
        return 0;
    };
    match place(page, key) {
        Ok(i) => i + 1,
        Err(i) => i,
    }
}

/// The child at a place, of the leftmost one and those of the entries. None where the entry isn't spelled so.
pub fn child_at(page: &[u8], first: u32, i: u16) -> Option<u32>
    requires form { has_form page.now ≡ true }
    requires within { i ≤ (node_in page.now).head.count }
    ensures { MatchOption result (all_by is_bound (node_in page.now).entries ≡ false) (λ child. child ≡ nth_child first (node_in page.now).entries i) }
{
    if i == 0 {
        return Some(first);
    }
    let (_, value) = entry(page, i - 1);
    if value.len() == 4 {
        Some(get_u32(value, 0))
    } else {
        None
    }
}
