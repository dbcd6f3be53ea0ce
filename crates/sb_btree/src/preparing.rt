//! New trees.

ghost use Rattle.std.specs.Prelude.{◌≡◌, ◌+◌, ◌≤◌};
ghost use Rattle.sb_ctx.specs.View.{dropped, edits_of, page_of};
ghost use Rattle.sb_btree.specs.Broken.{breaks};
ghost use Rattle.sb_btree.specs.Inserts.{MayAsk};
ghost use Rattle.sb_btree.specs.Prepared.{Prepares};
ghost use Rattle.sb_btree.specs.Walks.{Breaks};

use crate::walk::Walk;
use sb_bytes::PAGE_LEN;
use sb_ctx::Ctx;
use sb_node::{clear, kind};

/// Makes the root an empty leaf, whatever its bytes are.
pub fn prepare(ctx: &mut Ctx, root: u32) -> Walk<()>
    ensures given { dropped ctx.new ≡ dropped ctx.old }
    ensures asks { MayAsk ctx.new result }
    ensures broken { Breaks (breaks root (page_of ctx.old)) result }
    ensures edits { edits_of ctx.new ≤ edits_of ctx.old + 1 }
    ensures prepares { Prepares ctx.old ctx.new root result }
{
    let Some(page) = ctx.page(root) else {
        return Walk::Need(root);
    };
    if page.len() != PAGE_LEN {
        return Walk::Broken(root);
    }
    let mut leaf = [0; PAGE_LEN];
    clear(&mut leaf, kind::TREE_LEAF, 0);
    match ctx.edit(root, 0, &leaf) {
        Ok(()) => Walk::Ready(()),
        Err(_) => Walk::NoMemory,
    }
}
