//! Changes: another value for a key, or none.

ghost use Rattle.std.specs.Prelude.{◌≡◌, ◌+◌, ◌*◌, ◌≤◌, length, IfErr, IfOk, IfSome, OnOk, Some, false, option_map};
ghost use Rattle.std.specs.FinMap.Entries.{put};
ghost use Rattle.sb_btree.specs.Broken.{breaks};
ghost use Rattle.sb_btree.specs.Inserts.{MayAsk, OverTrees};
ghost use Rattle.sb_btree.specs.Spending.{AsksWithin};
ghost use Rattle.sb_btree.specs.Walks.{Breaks};
ghost use Rattle.sb_ctx.specs.View.{HoldsPart, dropped, edits_of, page_of, stored};
ghost use Rattle.sb_forms.specs.TreePages.{tree_met};
ghost use Rattle.sb_drive.specs.Slots.{Slots, owned};
ghost use Rattle.sb_drive.specs.Spaces.{IsFullFor, Wanted, WhereFull};
ghost use Rattle.sb_ctx.specs.Costs.{tree_cost};
ghost use Rattle.sb_map.specs.Calls.{IsAsking, IsWithin, Looks, Works};
ghost use Rattle.sb_map.specs.Changes.{IsMade, IsSmall, Makes, OverMaps, RemovesKey, changed, is_change};
ghost use Rattle.sb_map.specs.Maps.{Becomes, OverMap, OverPages, OverTree};
ghost use Rattle.sb_map.specs.Refusals.{HasCause, IsUndamaged};
ghost use Rattle.sb_node.specs.Entries.{key_cmp};

use crate::place::Place;
use crate::turns::turn;
use sb_btree::{Walk, insert, replace};
use sb_ctx::Ctx;
use sb_drive::{PageSpace, SpaceFault};
use std::alloc::Global;

/// Gives a key this value, whether it stands or not.
pub fn put<S: PageSpace>(
    space: &mut S,
    alloc: Global,
    place: Place,
    key: &[u8],
    value: &[u8],
) -> Result<(), SpaceFault>
    requires ready { S.is_ready space.old }
    requires small { IsSmall key.now value.now }
    ensures put { OnOk result (Becomes S.has place space.old space.new (put key_cmp key.now value.now)) }

    // why it is refused
    ensures damaged { IfErr result (λ e. OverPages S.has place space.old (λ P. HasCause place.root P e)) }
    ensures whole { IfErr result (λ e. OverMap S.has place space.old (λ es. IsUndamaged e)) }

    ensures works { Works S.has S.leads S.fails S.durable S.total place (IsAsking place.root) space.old space.new result }
    ensures ready { S.is_ready space.new }
{
    change(space, alloc, place, key, Some(value))?;
    Ok(())
}

/// Takes a key with its value out. False where it doesn't stand.
pub fn remove<S: PageSpace>(
    space: &mut S,
    alloc: Global,
    place: Place,
    key: &[u8],
) -> Result<bool, SpaceFault>
    requires ready { S.is_ready space.old }
    ensures removes { IfOk result (RemovesKey S.has S.leads place key.now space.old space.new) }

    // why it is refused
    ensures damaged { IfErr result (λ e. OverPages S.has place space.old (λ P. HasCause place.root P e)) }
    ensures whole { IfErr result (λ e. OverMap S.has place space.old (λ es. IsUndamaged e)) }

    ensures works { Works S.has S.leads S.fails S.durable S.total place (IsAsking place.root) space.old space.new result }
    ensures ready { S.is_ready space.new }
{
    change(space, alloc, place, key, None)
}

/// Gives a key another value, or none, and stores that. False where nothing is to be changed.
fn change<S: PageSpace>(
    space: &mut S,
    alloc: Global,
    place: Place,
    key: &[u8],
    value: Option<&[u8]>,
) -> Result<bool, SpaceFault>
    requires ready { S.is_ready space.old }
    requires small { IfSome value (λ value. IsSmall key.now value.now) }
    ensures change { IfOk result (λ done. OverMap S.has place space.old
        (λ es. done ≡ is_change key.now (option_map (λ value. value.now) value.entry) es)) }
    ensures none { IfOk result (λ done. done ≡ false → S.leads 0 space.old space.new) }
    ensures becomes { OnOk result (Becomes S.has place space.old space.new (changed key.now (option_map (λ value. value.now) value.entry))) }
    ensures damaged { IfErr result (λ e. OverPages S.has place space.old (λ P. HasCause place.root P e)) }
    ensures whole { IfErr result (λ e. OverMap S.has place space.old (λ es. IsUndamaged e)) }
    ensures works { Works S.has S.leads S.fails S.durable S.total place (IsAsking place.root) space.old space.new result }
    ensures ready { S.is_ready space.new }
{
    let (ctx, done) = make_change(space, alloc, place, key, value)?;
    if !done {
        return Ok(false);
    }
    space.store(alloc, place.owner, &ctx)?;
    Ok(true)
}

/// Makes a change of the pages that a new Ctx is given, and stores nothing.
fn make_change<S: PageSpace>(
    space: &mut S,
    alloc: Global,
    place: Place,
    key: &[u8],
    value: Option<&[u8]>,
) -> Result<(Ctx, bool), SpaceFault>
    requires ready { S.is_ready space.old }
    requires small { IfSome value (λ value. IsSmall key.now value.now) }
    ensures part { IfOk result (λ made. OverPages S.has place space.old (HoldsPart made.0)) }
    ensures made { IfOk result (λ made. OverTree S.has place space.old
        (λ P es. IsMade key.now (option_map (λ value. value.now) value.entry) place.root P es made.0 made.1)) }
    ensures damaged { IfErr result (λ e. OverPages S.has place space.old (λ P. HasCause place.root P e)) }
    ensures full { IfErr result (λ e. (want : Wanted) (s : Slots) → S.has want s space.old
        → WhereFull e (IsFullFor S.leads S.durable S.total place.owner (IsAsking place.root)
        (IsWithin place.root (owned s place.owner)) space.old s e)) }
    ensures looks { Looks S.has S.leads S.fails space.old space.new result }
    ensures ready { S.is_ready space.new }
{
    let mut ctx = Ctx::new(alloc);
    loop {
        ctx.is_ctx();
        let walk = change_walk(alloc, &mut ctx, place.root, key, value);
        if let Some(done) = turn(space, place.owner, &mut ctx, walk)? {
            return Ok((ctx, done));
        }
    }
}

/// A walk that gives a key another value, or none.
fn change_walk(
    alloc: Global,
    ctx: &mut Ctx,
    root: u32,
    key: &[u8],
    value: Option<&[u8]>,
) -> Walk<bool>
    requires clean { dropped ctx.old ≡ ctx.old }
    requires small { IfSome value (λ value. IsSmall key.now value.now) }
    ensures given { dropped ctx.new ≡ dropped ctx.old }
    ensures asks { MayAsk ctx.new result }
    ensures broken { Breaks (breaks root (page_of ctx.old)) result }
    ensures makes { OverMaps ctx.old root
        (λ P es. Makes key.now (option_map (λ value. value.now) value.entry) root P es ctx.new result) }
    ensures edits { OverTrees ctx.old root (λ P es. edits_of ctx.new ≤ edits_of ctx.old + tree_cost (length es)) }
    ensures room { OverTrees ctx.old root (λ P es. AsksWithin (2 * length es) (length (tree_met root (stored ctx.old P))) ctx.old ctx.new result) }
{
    match value {
        Some(value) => put_walk(alloc, ctx, root, key, value),
        None => sb_btree::remove(alloc, ctx, root, key),
    }
}

/// A walk that inserts an entry, or gives its key another value where that stands.
fn put_walk(alloc: Global, ctx: &mut Ctx, root: u32, key: &[u8], value: &[u8]) -> Walk<bool>
    requires clean { dropped ctx.old ≡ ctx.old }
    requires small { IsSmall key.now value.now }
    ensures given { dropped ctx.new ≡ dropped ctx.old }
    ensures asks { MayAsk ctx.new result }
    ensures broken { Breaks (breaks root (page_of ctx.old)) result }
    ensures makes { OverMaps ctx.old root (λ P es. Makes key.now (Some value.now) root P es ctx.new result) }
    ensures edits { OverTrees ctx.old root (λ P es. edits_of ctx.new ≤ edits_of ctx.old + tree_cost (length es)) }
    ensures room { OverTrees ctx.old root (λ P es. AsksWithin (2 * length es) (length (tree_met root (stored ctx.old P))) ctx.old ctx.new result) }
{
    match insert(alloc, ctx, root, key, value) {
        Walk::Ready(false) => {
            ctx.drop_edits();
            replace(alloc, ctx, root, key, value)
        }
        walk => walk,
    }
}
