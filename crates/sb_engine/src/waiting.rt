//! The entries that wait for the commit, each tested once.

ghost use Rattle.std.specs.Prelude.{◌≡◌, false, List, Some, All, IfOk, IfErr};
ghost use Rattle.std.specs.List.{slice_get};
ghost use Rattle.sb_relation.specs.Rules.{entry_fails};
ghost use Rattle.sb_deferred.specs.CompleteLaws.{NoEntryFails};
ghost use Rattle.sb_fold.specs.Outcome.{Entry};
ghost use Rattle.sb_registry.specs.Runs.{IsSound, Looks};
ghost use Rattle.sb_standing.specs.Tables.{db_of};
ghost use Rattle.sb_asking.specs.Opened.{IsOpen};
ghost use Rattle.sb_engine.specs.Failing.{FailsNowhere, OfAttached, OverKept};
ghost use Rattle.sb_engine.specs.Working.{IsOpened};

use crate::late::{attached_at, entry_fails};
use sb_asking::{OpenRelation, Place, open_relation};
use sb_deferred::Queue;
use sb_drive::{PageSpace, SpaceFault};
use sb_registry::Boxes;
use sb_value::{Bytes, Str};
use std::alloc::Global;

/// Whether some entry that waits is vetoed.
pub(crate) fn some_entry_fails<S: PageSpace, B: Boxes>(
    space: &mut S,
    alloc: Global,
    boxes: &B,
    place: Place,
    queue: &Queue,
) -> Result<bool, SpaceFault>
    requires ready { S.is_ready space.old }
    requires owner { place.owner ≡ 2 }

    ensures none { IfOk result (λ fails. OverKept S.has (B.meanings boxes.now) place.root space.old (λ kept.
        fails ≡ false → NoEntryFails (db_of kept) queue.now)) }
    ensures undamaged { IfErr result (λ e. OverKept S.has (B.meanings boxes.now) place.root space.old (λ kept. IsSound e)) }
    ensures looks { Looks S.has S.leads S.fails space.old space.new result }
    ensures ready { S.is_ready space.new }
{
    for i in 0..queue.checks() {
        if waiting_fails(space, alloc, boxes, place, queue, i)? {
            return Ok(true);
        }
    }
    Ok(false)
}

/// Whether the entry that came as the i-th is vetoed by an attachment of its name.
fn waiting_fails<S: PageSpace, B: Boxes>(
    space: &mut S,
    alloc: Global,
    boxes: &B,
    place: Place,
    queue: &Queue,
    i: usize,
) -> Result<bool, SpaceFault>
    requires ready { S.is_ready space.old }
    requires owner { place.owner ≡ 2 }

    ensures none { IfOk result (λ fails. OverKept S.has (B.meanings boxes.now) place.root space.old (λ kept.
        fails ≡ false → (e : Entry) → slice_get queue.now.entries i ≡ Some e → FailsNowhere (db_of kept) e)) }
    ensures undamaged { IfErr result (λ e. OverKept S.has (B.meanings boxes.now) place.root space.old (λ kept. IsSound e)) }
    ensures looks { Looks S.has S.leads S.fails space.old space.new result }
    ensures ready { S.is_ready space.new }
{
    let Some((relation, name, entry)) = queue.check(i as u64) else {
        return Ok(false);
    };
    let Some(one) = open_relation(space, alloc, boxes, place, relation)? else {
        return Ok(false);
    };
    named_fails(space, alloc, boxes, place, &one, name, entry)
}

/// Whether an entry is vetoed by an attachment of this name of an open relation.
fn named_fails<S: PageSpace, B: Boxes>(
    space: &mut S,
    alloc: Global,
    boxes: &B,
    place: Place,
    one: &OpenRelation,
    name: &Str,
    entry: &Bytes,
) -> Result<bool, SpaceFault>
    requires ready { S.is_ready space.old }
    requires owner { place.owner ≡ 2 }
    requires is_open { IsOpen (B.meanings boxes.now) one.now }

    ensures none { IfOk result (λ fails. OverKept S.has (B.meanings boxes.now) place.root space.old (λ kept.
        fails ≡ false → (is : IsOpened (B.meanings boxes.now) kept one.now)
        → All (λ a. a.name ≡ name.now → entry_fails (db_of kept) one.now.name a.rule entry.now ≡ false) is.one.relation.attachments)) }
    ensures undamaged { IfErr result (λ e. OverKept S.has (B.meanings boxes.now) place.root space.old (λ kept.
        IsOpened (B.meanings boxes.now) kept one.now → IsSound e)) }
    ensures looks { Looks S.has S.leads S.fails space.old space.new result }
    ensures ready { S.is_ready space.new }
{
    for i in 0..one.rules.len() {
        if placed_fails(space, alloc, boxes, place, one, i, name, entry)? {
            return Ok(true);
        }
    }
    Ok(false)
}

/// The same of the attachment in this place, if it has the name.
fn placed_fails<S: PageSpace, B: Boxes>(
    space: &mut S,
    alloc: Global,
    boxes: &B,
    place: Place,
    one: &OpenRelation,
    i: usize,
    name: &Str,
    entry: &Bytes,
) -> Result<bool, SpaceFault>
    requires ready { S.is_ready space.old }
    requires owner { place.owner ≡ 2 }
    requires is_open { IsOpen (B.meanings boxes.now) one.now }

    ensures none { IfOk result (λ fails. OverKept S.has (B.meanings boxes.now) place.root space.old (λ kept.
        fails ≡ false → OfAttached (B.meanings boxes.now) kept one.now i
        (λ a. a.name ≡ name.now → entry_fails (db_of kept) one.now.name a.rule entry.now ≡ false))) }
    ensures undamaged { IfErr result (λ e. OverKept S.has (B.meanings boxes.now) place.root space.old (λ kept.
        IsOpened (B.meanings boxes.now) kept one.now → IsSound e)) }
    ensures looks { Looks S.has S.leads S.fails space.old space.new result }
    ensures ready { S.is_ready space.new }
{
    let Some(attached) = attached_at(one, i) else {
        return Ok(false);
    };
    if attached.name == *name {
        return entry_fails(space, alloc, boxes, place, one, i, entry);
    }
    Ok(false)
}
