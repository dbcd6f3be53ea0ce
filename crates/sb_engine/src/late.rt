//! An attachment, tested by an entry that waits. What is made for a call goes by a call of `drop`.

ghost use Rattle.std.specs.Prelude.{◌≡◌, List, IfOk, IfErr, option_copied};
ghost use Rattle.std.specs.List.{slice_get};
ghost use Rattle.sb_registry.specs.Runs.{IsSound, Looks};
ghost use Rattle.sb_standing.specs.Tables.{db_of};
ghost use Rattle.sb_asking.specs.Opened.{IsOpen};
ghost use Rattle.sb_engine.specs.Failing.{OfAttached, OverKept, Tells, is_veto};
ghost use Rattle.sb_engine.specs.Working.{IsOpened};

use sb_asking::{OpenRelation, Place, ask};
use sb_catalog::Attached;
use sb_ctx::{AttachCall, Instance, Move};
use sb_drive::{PageSpace, SpaceFault};
use sb_registry::Boxes;
use sb_value::Bytes;
use std::alloc::Global;

/// Whether the attachment in this place of an open relation vetoes an entry. One that isn't there vetoes none.
pub(crate) fn entry_fails<S: PageSpace, B: Boxes>(
    space: &mut S,
    alloc: Global,
    boxes: &B,
    place: Place,
    one: &OpenRelation,
    i: usize,
    entry: &Bytes,
) -> Result<bool, SpaceFault>
    requires ready { S.is_ready space.old }
    requires owner { place.owner ≡ 2 }
    requires is_open { IsOpen (B.meanings boxes.now) one.now }

    ensures tells { IfOk result (λ fails. OverKept S.has (B.meanings boxes.now) place.root space.old (λ kept.
        OfAttached (B.meanings boxes.now) kept one.now i (λ a. Tells (db_of kept) one.now.name a.rule entry.now fails))) }
    ensures undamaged { IfErr result (λ e. OverKept S.has (B.meanings boxes.now) place.root space.old (λ kept.
        IsOpened (B.meanings boxes.now) kept one.now → IsSound e)) }
    ensures looks { Looks S.has S.leads S.fails space.old space.new result }
    ensures ready { S.is_ready space.new }
{
    let Some(inst) = instance_at(one, i) else {
        return Ok(false);
    };
    let copy = entry.copy()?;
    let call = AttachCall::Late(copy);
    let asked = ask(space, alloc, boxes, place, inst, &call);
    drop(call);
    let made = asked?;
    let fails = is_veto(&made);
    drop(made);
    Ok(fails)
}

/// The instance in this place of an open relation.
fn instance_at(one: &OpenRelation, i: usize) -> Option<&Instance>
    ensures { option_copied result ≡ slice_get one.now.rules.items i }
{
    one.rules.get(i)
}

/// The attachment in this place of its descriptor.
pub(crate) fn attached_at(one: &OpenRelation, i: usize) -> Option<&Attached>
    ensures { option_copied result ≡ slice_get one.now.descriptor.attachments i }
{
    one.descriptor.attachments.as_slice().get(i)
}

fn is_veto(made: &Move) -> bool
    ensures { result ≡ is_veto made.now }
{
    matches!(made, Move::Veto)
}
