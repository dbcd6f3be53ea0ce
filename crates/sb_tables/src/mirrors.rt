//! Attachments that go by their names, and mirrors of a relation's attachments. What is made of an open relation goes by calls of `drop`.

ghost use Rattle.std.specs.Prelude.{◌≡◌, ℕ, ◌*◌, ◌++◌, List, IfOk, IfErr, OnOk, length, option_copied, option_map, true};
ghost use Rattle.sb_relation.specs.Build.{mirror_name, mirror_of};
ghost use Rattle.sb_relation.specs.Db.{Db, Name as Named};
ghost use Rattle.sb_fold.specs.Building.{mirrored_in, without_attached, without_mirror, without_mirrors};
ghost use Rattle.sb_fold.specs.Costs.{descriptor_cost};
ghost use Rattle.sb_fold.specs.Fold.{attachments_at};
ghost use Rattle.sb_cascade.specs.Runs.{is_free};
ghost use Rattle.sb_drive.specs.Spaces.{LeadsOn, LeadsWithin};
ghost use Rattle.sb_standing.specs.Standing.{owners_named, without_described};
ghost use Rattle.sb_engine.specs.Refusals.{HasFaultCause, HasRefusalCause, refusal_of};
ghost use Rattle.sb_engine.specs.Working.{Goes, IsServing, extensions_in, extensions_of};
ghost use Rattle.sb_tables.specs.Keeping.{Closes, HasMore, IsFullBy, KeepsDb, KeepsIn, KeepsWithin, KeepsWithinIn};
ghost use Rattle.sb_tables.specs.Removal.{mirror_bounds, mirror_cost, mirrors_bounds, mirrors_bounds_of, mirrors_cost, taken_bounds, without_mirrors_of};

use crate::descriptors::{enter, owners_named, without_named};
use sb_catalog::{Attached, Descriptor};
use sb_drive::{PageSpace, SpaceFault};
use sb_engine::{OpenRelation, Place, Running, open_relation, refusal_of};
use sb_fold::Refusal;
use sb_registry::Boxes;
use sb_rule::{Rule, Side};
use sb_value::Str;
use std::alloc::{AllocError, Global};

/// Takes the attachments of a name off a relation, where that is there. Their pages are to go with the owners that are gone. What the
/// engine stands for may be broken before and after.
pub fn detach_named<B: Boxes, S: PageSpace>(
    running: &mut Running<'_, B, S>,
    alloc: Global,
    relation: &Str,
    label: &Str,
) -> Result<(), Refusal>
    requires ready { IsServing S.is_ready B.meanings running.old }

    ensures detached { OnOk result ((aside : List ℕ) (most : ℕ) (db : Db) → KeepsWithinIn S.has B.meanings aside most db running.old
        → KeepsWithinIn S.has B.meanings (aside ++ taken_bounds (extensions_in B.meanings running.old) db relation.now label.now) most
        (without_attached db relation.now label.now) running.new) }
    ensures refused { IfErr result (λ r. (aside : List ℕ) (db : Db) → KeepsIn S.has B.meanings aside db running.old
        → HasRefusalCause S.fails r running.new.space.now) }
    ensures licensed { IfErr result (λ r. (aside : List ℕ) (most : ℕ) (db : Db) → KeepsWithinIn S.has B.meanings aside most db running.old
        → IsFullBy S.has S.leads S.table most r running.new.space.now) }
    ensures costs { (aside : List ℕ) (db : Db) → KeepsIn S.has B.meanings aside db running.old
        → LeadsWithin S.leads (descriptor_cost (extensions_in B.meanings running.old) db) running.old.space.now running.new.space.now }
    ensures fault { IfErr result (λ r. HasFaultCause S.fails r running.new.space.now) }
    ensures free { IfErr result (λ r. is_free r ≡ true) }
    ensures closes { Closes running.old running.new }
    ensures goes { Goes S.leads running.old running.new }
    ensures ready { IsServing S.is_ready B.meanings running.new }
{
    running.work.opened.clear();
    match detach_kept(
        running.space,
        alloc,
        running.boxes,
        running.place,
        &mut running.work.gone,
        relation,
        label,
    ) {
        Ok(()) => Ok(()),
        Err(fault) => Err(refusal_of(fault)),
    }
}

/// The same over the parts of an engine.
fn detach_kept<S: PageSpace, B: Boxes>(
    space: &mut S,
    alloc: Global,
    boxes: &B,
    place: Place,
    gone: &mut Vec<u16>,
    relation: &Str,
    label: &Str,
) -> Result<(), SpaceFault>
    requires ready { S.is_ready space.old }
    requires owner { place.owner ≡ 2 }

    ensures detached { OnOk result ((aside : List ℕ) (most : ℕ) (db : Db) → KeepsWithin S.has (B.meanings boxes.now) place.root gone.old.items aside most db space.old
        → KeepsWithin S.has (B.meanings boxes.now) place.root gone.new.items
        (aside ++ taken_bounds (extensions_of (B.meanings boxes.now)) db relation.now label.now) most
        (without_attached db relation.now label.now) space.new) }
    ensures refused { IfErr result (λ e. (aside : List ℕ) (db : Db) → KeepsDb S.has (B.meanings boxes.now) place.root gone.old.items aside db space.old
        → HasRefusalCause S.fails (refusal_of e) space.new) }
    ensures licensed { IfErr result (λ e. (aside : List ℕ) (most : ℕ) (db : Db)
        → KeepsWithin S.has (B.meanings boxes.now) place.root gone.old.items aside most db space.old
        → IsFullBy S.has S.leads S.table most (refusal_of e) space.new) }
    ensures costs { (aside : List ℕ) (db : Db) → KeepsDb S.has (B.meanings boxes.now) place.root gone.old.items aside db space.old
        → LeadsWithin S.leads (descriptor_cost (extensions_of (B.meanings boxes.now)) db) space.old space.new }
    ensures fault { IfErr result (λ e. HasFaultCause S.fails (refusal_of e) space.new) }
    ensures more { HasMore gone.old.items gone.new.items }
    ensures leads { LeadsOn S.leads space.old space.new }
    ensures ready { S.is_ready space.new }
{
    let Some(one) = open_relation(space, alloc, boxes, place, relation)? else {
        return Ok(());
    };
    let noted = note_named(alloc, gone, &one.descriptor, label);
    let descriptor = left_of(one, label);
    match noted {
        Ok(()) => {
            let entered = enter(space, alloc, place, relation, &descriptor);
            drop(descriptor);
            entered
        }
        Err(_) => {
            drop(descriptor);
            Err(SpaceFault::NoMemory)
        }
    }
}

/// Has the owners of the attachments of a name go.
fn note_named(
    alloc: Global,
    gone: &mut Vec<u16>,
    descriptor: &Descriptor,
    label: &Str,
) -> Result<(), AllocError>
    ensures noted { OnOk result (gone.new.items ≡ gone.old.items ++ owners_named label.now descriptor.now) }
    ensures more { HasMore gone.old.items gone.new.items }
{
    let owners = owners_named(alloc, descriptor, label)?;
    gone.extend_from_slice(&owners)
}

/// The descriptor of an open relation without the attachments of a name.
fn left_of(one: OpenRelation, label: &Str) -> Descriptor
    ensures { result ≡ record one.descriptor { attachments = without_described label.now one.descriptor.attachments } }
{
    let OpenRelation {
        name,
        descriptor,
        table,
        rules,
    } = one;
    drop(name);
    drop(table);
    drop(rules);
    without_named(descriptor, label)
}

/// Takes the mirrors of a relation's attachments off their relations, where the relation is there.
pub(crate) fn detach_mirrors<S: PageSpace, B: Boxes>(
    space: &mut S,
    alloc: Global,
    boxes: &B,
    place: Place,
    gone: &mut Vec<u16>,
    name: &Str,
) -> Result<(), SpaceFault>
    requires ready { S.is_ready space.old }
    requires owner { place.owner ≡ 2 }

    ensures detached { OnOk result ((aside : List ℕ) (most : ℕ) (db : Db) → KeepsWithin S.has (B.meanings boxes.now) place.root gone.old.items aside most db space.old
        → KeepsWithin S.has (B.meanings boxes.now) place.root gone.new.items
        (aside ++ mirrors_bounds (extensions_of (B.meanings boxes.now)) name.now (attachments_at db name.now) db) most
        (without_mirrors name.now (attachments_at db name.now) db) space.new) }
    ensures refused { IfErr result (λ e. (aside : List ℕ) (db : Db) → KeepsDb S.has (B.meanings boxes.now) place.root gone.old.items aside db space.old
        → HasRefusalCause S.fails (refusal_of e) space.new) }
    ensures licensed { IfErr result (λ e. (aside : List ℕ) (most : ℕ) (db : Db)
        → KeepsWithin S.has (B.meanings boxes.now) place.root gone.old.items aside most db space.old
        → IsFullBy S.has S.leads S.table most (refusal_of e) space.new) }
    ensures costs { (aside : List ℕ) (db : Db) → KeepsDb S.has (B.meanings boxes.now) place.root gone.old.items aside db space.old
        → LeadsWithin S.leads (length (mirrored_in name.now (attachments_at db name.now)) * descriptor_cost (extensions_of (B.meanings boxes.now)) db) space.old space.new }
    ensures entries { OnOk result ((aside : List ℕ) (db : Db) → KeepsDb S.has (B.meanings boxes.now) place.root gone.old.items aside db space.old
        → descriptor_cost (extensions_of (B.meanings boxes.now)) (without_mirrors name.now (attachments_at db name.now) db)
        ≡ descriptor_cost (extensions_of (B.meanings boxes.now)) db) }
    ensures fault { IfErr result (λ e. HasFaultCause S.fails (refusal_of e) space.new) }
    ensures more { HasMore gone.old.items gone.new.items }
    ensures leads { LeadsOn S.leads space.old space.new }
    ensures ready { S.is_ready space.new }
{
    let Some(one) = open_relation(space, alloc, boxes, place, name)? else {
        return Ok(());
    };
    detach_mirrors_of(
        space,
        alloc,
        boxes,
        place,
        gone,
        name,
        one.descriptor.attachments.as_slice(),
    )
}

/// The same of these attachments.
fn detach_mirrors_of<S: PageSpace, B: Boxes>(
    space: &mut S,
    alloc: Global,
    boxes: &B,
    place: Place,
    gone: &mut Vec<u16>,
    name: &Str,
    attachments: &[Attached],
) -> Result<(), SpaceFault>
    requires ready { S.is_ready space.old }
    requires owner { place.owner ≡ 2 }

    ensures detached { OnOk result ((aside : List ℕ) (most : ℕ) (db : Db) → KeepsWithin S.has (B.meanings boxes.now) place.root gone.old.items aside most db space.old
        → KeepsWithin S.has (B.meanings boxes.now) place.root gone.new.items
        (aside ++ mirrors_bounds_of (extensions_of (B.meanings boxes.now)) name.now attachments.now db) most
        (without_mirrors_of name.now attachments.now db) space.new) }
    ensures refused { IfErr result (λ e. (aside : List ℕ) (db : Db) → KeepsDb S.has (B.meanings boxes.now) place.root gone.old.items aside db space.old
        → HasRefusalCause S.fails (refusal_of e) space.new) }
    ensures licensed { IfErr result (λ e. (aside : List ℕ) (most : ℕ) (db : Db)
        → KeepsWithin S.has (B.meanings boxes.now) place.root gone.old.items aside most db space.old
        → IsFullBy S.has S.leads S.table most (refusal_of e) space.new) }
    ensures costs { (aside : List ℕ) (db : Db) → KeepsDb S.has (B.meanings boxes.now) place.root gone.old.items aside db space.old
        → LeadsWithin S.leads (mirrors_cost (descriptor_cost (extensions_of (B.meanings boxes.now)) db) name.now attachments.now) space.old space.new }
    ensures entries { OnOk result ((aside : List ℕ) (db : Db) → KeepsDb S.has (B.meanings boxes.now) place.root gone.old.items aside db space.old
        → descriptor_cost (extensions_of (B.meanings boxes.now)) (without_mirrors_of name.now attachments.now db)
        ≡ descriptor_cost (extensions_of (B.meanings boxes.now)) db) }
    ensures fault { IfErr result (λ e. HasFaultCause S.fails (refusal_of e) space.new) }
    ensures more { HasMore gone.old.items gone.new.items }
    ensures leads { LeadsOn S.leads space.old space.new }
    ensures ready { S.is_ready space.new }
{
    for attached in attachments {
        detach_mirror(space, alloc, boxes, place, gone, name, attached)?;
    }
    Ok(())
}

/// The same of one attachment.
fn detach_mirror<S: PageSpace, B: Boxes>(
    space: &mut S,
    alloc: Global,
    boxes: &B,
    place: Place,
    gone: &mut Vec<u16>,
    name: &Str,
    attached: &Attached,
) -> Result<(), SpaceFault>
    requires ready { S.is_ready space.old }
    requires owner { place.owner ≡ 2 }

    ensures detached { OnOk result ((aside : List ℕ) (most : ℕ) (db : Db) → KeepsWithin S.has (B.meanings boxes.now) place.root gone.old.items aside most db space.old
        → KeepsWithin S.has (B.meanings boxes.now) place.root gone.new.items
        (aside ++ mirror_bounds (extensions_of (B.meanings boxes.now)) name.now attached.now.name (mirror_of name.now attached.now.rule) db) most
        (without_mirror name.now attached.now.name (mirror_of name.now attached.now.rule) db) space.new) }
    ensures refused { IfErr result (λ e. (aside : List ℕ) (db : Db) → KeepsDb S.has (B.meanings boxes.now) place.root gone.old.items aside db space.old
        → HasRefusalCause S.fails (refusal_of e) space.new) }
    ensures licensed { IfErr result (λ e. (aside : List ℕ) (most : ℕ) (db : Db)
        → KeepsWithin S.has (B.meanings boxes.now) place.root gone.old.items aside most db space.old
        → IsFullBy S.has S.leads S.table most (refusal_of e) space.new) }
    ensures costs { (aside : List ℕ) (db : Db) → KeepsDb S.has (B.meanings boxes.now) place.root gone.old.items aside db space.old
        → LeadsWithin S.leads (mirror_cost (descriptor_cost (extensions_of (B.meanings boxes.now)) db) (mirror_of name.now attached.now.rule)) space.old space.new }
    ensures fault { IfErr result (λ e. HasFaultCause S.fails (refusal_of e) space.new) }
    ensures more { HasMore gone.old.items gone.new.items }
    ensures leads { LeadsOn S.leads space.old space.new }
    ensures ready { S.is_ready space.new }
{
    match mirrored(&attached.rule) {
        None => Ok(()),
        Some(other) => {
            let label = mirror_name(name, &attached.name)?;
            detach_kept(space, alloc, boxes, place, gone, other, &label)
        }
    }
}

/// The relation that has the mirror of a rule.
pub fn mirrored(rule: &Rule) -> Option<&Str>
    ensures { (name : Named) → option_copied result ≡ option_map (λ mirror. mirror.0) (mirror_of name rule.now) }
{
    match rule {
        Rule::JoinIndex {
            side: Side::Main,
            other,
            ..
        } => Some(other),
        Rule::Refers {
            side: Side::Main,
            other,
            ..
        } => Some(other),
        _ => None,
    }
}

/// The name of the mirror of a relation's attachment.
pub fn mirror_name(relation: &Str, name: &Str) -> Result<Str, AllocError>
    ensures { IfOk result (λ label. label ≡ mirror_name relation.now name.now) }
{
    let mut label = relation.copy()?.into_string();
    label.push('.')?;
    label.push_str(name.as_str())?;
    Ok(Str::from_string(label))
}
