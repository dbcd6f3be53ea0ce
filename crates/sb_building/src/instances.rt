//! New instances of attachments. Values that aren't handed on go by calls of `drop`.

ghost use Rattle.std.specs.Prelude.{◌≡◌, ◌≤◌, cond, IfErr, IfOk, IsUtf8, length};
ghost use Rattle.sb_rule.specs.Spelling.{rule_code};
ghost use Rattle.sb_relation.specs.Db as db;
ghost use Rattle.sb_relation.specs.Db.{schema_at};
ghost use Rattle.sb_fold.specs.Costs.{prepare_cost};
ghost use Rattle.sb_ctx.specs.Attachment.{keeps_pages};
ghost use Rattle.sb_ctx.specs.View.{nothing};
ghost use Rattle.sb_drive.specs.Slots.{Slots};
ghost use Rattle.sb_drive.specs.Spaces.{IsFull, LeadsOn, LeadsWithin, Wanted};
ghost use Rattle.sb_drive.specs.declared.turns.Ask.TheVariants.{Fresh};
ghost use Rattle.sb_catalog.specs.Descriptors.{IsCountedRule, IsInstance, IsStorableAttached};
ghost use Rattle.sb_registry.specs.Live.{IsLiveRule};
ghost use Rattle.sb_registry.specs.Runs.{IsSound, Looks};
ghost use Rattle.sb_standing.specs.Lacking.{WhereShort};
ghost use Rattle.sb_standing.specs.Standing.{StandsRule};
ghost use Rattle.sb_standing.specs.Tables.{db_of};
ghost use Rattle.sb_tables.specs.Opened.{OverTables, OwnsPages, rule_of};
ghost use Rattle.sb_tables.specs.Refusals.{HasFaultCause, HasRefusalCause, refusal_of};
ghost use Rattle.sb_tables.specs.Working.{extensions_of};
ghost use Rattle.sb_building.specs.Attaching.{HasBegun, IsEntered, IsEntryOf, IsStore, MayAdd};
ghost use Rattle.sb_building.specs.Instances.{IsPlaced, Site};
ghost use Rattle.sb_building.specs.Lacking.{IsShortBuilding};

use crate::building::prepare;
use crate::rules::code_of;
use sb_catalog::Attached;
use sb_ctx::Instance;
use sb_drive::{PageSpace, SpaceFault};
use sb_owners::Owners;
use sb_registry::Boxes;
use sb_rule::Rule;
use sb_tables::{OpenRelation, Place, check_rule, rule_instance};
use sb_value::Str;
use std::alloc::{AllocError, Global};

/// Makes an instance for a rule on an open relation, with the content over no rows: its entry in the descriptor, and itself.
#[tactic(none)]
pub(crate) fn begin<S: Owners, B: Boxes>(
    space: &mut S,
    alloc: Global,
    boxes: &B,
    place: Place,
    opened: &OpenRelation,
    label: &Str,
    rule: Rule,
) -> Result<(Attached, Instance), SpaceFault>
    requires ready { S.is_ready space.old }
    requires owner { place.owner ≡ 2 }
    requires storable { IsCountedRule (rule_code rule) rule }
    requires short { length label.now ≤ 255 }

    ensures entry { IfOk result (λ made. IsEntryOf label.now rule made.0) }
    ensures is { IfOk result (λ made. made.1 ≡ rule_of opened.now.name opened.now.descriptor made.0) }
    ensures live { IfOk result (λ made. IsLiveRule (B.meanings boxes.now) made.1) }
    ensures begun { IfOk result (λ made. (live : IsLiveRule (B.meanings boxes.now) made.1) (x : Site)
        → IsStore S.has (B.meanings boxes.now) place.root x opened.now.name space.old → x.one.descriptor ≡ opened.now.descriptor
        → MayAdd (B.meanings boxes.now) (db_of x.kept) opened.now.name label.now rule
        → HasBegun S.has (B.meanings boxes.now) place.root x made.1 rule live.box space.new) }
    ensures refused { IfErr result (λ e. (x : Site)
        → IsStore S.has (B.meanings boxes.now) place.root x opened.now.name space.old → x.one.descriptor ≡ opened.now.descriptor
        → MayAdd (B.meanings boxes.now) (db_of x.kept) opened.now.name label.now rule
        → HasRefusalCause S.fails (refusal_of e) space.new) }
    ensures full { IfErr result (λ e. (x : Site)
        → IsStore S.has (B.meanings boxes.now) place.root x opened.now.name space.old → x.one.descriptor ≡ opened.now.descriptor
        → MayAdd (B.meanings boxes.now) (db_of x.kept) opened.now.name label.now rule
        → WhereShort e (IsShortBuilding S.has S.leads (extensions_of (B.meanings boxes.now)) x opened.now.name rule space.new)) }
    ensures costs { (x : Site) → IsStore S.has (B.meanings boxes.now) place.root x opened.now.name space.old → x.one.descriptor ≡ opened.now.descriptor
        → MayAdd (B.meanings boxes.now) (db_of x.kept) opened.now.name label.now rule
        → LeadsWithin S.leads (prepare_cost (extensions_of (B.meanings boxes.now)) (schema_at (db_of x.kept) opened.now.name) rule) space.old space.new }
    ensures fault { IfErr result (λ e. HasFaultCause S.fails (refusal_of e) space.new) }
    ensures leads { LeadsOn S.leads space.old space.new }
    ensures ready { S.is_ready space.new }
{
    let code = code_of(&rule);
    boxes.learn_rule(code);
    let attached = new_entry(space, alloc, label, rule)?;
    let inst = match test_entry(space, alloc, boxes, place, opened, &attached) {
        Ok(inst) => inst,
        Err(fault) => {
            drop(attached);
            return Err(fault);
        }
    };
    match prepare(space, alloc, boxes, place, &inst) {
        Ok(()) => Ok((attached, inst)),
        Err(fault) => {
            drop(attached);
            drop(inst);
            Err(fault)
        }
    }
}

/// A new entry of a rule, with a place for its instance.
fn new_entry<S: Owners>(
    space: &mut S,
    alloc: Global,
    label: &Str,
    rule: Rule,
) -> Result<Attached, SpaceFault>
    requires ready { S.is_ready space.old }
    requires storable { IsCountedRule (rule_code rule) rule }
    requires short { length label.now ≤ 255 }

    ensures entered { IfOk result (λ d. IsEntered S.has label.now rule d space.old space.new) }
    ensures refused { IfErr result (λ e. HasRefusalCause S.fails (refusal_of e) space.new) }
    ensures full { IfErr result (λ e. (want : Wanted) (s : Slots) → S.has want s space.old
        → IsFull (S.durable space.old) (S.total space.old) s nothing Fresh e) }
    ensures leads { LeadsWithin S.leads (cond (keeps_pages (rule_code rule)) 2 0) space.old space.new }
    ensures ready { S.is_ready space.new }
{
    let code = code_of(&rule);
    let (owner, root) = match new_place(space, alloc, code) {
        Ok(made) => made,
        Err(fault) => {
            drop(rule);
            return Err(fault);
        }
    };
    let attached = entry_of(code, owner, root, label, rule)?;
    Ok(attached)
}

/// The instance of an entry of an open relation, where a live box may keep its rule there. Else the catalogue's root is called damaged.
fn test_entry<S: PageSpace, B: Boxes>(
    space: &mut S,
    alloc: Global,
    boxes: &B,
    place: Place,
    opened: &OpenRelation,
    attached: &Attached,
) -> Result<Instance, SpaceFault>
    requires ready { S.is_ready space.old }
    requires owner { place.owner ≡ 2 }
    requires storable { IsStorableAttached attached.now }

    ensures is { IfOk result (λ inst. inst ≡ rule_of opened.now.name opened.now.descriptor attached.now) }
    ensures live { IfOk result (IsLiveRule (B.meanings boxes.now)) }
    ensures undamaged { IfErr result (λ e. OverTables S.has (B.meanings boxes.now) place.root space.old (λ kept. (a : db.Attached)
        → StandsRule (B.meanings boxes.now) (rule_of opened.now.name opened.now.descriptor attached.now) a (db_of kept) → IsSound e)) }
    ensures looks { Looks S.has S.leads S.fails space.old space.new result }
    ensures ready { S.is_ready space.new }
{
    check_rule(
        space,
        alloc,
        boxes,
        place,
        &opened.name,
        &opened.descriptor,
        attached,
    )?;
    let inst = rule_instance(alloc, &opened.name, &opened.descriptor, attached)?;
    Ok(inst)
}

/// The owner and the root of a new instance of a code. One without pages of its own has neither.
fn new_place<S: Owners>(space: &mut S, alloc: Global, code: u16) -> Result<(u16, u32), SpaceFault>
    requires ready { S.is_ready space.old }

    ensures owns { IfOk result (λ made. OwnsPages (keeps_pages code) made.0) }
    ensures placed { IfOk result (λ made. (want : Wanted) (s : Slots) → S.has want s space.old
        → IsPlaced S.has (keeps_pages code) want s made.0 made.1 space.new) }
    ensures refused { IfErr result (λ e. HasRefusalCause S.fails (refusal_of e) space.new) }
    ensures full { IfErr result (λ e. (want : Wanted) (s : Slots) → S.has want s space.old
        → IsFull (S.durable space.old) (S.total space.old) s nothing Fresh e) }
    ensures leads { LeadsWithin S.leads (cond (keeps_pages code) 2 0) space.old space.new }
    ensures ready { S.is_ready space.new }
{
    if !keeps_pages(code) {
        return Ok((0, 0));
    }
    space.new_instance(alloc)
}

/// Whether instances of a code have pages of their own: all but those of check, refers and trigger.
fn keeps_pages(code: u16) -> bool
    ensures { result ≡ keeps_pages code }
{
    !(code == 5 || code == 6 || code == 7)
}

/// An attachment of a descriptor.
fn entry_of(
    code: u16,
    owner: u16,
    root: u32,
    label: &Str,
    rule: Rule,
) -> Result<Attached, AllocError>
    requires code { code ≡ rule_code rule }
    requires storable { IsCountedRule (rule_code rule) rule }
    requires short { length label.now ≤ 255 }

    ensures entry { IfOk result (IsEntryOf label.now rule) }
    ensures owner { IfOk result (λ d. d.owner ≡ owner) }
    ensures root { IfOk result (λ d. d.root ≡ root) }
{
    learn_parts(code, owner, root, label);
    let name = match label.copy() {
        Ok(name) => name,
        Err(fault) => {
            drop(rule);
            return Err(fault);
        }
    };
    Ok(Attached {
        code,
        owner,
        root,
        name,
        rule,
    })
}

/// Nothing is done: that numbers and a text can be stored is learnt from their types.
fn learn_parts(code: u16, owner: u16, root: u32, name: &Str)
    ensures numbers { IsInstance (code, owner, root) }
    ensures text { IsUtf8 name.now }
{
    let _text = name.as_str();
}
