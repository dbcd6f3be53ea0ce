//! Rules that come. Values that aren't handed on go by calls of `drop`.

ghost use Rattle.std.specs.Prelude.{◌≡◌, ◌≤◌, ◌⊎◌, false, None, length, IfErr, IfOk, OnOk};
ghost use Rattle.sb_rule.specs.Spelling.{rule_code};
ghost use Rattle.sb_relation.specs.Build.{main_of};
ghost use Rattle.sb_fold.specs.Building.{build, has_long_row};
ghost use Rattle.sb_fold.specs.Outcome.{Going};
ghost use Rattle.sb_fold.specs.declared.refusal.Refusal.TheVariants as refusal;
ghost use Rattle.sb_cascade.specs.Runs.{MadeFrom, StopsFrom};
ghost use Rattle.sb_drive.specs.Spaces.{LeadsOn, LeadsWithin};
ghost use Rattle.sb_catalog.specs.Descriptors.{IsCountedRule, IsStorableAttached};
ghost use Rattle.sb_registry.specs.Live.{IsLiveRule};
ghost use Rattle.sb_standing.specs.Lacking.{WhereShort};
ghost use Rattle.sb_standing.specs.Tables.{db_of};
ghost use Rattle.sb_tables.specs.Opened.{IsOpen, rule_of};
ghost use Rattle.sb_tables.specs.Refusals.{HasFaultCause, HasRefusalCause, refusal_of};
ghost use Rattle.sb_tables.specs.Working.{Goes, IsServing, IsStoppedFor, StandsFor, extensions_in, extensions_of};
ghost use Rattle.sb_tables.specs.Keeping.{Closes};
ghost use Rattle.sb_building.specs.Attaching.{HasBegun, HasEnded, MayAdd, MayAttach, Stores};
ghost use Rattle.sb_building.specs.Costs.{build_cost, build_left};
ghost use Rattle.sb_building.specs.Instances.{Site};
ghost use Rattle.sb_building.specs.Lacking.{IsShortBuilding};

use crate::building::build_rows;
use crate::instances::begin;
use crate::lengths::has_long_row;
use crate::placing::place_rule;
use crate::rules::{is_short_name, stored};
use sb_catalog::Attached;
use sb_ctx::Instance;
use sb_drive::{PageSpace, SpaceFault};
use sb_fold::Refusal;
use sb_owners::Owners;
use sb_registry::Boxes;
use sb_rule::Rule;
use sb_tables::{OpenRelation, Place, Running, open_relation, refusal_of};
use sb_value::Str;
use std::alloc::Global;

/// What became of a rule that was to be attached: it can't be stored, some row is too long for it, it doesn't hold of the rows, or it is
/// attached.
#[derive(Clone, Copy, Debug, PartialEq, Eq)]
pub enum Attaching {
    TooLarge,
    TooLong,
    Vetoed,
    Attached,
}

/// Attaches a rule that holds of the rows that stand. After a refusal the pages may hold a part of the work.
pub fn attach<B: Boxes, S: Owners>(
    running: &mut Running<'_, B, S>,
    alloc: Global,
    relation: &Str,
    name: &Str,
    rule: &Rule,
) -> Result<(), Refusal>
    requires ready { IsServing S.is_ready B.meanings running.old }

    ensures made { OnOk result ((g : Going) → StandsFor S.has S.spent B.meanings g running.old
        → MayAttach (B.meanings running.old.boxes.now) g.db relation.now name.now rule.now
        → MadeFrom (StandsFor S.has S.spent B.meanings) (build (extensions_in B.meanings running.old) relation.now name.now rule.now) g tt running.new) }
    ensures refused { IfErr result (λ r. (g : Going) → StandsFor S.has S.spent B.meanings g running.old
        → MayAttach (B.meanings running.old.boxes.now) g.db relation.now name.now rule.now
        → StopsFrom (IsStoppedFor S.has S.spent S.leads S.fails S.table B.meanings)
        (build (extensions_in B.meanings running.old) relation.now name.now rule.now) g r running.new) }
    ensures fault { IfErr result (λ r. HasFaultCause S.fails r running.new.space.now) }
    ensures closes { Closes running.old running.new }
    ensures goes { Goes S.leads running.old running.new }
    ensures ready { IsServing S.is_ready B.meanings running.new }
{
    running.work.opened.clear();
    match attach_copy(
        running.space,
        alloc,
        running.boxes,
        running.place,
        relation,
        name,
        rule,
    ) {
        Ok(Attaching::Attached) => Ok(()),
        Ok(Attaching::TooLarge) => Err(Refusal::Limit),
        Ok(Attaching::TooLong) => Err(too_long(relation)),
        Ok(Attaching::Vetoed) => Err(veto(relation, name)),
        Err(fault) => Err(refusal_of(fault)),
    }
}

/// The same over the parts of an engine. Where a page is wanting, none was left beside the new instance, which had no more than its content
/// takes while it is built.
#[tactic(none)]
fn attach_copy<S: Owners, B: Boxes>(
    space: &mut S,
    alloc: Global,
    boxes: &B,
    place: Place,
    relation: &Str,
    name: &Str,
    rule: &Rule,
) -> Result<Attaching, SpaceFault>
    requires ready { S.is_ready space.old }
    requires owner { place.owner ≡ 2 }

    ensures ended { IfOk result (λ end. (x : Site) → S.has x.want x.slots space.old → Stores (B.meanings boxes.now) place.root x relation.now
        → (may : MayAdd (B.meanings boxes.now) (db_of x.kept) relation.now name.now rule.now) → main_of relation.now rule.now ≡ None
        → IsCountedRule (rule_code rule.now) rule.now
        → HasEnded S.has (B.meanings boxes.now) place.root x relation.now name.now rule.now may.box.rules space.new end) }
    ensures refused { IfErr result (λ e. (x : Site) → S.has x.want x.slots space.old → Stores (B.meanings boxes.now) place.root x relation.now
        → MayAdd (B.meanings boxes.now) (db_of x.kept) relation.now name.now rule.now
        → HasRefusalCause S.fails (refusal_of e) space.new) }
    ensures full { IfErr result (λ e. (x : Site) → S.has x.want x.slots space.old → Stores (B.meanings boxes.now) place.root x relation.now
        → MayAdd (B.meanings boxes.now) (db_of x.kept) relation.now name.now rule.now
        → WhereShort e (IsShortBuilding S.has S.leads (extensions_of (B.meanings boxes.now)) x relation.now rule.now space.new)) }
    ensures costs { (x : Site) → S.has x.want x.slots space.old → Stores (B.meanings boxes.now) place.root x relation.now
        → MayAdd (B.meanings boxes.now) (db_of x.kept) relation.now name.now rule.now
        → LeadsWithin S.leads (build_cost (extensions_of (B.meanings boxes.now)) (db_of x.kept) relation.now rule.now) space.old space.new }
    ensures fault { IfErr result (λ e. HasFaultCause S.fails (refusal_of e) space.new) }
    ensures leads { LeadsOn S.leads space.old space.new }
    ensures ready { S.is_ready space.new }
{
    let Some(copy) = stored(alloc, rule)? else {
        return Ok(Attaching::TooLarge);
    };
    attach_rule(space, alloc, boxes, place, relation, name, copy)
}

/// The same of a rule that can be stored.
#[tactic(none)]
fn attach_rule<S: Owners, B: Boxes>(
    space: &mut S,
    alloc: Global,
    boxes: &B,
    place: Place,
    relation: &Str,
    name: &Str,
    rule: Rule,
) -> Result<Attaching, SpaceFault>
    requires ready { S.is_ready space.old }
    requires owner { place.owner ≡ 2 }
    requires storable { IsCountedRule (rule_code rule) rule }

    ensures ended { IfOk result (λ end. (x : Site) → S.has x.want x.slots space.old → Stores (B.meanings boxes.now) place.root x relation.now
        → (may : MayAdd (B.meanings boxes.now) (db_of x.kept) relation.now name.now rule) → main_of relation.now rule ≡ None
        → HasEnded S.has (B.meanings boxes.now) place.root x relation.now name.now rule may.box.rules space.new end) }
    ensures refused { IfErr result (λ e. (x : Site) → S.has x.want x.slots space.old → Stores (B.meanings boxes.now) place.root x relation.now
        → MayAdd (B.meanings boxes.now) (db_of x.kept) relation.now name.now rule
        → HasRefusalCause S.fails (refusal_of e) space.new) }
    ensures full { IfErr result (λ e. (x : Site) → S.has x.want x.slots space.old → Stores (B.meanings boxes.now) place.root x relation.now
        → MayAdd (B.meanings boxes.now) (db_of x.kept) relation.now name.now rule
        → WhereShort e (IsShortBuilding S.has S.leads (extensions_of (B.meanings boxes.now)) x relation.now rule space.new)) }
    ensures costs { (x : Site) → S.has x.want x.slots space.old → Stores (B.meanings boxes.now) place.root x relation.now
        → MayAdd (B.meanings boxes.now) (db_of x.kept) relation.now name.now rule
        → LeadsWithin S.leads (build_cost (extensions_of (B.meanings boxes.now)) (db_of x.kept) relation.now rule) space.old space.new }
    ensures fault { IfErr result (λ e. HasFaultCause S.fails (refusal_of e) space.new) }
    ensures leads { LeadsOn S.leads space.old space.new }
    ensures ready { S.is_ready space.new }
{
    if !is_short_name(name) {
        drop(rule);
        return Err(SpaceFault::Damaged { page: place.root });
    }
    match open_relation(space, alloc, boxes, place, relation) {
        Ok(Some(one)) => attach_to(space, alloc, boxes, place, one, name, rule),
        Ok(None) => {
            drop(rule);
            Err(SpaceFault::Damaged { page: place.root })
        }
        Err(fault) => {
            drop(rule);
            Err(fault)
        }
    }
}

/// The same on an open relation.
#[tactic(none)]
fn attach_to<S: Owners, B: Boxes>(
    space: &mut S,
    alloc: Global,
    boxes: &B,
    place: Place,
    one: OpenRelation,
    label: &Str,
    rule: Rule,
) -> Result<Attaching, SpaceFault>
    requires ready { S.is_ready space.old }
    requires owner { place.owner ≡ 2 }
    requires open { IsOpen (B.meanings boxes.now) one }
    requires storable { IsCountedRule (rule_code rule) rule }
    requires short { length label.now ≤ 255 }

    ensures ended { IfOk result (λ end. (x : Site) → S.has x.want x.slots space.old → Stores (B.meanings boxes.now) place.root x one.name
        → x.one.descriptor ≡ one.descriptor
        → (may : MayAdd (B.meanings boxes.now) (db_of x.kept) one.name label.now rule) → main_of one.name rule ≡ None
        → HasEnded S.has (B.meanings boxes.now) place.root x one.name label.now rule may.box.rules space.new end) }
    ensures refused { IfErr result (λ e. (x : Site) → S.has x.want x.slots space.old → Stores (B.meanings boxes.now) place.root x one.name
        → x.one.descriptor ≡ one.descriptor
        → MayAdd (B.meanings boxes.now) (db_of x.kept) one.name label.now rule
        → HasRefusalCause S.fails (refusal_of e) space.new) }
    ensures full { IfErr result (λ e. (x : Site) → S.has x.want x.slots space.old → Stores (B.meanings boxes.now) place.root x one.name
        → x.one.descriptor ≡ one.descriptor
        → MayAdd (B.meanings boxes.now) (db_of x.kept) one.name label.now rule
        → WhereShort e (IsShortBuilding S.has S.leads (extensions_of (B.meanings boxes.now)) x one.name rule space.new)) }
    ensures costs { (x : Site) → S.has x.want x.slots space.old → Stores (B.meanings boxes.now) place.root x one.name
        → x.one.descriptor ≡ one.descriptor
        → MayAdd (B.meanings boxes.now) (db_of x.kept) one.name label.now rule
        → LeadsWithin S.leads (build_cost (extensions_of (B.meanings boxes.now)) (db_of x.kept) one.name rule) space.old space.new }
    ensures fault { IfErr result (λ e. HasFaultCause S.fails (refusal_of e) space.new) }
    ensures leads { LeadsOn S.leads space.old space.new }
    ensures ready { S.is_ready space.new }
{
    match has_long_row(space, alloc, boxes, &one.table, &rule) {
        Ok(false) => {}
        Ok(true) => {
            drop(one);
            drop(rule);
            return Ok(Attaching::TooLong);
        }
        Err(fault) => {
            drop(one);
            drop(rule);
            return Err(fault);
        }
    }
    match begin(space, alloc, boxes, place, &one, label, rule) {
        Ok((attached, inst)) => {
            let built = build_on(space, alloc, boxes, place, one, attached, &inst);
            drop(inst);
            built
        }
        Err(fault) => {
            drop(one);
            Err(fault)
        }
    }
}

/// Builds the content of a new instance on an open relation, and gives its attachment a place in the relation's descriptor.
#[tactic(none)]
fn build_on<S: PageSpace, B: Boxes>(
    space: &mut S,
    alloc: Global,
    boxes: &B,
    place: Place,
    one: OpenRelation,
    attached: Attached,
    inst: &Instance,
) -> Result<Attaching, SpaceFault>
    requires ready { S.is_ready space.old }
    requires owner { place.owner ≡ 2 }
    requires open { IsOpen (B.meanings boxes.now) one }
    requires storable { IsStorableAttached attached }
    requires is { inst.now ≡ rule_of one.name one.descriptor attached }
    requires live { IsLiveRule (B.meanings boxes.now) inst.now }

    ensures ended { IfOk result (λ end. (live : IsLiveRule (B.meanings boxes.now) inst.now) (x : Site)
        → Stores (B.meanings boxes.now) place.root x one.name → x.one.descriptor ≡ one.descriptor
        → (may : MayAdd (B.meanings boxes.now) (db_of x.kept) one.name attached.name attached.rule) → main_of one.name attached.rule ≡ None
        → HasBegun S.has (B.meanings boxes.now) place.root x inst.now attached.rule live.box space.old
        → has_long_row (db_of x.kept) one.name attached.rule ≡ false
        → HasEnded S.has (B.meanings boxes.now) place.root x one.name attached.name attached.rule may.box.rules space.new end) }
    ensures refused { IfErr result (λ e. (live : IsLiveRule (B.meanings boxes.now) inst.now) (x : Site)
        → Stores (B.meanings boxes.now) place.root x one.name → x.one.descriptor ≡ one.descriptor
        → MayAdd (B.meanings boxes.now) (db_of x.kept) one.name attached.name attached.rule
        → HasBegun S.has (B.meanings boxes.now) place.root x inst.now attached.rule live.box space.old
        → has_long_row (db_of x.kept) one.name attached.rule ≡ false
        → HasRefusalCause S.fails (refusal_of e) space.new) }
    ensures full { IfErr result (λ e. (live : IsLiveRule (B.meanings boxes.now) inst.now) (x : Site)
        → Stores (B.meanings boxes.now) place.root x one.name → x.one.descriptor ≡ one.descriptor
        → MayAdd (B.meanings boxes.now) (db_of x.kept) one.name attached.name attached.rule
        → HasBegun S.has (B.meanings boxes.now) place.root x inst.now attached.rule live.box space.old
        → has_long_row (db_of x.kept) one.name attached.rule ≡ false
        → WhereShort e (IsShortBuilding S.has S.leads (extensions_of (B.meanings boxes.now)) x one.name attached.rule space.new)) }
    ensures costs { (live : IsLiveRule (B.meanings boxes.now) inst.now) (x : Site) → Stores (B.meanings boxes.now) place.root x one.name → x.one.descriptor ≡ one.descriptor
        → MayAdd (B.meanings boxes.now) (db_of x.kept) one.name attached.name attached.rule
        → HasBegun S.has (B.meanings boxes.now) place.root x inst.now attached.rule live.box space.old
        → LeadsWithin S.leads (build_left (extensions_of (B.meanings boxes.now)) (db_of x.kept) one.name attached.rule) space.old space.new }
    ensures fault { IfErr result (λ e. HasFaultCause S.fails (refusal_of e) space.new) }
    ensures leads { LeadsOn S.leads space.old space.new }
    ensures ready { S.is_ready space.new }
{
    let rule = &attached.rule;
    match build_rows(space, alloc, boxes, place, &one.table, inst, rule) {
        Ok(true) => {}
        Ok(false) => {
            drop(one);
            drop(attached);
            return Ok(Attaching::Vetoed);
        }
        Err(fault) => {
            drop(one);
            drop(attached);
            return Err(fault);
        }
    }
    let OpenRelation {
        name,
        descriptor,
        table,
        rules,
    } = one;
    let placed = place_rule(space, alloc, place, &name, descriptor, attached);
    drop(name);
    drop(table);
    drop(rules);
    match placed {
        Ok(()) => Ok(Attaching::Attached),
        Err(fault) => Err(fault),
    }
}

fn too_long(relation: &Str) -> Refusal
    ensures { (result ≡ refusal.TooLong relation.now) ⊎ (result ≡ refusal.NoMemory) }
{
    match relation.copy() {
        Ok(relation) => Refusal::TooLong { relation },
        Err(_) => Refusal::NoMemory,
    }
}

fn veto(relation: &Str, name: &Str) -> Refusal
    ensures { (result ≡ refusal.Veto relation.now name.now) ⊎ (result ≡ refusal.NoMemory) }
{
    match (relation.copy(), name.copy()) {
        (Ok(relation), Ok(name)) => Refusal::Veto { relation, name },
        _ => Refusal::NoMemory,
    }
}
