//! The rules of a relation, as live boxes keep them.

ghost use Rattle.std.specs.Prelude.{◌≡◌, ◌↔◌, All, IfErr, IsTrue, List, OnOk, Some, map, option_copied, option_map};
ghost use Rattle.sb_relation.specs.Db as db;
ghost use Rattle.sb_ctx.specs.Attachment.{JoinsAnother, keeps_pages};
ghost use Rattle.sb_catalog.specs.Descriptors.{IsStorableAttached};
ghost use Rattle.sb_kinds.specs.Others.{Knows, SaysFits, tied_by};
ghost use Rattle.sb_registry.specs.Boxes.{attachment_of};
ghost use Rattle.sb_registry.specs.Live.{IsLiveRule};
ghost use Rattle.sb_registry.specs.Runs.{IsSound, Looks};
ghost use Rattle.sb_standing.specs.Standing.{EachRule, StandsRule};
ghost use Rattle.sb_standing.specs.Tables.{db_of};
ghost use Rattle.sb_opened.specs.Opened.{HasPlace, IsOwnFault, OverTables, OwnsPages, rule_of};

use crate::reading::descriptor_at;
use sb_catalog::{Attached, Descriptor};
use sb_drive::{PageSpace, SpaceFault};
use sb_kinds::{may_stand, other_relation};
use sb_map::Place;
use sb_registry::Boxes;
use sb_rule::Rule;
use sb_value::{Schema, Str};
use std::alloc::Global;

/// Nothing is done where live boxes keep all these rules of a relation. Else the catalogue's root is called damaged.
pub(crate) fn check_rules<S: PageSpace, B: Boxes>(
    space: &mut S,
    alloc: Global,
    boxes: &B,
    place: Place,
    name: &Str,
    descriptor: &Descriptor,
    attachments: &[Attached],
) -> Result<(), SpaceFault>
    requires ready { S.is_ready space.old }
    requires owner { place.owner ≡ 2 }
    requires storable { All IsStorableAttached attachments.now }

    ensures live { OnOk result (All (IsLiveRule (B.meanings boxes.now)) (map (rule_of name.now descriptor.now) attachments.now)) }
    ensures undamaged { IfErr result (λ e. OverTables S.has (B.meanings boxes.now) place.root space.old (λ kept. (others : List db.Attached)
        → EachRule (λ d a. StandsRule (B.meanings boxes.now) (rule_of name.now descriptor.now d) a (db_of kept)) attachments.now others
        → IsSound e)) }
    ensures looks { Looks S.has S.leads S.fails space.old space.new result }
    ensures ready { S.is_ready space.new }
{
    for attached in attachments {
        check_rule(space, alloc, boxes, place, name, descriptor, attached)?;
    }
    Ok(())
}

/// Nothing is done where a live box keeps this rule of a relation, whose second relation, if it has one, has the columns that the catalogue
/// says. Else the catalogue's root is called damaged.
pub fn check_rule<S: PageSpace, B: Boxes>(
    space: &mut S,
    alloc: Global,
    boxes: &B,
    place: Place,
    name: &Str,
    descriptor: &Descriptor,
    attached: &Attached,
) -> Result<(), SpaceFault>
    requires ready { S.is_ready space.old }
    requires owner { place.owner ≡ 2 }
    requires storable { IsStorableAttached attached.now }

    ensures live { OnOk result (IsLiveRule (B.meanings boxes.now) (rule_of name.now descriptor.now attached.now)) }
    ensures undamaged { IfErr result (λ e. OverTables S.has (B.meanings boxes.now) place.root space.old (λ kept. (a : db.Attached)
        → StandsRule (B.meanings boxes.now) (rule_of name.now descriptor.now attached.now) a (db_of kept) → IsSound e)) }
    ensures looks { Looks S.has S.leads S.fails space.old space.new result }
    ensures ready { S.is_ready space.new }
{
    let Some(other) = other_relation(&attached.rule) else {
        return check_beside(boxes, place, name, descriptor, None, attached);
    };
    if *other == *name {
        let own = Some(&descriptor.schema);
        return check_beside(boxes, place, name, descriptor, own, attached);
    }
    let columns = columns_in(descriptor_at(space, alloc, place, other)?);
    check_beside(boxes, place, name, descriptor, columns.as_ref(), attached)
}

fn columns_in(found: Option<Descriptor>) -> Option<Schema>
    ensures { result ≡ option_map (λ d. d.schema) found }
{
    Some(found?.schema)
}

/// The same where the second relation has these columns.
fn check_beside<B: Boxes>(
    boxes: &B,
    place: Place,
    name: &Str,
    descriptor: &Descriptor,
    other: Option<&Schema>,
    attached: &Attached,
) -> Result<(), SpaceFault>
    requires storable { IsStorableAttached attached.now }
    requires own { tied_by attached.now.rule ≡ Some name.now → option_copied other ≡ Some descriptor.now.schema }

    ensures live { OnOk result (IsLiveRule (B.meanings boxes.now) (rule_of name.now descriptor.now attached.now)) }
    ensures undamaged { IfErr result (λ e. (a : db.Attached) (base : db.Db) → Knows base attached.now.rule (option_copied other.entry)
        → StandsRule (B.meanings boxes.now) (rule_of name.now descriptor.now attached.now) a base → IsSound e) }
    ensures own { IfErr result IsOwnFault }
{
    if keeps_rule(boxes, name, descriptor, other, attached) {
        Ok(())
    } else {
        Err(SpaceFault::Damaged { page: place.root })
    }
}

/// Whether a live box keeps the rule, where the second relation has these columns.
fn keeps_rule<B: Boxes>(
    boxes: &B,
    name: &Str,
    descriptor: &Descriptor,
    other: Option<&Schema>,
    attached: &Attached,
) -> bool
    requires storable { IsStorableAttached attached.now }
    requires own { tied_by attached.now.rule ≡ Some name.now → option_copied other ≡ Some descriptor.now.schema }

    ensures live { IsTrue result → IsLiveRule (B.meanings boxes.now) (rule_of name.now descriptor.now attached.now) }
    ensures stands { (a : db.Attached) (base : db.Db) → Knows base attached.now.rule (option_copied other.entry)
        → StandsRule (B.meanings boxes.now) (rule_of name.now descriptor.now attached.now) a base → IsTrue result }
{
    if !boxes.has_rule(attached.code) {
        return false;
    }
    if !has_place(name, attached) {
        return false;
    }
    boxes.learn_rule(attached.code);
    let fits = foreign_fits(boxes, &descriptor.schema, attached);
    may_stand(&descriptor.schema, other, &attached.rule, fits)
}

/// Whether the attachment has an owner just where its pages are kept, and is no join of the relation with itself.
fn has_place(name: &Str, attached: &Attached) -> bool
    ensures { IsTrue result ↔ HasPlace name.now attached.now }
{
    is_owned(attached) && joins_another(name, &attached.rule)
}

/// Whether it has an owner where its code keeps pages, and none where it doesn't.
fn is_owned(attached: &Attached) -> bool
    ensures { IsTrue result ↔ OwnsPages (keeps_pages attached.now.code) attached.now.owner }
{
    match attached.code {
        5 | 6 | 7 => attached.owner == 0,
        _ => attached.owner != 0,
    }
}

fn joins_another(name: &Str, rule: &Rule) -> bool
    ensures { IsTrue result ↔ JoinsAnother name.now rule.now }
{
    match rule {
        Rule::JoinIndex { other, .. } => *other != *name,
        _ => true,
    }
}

/// Whether the extension of a foreign rule's code lets it stand on these columns.
fn foreign_fits<B: Boxes>(boxes: &B, schema: &Schema, attached: &Attached) -> bool
    ensures { SaysFits (option_map (λ a. a.rules) (attachment_of attached.now.code (B.meanings boxes.now).attachments)) schema.now
        attached.now.rule result }
{
    match &attached.rule {
        Rule::Foreign { desc, .. } => boxes.fits_rule(attached.code, schema, desc),
        _ => false,
    }
}
