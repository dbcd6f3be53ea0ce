//! Opening a relation.

ghost use Rattle.std.specs.Prelude.{◌≡◌, List, option_map, option_copied, IfOk, IfErr, IfSome};
ghost use Rattle.sb_drive.specs.Slots.{Slots};
ghost use Rattle.sb_drive.specs.Spaces.{Wanted};
ghost use Rattle.sb_catalog.specs.Descriptors.{IsStorableDescriptor};
ghost use Rattle.sb_registry.specs.Runs.{IsSound, Looks};
ghost use Rattle.sb_standing.specs.Standing.{StandRules};
ghost use Rattle.sb_standing.specs.Tables.{Kept, Tables, db_of, first_above, kept_at};
ghost use Rattle.sb_opened.specs.Opened.{IsOpen, IsDurable, MayOpen, OverTables, header_of, kept_header};

use crate::instances::{live_table, rule_instances};
use crate::reading::{descriptor_at, next_descriptor};
use crate::relation::OpenRelation;
use crate::rules::check_rules;
use sb_catalog::Descriptor;
use sb_drive::{PageSpace, SpaceFault};
use sb_map::Place;
use sb_registry::Boxes;
use sb_value::Str;
use std::alloc::Global;

/// Opens a relation, or says that there is none of this name.
pub fn open_relation<S: PageSpace, B: Boxes>(
    space: &mut S,
    alloc: Global,
    boxes: &B,
    place: Place,
    name: &Str,
) -> Result<Option<OpenRelation>, SpaceFault>
    requires ready { S.is_ready space.old }
    requires owner { place.owner ≡ 2 }

    ensures opened { IfOk result (λ x. IfSome x (λ o. IsOpen (B.meanings boxes.now) o × (o.name ≡ name.now))) }
    ensures found { IfOk result (λ x. (want : Wanted) (s : Slots) (kept : List Kept) → S.has want s space.old
        → Tables (B.meanings boxes.now) IsDurable place.root s kept
        → option_map (λ o. o.descriptor) x ≡ option_map (λ k. k.descriptor) (kept_at kept name.now)) }
    ensures undamaged { IfErr result (λ e. (want : Wanted) (s : Slots) (kept : List Kept) → S.has want s space.old
        → Tables (B.meanings boxes.now) IsDurable place.root s kept
        → StandRules (B.meanings boxes.now) IsDurable (db_of kept) kept → IsSound e) }
    ensures looks { Looks S.has S.leads S.fails space.old space.new result }
    ensures ready { S.is_ready space.new }
{
    let Some(descriptor) = descriptor_at(space, alloc, place, name)? else {
        return Ok(None);
    };
    let copy = name.copy()?;
    let open = open(space, alloc, boxes, place, copy, descriptor)?;
    Ok(Some(open))
}

/// The first relation behind a name in the order of names, or the first of all.
pub fn next_relation<S: PageSpace, B: Boxes>(
    space: &mut S,
    alloc: Global,
    boxes: &B,
    place: Place,
    after: Option<&Str>,
) -> Result<Option<OpenRelation>, SpaceFault>
    requires ready { S.is_ready space.old }
    requires owner { place.owner ≡ 2 }

    ensures opened { IfOk result (λ x. IfSome x (IsOpen (B.meanings boxes.now))) }
    ensures found { IfOk result (λ x. (want : Wanted) (s : Slots) (kept : List Kept) → S.has want s space.old
        → Tables (B.meanings boxes.now) IsDurable place.root s kept
        → option_map header_of x ≡ option_map kept_header (first_above (option_copied after.entry) kept)) }
    ensures undamaged { IfErr result (λ e. (want : Wanted) (s : Slots) (kept : List Kept) → S.has want s space.old
        → Tables (B.meanings boxes.now) IsDurable place.root s kept
        → StandRules (B.meanings boxes.now) IsDurable (db_of kept) kept → IsSound e) }
    ensures looks { Looks S.has S.leads S.fails space.old space.new result }
    ensures ready { S.is_ready space.new }
{
    let Some((name, descriptor)) = next_descriptor(space, alloc, place, after)? else {
        return Ok(None);
    };
    let next = open(space, alloc, boxes, place, name, descriptor)?;
    Ok(Some(next))
}

/// Opens the relation of this descriptor.
fn open<S: PageSpace, B: Boxes>(
    space: &mut S,
    alloc: Global,
    boxes: &B,
    place: Place,
    name: Str,
    descriptor: Descriptor,
) -> Result<OpenRelation, SpaceFault>
    requires ready { S.is_ready space.old }
    requires owner { place.owner ≡ 2 }
    requires storable { IsStorableDescriptor descriptor }

    ensures opened { IfOk result (IsOpen (B.meanings boxes.now)) }
    ensures header { IfOk result (λ o. header_of o ≡ (name, descriptor)) }
    ensures undamaged { IfErr result (λ e. OverTables S.has (B.meanings boxes.now) place.root space.old
        (λ kept. MayOpen (B.meanings boxes.now) (db_of kept) name descriptor → IsSound e)) }
    ensures looks { Looks S.has S.leads S.fails space.old space.new result }
    ensures ready { S.is_ready space.new }
{
    let table = live_table(alloc, boxes, place, &name, &descriptor)?;
    let attachments = descriptor.attachments.as_slice();
    check_rules(space, alloc, boxes, place, &name, &descriptor, attachments)?;
    let rules = rule_instances(alloc, &name, &descriptor, attachments)?;
    Ok(OpenRelation {
        name,
        descriptor,
        table,
        rules,
    })
}
