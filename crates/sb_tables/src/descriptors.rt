//! Descriptors in the catalogue.

ghost use Rattle.std.specs.Prelude.{◌≡◌, ◌↔◌, IsTrue, All, List, Some, IfOk, IfErr, OnOk, map, not, bytes_eq, length, ◌*◌, ◌≤◌};
ghost use Rattle.std.specs.List.{filter};
ghost use Rattle.std.specs.FinMap.Entries.{put};
ghost use Rattle.sb_node.specs.Entries.{Entry, key_cmp};
ghost use Rattle.sb_forms.specs.Maps.{map_in};
ghost use Rattle.sb_fold.specs.Costs.{tree_cost};
ghost use Rattle.sb_rule.specs.Spelling.{IsShortName};
ghost use Rattle.sb_drive.specs.Slots.{Slots, owned};
ghost use Rattle.sb_drive.specs.Spaces.{LeadsOn, LeadsWithin, Leaves, Wanted};
ghost use Rattle.sb_catalog.specs.Descriptors.{descriptor_spelling, IsConsistent, IsShortDescriptor, IsStorableDescriptor};
ghost use Rattle.sb_engine.specs.Changes.{IsSmall};
ghost use Rattle.sb_registry.specs.Runs.{IsSound};
ghost use Rattle.sb_standing.specs.Instances.{owners_of};
ghost use Rattle.sb_standing.specs.Lacking.{IsShort, WhereShort};
ghost use Rattle.sb_standing.specs.Standing.{owners_named, without_described};
ghost use Rattle.sb_engine.specs.Opened.{IsOwnFault};
ghost use Rattle.sb_engine.specs.Refusals.{HasFaultCause, HasRefusalCause, refusal_of};
ghost use Rattle.sb_tables.specs.Creation.{AreShort};

use sb_catalog::{Attached, AttachedList, Descriptor, write_descriptor};
use sb_drive::{PageSpace, SpaceFault};
use sb_engine::{Place, put};
use sb_value::{Bytes, Column, Names, Schema, Str};
use std::alloc::{AllocError, Global};

/// The most bytes of a name and of anything in a descriptor that has its length in one byte.
const MOST_SHORT: usize = 255;

/// The most bytes of a key of a map, and those of a key with its value.
const MOST_KEY: usize = 602;

const MOST_ENTRY: usize = 2032;

/// Whether columns and a key are short lists of short names.
pub(crate) fn are_short(schema: &Schema, key: &Names) -> bool
    ensures { IsTrue result ↔ AreShort schema.now key.now }
{
    schema.len() <= MOST_SHORT
        && key.len() <= MOST_SHORT
        && are_short_columns(schema.as_slice())
        && are_short_names(key.as_slice())
}

fn are_short_columns(columns: &[Column]) -> bool
    ensures { IsTrue result ↔ All (λ c. IsShortName c.name) columns.now }
{
    match columns {
        [column, columns @ ..] => column.name.len() <= MOST_SHORT && are_short_columns(columns),
        [] => true,
    }
}

fn are_short_names(names: &[Str]) -> bool
    ensures { IsTrue result ↔ All IsShortName names.now }
{
    match names {
        [name, names @ ..] => name.len() <= MOST_SHORT && are_short_names(names),
        [] => true,
    }
}

/// Gives the relation of a name this descriptor in the catalogue, in the place of another one. Where no page is left for it, the catalogue's pages with
/// the fresh ones are fewer than twice its entries.
pub fn enter<S: PageSpace>(
    space: &mut S,
    alloc: Global,
    place: Place,
    name: &Str,
    descriptor: &Descriptor,
) -> Result<(), SpaceFault>
    requires ready { S.is_ready space.old }
    requires owner { place.owner ≡ 2 }
    requires short { IsShortDescriptor descriptor.now }

    ensures entered { OnOk result ((want : Wanted) (s : Slots) (es : List Entry) → S.has want s space.old → map_in place.root (owned s 2) ≡ Some es
        → Leaves S.has 2 want s space.new (λ after. map_in place.root after ≡ Some (put key_cmp name.now (descriptor_spelling descriptor.now) es))) }
    ensures storable { OnOk result (IsConsistent descriptor.now → IsStorableDescriptor descriptor.now) }
    ensures refused { IfErr result (λ e. (want : Wanted) (s : Slots) (es : List Entry) → S.has want s space.old → map_in place.root (owned s 2) ≡ Some es
        → IsSmall name.now (descriptor_spelling descriptor.now) → HasRefusalCause S.fails (refusal_of e) space.new) }
    ensures full { IfErr result (λ e. (want : Wanted) (s : Slots) (es : List Entry) → S.has want s space.old → map_in place.root (owned s 2) ≡ Some es
        → WhereShort e (IsShort s 2 (2 * length es))) }
    ensures costs { (want : Wanted) (s : Slots) (es : List Entry) → S.has want s space.old → map_in place.root (owned s 2) ≡ Some es
        → LeadsWithin S.leads (tree_cost (length es)) space.old space.new }
    ensures fault { IfErr result (λ e. HasFaultCause S.fails (refusal_of e) space.new) }
    ensures leads { LeadsOn S.leads space.old space.new }
    ensures ready { S.is_ready space.new }
{
    let bytes = spelling_of(alloc, place, name, descriptor)?;
    put(space, alloc, place, name.as_bytes(), bytes.as_slice())
}

/// The bytes of a descriptor. Where they are too many for an entry under the name, the catalogue's root is called damaged.
fn spelling_of(
    alloc: Global,
    place: Place,
    name: &Str,
    descriptor: &Descriptor,
) -> Result<Bytes, SpaceFault>
    requires short { IsShortDescriptor descriptor.now }

    ensures spelled { IfOk result (λ bytes. bytes ≡ descriptor_spelling descriptor.now) }
    ensures small { IfOk result (λ bytes. IsSmall name.now bytes) }
    ensures storable { OnOk result (IsConsistent descriptor.now → IsStorableDescriptor descriptor.now) }
    ensures undamaged { IfErr result (λ e. IsSmall name.now (descriptor_spelling descriptor.now) → IsSound e) }
    ensures own { IfErr result IsOwnFault }
{
    let bytes = write_descriptor(alloc, descriptor)?;
    if name.len() <= MOST_KEY && bytes.len() <= MOST_ENTRY - name.len() {
        Ok(bytes)
    } else {
        Err(SpaceFault::Damaged { page: place.root })
    }
}

/// The descriptor without the attachments of a name.
pub(crate) fn without_named(descriptor: Descriptor, label: &Str) -> Descriptor
    ensures { result ≡ record descriptor { attachments = without_described label.now descriptor.attachments } }
{
    let Descriptor {
        method,
        owner,
        root,
        schema,
        key,
        attachments,
    } = descriptor;
    let mut left = attachments.into_vec();
    left.retain(|attached| attached.name != *label);
    Descriptor {
        method,
        owner,
        root,
        schema,
        key,
        attachments: AttachedList::from_vec(left),
    }
}

/// The owners of the attachments of a name.
pub(crate) fn owners_named(
    alloc: Global,
    descriptor: &Descriptor,
    label: &Str,
) -> Result<Vec<u16>, AllocError>
    ensures { IfOk result (λ owners. owners.items ≡ owners_named label.now descriptor.now) }
{
    let attachments = descriptor.attachments.as_slice();
    attachments
        .iter()
        .filter(|attached| attached.name == *label)
        .map(|attached| attached.owner)
        .collect(alloc)
}

/// The owners of the instances of a relation.
pub(crate) fn owners_of(alloc: Global, descriptor: &Descriptor) -> Result<Vec<u16>, AllocError>
    ensures { IfOk result (λ owners. owners.items ≡ owners_of descriptor.now) }
{
    let mut owners = vec![in alloc; descriptor.owner]?;
    for attached in descriptor.attachments.as_slice() {
        owners.push(attached.owner)?;
    }
    Ok(owners)
}
