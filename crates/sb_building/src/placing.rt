//! An attachment's place in the descriptor of its relation.

ghost use Rattle.std.specs.Prelude.{◌≡◌, ◌*◌, ◌<◌, ◌≤◌, ◌↔◌, IsTrue, Some, IfErr, IfOk, OnOk, length, map, nat_lt, position};
ghost use Rattle.std.specs.FinMap.Entries.{put};
ghost use Rattle.std.specs.List.{position_or_len};
ghost use Rattle.sb_node.specs.Entries.{key_cmp};
ghost use Rattle.sb_fold.specs.Costs.{tree_cost};
ghost use Rattle.sb_forms.specs.Maps.{map_in};
ghost use Rattle.sb_drive.specs.Slots.{owned};
ghost use Rattle.sb_drive.specs.Spaces.{LeadsOn, LeadsWithin, Leaves};
ghost use Rattle.sb_catalog.specs.Descriptors.{descriptor_spelling, IsStorableAttached, IsStorableDescriptor};
ghost use Rattle.sb_standing.specs.Lacking.{IsShort, WhereShort};
ghost use Rattle.sb_standing.specs.Standing.{with_described};
ghost use Rattle.sb_standing.specs.Tables.{entry_of};
ghost use Rattle.sb_tables.specs.Refusals.{HasFaultCause, HasRefusalCause, refusal_of};
ghost use Rattle.sb_building.specs.Attaching.{IsRoomy};
ghost use Rattle.sb_building.specs.Instances.{Site};

use sb_catalog::{Attached, AttachedList, Descriptor, descriptor_len};
use sb_drive::{PageSpace, SpaceFault};
use sb_tables::{Place, enter};
use sb_value::Str;
use std::alloc::{AllocError, Global};

/// The attachments of a relation at most, the bytes of its descriptor, and those of a name.
const MOST_ATTACHMENTS: usize = 16;

const MOST_BYTES: usize = 1900;

const MOST_NAME: usize = 100;

/// Gives the relation of a name its descriptor with one attachment more. Where there are too many, or it is too large, the catalogue's root
/// is called damaged.
pub(crate) fn place_rule<S: PageSpace>(
    space: &mut S,
    alloc: Global,
    place: Place,
    name: &Str,
    descriptor: Descriptor,
    attached: Attached,
) -> Result<(), SpaceFault>
    requires ready { S.is_ready space.old }
    requires owner { place.owner ≡ 2 }
    requires storable { IsStorableDescriptor descriptor }
    requires attached { IsStorableAttached attached }

    ensures placed { OnOk result ((x : Site) → S.has x.want x.slots space.old
        → map_in place.root (owned x.slots 2) ≡ Some (map entry_of x.kept)
        → Leaves S.has 2 x.want x.slots space.new (λ after. map_in place.root after
        ≡ Some (put key_cmp name.now (descriptor_spelling (record descriptor { attachments = with_described attached descriptor.attachments }))
        (map entry_of x.kept)))) }
    ensures storable { OnOk result (IsStorableDescriptor (record descriptor { attachments = with_described attached descriptor.attachments })) }
    ensures refused { IfErr result (λ e. (x : Site) → S.has x.want x.slots space.old
        → map_in place.root (owned x.slots 2) ≡ Some (map entry_of x.kept)
        → IsRoomy name.now descriptor attached → HasRefusalCause S.fails (refusal_of e) space.new) }
    ensures full { IfErr result (λ e. (x : Site) → S.has x.want x.slots space.old
        → map_in place.root (owned x.slots 2) ≡ Some (map entry_of x.kept)
        → WhereShort e (IsShort x.slots 2 (2 * length (map entry_of x.kept)))) }
    ensures costs { (x : Site) → S.has x.want x.slots space.old → map_in place.root (owned x.slots 2) ≡ Some (map entry_of x.kept)
        → LeadsWithin S.leads (tree_cost (length (map entry_of x.kept))) space.old space.new }
    ensures fault { IfErr result (λ e. HasFaultCause S.fails (refusal_of e) space.new) }
    ensures leads { LeadsOn S.leads space.old space.new }
    ensures ready { S.is_ready space.new }
{
    if !has_room(name, &descriptor) {
        drop(descriptor);
        drop(attached);
        return Err(SpaceFault::Damaged { page: place.root });
    }
    let new = with_attached(descriptor, attached)?;
    if descriptor_len(&new) > MOST_BYTES {
        drop(new);
        return Err(SpaceFault::Damaged { page: place.root });
    }
    let entered = enter(space, alloc, place, name, &new);
    drop(new);
    entered
}

/// Whether there are few attachments enough for one more, and the name is short enough.
fn has_room(name: &Str, descriptor: &Descriptor) -> bool
    ensures { IsTrue result ↔ ((length descriptor.now.attachments < 16) × (length name.now ≤ 100)) }
{
    descriptor.attachments.len() < MOST_ATTACHMENTS && name.len() <= MOST_NAME
}

/// The descriptor with one attachment more, behind those of its code and of lesser ones.
fn with_attached(descriptor: Descriptor, attached: Attached) -> Result<Descriptor, AllocError>
    ensures { IfOk result (λ d. d ≡ record descriptor { attachments = with_described attached descriptor.attachments }) }
{
    let Descriptor {
        method,
        owner,
        root,
        schema,
        key,
        attachments,
    } = descriptor;
    let mut list = attachments.into_vec();
    let at = place_for(&list, attached.code);
    list.insert(at, attached)?;
    Ok(Descriptor {
        method,
        owner,
        root,
        schema,
        key,
        attachments: AttachedList::from_vec(list),
    })
}

/// The place behind those of the code and of lesser ones.
fn place_for(attachments: &[Attached], code: u16) -> usize
    ensures place { result ≡ position_or_len (λ d. nat_lt code d.code) attachments.now }
    ensures within { result ≤ length attachments.now }
{
    first_above(attachments, code).unwrap_or(attachments.len())
}

fn first_above(attachments: &[Attached], code: u16) -> Option<usize>
    ensures { result ≡ position (λ d. nat_lt code d.code) attachments.now }
{
    attachments.iter().position(|attached| code < attached.code)
}
