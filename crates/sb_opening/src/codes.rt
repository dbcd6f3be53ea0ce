//! The codes of boxes that descriptors name, and the owners of instances.

ghost use Rattle.std.specs.Prelude.{◌≡◌, ◌++◌, IfErr, IfOk, OnOk};
ghost use Rattle.sb_registry.specs.Boxes.{Meanings};
ghost use Rattle.sb_registry.specs.Runs.{IsSound, Looks};
ghost use Rattle.sb_standing.specs.Instances.{owners_of};
ghost use Rattle.sb_standing.specs.Standing.{owners_in};
ghost use Rattle.sb_session.specs.Opened.{OverTables};
ghost use Rattle.sb_opening.specs.Naming.{named_by, named_in};

use sb_catalog::Descriptor;
use sb_drive::{PageSpace, SpaceFault};
use sb_map::Place;
use sb_session::next_descriptor;
use std::alloc::{AllocError, Global};

/// The kind and the code of a box: a storage method or an attachment.
#[derive(Clone, Copy, Debug, PartialEq, Eq)]
pub struct Named {
    pub method: bool,
    pub code: u16,
}

/// What the descriptors of all relations name, in the order of the relations' names: of each the code of its storage method first and then those
/// of its attachments, and their owners in the same order.
#[derive(Drop)]
pub(crate) struct Census {
    pub named: Vec<Named>,
    pub owners: Vec<u16>,
}

/// What the descriptors of the catalogue name.
pub(crate) fn take_census<S: PageSpace>(
    space: &mut S,
    alloc: Global,
    place: Place,
) -> Result<Census, SpaceFault>
    requires ready { S.is_ready space.old }
    requires owner { place.owner ≡ 2 }

    ensures codes { IfOk result (λ census. (m : Meanings) → OverTables S.has m place.root space.old
        (λ kept. census.named.items ≡ named_in kept)) }
    ensures owners { IfOk result (λ census. (m : Meanings) → OverTables S.has m place.root space.old
        (λ kept. census.owners.items ≡ owners_in kept)) }
    ensures undamaged { IfErr result (λ e. (m : Meanings) → OverTables S.has m place.root space.old (λ kept. IsSound e)) }
    ensures looks { Looks S.has S.leads S.fails space.old space.new result }
    ensures ready { S.is_ready space.new }
{
    let mut named = Vec::new(alloc);
    let mut owners = Vec::new(alloc);
    let mut last = None;
    'relations: loop {
        let Some((name, descriptor)) = next_descriptor(space, alloc, place, last.as_ref())? else {
            return Ok(Census { named, owners });
        };
        let added = add_both(&mut named, &mut owners, &descriptor);
        drop(descriptor);
        added?;
        last = Some(name);
    }
}

/// Puts the codes that a descriptor names and the owners of its relation's instances behind the others.
fn add_both(
    codes: &mut Vec<Named>,
    owners: &mut Vec<u16>,
    descriptor: &Descriptor,
) -> Result<(), AllocError>
    ensures codes { OnOk result (codes.new.items ≡ codes.old.items ++ named_by descriptor.now) }
    ensures owners { OnOk result (owners.new.items ≡ owners.old.items ++ owners_of descriptor.now) }
{
    add_codes(codes, descriptor)?;
    add_owners(owners, descriptor)
}

/// Puts the codes that a descriptor names behind the others.
fn add_codes(codes: &mut Vec<Named>, descriptor: &Descriptor) -> Result<(), AllocError>
    ensures { OnOk result (codes.new.items ≡ codes.old.items ++ named_by descriptor.now) }
{
    codes.push(Named {
        method: true,
        code: descriptor.method,
    })?;
    for attached in descriptor.attachments.as_slice() {
        codes.push(Named {
            method: false,
            code: attached.code,
        })?;
    }
    Ok(())
}

/// Puts the owners of a relation's instances behind the others: that of its storage method, and those of its attachments.
fn add_owners(owners: &mut Vec<u16>, descriptor: &Descriptor) -> Result<(), AllocError>
    ensures { OnOk result (owners.new.items ≡ owners.old.items ++ owners_of descriptor.now) }
{
    owners.push(descriptor.owner)?;
    for attached in descriptor.attachments.as_slice() {
        owners.push(attached.owner)?;
    }
    Ok(())
}
