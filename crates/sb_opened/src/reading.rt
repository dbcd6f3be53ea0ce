//! The entries of the catalogue: descriptors under their names.

ghost use Rattle.std.specs.Prelude.{◌≡◌, IfErr, IfOk, IfSome, IsUtf8, List, option_copied, option_map};
ghost use Rattle.sb_drive.specs.Slots.{Slots};
ghost use Rattle.sb_drive.specs.Spaces.{Wanted};
ghost use Rattle.sb_catalog.specs.declared.descriptor.Descriptor.{Descriptor as Description};
ghost use Rattle.sb_catalog.specs.Descriptors.{descriptor_spelling, IsStorableDescriptor};
ghost use Rattle.sb_registry.specs.Boxes.{Meanings};
ghost use Rattle.sb_registry.specs.Runs.{IsSound, Looks};
ghost use Rattle.sb_standing.specs.Tables.{first_above, kept_at};
ghost use Rattle.sb_opened.specs.Opened.{IsOwnFault, OverTables, kept_header};

use sb_catalog::{Descriptor, read_descriptor};
use sb_drive::{PageSpace, SpaceFault};
use sb_map::{Place, get, next};
use sb_value::{Bytes, RecKey, Str};
use std::alloc::Global;

/// The descriptor of a relation, or `None` where the catalogue has none of this name.
pub fn descriptor_at<S: PageSpace>(
    space: &mut S,
    alloc: Global,
    place: Place,
    name: &Str,
) -> Result<Option<Descriptor>, SpaceFault>
    requires ready { S.is_ready space.old }
    requires owner { place.owner ≡ 2 }

    ensures storable { IfOk result (λ x. IfSome x IsStorableDescriptor) }
    ensures found { IfOk result (λ x. (m : Meanings) → OverTables S.has m place.root space.old
        (λ kept. x ≡ option_map (λ k. k.descriptor) (kept_at kept name.now))) }
    ensures undamaged { IfErr result (λ e. (m : Meanings) → OverTables S.has m place.root space.old (λ kept. IsSound e)) }
    ensures looks { Looks S.has S.leads S.fails space.old space.new result }
    ensures ready { S.is_ready space.new }
{
    let Some(bytes) = get(space, alloc, place, name.as_bytes())? else {
        return Ok(None);
    };
    let descriptor = descriptor_in(alloc, place, &bytes)?;
    Ok(Some(descriptor))
}

/// The name and the descriptor of the first relation behind a name, or of the first of all.
pub fn next_descriptor<S: PageSpace>(
    space: &mut S,
    alloc: Global,
    place: Place,
    after: Option<&Str>,
) -> Result<Option<(Str, Descriptor)>, SpaceFault>
    requires ready { S.is_ready space.old }
    requires owner { place.owner ≡ 2 }

    ensures storable { IfOk result (λ x. IfSome x (λ entry. IsStorableDescriptor entry.1)) }
    ensures found { IfOk result (λ x. (m : Meanings) → OverTables S.has m place.root space.old
        (λ kept. x ≡ option_map kept_header (first_above (option_copied after.entry) kept))) }
    ensures undamaged { IfErr result (λ e. (m : Meanings) → OverTables S.has m place.root space.old (λ kept. IsSound e)) }
    ensures looks { Looks S.has S.leads S.fails space.old space.new result }
    ensures ready { S.is_ready space.new }
{
    let Some((key, bytes)) = next(space, alloc, place, bytes_of(after))? else {
        return Ok(None);
    };
    let entry = entry_in(alloc, place, &key, &bytes)?;
    Ok(Some(entry))
}

fn bytes_of(name: Option<&Str>) -> Option<&[u8]>
    ensures { option_copied result ≡ option_copied name.entry }
{
    Some(name?.as_bytes())
}

/// The descriptor that these bytes of an entry spell. Where they spell none, the root is called damaged, since the map doesn't tell the
/// entry's leaf.
fn descriptor_in(alloc: Global, place: Place, bytes: &Bytes) -> Result<Descriptor, SpaceFault>
    ensures storable { IfOk result IsStorableDescriptor }
    ensures read { IfOk result (λ d. bytes.now ≡ descriptor_spelling d) }
    ensures undamaged { IfErr result (λ e. (d : Description) → IsStorableDescriptor d → bytes.now ≡ descriptor_spelling d → IsSound e) }
    ensures own { IfErr result IsOwnFault }
{
    match read_descriptor(alloc, bytes.as_slice())? {
        Some(descriptor) => Ok(descriptor),
        None => Err(SpaceFault::Damaged { page: place.root }),
    }
}

/// The name and the descriptor of an entry.
fn entry_in(
    alloc: Global,
    place: Place,
    key: &RecKey,
    bytes: &Bytes,
) -> Result<(Str, Descriptor), SpaceFault>
    ensures storable { IfOk result (λ entry. IsStorableDescriptor entry.1) }
    ensures name { IfOk result (λ entry. entry.0 ≡ key.now) }
    ensures read { IfOk result (λ entry. bytes.now ≡ descriptor_spelling entry.1) }
    ensures undamaged { IfErr result (λ e. (d : Description) → IsUtf8 key.now → IsStorableDescriptor d → bytes.now ≡ descriptor_spelling d
        → IsSound e) }
    ensures own { IfErr result IsOwnFault }
{
    let Some(name) = Str::from_utf8(alloc, key.as_slice())? else {
        return Err(SpaceFault::Damaged { page: place.root });
    };
    let descriptor = descriptor_in(alloc, place, bytes)?;
    Ok((name, descriptor))
}
