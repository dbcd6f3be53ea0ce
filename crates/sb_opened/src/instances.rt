//! The instances of a relation's boxes, as its descriptor has them.

ghost use Rattle.std.specs.Prelude.{◌≡◌, ◌↔◌, All, IfErr, IfOk, IsTrue, true, map};
ghost use Rattle.sb_catalog.specs.Descriptors.{IsStorableAttached};
ghost use Rattle.sb_registry.specs.Live.{IsLive};
ghost use Rattle.sb_registry.specs.Runs.{IsSound};
ghost use Rattle.sb_standing.specs.Instances.{table_instance};
ghost use Rattle.sb_standing.specs.Tables.{IsWide};
ghost use Rattle.sb_opened.specs.Opened.{IsOwnFault, rule_of};

use sb_catalog::{Attached, Descriptor};
use sb_ctx::Instance;
use sb_drive::SpaceFault;
use sb_map::Place;
use sb_registry::Boxes;
use sb_rule::write_rule;
use sb_value::{Bytes, Names, Schema, Str};
use std::alloc::{AllocError, Global};

/// The instance of the storage method. Where no live one keeps it, or its rows have no column or more than 16, the catalogue's root is
/// called damaged.
pub(crate) fn live_table<B: Boxes>(
    alloc: Global,
    boxes: &B,
    place: Place,
    name: &Str,
    descriptor: &Descriptor,
) -> Result<Instance, SpaceFault>
    ensures table { IfOk result (λ table. table ≡ table_instance true name.now descriptor.now) }
    ensures live { IfOk result (λ table. IsLive (B.meanings boxes.now) table × IsWide descriptor.now.schema) }
    ensures undamaged { IfErr result (λ e. IsLive (B.meanings boxes.now) (table_instance true name.now descriptor.now)
        → IsWide descriptor.now.schema → IsSound e) }
    ensures own { IfErr result IsOwnFault }
{
    let table = table_instance(alloc, name, descriptor)?;
    if boxes.keeps(&table) && is_wide(&descriptor.schema) {
        Ok(table)
    } else {
        Err(SpaceFault::Damaged { page: place.root })
    }
}

/// Whether there are 1 to 16 columns.
fn is_wide(schema: &Schema) -> bool
    ensures { IsTrue result ↔ IsWide schema.now }
{
    let columns = schema.len();
    1 <= columns && columns <= 16
}

fn table_instance(
    alloc: Global,
    name: &Str,
    descriptor: &Descriptor,
) -> Result<Instance, AllocError>
    ensures { IfOk result (λ table. table ≡ table_instance true name.now descriptor.now) }
{
    Ok(Instance {
        relation: name.copy()?,
        owner: descriptor.owner,
        root: descriptor.root,
        durable: true,
        code: descriptor.method,
        desc: Bytes::new(alloc),
        schema: descriptor.schema.copy()?,
        key: descriptor.key.copy()?,
    })
}

/// The instances of attachments, in their order.
pub(crate) fn rule_instances(
    alloc: Global,
    name: &Str,
    descriptor: &Descriptor,
    attachments: &[Attached],
) -> Result<Vec<Instance>, AllocError>
    requires { All IsStorableAttached attachments.now }
    ensures { IfOk result (λ rules. rules.items ≡ map (rule_of name.now descriptor.now) attachments.now) }
{
    let mut rules = Vec::new(alloc);
    for attached in attachments {
        rules.push(rule_instance(alloc, name, descriptor, attached)?)?;
    }
    Ok(rules)
}

/// The instance of an attachment.
pub fn rule_instance(
    alloc: Global,
    name: &Str,
    descriptor: &Descriptor,
    attached: &Attached,
) -> Result<Instance, AllocError>
    requires { IsStorableAttached attached.now }
    ensures { IfOk result (λ rule. rule ≡ rule_of name.now descriptor.now attached.now) }
{
    let mut desc = Bytes::new(alloc);
    write_rule(&attached.rule, &mut desc)?;
    Ok(Instance {
        relation: name.copy()?,
        owner: attached.owner,
        root: attached.root,
        durable: true,
        code: attached.code,
        desc,
        schema: descriptor.schema.copy()?,
        key: Names::from_vec(Vec::new(alloc)),
    })
}
