//! How long spellings of descriptors are.

ghost use Rattle.std.specs.Prelude.{◌≡◌, ◌-◌, ◌^◌, min, length};
ghost use Rattle.sb_catalog.specs.Descriptors.{columns_spelling, attached_spelling, attachments_spelling, descriptor_spelling, IsShortDescriptor};

use crate::{Attached, Descriptor};
use sb_rule::{names_len, rule_len};
use sb_value::Column;

fn columns_len(columns: &[Column]) -> usize
    ensures { result ≡ min (length (columns_spelling columns.now)) (2 ^ 64 - 1) }
{
    let mut len: usize = 1;
    for column in columns {
        len = len.saturating_add(column.name.len()).saturating_add(3);
    }
    len
}

#[tactic(auto, unfolding(crate::specs::Descriptors::short_spelling, crate::specs::Descriptors::long_spelling))]
fn attached_len(attached: &Attached) -> usize
    ensures { result ≡ min (length (attached_spelling attached.now)) (2 ^ 64 - 1) }
{
    attached
        .name
        .len()
        .saturating_add(rule_len(&attached.rule))
        .saturating_add(11)
}

fn attachments_len(attachments: &[Attached]) -> usize
    ensures { result ≡ min (length (attachments_spelling attachments.now)) (2 ^ 64 - 1) }
{
    let mut len: usize = 1;
    for attached in attachments {
        len = len.saturating_add(attached_len(attached));
    }
    len
}

/// The bytes of the descriptor's spelling, or 2^64 - 1 where there are more.
#[tactic(auto, unfolding(crate::specs::Descriptors::short_spelling, crate::specs::Descriptors::long_spelling))]
pub fn descriptor_len(descriptor: &Descriptor) -> usize
    ensures len { result ≡ min (length (descriptor_spelling descriptor.now)) (2 ^ 64 - 1) }

    // What can be written has fewer bytes.
    ensures exact { IsShortDescriptor descriptor.now → result ≡ length (descriptor_spelling descriptor.now) }
{
    columns_len(descriptor.schema.as_slice())
        .saturating_add(names_len(descriptor.key.as_slice()))
        .saturating_add(attachments_len(descriptor.attachments.as_slice()))
        .saturating_add(8)
}
