//! How many bytes attachments take in descriptors.

ghost use Rattle.std.specs.Prelude.{◌≡◌, ◌-◌, ◌^◌, min};
ghost use Rattle.sb_refusals.specs.Lengths.{attached_len, mirror_len};

use sb_rule::{Rule, Side, rule_len, tie_len};
use sb_value::Str;

/// The bytes that the attachment takes in the descriptor of its relation, or 2^64 - 1 where there are more.
pub(crate) fn attached_len(name: &Str, rule: &Rule) -> usize
    ensures { result ≡ min (attached_len name.now rule.now) (2 ^ 64 - 1) }
{
    name.len().saturating_add(rule_len(rule)).saturating_add(11)
}

/// The bytes that the mirror of the attachment takes in the descriptor of the other relation, or 2^64 - 1 where there are more.
pub(crate) fn mirror_len(relation: &Str, name: &Str, rule: &Rule) -> usize
    ensures { result ≡ min (mirror_len relation.now name.now rule.now) (2 ^ 64 - 1) }
{
    let name_len = relation.len().saturating_add(name.len());
    match rule {
        Rule::JoinIndex {
            side: Side::Main,
            columns,
            others,
            ..
        } => name_len
            .saturating_add(tie_len(others, relation, columns))
            .saturating_add(13),
        Rule::Refers {
            side: Side::Main,
            columns,
            others,
            ..
        } => name_len
            .saturating_add(tie_len(others, relation, columns))
            .saturating_add(15),
        _ => 0,
    }
}
