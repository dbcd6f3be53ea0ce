//! Descriptors read from bytes.

ghost use Rattle.std.specs.Prelude.{◌≡◌, ◌<◌, IfOk, IfSome, IfNone, MatchOption, Some, length, take};
ghost use Rattle.std.specs.Int.{to_be_bytes, w16, w32};
ghost use Rattle.std.specs.List.{flat_map};
ghost use Rattle.sb_value.specs.declared.schema.Kind.{Kind as Sort};
ghost use Rattle.sb_pred.specs.Reading.{Finds};
ghost use Rattle.sb_rule.specs.Reading.{AreSoMany};
ghost use Rattle.sb_rule.specs.Spelling.{IsShortList};
ghost use Rattle.sb_catalog.specs.declared.descriptor.Descriptor.{Descriptor as Description};
ghost use Rattle.sb_catalog.specs.Descriptors.{short_spelling, long_spelling, instance_spelling, kind_byte, column_spelling, columns_spelling, counted_spelling, attached_spelling, attachments_spelling, descriptor_spelling, IsInstance, IsLimit, IsStorableColumn, IsCountedRule, IsStorableAttached, IsStorableDescriptor};
ghost use Rattle.sb_catalog.specs.Reading.{IsShortNumber, IsLongNumber, IsType, type_spelling};

use crate::{Attached, AttachedList, Descriptor};
use sb_pred::name_of;
use sb_rule::{Rule, names_of, read_rule};
use sb_value::{Column, Kind, Schema};
use std::alloc::{AllocError, Global};

/// The number in the first 2 bytes, where there are as many.
fn first_two(bytes: &[u8]) -> Option<u16>
    ensures { MatchOption result (length bytes.now < 2) (λ n. IsShortNumber n × (take 2 bytes.now ≡ to_be_bytes w16 n)) }
{
    match bytes {
        [a, b, ..] => Some(u16::from_be_bytes([*a, *b])),
        _ => None,
    }
}

/// The number in the first 4 bytes, where there are as many.
fn first_four(bytes: &[u8]) -> Option<u32>
    ensures { MatchOption result (length bytes.now < 4) (λ n. IsLongNumber n × (take 4 bytes.now ≡ to_be_bytes w32 n)) }
{
    match bytes {
        [a, b, c, d, ..] => Some(u32::from_be_bytes([*a, *b, *c, *d])),
        _ => None,
    }
}

fn short_of(bytes: &[u8]) -> Option<(u16, &[u8])>
    ensures { Finds IsShortNumber short_spelling bytes.now result }
{
    let number = first_two(bytes)?;
    Some((number, &bytes[2..]))
}

fn long_of(bytes: &[u8]) -> Option<(u32, &[u8])>
    ensures { Finds IsLongNumber long_spelling bytes.now result }
{
    let number = first_four(bytes)?;
    Some((number, &bytes[4..]))
}

/// A code, an owner and a root.
fn instance_of(bytes: &[u8]) -> Option<((u16, u16, u32), &[u8])>
    ensures { Finds IsInstance instance_spelling bytes.now result }
{
    let Some((code, rest)) = short_of(bytes) else {
        return None;
    };
    let Some((owner, rest)) = short_of(rest) else {
        return None;
    };
    let Some((root, rest)) = long_of(rest) else {
        return None;
    };
    Some(((code, owner, root), rest))
}

fn kind_of(byte: u8, limit: u8) -> Option<Kind>
    ensures found { IfSome result (λ kind. (byte ≡ kind_byte kind) × IsLimit kind limit) }
    ensures none { IfNone result ((kind : Sort) → byte ≡ kind_byte kind → ¬ IsLimit kind limit) }
{
    match byte {
        1 if limit == 0 => Some(Kind::Int),
        2 => Some(Kind::Text),
        _ => None,
    }
}

fn type_of(bytes: &[u8]) -> Option<((Kind, u8), &[u8])>
    ensures { Finds IsType type_spelling bytes.now result }
{
    let [byte, limit, rest @ ..] = bytes else {
        return None;
    };
    let Some(kind) = kind_of(*byte, *limit) else {
        return None;
    };
    Some(((kind, *limit), rest))
}

fn column_of(alloc: Global, bytes: &[u8]) -> Result<Option<(Column, &[u8])>, AllocError>
    ensures { IfOk result (λ r. Finds IsStorableColumn column_spelling bytes.now r) }
{
    let Some((name, rest)) = name_of(alloc, bytes)? else {
        return Ok(None);
    };
    let Some(((kind, limit), rest)) = type_of(rest) else {
        return Ok(None);
    };
    Ok(Some((Column { name, kind, limit }, rest)))
}

fn take_columns(
    alloc: Global,
    count: u8,
    bytes: &[u8],
) -> Result<Option<(Schema, &[u8])>, AllocError>
    ensures { IfOk result (λ r. Finds (AreSoMany count IsStorableColumn) (flat_map column_spelling) bytes.now r) }
{
    let mut columns = Vec::new(alloc);
    let mut rest = bytes;
    for _ in 0..count {
        let Some((column, after)) = column_of(alloc, rest)? else {
            return Ok(None);
        };
        columns.push(column)?;
        rest = after;
    }
    Ok(Some((Schema::from_vec(columns), rest)))
}

fn columns_of(alloc: Global, bytes: &[u8]) -> Result<Option<(Schema, &[u8])>, AllocError>
    ensures { IfOk result (λ r. Finds (IsShortList IsStorableColumn) columns_spelling bytes.now r) }
{
    let [count, rest @ ..] = bytes else {
        return Ok(None);
    };
    take_columns(alloc, *count, rest)
}

/// A rule of this code behind the number of its bytes.
fn rule_of(alloc: Global, code: u16, bytes: &[u8]) -> Result<Option<(Rule, &[u8])>, AllocError>
    ensures { IfOk result (λ r. Finds (IsCountedRule code) counted_spelling bytes.now r) }
{
    let Some((len, rest)) = short_of(bytes) else {
        return Ok(None);
    };
    let len = len as usize;
    if rest.len() < len {
        return Ok(None);
    }
    let (spelling, rest) = rest.split_at(len);
    match read_rule(alloc, code, spelling)? {
        Some(rule) => Ok(Some((rule, rest))),
        None => Ok(None),
    }
}

fn attached_of(alloc: Global, bytes: &[u8]) -> Result<Option<(Attached, &[u8])>, AllocError>
    ensures { IfOk result (λ r. Finds IsStorableAttached attached_spelling bytes.now r) }
{
    let Some(((code, owner, root), rest)) = instance_of(bytes) else {
        return Ok(None);
    };
    let Some((name, rest)) = name_of(alloc, rest)? else {
        return Ok(None);
    };
    let Some((rule, rest)) = rule_of(alloc, code, rest)? else {
        return Ok(None);
    };
    let attached = Attached {
        code,
        owner,
        root,
        name,
        rule,
    };
    Ok(Some((attached, rest)))
}

fn take_attachments(
    alloc: Global,
    count: u8,
    bytes: &[u8],
) -> Result<Option<(AttachedList, &[u8])>, AllocError>
    ensures { IfOk result (λ r. Finds (AreSoMany count IsStorableAttached) (flat_map attached_spelling) bytes.now r) }
{
    let mut attachments = Vec::new(alloc);
    let mut rest = bytes;
    for _ in 0..count {
        let Some((attached, after)) = attached_of(alloc, rest)? else {
            return Ok(None);
        };
        attachments.push(attached)?;
        rest = after;
    }
    Ok(Some((AttachedList::from_vec(attachments), rest)))
}

fn attachments_of(alloc: Global, bytes: &[u8]) -> Result<Option<(AttachedList, &[u8])>, AllocError>
    ensures { IfOk result (λ r. Finds (IsShortList IsStorableAttached) attachments_spelling bytes.now r) }
{
    let [count, rest @ ..] = bytes else {
        return Ok(None);
    };
    take_attachments(alloc, *count, rest)
}

fn descriptor_of(alloc: Global, bytes: &[u8]) -> Result<Option<(Descriptor, &[u8])>, AllocError>
    ensures { IfOk result (λ r. Finds IsStorableDescriptor descriptor_spelling bytes.now r) }
{
    let Some(((method, owner, root), rest)) = instance_of(bytes) else {
        return Ok(None);
    };
    let Some((schema, rest)) = columns_of(alloc, rest)? else {
        return Ok(None);
    };
    let Some((key, rest)) = names_of(alloc, rest)? else {
        return Ok(None);
    };
    let Some((attachments, rest)) = attachments_of(alloc, rest)? else {
        return Ok(None);
    };
    let descriptor = Descriptor {
        method,
        owner,
        root,
        schema,
        key,
        attachments,
    };
    Ok(Some((descriptor, rest)))
}

/// The descriptor that all the bytes spell; `None` exactly where they spell none that can be stored.
pub fn read_descriptor(alloc: Global, bytes: &[u8]) -> Result<Option<Descriptor>, AllocError>
    // What is read can be stored and is spelled so.
    ensures found { IfOk result (λ r. IfSome r (λ d. IsStorableDescriptor d × (bytes.now ≡ descriptor_spelling d))) }

    // What can be stored and is spelled so is read.
    ensures only { (d : Description) → IsStorableDescriptor d → bytes.now ≡ descriptor_spelling d → IfOk result (λ r. r ≡ Some d) }
{
    let Some((descriptor, rest)) = descriptor_of(alloc, bytes)? else {
        return Ok(None);
    };
    if rest.is_empty() {
        Ok(Some(descriptor))
    } else {
        Ok(None)
    }
}
