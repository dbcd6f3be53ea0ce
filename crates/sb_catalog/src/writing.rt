//! Descriptors written to bytes.

ghost use Rattle.std.specs.Prelude.{◌≡◌, ◌++◌, OnOk, IfOk};
ghost use Rattle.sb_pred.specs.Spelling.{IsStorableName};
ghost use Rattle.sb_rule.specs.Spelling.{names_spelling, IsShortList, IsShortName, IsStorableRule};
ghost use Rattle.sb_catalog.specs.Descriptors.{short_spelling, long_spelling, instance_spelling, kind_byte, column_spelling, columns_spelling, counted_spelling, attached_spelling, attachments_spelling, descriptor_spelling, IsShortCounted, IsShortAttached, IsShortDescriptor, IsStorableDescriptor, IsConsistent, IsInstance};
ghost use Rattle.sb_catalog.specs.Writing.{IsNarrowColumn, IsNarrowAttached};

use crate::{Attached, AttachedList, Descriptor};
use sb_pred::append_name;
use sb_rule::{Rule, rule_len, write_rule};
use sb_value::{Bytes, Column, Kind, Names, Schema};
use std::alloc::{AllocError, Global};

#[tactic(auto, unfolding(crate::specs::Descriptors::short_spelling))]
fn append_short(number: u16, out: &mut Bytes) -> Result<(), AllocError>
    ensures { OnOk result (out.new ≡ out.old ++ short_spelling number) }
{
    out.extend(&number.to_be_bytes())
}

#[tactic(auto, unfolding(crate::specs::Descriptors::long_spelling))]
fn append_long(number: u32, out: &mut Bytes) -> Result<(), AllocError>
    ensures { OnOk result (out.new ≡ out.old ++ long_spelling number) }
{
    out.extend(&number.to_be_bytes())
}

fn append_instance(code: u16, owner: u16, root: u32, out: &mut Bytes) -> Result<(), AllocError>
    ensures ok { OnOk result (out.new ≡ out.old ++ instance_spelling (code, owner, root)) }
    ensures storable { IsInstance (code, owner, root) }
{
    append_short(code, out)?;
    append_short(owner, out)?;
    append_long(root, out)
}

fn byte_of_kind(kind: Kind) -> u8
    ensures { result ≡ kind_byte kind }
{
    match kind {
        Kind::Int => 1,
        Kind::Text => 2,
    }
}

fn append_column(column: &Column, out: &mut Bytes) -> Result<(), AllocError>
    requires { IsShortName column.now.name }
    ensures ok { OnOk result (out.new ≡ out.old ++ column_spelling column.now) }
    ensures storable { OnOk result (IsNarrowColumn column.now) }
{
    append_name(&column.name, out)?;
    out.push(byte_of_kind(column.kind))?;
    out.push(column.limit)
}

fn append_columns(columns: &Schema, out: &mut Bytes) -> Result<(), AllocError>
    requires { IsShortList (λ c. IsShortName c.name) columns.now }
    ensures ok { OnOk result (out.new ≡ out.old ++ columns_spelling columns.now) }
    ensures storable { OnOk result (IsShortList IsNarrowColumn columns.now) }
{
    out.push(columns.len() as u8)?;
    for column in columns.as_slice() {
        append_column(column, out)?;
    }
    Ok(())
}

fn append_names(names: &Names, out: &mut Bytes) -> Result<(), AllocError>
    requires { IsShortList IsShortName names.now }
    ensures ok { OnOk result (out.new ≡ out.old ++ names_spelling names.now) }
    ensures storable { OnOk result (IsShortList IsStorableName names.now) }
{
    out.push(names.len() as u8)?;
    for name in names.as_slice() {
        append_name(name, out)?;
    }
    Ok(())
}

/// Adds the rule's spelling behind the number of its bytes.
fn append_rule(rule: &Rule, out: &mut Bytes) -> Result<(), AllocError>
    requires { IsShortCounted rule.now }
    ensures ok { OnOk result (out.new ≡ out.old ++ counted_spelling rule.now) }
    ensures storable { OnOk result (IsStorableRule rule.now) }
{
    append_short(rule_len(rule) as u16, out)?;
    write_rule(rule, out)
}

fn append_attached(attached: &Attached, out: &mut Bytes) -> Result<(), AllocError>
    requires { IsShortAttached attached.now }
    ensures ok { OnOk result (out.new ≡ out.old ++ attached_spelling attached.now) }
    ensures storable { OnOk result (IsNarrowAttached attached.now) }
{
    append_instance(attached.code, attached.owner, attached.root, out)?;
    append_name(&attached.name, out)?;
    append_rule(&attached.rule, out)
}

fn append_attachments(attachments: &AttachedList, out: &mut Bytes) -> Result<(), AllocError>
    requires { IsShortList IsShortAttached attachments.now }
    ensures ok { OnOk result (out.new ≡ out.old ++ attachments_spelling attachments.now) }
    ensures storable { OnOk result (IsShortList IsNarrowAttached attachments.now) }
{
    out.push(attachments.len() as u8)?;
    for attached in attachments.as_slice() {
        append_attached(attached, out)?;
    }
    Ok(())
}

/// The descriptor's bytes.
pub fn write_descriptor(alloc: Global, descriptor: &Descriptor) -> Result<Bytes, AllocError>
    requires { IsShortDescriptor descriptor.now }
    ensures ok { IfOk result (λ bytes. bytes ≡ descriptor_spelling descriptor.now) }

    // What is written can be read again, where its limits and codes agree with its kinds and rules.
    ensures storable { OnOk result (IsConsistent descriptor.now → IsStorableDescriptor descriptor.now) }
{
    let mut out = Bytes::new(alloc);
    append_instance(
        descriptor.method,
        descriptor.owner,
        descriptor.root,
        &mut out,
    )?;
    append_columns(&descriptor.schema, &mut out)?;
    append_names(&descriptor.key, &mut out)?;
    append_attachments(&descriptor.attachments, &mut out)?;
    Ok(out)
}
