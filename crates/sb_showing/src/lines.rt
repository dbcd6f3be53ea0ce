//! The lines that make a relation, by its descriptor. Their commands go by calls of `drop`.

ghost use Rattle.std.specs.Prelude.{◌≡◌, ◌++◌, IfOk, OnOk, All};
ghost use Rattle.std.specs.List.{flat_map};
ghost use Rattle.sb_catalog.specs.Descriptors.{IsStorableAttached, IsStorableDescriptor};
ghost use Rattle.sb_plain.specs.Printing.{command_text, is_mirror};
ghost use Rattle.sb_showing.specs.Lines.{IsStorableCommand, attachment, attachment_lines, creation, descriptor_lines};

use sb_catalog::{Attached, Descriptor};
use sb_plain::Command;
use sb_printer::print_command;
use sb_rule::{Rule, Side};
use sb_value::{Bytes, Names, Str};
use std::alloc::{AllocError, Global};

/// The lines of a descriptor: that of its creation, and one for each of its attachments but the mirrors.
pub(crate) fn lines_of(
    alloc: Global,
    relation: &str,
    descriptor: &Descriptor,
) -> Result<Names, AllocError>
    requires storable { IsStorableDescriptor descriptor.now }

    ensures { IfOk result (λ lines. lines ≡ descriptor_lines relation.now descriptor.now) }
{
    let first = creation_line(alloc, relation, descriptor)?;
    let mut lines = Vec::new(alloc);
    lines.push(first)?;
    add_attachments(
        alloc,
        relation,
        descriptor.attachments.as_slice(),
        &mut lines,
    )?;
    Ok(Names::from_vec(lines))
}

/// The line of the creation.
fn creation_line(alloc: Global, relation: &str, descriptor: &Descriptor) -> Result<Str, AllocError>
    requires storable { IsStorableDescriptor descriptor.now }

    ensures { IfOk result (λ line. line ≡ command_text (creation relation.now descriptor.now)) }
{
    let command = creation(alloc, relation, descriptor)?;
    let line = line_of(alloc, &command);
    drop(command);
    line
}

fn add_attachments(
    alloc: Global,
    relation: &str,
    attachments: &[Attached],
    lines: &mut Vec<Str>,
) -> Result<(), AllocError>
    requires storable { All IsStorableAttached attachments.now }

    ensures { OnOk result (lines.new.items ≡ lines.old.items ++ flat_map (attachment_lines relation.now) attachments.now) }
{
    for attached in attachments {
        add_attachment(alloc, relation, attached, lines)?;
    }
    Ok(())
}

fn add_attachment(
    alloc: Global,
    relation: &str,
    attached: &Attached,
    lines: &mut Vec<Str>,
) -> Result<(), AllocError>
    requires storable { IsStorableAttached attached.now }

    ensures { OnOk result (lines.new.items ≡ lines.old.items ++ attachment_lines relation.now attached.now) }
{
    if is_mirror(&attached.rule) {
        return Ok(());
    }
    let line = attachment_line(alloc, relation, attached)?;
    lines.push(line)?;
    Ok(())
}

/// The line of an attachment.
fn attachment_line(alloc: Global, relation: &str, attached: &Attached) -> Result<Str, AllocError>
    requires storable { IsStorableAttached attached.now }

    ensures { IfOk result (λ line. line ≡ command_text (attachment relation.now attached.now)) }
{
    let command = attachment(alloc, relation, attached)?;
    let line = line_of(alloc, &command);
    drop(command);
    line
}

/// Whether the rule came with a main instance.
fn is_mirror(rule: &Rule) -> bool
    ensures { result ≡ is_mirror rule.now }
{
    match rule {
        Rule::JoinIndex { side, .. } | Rule::Refers { side, .. } => *side == Side::Mirror,
        _ => false,
    }
}

/// The command that creates the relation.
fn creation(alloc: Global, relation: &str, descriptor: &Descriptor) -> Result<Command, AllocError>
    ensures { IfOk result (λ c. c ≡ creation relation.now descriptor.now) }
{
    Ok(Command::Create {
        relation: name_of(alloc, relation)?,
        method: descriptor.method,
        schema: descriptor.schema.copy()?,
        key: descriptor.key.copy()?,
    })
}

/// The command that puts the attachment on the relation.
fn attachment(alloc: Global, relation: &str, attached: &Attached) -> Result<Command, AllocError>
    ensures { IfOk result (λ c. c ≡ attachment relation.now attached.now) }
{
    Ok(Command::Attach {
        relation: name_of(alloc, relation)?,
        name: attached.name.copy()?,
        rule: attached.rule.copy(alloc)?,
    })
}

fn name_of(alloc: Global, text: &str) -> Result<Str, AllocError>
    ensures { IfOk result (λ name. name ≡ text.now) }
{
    Ok(Str::from_string(String::from_str(alloc, text)?))
}

/// The text of a command, which is UTF-8.
fn line_of(alloc: Global, command: &Command) -> Result<Str, AllocError>
    requires storable { IsStorableCommand command.now }

    ensures { IfOk result (λ line. line ≡ command_text command.now) }
{
    let mut text = Bytes::new(alloc);
    print_command(command, &mut text)?;
    let line = Str::from_utf8(alloc, text.as_slice())?.unwrap();
    Ok(line)
}
