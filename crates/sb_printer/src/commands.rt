//! Commands.

ghost use Rattle.std.specs.Prelude.{◌≡◌, ◌++◌, OnOk, OnErr, codes};
ghost use Rattle.std.specs.Fmt.{decimal};
ghost use Rattle.sb_pred.specs.Bytes.{Extends};
ghost use Rattle.sb_plain.specs.Values.{key_text};
ghost use Rattle.sb_plain.specs.Printing.{method_text, sort_text, key_columns_text, after_text, most_text, command_text};

use crate::actions::append_action;
use crate::lists::append_listed;
use crate::pieces::{append_keyed, append_named, append_numbered, append_place};
use crate::rules::append_rule;
use sb_plain::Command;
use sb_value::{Bytes, Names, RecKey, Schema, Str, Tuple};
use std::alloc::AllocError;

fn append_method(code: u16, out: &mut Bytes) -> Result<(), AllocError>
    ensures ok { OnOk result (out.new ≡ out.old ++ method_text code) }
    ensures err { OnErr result (Extends out.old out.new) }
{
    match code {
        1 => out.extend(b"heap"),
        2 => out.extend(b"tree"),
        3 => out.extend(b"temp"),
        _ => append_numbered(b"method ", u64::from(code), out),
    }
}

fn append_key_columns(key: &Names, out: &mut Bytes) -> Result<(), AllocError>
    ensures ok { OnOk result (out.new ≡ out.old ++ key_columns_text key.now) }
    ensures err { OnErr result (Extends out.old out.new) }
{
    let key = key.as_slice();
    if key.is_empty() {
        return Ok(());
    }
    append_listed(b" key (", key, out)
}

fn append_create(
    relation: &Str,
    method: u16,
    schema: &Schema,
    key: &Names,
    out: &mut Bytes,
) -> Result<(), AllocError>
    ensures ok { OnOk result (out.new ≡ out.old ++ command_text (Command.Create relation.now method schema.now key.now)) }
    ensures err { OnErr result (Extends out.old out.new) }
{
    append_named(b"create ", relation, out)?;
    out.extend(b" using ")?;
    append_method(method, out)?;
    append_listed(b" (", schema.as_slice(), out)?;
    append_key_columns(key, out)
}

/// A word, and the name of a relation and the record key of a row behind it.
fn append_at(word: &[u8], relation: &Str, at: &RecKey, out: &mut Bytes) -> Result<(), AllocError>
    ensures ok { OnOk result (out.new ≡ out.old ++ (word.now ++ (relation.now ++ (codes " " ++ key_text at.now)))) }
    ensures err { OnErr result (Extends out.old out.new) }
{
    append_named(word, relation, out)?;
    append_keyed(b" ", at.as_slice(), out)
}

fn append_update(
    relation: &Str,
    at: &RecKey,
    values: &Tuple,
    out: &mut Bytes,
) -> Result<(), AllocError>
    ensures ok { OnOk result (out.new ≡ out.old ++ command_text (Command.Update relation.now at.now values.now)) }
    ensures err { OnErr result (Extends out.old out.new) }
{
    append_named(b"update ", relation, out)?;
    append_keyed(b" ", at.as_slice(), out)?;
    append_listed(b" values (", values.as_slice(), out)
}

fn append_sort(method: bool, out: &mut Bytes) -> Result<(), AllocError>
    ensures ok { OnOk result (out.new ≡ out.old ++ sort_text method) }
    ensures err { OnErr result (Extends out.old out.new) }
{
    if method {
        out.extend(b"method")
    } else {
        out.extend(b"attachment")
    }
}

/// A word, and the code of a storage method or an attachment behind it.
fn append_extension(word: &[u8], method: bool, code: u16, out: &mut Bytes) -> Result<(), AllocError>
    ensures ok { OnOk result (out.new ≡ out.old ++ (word.now ++ (sort_text method ++ (codes " " ++ decimal code)))) }
    ensures err { OnErr result (Extends out.old out.new) }
{
    out.extend(word)?;
    append_sort(method, out)?;
    append_numbered(b" ", u64::from(code), out)
}

fn append_after(after: &Option<RecKey>, out: &mut Bytes) -> Result<(), AllocError>
    ensures ok { OnOk result (out.new ≡ out.old ++ after_text after.now) }
    ensures err { OnErr result (Extends out.old out.new) }
{
    match after {
        None => Ok(()),
        Some(key) => append_keyed(b" after ", key.as_slice(), out),
    }
}

fn append_most(limit: Option<u32>, out: &mut Bytes) -> Result<(), AllocError>
    ensures ok { OnOk result (out.new ≡ out.old ++ most_text limit) }
    ensures err { OnErr result (Extends out.old out.new) }
{
    match limit {
        None => Ok(()),
        Some(limit) => append_numbered(b" limit ", u64::from(limit), out),
    }
}

fn append_command(command: &Command, out: &mut Bytes) -> Result<(), AllocError>
    ensures ok { OnOk result (out.new ≡ out.old ++ command_text command.now) }
    ensures err { OnErr result (Extends out.old out.new) }
{
    match command {
        Command::Create {
            relation,
            method,
            schema,
            key,
        } => append_create(relation, *method, schema, key, out),
        Command::Drop { relation } => append_named(b"drop ", relation, out),
        Command::Attach {
            relation,
            name,
            rule,
        } => {
            out.extend(b"attach ")?;
            append_rule(relation, name, rule, out)
        }
        Command::Detach { relation, name } => append_place(b"detach ", relation, name, out),
        Command::Register { method, code } => append_extension(b"register ", *method, *code, out),
        Command::Retire { method, code } => append_extension(b"retire ", *method, *code, out),
        Command::Begin => out.extend(b"begin"),
        Command::Commit => out.extend(b"commit"),
        Command::Abort => out.extend(b"abort"),
        Command::Savepoint { name } => append_named(b"savepoint ", name, out),
        Command::Rollback { name } => append_named(b"rollback ", name, out),
        Command::Insert { relation, values } => {
            append_named(b"insert ", relation, out)?;
            append_listed(b" values (", values.as_slice(), out)
        }
        Command::Delete { relation, at } => append_at(b"delete ", relation, at, out),
        Command::Update {
            relation,
            at,
            values,
        } => append_update(relation, at, values, out),
        Command::Act { action } => append_action(action, out),
        Command::Get { relation, at } => append_at(b"get ", relation, at, out),
        Command::Scan {
            relation,
            after,
            limit,
        } => {
            append_named(b"scan ", relation, out)?;
            append_after(after, out)?;
            append_most(*limit, out)
        }
        Command::Lookup {
            relation,
            name,
            values,
        } => {
            append_place(b"lookup ", relation, name, out)?;
            append_listed(b" (", values.as_slice(), out)
        }
        Command::Range {
            relation,
            name,
            low,
            high,
        } => {
            append_place(b"range ", relation, name, out)?;
            append_listed(b" from (", low.as_slice(), out)?;
            append_listed(b" to (", high.as_slice(), out)
        }
        Command::Entries { relation, name } => append_place(b"entries ", relation, name, out),
        Command::Show { relation } => append_named(b"show ", relation, out),
        Command::Tables => out.extend(b"tables"),
        Command::Checkpoint => out.extend(b"checkpoint"),
    }
}

/// Adds the text of the command, without an end of the line. Where memory runs out all stays as it was.
pub fn print_command(command: &Command, out: &mut Bytes) -> Result<(), AllocError>
    ensures ok { OnOk result (out.new ≡ out.old ++ command_text command.now) }
    ensures err { OnErr result (out.new ≡ out.old) }
{
    let len = out.len();
    let printed = append_command(command, out);
    if printed.is_err() {
        out.truncate(len);
    }
    printed
}
