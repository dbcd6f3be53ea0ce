//! Replies, each of whole lines.

ghost use Rattle.std.specs.Prelude.{◌≡◌, ◌++◌, codes, length, OnOk, OnErr};
ghost use Rattle.std.specs.List.{flat_map};
ghost use Rattle.sb_pred.specs.Bytes.{Extends};
ghost use Rattle.sb_plain.specs.Text.{own_key_text, pick_text, count_line, row_line, entry_line, sums_line, reply_text};

use crate::lists::{append_joined, append_listed};
use crate::pieces::{append_key, append_keyed, append_numbered};
use crate::refusals::append_refusal;
use sb_plain::Reply;
use sb_value::{Bytes, RecKey, Str, Tuple};
use std::alloc::AllocError;

fn append_own_key(key: &Option<RecKey>, out: &mut Bytes) -> Result<(), AllocError>
    ensures ok { OnOk result (out.new ≡ out.old ++ own_key_text key.now) }
    ensures err { OnErr result (Extends out.old out.new) }
{
    match key {
        None => Ok(()),
        Some(key) => append_keyed(b" ", key.as_slice(), out),
    }
}

fn append_picks(picks: &[RecKey], out: &mut Bytes) -> Result<(), AllocError>
    ensures ok { OnOk result (out.new ≡ out.old ++ flat_map pick_text picks.now) }
    ensures err { OnErr result (Extends out.old out.new) }
{
    for pick in picks {
        append_keyed(b" +", pick.as_slice(), out)?;
    }
    Ok(())
}

/// The last line of a reply that has others.
fn append_count(count: usize, out: &mut Bytes) -> Result<(), AllocError>
    ensures ok { OnOk result (out.new ≡ out.old ++ count_line count) }
    ensures err { OnErr result (Extends out.old out.new) }
{
    append_numbered(b"ok ", count as u64, out)?;
    out.push(b'\n')
}

fn append_row(row: &(RecKey, Tuple), out: &mut Bytes) -> Result<(), AllocError>
    ensures ok { OnOk result (out.new ≡ out.old ++ row_line row.now) }
    ensures err { OnErr result (Extends out.old out.new) }
{
    append_key(row.0.as_slice(), out)?;
    append_listed(b" (", row.1.as_slice(), out)?;
    out.push(b'\n')
}

fn append_rows(rows: &[(RecKey, Tuple)], out: &mut Bytes) -> Result<(), AllocError>
    ensures ok { OnOk result (out.new ≡ out.old ++ flat_map row_line rows.now) }
    ensures err { OnErr result (Extends out.old out.new) }
{
    for row in rows {
        append_row(row, out)?;
    }
    Ok(())
}

fn append_entry(entry: &(RecKey, RecKey), out: &mut Bytes) -> Result<(), AllocError>
    ensures ok { OnOk result (out.new ≡ out.old ++ entry_line entry.now) }
    ensures err { OnErr result (Extends out.old out.new) }
{
    append_key(entry.0.as_slice(), out)?;
    append_keyed(b" ", entry.1.as_slice(), out)?;
    out.push(b'\n')
}

fn append_entries(entries: &[(RecKey, RecKey)], out: &mut Bytes) -> Result<(), AllocError>
    ensures ok { OnOk result (out.new ≡ out.old ++ flat_map entry_line entries.now) }
    ensures err { OnErr result (Extends out.old out.new) }
{
    for entry in entries {
        append_entry(entry, out)?;
    }
    Ok(())
}

/// The line of sums, where there are any.
fn append_sums(sums: &[i128], out: &mut Bytes) -> Result<(), AllocError>
    ensures ok { OnOk result (out.new ≡ out.old ++ sums_line sums.now) }
    ensures err { OnErr result (Extends out.old out.new) }
{
    if sums.is_empty() {
        return Ok(());
    }
    out.extend(b"sum ")?;
    append_joined(b" ", sums, out)?;
    out.push(b'\n')
}

fn append_line(line: &Str, out: &mut Bytes) -> Result<(), AllocError>
    ensures ok { OnOk result (out.new ≡ out.old ++ (line.now ++ codes "\n")) }
    ensures err { OnErr result (Extends out.old out.new) }
{
    out.extend(line.as_bytes())?;
    out.push(b'\n')
}

fn append_lines(lines: &[Str], out: &mut Bytes) -> Result<(), AllocError>
    ensures ok { OnOk result (out.new ≡ out.old ++ flat_map (λ line. line ++ codes "\n") lines.now) }
    ensures err { OnErr result (Extends out.old out.new) }
{
    for line in lines {
        append_line(line, out)?;
    }
    Ok(())
}

fn append_reply(reply: &Reply, out: &mut Bytes) -> Result<(), AllocError>
    ensures ok { OnOk result (out.new ≡ out.old ++ reply_text reply.now) }
    ensures err { OnErr result (Extends out.old out.new) }
{
    match reply {
        Reply::Done { key, picks } => {
            out.extend(b"ok")?;
            append_own_key(key, out)?;
            append_picks(picks.as_slice(), out)?;
            out.push(b'\n')
        }
        Reply::Count { count, picks } => {
            append_numbered(b"ok ", *count, out)?;
            append_picks(picks.as_slice(), out)?;
            out.push(b'\n')
        }
        Reply::Rows { rows } => {
            let rows = rows.as_slice();
            append_rows(rows, out)?;
            append_count(rows.len(), out)
        }
        Reply::Entries { image } => {
            let entries = image.entries.as_slice();
            append_entries(entries, out)?;
            append_sums(image.sums.as_slice(), out)?;
            append_count(entries.len(), out)
        }
        Reply::Lines { lines } => {
            let lines = lines.as_slice();
            append_lines(lines, out)?;
            append_count(lines.len(), out)
        }
        Reply::Refused(refusal) => {
            append_refusal(refusal, out)?;
            out.push(b'\n')
        }
    }
}

/// Adds the text of the reply, whose lines all have their ends. Where memory runs out all stays as it was.
pub fn print_reply(reply: &Reply, out: &mut Bytes) -> Result<(), AllocError>
    ensures ok { OnOk result (out.new ≡ out.old ++ reply_text reply.now) }
    ensures err { OnErr result (out.new ≡ out.old) }
{
    let len = out.len();
    let printed = append_reply(reply, out);
    if printed.is_err() {
        out.truncate(len);
    }
    printed
}
