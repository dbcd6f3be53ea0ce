//! Rules of attachments.

ghost use Rattle.std.specs.Prelude.{◌≡◌, ◌++◌, codes, OnOk, OnErr};
ghost use Rattle.std.specs.Fmt.{signed_decimal};
ghost use Rattle.sb_pred.specs.Bytes.{Extends};
ghost use Rattle.sb_plain.specs.Values.{listed};
ghost use Rattle.sb_plain.specs.Printing.{full_term, pred_text, action_text, mode_text, event_text, rule_text};

use crate::actions::append_action;
use crate::lists::append_listed;
use crate::pieces::{
    append_if, append_int, append_keyed, append_named, append_numbered, append_place,
};
use crate::predicates::{Scope, append_pred};
use sb_pred::Pred;
use sb_rule::{Action, Event, Mode, Rule};
use sb_value::{Bytes, Names, Str};
use std::alloc::AllocError;

fn append_mode(mode: Mode, out: &mut Bytes) -> Result<(), AllocError>
    ensures ok { OnOk result (out.new ≡ out.old ++ (codes " " ++ mode_text mode)) }
    ensures err { OnErr result (Extends out.old out.new) }
{
    match mode {
        Mode::Restrict => out.extend(b" restrict"),
        Mode::Cascade => out.extend(b" cascade"),
    }
}

fn append_event(event: Event, out: &mut Bytes) -> Result<(), AllocError>
    ensures ok { OnOk result (out.new ≡ out.old ++ (codes " after " ++ event_text event)) }
    ensures err { OnErr result (Extends out.old out.new) }
{
    match event {
        Event::Insert => out.extend(b" after insert"),
        Event::Delete => out.extend(b" after delete"),
        Event::Update => out.extend(b" after update"),
    }
}

/// Columns, and those of another relation, with a word before its name.
fn append_tie(
    columns: &Names,
    word: &[u8],
    other: &Str,
    others: &Names,
    out: &mut Bytes,
) -> Result<(), AllocError>
    ensures ok { OnOk result (out.new ≡ out.old ++ (codes " " ++ (listed columns.now ++ (word.now ++ (other.now ++ (codes " " ++ listed others.now)))))) }
    ensures err { OnErr result (Extends out.old out.new) }
{
    append_listed(b" (", columns.as_slice(), out)?;
    append_named(word, other, out)?;
    append_listed(b" (", others.as_slice(), out)
}

/// The column, low and width of statistics.
fn append_stats(column: &Str, low: i64, width: i64, out: &mut Bytes) -> Result<(), AllocError>
    ensures ok { OnOk result (out.new ≡ out.old ++ (codes " (" ++ (column.now ++ (codes ") low " ++ (signed_decimal low ++ (codes " width " ++ signed_decimal width)))))) }
    ensures err { OnErr result (Extends out.old out.new) }
{
    append_named(b" (", column, out)?;
    append_int(b") low ", low, out)?;
    append_int(b" width ", width, out)
}

/// When a trigger acts, and what it does.
fn append_trigger(
    event: Event,
    pred: &Pred,
    action: &Action,
    out: &mut Bytes,
) -> Result<(), AllocError>
    ensures ok { OnOk result (out.new ≡ out.old ++ (codes " after " ++ (event_text event ++ (codes " when " ++ (pred_text full_term pred.now ++ (codes " do " ++ action_text action.now)))))) }
    ensures err { OnErr result (Extends out.old out.new) }
{
    append_event(event, out)?;
    out.extend(b" when ")?;
    append_pred(Scope::Trigger, pred, out)?;
    out.extend(b" do ")?;
    append_action(action, out)
}

/// The rule of an attachment, with its name and its relation. Of a mirror it is the text of a main side.
pub fn append_rule(
    relation: &Str,
    name: &Str,
    rule: &Rule,
    out: &mut Bytes,
) -> Result<(), AllocError>
    ensures ok { OnOk result (out.new ≡ out.old ++ rule_text relation.now name.now rule.now) }
    ensures err { OnErr result (Extends out.old out.new) }
{
    match rule {
        Rule::TreeIndex { columns, unique } => {
            append_place(b"treeindex ", relation, name, out)?;
            append_listed(b" (", columns.as_slice(), out)?;
            append_if(*unique, b" unique", out)
        }
        Rule::HashIndex { columns } => {
            append_place(b"hashindex ", relation, name, out)?;
            append_listed(b" (", columns.as_slice(), out)
        }
        Rule::JoinIndex {
            columns,
            other,
            others,
            ..
        } => {
            append_place(b"joinindex ", relation, name, out)?;
            append_tie(columns, b" with ", other, others, out)
        }
        Rule::Stats { column, low, width } => {
            append_place(b"stats ", relation, name, out)?;
            append_stats(column, *low, *width, out)
        }
        Rule::Check { pred, deferred } => {
            append_place(b"check ", relation, name, out)?;
            out.push(b' ')?;
            append_pred(Scope::Check, pred, out)?;
            append_if(*deferred, b" deferred", out)
        }
        Rule::Refers {
            columns,
            other,
            others,
            mode,
            deferred,
            ..
        } => {
            append_place(b"refers ", relation, name, out)?;
            append_tie(columns, b" to ", other, others, out)?;
            append_mode(*mode, out)?;
            append_if(*deferred, b" deferred", out)
        }
        Rule::Trigger {
            event,
            pred,
            action,
            deferred,
        } => {
            append_place(b"trigger ", relation, name, out)?;
            append_trigger(*event, pred, action, out)?;
            append_if(*deferred, b" deferred", out)
        }
        Rule::Foreign { code, desc } => {
            append_numbered(b"code ", u64::from(*code), out)?;
            append_place(b" ", relation, name, out)?;
            append_keyed(b" desc ", desc.as_slice(), out)
        }
    }
}
