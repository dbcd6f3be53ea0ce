//! Rules read from bytes.

ghost use Rattle.std.specs.Prelude.{◌≡◌, ◌≢◌, ◌<◌, Bool, IfOk, IfSome, IfNone, Some, FitsSigned};
ghost use Rattle.std.specs.Int.{w64};
ghost use Rattle.sb_pred.specs.Reading.{Finds};
ghost use Rattle.sb_rule.specs.declared.rule.Rule.{Rule as Policy};
ghost use Rattle.sb_rule.specs.Reading.{IsTree, IsJoin, IsStats, IsCheck, IsRefers, IsReaction, IsTrigger, IsRuleOf, tree_parts, join_parts, stats_parts, check_parts, refers_parts, reaction_parts, trigger_parts};
ghost use Rattle.sb_rule.specs.Spelling.{flag_byte, side_byte, mode_byte, event_byte, number_spelling, rule_spelling, IsWidth, SpellsRule};

use crate::parts::{action_of, names_of, number_of, pred_of, tie_of};
use crate::{Action, Event, Mode, Rule, Side};
use sb_pred::{Pred, name_of};
use sb_value::{Bytes, Names, Str};
use std::alloc::{AllocError, Global};

/// The least code of another's extension.
const FOREIGN: u16 = 1000;

fn flag_of(byte: u8) -> Option<bool>
    ensures found { IfSome result (λ flag. byte ≡ flag_byte flag) }
    ensures none { IfNone result ((flag : Bool) → byte ≢ flag_byte flag) }
{
    match byte {
        0 => Some(false),
        1 => Some(true),
        _ => None,
    }
}

fn side_of(byte: u8) -> Option<Side>
    ensures found { IfSome result (λ side. byte ≡ side_byte side) }
    ensures none { IfNone result ((side : Side) → byte ≢ side_byte side) }
{
    match byte {
        0 => Some(Side::Main),
        1 => Some(Side::Mirror),
        _ => None,
    }
}

fn mode_of(byte: u8) -> Option<Mode>
    ensures found { IfSome result (λ mode. byte ≡ mode_byte mode) }
    ensures none { IfNone result ((mode : Mode) → byte ≢ mode_byte mode) }
{
    match byte {
        0 => Some(Mode::Restrict),
        1 => Some(Mode::Cascade),
        _ => None,
    }
}

fn event_of(byte: u8) -> Option<Event>
    ensures found { IfSome result (λ event. byte ≡ event_byte event) }
    ensures none { IfNone result ((event : Event) → byte ≢ event_byte event) }
{
    match byte {
        1 => Some(Event::Insert),
        2 => Some(Event::Delete),
        3 => Some(Event::Update),
        _ => None,
    }
}

fn tree_of(alloc: Global, bytes: &[u8]) -> Result<Option<((bool, Names), &[u8])>, AllocError>
    ensures { IfOk result (λ r. Finds IsTree tree_parts bytes.now r) }
{
    let [unique, rest @ ..] = bytes else {
        return Ok(None);
    };
    let Some(unique) = flag_of(*unique) else {
        return Ok(None);
    };
    match names_of(alloc, rest)? {
        Some((columns, rest)) => Ok(Some(((unique, columns), rest))),
        None => Ok(None),
    }
}

fn join_of(
    alloc: Global,
    bytes: &[u8],
) -> Result<Option<((Side, (Names, Str, Names)), &[u8])>, AllocError>
    ensures { IfOk result (λ r. Finds IsJoin join_parts bytes.now r) }
{
    let [side, rest @ ..] = bytes else {
        return Ok(None);
    };
    let Some(side) = side_of(*side) else {
        return Ok(None);
    };
    match tie_of(alloc, rest)? {
        Some((tie, rest)) => Ok(Some(((side, tie), rest))),
        None => Ok(None),
    }
}

/// A number from 1 on.
fn width_of(bytes: &[u8]) -> Option<(i64, &[u8])>
    ensures { Finds IsWidth number_spelling bytes.now result }
{
    let Some((width, rest)) = number_of(bytes) else {
        return None;
    };
    if width < 1 {
        return None;
    }
    Some((width, rest))
}

fn stats_of(alloc: Global, bytes: &[u8]) -> Result<Option<((Str, i64, i64), &[u8])>, AllocError>
    ensures { IfOk result (λ r. Finds IsStats stats_parts bytes.now r) }
{
    let Some((column, rest)) = name_of(alloc, bytes)? else {
        return Ok(None);
    };
    let Some((low, rest)) = number_of(rest) else {
        return Ok(None);
    };
    let Some((width, rest)) = width_of(rest) else {
        return Ok(None);
    };
    Ok(Some(((column, low, width), rest)))
}

fn check_of(alloc: Global, bytes: &[u8]) -> Result<Option<((bool, Pred), &[u8])>, AllocError>
    ensures { IfOk result (λ r. Finds IsCheck check_parts bytes.now r) }
{
    let [deferred, rest @ ..] = bytes else {
        return Ok(None);
    };
    let Some(deferred) = flag_of(*deferred) else {
        return Ok(None);
    };
    match pred_of(alloc, rest)? {
        Some((pred, rest)) => Ok(Some(((deferred, pred), rest))),
        None => Ok(None),
    }
}

fn refers_of(
    alloc: Global,
    bytes: &[u8],
) -> Result<Option<((Side, Mode, bool, (Names, Str, Names)), &[u8])>, AllocError>
    ensures { IfOk result (λ r. Finds IsRefers refers_parts bytes.now r) }
{
    let [side, mode, deferred, rest @ ..] = bytes else {
        return Ok(None);
    };
    let Some(side) = side_of(*side) else {
        return Ok(None);
    };
    let Some(mode) = mode_of(*mode) else {
        return Ok(None);
    };
    let Some(deferred) = flag_of(*deferred) else {
        return Ok(None);
    };
    match tie_of(alloc, rest)? {
        Some((tie, rest)) => Ok(Some(((side, mode, deferred, tie), rest))),
        None => Ok(None),
    }
}

/// When a trigger acts, and what it does then.
fn reaction_of(alloc: Global, bytes: &[u8]) -> Result<Option<((Pred, Action), &[u8])>, AllocError>
    ensures { IfOk result (λ r. Finds IsReaction reaction_parts bytes.now r) }
{
    let Some((pred, rest)) = pred_of(alloc, bytes)? else {
        return Ok(None);
    };
    let Some((action, rest)) = action_of(alloc, rest)? else {
        return Ok(None);
    };
    Ok(Some(((pred, action), rest)))
}

fn trigger_of(
    alloc: Global,
    bytes: &[u8],
) -> Result<Option<((Event, bool, (Pred, Action)), &[u8])>, AllocError>
    ensures { IfOk result (λ r. Finds IsTrigger trigger_parts bytes.now r) }
{
    let [event, deferred, rest @ ..] = bytes else {
        return Ok(None);
    };
    let Some(event) = event_of(*event) else {
        return Ok(None);
    };
    let Some(deferred) = flag_of(*deferred) else {
        return Ok(None);
    };
    match reaction_of(alloc, rest)? {
        Some((reaction, rest)) => Ok(Some(((event, deferred, reaction), rest))),
        None => Ok(None),
    }
}

fn join_index(parts: (Side, (Names, Str, Names))) -> Rule
    ensures { result ≡ Rule.JoinIndex parts.0 parts.1.0 parts.1.1 parts.1.2 }
{
    let (side, (columns, other, others)) = parts;
    Rule::JoinIndex {
        side,
        columns,
        other,
        others,
    }
}

fn refers(parts: (Side, Mode, bool, (Names, Str, Names))) -> Rule
    ensures { result ≡ Rule.Refers parts.0 parts.3.0 parts.3.1 parts.3.2 parts.1 parts.2 }
{
    let (side, mode, deferred, (columns, other, others)) = parts;
    Rule::Refers {
        side,
        columns,
        other,
        others,
        mode,
        deferred,
    }
}

fn trigger(parts: (Event, bool, (Pred, Action))) -> Rule
    ensures { result ≡ Rule.Trigger parts.0 parts.2.0 parts.2.1 parts.1 }
{
    let (event, deferred, (pred, action)) = parts;
    Rule::Trigger {
        event,
        pred,
        action,
        deferred,
    }
}

/// A rule of this code, and the bytes behind it.
fn rule_of(alloc: Global, code: u16, bytes: &[u8]) -> Result<Option<(Rule, &[u8])>, AllocError>
    requires { code < 1000 }
    ensures { IfOk result (λ r. Finds (IsRuleOf code) rule_spelling bytes.now r) }
{
    match code {
        1 => match tree_of(alloc, bytes)? {
            Some((parts, rest)) => {
                let (unique, columns) = parts;
                Ok(Some((Rule::TreeIndex { columns, unique }, rest)))
            }
            None => Ok(None),
        },
        2 => match names_of(alloc, bytes)? {
            Some((columns, rest)) => Ok(Some((Rule::HashIndex { columns }, rest))),
            None => Ok(None),
        },
        3 => match join_of(alloc, bytes)? {
            Some((parts, rest)) => Ok(Some((join_index(parts), rest))),
            None => Ok(None),
        },
        4 => match stats_of(alloc, bytes)? {
            Some(((column, low, width), rest)) => {
                Ok(Some((Rule::Stats { column, low, width }, rest)))
            }
            None => Ok(None),
        },
        5 => match check_of(alloc, bytes)? {
            Some(((deferred, pred), rest)) => Ok(Some((Rule::Check { pred, deferred }, rest))),
            None => Ok(None),
        },
        6 => match refers_of(alloc, bytes)? {
            Some((parts, rest)) => Ok(Some((refers(parts), rest))),
            None => Ok(None),
        },
        7 => match trigger_of(alloc, bytes)? {
            Some((parts, rest)) => Ok(Some((trigger(parts), rest))),
            None => Ok(None),
        },
        _ => Ok(None),
    }
}

/// The rule of this code that all the bytes spell; `None` exactly where they spell no rule, or one with a predicate of
/// more than 32 nodes.
pub fn read_rule(alloc: Global, code: u16, bytes: &[u8]) -> Result<Option<Rule>, AllocError>
    // What is read has this code and is spelled so.
    ensures found { IfOk result (λ r. IfSome r (SpellsRule code bytes.now)) }

    // What has this code and is spelled so is read.
    ensures only { (rule : Policy) → SpellsRule code bytes.now rule → IfOk result (λ r. r ≡ Some rule) }
{
    if code >= FOREIGN {
        let desc = Bytes::from_vec(Vec::from_slice(alloc, bytes)?);
        return Ok(Some(Rule::Foreign { code, desc }));
    }
    let Some((rule, rest)) = rule_of(alloc, code, bytes)? else {
        return Ok(None);
    };
    if rest.is_empty() {
        Ok(Some(rule))
    } else {
        Ok(None)
    }
}
