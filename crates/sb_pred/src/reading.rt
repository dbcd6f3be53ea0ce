//! Predicates read from bytes.

ghost use Rattle.std.specs.Prelude.{◌≡◌, ◌≢◌, ◌≤◌, ◌<◌, IfOk, IfSome, IfNone, Some, List, ℕ, length};
ghost use Rattle.sb_pred.specs.Reading.{Finds, IsStorableComparison, comparison_spelling, IsSmall, AreSmall, pair_spelling};
ghost use Rattle.sb_pred.specs.Tree.{Tree};
ghost use Rattle.sb_pred.specs.Op.{op_code};
ghost use Rattle.sb_pred.specs.Spelling.{name_spelling, term_spelling, pred_spelling, IsStorableName, IsStorableTerm, SpellsPred};
ghost use Rattle.sb_value.specs.Spelling.{value_spelling, IsStorable};

use crate::predicate::{Op, Pred, Term, nodes};
use crate::tags;
use sb_value::{Str, Value, take_value};
use std::alloc::{AllocError, Global};

/// The most nodes of a predicate that is read.
const NODE_LIMIT: u32 = 32;

fn value_of(alloc: Global, bytes: &[u8]) -> Result<Option<(Value, &[u8])>, AllocError>
    ensures { IfOk result (λ r. Finds IsStorable value_spelling bytes.now r) }
{
    match take_value(alloc, bytes, 0)? {
        Some((value, end)) => Ok(Some((value, &bytes[end..]))),
        None => Ok(None),
    }
}

/// The name that the first bytes spell, and the bytes behind it.
pub fn name_of(alloc: Global, bytes: &[u8]) -> Result<Option<(Str, &[u8])>, AllocError>
    ensures { IfOk result (λ r. Finds IsStorableName name_spelling bytes.now r) }
{
    let [len, rest @ ..] = bytes else {
        return Ok(None);
    };
    let len = *len as usize;
    if rest.len() < len {
        return Ok(None);
    }
    let (text, rest) = rest.split_at(len);
    match Str::from_utf8(alloc, text)? {
        Some(name) => Ok(Some((name, rest))),
        None => Ok(None),
    }
}

/// The term that the first bytes spell, and the bytes behind it.
pub fn term_of(alloc: Global, bytes: &[u8]) -> Result<Option<(Term, &[u8])>, AllocError>
    ensures { IfOk result (λ r. Finds IsStorableTerm term_spelling bytes.now r) }
{
    let [tag, rest @ ..] = bytes else {
        return Ok(None);
    };
    match *tag {
        tags::CONST => match value_of(alloc, rest)? {
            Some((value, rest)) => Ok(Some((Term::Const(value), rest))),
            None => Ok(None),
        },
        tags::NEW => match name_of(alloc, rest)? {
            Some((name, rest)) => Ok(Some((Term::New(name), rest))),
            None => Ok(None),
        },
        tags::OLD => match name_of(alloc, rest)? {
            Some((name, rest)) => Ok(Some((Term::Old(name), rest))),
            None => Ok(None),
        },
        _ => Ok(None),
    }
}

fn op_of(code: u8) -> Option<Op>
    ensures found { IfSome result (λ op. code ≡ op_code op) }
    ensures none { IfNone result ((op : Op) → code ≢ op_code op) }
{
    match code {
        1 => Some(Op::Eq),
        2 => Some(Op::Ne),
        3 => Some(Op::Lt),
        4 => Some(Op::Le),
        5 => Some(Op::Gt),
        6 => Some(Op::Ge),
        _ => None,
    }
}

/// A comparison without its first byte.
fn comparison_of(
    alloc: Global,
    bytes: &[u8],
) -> Result<Option<((Op, Term, Term), &[u8])>, AllocError>
    ensures { IfOk result (λ r. Finds IsStorableComparison comparison_spelling bytes.now r) }
{
    let [code, rest @ ..] = bytes else {
        return Ok(None);
    };
    let Some(op) = op_of(*code) else {
        return Ok(None);
    };
    let Some((left, rest)) = term_of(alloc, rest)? else {
        return Ok(None);
    };
    let Some((right, rest)) = term_of(alloc, rest)? else {
        return Ok(None);
    };
    Ok(Some(((op, left, right), rest)))
}

/// Two predicates of at most so many nodes together.
#[cycle(reader)]
fn pair_of(
    alloc: Global,
    bytes: &[u8],
    limit: u32,
) -> Result<Option<((Pred, Pred), &[u8])>, AllocError>
    ensures { IfOk result (λ r. Finds (AreSmall limit) pair_spelling bytes.now r) }
{
    let Some((left, rest)) = pred_of(alloc, bytes, limit)? else {
        return Ok(None);
    };
    let Some((right, rest)) = pred_of(alloc, rest, limit - nodes(&left))? else {
        return Ok(None);
    };
    Ok(Some(((left, right), rest)))
}

/// A predicate of at most so many nodes. Each call within has a lower limit, so the recursion is no deeper than it.
#[cycle(reader)]
fn pred_of(alloc: Global, bytes: &[u8], limit: u32) -> Result<Option<(Pred, &[u8])>, AllocError>
    ensures { IfOk result (λ r. Finds (IsSmall limit) pred_spelling bytes.now r) }
{
    let [tag, rest @ ..] = bytes else {
        return Ok(None);
    };
    if limit == 0 {
        return Ok(None);
    }
    match *tag {
        tags::ALWAYS => Ok(Some((Pred::always(), rest))),
        tags::CMP => match comparison_of(alloc, rest)? {
            Some(((op, left, right), rest)) => Ok(Some((Pred::cmp(op, left, right), rest))),
            None => Ok(None),
        },
        tags::AND => match pair_of(alloc, rest, limit - 1)? {
            Some(((left, right), rest)) => Ok(Some((Pred::and(alloc, left, right)?, rest))),
            None => Ok(None),
        },
        tags::OR => match pair_of(alloc, rest, limit - 1)? {
            Some(((left, right), rest)) => Ok(Some((Pred::or(alloc, left, right)?, rest))),
            None => Ok(None),
        },
        tags::NOT => match pred_of(alloc, rest, limit - 1)? {
            Some((inner, rest)) => Ok(Some((Pred::not(alloc, inner)?, rest))),
            None => Ok(None),
        },
        _ => Ok(None),
    }
}

/// The predicate of at most 32 nodes that is spelled from a place on, and the place behind it. Behind the last byte
/// none is spelled.
pub fn read_pred(
    alloc: Global,
    bytes: &[u8],
    at: usize,
) -> Result<Option<(Pred, usize)>, AllocError>
    // What is found stands there.
    ensures found { IfOk result (λ r. IfSome r (λ x. SpellsPred bytes.now at x.1 x.0)) }
    ensures within { IfOk result (λ r. IfSome r (λ x. x.1 ≤ length bytes.now)) }

    // What stands there is found, whatever follows it.
    ensures only { (p : Tree) (end : ℕ) → SpellsPred bytes.now at end p → IfOk result (λ r. r ≡ Some (p, end)) }
    ensures none { IfOk result (λ r. IfNone r ((p : Tree) (end : ℕ) → SpellsPred bytes.now at end p → ⊥)) }
{
    if at > bytes.len() {
        return Ok(None);
    }
    match pred_of(alloc, &bytes[at..], NODE_LIMIT)? {
        Some((pred, rest)) => Ok(Some((pred, bytes.len() - rest.len()))),
        None => Ok(None),
    }
}
