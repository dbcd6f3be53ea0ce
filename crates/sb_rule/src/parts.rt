//! The parts of rules, read from bytes.

ghost use Rattle.std.specs.Prelude.{◌≡◌, IfOk, FitsSigned};
ghost use Rattle.std.specs.Int.{w64};
ghost use Rattle.std.specs.List.{flat_map};
ghost use Rattle.sb_pred.specs.Reading.{Finds, IsSmall};
ghost use Rattle.sb_pred.specs.Spelling.{name_spelling, term_spelling, pred_spelling, IsStorableName, IsStorableTerm};
ghost use Rattle.sb_rule.specs.Reading.{AreSoMany, IsInsert, IsDelete, insert_parts, delete_parts};
ghost use Rattle.sb_rule.specs.Spelling.{number_spelling, names_spelling, terms_spelling, pairs_spelling, pair_spelling, tie_spelling, assignment_spelling, action_spelling, IsShortList, IsStorablePair, IsStorableTie, IsStorableAssignment, IsStorableAction};

use crate::{Action, Pairs, Terms};
use sb_pred::{Pred, Term, name_of, read_pred, term_of};
use sb_value::{Names, Str, int_of};
use std::alloc::{AllocError, Global};

/// A predicate of at most 32 nodes.
pub(crate) fn pred_of(alloc: Global, bytes: &[u8]) -> Result<Option<(Pred, &[u8])>, AllocError>
    ensures { IfOk result (λ r. Finds (IsSmall 32) pred_spelling bytes.now r) }
{
    match read_pred(alloc, bytes, 0)? {
        Some((pred, end)) => Ok(Some((pred, &bytes[end..]))),
        None => Ok(None),
    }
}

pub(crate) fn number_of(bytes: &[u8]) -> Option<(i64, &[u8])>
    ensures { Finds (FitsSigned w64) number_spelling bytes.now result }
{
    let number = int_of(bytes)?;
    Some((number, &bytes[8..]))
}

fn take_names(alloc: Global, count: u8, bytes: &[u8]) -> Result<Option<(Names, &[u8])>, AllocError>
    ensures { IfOk result (λ r. Finds (AreSoMany count IsStorableName) (flat_map name_spelling) bytes.now r) }
{
    let mut names = Vec::new(alloc);
    let mut rest = bytes;
    for _ in 0..count {
        let Some((name, after)) = name_of(alloc, rest)? else {
            return Ok(None);
        };
        names.push(name)?;
        rest = after;
    }
    Ok(Some((Names::from_vec(names), rest)))
}

/// Names behind their number, and the bytes behind them; `None` exactly where no names that can be stored stand there.
pub fn names_of(alloc: Global, bytes: &[u8]) -> Result<Option<(Names, &[u8])>, AllocError>
    ensures { IfOk result (λ r. Finds (IsShortList IsStorableName) names_spelling bytes.now r) }
{
    let [count, rest @ ..] = bytes else {
        return Ok(None);
    };
    take_names(alloc, *count, rest)
}

fn take_terms(alloc: Global, count: u8, bytes: &[u8]) -> Result<Option<(Terms, &[u8])>, AllocError>
    ensures { IfOk result (λ r. Finds (AreSoMany count IsStorableTerm) (flat_map term_spelling) bytes.now r) }
{
    let mut terms = Vec::new(alloc);
    let mut rest = bytes;
    for _ in 0..count {
        let Some((term, after)) = term_of(alloc, rest)? else {
            return Ok(None);
        };
        terms.push(term)?;
        rest = after;
    }
    Ok(Some((Terms::from_vec(terms), rest)))
}

fn terms_of(alloc: Global, bytes: &[u8]) -> Result<Option<(Terms, &[u8])>, AllocError>
    ensures { IfOk result (λ r. Finds (IsShortList IsStorableTerm) terms_spelling bytes.now r) }
{
    let [count, rest @ ..] = bytes else {
        return Ok(None);
    };
    take_terms(alloc, *count, rest)
}

fn pair_of(alloc: Global, bytes: &[u8]) -> Result<Option<((Str, Term), &[u8])>, AllocError>
    ensures { IfOk result (λ r. Finds IsStorablePair pair_spelling bytes.now r) }
{
    let Some((column, rest)) = name_of(alloc, bytes)? else {
        return Ok(None);
    };
    let Some((term, rest)) = term_of(alloc, rest)? else {
        return Ok(None);
    };
    Ok(Some(((column, term), rest)))
}

fn take_pairs(alloc: Global, count: u8, bytes: &[u8]) -> Result<Option<(Pairs, &[u8])>, AllocError>
    ensures { IfOk result (λ r. Finds (AreSoMany count IsStorablePair) (flat_map pair_spelling) bytes.now r) }
{
    let mut pairs = Vec::new(alloc);
    let mut rest = bytes;
    for _ in 0..count {
        let Some((pair, after)) = pair_of(alloc, rest)? else {
            return Ok(None);
        };
        pairs.push(pair)?;
        rest = after;
    }
    Ok(Some((Pairs::from_vec(pairs), rest)))
}

fn pairs_of(alloc: Global, bytes: &[u8]) -> Result<Option<(Pairs, &[u8])>, AllocError>
    ensures { IfOk result (λ r. Finds (IsShortList IsStorablePair) pairs_spelling bytes.now r) }
{
    let [count, rest @ ..] = bytes else {
        return Ok(None);
    };
    take_pairs(alloc, *count, rest)
}

/// The columns of two relations, with the name of the other one between them.
pub(crate) fn tie_of(
    alloc: Global,
    bytes: &[u8],
) -> Result<Option<((Names, Str, Names), &[u8])>, AllocError>
    ensures { IfOk result (λ r. Finds IsStorableTie tie_spelling bytes.now r) }
{
    let Some((columns, rest)) = names_of(alloc, bytes)? else {
        return Ok(None);
    };
    let Some((other, rest)) = name_of(alloc, rest)? else {
        return Ok(None);
    };
    let Some((others, rest)) = names_of(alloc, rest)? else {
        return Ok(None);
    };
    Ok(Some(((columns, other, others), rest)))
}

/// A set or an add without its first byte.
fn assignment_of(
    alloc: Global,
    bytes: &[u8],
) -> Result<Option<((Str, Str, Term, Pairs), &[u8])>, AllocError>
    ensures { IfOk result (λ r. Finds IsStorableAssignment assignment_spelling bytes.now r) }
{
    let Some((relation, rest)) = name_of(alloc, bytes)? else {
        return Ok(None);
    };
    let Some((column, rest)) = name_of(alloc, rest)? else {
        return Ok(None);
    };
    let Some((term, rest)) = term_of(alloc, rest)? else {
        return Ok(None);
    };
    let Some((pairs, rest)) = pairs_of(alloc, rest)? else {
        return Ok(None);
    };
    Ok(Some(((relation, column, term, pairs), rest)))
}

/// An insert without its first byte.
fn insert_of(alloc: Global, bytes: &[u8]) -> Result<Option<((Str, Terms), &[u8])>, AllocError>
    ensures { IfOk result (λ r. Finds IsInsert insert_parts bytes.now r) }
{
    let Some((relation, rest)) = name_of(alloc, bytes)? else {
        return Ok(None);
    };
    let Some((terms, rest)) = terms_of(alloc, rest)? else {
        return Ok(None);
    };
    Ok(Some(((relation, terms), rest)))
}

/// A delete without its first byte.
fn delete_of(alloc: Global, bytes: &[u8]) -> Result<Option<((Str, Pairs), &[u8])>, AllocError>
    ensures { IfOk result (λ r. Finds IsDelete delete_parts bytes.now r) }
{
    let Some((relation, rest)) = name_of(alloc, bytes)? else {
        return Ok(None);
    };
    let Some((pairs, rest)) = pairs_of(alloc, rest)? else {
        return Ok(None);
    };
    Ok(Some(((relation, pairs), rest)))
}

fn sets(parts: (Str, Str, Term, Pairs)) -> Action
    ensures { result ≡ Action.Set parts.0 parts.1 parts.2 parts.3 }
{
    let (relation, column, term, pairs) = parts;
    Action::Set {
        relation,
        column,
        term,
        pairs,
    }
}

fn adds(parts: (Str, Str, Term, Pairs)) -> Action
    ensures { result ≡ Action.Add parts.0 parts.1 parts.2 parts.3 }
{
    let (relation, column, term, pairs) = parts;
    Action::Add {
        relation,
        column,
        term,
        pairs,
    }
}

pub(crate) fn action_of(alloc: Global, bytes: &[u8]) -> Result<Option<(Action, &[u8])>, AllocError>
    ensures { IfOk result (λ r. Finds IsStorableAction action_spelling bytes.now r) }
{
    let [tag, rest @ ..] = bytes else {
        return Ok(None);
    };
    match *tag {
        1 => match insert_of(alloc, rest)? {
            Some((parts, rest)) => {
                let (relation, terms) = parts;
                Ok(Some((Action::Insert { relation, terms }, rest)))
            }
            None => Ok(None),
        },
        2 => match delete_of(alloc, rest)? {
            Some((parts, rest)) => {
                let (relation, pairs) = parts;
                Ok(Some((Action::Delete { relation, pairs }, rest)))
            }
            None => Ok(None),
        },
        3 => match assignment_of(alloc, rest)? {
            Some((parts, rest)) => Ok(Some((sets(parts), rest))),
            None => Ok(None),
        },
        4 => match assignment_of(alloc, rest)? {
            Some((parts, rest)) => Ok(Some((adds(parts), rest))),
            None => Ok(None),
        },
        _ => Ok(None),
    }
}
