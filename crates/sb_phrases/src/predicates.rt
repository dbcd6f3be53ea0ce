//! Reading predicates from the left.

ghost use Rattle.sb_tokens.specs.Rows.{tokens_of};
ghost use Rattle.sb_phrases.specs.Gives.{Gives, beside};
ghost use Rattle.sb_phrases.specs.Phrases as spec;

use crate::fault::Fault;
use crate::form::Form;
use crate::pieces::{behind_mark, behind_word, is_word_next, read_mark, read_op, read_word};
use crate::terms::read_term;
use sb_pred::Pred;
use sb_tokens::{Placed, Sign};
use std::alloc::Global;

/// How many of `not` and `(` may be open at once.
const OPEN_LIMIT: u8 = 16;

#[tactic(auto, unfolding(crate::specs::Phrases::comparison_at))]
fn read_comparison<'a>(form: Form, tokens: &'a [Placed]) -> Result<(Pred, &'a [Placed]), Fault<'a>>
    ensures { Gives beside result (spec.comparison_at form (tokens_of tokens.now)) }
{
    let (left, rest) = read_term(form, tokens)?;
    let (op, rest) = read_op(rest)?;
    let (right, rest) = read_term(form, rest)?;
    Ok((Pred::cmp(op, left, right), rest))
}

#[tactic(auto, unfolding(crate::specs::Phrases::always_at))]
fn read_always<'a>(tokens: &'a [Placed]) -> Result<(Pred, &'a [Placed]), Fault<'a>>
    ensures { Gives beside result (spec.always_at (tokens_of tokens.now)) }
{
    let rest = read_word(b"always", tokens)?;
    Ok((Pred::always(), rest))
}

#[tactic(auto, unfolding(crate::specs::Phrases::plain_unit_at))]
fn read_plain_unit<'a>(form: Form, tokens: &'a [Placed]) -> Result<(Pred, &'a [Placed]), Fault<'a>>
    ensures { Gives beside result (spec.plain_unit_at form (tokens_of tokens.now)) }
{
    if is_word_next(b"always", tokens) {
        read_always(tokens)
    } else {
        read_comparison(form, tokens)
    }
}

/// What stands between `and`, `or` and parentheses. So many more of `not` and `(` may be open.
#[cycle(reader)]
fn read_unit<'a>(
    alloc: Global,
    form: Form,
    depth: u8,
    tokens: &'a [Placed],
) -> Result<(Pred, &'a [Placed]), Fault<'a>>
    ensures { Gives beside result (spec.unit_at form depth (tokens_of tokens.now)) }
{
    if depth == 0 {
        return read_plain_unit(form, tokens);
    }
    if let Some(rest) = behind_word(b"not", tokens) {
        let (inner, rest) = read_unit(alloc, form, depth - 1, rest)?;
        return Ok((Pred::not(alloc, inner)?, rest));
    }
    if let Some(rest) = behind_mark(Sign::Open, tokens) {
        let (inner, rest) = read_disjunction(alloc, form, depth - 1, rest)?;
        let rest = read_mark(Sign::Close, rest)?;
        return Ok((inner, rest));
    }
    read_plain_unit(form, tokens)
}

/// Units with `and` between them, grouped from the left.
#[cycle(reader)]
fn read_conjunction<'a>(
    alloc: Global,
    form: Form,
    depth: u8,
    tokens: &'a [Placed],
) -> Result<(Pred, &'a [Placed]), Fault<'a>>
    ensures { Gives beside result (spec.conjunction_at (spec.unit_at form depth) (tokens_of tokens.now)) }
{
    let (mut pred, mut rest) = read_unit(alloc, form, depth, tokens)?;
    while let Some(behind) = behind_word(b"and", rest) {
        let (right, after) = read_unit(alloc, form, depth, behind)?;
        pred = Pred::and(alloc, pred, right)?;
        rest = after;
    }
    Ok((pred, rest))
}

/// Conjunctions with `or` between them, grouped from the left.
#[cycle(reader)]
fn read_disjunction<'a>(
    alloc: Global,
    form: Form,
    depth: u8,
    tokens: &'a [Placed],
) -> Result<(Pred, &'a [Placed]), Fault<'a>>
    ensures { Gives beside result (spec.disjunction_at (spec.unit_at form depth) (tokens_of tokens.now)) }
{
    let (mut pred, mut rest) = read_conjunction(alloc, form, depth, tokens)?;
    while let Some(behind) = behind_word(b"or", rest) {
        let (right, after) = read_conjunction(alloc, form, depth, behind)?;
        pred = Pred::or(alloc, pred, right)?;
        rest = after;
    }
    Ok((pred, rest))
}

/// A predicate, in which up to 16 of `not` and `(` are open at once.
pub fn read_predicate<'a>(
    alloc: Global,
    form: Form,
    tokens: &'a [Placed],
) -> Result<(Pred, &'a [Placed]), Fault<'a>>
    ensures { Gives beside result (spec.disjunction_at (spec.unit_at form 16) (tokens_of tokens.now)) }
{
    read_disjunction(alloc, form, OPEN_LIMIT, tokens)
}
