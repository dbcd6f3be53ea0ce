//! Readers of lists.

ghost use Rattle.std.specs.Prelude.{◌∷◌, List};
ghost use Rattle.sb_tokens.specs.declared.token.Token.{Token};
ghost use Rattle.sb_tokens.specs.declared.token.Sign.TheVariants.{Comma};
ghost use Rattle.sb_tokens.specs.Rows.{tokens_of};
ghost use Rattle.sb_language.specs.Reading.{Read, mapped, more_at, items_at};
ghost use Rattle.sb_phrases.specs.declared.form.Form.TheVariants.{Full};
ghost use Rattle.sb_phrases.specs.Gives.{Gives, beside, items_beside};
ghost use Rattle.sb_phrases.specs.Phrases as spec;

use crate::fault::Fault;
use crate::form::Form;
use crate::pieces::{behind_mark, read_constant, read_mark, read_name};
use crate::terms::read_term;
use sb_pred::Term;
use sb_tokens::{Placed, Sign};
use sb_value::{Names, Str, Tuple, Value};
use std::alloc::Global;

/// What may stand in a list.
pub trait Item: Drop {
    ghost item_at: { List Token → Read Token Self };

    fn read<'a>(tokens: &'a [Placed]) -> Result<(Self, &'a [Placed]), Fault<'a>>
        ensures { Gives beside result (item_at (tokens_of tokens.now)) };
}

impl Item for Str {
    ghost item_at = { spec.name_at };

    fn read<'a>(tokens: &'a [Placed]) -> Result<(Str, &'a [Placed]), Fault<'a>> {
        read_name(tokens)
    }
}

impl Item for Value {
    ghost item_at = { spec.constant_at };

    fn read<'a>(tokens: &'a [Placed]) -> Result<(Value, &'a [Placed]), Fault<'a>> {
        read_constant(tokens)
    }
}

/// Lists of terms stand in triggers alone.
impl Item for Term {
    ghost item_at = { spec.term_at Full };

    fn read<'a>(tokens: &'a [Placed]) -> Result<(Term, &'a [Placed]), Fault<'a>> {
        read_term(Form::Full, tokens)
    }
}

/// Up to so many items behind a first one.
fn read_more_items<'a, T: Item>(
    alloc: Global,
    count: u8,
    first: T,
    tokens: &'a [Placed],
) -> Result<(Vec<T>, &'a [Placed]), Fault<'a>>
    ensures { Gives items_beside result (mapped (λ items. first ∷ items) (more_at count (spec.is_mark Comma) T.item_at (tokens_of tokens.now))) }
{
    let mut items = Vec::new(alloc);
    items.push(first)?;
    let mut rest = tokens;
    for _ in 0..count {
        let Some(behind) = behind_mark(Sign::Comma, rest) else {
            return Ok((items, rest));
        };
        let (item, after) = T::read(behind)?;
        items.push(item)?;
        rest = after;
    }
    Ok((items, rest))
}

fn read_items<'a, T: Item>(
    alloc: Global,
    tokens: &'a [Placed],
) -> Result<(Vec<T>, &'a [Placed]), Fault<'a>>
    ensures { Gives items_beside result (items_at 15 (spec.is_mark Comma) T.item_at (tokens_of tokens.now)) }
{
    let (first, rest) = T::read(tokens)?;
    read_more_items(alloc, 15, first, rest)
}

/// At most 16 items between parentheses.
#[tactic(auto, unfolding(crate::specs::Phrases::listed_at))]
pub fn read_listed<'a, T: Item>(
    alloc: Global,
    tokens: &'a [Placed],
) -> Result<(Vec<T>, &'a [Placed]), Fault<'a>>
    ensures { Gives items_beside result (spec.listed_at T.item_at (tokens_of tokens.now)) }
{
    let rest = read_mark(Sign::Open, tokens)?;
    let (items, rest) = read_items(alloc, rest)?;
    let rest = read_mark(Sign::Close, rest)?;
    Ok((items, rest))
}

/// At most 16 names between parentheses.
pub fn read_names<'a>(
    alloc: Global,
    tokens: &'a [Placed],
) -> Result<(Names, &'a [Placed]), Fault<'a>>
    ensures { Gives beside result (spec.names_at (tokens_of tokens.now)) }
{
    let (names, rest) = read_listed(alloc, tokens)?;
    Ok((Names::from_vec(names), rest))
}

/// At most 16 values between parentheses.
pub fn read_constants<'a>(
    alloc: Global,
    tokens: &'a [Placed],
) -> Result<(Tuple, &'a [Placed]), Fault<'a>>
    ensures { Gives beside result (spec.constants_at (tokens_of tokens.now)) }
{
    let (values, rest) = read_listed(alloc, tokens)?;
    Ok((Tuple::from_vec(values), rest))
}
