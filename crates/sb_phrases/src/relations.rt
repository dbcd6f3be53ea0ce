//! Readers of what a relation is made with.

ghost use Rattle.sb_tokens.specs.Rows.{tokens_of};
ghost use Rattle.sb_phrases.specs.Gives.{Gives, beside};
ghost use Rattle.sb_phrases.specs.Phrases as spec;

use crate::fault::Fault;
use crate::lists::{Item, read_listed, read_names};
use crate::phrases::read_foreign_code;
use crate::pieces::{
    behind_word, is_mark_next, is_word_next, read_mark, read_name, read_number, read_word,
};
use sb_tokens::{Placed, Sign};
use sb_value::{Column, Kind, Names, Schema};
use std::alloc::Global;

/// The codes of our own storage methods.
const HEAP: u16 = 1;

const TREE: u16 = 2;

const TEMP: u16 = 3;

/// How long a text may be where no limit is given.
const TEXT_LIMIT: u8 = 255;

/// The code of a storage method.
#[tactic(auto, unfolding(crate::specs::Phrases::method_at), using(crate::proofs::Loops::passes))]
pub fn read_method<'a>(tokens: &'a [Placed]) -> Result<(u16, &'a [Placed]), Fault<'a>>
    ensures { Gives beside result (spec.method_at (tokens_of tokens.now)) }
{
    if let Some(rest) = behind_word(b"heap", tokens) {
        return Ok((HEAP, rest));
    }
    if let Some(rest) = behind_word(b"tree", tokens) {
        return Ok((TREE, rest));
    }
    if let Some(rest) = behind_word(b"temp", tokens) {
        return Ok((TEMP, rest));
    }
    let rest = read_word(b"method", tokens)?;
    read_foreign_code(rest)
}

#[tactic(auto, unfolding(crate::specs::Phrases::bound_at))]
fn read_bound<'a>(tokens: &'a [Placed]) -> Result<(u8, &'a [Placed]), Fault<'a>>
    ensures { Gives beside result (spec.bound_at (tokens_of tokens.now)) }
{
    let rest = read_mark(Sign::Open, tokens)?;
    let (limit, rest) = read_number(1, 255, rest)?;
    let rest = read_mark(Sign::Close, rest)?;
    Ok((limit as u8, rest))
}

#[tactic(auto, unfolding(crate::specs::Phrases::text_limit_at))]
fn read_text_limit<'a>(tokens: &'a [Placed]) -> Result<(u8, &'a [Placed]), Fault<'a>>
    ensures { Gives beside result (spec.text_limit_at (tokens_of tokens.now)) }
{
    if is_mark_next(Sign::Open, tokens) {
        return read_bound(tokens);
    }
    Ok((TEXT_LIMIT, tokens))
}

/// A kind and its limit.
#[tactic(auto, unfolding(crate::specs::Phrases::kind_at), using(crate::proofs::Loops::passes))]
fn read_kind<'a>(tokens: &'a [Placed]) -> Result<((Kind, u8), &'a [Placed]), Fault<'a>>
    ensures { Gives beside result (spec.kind_at (tokens_of tokens.now)) }
{
    if let Some(rest) = behind_word(b"int", tokens) {
        return Ok(((Kind::Int, 0), rest));
    }
    let rest = read_word(b"text", tokens)?;
    let (limit, rest) = read_text_limit(rest)?;
    Ok(((Kind::Text, limit), rest))
}

#[tactic(auto, unfolding(crate::specs::Phrases::column_at))]
fn read_column<'a>(tokens: &'a [Placed]) -> Result<(Column, &'a [Placed]), Fault<'a>>
    ensures { Gives beside result (spec.column_at (tokens_of tokens.now)) }
{
    let (name, rest) = read_name(tokens)?;
    let ((kind, limit), rest) = read_kind(rest)?;
    Ok((Column { name, kind, limit }, rest))
}

impl Item for Column {
    ghost item_at = { spec.column_at };

    fn read<'a>(tokens: &'a [Placed]) -> Result<(Column, &'a [Placed]), Fault<'a>> {
        read_column(tokens)
    }
}

/// At most 16 columns between parentheses.
pub fn read_schema<'a>(
    alloc: Global,
    tokens: &'a [Placed],
) -> Result<(Schema, &'a [Placed]), Fault<'a>>
    ensures { Gives beside result (spec.listed_at spec.column_at (tokens_of tokens.now)) }
{
    let (columns, rest) = read_listed(alloc, tokens)?;
    Ok((Schema::from_vec(columns), rest))
}

#[tactic(auto, unfolding(crate::specs::Phrases::key_names_at))]
fn read_key_names<'a>(
    alloc: Global,
    tokens: &'a [Placed],
) -> Result<(Names, &'a [Placed]), Fault<'a>>
    ensures { Gives beside result (spec.key_names_at (tokens_of tokens.now)) }
{
    let rest = read_word(b"key", tokens)?;
    read_names(alloc, rest)
}

/// The columns of the key, or none.
#[tactic(auto, unfolding(crate::specs::Phrases::key_columns_at))]
pub fn read_key_columns<'a>(
    alloc: Global,
    tokens: &'a [Placed],
) -> Result<(Names, &'a [Placed]), Fault<'a>>
    ensures { Gives beside result (spec.key_columns_at (tokens_of tokens.now)) }
{
    if is_word_next(b"key", tokens) {
        return read_key_names(alloc, tokens);
    }
    Ok((Names::from_vec(Vec::new(alloc)), tokens))
}
