//! Readers of actions.

ghost use Rattle.std.specs.Prelude.{◌∷◌, codes};
ghost use Rattle.sb_tokens.specs.Rows.{tokens_of};
ghost use Rattle.sb_language.specs.Reading.{mapped, more_at, items_at};
ghost use Rattle.sb_phrases.specs.Gives.{Gives, beside, items_beside};
ghost use Rattle.sb_phrases.specs.Phrases.{is_word};
ghost use Rattle.sb_reader.specs.Commands as spec;

use sb_phrases::{
    Fault, Form, behind_word, is_word_next, read_listed, read_mark, read_name, read_term, read_word,
};
use sb_pred::Term;
use sb_rule::{Action, Pairs, Terms};
use sb_tokens::{Placed, Sign};
use sb_value::Str;
use std::alloc::Global;

#[tactic(auto, unfolding(crate::specs::Commands::pair_at))]
fn read_pair<'a>(form: Form, tokens: &'a [Placed]) -> Result<((Str, Term), &'a [Placed]), Fault<'a>>
    ensures { Gives beside result (spec.pair_at form (tokens_of tokens.now)) }
{
    let (column, rest) = read_name(tokens)?;
    let rest = read_mark(Sign::Equal, rest)?;
    let (term, rest) = read_term(form, rest)?;
    Ok(((column, term), rest))
}

/// Up to so many pairs behind a first one.
fn read_more_pairs<'a>(
    alloc: Global,
    form: Form,
    count: u8,
    first: (Str, Term),
    tokens: &'a [Placed],
) -> Result<(Vec<(Str, Term)>, &'a [Placed]), Fault<'a>>
    ensures { Gives items_beside result (mapped (λ pairs. first ∷ pairs) (more_at count (is_word (codes "and")) (spec.pair_at form) (tokens_of tokens.now))) }
{
    let mut pairs = Vec::new(alloc);
    pairs.push(first)?;
    let mut rest = tokens;
    for _ in 0..count {
        let Some(behind) = behind_word(b"and", rest) else {
            return Ok((pairs, rest));
        };
        let (pair, after) = read_pair(form, behind)?;
        pairs.push(pair)?;
        rest = after;
    }
    Ok((pairs, rest))
}

#[tactic(auto, unfolding(crate::specs::Commands::pairs_at))]
fn read_pairs<'a>(
    alloc: Global,
    form: Form,
    tokens: &'a [Placed],
) -> Result<(Pairs, &'a [Placed]), Fault<'a>>
    ensures { Gives beside result (spec.pairs_at form (tokens_of tokens.now)) }
{
    let rest = read_word(b"where", tokens)?;
    let (first, rest) = read_pair(form, rest)?;
    let (pairs, rest) = read_more_pairs(alloc, form, 3, first, rest)?;
    Ok((Pairs::from_vec(pairs), rest))
}

/// The pairs that rows have to match: at most 4, or none.
#[tactic(auto, unfolding(crate::specs::Commands::matching_at))]
pub fn read_matching<'a>(
    alloc: Global,
    form: Form,
    tokens: &'a [Placed],
) -> Result<(Pairs, &'a [Placed]), Fault<'a>>
    ensures { Gives beside result (spec.matching_at form (tokens_of tokens.now)) }
{
    if is_word_next(b"where", tokens) {
        return read_pairs(alloc, form, tokens);
    }
    Ok((Pairs::from_vec(Vec::new(alloc)), tokens))
}

#[tactic(auto, unfolding(crate::specs::Commands::insert_action_at))]
fn read_insert_action<'a>(
    alloc: Global,
    tokens: &'a [Placed],
) -> Result<(Action, &'a [Placed]), Fault<'a>>
    ensures { Gives beside result (spec.insert_action_at (tokens_of tokens.now)) }
{
    let rest = read_word(b"insert", tokens)?;
    let (relation, rest) = read_name(rest)?;
    let rest = read_word(b"values", rest)?;
    let (terms, rest) = read_listed(alloc, rest)?;
    let terms = Terms::from_vec(terms);
    Ok((Action::Insert { relation, terms }, rest))
}

#[tactic(auto, unfolding(crate::specs::Commands::delete_action_at))]
fn read_delete_action<'a>(
    alloc: Global,
    form: Form,
    tokens: &'a [Placed],
) -> Result<(Action, &'a [Placed]), Fault<'a>>
    ensures { Gives beside result (spec.delete_action_at form (tokens_of tokens.now)) }
{
    let rest = read_word(b"delete", tokens)?;
    let (relation, rest) = read_name(rest)?;
    let (pairs, rest) = read_matching(alloc, form, rest)?;
    Ok((Action::Delete { relation, pairs }, rest))
}

#[tactic(auto, unfolding(crate::specs::Commands::set_action_at))]
pub fn read_set_action<'a>(
    alloc: Global,
    form: Form,
    tokens: &'a [Placed],
) -> Result<(Action, &'a [Placed]), Fault<'a>>
    ensures { Gives beside result (spec.set_action_at form (tokens_of tokens.now)) }
{
    let rest = read_word(b"set", tokens)?;
    let (relation, rest) = read_name(rest)?;
    let (column, rest) = read_name(rest)?;
    let rest = read_mark(Sign::Equal, rest)?;
    let (term, rest) = read_term(form, rest)?;
    let (pairs, rest) = read_matching(alloc, form, rest)?;
    let action = Action::Set {
        relation,
        column,
        term,
        pairs,
    };
    Ok((action, rest))
}

#[tactic(auto, unfolding(crate::specs::Commands::add_action_at))]
pub fn read_add_action<'a>(
    alloc: Global,
    form: Form,
    tokens: &'a [Placed],
) -> Result<(Action, &'a [Placed]), Fault<'a>>
    ensures { Gives beside result (spec.add_action_at form (tokens_of tokens.now)) }
{
    let rest = read_word(b"add", tokens)?;
    let (relation, rest) = read_name(rest)?;
    let (column, rest) = read_name(rest)?;
    let rest = read_word(b"by", rest)?;
    let (term, rest) = read_term(form, rest)?;
    let (pairs, rest) = read_matching(alloc, form, rest)?;
    let action = Action::Add {
        relation,
        column,
        term,
        pairs,
    };
    Ok((action, rest))
}

/// What a trigger does.
#[tactic(auto, unfolding(crate::specs::Commands::triggered_at))]
pub fn read_triggered<'a>(
    alloc: Global,
    tokens: &'a [Placed],
) -> Result<(Action, &'a [Placed]), Fault<'a>>
    ensures { Gives beside result (spec.triggered_at (tokens_of tokens.now)) }
{
    if is_word_next(b"insert", tokens) {
        return read_insert_action(alloc, tokens);
    }
    if is_word_next(b"delete", tokens) {
        return read_delete_action(alloc, Form::Full, tokens);
    }
    if is_word_next(b"set", tokens) {
        return read_set_action(alloc, Form::Full, tokens);
    }
    read_add_action(alloc, Form::Full, tokens)
}
