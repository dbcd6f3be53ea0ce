//! Readers of commands on rows, behind their first words.

ghost use Rattle.sb_tokens.specs.Rows.{tokens_of};
ghost use Rattle.sb_phrases.specs.Gives.{Gives, beside};
ghost use Rattle.sb_reader.specs.Commands as spec;
ghost use Rattle.sb_reader.specs.Verbs as verbs;

use crate::actions::{read_add_action, read_matching, read_set_action};
use sb_phrases::{
    Fault, Form, is_key_next, is_word_next, read_constants, read_key, read_name, read_number,
    read_word,
};
use sb_plain::Command;
use sb_rule::Action;
use sb_tokens::Placed;
use sb_value::RecKey;
use std::alloc::Global;

/// How many rows a scan may be told to stop at.
const ROW_LIMIT: u32 = 1_000_000;

#[tactic(auto, unfolding(crate::specs::Verbs::insert_behind_at))]
pub fn read_insert<'a>(
    alloc: Global,
    tokens: &'a [Placed],
) -> Result<(Command, &'a [Placed]), Fault<'a>>
    ensures { Gives beside result (verbs.insert_behind_at (tokens_of tokens.now)) }
{
    let (relation, rest) = read_name(tokens)?;
    let rest = read_word(b"values", rest)?;
    let (values, rest) = read_constants(alloc, rest)?;
    Ok((Command::Insert { relation, values }, rest))
}

/// One row by its key, or the rows that match.
#[tactic(auto, unfolding(crate::specs::Verbs::delete_behind_at, crate::specs::Commands::rows_at))]
pub fn read_delete<'a>(
    alloc: Global,
    tokens: &'a [Placed],
) -> Result<(Command, &'a [Placed]), Fault<'a>>
    ensures { Gives beside result (verbs.delete_behind_at (tokens_of tokens.now)) }
{
    let (relation, rest) = read_name(tokens)?;
    if is_key_next(rest) {
        let (at, rest) = read_key(rest)?;
        return Ok((Command::Delete { relation, at }, rest));
    }
    let (pairs, rest) = read_matching(alloc, Form::Constant, rest)?;
    let action = Action::Delete { relation, pairs };
    Ok((Command::Act { action }, rest))
}

#[tactic(auto, unfolding(crate::specs::Verbs::update_behind_at))]
pub fn read_update<'a>(
    alloc: Global,
    tokens: &'a [Placed],
) -> Result<(Command, &'a [Placed]), Fault<'a>>
    ensures { Gives beside result (verbs.update_behind_at (tokens_of tokens.now)) }
{
    let (relation, rest) = read_name(tokens)?;
    let (at, rest) = read_key(rest)?;
    let rest = read_word(b"values", rest)?;
    let (values, rest) = read_constants(alloc, rest)?;
    let command = Command::Update {
        relation,
        at,
        values,
    };
    Ok((command, rest))
}

#[tactic(auto, unfolding(crate::specs::Commands::set_at))]
pub fn read_set<'a>(
    alloc: Global,
    tokens: &'a [Placed],
) -> Result<(Command, &'a [Placed]), Fault<'a>>
    ensures { Gives beside result (spec.set_at (tokens_of tokens.now)) }
{
    let (action, rest) = read_set_action(alloc, Form::Constant, tokens)?;
    Ok((Command::Act { action }, rest))
}

#[tactic(auto, unfolding(crate::specs::Commands::add_at))]
pub fn read_add<'a>(
    alloc: Global,
    tokens: &'a [Placed],
) -> Result<(Command, &'a [Placed]), Fault<'a>>
    ensures { Gives beside result (spec.add_at (tokens_of tokens.now)) }
{
    let (action, rest) = read_add_action(alloc, Form::Constant, tokens)?;
    Ok((Command::Act { action }, rest))
}

#[tactic(auto, unfolding(crate::specs::Verbs::get_behind_at))]
pub fn read_get<'a>(tokens: &'a [Placed]) -> Result<(Command, &'a [Placed]), Fault<'a>>
    ensures { Gives beside result (verbs.get_behind_at (tokens_of tokens.now)) }
{
    let (relation, rest) = read_name(tokens)?;
    let (at, rest) = read_key(rest)?;
    Ok((Command::Get { relation, at }, rest))
}

#[tactic(auto, unfolding(crate::specs::Commands::after_key_at))]
fn read_after_key<'a>(tokens: &'a [Placed]) -> Result<(RecKey, &'a [Placed]), Fault<'a>>
    ensures { Gives beside result (spec.after_key_at (tokens_of tokens.now)) }
{
    let rest = read_word(b"after", tokens)?;
    read_key(rest)
}

#[tactic(auto, unfolding(crate::specs::Commands::row_limit_at))]
fn read_row_limit<'a>(tokens: &'a [Placed]) -> Result<(u32, &'a [Placed]), Fault<'a>>
    ensures { Gives beside result (spec.row_limit_at (tokens_of tokens.now)) }
{
    let rest = read_word(b"limit", tokens)?;
    read_number(0, ROW_LIMIT, rest)
}

#[tactic(auto, unfolding(crate::specs::Commands::optional_after_at))]
fn read_optional_after<'a>(
    tokens: &'a [Placed],
) -> Result<(Option<RecKey>, &'a [Placed]), Fault<'a>>
    ensures { Gives beside result (spec.optional_after_at (tokens_of tokens.now)) }
{
    if is_word_next(b"after", tokens) {
        let (key, rest) = read_after_key(tokens)?;
        return Ok((Some(key), rest));
    }
    Ok((None, tokens))
}

#[tactic(auto, unfolding(crate::specs::Commands::optional_limit_at))]
fn read_optional_limit<'a>(tokens: &'a [Placed]) -> Result<(Option<u32>, &'a [Placed]), Fault<'a>>
    ensures { Gives beside result (spec.optional_limit_at (tokens_of tokens.now)) }
{
    if is_word_next(b"limit", tokens) {
        let (limit, rest) = read_row_limit(tokens)?;
        return Ok((Some(limit), rest));
    }
    Ok((None, tokens))
}

#[tactic(auto, unfolding(crate::specs::Verbs::scan_behind_at))]
pub fn read_scan<'a>(tokens: &'a [Placed]) -> Result<(Command, &'a [Placed]), Fault<'a>>
    ensures { Gives beside result (verbs.scan_behind_at (tokens_of tokens.now)) }
{
    let (relation, rest) = read_name(tokens)?;
    let (after, rest) = read_optional_after(rest)?;
    let (limit, rest) = read_optional_limit(rest)?;
    let command = Command::Scan {
        relation,
        after,
        limit,
    };
    Ok((command, rest))
}
