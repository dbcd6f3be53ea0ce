//! Readers of commands on indexes, behind their first words.

ghost use Rattle.sb_tokens.specs.Rows.{tokens_of};
ghost use Rattle.sb_phrases.specs.Gives.{Gives, beside};
ghost use Rattle.sb_reader.specs.Verbs as verbs;

use sb_phrases::{Fault, read_constants, read_place, read_word};
use sb_plain::Command;
use sb_tokens::Placed;
use std::alloc::Global;

#[tactic(auto, unfolding(crate::specs::Verbs::lookup_behind_at))]
pub fn read_lookup<'a>(
    alloc: Global,
    tokens: &'a [Placed],
) -> Result<(Command, &'a [Placed]), Fault<'a>>
    ensures { Gives beside result (verbs.lookup_behind_at (tokens_of tokens.now)) }
{
    let (name, relation, rest) = read_place(tokens)?;
    let (values, rest) = read_constants(alloc, rest)?;
    let command = Command::Lookup {
        relation,
        name,
        values,
    };
    Ok((command, rest))
}

#[tactic(auto, unfolding(crate::specs::Verbs::range_behind_at))]
pub fn read_range<'a>(
    alloc: Global,
    tokens: &'a [Placed],
) -> Result<(Command, &'a [Placed]), Fault<'a>>
    ensures { Gives beside result (verbs.range_behind_at (tokens_of tokens.now)) }
{
    let (name, relation, rest) = read_place(tokens)?;
    let rest = read_word(b"from", rest)?;
    let (low, rest) = read_constants(alloc, rest)?;
    let rest = read_word(b"to", rest)?;
    let (high, rest) = read_constants(alloc, rest)?;
    let command = Command::Range {
        relation,
        name,
        low,
        high,
    };
    Ok((command, rest))
}

#[tactic(auto, unfolding(crate::specs::Verbs::entries_behind_at))]
pub fn read_entries<'a>(tokens: &'a [Placed]) -> Result<(Command, &'a [Placed]), Fault<'a>>
    ensures { Gives beside result (verbs.entries_behind_at (tokens_of tokens.now)) }
{
    let (name, relation, rest) = read_place(tokens)?;
    Ok((Command::Entries { relation, name }, rest))
}
