//! Readers of commands on relations and their attachments, behind their first words.

ghost use Rattle.sb_tokens.specs.Rows.{tokens_of};
ghost use Rattle.sb_phrases.specs.Gives.{Gives, beside};
ghost use Rattle.sb_reader.specs.Commands as spec;
ghost use Rattle.sb_reader.specs.Verbs as verbs;

use sb_phrases::{
    Fault, read_key_columns, read_method, read_name, read_place, read_schema, read_word,
};
use sb_plain::Command;
use sb_tokens::Placed;
use std::alloc::Global;

#[tactic(auto, unfolding(crate::specs::Verbs::create_behind_at))]
pub fn read_create<'a>(
    alloc: Global,
    tokens: &'a [Placed],
) -> Result<(Command, &'a [Placed]), Fault<'a>>
    ensures { Gives beside result (verbs.create_behind_at (tokens_of tokens.now)) }
{
    let (relation, rest) = read_name(tokens)?;
    let rest = read_word(b"using", rest)?;
    let (method, rest) = read_method(rest)?;
    let (schema, rest) = read_schema(alloc, rest)?;
    let (key, rest) = read_key_columns(alloc, rest)?;
    let command = Command::Create {
        relation,
        method,
        schema,
        key,
    };
    Ok((command, rest))
}

#[tactic(auto, unfolding(crate::specs::Verbs::drop_behind_at))]
pub fn read_drop<'a>(tokens: &'a [Placed]) -> Result<(Command, &'a [Placed]), Fault<'a>>
    ensures { Gives beside result (verbs.drop_behind_at (tokens_of tokens.now)) }
{
    let (relation, rest) = read_name(tokens)?;
    Ok((Command::Drop { relation }, rest))
}

#[tactic(auto, unfolding(crate::specs::Verbs::detach_behind_at))]
pub fn read_detach<'a>(tokens: &'a [Placed]) -> Result<(Command, &'a [Placed]), Fault<'a>>
    ensures { Gives beside result (verbs.detach_behind_at (tokens_of tokens.now)) }
{
    let (name, relation, rest) = read_place(tokens)?;
    Ok((Command::Detach { relation, name }, rest))
}

#[tactic(auto, unfolding(crate::specs::Verbs::show_behind_at))]
pub fn read_show<'a>(tokens: &'a [Placed]) -> Result<(Command, &'a [Placed]), Fault<'a>>
    ensures { Gives beside result (verbs.show_behind_at (tokens_of tokens.now)) }
{
    let (relation, rest) = read_name(tokens)?;
    Ok((Command::Show { relation }, rest))
}

#[tactic(auto, unfolding(crate::specs::Commands::tables_at))]
pub fn read_tables<'a>(tokens: &'a [Placed]) -> Result<(Command, &'a [Placed]), Fault<'a>>
    ensures { Gives beside result (spec.tables_at (tokens_of tokens.now)) }
{
    let rest = read_word(b"tables", tokens)?;
    Ok((Command::Tables, rest))
}
