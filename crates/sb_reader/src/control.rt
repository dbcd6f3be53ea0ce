//! Readers of commands on transactions and extensions, behind their first words.

ghost use Rattle.sb_tokens.specs.Rows.{tokens_of};
ghost use Rattle.sb_phrases.specs.Gives.{Gives, beside};
ghost use Rattle.sb_reader.specs.Commands as spec;
ghost use Rattle.sb_reader.specs.Verbs as verbs;

use sb_phrases::{Fault, behind_word, read_name, read_number, read_word};
use sb_plain::Command;
use sb_tokens::Placed;

#[tactic(auto, unfolding(crate::specs::Verbs::savepoint_behind_at))]
pub fn read_savepoint<'a>(tokens: &'a [Placed]) -> Result<(Command, &'a [Placed]), Fault<'a>>
    ensures { Gives beside result (verbs.savepoint_behind_at (tokens_of tokens.now)) }
{
    let (name, rest) = read_name(tokens)?;
    Ok((Command::Savepoint { name }, rest))
}

#[tactic(auto, unfolding(crate::specs::Verbs::rollback_behind_at))]
pub fn read_rollback<'a>(tokens: &'a [Placed]) -> Result<(Command, &'a [Placed]), Fault<'a>>
    ensures { Gives beside result (verbs.rollback_behind_at (tokens_of tokens.now)) }
{
    let (name, rest) = read_name(tokens)?;
    Ok((Command::Rollback { name }, rest))
}

#[tactic(auto, unfolding(crate::specs::Commands::checkpoint_at))]
pub fn read_checkpoint<'a>(tokens: &'a [Placed]) -> Result<(Command, &'a [Placed]), Fault<'a>>
    ensures { Gives beside result (spec.checkpoint_at (tokens_of tokens.now)) }
{
    let rest = read_word(b"checkpoint", tokens)?;
    Ok((Command::Checkpoint, rest))
}

/// Whether the extension is a storage method; else it is an attachment.
#[tactic(auto, unfolding(crate::specs::Commands::sort_at), using(sb_phrases::proofs::Loops::passes))]
fn read_sort<'a>(tokens: &'a [Placed]) -> Result<(bool, &'a [Placed]), Fault<'a>>
    ensures { Gives beside result (spec.sort_at (tokens_of tokens.now)) }
{
    if let Some(rest) = behind_word(b"method", tokens) {
        return Ok((true, rest));
    }
    let rest = read_word(b"attachment", tokens)?;
    Ok((false, rest))
}

/// The code of an extension, ours or another author's.
fn read_any_code<'a>(tokens: &'a [Placed]) -> Result<(u16, &'a [Placed]), Fault<'a>>
    ensures { Gives beside result (spec.any_code_at (tokens_of tokens.now)) }
{
    let (code, rest) = read_number(1, 65535, tokens)?;
    Ok((code as u16, rest))
}

#[tactic(auto, unfolding(crate::specs::Verbs::register_behind_at))]
pub fn read_register<'a>(tokens: &'a [Placed]) -> Result<(Command, &'a [Placed]), Fault<'a>>
    ensures { Gives beside result (verbs.register_behind_at (tokens_of tokens.now)) }
{
    let (method, rest) = read_sort(tokens)?;
    let (code, rest) = read_any_code(rest)?;
    Ok((Command::Register { method, code }, rest))
}

#[tactic(auto, unfolding(crate::specs::Verbs::retire_behind_at))]
pub fn read_retire<'a>(tokens: &'a [Placed]) -> Result<(Command, &'a [Placed]), Fault<'a>>
    ensures { Gives beside result (verbs.retire_behind_at (tokens_of tokens.now)) }
{
    let (method, rest) = read_sort(tokens)?;
    let (code, rest) = read_any_code(rest)?;
    Ok((Command::Retire { method, code }, rest))
}
