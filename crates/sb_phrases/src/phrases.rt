//! Readers of what many commands have.

ghost use Rattle.std.specs.Prelude.{◌≡◌, Ok};
ghost use Rattle.sb_tokens.specs.Rows.{tokens_of};
ghost use Rattle.sb_phrases.specs.Gives.{Gives, beside, place_beside};
ghost use Rattle.sb_phrases.specs.Phrases as spec;

use crate::fault::Fault;
use crate::pieces::{behind_word, read_name, read_number, read_word};
use sb_tokens::Placed;
use sb_value::Str;

/// An attachment's name, and that of its relation.
#[tactic(auto, unfolding(crate::specs::Phrases::place_at))]
pub fn read_place<'a>(tokens: &'a [Placed]) -> Result<(Str, Str, &'a [Placed]), Fault<'a>>
    ensures { Gives place_beside result (spec.place_at (tokens_of tokens.now)) }
{
    let (name, rest) = read_name(tokens)?;
    let rest = read_word(b"on", rest)?;
    let (relation, rest) = read_name(rest)?;
    Ok((name, relation, rest))
}

/// Whether the word stands there, and the tokens behind it.
#[tactic(auto, unfolding(crate::specs::Phrases::word_if_at), using(crate::proofs::Loops::passes))]
pub fn read_flag<'a>(text: &[u8], tokens: &'a [Placed]) -> (bool, &'a [Placed])
    ensures { spec.word_if_at text.now (tokens_of tokens.now) ≡ Ok (beside result) }
{
    match behind_word(text, tokens) {
        Some(rest) => (true, rest),
        None => (false, tokens),
    }
}

/// The code of an extension of another author.
pub fn read_foreign_code<'a>(tokens: &'a [Placed]) -> Result<(u16, &'a [Placed]), Fault<'a>>
    ensures { Gives beside result (spec.foreign_code_at (tokens_of tokens.now)) }
{
    let (code, rest) = read_number(1000, 65535, tokens)?;
    Ok((code as u16, rest))
}
