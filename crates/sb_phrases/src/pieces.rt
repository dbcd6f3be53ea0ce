//! Readers of one token.

ghost use Rattle.std.specs.Prelude.{◌≡◌, ◌≤◌, IfOk};
ghost use Rattle.sb_tokens.specs.Rows.{tokens_of};
ghost use Rattle.sb_language.specs.Reading.{starts};
ghost use Rattle.sb_phrases.specs.Gives.{Gives, IsBehind, behind, beside};
ghost use Rattle.sb_phrases.specs.Phrases as spec;

use crate::fault::Fault;
use crate::words::is_keyword;
use sb_pred::Op;
use sb_tokens::{Placed, Sign, Token};
use sb_value::{RecKey, Str, Value};

/// The tokens behind this word.
pub fn behind_word<'a>(text: &[u8], tokens: &'a [Placed]) -> Option<&'a [Placed]>
    ensures { IsBehind (spec.is_word text.now) (tokens_of tokens.now) result }
{
    match tokens {
        [
            Placed {
                token: Token::Word(found),
                ..
            },
            rest @ ..,
        ] if found.as_bytes() == text => Some(rest),
        _ => None,
    }
}

/// The tokens behind this sign.
pub fn behind_mark<'a>(sign: Sign, tokens: &'a [Placed]) -> Option<&'a [Placed]>
    ensures { IsBehind (spec.is_mark sign) (tokens_of tokens.now) result }
{
    match tokens {
        [
            Placed {
                token: Token::Sign(found),
                ..
            },
            rest @ ..,
        ] if *found == sign => Some(rest),
        _ => None,
    }
}

/// Whether this word comes next.
pub fn is_word_next(text: &[u8], tokens: &[Placed]) -> bool
    ensures { result ≡ starts (spec.is_word text.now) (tokens_of tokens.now) }
{
    match tokens {
        [
            Placed {
                token: Token::Word(found),
                ..
            },
            ..
        ] => found.as_bytes() == text,
        _ => false,
    }
}

pub fn is_mark_next(sign: Sign, tokens: &[Placed]) -> bool
    ensures { result ≡ starts (spec.is_mark sign) (tokens_of tokens.now) }
{
    match tokens {
        [
            Placed {
                token: Token::Sign(found),
                ..
            },
            ..
        ] => *found == sign,
        _ => false,
    }
}

/// Whether a record key comes next.
pub fn is_key_next(tokens: &[Placed]) -> bool
    ensures { result ≡ starts spec.is_key (tokens_of tokens.now) }
{
    matches!(
        tokens,
        [
            Placed {
                token: Token::Key(_),
                ..
            },
            ..
        ]
    )
}

/// This word, and the tokens behind it.
pub fn read_word<'a>(text: &[u8], tokens: &'a [Placed]) -> Result<&'a [Placed], Fault<'a>>
    ensures { Gives behind result (spec.word_at text.now (tokens_of tokens.now)) }
{
    match tokens {
        [
            Placed {
                token: Token::Word(found),
                ..
            },
            rest @ ..,
        ] if found.as_bytes() == text => Ok(rest),
        _ => Err(Fault::Misfit(tokens)),
    }
}

/// This sign, and the tokens behind it.
pub fn read_mark<'a>(sign: Sign, tokens: &'a [Placed]) -> Result<&'a [Placed], Fault<'a>>
    ensures { Gives behind result (spec.mark_at sign (tokens_of tokens.now)) }
{
    match tokens {
        [
            Placed {
                token: Token::Sign(found),
                ..
            },
            rest @ ..,
        ] if *found == sign => Ok(rest),
        _ => Err(Fault::Misfit(tokens)),
    }
}

/// A word that is no keyword.
pub fn read_name<'a>(tokens: &'a [Placed]) -> Result<(Str, &'a [Placed]), Fault<'a>>
    ensures { Gives beside result (spec.name_at (tokens_of tokens.now)) }
{
    match tokens {
        [
            Placed {
                token: Token::Word(found),
                ..
            },
            rest @ ..,
        ] if !is_keyword(found.as_str()) => { Ok((found.copy()?, rest)) }
        _ => Err(Fault::Misfit(tokens)),
    }
}

/// A record key.
pub fn read_key<'a>(tokens: &'a [Placed]) -> Result<(RecKey, &'a [Placed]), Fault<'a>>
    ensures { Gives beside result (spec.key_at (tokens_of tokens.now)) }
{
    match tokens {
        [
            Placed {
                token: Token::Key(key),
                ..
            },
            rest @ ..,
        ] => Ok((key.copy()?, rest)),
        _ => Err(Fault::Misfit(tokens)),
    }
}

pub fn read_constant<'a>(tokens: &'a [Placed]) -> Result<(Value, &'a [Placed]), Fault<'a>>
    ensures { Gives beside result (spec.constant_at (tokens_of tokens.now)) }
{
    match tokens {
        [
            Placed {
                token: Token::Int(number),
                ..
            },
            rest @ ..,
        ] => Ok((Value::Int(*number), rest)),
        [
            Placed {
                token: Token::Text(text),
                ..
            },
            rest @ ..,
        ] => Ok((Value::Text(text.copy()?), rest)),
        _ => Err(Fault::Misfit(tokens)),
    }
}

/// A number of 64 bits.
pub fn read_int<'a>(tokens: &'a [Placed]) -> Result<(i64, &'a [Placed]), Fault<'a>>
    ensures { Gives beside result (spec.int_at (tokens_of tokens.now)) }
{
    match tokens {
        [
            Placed {
                token: Token::Int(number),
                ..
            },
            rest @ ..,
        ] => Ok((*number, rest)),
        _ => Err(Fault::Misfit(tokens)),
    }
}

/// A number above 0.
pub fn read_positive<'a>(tokens: &'a [Placed]) -> Result<(i64, &'a [Placed]), Fault<'a>>
    ensures { Gives beside result (spec.positive_at (tokens_of tokens.now)) }
{
    match tokens {
        [
            Placed {
                token: Token::Int(number),
                ..
            },
            rest @ ..,
        ] if *number > 0 => Ok((*number, rest)),
        _ => Err(Fault::Misfit(tokens)),
    }
}

/// A number between two others, both included.
pub fn read_number<'a>(
    low: u32,
    high: u32,
    tokens: &'a [Placed],
) -> Result<(u32, &'a [Placed]), Fault<'a>>
    ensures read { Gives beside result (spec.number_at low high (tokens_of tokens.now)) }
    ensures within { IfOk result (λ read. read.0 ≤ high) }
{
    let [
        Placed {
            token: Token::Int(number),
            ..
        },
        rest @ ..,
    ] = tokens
    else {
        return Err(Fault::Misfit(tokens));
    };
    match u32::try_from(*number) {
        Ok(found) if low <= found && found <= high => Ok((found, rest)),
        _ => Err(Fault::Misfit(tokens)),
    }
}

fn op_of(sign: Sign) -> Option<Op>
    ensures { result ≡ spec.op_of sign }
{
    match sign {
        Sign::Equal => Some(Op::Eq),
        Sign::Unequal => Some(Op::Ne),
        Sign::Less => Some(Op::Lt),
        Sign::LessOrEqual => Some(Op::Le),
        Sign::Greater => Some(Op::Gt),
        Sign::GreaterOrEqual => Some(Op::Ge),
        Sign::Open | Sign::Close | Sign::Comma | Sign::Dot => None,
    }
}

pub fn read_op<'a>(tokens: &'a [Placed]) -> Result<(Op, &'a [Placed]), Fault<'a>>
    ensures { Gives beside result (spec.op_at (tokens_of tokens.now)) }
{
    let [
        Placed {
            token: Token::Sign(sign),
            ..
        },
        rest @ ..,
    ] = tokens
    else {
        return Err(Fault::Misfit(tokens));
    };
    match op_of(*sign) {
        Some(op) => Ok((op, rest)),
        None => Err(Fault::Misfit(tokens)),
    }
}
