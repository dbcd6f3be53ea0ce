//! Readers of terms.

ghost use Rattle.sb_tokens.specs.Rows.{tokens_of};
ghost use Rattle.sb_phrases.specs.Gives.{Gives, beside};
ghost use Rattle.sb_phrases.specs.Phrases as spec;
ghost use Rattle.sb_language.specs.Reading.{token_at};

use crate::fault::Fault;
use crate::form::Form;
use crate::pieces::{is_word_next, read_constant, read_mark, read_name, read_word};
use crate::words::is_keyword;
use sb_pred::Term;
use sb_tokens::{Placed, Sign, Token};
use sb_value::Value;

#[tactic(auto, unfolding(crate::specs::Phrases::constant_term_at))]
fn read_constant_term<'a>(tokens: &'a [Placed]) -> Result<(Term, &'a [Placed]), Fault<'a>>
    ensures { Gives beside result (spec.constant_term_at (tokens_of tokens.now)) }
{
    let (value, rest) = read_constant(tokens)?;
    Ok((Term::Const(value), rest))
}

fn read_bare_term<'a>(tokens: &'a [Placed]) -> Result<(Term, &'a [Placed]), Fault<'a>>
    ensures { Gives beside result (token_at spec.bare_in (tokens_of tokens.now)) }
{
    match tokens {
        [
            Placed {
                token: Token::Word(found),
                ..
            },
            rest @ ..,
        ] if !is_keyword(found.as_str()) => { Ok((Term::New(found.copy()?), rest)) }
        [
            Placed {
                token: Token::Int(number),
                ..
            },
            rest @ ..,
        ] => { Ok((Term::Const(Value::Int(*number)), rest)) }
        [
            Placed {
                token: Token::Text(text),
                ..
            },
            rest @ ..,
        ] => { Ok((Term::Const(Value::Text(text.copy()?)), rest)) }
        _ => Err(Fault::Misfit(tokens)),
    }
}

#[tactic(auto, unfolding(crate::specs::Phrases::new_column_at))]
fn read_new_column<'a>(tokens: &'a [Placed]) -> Result<(Term, &'a [Placed]), Fault<'a>>
    ensures { Gives beside result (spec.new_column_at (tokens_of tokens.now)) }
{
    let rest = read_word(b"new", tokens)?;
    let rest = read_mark(Sign::Dot, rest)?;
    let (column, rest) = read_name(rest)?;
    Ok((Term::New(column), rest))
}

#[tactic(auto, unfolding(crate::specs::Phrases::old_column_at))]
fn read_old_column<'a>(tokens: &'a [Placed]) -> Result<(Term, &'a [Placed]), Fault<'a>>
    ensures { Gives beside result (spec.old_column_at (tokens_of tokens.now)) }
{
    let rest = read_word(b"old", tokens)?;
    let rest = read_mark(Sign::Dot, rest)?;
    let (column, rest) = read_name(rest)?;
    Ok((Term::Old(column), rest))
}

#[tactic(auto, unfolding(crate::specs::Phrases::full_term_at))]
fn read_full_term<'a>(tokens: &'a [Placed]) -> Result<(Term, &'a [Placed]), Fault<'a>>
    ensures { Gives beside result (spec.full_term_at (tokens_of tokens.now)) }
{
    if is_word_next(b"new", tokens) {
        return read_new_column(tokens);
    }
    if is_word_next(b"old", tokens) {
        return read_old_column(tokens);
    }
    read_constant_term(tokens)
}

/// A term, as it may stand there.
#[tactic(auto, unfolding(crate::specs::Phrases::term_at))]
pub fn read_term<'a>(form: Form, tokens: &'a [Placed]) -> Result<(Term, &'a [Placed]), Fault<'a>>
    ensures { Gives beside result (spec.term_at form (tokens_of tokens.now)) }
{
    match form {
        Form::Constant => read_constant_term(tokens),
        Form::Bare => read_bare_term(tokens),
        Form::Full => read_full_term(tokens),
    }
}
