//! Texts between quotes, in which each quote is doubled.

ghost use Rattle.std.specs.Prelude.{◌≡◌, ◌+◌, [], false, length, count_by, IfOk};
ghost use Rattle.sb_tokens.specs.Quoted.{IsLastQuote, IsValidFront, longest, unquoted};
ghost use Rattle.sb_tokens.specs.Tokens as spec;

use crate::token::Token;
use sb_value::{Bytes, Str};
use std::alloc::{AllocError, Global};

/// What stands up to the first quote that isn't doubled, with each doubled quote as one, and whether such a quote follows.
fn up_to_quote(alloc: Global, bytes: &[u8]) -> Result<(Bytes, bool), AllocError>
    ensures { IfOk result (λ text. text ≡ unquoted bytes.now) }
{
    let mut text = Bytes::new(alloc);
    let mut is_behind_quote = false;
    for byte in bytes {
        if *byte == b'\'' {
            if is_behind_quote {
                text.push(b'\'')?;
            }
            is_behind_quote = !is_behind_quote;
        } else if is_behind_quote {
            return Ok((text, true));
        } else {
            text.push(*byte)?;
        }
    }
    Ok((text, is_behind_quote))
}

/// How many bytes at the front are UTF-8.
fn valid_len(bytes: &[u8]) -> usize
    ensures { IsValidFront bytes.now result }
{
    match std::str::from_utf8(bytes) {
        Ok(_) => bytes.len(),
        Err(error) => error.valid_up_to(),
    }
}

/// The place of the last quote.
fn last_quote(bytes: &[u8]) -> Option<usize>
    ensures { IsLastQuote bytes.now result }
{
    let mut last = None;
    for (place, byte) in bytes.iter().enumerate() {
        if *byte == b'\'' {
            last = Some(place);
        }
    }
    last
}

/// How many bytes a text takes in a line, with the quote at its end.
fn quoted_len(text: &[u8]) -> usize
    ensures { result ≡ length text.now + count_by spec.is_quote text.now + 1 }
{
    text.len() + text.iter().filter(|byte| **byte == b'\'').count() + 1
}

/// The longest text that ends at a doubled quote, which stands as one in the bytes.
fn shorter_text(alloc: Global, bytes: &[u8]) -> Result<Option<(Token, usize)>, AllocError>
    ensures { IfOk result (λ found. found ≡ spec.text_token (longest [] bytes.now false)) }
{
    let valid = &bytes[..valid_len(bytes)];
    let Some(place) = last_quote(valid) else {
        return Ok(None);
    };
    let shorter = &valid[..place];
    let text = Str::from_utf8(alloc, shorter)?.unwrap();
    Ok(Some((Token::Text(text), 1 + quoted_len(shorter))))
}

/// The longest text at the front of a line, behind its first quote.
pub fn text_token(alloc: Global, rest: &[u8]) -> Result<Option<(Token, usize)>, AllocError>
    ensures { IfOk result (λ found. found ≡ spec.text_token (spec.text_behind [] rest.now)) }
{
    let (bytes, is_ended) = up_to_quote(alloc, rest)?;
    let bytes = bytes.as_slice();
    if !is_ended {
        return shorter_text(alloc, bytes);
    }
    match Str::from_utf8(alloc, bytes)? {
        Some(text) => Ok(Some((Token::Text(text), 1 + quoted_len(bytes)))),
        None => shorter_text(alloc, bytes),
    }
}
