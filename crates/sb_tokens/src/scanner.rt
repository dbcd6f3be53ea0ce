//! From the bytes of a line to its tokens.

ghost use Rattle.std.specs.Prelude.{◌≡◌, ℕ, List, ◌+◌, ◌<◌, ◌≤◌, ◌^◌, length, take_while, IfOk, IfSome};
ghost use Rattle.std.specs.Option.{SomeIff};
ghost use Rattle.hex.specs.Hex as hex_spec;
ghost use Rattle.sb_tokens.specs.Tokens as spec;
ghost use Rattle.sb_tokens.specs.Rows as rows;
ghost use Rattle.sb_tokens.specs.Rows.{HasOneRow, IsRow};

use crate::quoted::text_token;
use crate::token::{Ending, Placed, Sign, Token};
use hex::FromHexError;
use sb_value::{RecKey, Str};
use std::alloc::{AllocError, Global};

/// The longest word in bytes.
const WORD_LIMIT: usize = 32;

/// The tokens of a line, and where they end.
#[derive(Drop)]
pub struct Row {
    pub tokens: Vec<Placed>,
    pub ending: Ending,
}

fn is_letter(byte: u8) -> bool
    ensures { result ≡ spec.is_letter byte }
{
    matches!(byte, b'A'..=b'Z' | b'a'..=b'z' | b'_')
}

fn is_digit(byte: u8) -> bool
    ensures { result ≡ spec.is_digit byte }
{
    matches!(byte, b'0'..=b'9')
}

fn is_word_byte(byte: u8) -> bool
    ensures { result ≡ spec.is_word_byte byte }
{
    is_letter(byte) || is_digit(byte)
}

fn is_blank(byte: u8) -> bool
    ensures { result ≡ spec.is_blank byte }
{
    byte == b' ' || byte == b'\t'
}

fn is_hex_digit(byte: u8) -> bool
    ensures { result ≡ hex_spec.is_hex_digit byte }
{
    matches!(byte, b'A'..=b'F' | b'a'..=b'f' | b'0'..=b'9')
}

fn blanks_len(bytes: &[u8]) -> usize
    ensures { result ≡ length (take_while spec.is_blank bytes.now) }
{
    bytes.iter().take_while(|byte| is_blank(**byte)).count()
}

fn word_len(bytes: &[u8]) -> usize
    ensures { result ≡ length (take_while spec.is_word_byte bytes.now) }
{
    bytes.iter().take_while(|byte| is_word_byte(**byte)).count()
}

fn digits_len(bytes: &[u8]) -> usize
    ensures { result ≡ length (spec.digits_of bytes.now) }
{
    bytes.iter().take_while(|byte| is_digit(**byte)).count()
}

fn hex_len(bytes: &[u8]) -> usize
    ensures { result ≡ length (take_while hex_spec.is_hex_digit bytes.now) }
{
    bytes.iter().take_while(|byte| is_hex_digit(**byte)).count()
}

#[tactic(auto, using(std::proofs::lemmas::List::take_rest))]
fn behind_blanks(bytes: &[u8]) -> &[u8]
    ensures { result.now ≡ rows.behind_blanks bytes.now }
{
    &bytes[blanks_len(bytes)..]
}

#[tactic(auto, using(crate::proofs::TokensLemmas::taken_front))]
fn word_of(bytes: &[u8]) -> &[u8]
    ensures { result.now ≡ take_while spec.is_word_byte bytes.now }
{
    &bytes[..word_len(bytes)]
}

#[tactic(auto, using(crate::proofs::TokensLemmas::taken_front))]
fn digits_of(bytes: &[u8]) -> &[u8]
    ensures { result.now ≡ spec.digits_of bytes.now }
{
    &bytes[..digits_len(bytes)]
}

/// An even number of hex digits at the front, as many as there are.
fn key_digits(bytes: &[u8]) -> &[u8]
    ensures { result.now ≡ spec.even_front (take_while hex_spec.is_hex_digit bytes.now) }
{
    &bytes[..2 * (hex_len(bytes) / 2)]
}

fn word_token(alloc: Global, bytes: &[u8]) -> Result<Option<(Token, usize)>, AllocError>
    ensures { IfOk result (λ found. found ≡ spec.word_token (take_while spec.is_word_byte bytes.now)) }
{
    let text = word_of(bytes);
    if text.len() > WORD_LIMIT {
        return Ok(None);
    }
    let word = Str::from_utf8(alloc, text)?.unwrap();
    Ok(Some((Token::Word(word), text.len())))
}

fn value_of(digits: &[u8]) -> Option<u64>
    ensures { SomeIff result (spec.value_behind 0 digits.now < 2 ^ 64) (spec.value_behind 0 digits.now) }
{
    let mut value: u64 = 0;
    for digit in digits {
        value = value
            .checked_mul(10)?
            .checked_add(u64::from(digit.saturating_sub(b'0')))?;
    }
    Some(value)
}

fn number_token(is_negative: bool, digits: &[u8], len: usize) -> Option<(Token, usize)>
    ensures { result ≡ spec.number_token is_negative (spec.value_behind 0 digits.now) len }
{
    let value = value_of(digits)?;
    let number = if is_negative {
        0_i64.checked_sub_unsigned(value)?
    } else {
        i64::try_from(value).ok()?
    };
    Some((Token::Int(number), len))
}

fn key_token(alloc: Global, rest: &[u8]) -> Result<Option<(Token, usize)>, AllocError>
    ensures { IfOk result (λ found. found ≡ spec.key_token rest.now) }
{
    let digits = key_digits(rest);
    match hex::decode(alloc, digits) {
        Ok(key) => Ok(Some((Token::Key(RecKey::from_vec(key)), 1 + digits.len()))),
        Err(FromHexError::OutOfMemory) => Err(AllocError),
        Err(_) => Ok(None),
    }
}

fn less_token(rest: &[u8]) -> (Token, usize)
    ensures { Some result ≡ spec.less_token rest.now }
{
    match rest {
        [b'>', ..] => (Token::Sign(Sign::Unequal), 2),
        [b'=', ..] => (Token::Sign(Sign::LessOrEqual), 2),
        _ => (Token::Sign(Sign::Less), 1),
    }
}

fn greater_token(rest: &[u8]) -> (Token, usize)
    ensures { Some result ≡ spec.greater_token rest.now }
{
    match rest {
        [b'=', ..] => (Token::Sign(Sign::GreaterOrEqual), 2),
        _ => (Token::Sign(Sign::Greater), 1),
    }
}

fn sign_token(first: u8, rest: &[u8]) -> Option<(Token, usize)>
    ensures { result ≡ spec.sign_token first rest.now }
{
    match first {
        b'(' => Some((Token::Sign(Sign::Open), 1)),
        b')' => Some((Token::Sign(Sign::Close), 1)),
        b',' => Some((Token::Sign(Sign::Comma), 1)),
        b'.' => Some((Token::Sign(Sign::Dot), 1)),
        b'=' => Some((Token::Sign(Sign::Equal), 1)),
        b'<' => Some(less_token(rest)),
        b'>' => Some(greater_token(rest)),
        _ => None,
    }
}

fn front_token(alloc: Global, bytes: &[u8]) -> Result<Option<(Token, usize)>, AllocError>
    ensures token { IfOk result (λ found. found ≡ spec.front_token bytes.now) }
    ensures within { IfOk result (λ found. IfSome found (λ t. (0 < t.1) × (t.1 ≤ length bytes.now))) }
{
    let [first, rest @ ..] = bytes else {
        return Ok(None);
    };
    if is_letter(*first) {
        return word_token(alloc, bytes);
    }
    let digits = digits_of(bytes);
    if !digits.is_empty() {
        return Ok(number_token(false, digits, digits.len()));
    }
    if *first == b'-' {
        let digits = digits_of(rest);
        if !digits.is_empty() {
            return Ok(number_token(true, digits, 1 + digits.len()));
        }
    }
    if *first == b'\'' {
        return text_token(alloc, rest);
    }
    if *first == b'@' {
        return key_token(alloc, rest);
    }
    Ok(sign_token(*first, rest))
}

/// The tokens of a line of fewer than 2^32 - 1 bytes.
pub fn scan(alloc: Global, line: &[u8]) -> Result<Row, AllocError>
    requires { length line.now + 1 < 2 ^ 32 }
    ensures { IfOk result (λ row. IsRow line.now row.tokens.items row.ending) }
{
    let mut tokens = Vec::new(alloc);
    let mut rest = behind_blanks(line);
    while !rest.is_empty() {
        let column = (line.len() - rest.len() + 1) as u32;
        let Some((token, len)) = front_token(alloc, rest)? else {
            return Ok(Row {
                tokens,
                ending: Ending::Stuck(column),
            });
        };
        tokens.push(Placed { token, column })?;
        rest = behind_blanks(&rest[len..]);
    }
    Ok(Row {
        tokens,
        ending: Ending::Whole((line.len() + 1) as u32),
    })
}

/// A line has one row of tokens.
pub fn has_one_row()
    ensures { (line : List ℕ) → HasOneRow line }
{}
