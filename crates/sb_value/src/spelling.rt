//! The bytes in which a value is stored.

ghost use Rattle.std.specs.Prelude.{◌≡◌, ◌+◌, ◌-◌, ◌<◌, ◌≤◌, ◌∷◌, ◌++◌, ℕ, List, Some, length, take, drop, IfOk, IfSome, OnOk, OnErr, MatchOption, FitsSigned, IsUtf8};
ghost use Rattle.std.specs.Int.{to_be_bytes, cast_unsigned, w64};
ghost use Rattle.sb_value.specs.Spelling.{value_spelling, IsShort, IsStorable};
ghost use Rattle.sb_value.specs.declared.value.Value.{Value as Cell};

use crate::{Bytes, Str, Value};
use std::alloc::{AllocError, Global};

const INT: u8 = 1;

const TEXT: u8 = 2;

/// Adds the value's bytes; where memory runs out, some of them may be there.
fn append(value: &Value, out: &mut Bytes) -> Result<(), AllocError>
    requires { IsShort value.now }

    ensures ok { OnOk result (out.new ≡ out.old ++ value_spelling value.now) }
    ensures err { OnErr result (take (length out.old) out.new ≡ out.old) }
    ensures storable { IsStorable value.now }
{
    match value {
        Value::Int(number) => {
            let bytes = number.to_be_bytes();
            out.push(INT)?;
            out.extend(&bytes)
        }
        Value::Text(text) => {
            let bytes = text.as_str().as_bytes();
            out.push(TEXT)?;
            out.push(bytes.len() as u8)?;
            out.extend(bytes)
        }
    }
}

/// Adds the value's bytes. Where memory runs out all stays as it was.
pub fn put_value(value: &Value, out: &mut Bytes) -> Result<(), AllocError>
    requires { IsShort value.now }

    ensures ok { OnOk result (out.new ≡ out.old ++ value_spelling value.now) }
    ensures err { OnErr result (out.new ≡ out.old) }

    // What is written can be read again.
    ensures storable { IsStorable value.now }
{
    let len = out.len();
    let written = append(value, out);
    if written.is_err() {
        out.truncate(len);
    }
    written
}

/// The number in the first 8 bytes, where there are as many.
pub fn int_of(bytes: &[u8]) -> Option<i64>
    ensures { MatchOption result (length bytes.now < 8) (λ n. FitsSigned w64 n × (take 8 bytes.now ≡ to_be_bytes w64 (cast_unsigned w64 n))) }
{
    match bytes {
        [a, b, c, d, e, f, g, h, ..] => {
            Some(i64::from_be_bytes([*a, *b, *c, *d, *e, *f, *g, *h]))
        }
        _ => None,
    }
}

/// The text behind its length.
fn text_of(alloc: Global, bytes: &[u8]) -> Result<Option<Str>, AllocError>
    ensures found { IfOk result (λ r. IfSome r (λ s. IsStorable (Cell.Text s) × (bytes.now ≡ length s ∷ s ++ drop (length s + 1) bytes.now))) }
    ensures only { (s rest : List ℕ) → IsUtf8 s → bytes.now ≡ length s ∷ s ++ rest → IfOk result (λ r. r ≡ Some s) }
{
    let Some((len, text)) = bytes.split_first() else {
        return Ok(None);
    };
    let len = usize::from(*len);
    if text.len() < len {
        return Ok(None);
    }
    Str::from_utf8(alloc, &text[..len])
}

/// The value whose bytes stand at a place, and the place behind them.
pub fn take_value(
    alloc: Global,
    bytes: &[u8],
    at: usize,
) -> Result<Option<(Value, usize)>, AllocError>
    requires { at ≤ length bytes.now }

    // What is found stands there.
    ensures found { IfOk result (λ r. IfSome r (λ p. IsStorable p.0 × (drop at bytes.now ≡ value_spelling p.0 ++ drop p.1 bytes.now))) }
    ensures behind { IfOk result (λ r. IfSome r (λ p. (p.1 ≡ at + length (value_spelling p.0)) × (p.1 ≤ length bytes.now))) }

    // What stands there is found, whatever follows it.
    ensures only { (v : Cell) (rest : List ℕ) → IsStorable v → drop at bytes.now ≡ value_spelling v ++ rest → IfOk result (λ r. r ≡ Some (v, at + length (value_spelling v))) }
{
    let Some((tag, body)) = bytes[at..].split_first() else {
        return Ok(None);
    };
    match *tag {
        INT => match int_of(body) {
            Some(number) => Ok(Some((Value::Int(number), at + 9))),
            None => Ok(None),
        },
        TEXT => match text_of(alloc, body)? {
            Some(text) => {
                let next = at + 2 + text.len();
                Ok(Some((Value::Text(text), next)))
            }
            None => Ok(None),
        },
        _ => Ok(None),
    }
}
