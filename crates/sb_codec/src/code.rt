//! The ordered code of one value.

ghost use Rattle.std.specs.Prelude.{◌≡◌, ◌≢◌, ◌^◌, ◌<◌, ℕ, List, [], ◌∷◌, ◌++◌, length, Some, IfOk, OnOk, IsSome, IfSome, IfNone, IsUtf8, ◌↔◌};
ghost use Rattle.std.specs.Int.{to_be_bytes, w64};
ghost use Rattle.std.specs.List.{flat_map};
ghost use Rattle.sb_value.specs.declared.value.Value.{Value as Cell};
ghost use Rattle.sb_value.specs.Code.{escaped, flipped, value_code};
ghost use Rattle.sb_value.specs.Fits.{kind_of};
ghost use Rattle.sb_codec.specs.Kinds.{IsProper};

use sb_bytes::get_u64;
use sb_value::{Kind, Str, Value};
use std::alloc::{AllocError, Global};

const TOP_BIT: u64 = 1 << 63;

/// The number in the first 8 bytes, and the bytes behind it.
fn take_number(bytes: &[u8]) -> Option<(u64, &[u8])>
    ensures found { IfSome result (λ p. (p.0 < 2 ^ 64) × (bytes.now ≡ to_be_bytes w64 p.0 ++ p.1.now)) }
    ensures none { IfNone result (length bytes.now < 8) }
{
    if bytes.len() < 8 {
        return None;
    }
    Some((get_u64(bytes, 0), &bytes[8..]))
}

fn flip(number: i64) -> u64
    ensures { result ≡ flipped number }
{
    number.cast_unsigned().wrapping_add(TOP_BIT)
}

fn unflip(number: u64) -> i64
    ensures { flipped result ≡ number }
{
    number.wrapping_add(TOP_BIT).cast_signed()
}

fn put_text(out: &mut Vec<u8>, bytes: &[u8]) -> Result<(), AllocError>
    ensures { OnOk result (out.new.items ≡ out.old.items ++ (flat_map escaped bytes.now ++ 0 ∷ 0 ∷ [])) }
{
    for byte in bytes {
        out.push(*byte)?;
        if *byte == 0 {
            out.push(255)?;
        }
    }
    out.extend_from_slice(&[0, 0])
}

/// Adds the code of a value.
pub(crate) fn put_code(out: &mut Vec<u8>, value: &Value) -> Result<(), AllocError>
    ensures code { OnOk result (out.new.items ≡ out.old.items ++ value_code value.now) }
    ensures proper { IsProper value.now }
{
    match value {
        Value::Int(number) => out.extend_from_slice(&flip(*number).to_be_bytes()),
        Value::Text(text) => put_text(out, text.as_str().as_bytes()),
    }
}

/// The text whose code stands at the front, and the bytes behind its end.
fn take_text(alloc: Global, bytes: &[u8]) -> Result<Option<(Vec<u8>, &[u8])>, AllocError>
    ensures found { IfOk result (λ r. IfSome r (λ p.
        bytes.now ≡ flat_map escaped p.0.items ++ 0 ∷ 0 ∷ p.1.now)) }
    ensures none { IfOk result (λ r. IfNone r (
        (s rest : List ℕ) → bytes.now ≢ flat_map escaped s ++ 0 ∷ 0 ∷ rest)) }
{
    let mut text = Vec::new(alloc);
    let mut rest = bytes;
    loop {
        match rest {
            [0, 0, after @ ..] => return Ok(Some((text, after))),
            [0, 255, after @ ..] => {
                text.push(0)?;
                rest = after;
            }
            [] => return Ok(None),
            [0, ..] => return Ok(None),
            [byte, after @ ..] => {
                text.push(*byte)?;
                rest = after;
            }
        }
    }
}

/// The text of these bytes, where they are UTF-8.
fn text_of(bytes: Vec<u8>) -> Option<Str>
    ensures found { IsSome result ↔ IsUtf8 bytes.items }
    ensures same { IfSome result (λ text. text ≡ bytes.items) }
{
    match String::from_utf8(bytes) {
        Ok(text) => Some(Str::from_string(text)),
        Err(_) => None,
    }
}

/// The value of this kind whose code stands at the front, and the bytes behind it.
pub(crate) fn take_code(
    alloc: Global,
    kind: Kind,
    bytes: &[u8],
) -> Result<Option<(Value, &[u8])>, AllocError>
    ensures found { IfOk result (λ r. IfSome r (λ p.
        (kind_of p.0 ≡ kind) × IsProper p.0 × (bytes.now ≡ value_code p.0 ++ p.1.now))) }
    ensures none { IfOk result (λ r. IfNone r ((v : Cell) (rest : List ℕ) → kind_of v ≡ kind → IsProper v
        → bytes.now ≢ value_code v ++ rest)) }
{
    match kind {
        Kind::Int => match take_number(bytes) {
            Some((number, after)) => Ok(Some((Value::Int(unflip(number)), after))),
            None => Ok(None),
        },
        Kind::Text => {
            let Some((text, after)) = take_text(alloc, bytes)? else {
                return Ok(None);
            };
            match text_of(text) {
                Some(text) => Ok(Some((Value::Text(text), after))),
                None => Ok(None),
            }
        }
    }
}
