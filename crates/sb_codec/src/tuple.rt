//! Tuples in stored bytes.

ghost use Rattle.std.specs.Prelude.{◌≡◌, ◌≤◌, List, length, All, Some, IfOk, IfSome};
ghost use Rattle.std.specs.List.{flat_map};
ghost use Rattle.sb_value.specs.declared.value.Value.{Value as Cell};
ghost use Rattle.sb_value.specs.Spelling.{value_spelling, IsShort, IsStorable};
ghost use Rattle.sb_codec.specs.Tuples.{tuple_spelling, IsTuple};

use sb_value::{Bytes, Tuple, put_value, take_value};
use std::alloc::{AllocError, Global};

const MAX_VALUES: u8 = 16;

/// The spelling of a tuple.
pub fn encode_tuple(alloc: Global, t: &Tuple) -> Result<Bytes, AllocError>
    requires few { length t.now ≤ 255 }
    requires short { All IsShort t.now }
    ensures spelled { IfOk result (λ bytes. bytes ≡ tuple_spelling t.now) }
    // What is written can be read again, where it has 1 to 16 values.
    ensures storable { IfOk result (λ bytes. All IsStorable t.now) }
{
    let values = t.as_slice();
    let mut out = Bytes::new(alloc);
    out.push(values.len() as u8)?;
    for value in values {
        put_value(value, &mut out)?;
    }
    Ok(out)
}

/// The tuple of `count` values whose spelling the bytes are.
fn take_values(alloc: Global, count: u8, bytes: &[u8]) -> Result<Option<Tuple>, AllocError>
    ensures found { IfOk result (λ r. IfSome r (λ t. (length t ≡ count) × All IsStorable t
        × (bytes.now ≡ flat_map value_spelling t))) }
    ensures only { IfOk result (λ r. (t : List Cell) → length t ≡ count → All IsStorable t
        → bytes.now ≡ flat_map value_spelling t → r ≡ Some t) }
{
    let mut values = Vec::new(alloc);
    let mut at = 0;
    for _ in 0..count {
        let Some((value, next)) = take_value(alloc, bytes, at)? else {
            return Ok(None);
        };
        values.push(value)?;
        at = next;
    }
    if at == bytes.len() {
        Ok(Some(Tuple::from_vec(values)))
    } else {
        Ok(None)
    }
}

/// The tuple whose spelling the bytes are; `None` exactly where there is none.
pub fn decode_tuple(alloc: Global, b: &[u8]) -> Result<Option<Tuple>, AllocError>
    // What is read is a tuple, spelled so.
    ensures found { IfOk result (λ r. IfSome r (λ t. IsTuple t × (b.now ≡ tuple_spelling t))) }
    // What is spelled so is read.
    ensures only { IfOk result (λ r. (t : List Cell) → IsTuple t → b.now ≡ tuple_spelling t → r ≡ Some t) }
{
    match b {
        [count, rest @ ..] if *count >= 1 && *count <= MAX_VALUES => {
            take_values(alloc, *count, rest)
        }
        _ => Ok(None),
    }
}
