//! Keys whose bytes are in the order of their values.

ghost use Rattle.std.specs.Prelude.{◌≡◌, List, All, Some, IfOk, IfSome};
ghost use Rattle.sb_value.specs.declared.value.Value.{Value as Cell};
ghost use Rattle.sb_value.specs.Code.{ordered_code};
ghost use Rattle.sb_codec.specs.Kinds.{AreOfKinds, IsProper};

use crate::code::{put_code, take_code};
use sb_value::{Kind, RecKey, Tuple};
use std::alloc::{AllocError, Global};

/// The ordered code of the values.
pub fn ordered_key(alloc: Global, values: &Tuple) -> Result<RecKey, AllocError>
    ensures code { IfOk result (λ key. key ≡ ordered_code values.now) }
    // What has this code can be read again by its kinds.
    ensures proper { IfOk result (λ key. All IsProper values.now) }
{
    let mut out = Vec::new(alloc);
    for value in values.as_slice() {
        put_code(&mut out, value)?;
    }
    Ok(RecKey::from_vec(out))
}

/// The values of these kinds that have this code; `None` exactly where there are none.
pub fn unordered_key(alloc: Global, kinds: &[Kind], b: &[u8]) -> Result<Option<Tuple>, AllocError>
    // What is read has these kinds and this code.
    ensures found { IfOk result (λ r. IfSome r (λ values. AreOfKinds kinds.now values
        × All IsProper values × (b.now ≡ ordered_code values))) }
    // What has these kinds and this code is read.
    ensures only { IfOk result (λ r. (values : List Cell) → AreOfKinds kinds.now values
        → All IsProper values → b.now ≡ ordered_code values → r ≡ Some values) }
{
    let mut values = Vec::new(alloc);
    let mut rest = b;
    for kind in kinds {
        let Some((value, after)) = take_code(alloc, *kind, rest)? else {
            return Ok(None);
        };
        values.push(value)?;
        rest = after;
    }
    if rest.is_empty() {
        Ok(Some(Tuple::from_vec(values)))
    } else {
        Ok(None)
    }
}
