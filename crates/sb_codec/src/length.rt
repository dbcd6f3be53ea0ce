//! How long spellings and codes are.

ghost use Rattle.std.specs.Prelude.{◌≡◌, ◌+◌, ◌^◌, ◌<◌, ◌≤◌, ◌==◌, length, count_by, All};
ghost use Rattle.std.specs.List.{flat_map};
ghost use Rattle.sb_value.specs.Spelling.{value_spelling, IsShort};
ghost use Rattle.sb_value.specs.Code.{escaped, value_code, ordered_code};
ghost use Rattle.sb_codec.specs.Tuples.{tuple_spelling};

use sb_value::{Tuple, Value};

fn value_len(value: &Value) -> u32
    requires { IsShort value.now }
    ensures { result ≡ length (value_spelling value.now) }
{
    match value {
        Value::Int(_) => 9,
        Value::Text(text) => 2 + text.as_bytes().len() as u32,
    }
}

/// The length of the tuple's spelling.
pub fn tuple_len(t: &Tuple) -> u32
    requires short { All IsShort t.now }
    requires fits { length (tuple_spelling t.now) < 2 ^ 32 }
    ensures { result ≡ length (tuple_spelling t.now) }
{
    let mut len = 1;
    for value in t.as_slice() {
        len += value_len(value);
    }
    len
}

fn zeros(bytes: &[u8]) -> usize
    ensures { result ≡ count_by (λ b. b == 0) bytes.now }
{
    bytes.iter().filter(|b| **b == 0).count()
}

fn escaped_len(bytes: &[u8]) -> u32
    requires { length (flat_map escaped bytes.now) < 2 ^ 32 }
    ensures { result ≡ length (flat_map escaped bytes.now) }
{
    (bytes.len() + zeros(bytes)) as u32
}

fn code_len(value: &Value) -> u32
    requires { length (value_code value.now) < 2 ^ 32 }
    ensures { result ≡ length (value_code value.now) }
{
    match value {
        Value::Int(_) => 8,
        Value::Text(text) => escaped_len(text.as_bytes()) + 2,
    }
}

/// The length of the ordered code.
pub fn key_len(values: &Tuple) -> u32
    requires { length (ordered_code values.now) < 2 ^ 32 }
    ensures { result ≡ length (ordered_code values.now) }
{
    let mut len = 0;
    for value in values.as_slice() {
        len += code_len(value);
    }
    len
}
