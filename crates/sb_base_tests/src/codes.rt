ghost use Rattle.std.specs.Prelude.{◌≡◌, ◌≤◌, [], ◌∷◌, length, All, IfOk};
ghost use Rattle.sb_value.specs.Spelling.{IsShort};

use sb_codec::{
    decode_tuple, encode_tuple, keeps_order, key_len, one_list, one_tuple, ordered_key, tuple_len,
    unordered_key,
};
use sb_value::{Kind, Str, Tuple, Value};
use std::alloc::{AllocError, Global};

fn pair(alloc: Global, number: i64, text: &str) -> Result<Tuple, AllocError>
    requires { length text.now ≤ 255 }
    ensures exact { IfOk result (λ t. t ≡ Value.Int number ∷ Value.Text text.now ∷ []) }
    ensures short { IfOk result (λ t. All IsShort t) }
{
    let text = Value::Text(Str::from_string(String::from_str(alloc, text)?));
    Ok(Tuple::from_vec(vec![in alloc; Value::Int(number), text]?))
}

/// Whether the tuple is written so, and such bytes are read as it.
fn is_spelled(alloc: Global, tuple: &Tuple, spelling: &[u8]) -> bool
    requires few { length tuple.now ≤ 255 }
    requires short { All IsShort tuple.now }
{
    let written = matches!(&encode_tuple(alloc, tuple), Ok(bytes) if bytes.as_slice() == spelling);
    let read = matches!(&decode_tuple(alloc, spelling), Ok(Some(found)) if *found == *tuple);
    written && read
}

/// Whether the pair has this code, and the code is read as it.
fn is_coded(alloc: Global, pair: &Tuple, code: &[u8]) -> bool {
    let kinds = [Kind::Int, Kind::Text];
    let written = matches!(&ordered_key(alloc, pair), Ok(key) if key.as_slice() == code);
    let read = matches!(&unordered_key(alloc, &kinds, code), Ok(Some(found)) if *found == *pair);
    written && read
}

/// Whether the pair has this spelling and this code.
fn is_row(alloc: Global, number: i64, text: &str, spelling: &[u8], code: &[u8]) -> bool
    requires { length text.now ≤ 255 }
{
    match &pair(alloc, number, text) {
        Ok(pair) => is_spelled(alloc, pair, spelling) && is_coded(alloc, pair, code),
        Err(_) => false,
    }
}

/// The numbers and texts of pairs, their spellings and their codes.
const PAIRS: [(i64, &'static str, &'static [u8], &'static [u8]); 3] = [
    (
        5,
        "ab",
        b"\x02\x01\0\0\0\0\0\0\0\x05\x02\x02ab",
        b"\x80\0\0\0\0\0\0\x05ab\0\0",
    ),
    (
        5,
        "b",
        b"\x02\x01\0\0\0\0\0\0\0\x05\x02\x01b",
        b"\x80\0\0\0\0\0\0\x05b\0\0",
    ),
    (
        -2,
        "a\0",
        b"\x02\x01\xff\xff\xff\xff\xff\xff\xff\xfe\x02\x02a\0",
        b"\x7f\xff\xff\xff\xff\xff\xff\xfea\0\xff\0\0",
    ),
];

#[test]
fn rows(rt: HostRuntime) {
    for (number, text, spelling, code) in PAIRS.iter() {
        assert!(rt; text.len() <= 255);
        assert!(rt; is_row(rt.alloc(), *number, text, spelling, code));
    }
}

/// The lengths of the spelling and of the code of `5, "ab"`.
fn lengths_of_pair(alloc: Global) -> Option<(u32, u32)> {
    match &pair(alloc, 5, "ab") {
        Ok(pair) => Some((tuple_len(pair), key_len(pair))),
        Err(_) => None,
    }
}

#[test]
fn lengths(rt: HostRuntime) {
    assert!(rt; matches!(lengths_of_pair(rt.alloc()), Some((14, 12))));
}

const NO_TUPLES: [&'static [u8]; 4] = [
    b"\x02\x01\0\0\0\0\0\0\0\x05\x02\x02ab\0",
    b"\x00",
    b"\x01\x02\x01\xff",
    b"",
];

/// Whether this is the code of the text `a` alone.
fn is_code_of_a(alloc: Global, bytes: &[u8]) -> bool {
    match &unordered_key(alloc, &[Kind::Text], bytes) {
        Ok(Some(read)) => { matches!(read.as_slice(), [Value::Text(text)] if text.as_str() == "a") }
        _ => false,
    }
}

#[test]
fn no_tuples_and_no_codes(rt: HostRuntime) {
    let alloc = rt.alloc();
    for bytes in NO_TUPLES.iter() {
        assert!(rt; matches!(decode_tuple(alloc, bytes), Ok(None)));
    }
    assert!(rt; is_code_of_a(alloc, b"a\0\0"));
    assert!(rt;
        matches!(
            unordered_key(alloc, &[Kind::Text], b"a\0\x01\0\0"),
            Ok(None)
        )
    );
    keeps_order();
    one_list();
    one_tuple();
}
