//! Names, numbers, record keys and values. Each function adds a text; where memory runs out a part of it may be left.

ghost use Rattle.std.specs.Prelude.{◌≡◌, ◌++◌, cond, [], OnOk, OnErr};
ghost use Rattle.std.specs.Fmt.{decimal, signed_decimal};
ghost use Rattle.std.specs.List.{flat_map};
ghost use Rattle.hex.specs.Hex.{encode_lower};
ghost use Rattle.sb_pred.specs.Bytes.{Extends};
ghost use Rattle.sb_plain.specs.Values.{key_text, doubled, value_text};
ghost use Rattle.sb_plain.specs.Printing.{on_text};

use sb_value::{Bytes, Str, Value};
use std::alloc::AllocError;

fn append_hex(bytes: &[u8], out: &mut Bytes) -> Result<(), AllocError>
    ensures ok { OnOk result (out.new ≡ out.old ++ encode_lower bytes.now) }
    ensures err { OnErr result (Extends out.old out.new) }
{
    for byte in bytes {
        let mut digits = [0; 2];
        hex::encode_to_slice([*byte], &mut digits).unwrap();
        out.extend(&digits)?;
    }
    Ok(())
}

/// A record key, or other bytes that are written as one.
pub fn append_key(key: &[u8], out: &mut Bytes) -> Result<(), AllocError>
    ensures ok { OnOk result (out.new ≡ out.old ++ key_text key.now) }
    ensures err { OnErr result (Extends out.old out.new) }
{
    out.push(b'@')?;
    append_hex(key, out)
}

/// A word, and a name behind it.
pub fn append_named(word: &[u8], name: &Str, out: &mut Bytes) -> Result<(), AllocError>
    ensures ok { OnOk result (out.new ≡ out.old ++ (word.now ++ name.now)) }
    ensures err { OnErr result (Extends out.old out.new) }
{
    out.extend(word)?;
    out.extend(name.as_bytes())
}

/// A word, and the name of an attachment and its relation behind it.
pub fn append_place(
    word: &[u8],
    relation: &Str,
    name: &Str,
    out: &mut Bytes,
) -> Result<(), AllocError>
    ensures ok { OnOk result (out.new ≡ out.old ++ (word.now ++ on_text name.now relation.now)) }
    ensures err { OnErr result (Extends out.old out.new) }
{
    append_named(word, name, out)?;
    append_named(b" on ", relation, out)
}

/// A word, and a record key behind it.
pub fn append_keyed(word: &[u8], key: &[u8], out: &mut Bytes) -> Result<(), AllocError>
    ensures ok { OnOk result (out.new ≡ out.old ++ (word.now ++ key_text key.now)) }
    ensures err { OnErr result (Extends out.old out.new) }
{
    out.extend(word)?;
    append_key(key, out)
}

/// A word, and a number behind it.
pub fn append_numbered(word: &[u8], number: u64, out: &mut Bytes) -> Result<(), AllocError>
    ensures ok { OnOk result (out.new ≡ out.old ++ (word.now ++ decimal number)) }
    ensures err { OnErr result (Extends out.old out.new) }
{
    let mut digits = itoa::Buffer::new();
    out.extend(word)?;
    out.extend(digits.format(number).as_bytes())
}

/// A word, and a number with its sign behind it.
pub fn append_int(word: &[u8], number: i64, out: &mut Bytes) -> Result<(), AllocError>
    ensures ok { OnOk result (out.new ≡ out.old ++ (word.now ++ signed_decimal number)) }
    ensures err { OnErr result (Extends out.old out.new) }
{
    let mut digits = itoa::Buffer::new();
    out.extend(word)?;
    out.extend(digits.format(number).as_bytes())
}

/// A word, where it is wanted.
pub fn append_if(wanted: bool, word: &[u8], out: &mut Bytes) -> Result<(), AllocError>
    ensures ok { OnOk result (out.new ≡ out.old ++ cond wanted word.now []) }
    ensures err { OnErr result (Extends out.old out.new) }
{
    if wanted {
        out.extend(word)?;
    }
    Ok(())
}

/// A text with each quote doubled.
fn append_doubled(text: &[u8], out: &mut Bytes) -> Result<(), AllocError>
    ensures ok { OnOk result (out.new ≡ out.old ++ flat_map doubled text.now) }
    ensures err { OnErr result (Extends out.old out.new) }
{
    for byte in text {
        if *byte == b'\'' {
            out.push(b'\'')?;
        }
        out.push(*byte)?;
    }
    Ok(())
}

/// A number, or a text between quotes.
pub fn append_value(value: &Value, out: &mut Bytes) -> Result<(), AllocError>
    ensures ok { OnOk result (out.new ≡ out.old ++ value_text value.now) }
    ensures err { OnErr result (Extends out.old out.new) }
{
    match value {
        Value::Int(number) => append_int(b"", *number, out),
        Value::Text(text) => {
            out.push(b'\'')?;
            append_doubled(text.as_bytes(), out)?;
            out.push(b'\'')
        }
    }
}
