//! Lists of values, names, columns and terms.

ghost use Rattle.std.specs.Prelude.{◌≡◌, ◌++◌, ℕ, List, OnOk, OnErr, codes, map};
ghost use Rattle.std.specs.Fmt.{signed_decimal};
ghost use Rattle.std.specs.List.{flat_map};
ghost use Rattle.sb_pred.specs.Bytes.{Extends};
ghost use Rattle.sb_plain.specs.Values.{value_text, joined};
ghost use Rattle.sb_plain.specs.Printing.{column_text, full_term, limit_text, pair_text};

use crate::pieces::{append_numbered, append_value};
use crate::predicates::append_full_term;
use sb_pred::Term;
use sb_value::{Bytes, Column, Kind, Str, Value};
use std::alloc::AllocError;

/// What may stand in a list.
pub trait Print {
    ghost text: { Self → List ℕ };

    /// Adds the text. Where memory runs out a part of it may be left.
    fn append(&self, out: &mut Bytes) -> Result<(), AllocError>
        ensures ok { OnOk result (out.new ≡ out.old ++ text self.now) }
        ensures err { OnErr result (Extends out.old out.new) };
}

impl Print for Value {
    ghost text = { value_text };

    fn append(&self, out: &mut Bytes) -> Result<(), AllocError> {
        append_value(self, out)
    }
}

impl Print for Str {
    ghost text = { λ name. name };

    fn append(&self, out: &mut Bytes) -> Result<(), AllocError> {
        out.extend(self.as_bytes())
    }
}

impl Print for i128 {
    ghost text = { signed_decimal };

    fn append(&self, out: &mut Bytes) -> Result<(), AllocError> {
        let mut digits = itoa::Buffer::new();
        out.extend(digits.format(*self).as_bytes())
    }
}

/// The limit of a text column, where it isn't the greatest.
fn append_limit(limit: u8, out: &mut Bytes) -> Result<(), AllocError>
    ensures ok { OnOk result (out.new ≡ out.old ++ limit_text limit) }
    ensures err { OnErr result (Extends out.old out.new) }
{
    if limit == 255 {
        return Ok(());
    }
    append_numbered(b"(", u64::from(limit), out)?;
    out.push(b')')
}

impl Print for Column {
    ghost text = { column_text };

    fn append(&self, out: &mut Bytes) -> Result<(), AllocError> {
        out.extend(self.name.as_bytes())?;
        match self.kind {
            Kind::Int => out.extend(b" int"),
            Kind::Text => {
                out.extend(b" text")?;
                append_limit(self.limit, out)
            }
        }
    }
}

impl Print for Term {
    ghost text = { full_term };

    fn append(&self, out: &mut Bytes) -> Result<(), AllocError> {
        append_full_term(self, out)
    }
}

impl Print for (Str, Term) {
    ghost text = { pair_text };

    fn append(&self, out: &mut Bytes) -> Result<(), AllocError> {
        out.extend(self.0.as_bytes())?;
        out.extend(b" = ")?;
        append_full_term(&self.1, out)
    }
}

/// Items, each behind a text.
fn append_more<T: Print>(between: &[u8], items: &[T], out: &mut Bytes) -> Result<(), AllocError>
    ensures ok { OnOk result (out.new ≡ out.old ++ flat_map (λ item. between.now ++ T.text item) items.now) }
    ensures err { OnErr result (Extends out.old out.new) }
{
    for item in items {
        out.extend(between)?;
        item.append(out)?;
    }
    Ok(())
}

/// Items with a text between each two.
pub fn append_joined<T: Print>(
    between: &[u8],
    items: &[T],
    out: &mut Bytes,
) -> Result<(), AllocError>
    ensures ok { OnOk result (out.new ≡ out.old ++ joined between.now (map T.text items.now)) }
    ensures err { OnErr result (Extends out.old out.new) }
{
    let Some((first, others)) = items.split_first() else {
        return Ok(());
    };
    first.append(out)?;
    append_more(between, others, out)
}

/// A text that ends with an opening bracket, and a list behind it.
pub fn append_listed<T: Print>(
    before: &[u8],
    items: &[T],
    out: &mut Bytes,
) -> Result<(), AllocError>
    ensures ok { OnOk result (out.new ≡ out.old ++ (before.now ++ (joined (codes ", ") (map T.text items.now) ++ codes ")"))) }
    ensures err { OnErr result (Extends out.old out.new) }
{
    out.extend(before)?;
    append_joined(b", ", items, out)?;
    out.push(b')')
}
