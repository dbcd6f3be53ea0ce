//! What commands and triggers do with the rows that match.

ghost use Rattle.std.specs.Prelude.{◌≡◌, ◌++◌, codes, OnOk, OnErr};
ghost use Rattle.sb_pred.specs.Bytes.{Extends};
ghost use Rattle.sb_plain.specs.Printing.{where_text, action_text};

use crate::lists::{append_joined, append_listed};
use crate::pieces::append_named;
use crate::predicates::append_full_term;
use sb_rule::{Action, Pairs};
use sb_value::{Bytes, Str};
use std::alloc::AllocError;

fn append_where(pairs: &Pairs, out: &mut Bytes) -> Result<(), AllocError>
    ensures ok { OnOk result (out.new ≡ out.old ++ where_text pairs.now) }
    ensures err { OnErr result (Extends out.old out.new) }
{
    let pairs = pairs.as_slice();
    if pairs.is_empty() {
        return Ok(());
    }
    out.extend(b" where ")?;
    append_joined(b" and ", pairs, out)
}

/// A word, and the names of a relation and of its column behind it.
fn append_column(
    word: &[u8],
    relation: &Str,
    column: &Str,
    out: &mut Bytes,
) -> Result<(), AllocError>
    ensures ok { OnOk result (out.new ≡ out.old ++ (word.now ++ (relation.now ++ (codes " " ++ column.now)))) }
    ensures err { OnErr result (Extends out.old out.new) }
{
    append_named(word, relation, out)?;
    append_named(b" ", column, out)
}

/// An action, whose columns are written with the rows to which they belong.
pub fn append_action(action: &Action, out: &mut Bytes) -> Result<(), AllocError>
    ensures ok { OnOk result (out.new ≡ out.old ++ action_text action.now) }
    ensures err { OnErr result (Extends out.old out.new) }
{
    match action {
        Action::Insert { relation, terms } => {
            append_named(b"insert ", relation, out)?;
            append_listed(b" values (", terms.as_slice(), out)
        }
        Action::Delete { relation, pairs } => {
            append_named(b"delete ", relation, out)?;
            append_where(pairs, out)
        }
        Action::Set {
            relation,
            column,
            term,
            pairs,
        } => {
            append_column(b"set ", relation, column, out)?;
            out.extend(b" = ")?;
            append_full_term(term, out)?;
            append_where(pairs, out)
        }
        Action::Add {
            relation,
            column,
            term,
            pairs,
        } => {
            append_column(b"add ", relation, column, out)?;
            out.extend(b" by ")?;
            append_full_term(term, out)?;
            append_where(pairs, out)
        }
    }
}
