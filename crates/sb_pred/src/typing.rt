//! Which predicates are well typed over a schema.

ghost use Rattle.std.specs.Prelude.{◌≡◌};
ghost use Rattle.sb_pred.specs.Columns.{place_of, column_kind};
ghost use Rattle.sb_pred.specs.Typing.{is_well_typed, term_kind};

use crate::predicate::{Node, Pred, Term};
use sb_value::{Kind, Schema, Str};

/// Where the first column of this name stands.
pub fn find_column(schema: &Schema, name: &Str) -> Option<usize>
    ensures { result ≡ place_of schema.now name.now }
{
    schema
        .as_slice()
        .iter()
        .position(|column| column.name == *name)
}

/// The kind of the first column of this name; `None` where there is none.
pub fn kind_of_column(schema: &Schema, name: &Str) -> Option<Kind>
    ensures { result ≡ column_kind schema.now name.now }
{
    let column = schema.as_slice().get(find_column(schema, name)?)?;
    Some(column.kind)
}

/// The term's kind over the schema; `None` where its column isn't there, or its row isn't allowed. `old` and `new` say
/// which rows are.
pub fn kind_of_term(term: &Term, schema: &Schema, old: bool, new: bool) -> Option<Kind>
    ensures { result ≡ term_kind schema.now old new term.now }
{
    match term {
        Term::Const(value) => Some(value.kind()),
        Term::New(name) if new => kind_of_column(schema, name),
        Term::Old(name) if old => kind_of_column(schema, name),
        Term::New(_) | Term::Old(_) => None,
    }
}

/// Whether the schema has each column that the predicate names, the old row and the new one are named only where they
/// are allowed, and no comparison has sides of two kinds.
pub fn well_typed(pred: &Pred, schema: &Schema, old: bool, new: bool) -> bool
    ensures { result ≡ is_well_typed schema.now old new pred.now }
{
    match &pred.node {
        Node::Always => true,
        Node::Cmp(_, left, right) => {
            match (
                kind_of_term(left, schema, old, new),
                kind_of_term(right, schema, old, new),
            ) {
                (Some(left), Some(right)) => left == right,
                _ => false,
            }
        }
        Node::And(left, right) | Node::Or(left, right) => {
            well_typed(left, schema, old, new) && well_typed(right, schema, old, new)
        }
        Node::Not(inner) => well_typed(inner, schema, old, new),
    }
}
