//! When a predicate holds.

ghost use Rattle.std.specs.Prelude.{◌≡◌, List, Option, Some, IfSome, IsTrue, is_some};
ghost use Rattle.std.specs.Option.{option_copied};
ghost use Rattle.sb_pred.specs.Columns.{column_value};
ghost use Rattle.sb_pred.specs.Truth.{op_holds, term_value, truth, HaveOneKind};
ghost use Rattle.sb_pred.specs.Tree.{Compare};
ghost use Rattle.sb_pred.specs.Typing.{is_well_typed};
ghost use Rattle.sb_pred.specs.declared.predicate.Op.{Op as Sign};
ghost use Rattle.sb_pred.specs.declared.predicate.Term.{Term as Side};
ghost use Rattle.sb_value.specs.Fits.{Fits};
ghost use Rattle.sb_value.specs.declared.schema.Column.{Column};
ghost use Rattle.sb_value.specs.declared.value.Value.{Value as Cell};
ghost use Rattle.sb_value.specs.Order.{value_cmp};

use crate::predicate::{Node, Op, Pred, Term};
use crate::typing::find_column;
use sb_value::{Schema, Str, Tuple, Value};
use std::cmp::Ordering;

fn compare(left: &Value, right: &Value) -> Ordering
    ensures { result ≡ value_cmp left.now right.now }
{
    match (left, right) {
        (Value::Int(left), Value::Int(right)) => left.cmp(right),
        (Value::Int(_), Value::Text(_)) => Ordering::Less,
        (Value::Text(_), Value::Int(_)) => Ordering::Greater,
        (Value::Text(left), Value::Text(right)) => left.cmp(right),
    }
}

fn holds(op: Op, order: Ordering) -> bool
    ensures { result ≡ op_holds op order }
{
    match op {
        Op::Eq => order.is_eq(),
        Op::Ne => order.is_ne(),
        Op::Lt => order.is_lt(),
        Op::Le => order.is_le(),
        Op::Gt => order.is_gt(),
        Op::Ge => order.is_ge(),
    }
}

/// What the row has in the first column of this name; `None` where there is no row or no such column.
pub fn value_in<'a>(row: Option<&'a Tuple>, schema: &Schema, name: &Str) -> Option<&'a Value>
    ensures { option_copied result ≡ column_value schema.now (option_copied row.entry) name.now }
{
    row?.as_slice().get(find_column(schema, name)?)
}

/// What a row has in the first column of this name; `None` where there is no such column.
pub fn column_value<'a>(schema: &Schema, row: &'a Tuple, name: &Str) -> Option<&'a Value>
    ensures { option_copied result ≡ column_value schema.now (Some row.now) name.now }
{
    row.as_slice().get(find_column(schema, name)?)
}

/// The term's value over an old and a new row of the schema; `None` where its row or its column isn't there.
pub fn value_of<'a>(
    term: &'a Term,
    schema: &Schema,
    old: Option<&'a Tuple>,
    new: Option<&'a Tuple>,
) -> Option<&'a Value>
    ensures { option_copied result ≡ term_value schema.now (option_copied old.entry) (option_copied new.entry) term.now }
{
    match term {
        Term::Const(value) => Some(value),
        Term::New(name) => value_in(new, schema, name),
        Term::Old(name) => value_in(old, schema, name),
    }
}

/// Whether the predicate holds of an old and a new row of the schema. A comparison with a column that isn't there
/// doesn't hold.
pub fn eval(pred: &Pred, schema: &Schema, old: Option<&Tuple>, new: Option<&Tuple>) -> bool
    ensures { result ≡ truth schema.now (option_copied old.entry) (option_copied new.entry) pred.now }
{
    match &pred.node {
        Node::Always => true,
        Node::Cmp(op, left, right) => {
            match (
                value_of(left, schema, old, new),
                value_of(right, schema, old, new),
            ) {
                (Some(left), Some(right)) => holds(*op, compare(left, right)),
                _ => false,
            }
        }
        Node::And(left, right) => eval(left, schema, old, new) && eval(right, schema, old, new),
        Node::Or(left, right) => eval(left, schema, old, new) || eval(right, schema, old, new),
        Node::Not(inner) => !eval(inner, schema, old, new),
    }
}

/// Over rows that fit the schema, both sides of a well-typed comparison have values, and of one kind.
pub fn well_typed_sides_have_values()
    ensures { (schema : List Column) (old new : Option (List Cell)) (op : Sign) (a b : Side)
        → IfSome old (Fits schema) → IfSome new (Fits schema)
        → IsTrue (is_well_typed schema (is_some old) (is_some new) (Compare op a b))
        → HaveOneKind (term_value schema old new a) (term_value schema old new b) }
{}
