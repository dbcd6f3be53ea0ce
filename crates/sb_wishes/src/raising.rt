//! A row with a number more in a column.

ghost use Rattle.std.specs.Prelude.{◌≡◌, IfOk, IfSome, Some, slice_set};
ghost use Rattle.sb_pred.specs.Columns.{column_kind, column_value};
ghost use Rattle.sb_relation.specs.Db.{Name};
ghost use Rattle.sb_fold.specs.Wishes.{raised, with_value};
ghost use Rattle.sb_value.specs.declared.schema.Kind.TheVariants as kind;
ghost use Rattle.sb_value.specs.declared.value.Value.TheVariants as value;
ghost use Rattle.sb_value.specs.Fits.{Fits};
ghost use Rattle.sb_wishes.specs.Wished.{number_of, raised_to};

use sb_pred::{column_value, find_column};
use sb_value::{Schema, Str, Tuple, Value};
use std::alloc::AllocError;

/// The row with so much more in a column. None where the sum is outside 64 bits.
pub(crate) fn raised(
    schema: &Schema,
    row: &Tuple,
    column: &Str,
    by: i64,
) -> Result<Option<Tuple>, AllocError>
    requires fits { Fits schema.now row.now }
    requires number { column_kind schema.now column.now ≡ Some kind.Int }
    ensures is { IfOk result (λ new. (name : Name) → raised name schema.now column.now by row.now
        (column_value schema.now (Some row.now) column.now) ≡ raised_to name new) }
    ensures fits { IfOk result (λ new. IfSome new (Fits schema.now)) }
{
    let number = number_in(schema, row, column);
    match number.checked_add(by) {
        Some(sum) => Ok(Some(with_number(schema, row, column, sum)?)),
        None => Ok(None),
    }
}

/// The number that the row has in a number's column.
#[tactic(auto, using(crate::proofs::RaisedLemmas::number_is))]
fn number_in(schema: &Schema, row: &Tuple, column: &Str) -> i64
    requires fits { Fits schema.now row.now }
    requires number { column_kind schema.now column.now ≡ Some kind.Int }
    ensures { column_value schema.now (Some row.now) column.now ≡ Some (value.Int result) }
{
    match number_at(schema, row, column) {
        Some(number) => number,
        None => unreachable!(),
    }
}

/// The number that the row has in a column, where it has one there.
fn number_at(schema: &Schema, row: &Tuple, column: &Str) -> Option<i64>
    ensures { result ≡ number_of (column_value schema.now (Some row.now) column.now) }
{
    match column_value(schema, row, column)? {
        Value::Int(number) => Some(*number),
        Value::Text(_) => None,
    }
}

/// The row with this number in a column.
fn with_number(schema: &Schema, row: &Tuple, column: &Str, number: i64) -> Result<Tuple, AllocError>
    ensures { IfOk result (λ new. new ≡ with_value schema.now column.now (value.Int number) row.now) }
{
    match find_column(schema, column) {
        Some(place) => set_number(row, place, number),
        None => row.copy(),
    }
}

/// The row with this number in a place.
fn set_number(row: &Tuple, place: usize, number: i64) -> Result<Tuple, AllocError>
    ensures { IfOk result (λ new. new ≡ slice_set row.now place (value.Int number)) }
{
    let mut values = row.copy()?.into_vec();
    if let Some(value) = values.get_mut(place) {
        *value = Value::Int(number);
    }
    Ok(Tuple::from_vec(values))
}
