//! What a row has in some columns.

ghost use Rattle.std.specs.Prelude.{◌≡◌, IfOk};
ghost use Rattle.sb_relation.specs.Db.{values_in};

use sb_pred::column_value;
use sb_value::{Names, Schema, Tuple};
use std::alloc::{AllocError, Global};

/// The values of a row in the named columns; a column that isn't there has none.
pub fn values_of(
    alloc: Global,
    schema: &Schema,
    row: &Tuple,
    names: &Names,
) -> Result<Tuple, AllocError>
    ensures { IfOk result (λ values. values ≡ values_in schema.now row.now names.now) }
{
    let mut values = Vec::new(alloc);
    for name in names.as_slice() {
        if let Some(value) = column_value(schema, row, name) {
            values.push(value.copy()?)?;
        }
    }
    Ok(Tuple::from_vec(values))
}
