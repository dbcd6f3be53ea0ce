//! What rows have in columns of some names.

ghost use Rattle.std.specs.Prelude.{◌≡◌};
ghost use Rattle.std.specs.Option.{option_copied};
ghost use Rattle.sb_relation.specs.Rules.{has_values};
ghost use Rattle.sb_asking.specs.Finds.{value_at};

use sb_pred::column_value;
use sb_value::{Schema, Str, Tuple, Value};

/// Whether the row has these values in the named columns, of which those that aren't there are left out.
pub fn has_values(schema: &Schema, columns: &[Str], values: &[Value], row: &Tuple) -> bool
    ensures { result ≡ has_values schema.now columns.now values.now row.now }
{
    let [name, columns @ ..] = columns else {
        return values.is_empty();
    };
    match (column_value(schema, row, name), values) {
        (None, _) => has_values(schema, columns, values, row),
        (Some(value), [first, values @ ..]) => {
            value == first && has_values(schema, columns, values, row)
        }
        (Some(_), []) => false,
    }
}

/// The value at the place of the first column of this name.
pub(crate) fn value_at<'a>(columns: &[Str], values: &'a [Value], name: &Str) -> Option<&'a Value>
    ensures { option_copied result ≡ value_at columns.now values.now name.now }
{
    let [column, columns @ ..] = columns else {
        return None;
    };
    let [value, values @ ..] = values else {
        return None;
    };
    if column == name {
        Some(value)
    } else {
        value_at(columns, values, name)
    }
}
