//! Whether a tuple fits the columns of a relation.

ghost use Rattle.std.specs.Prelude.{◌≡◌, IsOk, MatchOption};
ghost use Rattle.sb_value.specs.Fits.{first_misfit, is_short_enough, is_within};

use crate::{Column, Schema, Tuple, TypeFault, Value};

/// Whether the text, where it is one, is within the column's limit.
fn is_within(column: &Column, value: &Value) -> bool
    ensures { result ≡ is_within column.now value.now }
{
    match value {
        Value::Int(_) => true,
        Value::Text(text) => text.len() <= usize::from(column.limit),
    }
}

impl Schema {
    /// Whether each column has a value of its kind and there are no others; else the first place where not.
    pub fn fits(&self, tuple: &Tuple) -> Result<(), TypeFault>
        ensures { MatchOption (first_misfit self.now tuple.now) (IsOk result) (λ n. result ≡ Err (record { column = n })) }
    {
        let columns = self.as_slice();
        let values = tuple.as_slice();
        for (place, column) in columns.iter().enumerate() {
            match values.get(place) {
                Some(value) if value.kind() == column.kind => {}
                _ => return Err(TypeFault {
                    column: place as u64,
                }),
            }
        }
        if columns.len() < values.len() {
            return Err(TypeFault {
                column: columns.len() as u64,
            });
        }
        Ok(())
    }

    /// Whether no text is longer than its column allows, in a tuple that fits.
    pub fn short_enough(&self, tuple: &Tuple) -> bool
        ensures { result ≡ is_short_enough self.now tuple.now }
    {
        let values = tuple.as_slice();
        for (place, column) in self.as_slice().iter().enumerate() {
            let Some(value) = values.get(place) else {
                return true;
            };
            if !is_within(column, value) {
                return false;
            }
        }
        true
    }
}
