//! Columns that are to be there.

ghost use Rattle.std.specs.Prelude.{◌≡◌, is_none};
ghost use Rattle.sb_drive.specs.Fits.{first_unnamed, places_in};

use sb_pred::kind_of_column;
use sb_value::{Schema, Str};

/// Whether each of these columns is there.
pub fn has_columns(schema: &Schema, columns: &[Str]) -> bool
    ensures { result ≡ is_none (first_unnamed (places_in schema.now columns.now)) }
{
    match columns {
        [name, columns @ ..] => {
            kind_of_column(schema, name).is_some() && has_columns(schema, columns)
        }
        [] => true,
    }
}
