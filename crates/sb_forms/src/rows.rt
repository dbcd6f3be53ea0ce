//! Rows in the bytes of pages.

ghost use Rattle.std.specs.Prelude.{IfOk};
ghost use Rattle.sb_forms.specs.Stored.{IsRowFrom};

use sb_codec::decode_tuple;
use sb_value::{Schema, Tuple};
use std::alloc::{AllocError, Global};

/// The bytes that the spelling of a row has at most.
const MOST_BYTES: usize = 1000;

/// The row that the bytes spell, where it is one that a relation of these columns may have.
pub fn row_from(alloc: Global, schema: &Schema, bytes: &[u8]) -> Result<Option<Tuple>, AllocError>
    ensures { IfOk result (IsRowFrom schema.now bytes.now) }
{
    if bytes.len() > MOST_BYTES {
        return Ok(None);
    }
    let Some(row) = decode_tuple(alloc, bytes)? else {
        return Ok(None);
    };
    if schema.fits(&row).is_ok() && schema.short_enough(&row) {
        Ok(Some(row))
    } else {
        Ok(None)
    }
}
