//! What is wanted of one row.

use sb_value::{RecKey, Str, Tuple};

/// A new row; a row that goes; another row in its place; a number more in a column.
#[derive(Drop)]
pub enum Wish {
    Put(Tuple),
    Remove(RecKey),
    Replace(RecKey, Tuple),
    Raise(RecKey, Str, i64),
}
