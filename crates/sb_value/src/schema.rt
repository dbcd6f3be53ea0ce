//! Columns and their kinds.

ghost use Rattle.std.specs.Prelude.{◌≡◌, IfOk};

use crate::Str;
use std::alloc::AllocError;

#[derive(Clone, Copy, Debug, PartialEq, Eq)]
pub enum Kind {
    Int,
    Text,
}

/// A column of a relation. A text column holds texts of at most `limit` bytes; an int column has the limit 0.
#[derive(Drop)]
pub struct Column {
    pub name: Str,
    pub kind: Kind,
    pub limit: u8,
}

impl Column {
    pub fn copy(&self) -> Result<Column, AllocError>
        ensures { IfOk result (λ c. c ≡ self.now) }
    {
        Ok(Column {
            name: self.name.copy()?,
            kind: self.kind,
            limit: self.limit,
        })
    }
}

/// Where a tuple first departs from its columns, counted from 0: a value is missing there, is one too many, or is of another kind.
#[derive(Clone, Copy, Debug, PartialEq, Eq)]
pub struct TypeFault {
    pub column: u64,
}
