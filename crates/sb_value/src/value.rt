//! Values of columns.

ghost use Rattle.std.specs.Prelude.{◌≡◌, IfOk};
ghost use Rattle.sb_value.specs.Fits.{kind_of};

use crate::{Kind, Str};
use std::alloc::AllocError;

/// What stands in one column of a row.
#[derive(Drop)]
pub enum Value {
    Int(i64),
    Text(Str),
}

impl Value {
    pub fn kind(&self) -> Kind
        ensures { result ≡ kind_of self.now }
    {
        match self {
            Value::Int(_) => Kind::Int,
            Value::Text(_) => Kind::Text,
        }
    }

    pub fn copy(&self) -> Result<Value, AllocError>
        ensures { IfOk result (λ v. v ≡ self.now) }
    {
        match self {
            Value::Int(number) => Ok(Value::Int(*number)),
            Value::Text(text) => Ok(Value::Text(text.copy()?)),
        }
    }
}
