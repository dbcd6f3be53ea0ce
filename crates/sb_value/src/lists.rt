//! Lists of values, names and columns.

ghost use Rattle.std.specs.Prelude.{◌≡◌, ◌==◌, IfOk, length};

use crate::{Column, Str, Value};
use std::alloc::AllocError;
use std::marker::Model;

/// A row of values.
#[derive(Drop)]
pub struct Tuple {
    values: Vec<Value>,
}

impl Model for Tuple {
    ghost use Rattle.std.specs.Prelude.{List};
    ghost use Rattle.sb_value.specs.declared.value.Value.{Value as Cell};

    ghost Value = { List Cell };

    ghost view = { λ t. t.values.items };
}

impl Tuple {
    pub fn from_vec(values: Vec<Value>) -> Tuple
        ensures { result ≡ values.items }
    {
        Tuple { values }
    }

    pub fn into_vec(self) -> Vec<Value>
        ensures { result.items ≡ self }
    {
        self.values
    }

    pub fn as_slice(&self) -> &[Value]
        ensures { result.now ≡ self.now }
    {
        &self.values
    }

    pub fn len(&self) -> usize
        ensures { result ≡ length self.now }
    {
        self.values.len()
    }

    pub fn is_empty(&self) -> bool
        ensures { result ≡ (length self.now == 0) }
    {
        self.values.is_empty()
    }

    pub fn copy(&self) -> Result<Tuple, AllocError>
        ensures { IfOk result (λ t. t ≡ self.now) }
    {
        let mut values = Vec::new(*self.values.allocator());
        for value in &self.values {
            values.push(value.copy()?)?;
        }
        Ok(Tuple { values })
    }
}

/// A row of names, as those of columns.
#[derive(Drop)]
pub struct Names {
    names: Vec<Str>,
}

impl Model for Names {
    ghost use Rattle.std.specs.Prelude.{List, ℕ};

    ghost Value = { List (List ℕ) };

    ghost view = { λ n. n.names.items };
}

impl Names {
    pub fn from_vec(names: Vec<Str>) -> Names
        ensures { result ≡ names.items }
    {
        Names { names }
    }

    pub fn into_vec(self) -> Vec<Str>
        ensures { result.items ≡ self }
    {
        self.names
    }

    pub fn as_slice(&self) -> &[Str]
        ensures { result.now ≡ self.now }
    {
        &self.names
    }

    pub fn len(&self) -> usize
        ensures { result ≡ length self.now }
    {
        self.names.len()
    }

    pub fn is_empty(&self) -> bool
        ensures { result ≡ (length self.now == 0) }
    {
        self.names.is_empty()
    }

    pub fn copy(&self) -> Result<Names, AllocError>
        ensures { IfOk result (λ n. n ≡ self.now) }
    {
        let mut names = Vec::new(*self.names.allocator());
        for name in &self.names {
            names.push(name.copy()?)?;
        }
        Ok(Names { names })
    }
}

/// The columns of a relation.
#[derive(Drop)]
pub struct Schema {
    columns: Vec<Column>,
}

impl Model for Schema {
    ghost use Rattle.std.specs.Prelude.{List};
    ghost use Rattle.sb_value.specs.declared.schema.Column.{Column};

    ghost Value = { List Column };

    ghost view = { λ s. s.columns.items };
}

impl Schema {
    pub fn from_vec(columns: Vec<Column>) -> Schema
        ensures { result ≡ columns.items }
    {
        Schema { columns }
    }

    pub fn into_vec(self) -> Vec<Column>
        ensures { result.items ≡ self }
    {
        self.columns
    }

    pub fn as_slice(&self) -> &[Column]
        ensures { result.now ≡ self.now }
    {
        &self.columns
    }

    pub fn len(&self) -> usize
        ensures { result ≡ length self.now }
    {
        self.columns.len()
    }

    pub fn is_empty(&self) -> bool
        ensures { result ≡ (length self.now == 0) }
    {
        self.columns.is_empty()
    }

    pub fn copy(&self) -> Result<Schema, AllocError>
        ensures { IfOk result (λ s. s ≡ self.now) }
    {
        let mut columns = Vec::new(*self.columns.allocator());
        for column in &self.columns {
            columns.push(column.copy()?)?;
        }
        Ok(Schema { columns })
    }
}
