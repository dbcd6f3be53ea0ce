//! Values, tuples, names and schemas: what a relation's rows are made of.
#![tactic(auto)]

mod bytes;
mod compare;
mod fits;
mod lists;
mod schema;
mod spelling;
mod text;
mod value;

pub use bytes::{Bytes, RecKey};
pub use lists::{Names, Schema, Tuple};
pub use schema::{Column, Kind, TypeFault};
pub use spelling::{int_of, put_value, take_value};
pub use text::Str;
pub use value::Value;
