//! What the pages of a store stand for: a database, by its catalogue and its instances.
#![tactic(auto)]

pub mod laws;

pub use sb_rows::{
    Placing, RowTest, delete_row, get_row, insert_row, keys_where, prepare_rows, update_row,
};
