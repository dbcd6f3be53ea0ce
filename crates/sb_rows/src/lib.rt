//! The rows of a relation through the live box of its storage method, over any space of pages.
#![tactic(auto)]

mod changes;
mod lookups;
mod paths;
mod scans;

pub use changes::{Placing, delete_row, insert_row, prepare_rows, update_row};
pub use lookups::{get_row, next_row};
pub use scans::{RowTest, keys_where, rows_where};
