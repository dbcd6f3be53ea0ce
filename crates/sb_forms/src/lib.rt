//! What the pages of relations and attachments hold, on which the traits of extensions stand; and rows that are read from
//! bytes of pages.
#![tactic(auto)]

mod rows;

pub use rows::row_from;
pub use sb_relation::{Action, Change, Sums};
