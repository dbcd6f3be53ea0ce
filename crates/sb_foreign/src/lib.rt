//! Worked boxes of other authors: a storage method that picks its record keys, an attachment that vetoes some rows, one
//! that asks which rows have a number, one that counts the rows in a page, and one with entries.
#![tactic(auto)]

mod count;
mod legend;
mod limit;
mod once;
mod strip;
mod watched;

pub use count::Count;
pub use legend::Legend;
pub use limit::Limit;
pub use once::Once;
pub use strip::Strip;
