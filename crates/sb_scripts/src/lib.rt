//! What the tests of runs give to a run, and what it is to come to: words, disks, scripts and replies.
#![tactic(auto)]

pub mod foreign;
mod row;
pub mod rows;

pub use row::{MAKING, Numbered, OPENED, Row, SIZE, SMALLEST};
