//! The pages of a store and pages in memory: two halves, with transactions over both.
#![tactic(auto)]

mod halves;
mod laws;

pub use halves::{Halves, Mark, Tx};
pub use laws::an_abort_gives_what_was_at_begin;
