//! Tests of the pages of boxes in a store, over their libraries. A store of 64 pages and two boxes are also for the tests of `sb_turns_tests`.
#![tactic(auto)]

mod scribe;
mod stores;

pub use scribe::{Clerk, FIRST, Scribe, instance};
pub use stores::{LOG, PAGES, SIZE, opened};

#[cfg(test)]
mod owners;
#[cfg(test)]
mod pages;
