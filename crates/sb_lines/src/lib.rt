//! The input as lines: which of them ask for a reply, and how much of a line tells what it says.
#![tactic(auto)]

mod lines;

pub use lines::{MOST_HELD, asks, content};
