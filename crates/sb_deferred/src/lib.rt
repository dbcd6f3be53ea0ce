//! What waits for the commit: the actions that were put off, and the entries that are tested then.
#![tactic(auto)]

mod entry;
pub mod laws;
mod queue;

pub use queue::{Queue, QueueMark};
