//! A journal: chunks of bytes, each of which a crash leaves whole or not at all.
#![tactic(auto)]

mod closing;
mod fault;
mod journal;
mod laws;
mod opening;
mod reading;
mod sealing;

pub use fault::JournalFault;
pub use journal::{Journal, MAX_GATES, Region};
pub use laws::{one_reading, past_is_one, past_is_unread};
