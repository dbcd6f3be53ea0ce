//! One change of a database and all that follows from it, what is built, dropped and finished, and how much room it takes, as types and definitions.
#![tactic(auto)]

pub mod laws;
mod refusal;

pub use refusal::{Refusal, Room};
