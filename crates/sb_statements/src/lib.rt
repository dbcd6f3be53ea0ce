//! A command's work on an engine.
#![tactic(auto)]

mod actions;
mod answers;
pub mod laws;
mod opening;
mod rows;
mod statements;
mod tables;

pub use answers::Answer;
pub use statements::work;
