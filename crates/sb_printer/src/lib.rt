//! Commands and replies as text. The text of a command is a line that says it.
#![tactic(auto)]

mod actions;
mod commands;
mod laws;
mod lists;
mod pieces;
mod predicates;
mod refusals;
mod replies;
mod rules;

pub use commands::print_command;
pub use laws::text_is_a_line;
pub use replies::print_reply;
