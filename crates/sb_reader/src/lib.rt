//! From a line, or from its tokens, to the command that it spells, for the whole command language.
#![tactic(auto)]

mod actions;
mod attachments;
mod commands;
mod control;
mod definitions;
mod indexes;
mod kind;
mod line;
mod reading;
mod rows;
mod rules;
mod verb;

pub use line::{LineFault, one_item, parse_line};
pub use reading::{one_command, read_command};
pub use sb_phrases::Fault;
