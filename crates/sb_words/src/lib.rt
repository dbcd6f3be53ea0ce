//! The words of the program's command line, read by `clap`.
#![tactic(auto)]

mod command;
mod matches;
mod words;

pub use words::{Words, read_words};
