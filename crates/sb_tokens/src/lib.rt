//! The tokens of a line: words, numbers, texts, record keys and signs, with their columns.
//!
//! Any number of spaces and tabs may stand between tokens; some must where two tokens would run into one. A token goes on as
//! far as it can: a number takes in every digit behind it, a word every letter, digit and `_`. One that comes out too long by
//! that, a number outside 64 bits or a word of over 32 bytes, is no token, and neither is any shorter front of it.
#![tactic(auto)]

mod quoted;
mod scanner;
mod token;

pub use scanner::{Row, has_one_row, scan};
pub use token::{Ending, Placed, Sign, Token};
