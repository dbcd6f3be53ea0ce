//! Relations, their rows and their rules: what a rule admits, follows, queues and contains over a database, and when it holds.
#![tactic(auto)]

mod columns;
mod image;
pub mod laws;

pub use columns::values_of;
pub use image::{Entries, Image, Sums};
pub use sb_rule::{
    Action, Change, Event, Mode, Pairs, Rule, Side, Terms, bind, read_rule, write_rule,
};
