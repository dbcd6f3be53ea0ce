//! The plain database: what commands and replies are, and what each command answers and leaves.
#![tactic(auto)]

mod command;
pub mod laws;
mod reply;

pub use command::Command;
pub use reply::{Picks, Reply, Rows};
pub use sb_fold::{Refusal, Room};
pub use sb_relation::{
    Action, Change, Entries, Event, Image, Mode, Pairs, Rule, Side, Sums, Terms, bind, read_rule,
    write_rule,
};
