//! Rules: what attachments keep, forbid and do, how rules are spelled in bytes, and what a change binds in an action.
#![tactic(auto)]

mod action;
mod binding;
mod change;
mod copies;
mod lengths;
mod parts;
mod reading;
mod rule;
mod writing;

pub use action::{Action, Pairs, Terms};
pub use binding::bind;
pub use change::Change;
pub use lengths::{names_len, rule_len, tie_len};
pub use parts::names_of;
pub use reading::read_rule;
pub use rule::{Event, Mode, Rule, Side};
pub use writing::write_rule;
