//! Attachments as a command asks them: a call with its finds answered by the rows of the relations, and what it says of a change.
#![tactic(auto)]

mod calls;
mod columns;
mod finds;
mod verdicts;

pub use calls::ask;
pub use finds::{ValueTest, find_keys};
pub use sb_opened::{
    OpenRelation, Place, check_rule, descriptor_at, next_descriptor, next_relation, open_relation,
    put, remove, rule_instance,
};
pub use verdicts::{Verdict, ask_rule};
