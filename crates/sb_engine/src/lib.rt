//! An engine at work on a transaction: relations over a space of pages, as work on relations stands on them.
#![tactic(auto)]

mod asking;
mod failing;
mod fitting;
mod late;
mod layer;
mod matching;
mod opening;
mod picks;
mod refusals;
mod running;
mod waiting;
mod wishes;

pub use fitting::prepare;
pub use opening::{open_at, open_named};
pub use refusals::refusal_of;
pub use running::{Running, Work};
pub use sb_asking::{
    OpenRelation, Place, ask, check_rule, descriptor_at, next_descriptor, open_relation, put,
    remove, rule_instance,
};
pub use sb_wishes::is_long_for;
