//! Relations as a command opens them, by the catalogue of a store.
#![tactic(auto)]

mod instances;
mod opening;
mod reading;
mod relation;
mod rules;

pub use instances::rule_instance;
pub use opening::{next_relation, open_relation};
pub use reading::{descriptor_at, next_descriptor};
pub use relation::OpenRelation;
pub use rules::check_rule;
pub use sb_map::{Place, put, remove};
pub use sb_standing::{RowTest, keys_where};
