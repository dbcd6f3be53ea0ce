//! Which relations may be made and which rules may stand, by names and kinds.
#![tactic(auto)]

mod kinds;
mod others;
mod standing;
mod unnamed;

pub use kinds::{action_fits, method_fits, rule_fits, values_fit};
pub use others::{other_relation, relation_of};
pub use standing::{may_keep, may_stand};
pub use unnamed::{unnamed_action, unnamed_columns, unnamed_rule};
