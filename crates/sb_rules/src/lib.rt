//! The rules that need no pages: checks, which test each row of a relation by a predicate, and triggers, whose action
//! follows from a change.
#![tactic(auto)]

mod acting;
mod check;
mod keeping;
mod rows;
mod testing;
mod trigger;

pub use check::Check;
pub use trigger::Trigger;
