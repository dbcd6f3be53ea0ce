//! Transactions of an engine over a store: what work keeps beside its pages, points to go back to, and commits.
#![tactic(auto)]

mod commits;
mod finishing;
pub mod laws;
mod points;
mod refusals;
mod transactions;

pub use commits::{commit, commit_pages};
pub use points::{back_to, mark};
pub use refusals::{Committed, Uncommitted};
pub use sb_map::Place;
pub use sb_space::Space;
pub use sb_tables::{OpenRelation, next_descriptor, refusal_of};
pub use transactions::{Point, Transaction, abort, begin, settle};
