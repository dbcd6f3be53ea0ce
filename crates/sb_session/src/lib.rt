//! A session of commands over a store: boxes, the pages of the store, and the transaction that is open. The commands that change what a session is, and no relation.
#![tactic(auto)]

mod committing;
mod moving;
mod savepoints;
mod session;
mod transactions;

pub use sb_transactions::{
    Committed, OpenRelation, Transaction, Uncommitted, abort, back_to, begin, commit, mark,
    next_descriptor, settle,
};
pub use session::{Open, Savepoint, Session};
