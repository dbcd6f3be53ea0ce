//! Transactions over the pages of a store.
#![tactic(auto)]

mod beginning;
mod book;
mod changes;
mod changing;
mod ending;
mod fault;
mod laws;
mod logging;
mod opening;
mod ranges;
mod steps;
mod store;
mod writing;

pub use fault::StoreFault;
pub use laws::{back_gives_what_was, log_grows_by_the_sum};
pub use store::{Mark, Store, Tx};
