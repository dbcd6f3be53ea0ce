//! Pages of many owners in a store: the owner table, and the pages of one owner as boxed calls are driven over them.
#![tactic(auto)]

mod changing;
mod durable;
mod entries;
mod fault;
mod giving;
mod instances;
mod laws;
mod opening;
mod owners;
mod ownership;
mod space;
mod storing;
mod transactions;

pub use durable::Durable;
pub use instances::{FIRST_INSTANCE, OWNERS, new_marks};
pub use laws::going_back_gives_what_was;
pub use opening::{catalogue, open_store, owner_of};
pub use owners::ENTRIES;
pub use sb_owners::Owners;
pub use transactions::{Mark, Space, Tx};
