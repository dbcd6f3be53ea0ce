//! Making a store, and restarting one: its log is read, its pages are restored, and its gates are closed.
#![tactic(auto)]

mod change;
mod fault;
mod first_pages;
mod formatting;
mod found;
mod frames;
mod laws;
mod laying;
mod log;
mod restarting;
mod restored;
mod store;
mod super_page;
mod writing;

pub use fault::OpenFault;
pub use formatting::format;
pub use laws::{owners_stand, refused_restarts_leave_the_disk};
pub use restarting::restart;
