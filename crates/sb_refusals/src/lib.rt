//! What a command is refused by before anything changes.
#![tactic(auto)]

mod catalogue;
mod codes;
mod kinds;
mod lengths;
mod limits;
mod names;
mod places;
mod refusing;
mod seen;
mod ties;
mod twice;
mod uses;

pub use catalogue::Catalogue;
pub use refusing::refuse;
