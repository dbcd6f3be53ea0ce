//! Opening a session over the store that a disk holds, or over a new one.
#![tactic(auto)]

mod codes;
mod creating;
mod laws;
mod looking;
mod moving;
mod opening;
mod owners;

pub use codes::Named;
pub use creating::create;
pub use laws::{boxes_may_be_live, boxes_may_move, new_stores_are_empty};
pub use opening::open;
pub use sb_session::Session;
