//! Laws of room: whose the pages of a space are in which none is left.
#![tactic(auto)]

mod laws;

pub use laws::{full_is_owned, owners_add_up, same_pages_count_the_same};
