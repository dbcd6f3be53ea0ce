//! Pages that are lists of entries, in 4,096 bytes each.
//!
//! A page begins with a head of 24 bytes: kind and level of a byte each, the number of entries and the bytes that they
//! take in two bytes each, three numbers of four bytes for the page's owner, and 6 bytes that aren't read. Behind it
//! stand the entries, each the length of its key and of its value in two bytes each, the key, and the value. Keys rise.
//! Numbers have the highest byte first. What lies behind the entries isn't read.
#![tactic(auto)]

mod edits;
mod entries;
mod head;
pub mod kind;
mod laws;
mod walk;

pub use edits::{add, cut, move_tail};
pub use entries::{entry, place};
pub use head::{CAPACITY, Head, clear, form, room, set_head};
pub use laws::head_counts;
pub use walk::Entries;
