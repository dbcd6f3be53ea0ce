//! Trees of entry pages: a map from keys to values over the pages of one instance.
//!
//! The root stays where it is. Leaves hold the entries, and only a root may be a leaf without any. An inner page has two or
//! more children: its number `a` is the leftmost, and each entry has the least key allowed in a child with the child's page
//! in four bytes. Children are one level below their parent, and a tree is at most 17 pages high. Keys are limited to
//! 602 bytes, and a key with its value to 2,032.
#![tactic(auto)]

mod halves;
mod insertion;
mod laws;
mod lookup;
mod page;
mod preparing;
mod removal;
mod walk;

pub use insertion::{insert, replace};
pub use laws::{leaves_are_whole, reads_trees, trees_are_small, trees_are_whole, ways_are_short};
pub use lookup::{LeafEntry, find, next};
pub use preparing::prepare;
pub use removal::remove;
pub use walk::Walk;
