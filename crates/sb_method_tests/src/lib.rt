//! Long runs of trees and heaps, over their libraries. For them a tree is read whole out of the pages that a Ctx holds; and laws
//! say how many pages a walk over a tree asks for.
#![tactic(auto)]

mod checker;
mod laws;

pub use checker::{Tree, held_tree};
pub use laws::{next_walks_are_short, removals_are_short, walks_are_as_long_as_the_tree_is_high};

#[cfg(test)]
mod heaps;
#[cfg(test)]
mod keys;
#[cfg(test)]
mod random;
#[cfg(test)]
mod requests;
#[cfg(test)]
mod rows;
#[cfg(test)]
mod trees;
