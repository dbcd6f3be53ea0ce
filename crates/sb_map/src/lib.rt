//! A map from keys to values in the pages of one owner, over any space of pages: the walks over its tree, driven to their end.
#![tactic(auto)]

mod changes;
mod laws;
mod lookups;
mod making;
mod place;
mod turns;

pub use changes::{put, remove};
pub use laws::maps_are_small;
pub use lookups::{get, next};
pub use making::make;
pub use place::Place;
