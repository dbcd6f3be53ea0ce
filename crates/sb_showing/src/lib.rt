//! The commands that make a relation, as lines.
#![tactic(auto)]

mod laws;
mod lines;
mod showing;

pub use laws::storable_texts_are_utf8;
pub use showing::show;
