//! What is wished of one row of a relation, carried out by the relation's storage method over any space of pages.
#![tactic(auto)]

mod lengths;
mod raising;
mod settling;
mod wishing;

pub use lengths::is_long_for;
pub use settling::Outcome;
pub use wishing::carry_out;
