//! All boxes, live and spare, as commands ask about them and make them live or spare.
#![tactic(auto)]

mod laws;
mod vectors;

pub use laws::{registering_moves_codes, retiring_moves_codes};
pub use vectors::Vectors;
