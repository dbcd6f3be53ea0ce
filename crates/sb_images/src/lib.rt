//! The images of a store: where its parts stand, what each image restores, and what the steps of log and pages leave at their moments.
#![tactic(auto)]

mod laws;
mod layout;

pub use laws::{one_geometry, restores_one_way};
pub use layout::{
    GATES, GATES_START, LOG_START, gate_region, is_geometry, log_region, need, place_of,
};
