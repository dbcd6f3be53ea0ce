//! The law of steps on which rules hold, for what lines say. Laws, without code.
#![tactic(auto)]

pub mod laws;
